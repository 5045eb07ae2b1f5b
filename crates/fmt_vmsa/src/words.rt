//! The words of entries, whatever the granule.

ghost use Rattle.std.specs.Prelude.{◌≡◌, ℕ, ◌+◌, ◌-◌, ◌*◌, ◌/◌, ◌%◌, ◌^◌, ◌<◌, ◌≤◌, ◌==◌, MatchOption, IsTrue, Bool, bit_and};
ghost use Rattle.pt_model.specs.Layout.{is_common};
ghost use Rattle.pt_model.specs.declared.block.Prot.{Prot};
ghost use Rattle.pt_format.specs.Words.{HasSizes};
ghost use Rattle.pt_manual.specs.VmsaWalk.{IsGranule, index_bits};
ghost use Rattle.fmt_vmsa.specs.VmsaWords as VmsaWords;
ghost use Rattle.fmt_vmsa.specs.VmsaWords.{IsEntryOf, IsNoEntry, IsNoPointer, IsPermissionIn, IsPointerOf, layout, levels_of, of_leaf, pointer, size_of};

use crate::entry::Entry;
use bitflags::Flags;
use pt_format::{Prot, is_frame_address};
use pt_num::is_aligned;

/// The pages that an entry of a level maps, as a log2.
pub fn entry_size(granule: u32, level: u32) -> u32
    requires a_granule { IsGranule granule }
    requires a_level { level < 4 }
    ensures size { result ≡ VmsaWords.entry_size granule level }
    ensures few { result < 40 }
{
    (granule - 3) * level
}

/// The pages that an entry of a level maps.
pub fn entry_pages(granule: u32, level: u32) -> u64
    requires a_granule { IsGranule granule }
    requires a_level { level < 4 }
    ensures { result ≡ 2 ^ VmsaWords.entry_size granule level }
{
    1 << entry_size(granule, level)
}

/// The bytes that an entry of a level maps.
pub fn entry_bytes(granule: u32, level: u32) -> u64
    requires a_granule { IsGranule granule }
    requires a_level { level < 4 }
    ensures { result ≡ 2 ^ (granule + VmsaWords.entry_size granule level) }
{
    1 << (granule + entry_size(granule, level))
}

/// The entries of a contiguous group, as a log2.
pub fn group_log2(granule: u32, level: u32) -> u32
    ensures log2 { result ≡ VmsaWords.group_log2 granule level }
    ensures few { result < 8 }
{
    if granule == 12 {
        4
    } else if granule == 14 && level == 0 {
        7
    } else {
        5
    }
}

/// Whether a level has blocks or pages.
pub fn has_leaves(granule: u32, level: u32) -> bool
    ensures { result ≡ VmsaWords.has_leaves granule level }
{
    if granule == 12 { level < 3 } else { level < 2 }
}

/// In bit `k` whether a block of `2^k` pages is a leaf of a level.
pub fn sizes(granule: u32, level: u32) -> u64
    requires a_granule { IsGranule granule }
    requires a_level { level < levels_of granule }
    ensures { HasSizes (layout granule) level result }
{
    if has_leaves(granule, level) {
        let entry = entry_size(granule, level);
        1 << entry | 1 << (entry + group_log2(granule, level))
    } else {
        0
    }
}

fn leaf_bits(level: u32, prot: Prot) -> Entry
    ensures { result.0 ≡ of_leaf level prot }
{
    let mut bits = Entry::VALID;
    if level == 0 {
        bits.insert(Entry::TABLE);
    }
    bits.insert(Entry::UNPRIVILEGED);
    if prot == Prot::Read {
        bits.insert(Entry::READ_ONLY);
    }
    bits.insert(Entry::INNER_SHAREABLE);
    bits.insert(Entry::ACCESSED);
    bits.insert(Entry::NOT_GLOBAL);
    bits
}

/// The entry of a leaf, onto its own pages from `own`.
pub fn entry_word(granule: u32, level: u32, own: u64, prot: Prot, contiguous: bool) -> u64
    requires a_granule { IsGranule granule }
    requires within { own < 2 ^ (48 - granule) }
    requires stated { IsTrue (is_common prot) }
    ensures { result ≡ VmsaWords.entry_word granule level own prot contiguous }
{
    let mut entry = Entry::from_bits_retain(own << granule);
    entry.insert(leaf_bits(level, prot));
    if contiguous {
        entry.insert(Entry::CONTIGUOUS);
    }
    entry.bits()
}

/// The pointer to the table at `address`.
pub fn table_word(address: u64) -> u64
    requires { address % 2 ^ 12 ≡ 0 }
    ensures { result ≡ pointer address }
{
    let mut entry = Entry::from_bits_retain(address);
    entry.insert(Entry::VALID);
    entry.insert(Entry::TABLE);
    entry.bits()
}

/// The page of the address of a word.
pub fn page_in(granule: u32, word: u64) -> u64
    requires { IsGranule granule }
    ensures page { result ≡ word % 2 ^ 48 / 2 ^ granule }
    ensures within { result < 2 ^ (48 - granule) }
{
    (word & ((1 << 48) - 1)) >> granule
}

/// Whether a word is of a table's or page's kind, not a block's.
pub fn has_table(word: u64) -> bool
    ensures { result ≡ (bit_and word 2 == 2) }
{
    Entry::from_bits_retain(word).contains(Entry::TABLE)
}

/// Whether a word is of a contiguous group.
pub fn is_contiguous(word: u64) -> bool
    ensures { result ≡ (bit_and word (2 ^ 52) == 2 ^ 52) }
{
    Entry::from_bits_retain(word).contains(Entry::CONTIGUOUS)
}

/// The size of the block of an entry, as a log2.
pub fn size_in(granule: u32, level: u32, word: u64) -> u32
    requires a_granule { IsGranule granule }
    requires a_level { level < 4 }
    ensures { result ≡ size_of granule level (bit_and word (2 ^ 52) == 2 ^ 52) }
{
    let size = entry_size(granule, level);
    if is_contiguous(word) {
        size + group_log2(granule, level)
    } else {
        size
    }
}

/// The permission of a leaf.
pub fn permission_in(word: u64) -> Prot
    ensures stated { IsTrue (is_common result) }
    ensures of_leaf { IsPermissionIn word result }
{
    if Entry::from_bits_retain(word).contains(Entry::READ_ONLY) {
        Prot::Read
    } else {
        Prot::ReadWrite
    }
}

/// The permission of an entry of a leaf, where a word is one.
pub fn read_entry(granule: u32, level: u32, word: u64) -> Option<Prot>
    requires a_granule { IsGranule granule }
    requires a_level { level < levels_of granule }
    ensures { MatchOption result (IsNoEntry granule level word) (λ prot. IsEntryOf granule level word prot) }
{
    let own = page_in(granule, word);
    let prot = permission_in(word);
    if has_leaves(granule, level)
        && is_aligned(own, entry_size(granule, level))
        && word == entry_word(granule, level, own, prot, is_contiguous(word))
    {
        Some(prot)
    } else {
        None
    }
}

/// The address of the table that a pointer names, where a word is one.
pub fn read_pointer(granule: u32, level: u32, word: u64) -> Option<u64>
    requires a_granule { IsGranule granule }
    requires a_level { level < levels_of granule }
    ensures { MatchOption result (IsNoPointer granule level word) (λ address. IsPointerOf granule level word address) }
{
    let address = page_in(granule, word) << granule;
    if level > 0 && is_frame_address(granule, address) && word == table_word(address) {
        Some(address)
    } else {
        None
    }
}
