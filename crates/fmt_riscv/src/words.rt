//! The words of entries, whatever the number of levels.

ghost use Rattle.std.specs.Prelude.{◌≡◌, ℕ, ◌+◌, ◌*◌, ◌/◌, ◌%◌, ◌^◌, ◌<◌, ◌≤◌, ◌==◌, MatchOption, IsTrue, bit_and};
ghost use Rattle.pt_model.specs.Layout.{is_common};
ghost use Rattle.pt_model.specs.declared.block.Prot.{Prot};
ghost use Rattle.pt_manual.specs.RiscvWalk as RiscvWalk;
ghost use Rattle.fmt_riscv.specs.RiscvWords.{IsNoPointer, IsNoSingle, IsNoSixteen, IsPermissionIn, IsPointerOf, IsSingle, IsSixteen, leaf, of_leaf, pointer, single, sixteen};

use crate::entry::Entry;
use bitflags::Flags;
use pt_format::{Prot, is_frame_address};
use pt_num::is_aligned;

fn leaf_bits(prot: Prot) -> Entry
    ensures { result.0 ≡ of_leaf prot }
{
    let mut bits = Entry::VALID;
    bits.insert(Entry::READ);
    bits.insert(Entry::USER);
    bits.insert(Entry::ACCESSED);
    bits.insert(Entry::DIRTY);
    if prot == Prot::ReadWrite {
        bits.insert(Entry::WRITE);
    }
    bits
}

/// The word of a block of what an entry maps, onto the pages from `out`.
pub fn single_word(out: u64, prot: Prot) -> u64
    requires { out < 2 ^ 44 }
    ensures { result ≡ single out prot }
{
    let mut entry = Entry::from_bits_retain(out << 10);
    entry.insert(leaf_bits(prot));
    entry.bits()
}

/// Each word of a block of sixteen pages, onto the pages from `out`.
pub fn sixteen_word(out: u64, prot: Prot) -> u64
    requires within { out + 16 ≤ 2 ^ 44 }
    requires stated { IsTrue (is_common prot) }
    ensures { result ≡ sixteen out prot }
{
    let mut entry = Entry::from_bits_retain((out + 8) << 10);
    entry.insert(leaf_bits(prot));
    entry.insert(Entry::SIXTEEN);
    entry.bits()
}

/// The pointer to the table at `address`.
pub fn table_word(address: u64) -> u64
    requires { address % 2 ^ 12 ≡ 0 }
    ensures { result ≡ pointer address }
{
    let mut entry = Entry::from_bits_retain(address >> 2);
    entry.insert(Entry::VALID);
    entry.bits()
}

/// The pages that an entry of a level maps.
pub fn entry_pages(level: u32) -> u64
    requires { level < 5 }
    ensures { result ≡ 2 ^ (9 * level) }
{
    1 << (9 * level)
}

/// What is added to the word of a block to make that of the next one of its size.
pub fn step(log2: u32) -> u64
    requires { log2 < 44 }
    ensures { result ≡ 2 ^ (10 + log2) }
{
    1 << (10 + log2)
}

/// The page number in bits 53:10.
pub fn number_in(word: u64) -> u64
    ensures number { result ≡ RiscvWalk.number_in word }
    ensures within { result < 2 ^ 44 }
{
    word >> 10 & 0xfff_ffff_ffff
}

/// Whether a word has R, which every leaf has and no pointer.
pub fn has_read(word: u64) -> bool
    ensures { result ≡ (bit_and word 2 == 2) }
{
    Entry::from_bits_retain(word).contains(Entry::READ)
}

/// Whether a word has N, which the words of blocks of sixteen pages have.
pub fn is_of_sixteen(word: u64) -> bool
    ensures { result ≡ (bit_and word (2 ^ 63) == 2 ^ 63) }
{
    Entry::from_bits_retain(word).contains(Entry::SIXTEEN)
}

/// The permission of a leaf.
pub fn permission_in(word: u64) -> Prot
    ensures stated { IsTrue (is_common result) }
    ensures of_leaf { IsPermissionIn word result }
{
    if Entry::from_bits_retain(word).contains(Entry::WRITE) {
        Prot::ReadWrite
    } else {
        Prot::Read
    }
}

/// The permission of a leaf of what an entry maps, where a word is one.
pub fn read_single(level: u32, word: u64) -> Option<Prot>
    requires { level < 5 }
    ensures { MatchOption result (IsNoSingle level word) (λ prot. (out : ℕ) × IsSingle level out word prot) }
{
    let out = number_in(word);
    let prot = permission_in(word);
    if is_aligned(out, 9 * level) && word == single_word(out, prot) {
        Some(prot)
    } else {
        None
    }
}

/// The permission of a leaf of sixteen pages, where a word is one.
pub fn read_sixteen(word: u64) -> Option<Prot>
    ensures { MatchOption result (IsNoSixteen word) (λ prot. (out : ℕ) × IsSixteen out word prot) }
{
    let number = number_in(word);
    let prot = permission_in(word);
    if number % 16 == 8 && word == sixteen_word(number - 8, prot) {
        Some(prot)
    } else {
        None
    }
}

/// The address of the table that a pointer names, where a word is one.
pub fn read_pointer(level: u32, word: u64) -> Option<u64>
    ensures { MatchOption result (IsNoPointer level word) (λ address. IsPointerOf level word address) }
{
    let address = number_in(word) << 12;
    if level > 0 && is_frame_address(12, address) && word == table_word(address) {
        Some(address)
    } else {
        None
    }
}
