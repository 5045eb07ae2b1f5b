//! The words of entries.

ghost use Rattle.std.specs.Prelude.{◌≡◌, ℕ, ◌+◌, ◌*◌, ◌/◌, ◌%◌, ◌^◌, ◌<◌, ◌≤◌, MatchOption, IsTrue};
ghost use Rattle.pt_model.specs.Layout.{is_common};
ghost use Rattle.pt_model.specs.declared.block.Prot.{Prot};
ghost use Rattle.pt_manual.specs.AmdWalk as AmdWalk;
ghost use Rattle.fmt_amdv1.specs.AmdWords as AmdWords;
ghost use Rattle.fmt_amdv1.specs.AmdWords.{IsLeafOf, IsNoLeaf, IsNoPointer, IsPointerOf, IsSizeOf, leaf, pointer, word_of};

use crate::entry::Entry;
use bitflags::Flags;
use pt_format::{Prot, is_frame_address, page_in};

/// The next level of a leaf whose size is coded in its address.
const CODED: u64 = 7;

fn bits_of(prot: Prot) -> Entry
    ensures { result.0 ≡ AmdWords.bits_of prot }
{
    let mut bits = Entry::PRESENT;
    bits.insert(Entry::READ);
    if prot == Prot::ReadWrite {
        bits.insert(Entry::WRITE);
    }
    bits
}

/// The word with a number in its address bits, a next level and a permission.
fn word_of(number: u64, next: u64, prot: Prot) -> u64
    requires number { number < 2 ^ 40 }
    requires next { next < 2 ^ 3 }
    requires stated { IsTrue (is_common prot) }
    ensures { result ≡ word_of number next prot }
{
    let mut entry = Entry::from_bits_retain((number << 12) + (next << 9));
    entry.insert(bits_of(prot));
    entry.bits()
}

/// Each word of a block of `2^log2` pages onto the pages from `out`.
pub fn leaf_word(level: u32, log2: u32, out: u64, prot: Prot) -> u64
    requires a_size { IsSizeOf level log2 }
    requires within { out + 2 ^ log2 ≤ 2 ^ 40 }
    requires stated { IsTrue (is_common prot) }
    ensures { result ≡ leaf level log2 out prot }
{
    if log2 == 9 * level {
        word_of(out, 0, prot)
    } else {
        word_of(out + ((1 << (log2 - 1)) - 1), CODED, prot)
    }
}

/// The pointer in a table of a level to the table at `address`.
pub fn table_word(level: u32, address: u64) -> u64
    requires level { level < 6 }
    requires address { address < 2 ^ 52 }
    ensures { result ≡ pointer level address }
{
    word_of(address >> 12, level as u64, Prot::ReadWrite)
}

/// The next level, in bits 11:9.
pub fn next_level_in(word: u64) -> u64
    ensures next { result ≡ AmdWalk.next_level word }
    ensures within { result < 2 ^ 3 }
{
    word >> 9 & 7
}

/// The size of a leaf, as the log2 of its pages.
pub fn log2_in(level: u32, word: u64) -> u32
    requires { level < 6 }
    ensures { result ≡ AmdWords.log2_in level word }
{
    if next_level_in(word) == CODED {
        page_in(word).trailing_ones() + 1
    } else {
        9 * level
    }
}

/// The permission of a leaf.
pub fn permission_in(word: u64) -> Prot
    ensures stated { IsTrue (is_common result) }
    ensures of_leaf { (level log2 out : ℕ) (prot : Prot) → IsLeafOf level log2 out word prot → result ≡ prot }
{
    if Entry::from_bits_retain(word).contains(Entry::WRITE) {
        Prot::ReadWrite
    } else {
        Prot::Read
    }
}

/// The size of a leaf, where a word is one.
pub fn read_size(level: u32, word: u64) -> Option<u32>
    requires { level < 6 }
    ensures { MatchOption result (IsNoLeaf level word) (λ log2. (out : ℕ) × (prot : Prot) × IsLeafOf level log2 out word prot) }
{
    let log2 = log2_in(level, word);
    if level > 2 || log2 / 9 != level {
        return None;
    }
    let number = page_in(word);
    let out = number - number % (1 << log2);
    if word == leaf_word(level, log2, out, permission_in(word)) {
        Some(log2)
    } else {
        None
    }
}

/// The address of the table that a pointer names, where a word is one.
pub fn read_pointer(level: u32, word: u64) -> Option<u64>
    requires { level < 6 }
    ensures { MatchOption result (IsNoPointer level word) (λ address. IsPointerOf level word address) }
{
    let address = page_in(word) << 12;
    if level > 0 && is_frame_address(12, address) && word == table_word(level, address) {
        Some(address)
    } else {
        None
    }
}
