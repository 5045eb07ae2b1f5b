//! The entries of tables of 512 entries over pages of 4 KiB: an address in bits 51:12, PS (page size) in
//! bit 7, and below it the bits that a manual names.

ghost use Rattle.std.specs.Prelude.{◌≡◌, ℕ, ◌+◌, ◌*◌, ◌/◌, ◌%◌, ◌^◌, ◌<◌, ◌≤◌, ◌==◌, MatchOption, IsTrue, bit_and};
ghost use Rattle.pt_model.specs.declared.block.Prot.{Prot};
ghost use Rattle.pt_format.specs.FourKib.{Entries, AreBits, AreRead, IsLeafOf, IsNoLeaf, IsNoPointer, IsPermissionIn, IsPointerOf, leaf, pointer, size_bit};

use crate::frame_address::is_frame_address;
use bitflags::Flags;
use pt_model::Prot;
use pt_num::is_aligned;

/// The bits of the entries of one manual, as flags.
pub trait EntryBits: Flags<Bits = u64> {
    /// What is written, and what the manual's step finds there.
    ghost entries: { Entries };

    /// The bits of a leaf besides its address and PS.
    fn of_leaf(prot: Prot) -> Self
        requires { IsTrue (entries.states prot) }
        ensures { Self.set_of result ≡ entries.of_leaf prot };

    /// The bits of a pointer besides its address.
    fn of_pointer() -> Self
        ensures { Self.set_of result ≡ entries.of_pointer };

    /// PS.
    fn page_size() -> Self
        ensures { Self.set_of result ≡ 2 ^ 7 };

    /// The permission that a leaf states.
    fn permission(&self) -> Prot
        ensures stated { IsTrue (entries.states result) }
        ensures of_leaf { IsPermissionIn entries (Self.set_of self.now) result };

    ghost is_exact: { Self.exact };

    ghost are_bits: { AreBits entries };

    ghost are_read: { AreRead entries };
}

/// The output page in bits 51:12 of a word.
pub fn page_in(word: u64) -> u64
    ensures page { result ≡ word / 2 ^ 12 % 2 ^ 40 }
    ensures within { result < 2 ^ 40 }
{
    word >> 12 & 0xff_ffff_ffff
}

/// The sizes of the leaves of a level: bit `k` for blocks of `2^k` pages.
pub fn sizes(level: u32) -> u64
    ensures low { level < 3 → result ≡ 2 ^ (9 * level) }
    ensures high { 3 ≤ level → result ≡ 0 }
{
    match level {
        0 => 1,
        1 => 1 << 9,
        2 => 1 << 18,
        _ => 0,
    }
}

/// The bytes of a block, which are what is added to its word to make that of the next one of its size where the address
/// stands in place.
pub fn block_bytes(log2: u32) -> u64
    requires { log2 < 52 }
    ensures { result ≡ 2 ^ (12 + log2) }
{
    1 << (12 + log2)
}

/// The output page of an input page by a leaf of a level.
pub fn out_under(level: u32, word: u64, page: u64) -> u64
    requires { level < 6 }
    ensures { result ≡ word / 2 ^ 12 % 2 ^ 40 + page % 2 ^ (9 * level) }
{
    page_in(word) + page % (1 << (9 * level))
}

fn size_bits<E: EntryBits>(level: u32) -> E
    ensures { E.set_of result ≡ size_bit level }
{
    if level == 0 {
        E::from_bits_retain(0)
    } else {
        E::page_size()
    }
}

/// Whether a word has PS.
pub fn has_page_size<E: EntryBits>(word: u64) -> bool
    ensures { result ≡ (bit_and word 128 == 128) }
{
    E::from_bits_retain(word).contains(E::page_size())
}

/// The word of a block onto the pages from `out`.
pub fn leaf_word<E: EntryBits>(level: u32, out: u64, prot: Prot) -> u64
    requires in_output { out < 2 ^ 40 }
    requires stated { IsTrue (E.entries.states prot) }
    ensures { result ≡ leaf E.entries level out prot }
{
    let mut entry = E::from_bits_retain(out << 12);
    entry.insert(E::of_leaf(prot));
    entry.insert(size_bits::<E>(level));
    entry.bits()
}

/// The pointer to the table at `address`.
pub fn table_word<E: EntryBits>(address: u64) -> u64
    requires whole { address % 2 ^ 12 ≡ 0 }
    requires within { address < 2 ^ 52 }
    ensures { result ≡ pointer E.entries address }
{
    let mut entry = E::from_bits_retain(address);
    entry.insert(E::of_pointer());
    entry.bits()
}

/// The permission of a leaf.
pub fn permission_in<E: EntryBits>(word: u64) -> Prot
    ensures stated { IsTrue (E.entries.states result) }
    ensures of_leaf { (level out : ℕ) (prot : Prot) → IsLeafOf E.entries level word out prot → result ≡ prot }
{
    E::from_bits_retain(word).permission()
}

/// The output page and the permission of a leaf, where a word is one.
pub fn read_leaf<E: EntryBits>(level: u32, word: u64) -> Option<(u64, Prot)>
    requires { level < 6 }
    ensures { MatchOption result (IsNoLeaf E.entries level word) (λ r. IsLeafOf E.entries level word r.0 r.1) }
{
    let out = page_in(word);
    let prot = permission_in::<E>(word);
    if level < 3 && is_aligned(out, 9 * level) && word == leaf_word::<E>(level, out, prot) {
        Some((out, prot))
    } else {
        None
    }
}

/// The address of the table that a pointer names, where a word is one.
pub fn read_pointer<E: EntryBits>(level: u32, word: u64) -> Option<u64>
    ensures { MatchOption result (IsNoPointer E.entries level word) (λ address. IsPointerOf E.entries level word address) }
{
    let address = page_in(word) << 12;
    if level > 0 && is_frame_address(12, address) && word == table_word::<E>(address) {
        Some(address)
    } else {
        None
    }
}
