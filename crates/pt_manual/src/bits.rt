//! The bits of an entry of 64 bits that has an address in bits 51:12.

ghost use Rattle.std.specs.Prelude.{◌≡◌, ◌+◌, ◌%◌, ◌^◌, ◌<◌, ◌≤◌};
ghost use Rattle.pt_manual.specs.EntryBits as EntryBits;
ghost use Rattle.pt_manual.specs.EntryBits.{address_of};

/// The bits 51:12 of a word, in place.
pub fn address_in(word: u64) -> u64
    ensures address { result ≡ address_of word }
    ensures within { result < 2 ^ 52 }
    ensures part { result ≤ word }
{
    (word >> 12 & 0xff_ffff_ffff) << 12
}

/// Whether all bits of `set` are 1.
pub fn has(set: u64, bits: u64) -> bool
    ensures { result ≡ EntryBits.has set bits }
{
    bits & set == set
}

/// Whether all bits of `set` are 1, those of `free` are either, and every other bit is 0.
pub fn has_only(set: u64, free: u64, bits: u64) -> bool
    requires { set + free < 2 ^ 64 }
    ensures { result ≡ EntryBits.has_only set free bits }
{
    has(set, bits) && bits & (set + free) == bits
}

/// Whether an address is a multiple of `2^log2`.
pub fn is_aligned(log2: u32, address: u64) -> bool
    requires { log2 < 64 }
    ensures { result ≡ EntryBits.is_aligned log2 address }
{
    address % (1 << log2) == 0
}
