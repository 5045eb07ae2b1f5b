//! The bits of an entry.

ghost use Rattle.std.specs.Prelude.{⊤, ◌≡◌, [], ◌∷◌, codes};

use bitflags::{Flag, Flags, bitflag_items};

#[derive(Clone, Copy, PartialEq, Eq, Debug)]
pub struct Entry(u64);

bitflag_items! {
    impl Entry: u64 {
        const VALID = 1;
        const TABLE = 2;
        const UNPRIVILEGED = 0x40;
        const READ_ONLY = 0x80;
        const INNER_SHAREABLE = 0x300;
        const ACCESSED = 0x400;
        const NOT_GLOBAL = 0x800;
        const CONTIGUOUS = 0x10_0000_0000_0000;
    }
}

impl Flags for Entry {
    type Bits = u64;

    ghost exact = { ⊤ };

    ghost table = { (codes "VALID", 1) ∷ (codes "TABLE", 2) ∷ (codes "UNPRIVILEGED", 0x40) ∷ (codes "READ_ONLY", 0x80) ∷ (codes "INNER_SHAREABLE", 0x300) ∷ (codes "ACCESSED", 0x400) ∷ (codes "NOT_GLOBAL", 0x800) ∷ (codes "CONTIGUOUS", 0x10000000000000) ∷ [] };

    ghost set_of = { λ e. e.0 };

    fn flags<'a>() -> &'a [Flag<Entry>] {
        Entry::FLAGS
    }

    fn bits(&self) -> u64 {
        self.0
    }

    fn from_bits_retain(bits: u64) -> Entry {
        Entry(bits)
    }
}
