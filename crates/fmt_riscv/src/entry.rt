//! The bits of an entry.

ghost use Rattle.std.specs.Prelude.{⊤, ◌≡◌, [], ◌∷◌, codes};

use bitflags::{Flag, Flags, bitflag_items};

#[derive(Clone, Copy, PartialEq, Eq, Debug)]
pub struct Entry(u64);

bitflag_items! {
    impl Entry: u64 {
        const VALID = 1;
        const READ = 2;
        const WRITE = 4;
        const USER = 16;
        const ACCESSED = 64;
        const DIRTY = 128;
        const SIXTEEN = 0x8000_0000_0000_0000;
    }
}

impl Flags for Entry {
    type Bits = u64;

    ghost exact = { ⊤ };

    ghost table = { (codes "VALID", 1) ∷ (codes "READ", 2) ∷ (codes "WRITE", 4) ∷ (codes "USER", 16) ∷ (codes "ACCESSED", 64) ∷ (codes "DIRTY", 128) ∷ (codes "SIXTEEN", 0x8000000000000000) ∷ [] };

    ghost set_of = { λ e. e.0 };

    fn flags<'a>() -> &'a [Flag<Entry>] {
        Entry::FLAGS
    }

    fn bits(&self) -> u64 {
        self.0
    }

    fn from_bits_retain(bits: u64) -> Entry {
        Entry(bits)
    }
}
