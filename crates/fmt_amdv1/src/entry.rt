//! The bits of an entry.

ghost use Rattle.std.specs.Prelude.{⊤, ◌≡◌, [], ◌∷◌, codes};

use bitflags::{Flag, Flags, bitflag_items};

#[derive(Clone, Copy, PartialEq, Eq, Debug)]
pub struct Entry(u64);

bitflag_items! {
    impl Entry: u64 {
        const PRESENT = 1;
        const READ = 0x2000_0000_0000_0000;
        const WRITE = 0x4000_0000_0000_0000;
    }
}

impl Flags for Entry {
    type Bits = u64;

    ghost exact = { ⊤ };

    ghost table = { (codes "PRESENT", 1) ∷ (codes "READ", 0x2000000000000000) ∷ (codes "WRITE", 0x4000000000000000) ∷ [] };

    ghost set_of = { λ e. e.0 };

    fn flags<'a>() -> &'a [Flag<Entry>] {
        Entry::FLAGS
    }

    fn bits(&self) -> u64 {
        self.0
    }

    fn from_bits_retain(bits: u64) -> Entry {
        Entry(bits)
    }
}
