//! The bits of an entry.

ghost use Rattle.std.specs.Prelude.{⊤, ◌≡◌, [], ◌∷◌, codes};
ghost use Rattle.fmt_nine_bit.specs.CommonWords.{entries_of};
ghost use Rattle.fmt_nine_bit.proofs.CommonEntries as Laws;
ghost use Rattle.fmt_x86.specs.X86Words.{words};
ghost use Rattle.fmt_x86.specs.X86Laws.{forms};

use bitflags::{Flag, Flags, bitflag_items};
use pt_format::{EntryBits, Prot};

#[derive(Clone, Copy, PartialEq, Eq, Debug)]
pub struct Entry(u64);

bitflag_items! {
    impl Entry: u64 {
        const PRESENT = 1;
        const WRITABLE = 2;
        const USER = 4;
        const ACCESSED = 32;
        const DIRTY = 64;
        const PAGE_SIZE = 128;
    }
}

impl Flags for Entry {
    type Bits = u64;

    ghost exact = { ⊤ };

    ghost table = { (codes "PRESENT", 1) ∷ (codes "WRITABLE", 2) ∷ (codes "USER", 4) ∷ (codes "ACCESSED", 32) ∷ (codes "DIRTY", 64) ∷ (codes "PAGE_SIZE", 128) ∷ [] };

    ghost set_of = { λ e. e.0 };

    fn flags<'a>() -> &'a [Flag<Entry>] {
        Entry::FLAGS
    }

    fn bits(&self) -> u64 {
        self.0
    }

    fn from_bits_retain(bits: u64) -> Entry {
        Entry(bits)
    }
}

impl EntryBits for Entry {
    ghost entries = { entries_of words };

    ghost is_exact = { tt };

    ghost are_bits = { Laws.are_bits forms };

    ghost are_read = { Laws.are_read forms };

    fn of_leaf(prot: Prot) -> Entry {
        let mut bits = Entry::PRESENT;
        bits.insert(Entry::USER);
        bits.insert(Entry::ACCESSED);
        bits.insert(Entry::DIRTY);
        if prot == Prot::ReadWrite {
            bits.insert(Entry::WRITABLE);
        }
        bits
    }

    fn of_pointer() -> Entry {
        let mut bits = Entry::PRESENT;
        bits.insert(Entry::WRITABLE);
        bits.insert(Entry::USER);
        bits.insert(Entry::ACCESSED);
        bits
    }

    fn page_size() -> Entry {
        Entry::PAGE_SIZE
    }

    fn permission(&self) -> Prot {
        if self.contains(Entry::WRITABLE) {
            Prot::ReadWrite
        } else {
            Prot::Read
        }
    }
}
