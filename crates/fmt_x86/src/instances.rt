//! The format at each number of levels.

ghost use Rattle.std.specs.Prelude.{ℕ, refl};
ghost use Rattle.fmt_nine_bit.specs.CommonWords.{walk_of};
ghost use Rattle.fmt_nine_bit.proofs.CommonEntries.{are_tables};
ghost use Rattle.fmt_x86.specs.X86Words.{words};
ghost use Rattle.fmt_x86.specs.X86Laws.{forms};

use crate::Entry;
use pt_format::{FourKib, FourKibTables};

/// Tables of `L` levels: 4 (47-bit input addresses) or 5 (56 bits), which are the lower half of canonical
/// addresses. No other number of levels is a format.
pub type X86<const L: u32> = FourKib<Entry, L>;

impl FourKibTables<4> for Entry {
    const INPUT: u32 = 47;

    ghost INPUT = { 47 };

    ghost walk = { walk_of words 4 };

    ghost are_tables = { are_tables forms 4 refl refl };
}

impl FourKibTables<5> for Entry {
    const INPUT: u32 = 56;

    ghost INPUT = { 56 };

    ghost walk = { walk_of words 5 };

    ghost are_tables = { are_tables forms 5 refl refl };
}
