//! The format at each number of levels.

ghost use Rattle.std.specs.Prelude.{ℕ, refl};
ghost use Rattle.fmt_nine_bit.specs.CommonWords.{walk_of};
ghost use Rattle.fmt_nine_bit.proofs.CommonEntries.{are_tables};
ghost use Rattle.fmt_vtdss.specs.VtdWords.{words};
ghost use Rattle.fmt_vtdss.specs.VtdLaws.{forms};

use crate::Entry;
use pt_format::{FourKib, FourKibTables};

/// Second-stage tables of `L` levels: 3 (39-bit input addresses), 4 (48 bits) or 5 (57 bits). No other
/// number of levels is a format.
pub type VtdSs<const L: u32> = FourKib<Entry, L>;

impl FourKibTables<3> for Entry {
    const INPUT: u32 = 39;

    ghost INPUT = { 39 };

    ghost walk = { walk_of words 3 };

    ghost are_tables = { are_tables forms 3 refl refl };
}

impl FourKibTables<4> for Entry {
    const INPUT: u32 = 48;

    ghost INPUT = { 48 };

    ghost walk = { walk_of words 4 };

    ghost are_tables = { are_tables forms 4 refl refl };
}

impl FourKibTables<5> for Entry {
    const INPUT: u32 = 57;

    ghost INPUT = { 57 };

    ghost walk = { walk_of words 5 };

    ghost are_tables = { are_tables forms 5 refl refl };
}
