//! Where the check stands: a table, and an entry of it.

ghost use Rattle.std.specs.Prelude.{◌≡◌};
ghost use Rattle.pt_image.specs.declared.fault.ImageFault.TheVariants as F;

use crate::fault::{EntryFault, ImageFault};

/// The table in a frame, of a level, whose first page is `base`.
#[derive(Clone, Copy)]
pub(crate) struct Table {
    pub(crate) frame: u32,
    pub(crate) level: u32,
    pub(crate) base: u64,
}

/// An entry of a table: its number, its first page and its word.
#[derive(Clone, Copy)]
pub(crate) struct Entry {
    pub(crate) number: u32,
    pub(crate) first: u64,
    pub(crate) word: u64,
}

impl Table {
    /// The fault of an entry.
    pub(crate) fn fault(self, index: u32, fault: EntryFault) -> ImageFault
        ensures { result ≡ F.Entry self.level self.base index fault }
    {
        ImageFault::Entry {
            level: self.level,
            base: self.base,
            index,
            fault,
        }
    }
}
