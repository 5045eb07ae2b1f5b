//! What is wrong with an image.

ghost use Rattle.std.specs.Prelude.{◌≡◌};
ghost use Rattle.pt_image.specs.declared.fault.CheckRefused.TheVariants.{Memory as NoMemory};

use pt_num::Memory;

/// What is wrong with an entry, in the order in which it is tested.
#[derive(Clone, Copy, Debug, PartialEq, Eq)]
pub enum EntryFault {
    /// It isn't zero, and its pages aren't of the space.
    Outside,
    /// It is no word of the format.
    Alien,
    /// It points to no frame of the image.
    Pointer,
    /// It points to the root's frame, or to one to which an earlier entry points.
    Shared,
    /// It is a leaf whose block isn't legal, or hasn't each of its words in its place.
    Group,
    /// It is entry 0 of a table at page 0 above the level at which the space started, and points to no table.
    Spine,
}

/// What is wrong with an image: the first fault in the order in which they are tested.
#[derive(Clone, Copy, Debug, PartialEq, Eq)]
pub enum ImageFault {
    /// It has fewer bytes than its header, or than its header says.
    Truncated {
        have: u64,
        want: u64,
    },
    /// The header's field at this byte is wrong or out of its limits.
    Header {
        offset: u32,
    },
    /// The root's frame isn't one of the image's, or its level isn't one that a root can have.
    Root,
    /// An entry of the table of a level whose first page is `base`.
    Entry {
        level: u32,
        base: u64,
        index: u32,
        fault: EntryFault,
    },
    /// An entry of a frame to which nothing points isn't zero.
    Stray {
        frame: u32,
        index: u32,
    },
}

/// Why an image isn't taken.
#[derive(Clone, Copy, Debug, PartialEq, Eq)]
pub enum CheckRefused {
    /// It isn't good.
    Fault { fault: ImageFault },
    /// No memory was found.
    Memory,
}

impl From<Memory> for CheckRefused {
    ghost from_gives = { λ _ e. e ≡ NoMemory };

    fn from(_memory: Memory) -> CheckRefused {
        CheckRefused::Memory
    }
}
