// The lines of a script, and what they begin with.
use pt_model::{AskWhat, Name, Prot, What};

/// The branch of a fork.
#[derive(Clone, Copy, Debug, Default, PartialEq, Eq)]
pub enum Side {
    #[default]
    Left,
    Right,
}

/// The first word of a line.
#[derive(Clone, Copy, Debug, PartialEq, Eq)]
pub enum Keyword {
    Format,
    Frames,
    Hold,
    Map,
    Unmap,
    Lookup,
    Dump,
    Release,
    Fork,
    With,
    End,
    Close,
    Walk,
    Census,
}

/// A line of a script. Addresses and lengths are in bytes. A `format` line states `levels` where its
/// format is `amdv1`; otherwise they are the format's.
#[derive(Clone, Copy, Debug, PartialEq, Eq)]
pub enum Line {
    Format {
        name: Name,
        levels: u64,
    },
    Frames {
        frames: u64,
    },
    Hold {
        hold: u64,
    },
    Map {
        va: u64,
        pa: u64,
        len: u64,
        prot: Prot,
    },
    Unmap {
        va: u64,
        len: u64,
    },
    Lookup {
        va: u64,
    },
    Dump,
    Release,
    Fork {
        at: u64,
    },
    With,
    End,
    Close,
    Walk {
        va: u64,
    },
    Census,
}
