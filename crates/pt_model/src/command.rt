//! What a script asks for.

use crate::block::Prot;

/// A format of page tables, by its name in a script.
#[derive(Clone, Copy, Debug, PartialEq, Eq)]
pub enum Name {
    AmdV1,
    VtdSs3,
    VtdSs4,
    VtdSs5,
    X86L4,
    X86L5,
    Vmsa4,
    Vmsa16,
    Vmsa64,
    Sv39,
    Sv48,
    Sv57,
}

/// What a line of a script's body asks for. Addresses and lengths are in bytes; `va` is an input
/// address and `pa` an output address. `With` and `End` are the lines that part and end the branches
/// of a fork.
#[derive(Clone, Copy, Debug, PartialEq, Eq)]
pub enum What {
    Map {
        va: u64,
        pa: u64,
        len: u64,
        prot: Prot,
    },
    Unmap {
        va: u64,
        len: u64,
    },
    Lookup {
        va: u64,
    },
    Dump,
    Release,
    Fork {
        at: u64,
    },
    With,
    End,
}

/// A line of a script's body, by its number in the script. The first line is number 1.
#[derive(Clone, Copy, Debug, PartialEq, Eq)]
pub struct Command {
    pub line: u32,
    pub what: What,
}

/// What a line after a script's `close` asks for.
#[derive(Clone, Copy, Debug, PartialEq, Eq)]
pub enum AskWhat {
    Walk { va: u64 },
    Census,
}

/// A line after a script's `close`, by its number in the script.
#[derive(Clone, Copy, Debug, PartialEq, Eq)]
pub struct Ask {
    pub line: u32,
    pub what: AskWhat,
}
