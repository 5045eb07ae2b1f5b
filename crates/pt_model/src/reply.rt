//! What a script is answered.

use crate::block::{Block, Prot};
use std::marker::Model;

/// The answer to a `map`. The address is an input address, in bytes.
#[derive(Clone, Copy, Debug, PartialEq, Eq)]
pub enum MapAnswer {
    Mapped,
    Misaligned,
    Outside,
    Output,
    Occupied { address: u64 },
    Frames,
}

/// The answer to an `unmap`: how many pages are no longer mapped, or why nothing changed. The block is the
/// lowest one that the range cuts.
#[derive(Clone, Copy, Debug, PartialEq, Eq)]
pub enum UnmapAnswer {
    Unmapped { pages: u64 },
    Misaligned,
    Outside,
    Cuts { block: Block },
}

/// The answer to a `lookup`. The output address is in bytes.
#[derive(Clone, Copy, Debug, PartialEq, Eq)]
pub enum LookupAnswer {
    Found { out: u64, prot: Prot },
    Nothing,
    Outside,
}

/// The answer to a `fork`: its branches run, or why they don't. The block is the one that the cut crosses.
#[derive(Clone, Copy, Debug, PartialEq, Eq)]
pub enum ForkAnswer {
    Forked,
    Misaligned,
    Outside,
    Cuts { block: Block },
}

/// Blocks, seen as a list.
#[derive(Drop)]
pub struct Listed {
    blocks: Vec<Block>,
}

impl Model for Listed {
    ghost use Rattle.std.specs.Prelude.{List};
    ghost use Rattle.pt_model.specs.declared.block.Block.{Block};

    ghost Value = { List Block };

    ghost view = { λ s. s.blocks.items };
}

impl Listed {
    ghost use Rattle.std.specs.Prelude.{◌≡◌};

    /// The list of these blocks.
    pub fn of(blocks: Vec<Block>) -> Listed
        ensures { result ≡ blocks.items }
    {
        Listed { blocks }
    }

    pub fn blocks(&self) -> &[Block]
        ensures { result.now ≡ self.now }
    {
        &self.blocks
    }
}

/// The answer to a `dump`: how many blocks the span has, and the lowest thousand of them, or all where they are fewer.
#[derive(Drop)]
pub struct Dump {
    pub count: u64,
    pub lowest: Listed,
}

/// What a closed space holds: the levels of its tree, its linked tables, empty ones too, its blocks, and the pages
/// that these map.
#[derive(Clone, Copy, Debug, PartialEq, Eq)]
pub struct Census {
    pub levels: u32,
    pub tables: u64,
    pub blocks: u64,
    pub pages: u64,
}

/// The answer to a command, or to what is asked after a script's `close`. A walk answers the output address, in bytes,
/// and what is permitted.
#[derive(Drop)]
pub enum Answer {
    Map(MapAnswer),
    Unmap(UnmapAnswer),
    Lookup(LookupAnswer),
    Dump(Dump),
    Release,
    Fork(ForkAnswer),
    Walk(Option<(u64, Prot)>),
    Census(Census),
}

/// The answer to the command on a line.
#[derive(Drop)]
pub struct Reply {
    pub line: u32,
    pub answer: Answer,
}
