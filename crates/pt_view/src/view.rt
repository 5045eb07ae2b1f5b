//! Views. No value of a view is made: it is what proofs know of a holder.

use pt_model::{Block, Position};
use std::collections::LinkedList;

/// A table on a holder's path: its frame, and where it is linked.
#[derive(Clone, Copy, Debug, PartialEq, Eq)]
pub struct Node {
    pub frame: u32,
    pub position: Position,
}

/// One of the words of a block: word number `part`, counted from 0.
#[derive(Clone, Copy, Debug, PartialEq, Eq)]
pub struct Piece {
    pub block: Block,
    pub part: u64,
}

/// A frame that is prepared to be linked at a position. The bridge is the old top's frame, which its
/// entry 0 names while a tree grows.
#[derive(Clone, Copy, Debug, PartialEq, Eq)]
pub struct Prepared {
    pub frame: u32,
    pub position: Position,
    pub bridge: Option<u32>,
}

/// What a load showed to be absent.
#[derive(Clone, Copy, Debug, PartialEq, Eq)]
pub enum Absence {
    /// The entry for this position was zero.
    Zero { position: Position },
    /// The root's level was this one.
    Top { level: u32 },
}

/// A store that changed what is mapped.
#[derive(Clone, Copy, Debug, PartialEq, Eq)]
pub enum Change {
    Written { piece: Piece },
    Cleared { piece: Piece },
}

/// What a holder knows of its space.
#[derive(Drop)]
pub struct View {
    /// The frames of the space, and the levels that its tree started with.
    pub frames: u32,
    pub levels: u32,
    /// The span: `count` pages from page `first`.
    pub first: u64,
    pub count: u64,
    /// The words of its blocks, in the order of first pages, its tables off the spine, and its top.
    pub pieces: LinkedList<Piece>,
    pub tables: LinkedList<Position>,
    pub top: u32,
    /// The frames that it holds, first to last, and the frame that the last one's tag names.
    pub purse: LinkedList<u32>,
    pub end: Option<u32>,
    /// The tables that it has gone down, the root first, and the frame that it is about to link.
    pub path: LinkedList<Node>,
    pub prepared: Option<Prepared>,
    /// The frames that it found not free or made so, and the positions that it found linked.
    pub busy: LinkedList<u32>,
    pub known: LinkedList<Position>,
    /// What it has met, in order: the frames that a take found not free, what loads showed to be
    /// absent, and the stores that changed what is mapped.
    pub taken: LinkedList<u32>,
    pub absent: LinkedList<Absence>,
    pub stores: LinkedList<Change>,
}
