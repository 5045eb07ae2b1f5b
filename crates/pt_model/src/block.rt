//! Blocks of pages.

/// What a mapping permits a device to do.
#[derive(Clone, Copy, Debug, PartialEq, Eq)]
pub enum Prot {
    Read,
    ReadWrite,
}

/// A block of `2^log2` pages from input page `first`, which translates to the output pages from `out`.
#[derive(Clone, Copy, Debug, PartialEq, Eq)]
pub struct Block {
    pub first: u64,
    pub log2: u32,
    pub out: u64,
    pub prot: Prot,
}
