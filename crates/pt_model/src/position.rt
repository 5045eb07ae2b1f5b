//! Places of tables.

/// The place of a table in a tree: its level, 0 being the lowest, and the first input page under it.
#[derive(Clone, Copy, Debug, PartialEq, Eq)]
pub struct Position {
    pub level: u32,
    pub base: u64,
}
