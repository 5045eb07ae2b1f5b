use pt_model::Prot;

/// What a word of a table says: the address of a table in bytes, or the `log2` of a leaf's pages and its
/// permission. `Alien` is a word that the format never writes.
#[derive(Clone, Copy, Debug, PartialEq, Eq)]
pub enum Read {
    Empty,
    Table { address: u64 },
    Leaf { log2: u32, prot: Prot },
    Alien,
}
