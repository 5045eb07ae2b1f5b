/// The words of equal blocks that follow each other: of so many blocks, each word is the one before it and `step`.
#[derive(Clone, Copy, Debug, PartialEq, Eq)]
pub struct WordRun {
    pub blocks: u64,
    pub step: u64,
}
