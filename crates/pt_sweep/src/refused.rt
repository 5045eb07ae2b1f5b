//! Why an unmap is refused.

use pt_model::Block;

/// Why a range is not taken away, in the order in which the causes are tested.
#[derive(Clone, Copy, Debug, PartialEq, Eq)]
pub enum UnmapRefused {
    /// The address or the length is not of whole pages, or the length is 0.
    Misaligned,
    /// The range is not inside the span.
    OutsideLease,
    /// The range has pages of a block and not all of them; the lowest such block.
    CutsEntry { block: Block },
}
