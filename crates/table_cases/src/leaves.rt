//! Whether words are those of blocks.

ghost use Rattle.pt_model.specs.declared.block.Prot.{Prot};
ghost use Rattle.pt_format.specs.Words.{MayBeLeaf};

use pt_format::{Format, Prot, Read};

/// Whether this is the word of a block, is read back, and is of no form with the bits `other` set too. The block is given by
/// the level of its table, the log2 of its pages and its first output page.
pub(crate) fn is_word<F: Format>(leaf: (u32, u32, u64), prot: Prot, word: u64, other: u64) -> bool
    requires { MayBeLeaf F.layout leaf.0 leaf.1 leaf.2 prot 0 }
{
    let (level, log2, out) = leaf;
    F::leaf_word(level, log2, out, prot, 0) == word
        && F::read_word(level, word) == Read::Leaf { log2, prot }
        && F::read_word(level, word | other) == Read::Alien
}
