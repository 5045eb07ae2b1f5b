//! The block of a leaf.

ghost use Rattle.std.specs.Prelude.{◌≡◌, ℕ, ◌<◌, ◌≤◌, ◌^◌};
ghost use Rattle.pt_model.specs.declared.block.Block.{Block};
ghost use Rattle.pt_model.specs.Layout as layout;
ghost use Rattle.pt_model.specs.Layout.{input_pages};
ghost use Rattle.pt_walk.specs.RangeWalks.{IsBlockOf};

use pt_format::{Block, Format, Read};
use pt_num::align_down;

/// The block of which this word, in a table of this level, is the word over a page.
pub fn block_of<F: Format>(level: u32, word: u64, page: u64) -> Block
    requires some { (b : Block) × IsBlockOf F.layout level word page b }
    requires a_page { page < input_pages F.layout }
    ensures { (b : Block) → IsBlockOf F.layout level word page b → result ≡ b }
{
    let Read::Leaf { log2, prot } = F::read_word(level, word) else {
        unreachable!()
    };
    let first = align_down(page, log2);
    Block {
        first,
        log2,
        out: F::out_of(level, word, page) - (page - first),
        prot,
    }
}

/// The page after the last one of a block.
pub(crate) fn end_of(block: Block) -> u64
    requires { layout.end_of block ≤ 2 ^ 52 }
    ensures { result ≡ layout.end_of block }
{
    block.first + (1 << block.log2)
}
