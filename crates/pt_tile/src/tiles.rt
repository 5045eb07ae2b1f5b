//! The blocks of a tiling, one at a time.

ghost use Rattle.std.specs.Prelude.{◌≡◌, ℕ, ◌+◌, ◌<◌, ◌≤◌, ◌≢◌, List, IsTrue};
ghost use Rattle.std.specs.Iterator.{YieldsFirst, item_count};
ghost use Rattle.pt_model.specs.declared.block.Block.{Block};
ghost use Rattle.pt_model.specs.Layout.{input_pages, output_pages};
ghost use Rattle.pt_model.specs.Tiling.{tiling};
ghost use Rattle.pt_tile.specs.Sizes.{HasAllSizes};

use crate::sizes::all_sizes;
use pt_format::{Block, Format, Prot};
use pt_num::{Span, greatest_step};
use std::marker::{Model, PhantomData};

/// The blocks that follow each other over a run of pages: at each place the greatest legal block that
/// ends in the run. Places and lengths are in pages.
#[derive(Drop)]
pub struct Tiles<F: Format> {
    first: u64,
    out: u64,
    left: u64,
    prot: Prot,
    // the sizes of the format, as `all_sizes` gives them
    sizes: u64,
    format: PhantomData<F>,
}

impl<F: Format> Model for Tiles<F> {
    ghost Value = { List Block };

    ghost view = { λ t. tiling F.layout t.prot t.first t.out t.left };

    ghost invariant = { λ t. (t.first + t.left ≤ input_pages F.layout)
        × (t.out + t.left ≤ output_pages F.layout)
        × HasAllSizes F.layout t.sizes };
}

impl<F: Format> Tiles<F> {
    /// The tiling of a span onto the output pages from `out`.
    pub fn new(span: Span, out: u64, prot: Prot) -> Tiles<F>
        requires some { span.count ≢ 0 }
        requires stated { IsTrue (F.layout.states prot) }
        requires in_input { span.first + span.count ≤ input_pages F.layout }
        requires in_output { out + span.count ≤ output_pages F.layout }
        ensures { result ≡ tiling F.layout prot span.first out span.count }
    {
        Tiles {
            first: span.first,
            out,
            left: span.count,
            prot,
            sizes: all_sizes::<F>(),
            format: PhantomData,
        }
    }
}

impl<F: Format> Iterator for Tiles<F> {
    type Item = Block;

    ghost next_gives = { YieldsFirst (λ blocks. blocks) };

    ghost remaining = { item_count (λ blocks. blocks) };

    fn next(&mut self) -> Option<Block> {
        if self.left == 0 {
            return None;
        }
        let log2 = greatest_step(self.first, self.out, self.left, self.sizes);
        let pages = 1 << log2;
        let block = Block {
            first: self.first,
            log2,
            out: self.out,
            prot: self.prot,
        };
        self.first += pages;
        self.out += pages;
        self.left -= pages;
        Some(block)
    }
}
