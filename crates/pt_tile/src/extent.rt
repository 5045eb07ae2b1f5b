//! Extents: what a request maps, and the steps by which it is gone through.

ghost use Rattle.std.specs.Prelude.{◌≡◌, ℕ, ◌+◌, ◌-◌, ◌*◌, ◌^◌, ◌<◌, ◌≤◌, IsTrue, min};
ghost use Rattle.pt_model.specs.Tables.{end_of_table, position_over};
ghost use Rattle.pt_tile.specs.Extents as extents;
ghost use Rattle.pt_tile.specs.Extents.{IsExtent, IsRun};

use crate::runs::run_length;
use crate::sizes::all_sizes;
use pt_format::{Block, Format, Prot};
use pt_num::{greatest_step, is_aligned};

/// The pages from `first` to before `end`, mapped onto the output pages from `out`.
#[derive(Clone, Copy, Debug, PartialEq, Eq)]
pub struct Extent {
    pub first: u64,
    pub end: u64,
    pub out: u64,
    pub prot: Prot,
}

impl Extent {
    /// The size of the first block of its tiling, which has `2^result` pages.
    pub fn first_size<F: Format>(self) -> u32
        requires { IsExtent F.layout self }
        ensures { result ≡ extents.first_size F.layout self }
    {
        greatest_step(
            self.first,
            self.out,
            self.end - self.first,
            all_sizes::<F>(),
        )
    }

    /// The same of an extent whose first block isn't one of a table above a level. Where that is the lowest, and it has
    /// blocks of one page alone, nothing is computed.
    #[inline(always)]
    pub fn size_at<F: Format>(self, level: u32) -> u32
        requires extent { IsExtent F.layout self }
        requires low { extents.first_size F.layout self < F.layout.index * (level + 1) }
        ensures { result ≡ extents.first_size F.layout self }
    {
        if level == 0 && F::sizes(0) == 1 {
            return 0;
        }
        self.first_size::<F>()
    }

    /// The block of `2^log2` pages that begins where it does.
    pub fn block(self, log2: u32) -> Block
        ensures { result ≡ extents.block log2 self }
    {
        Block {
            first: self.first,
            log2,
            out: self.out,
            prot: self.prot,
        }
    }

    /// Whether it is one block, of `2^log2` pages.
    #[inline(always)]
    pub fn is_block<F: Format>(self, log2: u32) -> bool
        requires extent { IsExtent F.layout self }
        requires small { log2 < 64 }
        ensures { IsTrue result → (log2 ≡ extents.first_size F.layout self) × (self.end ≡ self.first + 2 ^ log2) }
    {
        if self.end - self.first != 1 << log2 {
            return false;
        }
        if !is_aligned(self.first, log2) {
            return false;
        }
        if !is_aligned(self.out, log2) {
            return false;
        }
        all_sizes::<F>() >> log2 & 1 == 1
    }

    /// How many blocks of the first one's size, `2^log2` pages, come first in its tiling at least.
    pub fn run<F: Format>(self, log2: u32) -> u64
        requires extent { IsExtent F.layout self }
        requires first { log2 ≡ extents.first_size F.layout self }
        ensures { IsRun F.layout self result }
    {
        run_length::<F>(
            self.first,
            self.out,
            self.end - self.first,
            log2,
            all_sizes::<F>(),
        )
    }

    /// The same of an extent under one table of a level. Where the size is the greatest of that level, every block
    /// that fits is of it, since no greater one can begin inside a table.
    #[inline(always)]
    pub fn run_under<F: Format>(self, level: u32, log2: u32) -> u64
        requires extent { IsExtent F.layout self }
        requires first { log2 ≡ extents.first_size F.layout self }
        requires level { level < F.layout.levels }
        requires under { self.end ≤ end_of_table F.layout (position_over F.layout self.first level) }
        ensures { IsRun F.layout self result }
    {
        if F::sizes(level) >> log2 == 1 {
            return (self.end - self.first) >> log2;
        }
        self.run::<F>(log2)
    }

    /// What there is of it before a page.
    pub fn up_to(self, page: u64) -> Extent
        ensures { result ≡ extents.up_to self (min page self.end) }
    {
        Extent {
            end: u64::min(page, self.end),
            ..self
        }
    }

    /// What is left of it from a page on.
    pub fn from(self, page: u64) -> Extent
        requires first { self.first ≤ page }
        requires end { page ≤ self.end }
        requires few { self.out + (self.end - self.first) ≤ 2 ^ 52 }
        ensures { result ≡ extents.from self page }
    {
        Extent {
            first: page,
            out: self.out + (page - self.first),
            ..self
        }
    }
}
