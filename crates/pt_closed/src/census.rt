//! The count over tags and entries.

ghost use Rattle.std.specs.Prelude.{◌≡◌, ◌^◌, ◌<◌, ◌≤◌, IsTrue, Option, length};
ghost use Rattle.pt_model.specs.Dumps as dumps;
ghost use Rattle.pt_model.specs.Words.{entry_of, frame_limit, placed_at, tag, word_count};
ghost use Rattle.pt_view.specs.declared.view.Piece.{Piece};
ghost use Rattle.pt_view.specs.Views.{book_of};
ghost use Rattle.pt_rule.specs.Tags.{is_placed};
ghost use Rattle.pt_rule.specs.WholeCounts.{added_in_frame, counts_block, counts_pages};
ghost use Rattle.pt_closed.specs.Closed.{CountsPiece, IsClosed, IsToldBy};

use pt_format::{Format, Read};
use pt_model::Census;
use pt_num::is_aligned;

/// What entries hold: the blocks that begin at one of them, and the pages under them.
#[derive(Clone, Copy)]
pub(crate) struct Counted {
    pub(crate) blocks: u64,
    pub(crate) pages: u64,
}

/// The number of entries of a table.
fn table_len<F: Format>() -> u32
    ensures { result ≡ 2 ^ F.layout.index }
{
    1 << F::INDEX
}

/// An entry of a frame.
fn entry<F: Format>(words: &[u64], frames: u32, frame: u32, number: u32) -> u64
    requires few { frames ≤ frame_limit F.layout }
    requires a_frame { frame < frames }
    requires an_entry { number < 2 ^ F.layout.index }
    requires long { length words.now ≡ word_count F.layout frames }
    ensures { result ≡ entry_of F.layout frames words.now frame number }
{
    words[1 + frames as usize + ((frame as usize) << F::INDEX) + number as usize]
}

/// What one entry of a table holds.
fn count_entry<F: Format>(level: u32, number: u32, word: u64) -> Counted
    requires below { level < F.layout.levels }
    requires told { (found : Option Piece) × IsToldBy F.layout level number word found }
    ensures { (found : Option Piece) → IsToldBy F.layout level number word found → CountsPiece F.layout found result }
{
    let Read::Leaf { log2, prot: _ } = F::read_word(level, word) else {
        return Counted {
            blocks: 0,
            pages: 0,
        }
    };
    let under = F::INDEX * level;
    let begins = is_aligned(u64::from(number), log2 - under);
    Counted {
        blocks: if begins { 1 } else { 0 },
        pages: 1 << under,
    }
}

/// What the entries of a linked table hold.
fn count_table<F: Format>(words: &[u64], frames: u32, frame: u32, level: u32) -> Counted
    requires closed { IsClosed F.layout frames words.now }
    requires a_frame { frame < frames }
    requires linked { IsTrue (is_placed (tag words.now frame)) }
    requires level { level ≡ (placed_at (tag words.now frame)).level }
    ensures blocks { result.blocks ≡ added_in_frame F.layout frames words.now counts_block frame (2 ^ F.layout.index) }
    ensures pages { result.pages ≡ added_in_frame F.layout frames words.now (counts_pages F.layout) frame (2 ^ F.layout.index) }
{
    let mut blocks = 0;
    let mut pages = 0;
    for number in 0..table_len::<F>() {
        let word = entry::<F>(words, frames, frame, number);
        let one = count_entry::<F>(level, number, word);
        blocks += one.blocks;
        pages += one.pages;
    }
    Counted { blocks, pages }
}

/// The census of a closed space of so many frames: the levels of its tree, its linked tables, empty ones too, its
/// blocks, and the pages that these map.
pub fn census_of<F: Format>(words: &[u64], frames: u32) -> Census
    requires { IsClosed F.layout frames words.now }
    ensures { (closed : IsClosed F.layout frames words.now) → result ≡ dumps.census_of closed.levels (book_of closed.view closed.blocks) }
{
    let mut tables = 0;
    let mut blocks = 0;
    let mut pages = 0;
    for frame in 0..frames {
        let tag = words[1 + frame as usize];
        if tag % 4 == 2 {
            let held = count_table::<F>(words, frames, frame, (tag / 4 % 8) as u32);
            tables += 1;
            blocks += held.blocks;
            pages += held.pages;
        }
    }
    Census {
        levels: (words[0] % 8) as u32 + 1,
        tables,
        blocks,
        pages,
    }
}
