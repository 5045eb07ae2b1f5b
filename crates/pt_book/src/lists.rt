//! Lists of blocks, scanned from end to end.

ghost use Rattle.std.specs.Prelude.{◌≡◌, ℕ, ◌+◌, ◌^◌, ◌<◌, ◌≤◌, ◌≢◌, ◌++◌, All, AllPairs, drop, length, find, filter, nat_lt, not, IsTrue, IfOk, OnOk};
ghost use Rattle.pt_model.specs.Layout.{end_of, pages, input_pages, output_pages};
ghost use Rattle.pt_model.specs.Book as book;
ghost use Rattle.pt_model.specs.Unmap as unmap;
ghost use Rattle.pt_model.specs.Cuts as cuts;
ghost use Rattle.pt_model.specs.Tiling.{tiling};

use pt_format::{Block, Format, Prot};
use pt_num::{Memory, Span};
use pt_tile::Tiles;
use std::alloc::Global;

/// Whether a block meets the pages from `first` to before `last`.
fn meets(block: Block, first: u64, last: u64) -> bool
    requires { end_of block < 2 ^ 64 }
    ensures { result ≡ book.meets first last block }
{
    block.first < last && first < block.first + (1 << block.log2)
}

/// The first block of a list that meets the pages from `first` to before `last`.
pub(crate) fn first_met(blocks: &[Block], first: u64, last: u64) -> Option<Block>
    requires { All (λ b. end_of b < 2 ^ 64) blocks.now }
    ensures { result ≡ find (book.meets first last) blocks.now }
{
    for block in blocks {
        if meets(*block, first, last) {
            return Some(*block);
        }
    }
    None
}

/// Whether a block lies in the pages from `first` to before `last`.
fn lies_in(block: Block, first: u64, last: u64) -> bool
    requires { end_of block < 2 ^ 64 }
    ensures { result ≡ book.lies_in first last block }
{
    first <= block.first && block.first + (1 << block.log2) <= last
}

/// The first block of a list that has pages both among those from `first` to before `last` and elsewhere.
pub(crate) fn first_cut(blocks: &[Block], first: u64, last: u64) -> Option<Block>
    requires { All (λ b. end_of b < 2 ^ 64) blocks.now }
    ensures { result ≡ find (unmap.is_cut first last) blocks.now }
{
    for block in blocks {
        if meets(*block, first, last) && !lies_in(*block, first, last) {
            return Some(*block);
        }
    }
    None
}

/// Whether a block begins before a page and ends behind it.
fn crosses(block: Block, page: u64) -> bool
    requires { end_of block < 2 ^ 64 }
    ensures { result ≡ cuts.crosses page block }
{
    block.first < page && page < block.first + (1 << block.log2)
}

/// The first block of a list that begins before a page and ends behind it.
pub(crate) fn first_across(blocks: &[Block], page: u64) -> Option<Block>
    requires { All (λ b. end_of b < 2 ^ 64) blocks.now }
    ensures { result ≡ find (cuts.crosses page) blocks.now }
{
    for block in blocks {
        if crosses(*block, page) {
            return Some(*block);
        }
    }
    None
}

/// The blocks of a list that lie in the pages from `first` to before `last`.
pub(crate) fn blocks_within(
    alloc: Global,
    blocks: &[Block],
    first: u64,
    last: u64,
) -> Result<Vec<Block>, Memory>
    requires { All (λ b. end_of b < 2 ^ 64) blocks.now }
    ensures { IfOk result (λ within. within.items ≡ filter (book.lies_in first last) blocks.now) }
{
    let mut within = Vec::new(alloc);
    for block in blocks {
        if lies_in(*block, first, last) {
            within.push(*block)?;
        }
    }
    Ok(within)
}

/// The blocks of a list that don't lie in the pages from `first` to before `last`.
pub(crate) fn blocks_left(
    alloc: Global,
    blocks: &[Block],
    first: u64,
    last: u64,
) -> Result<Vec<Block>, Memory>
    requires { All (λ b. end_of b < 2 ^ 64) blocks.now }
    ensures { IfOk result (λ left. left.items ≡ filter (λ b. not (book.lies_in first last b)) blocks.now) }
{
    let mut left = Vec::new(alloc);
    for block in blocks {
        if !lies_in(*block, first, last) {
            left.push(*block)?;
        }
    }
    Ok(left)
}

/// The pages of a block.
fn pages_of(block: Block) -> u128
    requires { end_of block < 2 ^ 64 }
    ensures pages { result ≡ pages block }
    ensures below { result < 2 ^ 64 }
{
    1 << block.log2
}

/// The number of pages of the blocks that lie in the pages from `first` to before `last`.
pub(crate) fn pages_within(blocks: &[Block], first: u64, last: u64) -> u128
    requires { All (λ b. end_of b < 2 ^ 64) blocks.now }
    ensures { result ≡ unmap.pages_in (filter (book.lies_in first last) blocks.now) }
{
    let mut pages = 0;
    for block in blocks {
        if lies_in(*block, first, last) {
            pages += pages_of(*block);
        }
    }
    pages
}

/// Appends those blocks of a list, from a place on, that begin before a page, and answers the place behind
/// them. The list is in the order of first pages.
fn push_before(
    out: &mut Vec<Block>,
    blocks: &[Block],
    from: usize,
    page: u64,
) -> Result<usize, Memory>
    requires in_order { AllPairs (λ b c. b.first ≤ c.first) blocks.now }
    requires within { from ≤ length blocks.now }
    ensures within { IfOk result (λ next. next ≤ length blocks.now) }
    ensures pushed { OnOk result (out.new.items ≡ out.old.items ++ filter (λ n. nat_lt n.first page) (drop from blocks.now)) }
    ensures rest { IfOk result (λ next. drop next blocks.now ≡ filter (λ n. not (nat_lt n.first page)) (drop from blocks.now)) }
{
    for next in from..blocks.len() {
        let block = blocks[next];
        if block.first >= page {
            return Ok(next);
        }
        out.push(block)?;
    }
    Ok(blocks.len())
}

/// The blocks of two lists, the new ones put among the old in the order of first pages. The new ones are in
/// that order.
pub(crate) fn add_blocks(alloc: Global, old: &[Block], new: &[Block]) -> Result<Vec<Block>, Memory>
    requires { AllPairs (λ b c. b.first ≤ c.first) new.now }
    ensures { IfOk result (λ both. both.items ≡ book.add_blocks old.now new.now) }
{
    let mut both = Vec::new(alloc);
    let mut next = 0;
    for block in old {
        next = push_before(&mut both, new, next, block.first)?;
        both.push(*block)?;
    }
    both.extend_from_slice(&new[next..])?;
    Ok(both)
}

/// The blocks of the tiling of a span onto the output pages from `out`.
pub(crate) fn tiled<F: Format>(
    alloc: Global,
    span: Span,
    out: u64,
    prot: Prot,
) -> Result<Vec<Block>, Memory>
    requires some { span.count ≢ 0 }
    requires stated { IsTrue (F.layout.states prot) }
    requires in_input { span.first + span.count ≤ input_pages F.layout }
    requires in_output { out + span.count ≤ output_pages F.layout }
    ensures { IfOk result (λ blocks. blocks.items ≡ tiling F.layout prot span.first out span.count) }
{
    let mut blocks = Vec::new(alloc);
    for block in Tiles::<F>::new(span, out, prot) {
        blocks.push(block)?;
    }
    Ok(blocks)
}
