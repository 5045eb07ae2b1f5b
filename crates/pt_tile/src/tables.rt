//! The number of tables that a tiling needs, from the ends of its range and not block by block.

ghost use Rattle.std.specs.Prelude.{◌≡◌, ℕ, ◌+◌, ◌-◌, ◌*◌, ◌/◌, ◌^◌, ◌<◌, ◌≤◌, ◌≢◌, ◌↔◌, IsTrue, IsBitSet, length, min, IfSome};
ghost use Rattle.pt_model.specs.declared.block.Prot.{Prot};
ghost use Rattle.pt_model.specs.Layout.{input_pages, output_pages, pages_of_table};
ghost use Rattle.pt_model.specs.Tables.{all_needed, least_top};
ghost use Rattle.pt_model.specs.Tiling.{tiling};
ghost use Rattle.pt_tile.specs.Sizes.{HasAllSizes};
ghost use Rattle.pt_tile.specs.Counting as Counting;
ghost use Rattle.pt_tile.specs.Counting.{at_level, begun, whole_part, IsApart};

use crate::sizes::{all_sizes, larger_size};
use pt_format::Format;
use pt_num::Span;

/// A part of a range of pages.
#[derive(Drop)]
struct Part {
    first: u64,
    end: u64,
}

/// The tables of `2^log2` pages that end at a page or before it.
fn ended(page: u64, log2: u32) -> u64
    ensures { result ≡ page / 2 ^ log2 }
{
    if log2 < 64 { page >> log2 } else { 0 }
}

/// The tables of `2^log2` pages that begin before a page.
fn begun(page: u64, log2: u32) -> u64
    ensures { result ≡ Counting.begun log2 page }
{
    if page == 0 {
        0
    } else {
        ended(page - 1, log2) + 1
    }
}

/// The tables of `2^log2` pages that meet a range.
fn meeting(first: u64, end: u64, log2: u32) -> u64
    requires { first ≤ end }
    ensures { result ≡ Counting.meeting log2 first end }
{
    begun(end, log2) - ended(first, log2)
}

/// The part of a range that aligned runs of `2^log2` pages make up.
fn whole_part(first: u64, end: u64, log2: u32) -> Option<Part>
    requires a_size { log2 < 64 }
    requires few { first ≤ 2 ^ 52 }
    ensures { result ≡ Counting.whole_part log2 first end }
{
    let part = Part {
        first: begun(first, log2) << log2,
        end: ended(end, log2) << log2,
    };
    if part.first < part.end {
        Some(part)
    } else {
        None
    }
}

/// The tables of `2^log2` pages that meet a range and are not taken up by a block.
fn tables_over(first: u64, end: u64, log2: u32, larger: Option<u32>) -> u64
    requires a_range { first ≤ end }
    requires few { end ≤ 2 ^ 52 }
    requires small { IfSome larger (λ size. size < 64) }
    ensures number { result ≡ Counting.tables_over log2 first end larger }
    ensures few { result ≤ 2 ^ 53 }
{
    match larger {
        None => meeting(first, end, log2),
        Some(size) => match whole_part(first, end, size) {
            None => meeting(first, end, log2),
            Some(part) => meeting(first, part.first, log2) + meeting(part.end, end, log2),
        },
    }
}

/// Whether a level is above the top of a tree that reaches up to page `end`.
fn is_above_top<F: Format>(end: u64, levels: u32, level: u32) -> bool
    requires some { 1 ≤ levels }
    requires below { level < F.layout.levels }
    ensures { IsTrue result ↔ (least_top F.layout levels end < level) }
{
    level >= levels && begun(end, F::INDEX * level) <= 1
}

/// How many positions of page 0 at a level are needed that do not lie over the range: 1 where the tree
/// has one and the range begins after its pages, else 0.
fn apart<F: Format>(first: u64, levels: u32, level: u32) -> u64
    requires below { level < F.layout.levels }
    ensures { IsApart levels level first (pages_of_table F.layout level) result }
{
    if level + 1 < levels {
        return 0;
    }
    if ended(first, F::INDEX * (level + 1)) == 0 {
        0
    } else {
        1
    }
}

/// The tables of a level that the tiling of a span needs.
fn needed_at<F: Format>(span: Span, out: u64, levels: u32, sizes: u64, level: u32) -> u64
    requires some { span.count ≢ 0 }
    requires in_input { span.first + span.count ≤ input_pages F.layout }
    requires in_output { out + span.count ≤ output_pages F.layout }
    requires at_least { F.layout.start ≤ levels }
    requires at_most { levels ≤ F.layout.levels }
    requires sizes { HasAllSizes F.layout sizes }
    requires below { level < F.layout.levels }
    ensures number { (prot : Prot)
        → result ≡ at_level level
        (all_needed F.layout levels
        (tiling F.layout prot span.first out span.count)) }
    ensures few { result ≤ 2 ^ 54 }
{
    let end = span.first + span.count;
    if is_above_top::<F>(end, levels, level) {
        return 0;
    }
    let log2 = F::INDEX * (level + 1);
    let larger = larger_size::<F>(span.first, out, sizes, log2);
    tables_over(span.first, end, log2, larger) + apart::<F>(span.first, levels, level)
}

/// The number of table positions in or under which the entries of the tiling of a span onto the output pages
/// from `out` lie, with the positions of page 0 from the starting top up to the least top that reaches the
/// span's end. `levels` is the number of levels that the space started with.
pub fn count_tables<F: Format>(span: Span, out: u64, levels: u32) -> u64
    requires some { span.count ≢ 0 }
    requires in_input { span.first + span.count ≤ input_pages F.layout }
    requires in_output { out + span.count ≤ output_pages F.layout }
    requires at_least { F.layout.start ≤ levels }
    requires at_most { levels ≤ F.layout.levels }
    ensures { (prot : Prot)
        → result ≡ length
        (all_needed F.layout levels
        (tiling F.layout prot span.first out span.count)) }
{
    let sizes = all_sizes::<F>();
    let mut needed = 0;
    for level in 0..F::LEVELS {
        needed += needed_at::<F>(span, out, levels, sizes, level);
    }
    needed
}

/// How many tables a span needs beside the starting top: `cap` where there are more.
pub fn tables_needed<F: Format>(span: Span, out: u64, levels: u32, cap: u64) -> u64
    requires some { span.count ≢ 0 }
    requires in_input { span.first + span.count ≤ input_pages F.layout }
    requires in_output { out + span.count ≤ output_pages F.layout }
    requires at_least { F.layout.start ≤ levels }
    requires at_most { levels ≤ F.layout.levels }
    ensures { (prot : Prot)
        → result ≡ min cap
        (length
        (all_needed F.layout levels
        (tiling F.layout prot span.first out span.count)) - 1) }
{
    // the starting top is one of them
    cap.min(count_tables::<F>(span, out, levels).saturating_sub(1))
}
