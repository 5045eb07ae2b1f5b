//! The taking away of a range.

ghost use Rattle.std.specs.Prelude.{◌≡◌, ◌⊎◌, ◌↔◌, ◌+◌, ◌^◌, ◌<◌, ◌≤◌, IfOk, IfErr, IsTrue};
ghost use Rattle.pt_model.specs.Layout as layout;
ghost use Rattle.pt_model.specs.Layout.{input_pages};
ghost use Rattle.pt_view.specs.Loads.{ByLoads};
ghost use Rattle.pt_view.specs.Views.{IsLawfulAtRest, KeepsRest, Stays};
ghost use Rattle.pt_walk.specs.RangeWalks.{HasSpan};
ghost use Rattle.pt_walk.specs.Walks.{Rests};
ghost use Rattle.pt_sweep.specs.Unmaps.{AnswersUnmap, FindsCut, FindsCutOver, IsRange, IsRefusedByNumbers};

use crate::entry::{reaches_out, unmap_one};
use crate::refused::UnmapRefused;
use crate::sweep::sweep_span;
use pt_format::{Block, Format, Span, is_whole, range_of};
use pt_view::Holder;
use pt_walk::next_block;

/// The range of a request, where it is one of whole pages inside a span.
fn range_in<F: Format>(span: Span, va: u64, len: u64) -> Result<Span, UnmapRefused>
    requires within { span.first + span.count ≤ input_pages F.layout }
    ensures asked { IfOk result (λ range. IsRange F.layout span.first span.count va len range) }
    ensures refused { IfErr result (λ why. IsRefusedByNumbers F.layout span.first span.count va len why) }
{
    if !is_whole::<F>(va) || !is_whole::<F>(len) || len == 0 {
        return Err(UnmapRefused::Misaligned);
    }
    let Some(range) = range_of::<F>(va, len) else {
        return Err(UnmapRefused::OutsideLease)
    };
    let end = range.first + range.count;
    if range.first < span.first || end > span.first + span.count {
        return Err(UnmapRefused::OutsideLease);
    }
    Ok(range)
}

/// The block over a page of a range, where it begins before the range or ends behind it.
fn cut_over<F: Format, H: Holder<F>>(
    holder: &mut H,
    page: u64,
    first: u64,
    end: u64,
) -> Option<Block>
    requires rest { Rests F.layout (H.view holder.old) }
    requires span { HasSpan (H.view holder.old) page 1 }
    requires page { (first ≤ page) × (page < end) }
    requires in_space { end ≤ input_pages F.layout }
    requires lawful { IsLawfulAtRest F.layout (H.view holder.old) }
    ensures stays { Stays H.space H.aside H.alone holder.old holder.new }
    ensures walked { ByLoads H.tells (H.view holder.old) (H.view holder.new) }
    ensures rest { KeepsRest F.layout (H.view holder.old) (H.view holder.new) }
    ensures cut { FindsCutOver F.layout (H.view holder.old) page first end result }
{
    let block = next_block::<F, H>(
        holder,
        Span {
            first: page,
            count: 1,
        },
    )?;
    if reaches_out(block, first, end) {
        Some(block)
    } else {
        None
    }
}

/// The lowest block that has a page of a range and one outside it: it is over the first page, or over the last.
fn cut_block<F: Format, H: Holder<F>>(holder: &mut H, range: Span) -> Option<Block>
    requires rest { Rests F.layout (H.view holder.old) }
    requires span { HasSpan (H.view holder.old) range.first range.count }
    requires some { 0 < range.count }
    requires in_space { range.first + range.count ≤ input_pages F.layout }
    requires lawful { IsLawfulAtRest F.layout (H.view holder.old) }
    ensures stays { Stays H.space H.aside H.alone holder.old holder.new }
    ensures walked { ByLoads H.tells (H.view holder.old) (H.view holder.new) }
    ensures rest { KeepsRest F.layout (H.view holder.old) (H.view holder.new) }
    ensures cut { FindsCut F.layout (H.view holder.old) range.first range.count result }
{
    let end = range.first + range.count;
    let low = cut_over::<F, H>(holder, range.first, range.first, end);
    if low.is_some() {
        return low;
    }
    cut_over::<F, H>(holder, end - 1, range.first, end)
}

/// Takes the pages of `len` bytes from input address `va` away: the book loses the blocks and the tables off the
/// spine that lie in the range, and the frames of these tables are in front of the purse. Answers how many pages
/// went.
///
/// Refused, in this order: `Misaligned` where the address or the length isn't of whole pages or the length is 0,
/// `OutsideLease` where the range isn't inside the span, and `CutsEntry` where a block has pages both in the range
/// and outside it. After a refusal the book is as before.
pub fn unmap<F: Format, H: Holder<F>>(
    holder: &mut H,
    va: u64,
    len: u64,
) -> Result<u64, UnmapRefused>
    requires rest { Rests F.layout (H.view holder.old) }
    ensures stays { Stays H.space H.aside H.alone holder.old holder.new }
    ensures rests { Rests F.layout (H.view holder.new) }
    ensures answered { AnswersUnmap F.layout H.tells (H.alone holder.old) (H.view holder.old) (H.view holder.new) va len result }
{
    let range = range_in::<F>(holder.range(), va, len)?;
    if let Some(pages) = unmap_one::<F, H>(holder, range) {
        return Ok(pages);
    }
    if let Some(block) = cut_block::<F, H>(holder, range) {
        return Err(UnmapRefused::CutsEntry { block });
    }
    Ok(sweep_span::<F, H>(holder, range, false))
}
