//! What a single command answers, over any holder at rest.

ghost use Rattle.std.specs.Prelude.{◌≡◌, ◌+◌, ◌<◌, ◌≤◌, [], length, All, IfOk, OnOk, OnErr, IsTrue};
ghost use Rattle.pt_model.specs.declared.command.What.TheVariants as what;
ghost use Rattle.pt_model.specs.declared.reply.Answer.TheVariants as answer;
ghost use Rattle.pt_model.specs.Dumps.{dump_limit, dumped};
ghost use Rattle.pt_view.specs.Loads.{ByLoads};
ghost use Rattle.pt_view.specs.Views.{KeepsRest, Stays};
ghost use Rattle.pt_walk.specs.RangeWalks.{HasSpan, IsWalking, rested};
ghost use Rattle.pt_reply.specs.Built.{is_built};
ghost use Rattle.pt_reply.specs.Telling.{has_small_blocks, IsListable, IsTellable, NamesLegalBlock};
ghost use Rattle.pt_reply.specs.Running.{IsReady, IsUncrossed, AnswersAs, AnswersInPart, LeavesIn, ListsNext, RestsAsBefore, blocks_over, left_in, map_said};

use pt_format::{Block, Format, Span};
use pt_map::{MapRefused, map};
use pt_model::{Answer, Dump, Listed, LookupAnswer, MapAnswer, Prot, UnmapAnswer, What};
use pt_num::Memory;
use pt_sweep::{UnmapRefused, unmap};
use pt_view::Holder;
use pt_walk::{OutsideLease, RangeWalk, lookup};
use std::alloc::Global;

/// The most blocks that a dump lists.
const DUMP_LIMIT: usize = 1000;

/// The answer to a map.
fn said(done: Result<(), MapRefused>) -> MapAnswer
    ensures { result ≡ map_said done }
{
    match done {
        Ok(()) => MapAnswer::Mapped,
        Err(MapRefused::Misaligned) => MapAnswer::Misaligned,
        Err(MapRefused::OutsideLease) => MapAnswer::Outside,
        Err(MapRefused::OutputRange) => MapAnswer::Output,
        Err(MapRefused::Occupied { address }) => MapAnswer::Occupied { address },
        Err(MapRefused::NoFrames { .. }) => MapAnswer::Frames,
    }
}

/// Maps a range.
pub(crate) fn map_range<F: Format, H: Holder<F>>(
    holder: &mut H,
    va: u64,
    pa: u64,
    len: u64,
    prot: Prot,
) -> MapAnswer
    requires ready { IsReady F.layout (H.view holder.old) }
    ensures stays { Stays H.space H.aside H.alone holder.old holder.new }
    ensures maps { AnswersInPart F.layout (H.view holder.old) (H.view holder.new) (what.Map va pa len prot) (answer.Map result) }
    ensures alone { H.alone holder.old → (H.aside holder.old).positions ≡ [] →
        AnswersAs F.layout (H.view holder.old) (H.view holder.new) (what.Map va pa len prot) (answer.Map result) }
{
    // that the book at rest is lawful is part of the answer
    let _span = holder.range();
    said(map::<F, H>(holder, va, pa, len, prot))
}

/// Takes a range away.
pub(crate) fn unmap_range<F: Format, H: Holder<F>>(holder: &mut H, va: u64, len: u64) -> UnmapAnswer
    requires small { IsTrue (has_small_blocks F.layout) }
    requires ready { IsReady F.layout (H.view holder.old) }
    ensures stays { Stays H.space H.aside H.alone holder.old holder.new }
    ensures unmaps { AnswersAs F.layout (H.view holder.old) (H.view holder.new) (what.Unmap va len) (answer.Unmap result) }
    ensures leaves { LeavesIn F.layout (H.view holder.old) (H.view holder.new) (what.Unmap va len) (answer.Unmap result) }
    ensures legal { NamesLegalBlock F.layout result }
{
    // that the book at rest is lawful is part of the answer
    let _span = holder.range();
    match unmap::<F, H>(holder, va, len) {
        Ok(pages) => UnmapAnswer::Unmapped { pages },
        Err(UnmapRefused::Misaligned) => UnmapAnswer::Misaligned,
        Err(UnmapRefused::OutsideLease) => UnmapAnswer::Outside,
        Err(UnmapRefused::CutsEntry { block }) => UnmapAnswer::Cuts { block },
    }
}

/// Looks an address up.
pub(crate) fn look_up<F: Format, H: Holder<F>>(holder: &mut H, va: u64) -> LookupAnswer
    requires ready { IsReady F.layout (H.view holder.old) }
    ensures stays { Stays H.space H.aside H.alone holder.old holder.new }
    ensures finds { AnswersAs F.layout (H.view holder.old) (H.view holder.new) (what.Lookup va) (answer.Lookup result) }
    ensures leaves { LeavesIn F.layout (H.view holder.old) (H.view holder.new) (what.Lookup va) (answer.Lookup result) }
{
    match lookup::<F, H>(holder, va) {
        Ok(Some((out, prot))) => LookupAnswer::Found { out, prot },
        Ok(None) => LookupAnswer::Nothing,
        Err(OutsideLease) => LookupAnswer::Outside,
    }
}

/// Lists a block behind lower ones, where the list isn't full.
fn list_block(lowest: &mut Vec<Block>, block: Block) -> Result<(), Memory>
    requires few { length lowest.old.items ≤ dump_limit }
    ensures few { OnOk result (length lowest.new.items ≤ dump_limit) }
    ensures next { OnOk result (ListsNext lowest.old.items block lowest.new.items) }
{
    if lowest.len() < DUMP_LIMIT {
        lowest.push(block)?;
    }
    Ok(())
}

/// Counts the blocks that are left of a walk, and lists the lowest of them.
fn list_blocks<F: Format, H: Holder<F>>(
    alloc: Global,
    walk: &mut RangeWalk<F>,
    holder: &mut H,
) -> Result<Dump, Memory>
    requires walking { IsWalking F.layout (H.view holder.old) walk.old }
    requires ready { IsReady F.layout (rested (H.view holder.old)) }
    ensures stays { Stays H.space H.aside H.alone holder.old holder.new }
    ensures walked { ByLoads H.tells (H.view holder.old) (H.view holder.new) }
    ensures walking { IsWalking F.layout (H.view holder.new) walk.new }
    ensures rest { KeepsRest F.layout (rested (H.view holder.old)) (rested (H.view holder.new)) }
    ensures listed { IfOk result (λ dump. dump ≡ dumped (left_in (H.view holder.old) walk.old)) }
{
    let mut count: u64 = 0;
    let mut lowest = Vec::new(alloc);
    while let Some(block) = walk.next::<H>(holder) {
        count += 1;
        list_block(&mut lowest, block)?;
    }
    Ok(Dump {
        count,
        lowest: Listed::of(lowest),
    })
}

/// Dumps a span: how many blocks it has, and the lowest of them, in one walk. No block crosses its ends. After `Memory` the
/// holder is at rest too.
pub fn dump<F: Format, H: Holder<F>>(
    alloc: Global,
    holder: &mut H,
    span: Span,
) -> Result<Dump, Memory>
    requires small { IsTrue (has_small_blocks F.layout) }
    requires ready { IsReady F.layout (H.view holder.old) }
    requires span { HasSpan (H.view holder.old) span.first span.count }
    requires some { 0 < span.count }
    requires from { IsUncrossed (H.view holder.old) span.first }
    requires to { IsUncrossed (H.view holder.old) (span.first + span.count) }
    ensures stays { Stays H.space H.aside H.alone holder.old holder.new }
    ensures rests { RestsAsBefore F.layout (H.view holder.old) (H.view holder.new) }
    ensures dumps { IfOk result (λ dump. dump ≡ dumped (blocks_over (H.view holder.old) span.first (span.first + span.count))) }
    ensures listable { IfOk result (λ dump. All (IsListable F.layout) dump.lowest) }
{
    let mut walk = RangeWalk::<F>::begin::<H>(holder, span);
    let dump = list_blocks::<F, H>(alloc, &mut walk, holder);
    walk.end::<H>(holder);
    dump
}

/// Dumps the holder's span.
fn dump_all<F: Format, H: Holder<F>>(alloc: Global, holder: &mut H) -> Result<Dump, Memory>
    requires small { IsTrue (has_small_blocks F.layout) }
    requires ready { IsReady F.layout (H.view holder.old) }
    ensures stays { Stays H.space H.aside H.alone holder.old holder.new }
    ensures rests { RestsAsBefore F.layout (H.view holder.old) (H.view holder.new) }
    ensures dumps { IfOk result (λ dump. AnswersAs F.layout (H.view holder.old) (H.view holder.new) what.Dump (answer.Dump dump)) }
    ensures leaves { IfOk result (λ dump. LeavesIn F.layout (H.view holder.old) (H.view holder.new) what.Dump (answer.Dump dump)) }
    ensures listable { IfOk result (λ dump. All (IsListable F.layout) dump.lowest) }
{
    let span = holder.range();
    dump::<F, H>(alloc, holder, span)
}

/// Frees every frame of the purse.
fn release<F: Format, H: Holder<F>>(holder: &mut H)
    requires ready { IsReady F.layout (H.view holder.old) }
    ensures stays { Stays H.space H.aside H.alone holder.old holder.new }
    ensures releases { AnswersAs F.layout (H.view holder.old) (H.view holder.new) what.Release answer.Release }
    ensures none { (H.view holder.new).purse ≡ [] }
{
    holder.release();
}

/// Answers a command that isn't of a fork. After `Memory` the holder is at rest too. The account of frames is that of the
/// holder's book where no other holder is there and nothing that is linked is set aside.
pub fn answer<F: Format, H: Holder<F>>(
    alloc: Global,
    holder: &mut H,
    what: What,
) -> Result<Answer, Memory>
    requires small { IsTrue (has_small_blocks F.layout) }
    requires ready { IsReady F.layout (H.view holder.old) }
    requires built { IsTrue (is_built what) }
    ensures stays { Stays H.space H.aside H.alone holder.old holder.new }
    ensures answers { IfOk result (AnswersInPart F.layout (H.view holder.old) (H.view holder.new) what) }
    ensures alone { H.alone holder.old → (H.aside holder.old).positions ≡ [] →
        IfOk result (AnswersAs F.layout (H.view holder.old) (H.view holder.new) what) }
    ensures rests { OnErr result (RestsAsBefore F.layout (H.view holder.old) (H.view holder.new)) }
    ensures tellable { IfOk result (IsTellable F.layout) }
{
    Ok(match what {
        What::Map { va, pa, len, prot } => {
            Answer::Map(map_range::<F, H>(holder, va, pa, len, prot))
        }
        What::Unmap { va, len } => Answer::Unmap(unmap_range::<F, H>(holder, va, len)),
        What::Lookup { va } => Answer::Lookup(look_up::<F, H>(holder, va)),
        What::Dump => Answer::Dump(dump_all::<F, H>(alloc, holder)?),
        What::Release => {
            release::<F, H>(holder);
            Answer::Release
        }
        _ => unreachable!(),
    })
}
