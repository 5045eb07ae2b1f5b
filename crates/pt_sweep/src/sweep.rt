//! The sweep of a range: the blocks and the tables that lie in it go.

ghost use Rattle.std.specs.Prelude.{◌≡◌, ◌⊎◌, ◌↔◌, ◌+◌, ◌*◌, ◌/◌, ◌^◌, ◌<◌, ◌≤◌, IsTrue};
ghost use Rattle.pt_model.specs.Layout.{input_pages, pages_of_entry};
ghost use Rattle.pt_view.specs.Views.{Stays};
ghost use Rattle.pt_walk.specs.Walks.{IsFree, IsOverRange, Rests};
ghost use Rattle.pt_walk.specs.RangeWalks.{HasSpan};
ghost use Rattle.pt_sweep.specs.Sweeps.{CutsNone, MaySweepBelow, SweepsBelow, SweepsIn};

use pt_format::{Format, Span};
use pt_view::{Holder, Seen};
use pt_walk::{entry_bits, entry_end, entry_number, spine_end};

/// Clears the blocks that lie in a span, and unlinks every table off the spine whose span lies in it: their frames are in
/// front of the purse. Answers how many pages went. Where the caller knows that the span is `free`, that no block meets
/// it, no block is looked for.
pub(crate) fn sweep_span<F: Format, H: Holder<F>>(holder: &mut H, span: Span, free: bool) -> u64
    requires rest { Rests F.layout (H.view holder.old) }
    requires span { HasSpan (H.view holder.old) span.first span.count }
    requires uncut { 0 < span.count → CutsNone F.layout (H.view holder.old) span.first (span.first + span.count) }
    requires free { IsTrue free → IsFree F.layout (H.view holder.old) span.first (span.first + span.count) }
    ensures stays { Stays H.space H.aside H.alone holder.old holder.new }
    ensures sweeps { SweepsIn F.layout H.tells (H.alone holder.old) span.first span.count (H.view holder.old) (H.view holder.new) result }
{
    // what the range says of a book at rest is what the sweep stands on
    let _inside = holder.range();
    let levels = holder.levels();
    let level = holder.root();
    let end = u64::min(span.first + span.count, spine_end::<F>(level));
    if span.first >= end {
        holder.leave();
        return 0;
    }
    let pages = sweep::<F, H>(holder, level, span.first, end, levels, free);
    holder.leave();
    pages
}

/// Whether a range under an entry of a table of a level is all of the entry, and its table isn't of the spine.
#[inline(always)]
pub(crate) fn is_off_spine<F: Format>(level: u32, first: u64, end: u64, levels: u32) -> bool
    requires a_level { level < F.layout.levels }
    requires some { first < end }
    requires in_space { end ≤ input_pages F.layout }
    ensures { IsTrue result ↔ ((end ≡ first + pages_of_entry F.layout level) × (0 < first ⊎ (level < levels))) }
{
    if end - first != 1 << entry_bits::<F>(level) {
        return false;
    }
    first > 0 || level < levels
}

/// Sweeps a range under the path's last table, of level 0: one run of entries.
fn sweep_run<F: Format, H: Holder<F>>(holder: &mut H, first: u64, end: u64, levels: u32) -> u64
    requires range { IsOverRange F.layout (H.view holder.old) first end 0 }
    requires may { MaySweepBelow F.layout (H.view holder.old) first end levels 0 }
    ensures stays { Stays H.space H.aside H.alone holder.old holder.new }
    ensures sweeps { SweepsBelow F.layout H.tells (H.alone holder.old) first end 0 (H.view holder.old) (H.view holder.new) result }
{
    let number = entry_number::<F>(0, first);
    u64::from(holder.clear_run(number, (end - first) as u32))
}

/// Sweeps a range under the path's last table, of this level.
#[cycle(sweep)]
fn sweep<F: Format, H: Holder<F>>(
    holder: &mut H,
    level: u32,
    first: u64,
    end: u64,
    levels: u32,
    free: bool,
) -> u64
    requires range { IsOverRange F.layout (H.view holder.old) first end level }
    requires may { MaySweepBelow F.layout (H.view holder.old) first end levels level }
    requires free { IsTrue free → IsFree F.layout (H.view holder.old) first end }
    ensures stays { Stays H.space H.aside H.alone holder.old holder.new }
    ensures sweeps { SweepsBelow F.layout H.tells (H.alone holder.old) first end level (H.view holder.old) (H.view holder.new) result }
{
    if level == 0 {
        return if free {
            0
        } else {
            sweep_run::<F, H>(holder, first, end, levels)
        };
    }
    let mut pages = 0;
    let mut at = first;
    while at < end {
        let next = u64::min(entry_end::<F>(level, at), end);
        pages += sweep_entry::<F, H>(holder, level, at, next, levels, free);
        at = next;
    }
    pages
}

/// Sweeps a range under one entry of the path's last table, which is of this level.
#[cycle(sweep)]
fn sweep_entry<F: Format, H: Holder<F>>(
    holder: &mut H,
    level: u32,
    first: u64,
    end: u64,
    levels: u32,
    free: bool,
) -> u64
    requires range { IsOverRange F.layout (H.view holder.old) first end level }
    requires one { end ≤ (first / pages_of_entry F.layout level + 1) * pages_of_entry F.layout level }
    requires may { MaySweepBelow F.layout (H.view holder.old) first end levels level }
    requires free { IsTrue free → IsFree F.layout (H.view holder.old) first end }
    ensures stays { Stays H.space H.aside H.alone holder.old holder.new }
    ensures sweeps { SweepsBelow F.layout H.tells (H.alone holder.old) first end level (H.view holder.old) (H.view holder.new) result }
{
    let number = entry_number::<F>(level, first);
    match holder.enter(number) {
        Seen::Empty => 0,
        Seen::Leaf(_) => {
            holder.clear(number);
            end - first
        }
        Seen::Entered => {
            let pages = sweep::<F, H>(holder, level - 1, first, end, levels, free);
            holder.leave();
            if is_off_spine::<F>(level, first, end, levels) {
                holder.unlink(number);
            }
            pages
        }
    }
}
