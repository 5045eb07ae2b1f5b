//! The way of a walk over a range: the tables that it stands in, and the pages that are left.

ghost use Rattle.std.specs.Prelude.{◌≡◌, ℕ, ◌+◌, ◌-◌, ◌*◌, ◌<◌, ◌≤◌, length};
ghost use Rattle.pt_view.specs.Views.{Stays};
ghost use Rattle.pt_view.specs.Loads.{ByLoads};
ghost use Rattle.pt_walk.specs.RangeWalks.{GivesNext, GivesStep, IsOnWay, IsWalking, work_of};

use crate::block::{block_of, end_of};
use crate::numbers::entry_number;
use crate::range::entry_end;
use arrayvec::ArrayVec;
use pt_format::{Block, Format};
use pt_view::{Holder, Seen};

/// A walk over the pages before `end`, of which those before `at` are gone through. It stands in a table
/// of `level`, and goes on there to before `to`; in the tables above, the root's first, to before `above`.
#[derive(Drop)]
pub(crate) struct Way {
    pub(crate) at: u64,
    pub(crate) end: u64,
    pub(crate) level: u32,
    pub(crate) to: u64,
    pub(crate) above: ArrayVec<u64, 6>,
}

/// Leaves the tables that are gone through.
fn rise<F: Format, H: Holder<F>>(way: &mut Way, holder: &mut H)
    requires way { IsOnWay F.layout (H.view holder.old) way.old }
    ensures stays { Stays H.space H.aside H.alone holder.old holder.new }
    ensures walked { ByLoads H.tells (H.view holder.old) (H.view holder.new) }
    ensures way { IsWalking F.layout (H.view holder.new) way.new }
    ensures at { way.new.at ≡ way.old.at }
    ensures end { way.new.end ≡ way.old.end }
{
    while way.at >= way.to {
        let Some(to) = way.above.pop() else {
            return;
        };
        holder.leave();
        way.to = to;
        way.level += 1;
    }
}

/// Loads the entry over the next page, and goes past it or into the table that it names. Answers the block
/// that it met.
fn step<F: Format, H: Holder<F>>(way: &mut Way, holder: &mut H) -> Option<Block>
    requires way { IsWalking F.layout (H.view holder.old) way.old }
    requires more { way.old.at < way.old.end }
    ensures stays { Stays H.space H.aside H.alone holder.old holder.new }
    ensures walked { ByLoads H.tells (H.view holder.old) (H.view holder.new) }
    ensures way { IsWalking F.layout (H.view holder.new) way.new }
    ensures end { way.new.end ≡ way.old.end }
    ensures less { work_of way.new < work_of way.old }
    ensures comes { GivesStep F.layout (H.view holder.old) result way.old way.new }
{
    let level = way.level;
    let at = way.at;
    let next = u64::min(entry_end::<F>(level, at), way.to);
    match holder.enter(entry_number::<F>(level, at)) {
        Seen::Empty => {
            way.at = next;
            rise::<F, H>(way, holder);
            None
        }
        Seen::Leaf(word) => {
            let block = block_of::<F>(level, word, at);
            way.at = end_of(block);
            rise::<F, H>(way, holder);
            Some(block)
        }
        Seen::Entered => {
            way.above.push(way.to);
            way.to = next;
            way.level = level - 1;
            None
        }
    }
}

/// The next block.
pub(crate) fn next<F: Format, H: Holder<F>>(way: &mut Way, holder: &mut H) -> Option<Block>
    requires way { IsWalking F.layout (H.view holder.old) way.old }
    ensures stays { Stays H.space H.aside H.alone holder.old holder.new }
    ensures walked { ByLoads H.tells (H.view holder.old) (H.view holder.new) }
    ensures way { IsWalking F.layout (H.view holder.new) way.new }
    ensures comes { GivesNext F.layout (H.view holder.old) result way.old way.new }
{
    while way.at < way.end {
        let found = step::<F, H>(way, holder);
        if found.is_some() {
            return found;
        }
    }
    None
}
