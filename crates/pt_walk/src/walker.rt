//! The walk over a range: the blocks that meet it, in order.

ghost use Rattle.std.specs.Prelude.{◌≡◌, ℕ, ◌+◌, ◌<◌, ◌≤◌, List, [], None};
ghost use Rattle.pt_model.specs.declared.block.Block.{Block};
ghost use Rattle.pt_view.specs.Views.{KeepsRest, Stays};
ghost use Rattle.pt_walk.specs.Walks.{Rests};
ghost use Rattle.pt_view.specs.Loads.{ByLoads};
ghost use Rattle.pt_walk.specs.RangeWalks.{BeginsWith, GivesNext, HasSpan, IsFirstBlock, IsFirstMapped, IsWalking, left_of, rested};

use crate::climb;
use crate::numbers::spine_end;
use crate::way::{Way, next};
use arrayvec::ArrayVec;
use pt_format::{Block, Format, Span};
use pt_view::Holder;
use std::marker::{Model, PhantomData};

/// A walk over a span of a holder, from `begin` to `end`. It gives the book's blocks that meet the span, in
/// order. It loads each entry over the span once, passes over a block or an empty entry whole, and never
/// goes back to the root.
///
/// Until `end` the holder is to stay as the walk's last call left it.
#[derive(Drop)]
pub struct RangeWalk<F: Format> {
    way: Way,
    format: PhantomData<F>,
}

impl<F: Format> Model for RangeWalk<F> {
    ghost use Rattle.pt_walk.specs.declared.way.Way.{Way};

    ghost Value = { Way };

    ghost view = { λ w. w.way };
}

impl<F: Format> RangeWalk<F> {
    /// Begins a walk over a span. The blocks that are left are those that meet it.
    pub fn begin<H: Holder<F>>(holder: &mut H, span: Span) -> RangeWalk<F>
        requires rest { Rests F.layout (H.view holder.old) }
        requires span { HasSpan (H.view holder.old) span.first span.count }
        ensures stays { Stays H.space H.aside H.alone holder.old holder.new }
        ensures walked { ByLoads H.tells (H.view holder.old) (H.view holder.new) }
        ensures walking { IsWalking F.layout (H.view holder.new) result }
        ensures rest { KeepsRest F.layout (H.view holder.old) (rested (H.view holder.new)) }
        ensures left { BeginsWith F.layout (H.view holder.old) span.first span.count result }
        ensures nothing { (blocks : List Block) → span.count ≡ 0 → left_of result blocks ≡ [] }
    {
        // what the range says of a book at rest is what the walk stands on
        let _inside = holder.range();
        let level = holder.root();
        let end = u64::min(span.first + span.count, spine_end::<F>(level));
        RangeWalk {
            way: Way {
                at: span.first,
                end,
                level,
                to: end,
                above: ArrayVec::new(),
            },
            format: PhantomData,
        }
    }

    /// The next block: the first one that is left, and the others are left then. None exactly where none
    /// is left.
    pub fn next<H: Holder<F>>(&mut self, holder: &mut H) -> Option<Block>
        requires walking { IsWalking F.layout (H.view holder.old) self.old }
        ensures stays { Stays H.space H.aside H.alone holder.old holder.new }
        ensures walked { ByLoads H.tells (H.view holder.old) (H.view holder.new) }
        ensures walking { IsWalking F.layout (H.view holder.new) self.new }
        ensures rest { KeepsRest F.layout (rested (H.view holder.old)) (rested (H.view holder.new)) }
        ensures comes { GivesNext F.layout (H.view holder.old) result self.old self.new }
    {
        next::<F, H>(&mut self.way, holder)
    }

    /// Ends a walk: the holder is at rest again.
    pub fn end<H: Holder<F>>(self, holder: &mut H)
        requires walking { IsWalking F.layout (H.view holder.old) self }
        ensures stays { Stays H.space H.aside H.alone holder.old holder.new }
        ensures left { H.view holder.new ≡ rested (H.view holder.old) }
    {
        climb::<F, H>(holder, self.way.above.len() as u32 + 1);
    }
}

/// The lowest block of the book that meets a span.
pub fn next_block<F: Format, H: Holder<F>>(holder: &mut H, span: Span) -> Option<Block>
    requires rest { Rests F.layout (H.view holder.old) }
    requires span { HasSpan (H.view holder.old) span.first span.count }
    ensures stays { Stays H.space H.aside H.alone holder.old holder.new }
    ensures walked { ByLoads H.tells (H.view holder.old) (H.view holder.new) }
    ensures rest { KeepsRest F.layout (H.view holder.old) (H.view holder.new) }
    ensures found { IsFirstBlock F.layout (H.view holder.old) span.first span.count result }
    ensures nothing { span.count ≡ 0 → result ≡ None }
{
    let mut walk = RangeWalk::<F>::begin::<H>(holder, span);
    let block = walk.next::<H>(holder);
    walk.end::<H>(holder);
    block
}

/// The lowest mapped page of a span.
pub fn first_mapped<F: Format, H: Holder<F>>(holder: &mut H, span: Span) -> Option<u64>
    requires rest { Rests F.layout (H.view holder.old) }
    requires span { HasSpan (H.view holder.old) span.first span.count }
    ensures stays { Stays H.space H.aside H.alone holder.old holder.new }
    ensures walked { ByLoads H.tells (H.view holder.old) (H.view holder.new) }
    ensures rest { KeepsRest F.layout (H.view holder.old) (H.view holder.new) }
    ensures found { IsFirstMapped F.layout (H.view holder.old) span.first span.count result }
    ensures nothing { span.count ≡ 0 → result ≡ None }
{
    let block = next_block::<F, H>(holder, span)?;
    Some(u64::max(span.first, block.first))
}
