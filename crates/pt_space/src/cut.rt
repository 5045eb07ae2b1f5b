//! What `split` and `join` of a lease do to its seat.

ghost use Rattle.std.specs.Prelude.{◌≡◌, ℕ, ◌+◌, ◌<◌, ◌≤◌, [], List, Option, Some, None};
ghost use Rattle.pt_view.specs.declared.view.View.{View};
ghost use Rattle.pt_view.specs.declared.view.Node.{Node};
ghost use Rattle.pt_rule.specs.Kinds.{retrace};
ghost use Rattle.std.specs.Prelude.{take, drop, length};
ghost use Rattle.pt_rule.specs.Tags.{first_or, IsEnd};
ghost use Rattle.pt_rule.specs.Cuts.{left_part, marked, right_part, joined, MaySplit, MayJoin};
ghost use Rattle.pt_rule.specs.Holds.{Holds};
ghost use Rattle.pt_space.specs.Cuts.{last_of};

use crate::space::Space;
use crate::step::{At, load, store};
use atomic_table::{Join, Play, Seat, Split};
use pt_format::Format;
use pt_view::View;
use pt_words::{held_word, next_in};
use std::marker::{Brand, PhantomData};

/// Where a view is cut: the page, and the frames of the left part.
pub trait Cut {
    ghost at: { ℕ };

    ghost kept: { ℕ };
}

impl Cut for Brand {
    ghost at = { 0 };

    ghost kept = { 0 };
}

pub(crate) struct Cuts<F: Format, J: Cut> {
    of: PhantomData<(F, J)>,
}

impl<F: Format, J: Cut> Split<View> for Cuts<F, J> {
    ghost left = { λ v. left_part F.layout J.at J.kept (retrace [] v) };

    ghost right = { λ v. right_part F.layout J.at J.kept (retrace [] v) };
}

pub(crate) struct Joins;

impl Join<View> for Joins {
    ghost use Rattle.std.specs.Prelude.{[]};
    ghost use Rattle.pt_rule.specs.Kinds.{retrace};
    ghost use Rattle.pt_view.specs.Views.{spent};
    ghost use Rattle.pt_rule.specs.Cuts.{joined};

    ghost both = { λ v w. joined (retrace [] v) (retrace [] w) };

    ghost spent = { spent };
}

pub(crate) struct Glances<F: Format> {
    format: PhantomData<F>,
}

impl<F: Format> Play<(), View> for Glances<F> {
    ghost then = { λ _ m _ w. Holds F.layout m.0.frames m.0.levels m.0 × (w ≡ m) };
}

/// A load of the root that changes no view: it tells what holds of a live one.
pub(crate) fn glance<F: Format>(space: &Space<F>, seat: &mut Seat<(), View>)
    requires seat { seat.old.table_id ≡ space.now.table }
    requires live { (0 < seat.old.me.0.count) × (seat.old.me.0.frames ≡ space.now.frames) × (seat.old.me.0.levels ≡ space.now.levels) }
    ensures seat { (seat.new.table_id ≡ seat.old.table_id) × (seat.new.id ≡ seat.old.id) × (seat.new.me ≡ seat.old.me) }
    ensures holds { Holds F.layout space.now.frames space.now.levels seat.old.me.0 }
{
    space.table.shared.load::<Glances<F>>(seat, 0);
}

pub(crate) fn cut_seat<F: Format, J: Cut>(
    space: &Space<F>,
    seat: &mut Seat<(), View>,
    _at: u64,
    _kept: u32,
) -> Seat<(), View>
    requires seat { seat.old.table_id ≡ space.now.table }
    requires live { 0 < seat.old.me.0.count }
    requires may { MaySplit F.layout J.at J.kept (retrace [] seat.old.me.0) }
    ensures left { (seat.new.table_id ≡ seat.old.table_id) × (seat.new.id ≡ seat.old.id) × (seat.new.me ≡ (left_part F.layout J.at J.kept (retrace [] seat.old.me.0), seat.old.me.1)) }
    ensures right { (result.table_id ≡ seat.old.table_id) × (result.me ≡ (right_part F.layout J.at J.kept (retrace [] seat.old.me.0), [])) }
{
    space.table.shared.split_seat::<Cuts<F, J>>(seat)
}

pub(crate) fn join_seats<F: Format>(
    space: &Space<F>,
    seat: &mut Seat<(), View>,
    right: Seat<(), View>,
)
    requires seat { (seat.old.table_id ≡ space.now.table) × (right.table_id ≡ space.now.table) × (right.me.1 ≡ []) }
    requires live { (0 < seat.old.me.0.count) × (0 < right.me.0.count) }
    requires may { MayJoin F.layout (retrace [] seat.old.me.0) (retrace [] right.me.0) }
    ensures { (seat.new.table_id ≡ seat.old.table_id) × (seat.new.id ≡ seat.old.id) × (seat.new.me ≡ (joined (retrace [] seat.old.me.0) (retrace [] right.me.0), seat.old.me.1)) }
{
    space.table.shared.join_seat::<Joins>(seat, right);
}

/// Goes over the first frames of the purse: the last of these, and the one that follows.
pub(crate) fn walk<F: Format>(
    space: &Space<F>,
    seat: &mut Seat<(), View>,
    head: Option<u32>,
    count: u32,
) -> (Option<u32>, Option<u32>)
    requires seat { seat.old.table_id ≡ space.now.table }
    requires holds { Holds F.layout space.now.frames space.now.levels seat.old.me.0 }
    requires end { seat.old.me.0.end ≡ None }
    requires head { first_or None seat.old.me.0.purse ≡ head }
    requires count { count ≤ length seat.old.me.0.purse }
    ensures seat { (seat.new.table_id ≡ seat.old.table_id) × (seat.new.id ≡ seat.old.id) × (seat.new.me.1 ≡ seat.old.me.1) }
    ensures view { retrace [] seat.new.me.0 ≡ retrace [] seat.old.me.0 }
    ensures last { last_of (take count seat.old.me.0.purse) ≡ result.0 }
    ensures next { first_or None (drop count seat.old.me.0.purse) ≡ result.1 }
{
    let mut last = None;
    let mut next = head;
    for i in 0..count {
        let Some(frame) = next else { unreachable!() };
        let at = At {
            depth: 0,
            frame,
            number: 0,
        };
        let tag = load::<F, Brand>(space, seat, at, 1 + frame as usize);
        last = Some(frame);
        next = next_in(tag);
    }
    (last, next)
}

/// The tag of the last frame of the purse names another end mark.
pub(crate) fn mark_end<F: Format>(
    space: &Space<F>,
    seat: &mut Seat<(), View>,
    last: Option<u32>,
    end: Option<u32>,
)
    requires seat { seat.old.table_id ≡ space.now.table }
    requires holds { Holds F.layout space.now.frames space.now.levels seat.old.me.0 }
    requires last { last_of seat.old.me.0.purse ≡ last }
    requires end { IsEnd space.now.frames end }
    requires none { seat.old.me.0.purse ≡ [] → seat.old.me.0.end ≡ end }
    ensures seat { (seat.new.table_id ≡ seat.old.table_id) × (seat.new.id ≡ seat.old.id) × (seat.new.me.1 ≡ seat.old.me.1) }
    ensures view { retrace [] seat.new.me.0 ≡ marked end (retrace [] seat.old.me.0) }
    ensures holds { Holds F.layout space.now.frames space.now.levels seat.new.me.0 }
{
    if let Some(frame) = last {
        let at = At {
            depth: 0,
            frame,
            number: 0,
        };
        store::<F, Brand>(space, seat, at, 1 + frame as usize, held_word(end));
    }
}
