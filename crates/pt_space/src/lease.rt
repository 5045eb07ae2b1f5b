//! A lease: a holder of a range of a shared space.

ghost use Rattle.std.specs.Prelude.{◌≡◌, ◌≢◌, ◌+◌, ◌<◌, [], None, IfOk, IfErr};
ghost use Rattle.pt_view.specs.Views.{Rests};
ghost use Rattle.pt_rule.specs.Cuts.{MaySplit, joined, left_part, marked, right_part};
ghost use Rattle.pt_space.specs.Books.{JoinsBooks, SplitsBook};

use crate::cut::{cut_seat, glance, join_seats, mark_end, walk};
use crate::pass::Pass;
use crate::space::Space;
use atomic_table::Seat;
use pt_format::Format;
use pt_view::View;
use std::marker::{Brand, Model, PhantomData};

/// A range of a space in use. It must be spent.
pub struct Lease<'a, F: Format> {
    pub(crate) space: &'a Space<F>,
    pub(crate) seat: Seat<(), View>,
    pub(crate) first: u64,
    pub(crate) count: u64,
    pub(crate) head: Option<u32>,
    pub(crate) held: u32,
    pub(crate) path: [u32; 8],
    pub(crate) depth: u32,
    pub(crate) level: u32,
    pub(crate) prepared: Option<u32>,
}

impl<'a, F: Format> Model for Lease<'a, F> {
    ghost use Rattle.std.specs.Prelude.{◌≡◌, ◌≤◌, length, []};
    ghost use Rattle.pt_space.specs.Standing.{Standing, Shows, cut_to};

    ghost Value = { Standing };

    ghost view = { λ s. record { space = s.space.now; view = cut_to s.depth s.seat.me.0 } };

    ghost invariant = { λ s. (s.seat.table_id ≡ s.space.now.table) × (s.seat.me.1 ≡ []) × (length s.path ≡ 8) × Shows F.layout s.space.now.frames s.space.now.levels s.seat.me.0 (record { first = s.first; count = s.count; head = s.head; held = s.held; path = s.path; depth = s.depth; level = s.level; prepared = s.prepared }) };
}

impl<'a, F: Format> Lease<'a, F> {
    /// The space of which the lease has a range.
    pub fn space(&self) -> &'a Space<F>
        ensures { result.now ≡ self.now.space }
    {
        self.space
    }

    /// The pass of a lease at rest.
    pub fn pass(self) -> Pass<F>
        requires path { self.view.path ≡ [] }
        requires prepared { self.view.prepared ≡ None }
        ensures { result ≡ self.entry }
    {
        let Lease {
            space,
            seat,
            first,
            count,
            head,
            held,
            path: _,
            depth: _,
            level: _,
            prepared: _,
        } = self;
        Pass {
            seat,
            frames: space.frames,
            levels: space.levels,
            first,
            count,
            head,
            held,
            format: PhantomData,
        }
    }

    /// Two leases, of the span before page `at` and from it on. The left one has the first frames of the purse.
    pub fn split(self, at: u64, left_frames: u32) -> (Lease<'a, F>, Lease<'a, F>)
        requires { MaySplit F.layout at left_frames self.view }
        ensures space { (result.0.space ≡ self.entry.space) × (result.1.space ≡ self.entry.space) }
        ensures left { result.0.view ≡ marked None (left_part F.layout at left_frames self.entry.view) }
        ensures right { result.1.view ≡ right_part F.layout at left_frames self.entry.view }
        ensures books { SplitsBook F.layout at self.entry.view result.0.view result.1.view }
    {
        let Lease {
            space,
            mut seat,
            first,
            count,
            head,
            held,
            path: _,
            depth: _,
            level: _,
            prepared: _,
        } = self;
        let (last, next) = walk(space, &mut seat, head, left_frames);
        let mut right = cut_seat::<F, Brand>(space, &mut seat, at, left_frames);
        glance(space, &mut seat);
        glance(space, &mut right);
        mark_end(space, &mut seat, last, None);
        let left = Lease {
            space,
            seat,
            first,
            count: at - first,
            head: kept(head, left_frames),
            held: left_frames,
            path: [0; 8],
            depth: 0,
            level: 0,
            prepared: None,
        };
        let right = Lease {
            space,
            seat: right,
            first: at,
            count: first + count - at,
            head: next,
            held: held - left_frames,
            path: [0; 8],
            depth: 0,
            level: 0,
            prepared: None,
        };
        (left, right)
    }

    /// One lease of both spans, or both as they were where the right one doesn't begin where this one ends.
    pub fn join(self, right: Lease<'a, F>) -> Result<Lease<'a, F>, (Lease<'a, F>, Lease<'a, F>)>
        requires space { right.space ≡ self.space }
        requires rest { Rests F.layout self.view × Rests F.layout right.view }
        ensures ok { IfOk result (λ l. (l.space ≡ self.entry.space) × (l.view ≡ joined self.entry.view right.entry.view)) }
        ensures books { IfOk result (λ l. JoinsBooks F.layout self.entry.view right.entry.view l.view) }
        ensures rest { IfOk result (λ l. Rests F.layout l.view) }
        ensures err { IfErr result (λ r. (r ≡ (self.entry, right.entry)) × (right.entry.view.first ≢ self.entry.view.first + self.entry.view.count)) }
    {
        if self.first + self.count != right.first {
            return Err((self, right));
        }
        let Lease {
            space,
            mut seat,
            first,
            count,
            head,
            held,
            path: _,
            depth: _,
            level: _,
            prepared: _,
        } = self;
        let Lease {
            space: _,
            seat: right_seat,
            first: _,
            count: right_count,
            head: right_head,
            held: right_held,
            path: _,
            depth: _,
            level: _,
            prepared: _,
        } = right;
        let (last, _) = walk(space, &mut seat, head, held);
        glance(space, &mut seat);
        mark_end(space, &mut seat, last, kept(right_head, held));
        join_seats(space, &mut seat, right_seat);
        glance(space, &mut seat);
        Ok(Lease {
            space,
            seat,
            first,
            count: count + right_count,
            head: first_of(head, right_head),
            held: held + right_held,
            path: [0; 8],
            depth: 0,
            level: 0,
            prepared: None,
        })
    }
}

/// The frame, if any frames are counted.
fn kept(frame: Option<u32>, count: u32) -> Option<u32>
    ensures some { 0 < count → result ≡ frame }
    ensures none { count ≡ 0 → result ≡ None }
{
    if count > 0 { frame } else { None }
}

/// The first frame of two purses, one after the other.
fn first_of(left: Option<u32>, right: Option<u32>) -> Option<u32>
    ensures left { left ≢ None → result ≡ left }
    ensures right { left ≡ None → result ≡ right }
{
    match left {
        Some(_) => left,
        None => right,
    }
}
