//! Leases of one space in threads of their own.

ghost use Rattle.std.specs.Prelude.{◌≡◌, ◌<◌};
ghost use Rattle.pt_view.specs.Views.{Rests, SameRange};

use fmt_vtdss::VtdSs;
use pt_format::Format;
use pt_space::{Space, Ticket};
use pt_view::Holder;
use std::thread::{Threads, join};

/// A lease of the ticket's pass takes a frame, if that is free.
fn take<F: Format>(space: &Space<F>, ticket: Ticket<F>, frame: u32) -> Ticket<F>
    requires space { ticket.space ≡ space.now }
    requires rest { Rests F.layout ticket.view }
    requires frame { frame < space.now.frames }
    ensures space { result.space ≡ space.now }
    ensures range { SameRange ticket.view result.view }
    ensures rest { Rests F.layout result.view }
{
    let mut lease = space.lease(ticket.pass());
    lease.take(frame);
    Ticket::of(lease.pass())
}

/// Leases of two tickets' passes, each in a thread of its own, take a frame, if that is free.
fn take_beside<F: Format + Send + Sync, R: Threads>(
    rt: &R,
    space: &Space<F>,
    left: Ticket<F>,
    right: Ticket<F>,
    frame: u32,
) -> (Ticket<F>, Ticket<F>)
    requires space { (left.space ≡ space.now) × (right.space ≡ space.now) }
    requires rest { Rests F.layout left.view × Rests F.layout right.view }
    requires frame { frame < space.now.frames }
    ensures space { (result.0.space ≡ space.now) × (result.1.space ≡ space.now) }
    ensures range { SameRange left.view result.0.view × SameRange right.view result.1.view }
    ensures rest { Rests F.layout result.0.view × Rests F.layout result.1.view }
{
    join(
        rt,
        || -> Ticket<F>
            requires space { left.space ≡ space.now }
            requires rest { Rests F.layout left.view }
            requires frame { frame < space.now.frames }
            ensures space { result.space ≡ space.entry.now }
            ensures range { SameRange left.view result.view }
            ensures rest { Rests F.layout result.view }
        { take(space, left, frame) },
        || -> Ticket<F>
            requires space { right.space ≡ space.now }
            requires rest { Rests F.layout right.view }
            requires frame { frame < space.now.frames }
            ensures space { result.space ≡ space.entry.now }
            ensures range { SameRange right.view result.view }
            ensures rest { Rests F.layout result.view }
        { take(space, right, frame) },
    )
}

#[test]
fn one_of_two_threads_takes_a_frame(rt: HostRuntime) {
    let Ok((space, pass)) = Space::<VtdSs<3>>::make(rt.alloc(), 8, 3, 4) else {
        panic!(rt; "no memory")
    };
    let whole = space.lease(pass);
    let (left, right) = whole.split(0x100, 2);
    let left = Ticket::of(left.pass());
    let right = Ticket::of(right.pass());
    let (left, right) = take_beside(&rt, &space, left, right, 6);
    let left = space.lease(left.pass());
    let right = space.lease(right.pass());
    let joined = left.join(right);
    let Ok(whole) = joined else {
        panic!(rt; "ranges apart")
    };
    assert_eq!(rt; whole.purse(), 5);
    let pass = whole.pass();
    let closed = space.close(pass);
    let Ok(words) = closed else {
        panic!(rt; "no memory")
    };
    assert_eq!(rt; words.len(), 1 + 8 + 8 * 512);
}
