//! Leases that race on two sides of a join of threads, where either may win.

ghost use Rattle.std.specs.Prelude.{◌^◌, ◌<◌};
ghost use Rattle.space_cases.specs.Handing.{IsEntered, IsHandedBack};

use crate::pair::Racer;
use crate::racer::Goal;
use crate::words::{Tags, close, find};
use fmt_amdv1::AmdV1;
use fmt_vtdss::VtdSs;
use pt_format::Format;
use pt_space::{Space, Ticket};
use pt_view::Holder;
use std::thread::{Threads, join};

/// A lease of a ticket's pass makes all its calls to a goal.
fn race<F: Format>(space: &Space<F>, ticket: Ticket<F>, goal: Goal) -> Ticket<F>
    requires { IsEntered F.layout space.now ticket goal }
    ensures { IsHandedBack F.layout ticket result }
{
    let mut racer = Racer::of(space.lease(ticket.pass()), goal);
    racer.turn();
    racer.turn();
    racer.turn();
    racer.turn();
    let lease = racer.rest();
    Ticket::of(lease.pass())
}

/// Leases of two tickets' passes, each in a thread of its own, go each to a goal.
fn race_beside<F: Format + Send + Sync, R: Threads>(
    rt: &R,
    space: &Space<F>,
    left: (Ticket<F>, Goal),
    right: (Ticket<F>, Goal),
) -> (Ticket<F>, Ticket<F>)
    requires left { IsEntered F.layout space.now left.0 left.1 }
    requires right { IsEntered F.layout space.now right.0 right.1 }
    ensures left { IsHandedBack F.layout left.0 result.0 }
    ensures right { IsHandedBack F.layout right.0 result.1 }
{
    let (first, low) = left;
    let (second, high) = right;
    join(
        rt,
        || -> Ticket<F>
            requires { IsEntered F.layout space.now first low }
            ensures { IsHandedBack F.layout first result }
        { race(space, first, low) },
        || -> Ticket<F>
            requires { IsEntered F.layout space.now second high }
            ensures { IsHandedBack F.layout second result }
        { race(space, second, high) },
    )
}

#[test]
fn one_of_two_threads_links_the_table(rt: HostRuntime) {
    let Ok((space, pass)) = Space::<VtdSs<3>>::make(rt.alloc(), 8, 3, 4) else {
        panic!(rt; "no memory")
    };
    let whole = space.lease(pass);
    let (left, right) = whole.split(0x100, 2);
    let left = (Ticket::of(left.pass()), Goal::Link { spare: 5 });
    let right = (Ticket::of(right.pass()), Goal::Link { spare: 5 });
    let (left, right) = race_beside(&rt, &space, left, right);
    let mut left = space.lease(left.pass());
    let mut right = space.lease(right.pass());
    assert!(rt; left.purse() <= 2 && right.purse() <= 2);
    assert_eq!(rt; left.purse() + right.purse(), 3);
    assert!(rt; right.take(5));
    assert!(rt; !left.take(5));
    let apart = right.join(left);
    let Err((right, left)) = apart else {
        panic!(rt; "joined the wrong way round")
    };
    let joined = left.join(right);
    let Ok(whole) = joined else {
        panic!(rt; "ranges apart")
    };
    assert_eq!(rt; whole.purse(), 4);
    let pass = whole.pass();
    let closed = close(space, pass);
    let Ok(words) = closed else {
        panic!(rt; "no memory")
    };
    let tags = Tags {
        placed: 2,
        held: 4,
        free: 2,
    };
    assert_eq!(rt; find::<VtdSs<3>>(&words, 8).tags, Some(tags));
}

#[test]
fn each_of_two_threads_that_wins_raises_the_root(rt: HostRuntime) {
    let Ok((space, pass)) = Space::<AmdV1>::make(rt.alloc(), 16, 3, 4) else {
        panic!(rt; "no memory")
    };
    let whole = space.lease(pass);
    let (left, right) = whole.split(0x100, 2);
    let left = (Ticket::of(left.pass()), Goal::Raise);
    let right = (Ticket::of(right.pass()), Goal::Raise);
    let (left, right) = race_beside(&rt, &space, left, right);
    let left = space.lease(left.pass());
    let right = space.lease(right.pass());
    let joined = left.join(right);
    let Ok(whole) = joined else {
        panic!(rt; "ranges apart")
    };
    let purse = whole.purse();
    let pass = whole.pass();
    let closed = close(space, pass);
    let Ok(words) = closed else {
        panic!(rt; "no memory")
    };
    let found = find::<AmdV1>(&words, 16);
    // one level more for each that won: a second winner had loaded the raised root
    assert!(rt; purse == 2 || purse == 3);
    let placed = 5 - purse;
    let tags = Tags {
        placed,
        held: purse,
        free: 11,
    };
    assert_eq!(rt; found.tags, Some(tags));
    assert_eq!(rt; found.census.levels, 2 + placed);
    assert_eq!(rt; found.census.tables, u64::from(placed));
    assert_eq!(rt; found.census.blocks, 0);
}
