//! Two and three leases in every order of their calls.

ghost use Rattle.std.specs.Prelude.{◌<◌, ◌≤◌};

use crate::calls::{Call, make_in_order};
use crate::pair::{Pair, Racer, Trio};
use crate::racer::Goal;
use crate::words::{Found, close, find};
use fmt_amdv1::AmdV1;
use fmt_vtdss::VtdSs;
use pt_space::Space;
use pt_view::Holder;
use std::alloc::Global;

/// A table at entry 0 of the root's table. Who holds no frame tries frame 1.
pub(crate) const LINK: Goal = Goal::Link { spare: 1 };

/// What a race leaves: the purse of the joined lease, and what the closed words have.
#[derive(Clone, Copy)]
pub(crate) struct Left {
    pub(crate) purse: u32,
    pub(crate) found: Found,
}

/// Two leases that link a table at one entry, in an order.
fn link_in_order(alloc: Global, order: u32) -> Option<Left> {
    let Ok((space, pass)) = Space::<VtdSs<3>>::make(alloc, 8, 3, 4) else {
        return None
    };
    let whole = space.lease(pass);
    let (left, right) = whole.split(0x100, 2);
    let left = Racer::of(left, LINK);
    let right = Racer::of(right, LINK);
    let mut pair = Pair::of(left, right);
    pair.run(order);
    let whole = pair.join();
    let purse = whole.purse();
    let pass = whole.pass();
    let Ok(words) = close(space, pass) else {
        return None
    };
    let found = find::<VtdSs<3>>(&words, 8);
    Some(Left { purse, found })
}

/// Two leases that raise the root, in an order.
fn raise_in_order(alloc: Global, order: u32) -> Option<Left> {
    let Ok((space, pass)) = Space::<AmdV1>::make(alloc, 16, 3, 4) else {
        return None
    };
    let whole = space.lease(pass);
    let (left, right) = whole.split(0x100, 2);
    let left = Racer::of(left, Goal::Raise);
    let right = Racer::of(right, Goal::Raise);
    let mut pair = Pair::of(left, right);
    pair.run(order);
    let whole = pair.join();
    let purse = whole.purse();
    let pass = whole.pass();
    let Ok(words) = close(space, pass) else {
        return None
    };
    let found = find::<AmdV1>(&words, 16);
    Some(Left { purse, found })
}

/// Three leases that link a table at one entry, in an order.
fn link_in_order_of_three(alloc: Global, order: u32) -> Option<Left> {
    let Ok((space, pass)) = Space::<VtdSs<3>>::make(alloc, 8, 3, 3) else {
        return None
    };
    let whole = space.lease(pass);
    let (left, others) = whole.split(0x80, 1);
    let (middle, right) = others.split(0x100, 1);
    let left = Racer::of(left, LINK);
    let middle = Racer::of(middle, LINK);
    let right = Racer::of(right, LINK);
    let mut trio = Trio::of(left, middle, right);
    trio.run(order);
    let whole = trio.join();
    let purse = whole.purse();
    let pass = whole.pass();
    let Ok(words) = close(space, pass) else {
        return None
    };
    let found = find::<VtdSs<3>>(&words, 8);
    Some(Left { purse, found })
}

/// Whether each of three has two of the six turns of an order.
pub(crate) fn is_fair(order: u32) -> bool {
    let mut turns = [0u32; 3];
    let mut left = order;
    for _ in 0..6u32 {
        let whose = (left % 3) as usize;
        turns[whose] = turns[whose].wrapping_add(1);
        left = left / 3;
    }
    turns[0] == 2 && turns[1] == 2 && turns[2] == 2
}

/// Whether so many frames are placed, so many held, and each frame is placed once, or held once, or free; and the tables
/// are the placed frames, with no block in them.
pub(crate) fn has_frames(left: Left, placed: u32, held: u32) -> bool {
    let Left { purse, found } = left;
    let Some(tags) = found.tags else {
        return false;
    };
    let census = found.census;
    tags.placed == placed
        && tags.held == held
        && purse == held
        && census.tables == u64::from(placed)
        && census.blocks == 0
}

#[test]
fn one_of_two_links_the_table_in_every_order(rt: HostRuntime) {
    let mut orders = 0u32;
    for order in 0..256u32 {
        if order.count_ones() == 4 {
            let Some(left) = link_in_order(rt.alloc(), order) else {
                panic!(rt; "no memory")
            };
            assert!(rt; has_frames(left, 2, 3), "in order {order}");
            orders = orders.wrapping_add(1);
        }
    }
    assert_eq!(rt; orders, 70);
}

#[test]
fn the_root_is_raised_by_each_that_wins_in_every_order(rt: HostRuntime) {
    let mut once = 0u32;
    let mut twice = 0u32;
    for order in 0..256u32 {
        if order.count_ones() == 4 {
            let Some(left) = raise_in_order(rt.alloc(), order) else {
                panic!(rt; "no memory")
            };
            // the second to raise it found the raised root, and raised that
            if left.found.census.levels == 5 {
                assert!(rt; has_frames(left, 3, 2), "in order {order}");
                twice = twice.wrapping_add(1);
            } else {
                assert_eq!(rt; left.found.census.levels, 4, "in order {order}");
                assert!(rt; has_frames(left, 2, 3), "in order {order}");
                once = once.wrapping_add(1);
            }
        }
    }
    // one of them is through with its growth before the other loads the root: in 2 x 5 orders
    assert_eq!(rt; (once, twice), (60, 10));
}

#[test]
fn one_of_three_links_the_table_in_every_order(rt: HostRuntime) {
    let mut orders = 0u32;
    for order in 0..729u32 {
        if is_fair(order) {
            let Some(left) = link_in_order_of_three(rt.alloc(), order) else {
                panic!(rt; "no memory")
            };
            assert!(rt; has_frames(left, 2, 2), "in order {order}");
            orders = orders.wrapping_add(1);
        }
    }
    assert_eq!(rt; orders, 90);
}

/// Two leases that take and free frames, in an order.
fn take_in_order(alloc: Global, calls: (&[Call], &[Call]), order: u32) -> Option<Left> {
    let Ok((space, pass)) = Space::<VtdSs<3>>::make(alloc, 8, 3, 2) else {
        return None
    };
    let whole = space.lease(pass);
    let (mut left, mut right) = whole.split(0x100, 1);
    make_in_order(&mut left, &mut right, calls, order);
    let joined = left.join(right);
    let Ok(whole) = joined else { unreachable!() };
    let purse = whole.purse();
    let pass = whole.pass();
    let Ok(words) = close(space, pass) else {
        return None
    };
    let found = find::<VtdSs<3>>(&words, 8);
    Some(Left { purse, found })
}

// Each takes the frames that are free, one from the lowest on and the other from the highest on.
const UP: [Call; 4] = [
    Call::Take { frame: 4 },
    Call::Take { frame: 5 },
    Call::Take { frame: 6 },
    Call::Take { frame: 7 },
];

const DOWN: [Call; 4] = [
    Call::Take { frame: 7 },
    Call::Take { frame: 6 },
    Call::Take { frame: 5 },
    Call::Take { frame: 4 },
];

// Each frees what it has, and goes after the frames of the other.
const FREE_FIRST: [Call; 4] = [
    Call::Release,
    Call::Take { frame: 2 },
    Call::Take { frame: 1 },
    Call::Release,
];

const FREE_LATE: [Call; 4] = [
    Call::Take { frame: 1 },
    Call::Take { frame: 2 },
    Call::Release,
    Call::Take { frame: 1 },
];

#[test]
fn each_frame_is_taken_once_in_every_order(rt: HostRuntime) {
    for order in 0..256u32 {
        if order.count_ones() == 4 {
            let Some(left) = take_in_order(rt.alloc(), (&UP, &DOWN), order) else {
                panic!(rt; "no memory")
            };
            // frame 3 is free, and nobody tried it
            assert!(rt; has_frames(left, 1, 6), "in order {order}");
        }
    }
}

#[test]
fn freed_frames_go_to_either_in_every_order(rt: HostRuntime) {
    let mut kept = [0u32; 2];
    for order in 0..256u32 {
        if order.count_ones() == 4 {
            let Some(left) = take_in_order(rt.alloc(), (&FREE_FIRST, &FREE_LATE), order) else {
                panic!(rt; "no memory")
            };
            let purse = left.purse;
            assert!(rt; purse < 2 && has_frames(left, 1, purse), "in order {order}");
            kept[purse as usize] = kept[purse as usize].wrapping_add(1);
        }
    }
    // the last take of frame 1 is lost where the other one has it then
    assert_eq!(rt; kept, [16, 54]);
}
