//! Tables that one lease unlinks while others link some in the same table, in every order of their calls.

ghost use Rattle.std.specs.Prelude.{◌<◌, ◌≤◌};

use crate::calls::{Call, make_in_order};
use crate::owned::set_table;
use crate::pair::{Pair, Racer, Trio};
use crate::racer::Goal;
use crate::races::{LINK, Left, has_frames, is_fair};
use crate::words::{close, find};
use fmt_vtdss::VtdSs;
use pt_space::Space;
use pt_view::Holder;
use std::alloc::Global;

/// The table at entry 1 of the root's table goes, and every frame of the purse is freed.
const UNLINK: Goal = Goal::Unlink {
    level: 2,
    number: 1,
};

/// One lease unlinks its table and frees the frame of that, beside another that takes this frame and links it in the
/// same table, in an order.
fn unlink_beside_link(alloc: Global, order: u32) -> Option<Left> {
    let Ok((space, pass)) = Space::<VtdSs<3>>::make(alloc, 8, 3, 4) else {
        return None
    };
    let whole = space.lease(pass);
    let (left, mut right) = whole.split(0x100, 0);
    // by frame 1
    set_table(&mut right, 2, 1, 0x4_0000);
    let left = Racer::of(left, LINK);
    let right = Racer::of(right, UNLINK);
    let mut pair = Pair::of(left, right);
    pair.run(order);
    let whole = pair.join();
    let purse = whole.purse();
    let pass = whole.pass();
    let Ok(words) = close(space, pass) else {
        return None
    };
    let found = find::<VtdSs<3>>(&words, 8);
    Some(Left { purse, found })
}

/// One lease unlinks its table beside two others that link one at one entry of the same table, in an order.
fn unlink_beside_two(alloc: Global, order: u32) -> Option<Left> {
    let Ok((space, pass)) = Space::<VtdSs<3>>::make(alloc, 8, 3, 4) else {
        return None
    };
    let whole = space.lease(pass);
    let (left, others) = whole.split(0x80, 1);
    let (middle, mut right) = others.split(0x100, 1);
    set_table(&mut right, 2, 1, 0x4_0000);
    let left = Racer::of(left, LINK);
    let middle = Racer::of(middle, LINK);
    let right = Racer::of(right, UNLINK);
    let mut trio = Trio::of(left, middle, right);
    trio.run(order);
    let whole = trio.join();
    let purse = whole.purse();
    let pass = whole.pass();
    let Ok(words) = close(space, pass) else {
        return None
    };
    let found = find::<VtdSs<3>>(&words, 8);
    Some(Left { purse, found })
}

#[test]
fn the_frame_of_an_unlinked_table_is_linked_again_in_every_order(rt: HostRuntime) {
    let mut linked = 0u32;
    let mut held = 0u32;
    let mut lost = 0u32;
    for order in 0..256u32 {
        if order.count_ones() == 4 {
            let Some(left) = unlink_beside_link(rt.alloc(), order) else {
                panic!(rt; "no memory")
            };
            // the table that goes is never there, and its frame is at the other entry, or held, or free
            if has_frames(left, 2, 0) {
                linked = linked.wrapping_add(1);
            } else if has_frames(left, 1, 1) {
                held = held.wrapping_add(1);
            } else {
                assert!(rt; has_frames(left, 1, 0), "in order {order}");
                lost = lost.wrapping_add(1);
            }
        }
    }
    // the frame is free behind the third call of the one: the second call of the other, or a later one, takes it then
    assert_eq!(rt; (linked, held, lost), (17, 38, 15));
}

#[test]
fn a_table_is_unlinked_beside_two_that_link_one_in_every_order(rt: HostRuntime) {
    let mut orders = 0u32;
    for order in 0..729u32 {
        if is_fair(order) {
            let Some(left) = unlink_beside_two(rt.alloc(), order) else {
                panic!(rt; "no memory")
            };
            assert!(rt; has_frames(left, 2, 1), "in order {order}");
            orders = orders.wrapping_add(1);
        }
    }
    assert_eq!(rt; orders, 90);
}

// One maps a page under entry 0 of the root's table, and unlinks the tables of it, twice.
const MAP_AND_UNLINK: [Call; 4] = [
    Call::Map { page: 5 },
    Call::Unmap {
        first: 0,
        count: 0x4_0000,
    },
    Call::Map { page: 6 },
    Call::Unmap {
        first: 0,
        count: 0x4_0000,
    },
];

// The other links tables at entries 1 and 2 of that table, and keeps those at entry 2.
const LINK_BESIDE: [Call; 4] = [
    Call::Map { page: 0x4_0000 },
    Call::Map { page: 0x8_0000 },
    Call::Unmap {
        first: 0x4_0000,
        count: 0x4_0000,
    },
    Call::Map { page: 0x8_0001 },
];

/// A lease that links and unlinks tables beside another that links some in the same table, in an order.
fn unlink_in_order(alloc: Global, order: u32) -> Option<Left> {
    let Ok((space, pass)) = Space::<VtdSs<3>>::make(alloc, 8, 3, 6) else {
        return None
    };
    let whole = space.lease(pass);
    let (mut left, mut right) = whole.split(0x4_0000, 2);
    make_in_order(
        &mut left,
        &mut right,
        (&MAP_AND_UNLINK, &LINK_BESIDE),
        order,
    );
    let joined = left.join(right);
    let Ok(whole) = joined else { unreachable!() };
    let purse = whole.purse();
    let pass = whole.pass();
    let Ok(words) = close(space, pass) else {
        return None
    };
    let found = find::<VtdSs<3>>(&words, 8);
    Some(Left { purse, found })
}

#[test]
fn tables_are_unlinked_beside_those_that_are_linked_in_every_order(rt: HostRuntime) {
    for order in 0..256u32 {
        if order.count_ones() == 4 {
            let Some(left) = unlink_in_order(rt.alloc(), order) else {
                panic!(rt; "no memory")
            };
            let Some(tags) = left.found.tags else {
                panic!(rt; "no rule of tags in order {order}")
            };
            // the root's table and the two over pages 0x8_0000 and 0x8_0001
            assert_eq!(rt;
                (tags.placed, tags.held, left.purse),
                (3, 4, 4),
                "in order {order}"
            );
            assert_eq!(rt;
                (tags.free, left.found.census.blocks),
                (1, 2),
                "in order {order}"
            );
        }
    }
}
