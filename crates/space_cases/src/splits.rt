//! Leases of one space on one thread.

use crate::steps::{leave_root, link, load_root, prepare, raise, rest_at_root, rest_below};
use crate::words::{Tags, close, find};
use fmt_amdv1::AmdV1;
use fmt_vtdss::VtdSs;
use pt_model::Census;
use pt_space::Space;
use pt_view::{Holder, Won};

#[test]
fn frames_of_a_split_and_of_a_join(rt: HostRuntime) {
    let Ok((space, pass)) = Space::<VtdSs<3>>::make(rt.alloc(), 8, 3, 4) else {
        panic!(rt; "no memory")
    };
    let whole = space.lease(pass);
    let (mut left, mut right) = whole.split(0x100, 1);
    assert_eq!(rt; left.purse(), 1);
    assert_eq!(rt; right.purse(), 3);
    assert!(rt; right.take(5));
    assert!(rt; !left.take(5));
    left.release();
    assert_eq!(rt; left.purse(), 0);
    assert!(rt; right.take(1));
    let joined = left.join(right);
    let Ok(whole) = joined else {
        panic!(rt; "ranges apart")
    };
    assert_eq!(rt; whole.purse(), 5);
    let pass = whole.pass();
    let closed = close(space, pass);
    let Ok(words) = closed else {
        panic!(rt; "no memory")
    };
    let tags = Tags {
        placed: 1,
        held: 5,
        free: 2,
    };
    assert_eq!(rt; find::<VtdSs<3>>(&words, 8).tags, Some(tags));
}

#[test]
fn two_leases_link_a_table_at_one_entry(rt: HostRuntime) {
    let Ok((space, pass)) = Space::<VtdSs<3>>::make(rt.alloc(), 8, 3, 4) else {
        panic!(rt; "no memory")
    };
    let whole = space.lease(pass);
    let (mut left, mut right) = whole.split(0x100, 2);
    let level = load_root(&mut left);
    let same = load_root(&mut right);
    assert_eq!(rt; (level, same), (2, 2));
    prepare(&mut left, level, 1);
    prepare(&mut right, same, 1);
    assert_eq!(rt; (left.purse(), right.purse()), (1, 1));
    let second = link(&mut right, same);
    let first = link(&mut left, level);
    assert_eq!(rt; (second, first), (Won::Yes, Won::Met));
    rest_below(&mut left, first);
    rest_below(&mut right, second);
    assert_eq!(rt; left.purse(), 2);
    assert!(rt; right.take(5));
    assert!(rt; !left.take(5));
    let apart = right.join(left);
    let Err((right, left)) = apart else {
        panic!(rt; "joined the wrong way round")
    };
    let joined = left.join(right);
    let Ok(whole) = joined else {
        panic!(rt; "ranges apart")
    };
    assert_eq!(rt; whole.purse(), 4);
    let pass = whole.pass();
    let closed = close(space, pass);
    let Ok(words) = closed else {
        panic!(rt; "no memory")
    };
    let tags = Tags {
        placed: 2,
        held: 4,
        free: 2,
    };
    assert_eq!(rt; find::<VtdSs<3>>(&words, 8).tags, Some(tags));
}

#[test]
fn two_leases_raise_the_root(rt: HostRuntime) {
    let Ok((space, pass)) = Space::<AmdV1>::make(rt.alloc(), 16, 3, 4) else {
        panic!(rt; "no memory")
    };
    let whole = space.lease(pass);
    let (mut left, mut right) = whole.split(0x800_0000, 2);
    let level = load_root(&mut left);
    let same = load_root(&mut right);
    assert_eq!(rt; (level, same), (2, 2));
    prepare(&mut left, level, 3);
    prepare(&mut right, same, 3);
    let first = raise(&mut left, level);
    let second = raise(&mut right, same);
    assert_eq!(rt; (first, second), (Won::Yes, Won::Met));
    rest_at_root(&mut left, first);
    rest_at_root(&mut right, second);
    let raised = load_root(&mut right);
    assert_eq!(rt; raised, 3);
    leave_root(&mut right, raised);
    assert_eq!(rt; (left.purse(), right.purse()), (1, 2));
    let joined = left.join(right);
    let Ok(whole) = joined else {
        panic!(rt; "ranges apart")
    };
    let pass = whole.pass();
    let closed = close(space, pass);
    let Ok(words) = closed else {
        panic!(rt; "no memory")
    };
    let found = find::<AmdV1>(&words, 16);
    let census = Census {
        levels: 4,
        tables: 2,
        blocks: 0,
        pages: 0,
    };
    assert_eq!(rt; found.census, census);
    let tags = Tags {
        placed: 2,
        held: 3,
        free: 11,
    };
    assert_eq!(rt; found.tags, Some(tags));
}
