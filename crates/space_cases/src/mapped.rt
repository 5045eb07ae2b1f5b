//! Maps, lookups, draws and unmaps over both halves of a split.

use crate::words::{Tags, close, find};
use fmt_vtdss::VtdSs;
use pt_format::Prot;
use pt_manual::{Walked, walk_vtdss};
use pt_map::{MapRefused, map};
use pt_model::Census;
use pt_space::Space;
use pt_sweep::{draw, unmap};
use pt_view::Holder;
use pt_walk::{OutsideLease, first_mapped, lookup};

#[test]
fn both_halves_map_into_one_table(rt: HostRuntime) {
    let Ok((space, pass)) = Space::<VtdSs<3>>::make(rt.alloc(), 8, 3, 4) else {
        panic!(rt; "no memory")
    };
    let whole = space.lease(pass);
    let (mut left, mut right) = whole.split(0x100, 1);
    let drawn = draw(&mut left, 2);
    assert_eq!(rt; (drawn, left.purse()), (2, 3));
    let low = map(&mut left, 0xf_f000, 0x9000, 0x1000, Prot::Read);
    let high = map(&mut right, 0x10_0000, 0x7000, 0x2000, Prot::ReadWrite);
    assert!(rt; low == Ok(()) && high == Ok(()));
    // the left one linked both tables, and the right one found them
    assert_eq!(rt; (left.purse(), right.purse()), (1, 3));
    let own = lookup(&mut left, 0xf_fabc);
    let others = lookup(&mut left, 0x10_0abc);
    assert!(rt; own == Ok(Some((0x9abc, Prot::Read))));
    assert!(rt; others == Err(OutsideLease));
    let second = lookup(&mut right, 0x10_1abc);
    let third = lookup(&mut right, 0x10_2abc);
    assert!(rt; second == Ok(Some((0x8abc, Prot::ReadWrite))));
    assert!(rt; third == Ok(None));
    let joined = left.join(right);
    let Ok(mut whole) = joined else {
        panic!(rt; "ranges apart")
    };
    let span = whole.range();
    assert_eq!(rt; first_mapped(&mut whole, span), Some(0xff));
    assert_eq!(rt; whole.purse(), 4);
    let pass = whole.pass();
    let closed = close(space, pass);
    let Ok(words) = closed else {
        panic!(rt; "no memory")
    };
    let found = find::<VtdSs<3>>(&words, 8);
    let tags = Tags {
        placed: 3,
        held: 4,
        free: 1,
    };
    assert_eq!(rt; found.tags, Some(tags));
    let census = Census {
        levels: 3,
        tables: 3,
        blocks: 3,
        pages: 3,
    };
    assert_eq!(rt; found.census, census);
    let page = Walked::Page {
        out: 0x8abc,
        prot: Prot::ReadWrite,
    };
    assert_eq!(rt; walk_vtdss(&words, 3, 0x10_1abc), page);
    assert_eq!(rt; walk_vtdss(&words, 3, 0x10_2abc), Walked::None);
}

#[test]
fn a_half_refuses_what_is_not_its_own(rt: HostRuntime) {
    let Ok((space, pass)) = Space::<VtdSs<3>>::make(rt.alloc(), 6, 3, 5) else {
        panic!(rt; "no memory")
    };
    let whole = space.lease(pass);
    let (mut left, mut right) = whole.split(0x200, 4);
    let across = map(&mut left, 0x1f_f000, 0x1000, 0x2000, Prot::Read);
    assert!(rt; across == Err(MapRefused::OutsideLease));
    let mapped = map(&mut left, 0x1f_e000, 0x1000, 0x2000, Prot::Read);
    assert!(rt; mapped == Ok(()));
    let again = map(&mut left, 0x1f_f000, 0x5000, 0x1000, Prot::Read);
    assert!(rt; again == Err(MapRefused::Occupied { address: 0x1f_f000 }));
    // the root and the table under it are linked: a table is absent here, and two in the next GiB
    let few = map(&mut right, 0x4000_0000, 0x3000, 0x1000, Prot::Read);
    assert!(rt; few == Err(MapRefused::NoFrames { absent: 2, held: 1 }));
    let near = map(&mut right, 0x20_0000, 0x3000, 0x1000, Prot::Read);
    assert!(rt; near == Ok(()));
    let far = unmap(&mut right, 0x1f_f000, 0x1000);
    assert!(rt; far.is_err());
    assert_eq!(rt; (left.purse(), right.purse()), (2, 0));
    // the left one's lowest table goes, and the right one's stays beside it
    let gone = unmap(&mut left, 0, 0x20_0000);
    assert!(rt; gone == Ok(2));
    assert_eq!(rt; left.purse(), 3);
    let kept = lookup(&mut right, 0x20_0123);
    assert!(rt; kept == Ok(Some((0x3123, Prot::Read))));
    let joined = left.join(right);
    let Ok(whole) = joined else {
        panic!(rt; "ranges apart")
    };
    let pass = whole.pass();
    let closed = close(space, pass);
    let Ok(words) = closed else {
        panic!(rt; "no memory")
    };
    let found = find::<VtdSs<3>>(&words, 6);
    let tags = Tags {
        placed: 3,
        held: 3,
        free: 0,
    };
    assert_eq!(rt; found.tags, Some(tags));
    let census = Census {
        levels: 3,
        tables: 3,
        blocks: 1,
        pages: 1,
    };
    assert_eq!(rt; found.census, census);
}
