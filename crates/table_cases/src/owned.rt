use fmt_vtdss::VtdSs;
use pt_format::{Block, Prot, Span};
use pt_map::{MapRefused, map};
use pt_plain::Plain;
use pt_sweep::{draw, unmap};
use pt_view::{Holder, Won};
use pt_walk::{RangeWalk, first_mapped, lookup, next_block};

/// The span of the whole space of three levels, in pages.
const ALL: Span = Span {
    first: 0,
    count: 1 << 27,
};

#[test]
fn a_new_space_has_its_frames(rt: HostRuntime) {
    let Ok(mut owner) = Plain::<VtdSs<3>>::make(rt.alloc(), 8, 3, 2) else {
        panic!(rt; "no memory")
    };
    assert_eq!(rt; owner.frames(), 8);
    assert_eq!(rt; owner.levels(), 3);
    assert_eq!(rt; owner.range().count, 1 << 27);
    assert_eq!(rt; owner.purse(), 2);
    assert_eq!(rt; draw(&mut owner, 9), 5);
    assert_eq!(rt; owner.purse(), 7);
}

#[test]
fn a_new_space_maps_no_page(rt: HostRuntime) {
    let Ok(mut owner) = Plain::<VtdSs<3>>::make(rt.alloc(), 8, 3, 2) else {
        panic!(rt; "no memory")
    };
    assert!(rt; lookup(&mut owner, 0x1000) == Ok(None));
}

#[test]
fn a_new_space_is_closed(rt: HostRuntime) {
    let Ok(owner) = Plain::<VtdSs<3>>::make(rt.alloc(), 8, 3, 2) else {
        panic!(rt; "no memory")
    };
    assert_eq!(rt; owner.close().len(), 1 + 8 + 8 * 512);
}

#[test]
fn a_table_is_linked_once(rt: HostRuntime) {
    let Ok(mut owner) = Plain::<VtdSs<3>>::make(rt.alloc(), 8, 3, 3) else {
        panic!(rt; "no memory")
    };
    let level = owner.root();
    assert_eq!(rt; level, 2);
    owner.place(1, 0);
    let first = owner.install(0);
    assert!(rt; first == Won::Yes);
    owner.leave();
    owner.place(1, 0);
    let second = owner.install(0);
    owner.leave();
    match second {
        Won::Yes => panic!(rt; "linked twice"),
        Won::Met => owner.unplace(),
    }
    assert_eq!(rt; owner.purse(), 2);
}

#[test]
fn a_map_wants_frames(rt: HostRuntime) {
    let Ok(mut owner) = Plain::<VtdSs<3>>::make(rt.alloc(), 3, 3, 2) else {
        panic!(rt; "no memory")
    };
    let mapped = map(&mut owner, 0, 0x1000, 0x1000, Prot::ReadWrite);
    assert!(rt; mapped == Ok(()));
    let wants = map(&mut owner, 0x4000_0000, 0x2000, 0x1000, Prot::ReadWrite);
    assert!(rt; wants == Err(MapRefused::NoFrames { absent: 2, held: 0 }));
}

/// A block's first page, size and output.
fn numbers(block: Option<Block>) -> Option<(u64, u32, u64)> {
    let block = block?;
    Some((block.first, block.log2, block.out))
}

#[test]
fn a_walk_gives_the_blocks_of_a_map(rt: HostRuntime) {
    let Ok(mut owner) = Plain::<VtdSs<3>>::make(rt.alloc(), 8, 3, 7) else {
        panic!(rt; "no memory")
    };
    let mapped = map(&mut owner, 0x1f_f000, 0x3f_f000, 0x20_2000, Prot::Read);
    assert!(rt; mapped == Ok(()));
    let mut walk = RangeWalk::<VtdSs<3>>::begin(&mut owner, ALL);
    let first = walk.next(&mut owner);
    assert!(rt; numbers(first) == Some((0x1ff, 0, 0x3ff)));
    let second = walk.next(&mut owner);
    assert!(rt; numbers(second) == Some((0x200, 9, 0x400)));
    let third = walk.next(&mut owner);
    assert!(rt; numbers(third) == Some((0x400, 0, 0x600)));
    assert!(rt; walk.next(&mut owner).is_none());
    walk.end(&mut owner);
    assert!(rt; next_block(&mut owner, ALL).is_some());
    assert!(rt; first_mapped(&mut owner, ALL) == Some(0x1ff));
}

#[test]
fn a_block_goes_where_an_emptied_table_stands(rt: HostRuntime) {
    let Ok(mut owner) = Plain::<VtdSs<3>>::make(rt.alloc(), 8, 3, 7) else {
        panic!(rt; "no memory")
    };
    let page = map(&mut owner, 0x20_0000, 0x1000, 0x1000, Prot::ReadWrite);
    assert!(rt; page == Ok(()));
    let gone = unmap(&mut owner, 0x20_0000, 0x1000);
    assert!(rt; gone == Ok(1));
    assert_eq!(rt; owner.purse(), 5);
    let block = map(&mut owner, 0x20_0000, 0x40_0000, 0x20_0000, Prot::Read);
    assert!(rt; block == Ok(()));
    assert_eq!(rt; owner.purse(), 6);
    assert!(rt; lookup(&mut owner, 0x20_1234) == Ok(Some((0x40_1234, Prot::Read))));
}

#[test]
fn blocks_among_pages_go_where_emptied_tables_stand(rt: HostRuntime) {
    let Ok(mut owner) = Plain::<VtdSs<3>>::make(rt.alloc(), 8, 3, 7) else {
        panic!(rt; "no memory")
    };
    let pages = map(&mut owner, 0x3f_f000, 0x1000, 0x2000, Prot::ReadWrite);
    assert!(rt; pages == Ok(()));
    let gone = unmap(&mut owner, 0x3f_f000, 0x2000);
    assert!(rt; gone == Ok(2));
    assert_eq!(rt; owner.purse(), 4);
    let mapped = map(&mut owner, 0x1f_f000, 0x3f_f000, 0x40_2000, Prot::Read);
    assert!(rt; mapped == Ok(()));
    assert_eq!(rt; owner.purse(), 4);
    let mut walk = RangeWalk::<VtdSs<3>>::begin(&mut owner, ALL);
    let page = walk.next(&mut owner);
    assert!(rt; numbers(page) == Some((0x1ff, 0, 0x3ff)));
    let block = walk.next(&mut owner);
    assert!(rt; numbers(block) == Some((0x200, 9, 0x400)));
    let other = walk.next(&mut owner);
    assert!(rt; numbers(other) == Some((0x400, 9, 0x600)));
    walk.end(&mut owner);
}
