use fmt_vtdss::VtdSs;
use pt_space::Space;
use pt_view::Holder;

#[test]
fn a_lease_takes_and_frees(rt: HostRuntime) {
    let Ok((space, pass)) = Space::<VtdSs<3>>::make(rt.alloc(), 8, 3, 2) else {
        panic!(rt; "no memory")
    };
    let mut lease = space.lease(pass);
    assert_eq!(rt; lease.frames(), 8);
    assert_eq!(rt; lease.levels(), 3);
    assert_eq!(rt; lease.range().count, 1 << 27);
    assert_eq!(rt; lease.purse(), 2);
    assert!(rt; lease.take(5));
    assert!(rt; !lease.take(5));
    assert_eq!(rt; lease.purse(), 3);
    assert_eq!(rt; lease.root(), 2);
    lease.leave();
    let pass = lease.pass();
    let closed = space.close(pass);
    let Ok(words) = closed else {
        panic!(rt; "no memory")
    };
    assert_eq!(rt; words.len(), 1 + 8 + 8 * 512);
}

#[test]
fn two_leases_share_frames(rt: HostRuntime) {
    let Ok((space, pass)) = Space::<VtdSs<3>>::make(rt.alloc(), 8, 3, 4) else {
        panic!(rt; "no memory")
    };
    let whole = space.lease(pass);
    let (mut left, mut right) = whole.split(0x100, 1);
    assert_eq!(rt; left.purse(), 1);
    assert_eq!(rt; right.purse(), 3);
    assert_eq!(rt; right.range().first, 0x100);
    assert!(rt; right.take(6));
    assert!(rt; !left.take(6));
    let joined = left.join(right);
    let Ok(whole) = joined else {
        panic!(rt; "ranges apart")
    };
    assert_eq!(rt; whole.purse(), 5);
    let pass = whole.pass();
    let closed = space.close(pass);
    let Ok(words) = closed else {
        panic!(rt; "no memory")
    };
    assert_eq!(rt; words.len(), 1 + 8 + 8 * 512);
}
