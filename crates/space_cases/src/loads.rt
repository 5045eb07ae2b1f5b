//! Larger loads: leases of one space, each in a thread of its own, that map and look up thousands of pages.

ghost use Rattle.std.specs.Prelude.{IsTrue, length};
ghost use Rattle.pt_model.specs.Words.{IsSpaceLength};
ghost use Rattle.pt_view.specs.Views.{Rests};
ghost use Rattle.space_cases.specs.Handing.{IsHanded, IsHandedBack};

use crate::words::{Tags, close, find};
use fmt_vtdss::VtdSs;
use pt_format::{Format, Prot};
use pt_manual::{Walked, walk_vtdss};
use pt_map::map;
use pt_space::{Lease, Space, Ticket};
use pt_walk::lookup;
use std::thread::{Threads, join};

/// The pages that each lease maps, and the first one of all.
const SHARE: u64 = 2048;

const FIRST: u64 = 100;

/// What a thread is to map: so many pages from one on, to pages that don't lie in order.
#[derive(Clone, Copy)]
struct Load {
    first: u64,
    prot: Prot,
}

/// The output page of an input page.
fn output_of(page: u64) -> u64 {
    page.wrapping_mul(7).wrapping_add(3)
}

/// Maps a page, and looks up a byte of it.
fn map_page<F: Format>(lease: &mut Lease<'_, F>, page: u64, prot: Prot) -> bool
    requires rest { Rests F.layout lease.old.view }
    requires stated { IsTrue (F.layout.states prot) }
    ensures { IsHandedBack F.layout lease.old lease.new }
{
    let va = page.wrapping_mul(0x1000);
    let pa = output_of(page).wrapping_mul(0x1000);
    let mapped = map(lease, va, pa, 0x1000, prot);
    let found = lookup(lease, va.wrapping_add(0x123));
    mapped == Ok(()) && found == Ok(Some((pa.wrapping_add(0x123), prot)))
}

/// Maps the pages of a load, and looks each up. Answers how many were found as they were mapped.
fn map_pages<F: Format>(lease: &mut Lease<'_, F>, load: Load) -> u64
    requires rest { Rests F.layout lease.old.view }
    requires stated { IsTrue (F.layout.states load.prot) }
    ensures { IsHandedBack F.layout lease.old lease.new }
{
    let mut found = 0u64;
    for number in 0..SHARE {
        if map_page(lease, load.first.wrapping_add(number), load.prot) {
            found = found.wrapping_add(1);
        }
    }
    found
}

/// Maps a load over a lease of a ticket's pass.
fn map_load<F: Format>(space: &Space<F>, ticket: Ticket<F>, load: Load) -> (Ticket<F>, u64)
    requires handed { IsHanded F.layout space.now ticket }
    requires stated { IsTrue (F.layout.states load.prot) }
    ensures { IsHandedBack F.layout ticket result.0 }
{
    let mut lease = space.lease(ticket.pass());
    let found = map_pages(&mut lease, load);
    (Ticket::of(lease.pass()), found)
}

/// Maps two loads, each in a thread of its own.
fn map_two<F: Format + Send + Sync, R: Threads>(
    rt: &R,
    space: &Space<F>,
    left: (Ticket<F>, Load),
    right: (Ticket<F>, Load),
) -> ((Ticket<F>, u64), (Ticket<F>, u64))
    requires handed { IsHanded F.layout space.now left.0 × IsHanded F.layout space.now right.0 }
    requires stated { IsTrue (F.layout.states left.1.prot) × IsTrue (F.layout.states right.1.prot) }
    ensures left { IsHandedBack F.layout left.0 result.0.0 }
    ensures right { IsHandedBack F.layout right.0 result.1.0 }
{
    let (first, low) = left;
    let (second, high) = right;
    join(
        rt,
        || -> (Ticket<F>, u64)
            requires handed { IsHanded F.layout space.now first }
            requires stated { IsTrue (F.layout.states low.prot) }
            ensures { IsHandedBack F.layout first result.0 }
        { map_load(space, first, low) },
        || -> (Ticket<F>, u64)
            requires handed { IsHanded F.layout space.now second }
            requires stated { IsTrue (F.layout.states high.prot) }
            ensures { IsHandedBack F.layout second result.0 }
        { map_load(space, second, high) },
    )
}

/// Whether the manual's walk finds each page of a load where it was mapped to.
fn is_walked(words: &[u64], load: Load) -> bool
    requires { IsSpaceLength 9 (length words.now) }
{
    for number in 0..SHARE {
        let page = load.first.wrapping_add(number);
        let want = Walked::Page {
            out: output_of(page).wrapping_mul(0x1000),
            prot: load.prot,
        };
        if walk_vtdss(words, 3, page.wrapping_mul(0x1000)) != want {
            return false;
        }
    }
    true
}

/// The load of a lease: its number counts from 0.
fn load_of(number: u64) -> Load {
    let prot = if number % 2 == 0 {
        Prot::Read
    } else {
        Prot::ReadWrite
    };
    Load {
        first: FIRST.wrapping_add(number.wrapping_mul(SHARE)),
        prot,
    }
}

#[test]
fn two_threads_map_side_by_side(rt: HostRuntime) {
    let Ok((space, pass)) = Space::<VtdSs<3>>::make(rt.alloc(), 24, 3, 20) else {
        panic!(rt; "no memory")
    };
    let whole = space.lease(pass);
    let (left, right) = whole.split(FIRST + SHARE, 10);
    let left = (Ticket::of(left.pass()), load_of(0));
    let right = (Ticket::of(right.pass()), load_of(1));
    let ((left, low), (right, high)) = map_two(&rt, &space, left, right);
    assert_eq!(rt; (low, high), (SHARE, SHARE));
    let left = space.lease(left.pass());
    let right = space.lease(right.pass());
    let joined = left.join(right);
    let Ok(whole) = joined else {
        panic!(rt; "ranges apart")
    };
    let pass = whole.pass();
    let closed = close(space, pass);
    let Ok(words) = closed else {
        panic!(rt; "no memory")
    };
    let found = find::<VtdSs<3>>(&words, 24);
    // pages 100 to 4195 are in nine tables
    let tags = Tags {
        placed: 11,
        held: 10,
        free: 3,
    };
    assert_eq!(rt; found.tags, Some(tags));
    assert_eq!(rt; (found.census.blocks, found.census.pages), (4096, 4096));
    assert!(rt; is_walked(&words, load_of(0)) && is_walked(&words, load_of(1)));
    assert_eq!(rt; walk_vtdss(&words, 3, 0x6_3000), Walked::None);
    assert_eq!(rt; walk_vtdss(&words, 3, 0x106_4000), Walked::None);
}
