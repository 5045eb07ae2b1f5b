//! Scripts with forks, dumps, releases and asks, over all formats and in several numbers of frames, each against the slow book
//! of the definitions.

use crate::book_tests::{FORMATS, FormatCase, agree_everywhere, agree_in, push_line, scaled_lines};
use pt_model::{Prot, What};
use std::alloc::Global;
use std::test::Fail;
use std::thread::Threads;

/// Forks that are cut, with what reaches out of each part.
const PARTS: [&[u8]; 9] = [
    // maps, unmaps and lookups on both sides of a cut, and over it
    b"map 0x0 0x0 0x2000 rw\nfork 0x200000\nmap 0x1ff000 0x0 0x2000 rw\nmap 0x200000 0x0 0x1000 rw\nunmap 0x0 0x201000\n\
        unmap 0x1000 0x1000\nlookup 0x200000\nlookup 0x0\nwith\nlookup 0x0\nmap 0x200000 0x0 0x1000 rw\n\
        map 0x1ff000 0x0 0x1000 r\nend\nlookup 0x200000\ndump\n",
    // misaligned before outside, and output before occupied
    b"map 0x1000 0x1000 0x1000 rw\nfork 0x8000\nmap 0x8000 0x1 0x1000 rw\nmap 0x8001 0x0 0x1000 rw\nmap 0x8000 0x0 0x0 rw\n\
        map 0x1000 0xffffffffffffe000 0x1000 rw\nmap 0x9000 0xffffffffffffe000 0x1000 rw\nunmap 0x8000 0x1\nunmap 0x8000 0x0\n\
        with\nmap 0x1000 0x1000 0x1000 r\nunmap 0x1000 0x1000\nend\nunmap 0x1000 0x1000\n",
    // the first page and the last one of each part
    b"fork 0x1000\nmap 0x0 0x5000 0x1000 rw\nmap 0x0 0x5000 0x1000 rw\nlookup 0xfff\nlookup 0x1000\nwith\nlookup 0xfff\n\
        lookup 0x1000\nmap 0x1000 0x6000 0x1000 r\nlookup 0x1fff\nend\nlookup 0x0\nlookup 0x1000\nunmap 0x0 0x2000\ndump\n",
    // a cut between two blocks of 2 MiB, and large blocks on either side
    b"map 0x0 0x200000 0x400000 rw\nfork 0x200000\nunmap 0x0 0x400000\nunmap 0x0 0x200000\ndump\nwith\ndump\n\
        unmap 0x1ff000 0x201000\nunmap 0x200000 0x1000\nunmap 0x200000 0x200000\nend\ndump\nmap 0x0 0x0 0x40000000 rw\n\
        fork 0x40000000\nunmap 0x0 0x40000000\nwith\nmap 0x40000000 0x40000000 0x40000000 r\nend\ndump\n",
    // a cut in a table: what is in it is told on its own side
    b"map 0x10000 0x1000 0x8000 rw\nfork 0x14000\ndump\nunmap 0x10000 0x4000\nmap 0x10000 0x40000 0x4000 r\nwith\ndump\n\
        lookup 0x13fff\nlookup 0x14000\nunmap 0x14000 0x4000\nend\ndump\nlookup 0x10000\nunmap 0x10000 0x4000\n",
    // a table that one part empties and the other keeps
    b"map 0x1000 0x3000 0x1000 rw\nmap 0x100000 0x3000 0x1000 rw\nfork 0x80000\nunmap 0x0 0x80000\nwith\nlookup 0x100000\n\
        end\nmap 0x200000 0x200000 0x200000 rw\nunmap 0x0 0x200000\nmap 0x0 0x200000 0x200000 r\ndump\n",
    // nothing in either part, and forks one behind the other
    b"fork 0x200000\nwith\nend\nfork 0x1000\nwith\nend\nfork 0x40000000\ndump\nwith\ndump\nend\nfork 0x200000\nlookup 0x0\n\
        with\nlookup 0x0\nend\n",
    // the whole right part goes at once, and comes again
    b"map 0x200000 0x1000 0x1000 rw\nmap 0x400000 0x400000 0x200000 rw\nmap 0x3000 0x3000 0x1000 rw\nfork 0x200000\nwith\n\
        unmap 0x200000 0x400000\ndump\nmap 0x200000 0x0 0x400000 r\ndump\nend\ndump\n",
    // unmaps of nothing, and of a part that has its blocks elsewhere
    b"map 0x8000 0x8000 0x8000 rw\nfork 0x10000\nunmap 0x0 0x8000\nunmap 0x0 0x10000\nunmap 0x0 0x10000\nwith\n\
        unmap 0x10000 0x10000\nunmap 0x10000 0x40000000\nend\nunmap 0x0 0x20000\n",
];

#[test]
fn each_part_is_answered_by_its_span(rt: HostRuntime) -> Result<(), Fail> {
    for lines in PARTS {
        assert!(rt; agree_everywhere(&rt, rt.alloc(), lines)?);
    }
    Ok(())
}

/// Forks that are refused, around others and in them.
const REFUSED: [&[u8]; 9] = [
    // misaligned, at the front, behind all, and across a block
    b"map 0x200000 0x200000 0x200000 rw\nfork 0x300000\nlookup 0x0\nwith\ndump\nend\nfork 0x1001\nmap 0x0 0x0 0x1000 rw\n\
        with\nend\nfork 0x0\nwith\nunmap 0x200000 0x200000\nend\nfork 0x200800\nwith\nend\ndump\nlookup 0x200000\n",
    // a refused fork around forks that would be cut, and around their parts
    b"map 0x200000 0x200000 0x200000 rw\nfork 0x210000\nfork 0x400000\nmap 0x0 0x0 0x1000 rw\nwith\n\
        map 0x800000 0x0 0x1000 rw\nend\nlookup 0x0\nwith\nfork 0x800000\ndump\nwith\ndump\nend\nlookup 0x200000\nend\ndump\n\
        lookup 0x0\n",
    // a refused fork in each part of one that is cut
    b"map 0x0 0x1000 0x3000 rw\nfork 0x200000\nfork 0x200000\nlookup 0x0\nwith\nlookup 0x0\nend\nfork 0x1800\nwith\nend\n\
        lookup 0x0\nwith\nfork 0x200000\ndump\nwith\ndump\nend\nfork 0x1000\nwith\nend\nmap 0x200000 0x0 0x1000 r\n\
        lookup 0x200000\nend\ndump\n",
    // refused in refused in refused
    b"fork 0x1\nfork 0x2\nfork 0x3\ndump\nwith\ndump\nend\nwith\nfork 0x200000\nwith\nend\nend\nlookup 0x0\nwith\nfork 0x0\n\
        with\nfork 0x4\nwith\nend\nend\nlookup 0x0\nend\nlookup 0x0\ndump\n",
    // the block that a cut crosses is named whole, inside forks too
    b"map 0x0 0x0 0x200000 rw\nmap 0x40000000 0x40000000 0x40000000 r\nfork 0x40000000\nfork 0x1000\nwith\nend\n\
        fork 0x1ff000\nwith\nend\nfork 0x200000\nwith\nend\nwith\nfork 0x40001000\nwith\nend\nfork 0x60000000\nwith\nend\n\
        fork 0x80000000\nlookup 0x40000000\nwith\nlookup 0x40000000\nend\nend\n",
    // groups of pages are crossed in their middle and cut at their ends
    b"map 0x10000 0x10000 0x10000 rw\nmap 0x20000 0x20000 0x10000 rw\nfork 0x18000\nwith\nend\nfork 0x1f000\nwith\nend\n\
        fork 0x20000\nunmap 0x10000 0x8000\nunmap 0x10000 0x10000\nwith\nunmap 0x20000 0x8000\ndump\nend\nfork 0x11000\nwith\n\
        end\nfork 0x30000\ndump\nwith\nend\ndump\n",
    // the same cut is refused while a block is there, and cut when it is gone
    b"map 0x200000 0x200000 0x200000 rw\nfork 0x201000\nmap 0x0 0x0 0x1000 rw\nwith\nend\nunmap 0x200000 0x200000\n\
        fork 0x201000\nmap 0x200000 0x200000 0x1000 rw\nwith\nmap 0x201000 0x201000 0x1ff000 rw\nend\ndump\nfork 0x201000\n\
        with\nend\nunmap 0x200000 0x200000\n",
    // past the end of the space, and at addresses without a page
    b"fork 0x8000000000000000\nwith\nend\nfork 0xfffffffffffff000\nlookup 0x0\nwith\nlookup 0xffffffffffffffff\nend\n\
        fork 0x200000000000000\nwith\nend\nfork 0x800000000000\nmap 0x0 0x0 0x1000 rw\nwith\nend\nlookup 0x0\n\
        fork 0x8000000000\ndump\nwith\ndump\nend\n",
    // outside in a part: cuts at its first page, before it and behind it
    b"fork 0x400000\nfork 0x400000\nwith\nend\nfork 0x600000\nwith\nend\nfork 0x200000\nmap 0x0 0x0 0x1000 rw\nwith\n\
        map 0x200000 0x0 0x1000 rw\nend\nwith\nfork 0x400000\nwith\nend\nfork 0x200000\nwith\nend\nfork 0x401000\n\
        map 0x400000 0x0 0x1000 rw\nwith\nmap 0x401000 0x0 0x1000 rw\nend\nend\ndump\n",
];

#[test]
fn refused_forks_answer_nothing(rt: HostRuntime) -> Result<(), Fail> {
    for lines in REFUSED {
        assert!(rt; agree_everywhere(&rt, rt.alloc(), lines)?);
    }
    Ok(())
}

/// Forks in forks.
const NESTED: [&[u8]; 8] = [
    // four parts of four tables
    b"fork 0x400000\nfork 0x200000\nmap 0x0 0x0 0x200000 rw\nwith\nmap 0x200000 0x1000 0x3000 rw\nend\n\
        map 0x1ff000 0x0 0x1000 r\nwith\nfork 0x600000\nmap 0x400000 0x0 0x1000 r\nwith\nmap 0x600000 0x600000 0x200000 r\n\
        end\ndump\nend\ndump\nlookup 0x200000\nlookup 0x600000\n",
    // a page each, in one table, by halves
    b"fork 0x4000\nfork 0x2000\nfork 0x1000\nmap 0x0 0x9000 0x1000 rw\nwith\nmap 0x1000 0xa000 0x1000 rw\nend\nwith\n\
        fork 0x3000\nmap 0x2000 0xb000 0x1000 r\nwith\nmap 0x3000 0xc000 0x1000 rw\nend\nend\ndump\nwith\nfork 0x6000\n\
        map 0x4000 0x9000 0x2000 r\nwith\nmap 0x6000 0x0 0x1000 rw\nend\nend\ndump\n",
    // the span is whole again behind each end
    b"fork 0x800000\nfork 0x400000\nfork 0x200000\nwith\nend\nmap 0x200000 0x0 0x1000 rw\nwith\nmap 0x200000 0x0 0x1000 rw\n\
        map 0x600000 0x0 0x1000 rw\nend\nmap 0x800000 0x0 0x1000 rw\nmap 0x7ff000 0x0 0x1000 rw\nwith\n\
        map 0x800000 0x0 0x1000 rw\nend\nmap 0x900000 0x0 0x1000 rw\ndump\n",
    // what an inner part maps the outer one takes away
    b"fork 0x40000000\nfork 0x200000\nmap 0x100000 0x100000 0x100000 rw\nwith\nmap 0x200000 0x100000 0x100000 rw\nend\n\
        unmap 0x100000 0x200000\ndump\nmap 0x0 0x0 0x40000000 rw\nwith\nfork 0x80000000\nwith\nmap 0x80000000 0x0 0x1000 r\n\
        end\nunmap 0x40000000 0x80000000\nend\ndump\nunmap 0x0 0x40000000\n",
    // the lowest mapped page, the lowest cut block, by the span of the moment
    b"map 0x0 0x0 0x200000 rw\nmap 0x400000 0x0 0x200000 rw\nmap 0x600000 0x1000 0x1000 r\nfork 0x400000\n\
        map 0x0 0x0 0x400000 rw\nfork 0x200000\nunmap 0x1000 0x1000\nwith\nmap 0x200000 0x0 0x200000 rw\n\
        unmap 0x200000 0x1000\nend\nwith\nfork 0x600000\nunmap 0x400000 0x201000\nunmap 0x500000 0x100000\nwith\n\
        map 0x600000 0x0 0x200000 rw\nend\nend\ndump\n",
    // an unmap that would cut a block on the other side is outside first
    b"map 0x200000 0x200000 0x200000 rw\nmap 0x1ff000 0x0 0x1000 rw\nfork 0x200000\nunmap 0x1ff000 0x2000\n\
        unmap 0x200000 0x1000\nunmap 0x1ff000 0x1000\nwith\nunmap 0x1ff000 0x2000\nunmap 0x3ff000 0x1000\n\
        unmap 0x3ff000 0x2000\nunmap 0x200000 0x400000\nend\ndump\n",
    // pieces of one block that is not there as a block
    b"fork 0x100000\nmap 0x0 0x0 0x100000 rw\nwith\nmap 0x100000 0x100000 0x100000 rw\nend\ndump\nunmap 0x0 0x1000\n\
        unmap 0x0 0x200000\nmap 0x0 0x0 0x200000 rw\ndump\n",
    // outside lookups at every depth
    b"map 0x1000 0x1000 0x1000 rw\nfork 0x800000\nfork 0x400000\nfork 0x200000\nlookup 0x1000\nlookup 0x200000\nwith\n\
        lookup 0x1000\nlookup 0x3fffff\nlookup 0x400000\nend\nlookup 0x1abc\nwith\nlookup 0x3fffff\nlookup 0x400000\n\
        lookup 0x7fffff\nlookup 0x800000\nend\nwith\nlookup 0x7fffff\nlookup 0x800000\nlookup 0x1000\nend\nlookup 0x1000\n",
];

#[test]
fn forks_in_forks_are_answered(rt: HostRuntime) -> Result<(), Fail> {
    for lines in NESTED {
        assert!(rt; agree_everywhere(&rt, rt.alloc(), lines)?);
    }
    Ok(())
}

/// Releases between forks.
const RELEASES: [&[u8]; 6] = [
    // before, between and behind them
    b"release\nfork 0x200000\nmap 0x0 0x0 0x1000 rw\nwith\nmap 0x200000 0x0 0x1000 rw\nend\nrelease\nfork 0x200000\n\
        unmap 0x0 0x1000\nwith\nunmap 0x200000 0x1000\nend\nrelease\nrelease\nmap 0x40000000 0x0 0x1000 rw\ndump\n",
    // the frames of tables that went are there again
    b"map 0x0 0x0 0x1000 rw\nmap 0x40000000 0x0 0x1000 rw\nrelease\nunmap 0x0 0x80000000\nrelease\nfork 0x40000000\n\
        map 0x0 0x0 0x1000 rw\nwith\nmap 0x40000000 0x0 0x1000 rw\nend\nunmap 0x0 0x80000000\nrelease\n\
        map 0x80000000 0x1000 0x1000 r\ndump\n",
    // after a refused fork, and after one that lacked frames
    b"fork 0x1\nwith\nend\nrelease\nfork 0x40000000\nmap 0x0 0x0 0x1000 rw\nmap 0x3fe00000 0x0 0x1000 rw\nwith\n\
        map 0x40000000 0x0 0x1000 rw\nmap 0x7fe00000 0x0 0x1000 rw\nmap 0x80000000 0x0 0x1000 rw\nend\nrelease\n\
        map 0xc0000000 0x0 0x1000 rw\nlookup 0xc0000000\n",
    // tables that a block takes the place of
    b"map 0x0 0x1000 0x1000 rw\nmap 0x200000 0x1000 0x1000 rw\nfork 0x200000\nunmap 0x0 0x200000\nmap 0x0 0x0 0x200000 rw\n\
        with\nunmap 0x200000 0x1000\nmap 0x200000 0x200000 0x200000 rw\nend\nrelease\nmap 0x400000 0x1000 0x1000 rw\n\
        unmap 0x0 0x400000\nrelease\nmap 0x600000 0x1000 0x1000 rw\ndump\n",
    // nothing but releases
    b"release\nrelease\nrelease\n",
    // a release behind each step
    b"map 0x1ff000 0x0 0x2000 rw\nrelease\nfork 0x200000\nunmap 0x1ff000 0x1000\nwith\nunmap 0x200000 0x1000\nend\nrelease\n\
        map 0x1ff000 0x0 0x2000 rw\nrelease\nunmap 0x0 0x400000\nrelease\ndump\n",
];

#[test]
fn releases_change_no_answer(rt: HostRuntime) -> Result<(), Fail> {
    for lines in RELEASES {
        assert!(rt; agree_everywhere(&rt, rt.alloc(), lines)?);
    }
    Ok(())
}

/// Frames that run out in a branch.
const FRAMES: [&[u8]; 5] = [
    // the left branch takes what the right one lacks
    b"fork 0x40000000\nmap 0x0 0x0 0x1000 rw\nmap 0x200000 0x1000 0x1000 rw\nmap 0x400000 0x1000 0x1000 rw\nwith\n\
        map 0x40000000 0x0 0x1000 rw\nmap 0x40200000 0x0 0x1000 rw\nmap 0x40400000 0x0 0x1000 rw\nend\n\
        map 0x80000000 0x1000 0x1000 r\ndump\n",
    // the right branch gives back what it took
    b"fork 0x40000000\nmap 0x0 0x0 0x1000 rw\nwith\nmap 0x40000000 0x0 0x1000 rw\nunmap 0x40000000 0x40000000\nend\n\
        map 0x200000 0x1000 0x1000 rw\nfork 0x200000\nunmap 0x0 0x200000\nwith\nmap 0x400000 0x0 0x1000 r\n\
        map 0x40000000 0x0 0x1000 r\nend\ndump\n",
    // a branch that lacks frames changes nothing, and a smaller map fits
    b"fork 0x80000000\nmap 0x0 0x1000 0xa00000 rw\nmap 0x0 0x1000 0x400000 rw\nmap 0x0 0x1000 0x1000 rw\nwith\n\
        map 0x80000000 0x1000 0xa00000 rw\nmap 0x80000000 0x40000000 0x40000000 rw\nmap 0xc0000000 0x200000 0x200000 rw\n\
        map 0xc0200000 0x1000 0x1000 rw\nend\nlookup 0x0\nlookup 0xc0000000\ndump\n",
    // in forks in forks, table by table
    b"fork 0x80000000\nfork 0x40000000\nmap 0x0 0x0 0x1000 rw\nmap 0x200000 0x1000 0x1000 rw\nwith\n\
        map 0x40000000 0x0 0x1000 rw\nmap 0x40200000 0x0 0x1000 rw\nend\nwith\nfork 0xc0000000\nmap 0x80000000 0x0 0x1000 rw\n\
        with\nmap 0xc0000000 0x0 0x1000 rw\nmap 0x100000000 0x0 0x1000 rw\nend\nend\ndump\n",
    // an occupied page before the lack of frames
    b"map 0x0 0x0 0x1000 rw\nfork 0x40000000\nmap 0x0 0x1000 0xa00000 rw\nmap 0x1000000 0x1000 0xa00000 rw\n\
        map 0x1000 0xffffffffffffe000 0xa00000 rw\nwith\nmap 0x40000000 0x0 0x1000 rw\nmap 0x40000000 0x1000 0xa00000 rw\n\
        end\ndump\n",
];

#[test]
fn frames_run_out_in_a_branch(rt: HostRuntime) -> Result<(), Fail> {
    for lines in FRAMES {
        assert!(rt; agree_everywhere(&rt, rt.alloc(), lines)?);
    }
    Ok(())
}

/// Tables of a cut's both sides, and the spine, while frames run out.
const SHARED_TABLES: [&[u8]; 3] = [
    // tables that lie on both sides of a cut are counted once
    b"fork 0x1000\nmap 0x0 0x0 0x1000 rw\nwith\nmap 0x1000 0x0 0x1000 rw\nmap 0x200000 0x1000 0x1000 rw\nend\n\
        fork 0x200000\nunmap 0x0 0x200000\nmap 0x0 0x0 0x1000 rw\nwith\nunmap 0x200000 0x200000\nmap 0x400000 0x0 0x1000 rw\n\
        end\ndump\n",
    // a table that a branch empties stays where it reaches out of the branch
    b"map 0x0 0x0 0x1000 rw\nfork 0x1000\nunmap 0x0 0x1000\nwith\nmap 0x200000 0x1000 0x1000 rw\n\
        map 0x400000 0x1000 0x1000 rw\nend\nunmap 0x0 0x200000\nmap 0x600000 0x1000 0x1000 rw\nmap 0x800000 0x1000 0x1000 rw\n\
        dump\n",
    // the spine grows in the right branch
    b"fork 0x8000000000\nmap 0x0 0x0 0x1000 rw\nwith\nmap 0x8000000000 0x0 0x1000 rw\nmap 0x1000000000000 0x0 0x1000 rw\n\
        map 0x200000000000000 0x0 0x1000 rw\nend\nmap 0x200000 0x1000 0x1000 rw\ndump\n",
];

#[test]
fn tables_of_both_sides_are_counted_once(rt: HostRuntime) -> Result<(), Fail> {
    for lines in SHARED_TABLES {
        assert!(rt; agree_everywhere(&rt, rt.alloc(), lines)?);
    }
    Ok(())
}

/// Dumps in branches.
const DUMPS: [&[u8]; 5] = [
    // in each part, at each depth, and behind them
    b"map 0x0 0x0 0x2000 rw\nmap 0x200000 0x200000 0x200000 r\nmap 0x400000 0x1000 0x3000 rw\ndump\nfork 0x200000\ndump\n\
        with\ndump\nfork 0x400000\ndump\nwith\ndump\nfork 0x402000\ndump\nwith\ndump\nend\ndump\nend\ndump\nend\ndump\n",
    // in a refused fork nothing is told
    b"map 0x200000 0x200000 0x200000 rw\ndump\nfork 0x201000\ndump\nwith\ndump\nend\ndump\nfork 0x200001\ndump\n\
        fork 0x400000\ndump\nwith\ndump\nend\nwith\ndump\nend\ndump\n",
    // before and after each change in a branch
    b"fork 0x40000000\ndump\nmap 0x0 0x1000 0x4000 rw\ndump\nunmap 0x1000 0x2000\ndump\nmap 0x1000 0x80000 0x2000 r\ndump\n\
        with\ndump\nmap 0x40000000 0x0 0x40000000 rw\ndump\nunmap 0x40000000 0x40000000\ndump\nend\ndump\n",
    // blocks of each size in one branch
    b"fork 0x80000000\nmap 0x1f0000 0x5f0000 0x210000 rw\nmap 0x40000000 0x40000000 0x40000000 r\ndump\nwith\n\
        map 0x80010000 0x80010000 0x10000 rw\nmap 0x80020000 0x90000 0x3000 r\nmap 0x80200000 0x80200000 0x400000 rw\ndump\n\
        end\ndump\n",
    // blocks at both ends of a part
    b"map 0x1ff000 0x0 0x1000 rw\nmap 0x200000 0x1000 0x1000 r\nmap 0x3ff000 0x2000 0x1000 rw\n\
        map 0x400000 0x3000 0x1000 r\nfork 0x400000\nfork 0x200000\ndump\nwith\ndump\nend\ndump\nwith\ndump\nend\ndump\n",
];

#[test]
fn dumps_tell_the_present_span(rt: HostRuntime) -> Result<(), Fail> {
    for lines in DUMPS {
        assert!(rt; agree_everywhere(&rt, rt.alloc(), lines)?);
    }
    Ok(())
}

/// Cuts at the borders of groups of pages and of tables, with pages around them.
const PAGE_BORDERS: [&[u8]; 13] = [
    // at a group of eight pages, with pages around it
    b"map 0x6000 0x8000 0x4000 rw\nfork 0x8000\ndump\nunmap 0x7000 0x1000\nlookup 0x7fff\nlookup 0x8000\nwith\ndump\n\
        unmap 0x8000 0x1000\nlookup 0x7fff\nlookup 0x9000\nend\nfork 0x7000\nmap 0x7000 0x0 0x1000 r\n\
        map 0x6000 0x0 0x1000 r\nwith\nmap 0x7000 0x0 0x1000 r\nend\nfork 0x9000\nmap 0x8000 0x0 0x1000 r\nwith\n\
        unmap 0x9000 0x1000\nend\ndump\n",
    // at a group of sixteen, with pages around it
    b"map 0xe000 0x8000 0x4000 rw\nfork 0x10000\ndump\nunmap 0xf000 0x1000\nlookup 0xffff\nlookup 0x10000\nwith\ndump\n\
        unmap 0x10000 0x1000\nlookup 0xffff\nlookup 0x11000\nend\nfork 0xf000\nmap 0xf000 0x0 0x1000 r\n\
        map 0xe000 0x0 0x1000 r\nwith\nmap 0xf000 0x0 0x1000 r\nend\nfork 0x11000\nmap 0x10000 0x0 0x1000 r\nwith\n\
        unmap 0x11000 0x1000\nend\ndump\n",
    // at the second such group, with pages around it
    b"map 0x1e000 0x8000 0x4000 rw\nfork 0x20000\ndump\nunmap 0x1f000 0x1000\nlookup 0x1ffff\nlookup 0x20000\nwith\ndump\n\
        unmap 0x20000 0x1000\nlookup 0x1ffff\nlookup 0x21000\nend\nfork 0x1f000\nmap 0x1f000 0x0 0x1000 r\n\
        map 0x1e000 0x0 0x1000 r\nwith\nmap 0x1f000 0x0 0x1000 r\nend\nfork 0x21000\nmap 0x20000 0x0 0x1000 r\nwith\n\
        unmap 0x21000 0x1000\nend\ndump\n",
    // at the middle of a table, with pages around it
    b"map 0xfe000 0x8000 0x4000 rw\nfork 0x100000\ndump\nunmap 0xff000 0x1000\nlookup 0xfffff\nlookup 0x100000\nwith\ndump\n\
        unmap 0x100000 0x1000\nlookup 0xfffff\nlookup 0x101000\nend\nfork 0xff000\nmap 0xff000 0x0 0x1000 r\n\
        map 0xfe000 0x0 0x1000 r\nwith\nmap 0xff000 0x0 0x1000 r\nend\nfork 0x101000\nmap 0x100000 0x0 0x1000 r\nwith\n\
        unmap 0x101000 0x1000\nend\ndump\n",
    // at the second table, with pages around it
    b"map 0x1fe000 0x8000 0x4000 rw\nfork 0x200000\ndump\nunmap 0x1ff000 0x1000\nlookup 0x1fffff\nlookup 0x200000\nwith\n\
        dump\nunmap 0x200000 0x1000\nlookup 0x1fffff\nlookup 0x201000\nend\nfork 0x1ff000\nmap 0x1ff000 0x0 0x1000 r\n\
        map 0x1fe000 0x0 0x1000 r\nwith\nmap 0x1ff000 0x0 0x1000 r\nend\nfork 0x201000\nmap 0x200000 0x0 0x1000 r\nwith\n\
        unmap 0x201000 0x1000\nend\ndump\n",
    // at the third table, with pages around it
    b"map 0x3fe000 0x8000 0x4000 rw\nfork 0x400000\ndump\nunmap 0x3ff000 0x1000\nlookup 0x3fffff\nlookup 0x400000\nwith\n\
        dump\nunmap 0x400000 0x1000\nlookup 0x3fffff\nlookup 0x401000\nend\nfork 0x3ff000\nmap 0x3ff000 0x0 0x1000 r\n\
        map 0x3fe000 0x0 0x1000 r\nwith\nmap 0x3ff000 0x0 0x1000 r\nend\nfork 0x401000\nmap 0x400000 0x0 0x1000 r\nwith\n\
        unmap 0x401000 0x1000\nend\ndump\n",
    // at the last table of a gigabyte, with pages around it
    b"map 0x3fdfe000 0x8000 0x4000 rw\nfork 0x3fe00000\ndump\nunmap 0x3fdff000 0x1000\nlookup 0x3fdfffff\n\
        lookup 0x3fe00000\nwith\ndump\nunmap 0x3fe00000 0x1000\nlookup 0x3fdfffff\nlookup 0x3fe01000\nend\nfork 0x3fdff000\n\
        map 0x3fdff000 0x0 0x1000 r\nmap 0x3fdfe000 0x0 0x1000 r\nwith\nmap 0x3fdff000 0x0 0x1000 r\nend\nfork 0x3fe01000\n\
        map 0x3fe00000 0x0 0x1000 r\nwith\nunmap 0x3fe01000 0x1000\nend\ndump\n",
    // at 1 GiB, with pages around it
    b"map 0x3fffe000 0x8000 0x4000 rw\nfork 0x40000000\ndump\nunmap 0x3ffff000 0x1000\nlookup 0x3fffffff\n\
        lookup 0x40000000\nwith\ndump\nunmap 0x40000000 0x1000\nlookup 0x3fffffff\nlookup 0x40001000\nend\nfork 0x3ffff000\n\
        map 0x3ffff000 0x0 0x1000 r\nmap 0x3fffe000 0x0 0x1000 r\nwith\nmap 0x3ffff000 0x0 0x1000 r\nend\nfork 0x40001000\n\
        map 0x40000000 0x0 0x1000 r\nwith\nunmap 0x40001000 0x1000\nend\ndump\n",
    // at 2 GiB, with pages around it
    b"map 0x7fffe000 0x8000 0x4000 rw\nfork 0x80000000\ndump\nunmap 0x7ffff000 0x1000\nlookup 0x7fffffff\n\
        lookup 0x80000000\nwith\ndump\nunmap 0x80000000 0x1000\nlookup 0x7fffffff\nlookup 0x80001000\nend\nfork 0x7ffff000\n\
        map 0x7ffff000 0x0 0x1000 r\nmap 0x7fffe000 0x0 0x1000 r\nwith\nmap 0x7ffff000 0x0 0x1000 r\nend\nfork 0x80001000\n\
        map 0x80000000 0x0 0x1000 r\nwith\nunmap 0x80001000 0x1000\nend\ndump\n",
    // at 2 GiB and 2 MiB, with pages around it
    b"map 0x801fe000 0x8000 0x4000 rw\nfork 0x80200000\ndump\nunmap 0x801ff000 0x1000\nlookup 0x801fffff\n\
        lookup 0x80200000\nwith\ndump\nunmap 0x80200000 0x1000\nlookup 0x801fffff\nlookup 0x80201000\nend\nfork 0x801ff000\n\
        map 0x801ff000 0x0 0x1000 r\nmap 0x801fe000 0x0 0x1000 r\nwith\nmap 0x801ff000 0x0 0x1000 r\nend\nfork 0x80201000\n\
        map 0x80200000 0x0 0x1000 r\nwith\nunmap 0x80201000 0x1000\nend\ndump\n",
    // at 512 GiB, with pages around it
    b"map 0x7fffffe000 0x8000 0x4000 rw\nfork 0x8000000000\ndump\nunmap 0x7ffffff000 0x1000\nlookup 0x7fffffffff\n\
        lookup 0x8000000000\nwith\ndump\nunmap 0x8000000000 0x1000\nlookup 0x7fffffffff\nlookup 0x8000001000\nend\n\
        fork 0x7ffffff000\nmap 0x7ffffff000 0x0 0x1000 r\nmap 0x7fffffe000 0x0 0x1000 r\nwith\nmap 0x7ffffff000 0x0 0x1000 r\n\
        end\nfork 0x8000001000\nmap 0x8000000000 0x0 0x1000 r\nwith\nunmap 0x8000001000 0x1000\nend\ndump\n",
    // at 512 GiB and a page, with pages around it
    b"map 0x7ffffff000 0x8000 0x4000 rw\nfork 0x8000001000\ndump\nunmap 0x8000000000 0x1000\nlookup 0x8000000fff\n\
        lookup 0x8000001000\nwith\ndump\nunmap 0x8000001000 0x1000\nlookup 0x8000000fff\nlookup 0x8000002000\nend\n\
        fork 0x8000000000\nmap 0x8000000000 0x0 0x1000 r\nmap 0x7ffffff000 0x0 0x1000 r\nwith\nmap 0x8000000000 0x0 0x1000 r\n\
        end\nfork 0x8000002000\nmap 0x8000001000 0x0 0x1000 r\nwith\nunmap 0x8000002000 0x1000\nend\ndump\n",
    // at 256 TiB, with pages around it
    b"map 0xffffffffe000 0x8000 0x4000 rw\nfork 0x1000000000000\ndump\nunmap 0xfffffffff000 0x1000\nlookup 0xffffffffffff\n\
        lookup 0x1000000000000\nwith\ndump\nunmap 0x1000000000000 0x1000\nlookup 0xffffffffffff\nlookup 0x1000000001000\nend\n\
        fork 0xfffffffff000\nmap 0xfffffffff000 0x0 0x1000 r\nmap 0xffffffffe000 0x0 0x1000 r\nwith\n\
        map 0xfffffffff000 0x0 0x1000 r\nend\nfork 0x1000000001000\nmap 0x1000000000000 0x0 0x1000 r\nwith\n\
        unmap 0x1000000001000 0x1000\nend\ndump\n",
];

#[test]
fn cuts_stand_between_pages(rt: HostRuntime) -> Result<(), Fail> {
    for lines in PAGE_BORDERS {
        assert!(rt; agree_everywhere(&rt, rt.alloc(), lines)?);
    }
    Ok(())
}

/// Cuts at the borders of blocks.
const BLOCK_BORDERS: [&[u8]; 6] = [
    // at 16 pages, with blocks on either side
    b"map 0x0 0x10000 0x20000 rw\nfork 0x10000\ndump\nunmap 0x0 0x10000\nwith\ndump\nunmap 0x10000 0x1000\nlookup 0x1ffff\n\
        end\nfork 0x11000\nwith\nend\nfork 0x20000\ndump\nwith\ndump\nend\ndump\n",
    // at 2 MiB, with blocks on either side
    b"map 0x0 0x200000 0x400000 rw\nfork 0x200000\ndump\nunmap 0x0 0x200000\nwith\ndump\nunmap 0x200000 0x1000\n\
        lookup 0x3fffff\nend\nfork 0x201000\nwith\nend\nfork 0x400000\ndump\nwith\ndump\nend\ndump\n",
    // at 4 MiB, with blocks on either side
    b"map 0x200000 0x200000 0x400000 rw\nfork 0x400000\ndump\nunmap 0x200000 0x200000\nwith\ndump\nunmap 0x400000 0x1000\n\
        lookup 0x5fffff\nend\nfork 0x401000\nwith\nend\nfork 0x600000\ndump\nwith\ndump\nend\ndump\n",
    // at 1 GiB, with blocks on either side
    b"map 0x0 0x40000000 0x80000000 rw\nfork 0x40000000\ndump\nunmap 0x0 0x40000000\nwith\ndump\nunmap 0x40000000 0x1000\n\
        lookup 0x7fffffff\nend\nfork 0x40001000\nwith\nend\nfork 0x80000000\ndump\nwith\ndump\nend\ndump\n",
    // at 1 GiB, blocks of 2 MiB, with blocks on either side
    b"map 0x3fe00000 0x200000 0x400000 rw\nfork 0x40000000\ndump\nunmap 0x3fe00000 0x200000\nwith\ndump\n\
        unmap 0x40000000 0x1000\nlookup 0x401fffff\nend\nfork 0x40001000\nwith\nend\nfork 0x40200000\ndump\nwith\ndump\nend\n\
        dump\n",
    // at 512 GiB, with blocks on either side
    b"map 0x7fc0000000 0x40000000 0x80000000 rw\nfork 0x8000000000\ndump\nunmap 0x7fc0000000 0x40000000\nwith\ndump\n\
        unmap 0x8000000000 0x1000\nlookup 0x803fffffff\nend\nfork 0x8000001000\nwith\nend\nfork 0x8040000000\ndump\nwith\n\
        dump\nend\ndump\n",
];

#[test]
fn cuts_stand_between_blocks(rt: HostRuntime) -> Result<(), Fail> {
    for lines in BLOCK_BORDERS {
        assert!(rt; agree_everywhere(&rt, rt.alloc(), lines)?);
    }
    Ok(())
}

/// The deepest forks of a script.
const DEEPEST: u64 = 16;

/// Appends a map of a page at a place.
fn push_page(out: &mut Vec<u8>, va: u64) -> Result<(), Fail> {
    push_line(
        out,
        What::Map {
            va,
            pa: va,
            len: 0x1000,
            prot: Prot::ReadWrite,
        },
    )
}

/// Appends forks in the left parts of forks, to the sixteenth level, each cut a step before the one around it, with a page in
/// each right part.
fn push_left_forks(out: &mut Vec<u8>, step: u64) -> Result<(), Fail> {
    for depth in 0..DEEPEST {
        push_line(
            out,
            What::Fork {
                at: u64::wrapping_mul(step, DEEPEST.wrapping_sub(depth)),
            },
        )?;
    }
    push_page(out, 0)?;
    for depth in 0..DEEPEST {
        push_page(out, u64::wrapping_mul(step, depth.wrapping_add(1)))?;
        push_line(out, What::With)?;
        push_page(out, u64::wrapping_mul(step, depth.wrapping_add(1)))?;
        push_page(out, u64::wrapping_mul(step, depth))?;
        push_line(out, What::Dump)?;
        push_line(out, What::End)?;
    }
    push_line(out, What::Dump)
}

/// Appends forks in the right parts of forks, to the sixteenth level, with a page in each left part.
fn push_right_forks(out: &mut Vec<u8>, step: u64) -> Result<(), Fail> {
    for depth in 0..DEEPEST {
        let at = u64::wrapping_mul(step, depth.wrapping_add(1));
        push_line(out, What::Fork { at })?;
        push_page(out, at.wrapping_sub(step))?;
        push_page(out, at)?;
        push_line(out, What::With)?;
    }
    for _ in 0..DEEPEST {
        push_line(out, What::Dump)?;
        push_line(out, What::End)?;
    }
    push_line(out, What::Dump)
}

/// The pages between the cuts of deep forks: one, a table of them, and a table of tables.
const STEPS: [u64; 3] = [0x1000, 0x20_0000, 0x4000_0000];

/// Whether the program and the book agree on these lines of pages of 4 KiB, in each format, in many frames and in few.
fn agree_on_deep<R: Threads + Sync>(rt: &R, alloc: Global, lines: &[u8]) -> Result<bool, Fail> {
    for format in FORMATS {
        let lines = scaled_lines(alloc, lines, format.granule.saturating_sub(12) % 64)?;
        if !agree_in(rt, alloc, format, 60, &lines)?
            || !agree_in(rt, alloc, format, format.frames[2], &lines)?
        {
            return Ok(false);
        }
    }
    Ok(true)
}

#[test]
fn left_parts_go_sixteen_deep(rt: HostRuntime) -> Result<(), Fail> {
    for step in STEPS {
        let mut lines = Vec::new(rt.alloc());
        push_left_forks(&mut lines, step)?;
        assert!(rt; agree_on_deep(&rt, rt.alloc(), &lines)?);
    }
    Ok(())
}

#[test]
fn right_parts_go_sixteen_deep(rt: HostRuntime) -> Result<(), Fail> {
    for step in STEPS {
        let mut lines = Vec::new(rt.alloc());
        push_right_forks(&mut lines, step)?;
        assert!(rt; agree_on_deep(&rt, rt.alloc(), &lines)?);
    }
    Ok(())
}

/// Lines that map more than a thousand pages, in both branches of a fork, and dump them.
const MANY: [&[u8]; 2] = [
    // five hundred and a thousand
    b"fork 0x200000\nmap 0x1000 0x2000 0x1f4000 rw\ndump\nwith\nmap 0x200000 0x1000 0x3e8000 r\nend\ndump\n",
    // a thousand and one, with what was there
    b"map 0x1ff000 0x0 0x2000 rw\nfork 0x200000\nmap 0x0 0x1000 0x1ff000 rw\nwith\nmap 0x201000 0x1000 0x1e9000 rw\n\
        end\ndump\nunmap 0x0 0x1000\nfork 0x100000\ndump\nwith\nend\n",
];

#[test]
fn more_than_a_thousand_blocks_are_counted(rt: HostRuntime) -> Result<(), Fail> {
    for format in FORMATS {
        for lines in MANY {
            let lines = scaled_lines(rt.alloc(), lines, format.granule.saturating_sub(12) % 64)?;
            assert!(rt; agree_in(&rt, rt.alloc(), format, 60, &lines)?);
        }
    }
    Ok(())
}

/// Appends a fork at an address, with two pages that end there and two that begin there, and what is in each part.
fn push_cut(out: &mut Vec<u8>, page: u64, at: u64) -> Result<(), Fail> {
    let len = page.wrapping_add(page);
    let (pa, prot) = (page, Prot::Read);
    let va = at.wrapping_sub(len);
    for what in [
        What::Map { va, pa, len, prot },
        What::Map {
            va: at,
            pa,
            len,
            prot,
        },
        What::Fork { at },
        What::Dump,
        What::Unmap { va, len },
        What::Lookup { va: at },
        What::With,
        What::Dump,
        What::Unmap { va: at, len },
        What::Lookup { va },
        What::End,
        What::Dump,
    ] {
        push_line(out, what)?;
    }
    Ok(())
}

/// Appends forks before, at and after each border of a format, and at both ends of its space.
fn push_cuts(out: &mut Vec<u8>, format: FormatCase) -> Result<(), Fail> {
    let page = 1 << (format.granule % 64);
    for border in format.borders {
        push_cut(out, page, border.wrapping_sub(page))?;
        push_cut(out, page, border)?;
        push_cut(out, page, border.wrapping_add(page))?;
        push_cut(out, page, border.wrapping_add(1))?;
    }
    push_cut(out, page, format.last)?;
    push_cut(out, page, format.last.wrapping_sub(page))?;
    push_cut(out, page, format.end)?;
    push_cut(out, page, format.end.wrapping_add(page))
}

/// Whether the program and the book agree on cuts around each border of a format.
fn agree_on_cuts<R: Threads + Sync>(
    rt: &R,
    alloc: Global,
    format: FormatCase,
) -> Result<bool, Fail> {
    let mut lines = Vec::new(alloc);
    push_cuts(&mut lines, format)?;
    for frames in format.frames {
        if !agree_in(rt, alloc, format, frames, &lines)? {
            return Ok(false);
        }
    }
    Ok(true)
}

#[test]
fn spans_are_cut_around_each_border(rt: HostRuntime) -> Result<(), Fail> {
    for format in FORMATS {
        assert!(rt; agree_on_cuts(&rt, rt.alloc(), format)?);
    }
    Ok(())
}
