//! Scripts that take ranges away, over all formats, each against the slow book of the definitions.

use crate::book_tests::{FORMATS, FormatCase, agree_everywhere, agree_in, push_line, scaled_lines};
use pt_model::{Prot, What};
use std::alloc::Global;
use std::test::Fail;

/// Lines of unmaps, with the maps before and after them.
const UNMAPS: [&[u8]; 6] = [
    // blocks of 2 MiB and of 1 GiB, cut at the front, in the middle, at the end, and around
    b"map 0x200000 0x200000 0x200000 rw\nmap 0x40000000 0x40000000 0x40000000 r\nunmap 0x200000 0x1000\n\
        unmap 0x210000 0x1000\nunmap 0x3ff000 0x2000\nunmap 0x1ff000 0x2000\nunmap 0x201000 0x1ff000\n\
        unmap 0x300000 0x40000000\nunmap 0x40000000 0x200000\nunmap 0x7fe00000 0x400000\nunmap 0x200000 0x200000\n\
        unmap 0x40000000 0x40000000\nunmap 0x0 0x80000000\nlookup 0x200000\nlookup 0x40000000\n",
    // a block of 512 GiB, where there are any, and groups of sixteen pages
    b"map 0x8000000000 0x8000000000 0x8000000000 rw\nunmap 0x8000000000 0x40000000\nunmap 0xffffe00000 0x200000\n\
        unmap 0xc000000000 0x1000\nunmap 0x8000000000 0x8000000000\nmap 0x10000 0x10000 0x20000 rw\n\
        unmap 0x10000 0x1000\nunmap 0x18000 0x10000\nunmap 0x1f000 0x2000\nunmap 0x20000 0x10000\nunmap 0x0 0x20000\n\
        lookup 0x10000\nlookup 0x20000\n",
    // tables of several levels that empty in one call, and maps in their frames
    b"map 0x1ff000 0x0 0x2000 rw\nmap 0x3ffff000 0x0 0x2000 rw\nmap 0x7ffff000 0x0 0x2000 r\n\
        unmap 0x1ff000 0x1000\nunmap 0x0 0x80000000\nunmap 0x0 0x8000000000\nmap 0x5000 0x0 0x1000 rw\n\
        unmap 0x0 0x200000\nmap 0xc0000000 0x1000 0x1000 rw\nmap 0x200000 0x1000 0x400000 rw\nunmap 0x200000 0x200000\n\
        unmap 0x400000 0x200000\nlookup 0xc0000000\n",
    // a table that no page is in gives way to a block, and one that has a page doesn't
    b"map 0x200000 0x1000 0x2000 rw\nunmap 0x200000 0x2000\nmap 0x200000 0x200000 0x200000 rw\nlookup 0x200000\n\
        unmap 0x200000 0x200000\nmap 0x40200000 0x1000 0x1000 rw\nmap 0x80000000 0x1000 0x1000 r\n\
        unmap 0x40200000 0x1000\nmap 0x40000000 0x40000000 0x40000000 rw\nmap 0x80000000 0x80000000 0x40000000 rw\n\
        lookup 0x40200000\nlookup 0x80000000\n",
    // nothing is there, half of it is there, and it is there twice
    b"unmap 0x0 0x1000\nunmap 0x1000 0x40000000\nmap 0x1000 0x1000 0x1000 rw\nunmap 0x0 0x2000\nunmap 0x0 0x2000\n\
        map 0x0 0x8000 0x2000 r\nunmap 0x1000 0x3000\nlookup 0x0\nlookup 0x1000\n",
    // numbers that are not whole, no length, and the last addresses of all
    b"unmap 0x1001 0x1000\nunmap 0x1000 0x1001\nunmap 0x1000 0x0\nunmap 0x1000 0xfff\n\
        unmap 0xfffffffffffff000 0x1000\nunmap 0xfffffffffffff000 0x2000\nunmap 0x0 0xfffffffffffff000\n",
];

#[test]
fn unmaps_are_answered_as_by_the_book(rt: HostRuntime) -> Result<(), Fail> {
    for lines in UNMAPS {
        assert!(rt; agree_everywhere(&rt, rt.alloc(), lines)?);
    }
    Ok(())
}

#[test]
fn a_page_comes_and_goes_a_thousand_times(rt: HostRuntime) -> Result<(), Fail> {
    let mut lines = Vec::new(rt.alloc());
    for _ in 0..500 {
        lines.extend_from_slice(b"map 0x10000 0x50000 0x10000 rw\nunmap 0x10000 0x10000\n")?;
        lines.extend_from_slice(b"map 0x10000 0x50000 0x10000 rw\nunmap 0x0 0x40000000\n")?;
    }
    for format in FORMATS {
        assert!(rt; agree_in(&rt, rt.alloc(), format, format.frames[1], &lines)?);
    }
    Ok(())
}

/// Appends a map of four pages on each side of a border, two unmaps of it that meet at a place, and what is there after
/// each.
fn push_parts(out: &mut Vec<u8>, page: u64, border: u64, place: u64) -> Result<(), Fail> {
    let half = page.wrapping_mul(4);
    let va = border.wrapping_sub(half);
    let len = half.wrapping_add(half);
    let before = place.wrapping_sub(va);
    let prot = Prot::ReadWrite;
    for what in [
        What::Map {
            va,
            pa: half,
            len,
            prot,
        },
        What::Unmap { va, len: before },
        What::Lookup {
            va: place.wrapping_sub(1),
        },
        What::Lookup { va: place },
        What::Unmap {
            va: place,
            len: len.wrapping_sub(before),
        },
        What::Lookup { va: place },
    ] {
        push_line(out, what)?;
    }
    Ok(())
}

/// Appends unmaps that end before, at and after each border of a format.
fn push_borders(out: &mut Vec<u8>, format: FormatCase) -> Result<(), Fail> {
    let page = 1 << (format.granule % 64);
    for border in format.borders {
        push_parts(out, page, border, border.wrapping_sub(page))?;
        push_parts(out, page, border, border)?;
        push_parts(out, page, border, border.wrapping_add(page))?;
    }
    Ok(())
}

#[test]
fn unmaps_end_around_each_border(rt: HostRuntime) -> Result<(), Fail> {
    for format in FORMATS {
        let mut lines = Vec::new(rt.alloc());
        push_borders(&mut lines, format)?;
        assert!(rt; agree_in(&rt, rt.alloc(), format, 60, &lines)?);
        assert!(rt; agree_in(&rt, rt.alloc(), format, format.frames[2], &lines)?);
    }
    Ok(())
}

/// Appends the map of the last page of a space, and the unmap of it, of all of the space, and of more.
fn push_whole(out: &mut Vec<u8>, format: FormatCase) -> Result<(), Fail> {
    let (pa, prot) = (0, Prot::ReadWrite);
    let (va, end) = (format.last, format.end);
    let len = end.wrapping_sub(va);
    for what in [
        What::Map { va, pa, len, prot },
        What::Unmap {
            va,
            len: len.wrapping_add(len),
        },
        What::Unmap { va: end, len },
        What::Unmap { va: len, len: end },
        What::Unmap { va: 0, len: end },
        What::Lookup { va },
        What::Map { va, pa, len, prot },
        What::Unmap { va, len },
        What::Unmap { va: 0, len: end },
    ] {
        push_line(out, what)?;
    }
    Ok(())
}

/// Maps of pages on both sides of a border, and of large blocks.
const ALL_OVER: &[u8] = b"map 0x1ff000 0x0 0x2000 rw\nmap 0x40000000 0x40000000 0x80000000 r\n";

#[test]
fn a_whole_space_goes_at_once(rt: HostRuntime) -> Result<(), Fail> {
    for format in FORMATS {
        let shift = format.granule.saturating_sub(12) % 64;
        let mut lines = scaled_lines(rt.alloc(), ALL_OVER, shift)?;
        push_whole(&mut lines, format)?;
        assert!(rt; agree_in(&rt, rt.alloc(), format, 60, &lines)?);
    }
    Ok(())
}
