//! Scripts that dump, and what they are answered to the letter.

use crate::status::Status;
use crate::tests::{ROOM, outcome};
use pt_stream::{push_dec, push_hex};
use std::alloc::Global;
use std::test::Fail;

/// Scripts and their replies: no block, and blocks of one word and of several, in each family of formats.
const DUMPS: [(&[u8], &[u8]); 8] = [
    (
        b"format vtdss3\nframes 8\nhold 0\ndump\nmap 0x1000 0x200000 0x1000 rw\ndump\nunmap 0x1000 0x1000\ndump\nclose\nend\n",
        b"4 dump 0\n5 map ok\n6 dump 1\nblock 0x1000 0x1000 0x200000 rw 1 0x200003 0x200003\n7 unmap ok 1\n8 dump 0\n",
    ),
    (
        b"format x86-4\nframes 8\nhold 0\nmap 0x40000000 0x40000000 0x200000 rw\ndump\nclose\nend\n",
        b"4 map ok\n5 dump 1\nblock 0x40000000 0x200000 0x40000000 rw 1 0x400000e7 0x400000e7\n",
    ),
    (
        b"format amdv1 levels 3\nframes 8\nhold 0\nmap 0x8000 0x108000 0x8000 rw\ndump\nclose\nend\n",
        b"4 map ok\n5 dump 1\nblock 0x8000 0x8000 0x108000 rw 8 0x600000000010be01 0x600000000010be01\n",
    ),
    (
        b"format amdv1 levels 3\nframes 8\nhold 0\nmap 0x8000000000 0x1000 0x1000 r\ndump\nclose\nend\n",
        b"4 map ok\n5 dump 1\nblock 0x8000000000 0x1000 0x1000 r 1 0x2000000000001001 0x2000000000001001\n",
    ),
    (
        b"format vmsa4\nframes 8\nhold 0\nmap 0x10000 0x80010000 0x10000 rw\ndump\nclose\nend\n",
        b"4 map ok\n5 dump 1\nblock 0x10000 0x10000 0x80010000 rw 16 0x10000080010f43 0x1000008001ff43\n",
    ),
    (
        b"format vmsa16\nframes 16\nhold 0\nmap 0x7fffffffc000 0x0 0x8000 rw\nmap 0x200000 0x200000 0x200000 r\ndump\nclose\nend\n",
        b"4 map ok\n5 map ok\n6 dump 3\nblock 0x200000 0x200000 0x200000 r 128 0x10000000200fc3 0x100000003fcfc3\n\
            block 0x7fffffffc000 0x4000 0x0 rw 1 0xf43 0xf43\nblock 0x800000000000 0x4000 0x4000 rw 1 0x4f43 0x4f43\n",
    ),
    (
        b"format sv39\nframes 8\nhold 0\nmap 0x10000 0x80010000 0x10000 rw\ndump\nclose\nend\n",
        b"4 map ok\n5 dump 1\nblock 0x10000 0x10000 0x80010000 rw 16 0x80000000200060d7 0x80000000200060d7\n",
    ),
    // a block in the place of a table that was emptied
    (
        b"format vtdss3\nframes 8\nhold 0\nmap 0x200000 0x801000 0x2000 rw\nunmap 0x200000 0x1000\nunmap 0x201000 0x1000\n\
            map 0x200000 0x400000 0x200000 r\ndump\nclose\nend\n",
        b"4 map ok\n5 unmap ok 1\n6 unmap ok 1\n7 map ok\n8 dump 1\nblock 0x200000 0x200000 0x400000 r 1 0x400081 0x400081\n",
    ),
];

#[test]
fn dumps_list_their_blocks(rt: HostRuntime) -> Result<(), Fail> {
    for (text, replies) in DUMPS {
        let (status, sink) = outcome(&rt, rt.alloc(), text, ROOM)?;
        assert_eq!(rt; status, Status::Done);
        assert_eq!(rt; sink.bytes(), replies);
    }
    Ok(())
}

/// Appends the line of a page of VT-d second stage that may be read and written.
fn push_page(out: &mut Vec<u8>, first: u64, target: u64) -> Result<(), Fail> {
    out.extend_from_slice(b"block ")?;
    push_hex(out, first)?;
    out.extend_from_slice(b" 0x1000 ")?;
    push_hex(out, target)?;
    out.extend_from_slice(b" rw 1 ")?;
    push_hex(out, target | 3)?;
    out.extend_from_slice(b" ")?;
    push_hex(out, target | 3)?;
    out.push(b'\n')?;
    Ok(())
}

/// What is answered to a map of so many pages, each to the page behind it, and to a dump.
fn pages_dumped(alloc: Global, pages: u64) -> Result<Vec<u8>, Fail> {
    let mut out = Vec::from_slice(alloc, b"4 map ok\n5 dump ")?;
    push_dec(&mut out, pages)?;
    out.push(b'\n')?;
    for page in 0..pages.min(1000) {
        let first = page.wrapping_mul(0x1000);
        push_page(&mut out, first, first.wrapping_add(0x1000))?;
    }
    Ok(out)
}

#[test]
fn a_dump_counts_all_and_lists_a_thousand(rt: HostRuntime) -> Result<(), Fail> {
    for pages in [999, 1000, 1001, 1536] {
        let mut text = Vec::from_slice(
            rt.alloc(),
            b"format vtdss3\nframes 8\nhold 0\nmap 0x0 0x1000 ",
        )?;
        push_hex(&mut text, u64::wrapping_mul(pages, 0x1000))?;
        text.extend_from_slice(b" rw\ndump\nclose\nend\n")?;
        let expected = pages_dumped(rt.alloc(), pages)?;
        let (status, sink) = outcome(&rt, rt.alloc(), &text, 0x2_0000)?;
        assert_eq!(rt; status, Status::Done);
        assert_eq!(rt; sink.bytes(), expected.as_slice());
    }
    Ok(())
}
