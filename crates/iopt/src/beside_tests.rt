//! Scripts whose forks run beside each other, and what they are answered to the letter.

use crate::status::Status;
use crate::tests::{ROOM, outcome};
use crate::top::run;
use crate::words::Words;
use pt_run::Open;
use pt_script::Reason;
use pt_stream::{MemorySink, SureSource};
use std::alloc::Global;
use std::test::Fail;
use std::thread::Threads;

/// Each script, with its replies.
const ANSWERED: [(&[u8], &[u8]); 4] = [
    // two branches that share tables
    (
        b"format vtdss3\nframes 16\nhold 8\nfork 0x100000\nmap 0xff000 0x5000 0x1000 rw\nwith\n\
            map 0x100000 0x7000 0x1000 rw\nend\nclose\nwalk 0x100010\ncensus\nend\n",
        b"4 fork ok\n5 map ok\n7 map ok\n10 walk 0x7010 rw\n11 census levels 3 tables 3 blocks 2 pages 2\n",
    ),
    // two branches with a table of their own each
    (
        b"format vtdss3\nframes 16\nhold 8\nfork 0x200000\nmap 0x1ff000 0x5000 0x1000 rw\nwith\n\
            map 0x200000 0x7000 0x1000 rw\nend\nclose\nwalk 0x200010\ncensus\nend\n",
        b"4 fork ok\n5 map ok\n7 map ok\n10 walk 0x7010 rw\n11 census levels 3 tables 4 blocks 2 pages 2\n",
    ),
    // a fork that is short of its need, and whose maps are covered by what they use
    (
        b"format vtdss3\nframes 3\nhold 0\nfork 0x100000\nmap 0x1000 0x5000 0x1000 rw\nmap 0x2000 0x6000 0x1000 rw\n\
            with\nend\nclose\ncensus\nend\n",
        b"4 fork ok\n5 map ok\n6 map ok\n10 census levels 3 tables 3 blocks 2 pages 2\n",
    ),
    // a fork over what an earlier one mapped
    (
        b"format vtdss3\nframes 16\nhold 8\nfork 0x100000\nmap 0xff000 0x5000 0x1000 rw\nwith\n\
            map 0x100000 0x7000 0x1000 rw\nend\nfork 0x100000\nlookup 0xff000\nlookup 0x100000\nwith\nlookup 0x100abc\nend\n\
            close\nend\n",
        b"4 fork ok\n5 map ok\n7 map ok\n9 fork ok\n10 lookup 0x5000 rw\n11 lookup outside\n13 lookup 0x7abc rw\n",
    ),
];

#[test]
fn branches_beside_each_other_are_answered(rt: HostRuntime) -> Result<(), Fail> {
    for (text, replies) in ANSWERED {
        let (status, sink) = outcome(&rt, rt.alloc(), text, ROOM)?;
        assert_eq!(rt; status, Status::Done);
        assert_eq!(rt; sink.bytes(), replies);
    }
    Ok(())
}

/// A fork whose branches want one frame more than there is, and its replies where the right one maps, and where it can't.
const SHORT: &[u8] =
    b"format vtdss3\nframes 3\nhold 0\nfork 0x100000\nmap 0xff000 0x5000 0x1000 rw\nwith\n\
    map 0x100000 0x7000 0x1000 rw\nend\nclose\nwalk 0x100010\ncensus\nend\n";

const SHORT_MAPPED: &[u8] =
    b"4 fork ok\n5 map ok\n7 map ok\n10 walk 0x7010 rw\n11 census levels 3 tables 3 blocks 2 pages 2\n";

const SHORT_REFUSED: &[u8] =
    b"4 fork ok\n5 map ok\n7 map frames\n10 walk none\n11 census levels 3 tables 3 blocks 1 pages 1\n";

#[test]
fn a_short_fork_has_two_answers(rt: HostRuntime) -> Result<(), Fail> {
    for _ in 0..8 {
        let (status, sink) = outcome(&rt, rt.alloc(), SHORT, ROOM)?;
        assert_eq!(rt; status, Status::Done);
        let bytes = sink.bytes();
        assert!(rt; bytes == SHORT_MAPPED || bytes == SHORT_REFUSED);
    }
    let mut words = Words::new(rt.alloc());
    words.push("run")?;
    words.push("--plain")?;
    let (status, sink) = put_for(&rt, rt.alloc(), &words, SHORT)?;
    assert_eq!(rt; status, Status::Done);
    assert_eq!(rt; sink.bytes(), SHORT_MAPPED);
    Ok(())
}

/// A script of so many forks, each in the left branch of the one before.
fn deep_forks(alloc: Global, depth: u32) -> Result<Vec<u8>, Fail> {
    let mut text = Vec::from_slice(alloc, b"format vtdss3\nframes 8\nhold 0\n")?;
    for level in 0..depth {
        text.extend_from_slice(b"fork ")?;
        pt_stream::push_hex(&mut text, 0x40_0000_0000 >> (level % 64))?;
        text.push(b'\n')?;
    }
    text.extend_from_slice(b"map 0x0 0x1000 0x1000 rw\n")?;
    for _ in 0..depth {
        text.extend_from_slice(b"with\nend\n")?;
    }
    text.extend_from_slice(b"close\ncensus\nend\n")?;
    Ok(text)
}

#[test]
fn forks_go_sixteen_deep(rt: HostRuntime) -> Result<(), Fail> {
    let (status, sink) = outcome(&rt, rt.alloc(), &deep_forks(rt.alloc(), 16)?, ROOM)?;
    assert_eq!(rt; status, Status::Done);
    assert!(rt;
        sink.bytes().ends_with(
            b"19 fork ok\n20 map ok\n54 census levels 3 tables 3 blocks 1 pages 1\n"
        )
    );
    let (status, sink) = outcome(&rt, rt.alloc(), &deep_forks(rt.alloc(), 17)?, ROOM)?;
    let reason = Reason::Limit;
    assert_eq!(rt; status, Status::Refused { line: 20, reason });
    assert_eq!(rt; sink.bytes().len(), 0);
    Ok(())
}

#[test]
fn a_script_dumps_at_most_256_times(rt: HostRuntime) -> Result<(), Fail> {
    let mut text = Vec::from_slice(rt.alloc(), b"format vtdss3\nframes 8\nhold 0\n")?;
    for _ in 0..256 {
        text.extend_from_slice(b"dump\n")?;
    }
    let mut more = Vec::from_slice(rt.alloc(), &text)?;
    text.extend_from_slice(b"close\nend\n")?;
    more.extend_from_slice(b"dump\nclose\nend\n")?;
    let (status, sink) = outcome(&rt, rt.alloc(), &text, ROOM)?;
    assert_eq!(rt; status, Status::Done);
    assert!(rt; sink.bytes().ends_with(b"\n259 dump 0\n"));
    let (status, sink) = outcome(&rt, rt.alloc(), &more, ROOM)?;
    let reason = Reason::Limit;
    assert_eq!(rt; status, Status::Refused { line: 260, reason });
    assert_eq!(rt; sink.bytes().len(), 0);
    Ok(())
}

/// Appends the steps of one branch of a driver's trace: large and small maps, and unmaps of the large ones.
fn push_branch(text: &mut Vec<u8>, branch: u64) -> Result<(), Fail> {
    for step in 0..1000_u64 {
        let va = (branch % 4) * 0x1_0000_0000 + step * 0x20_0000;
        let (word, at, len): (&[u8], u64, u64) = match step % 4 {
            0 => (b"map ", va, 0x20_0000),
            1 => (b"map ", va, 0x1000),
            2 => (b"map ", va, 0x1_0000),
            _ => (b"unmap ", va.wrapping_sub(0x60_0000), 0x20_0000),
        };
        text.extend_from_slice(word)?;
        pt_stream::push_hex(text, at)?;
        if step % 4 != 3 {
            text.push(b' ')?;
            pt_stream::push_hex(text, va + 0x8_0000_0000)?;
        }
        text.push(b' ')?;
        pt_stream::push_hex(text, len)?;
        text.extend_from_slice(if step % 4 == 3 { b"\n" } else { b" rw\n" })?;
    }
    Ok(())
}

/// A trace as a driver makes it, in four branches.
fn drivers_trace(alloc: Global) -> Result<Vec<u8>, Fail> {
    let mut text = Vec::from_slice(
        alloc,
        b"format vtdss4\nframes 8192\nhold 8000\nfork 0x200000000\nfork 0x100000000\n",
    )?;
    push_branch(&mut text, 0)?;
    text.extend_from_slice(b"with\n")?;
    push_branch(&mut text, 1)?;
    text.extend_from_slice(b"end\nwith\nfork 0x300000000\n")?;
    push_branch(&mut text, 2)?;
    text.extend_from_slice(b"with\n")?;
    push_branch(&mut text, 3)?;
    text.extend_from_slice(b"end\nend\nclose\ncensus\nend\n")?;
    Ok(text)
}

/// What a run of a text puts with these words.
fn put_for<R: Threads + Sync>(
    rt: &R,
    alloc: Global,
    words: &Words,
    text: &[u8],
) -> Result<(Status, MemorySink), Fail> {
    let mut source = SureSource::new(Vec::from_slice(alloc, text)?);
    let mut sink = MemorySink::new(alloc, 0x4_0000, 0x4_0000, Vec::new(alloc))?;
    let status = run(rt, alloc, words, &mut source, &mut sink, &Open);
    Ok((status, sink))
}

#[test]
fn a_drivers_trace_has_one_text(rt: HostRuntime) -> Result<(), Fail> {
    let text = drivers_trace(rt.alloc())?;
    let mut words = Words::new(rt.alloc());
    words.push("run")?;
    let (status, beside) = put_for(&rt, rt.alloc(), &words, &text)?;
    assert_eq!(rt; status, Status::Done);
    assert!(rt;
        beside.bytes().ends_with(b"\n4014 census levels 4 tables 2010 blocks 17000 pages 17000\n")
    );
    words.push("--plain")?;
    let (status, plain) = put_for(&rt, rt.alloc(), &words, &text)?;
    assert_eq!(rt; status, Status::Done);
    assert!(rt; plain.bytes() == beside.bytes());
    Ok(())
}
