//! Scripts with forks, and what is asked behind `close`, and what they are answered to the letter; and made scripts.

use crate::status::Status;
use crate::tests::{ROOM, outcome};
use crate::top::run;
use crate::words::Words;
use pt_run::Open;
use pt_stream::{MemorySink, SureSource};
use std::alloc::Global;
use std::test::Fail;
use std::thread::Threads;

/// Each script, with its replies.
const RUNS: [(&[u8], &[u8]); 4] = [
    // in each part what reaches out of it is refused, and what is misaligned before that
    (
        b"format vtdss3\nframes 16\nhold 0\nmap 0x0 0x0 0x2000 rw\nfork 0x200000\nmap 0x1ff000 0x0 0x2000 rw\n\
            map 0x200000 0x0 0x1000 rw\nmap 0x200000 0x1 0x1000 rw\nunmap 0x0 0x201000\nunmap 0x1000 0x1000\nlookup 0x200000\n\
            lookup 0x0\nwith\nlookup 0x0\nmap 0x200000 0x0 0x1000 rw\ndump\nmap 0x1ff000 0x0 0x1000 rw\nend\ndump\nclose\nend\n",
        b"4 map ok\n5 fork ok\n6 map outside\n7 map outside\n8 map misaligned\n9 unmap outside\n10 unmap ok 1\n11 lookup outside\n\
            12 lookup 0x0 rw\n14 lookup outside\n15 map ok\n16 dump 1\nblock 0x200000 0x1000 0x0 rw 1 0x3 0x3\n17 map outside\n\
            19 dump 2\nblock 0x0 0x1000 0x0 rw 1 0x3 0x3\nblock 0x200000 0x1000 0x0 rw 1 0x3 0x3\n",
    ),
    // forks in forks, and forks that are refused
    (
        b"format vtdss3\nframes 64\nhold 0\nmap 0x200000 0x200000 0x200000 rw\nfork 0x300000\nlookup 0x0\nwith\nend\n\
            fork 0x1001\nwith\nend\nfork 0x0\nwith\nend\nfork 0x400000\nfork 0x400000\nwith\nend\nfork 0x200000\ndump\nwith\n\
            dump\nunmap 0x200000 0x200000\nend\nfork 0x300000\nmap 0x2ff000 0x0 0x1000 rw\nwith\nmap 0x300000 0x0 0x1000 rw\n\
            map 0x2ff000 0x0 0x1000 rw\nend\nlookup 0x2ff000\nwith\nlookup 0x2ff000\nend\nlookup 0x300000\nclose\nend\n",
        b"4 map ok\n5 fork cuts 0x200000 0x200000\n9 fork misaligned\n12 fork outside\n15 fork ok\n16 fork outside\n19 fork ok\n\
            20 dump 0\n22 dump 1\nblock 0x200000 0x200000 0x200000 rw 1 0x200083 0x200083\n23 unmap ok 512\n25 fork ok\n26 map ok\n\
            28 map ok\n29 map outside\n31 lookup 0x0 rw\n33 lookup outside\n35 lookup 0x0 rw\n",
    ),
    (b"format vtdss3\nframes 4\nhold 3\nclose\nend\n", b""),
    (
        b"format vtdss3\nframes 2\nhold 1\nfork 0x1000\nmap 0x0 0x0 0x1000 rw\nwith\nmap 0x1000 0x0 0x1000 rw\nend\nrelease\nclose\nend\n",
        b"4 fork ok\n5 map frames\n7 map frames\n9 release ok\n",
    ),
];

#[test]
fn scripts_with_forks_are_answered(rt: HostRuntime) -> Result<(), Fail> {
    for (text, replies) in RUNS {
        let (status, sink) = outcome(&rt, rt.alloc(), text, ROOM)?;
        assert_eq!(rt; status, Status::Done);
        assert_eq!(rt; sink.bytes(), replies);
    }
    Ok(())
}

/// How a run with two words ends, over this input, what it puts, and how much of the input is left.
fn outcome_of<R: Threads + Sync>(
    rt: &R,
    alloc: Global,
    first: &str,
    second: &str,
    text: &[u8],
) -> Result<(Status, MemorySink, usize), Fail> {
    let mut words = Words::new(alloc);
    words.push(first)?;
    words.push(second)?;
    let mut source = SureSource::new(Vec::from_slice(alloc, text)?);
    let mut sink = MemorySink::new(alloc, ROOM, ROOM, Vec::new(alloc))?;
    let status = run(rt, alloc, &words, &mut source, &mut sink, &Open);
    let mut left = MemorySink::new(alloc, ROOM, ROOM, Vec::new(alloc))?;
    let mut only = Words::new(alloc);
    only.push("run")?;
    let after = run(rt, alloc, &only, &mut source, &mut left, &Open);
    let kept = if after == Status::Done { text.len() } else { 0 };
    Ok((status, sink, kept))
}

/// A script that asks for a walk and for the census, and its replies.
const ASKED: (&[u8], &[u8]) = (
    b"format vtdss3\nframes 8\nhold 0\nmap 0x1000 0x200000 0x1000 rw\nlookup 0x1abc\ndump\nclose\nwalk 0x1abc\ncensus\nend\n",
    b"4 map ok\n5 lookup 0x200abc rw\n6 dump 1\nblock 0x1000 0x1000 0x200000 rw 1 0x200003 0x200003\n8 walk 0x200abc rw\n\
        9 census levels 3 tables 3 blocks 1 pages 1\n",
);

#[test]
fn one_owner_is_asked_for_by_a_second_word(rt: HostRuntime) -> Result<(), Fail> {
    let (status, sink, _) = outcome_of(&rt, rt.alloc(), "run", "--plain", ASKED.0)?;
    assert_eq!(rt; status, Status::Done);
    assert_eq!(rt; sink.bytes(), ASKED.1);
    let (status, sink) = outcome(&rt, rt.alloc(), ASKED.0, ROOM)?;
    assert_eq!(rt; status, Status::Done);
    assert_eq!(rt; sink.bytes(), ASKED.1);
    Ok(())
}

#[test]
fn a_number_makes_one_script(rt: HostRuntime) -> Result<(), Fail> {
    let (status, sink, kept) = outcome_of(&rt, rt.alloc(), "make", "0", ASKED.0)?;
    assert_eq!(rt; status, Status::Done);
    assert!(rt;
        sink.bytes()
            .starts_with(b"made 0 format amdv1 lines 4015\n")
    );
    assert_eq!(rt; kept, ASKED.0.len(), "the input is as it was");
    let (_, again, _) = outcome_of(&rt, rt.alloc(), "make", "0", b"")?;
    assert_eq!(rt; again.bytes(), sink.bytes());
    for (first, second) in [("make", "00"), ("make", ""), ("run", "x"), ("make", "0x0")] {
        let (status, sink, kept) = outcome_of(&rt, rt.alloc(), first, second, ASKED.0)?;
        assert_eq!(rt; status, Status::Usage);
        assert_eq!(rt; sink.bytes().len(), 0);
        assert_eq!(rt; kept, ASKED.0.len());
    }
    Ok(())
}
