//! Devices that fail at each call, and sinks of each room.

use crate::status::Status;
use crate::top::run;
use crate::words::Words;
use pt_run::Open;
use pt_stream::{MemorySink, MemorySource, SureSource};
use std::test::Fail;

/// A script of 108 bytes, and its replies.
const TEXT: &[u8] =
    b"format vtdss3\nframes 8\nhold 0\nmap 0x1000 0x200000 0x1000 rw\nlookup 0x1abc\ndump\nclose\nwalk 0x1abc\ncensus\nend\n";

const REPLIES: &[u8] =
    b"4 map ok\n5 lookup 0x200abc rw\n6 dump 1\nblock 0x1000 0x1000 0x200000 rw 1 0x200003 0x200003\n8 walk 0x200abc rw\n\
    9 census levels 3 tables 3 blocks 1 pages 1\n";

const ROOM: usize = 4096;

#[test]
fn a_source_that_fails_ends_the_run(rt: HostRuntime) -> Result<(), Fail> {
    let mut words = Words::new(rt.alloc());
    words.push("run")?;
    for call in 1..18 {
        let bytes = Vec::from_slice(rt.alloc(), TEXT)?;
        let mut source = MemorySource::new(bytes, 7, vec![in rt.alloc(); call]?);
        let mut sink = MemorySink::new(rt.alloc(), ROOM, ROOM, Vec::new(rt.alloc()))?;
        let status = run(&rt, rt.alloc(), &words, &mut source, &mut sink, &Open);
        assert_eq!(rt; status, Status::ReadFault, "call {call} fails");
        assert_eq!(rt; sink.bytes().len(), 0);
    }
    Ok(())
}

#[test]
fn a_sink_that_fails_cuts_the_text_off(rt: HostRuntime) -> Result<(), Fail> {
    let mut words = Words::new(rt.alloc());
    words.push("run")?;
    for call in 1..32 {
        let put = 5 * (call - 1);
        let mut source = SureSource::new(Vec::from_slice(rt.alloc(), TEXT)?);
        let mut sink = MemorySink::new(rt.alloc(), ROOM, 5, vec![in rt.alloc(); call as u64]?)?;
        let status = run(&rt, rt.alloc(), &words, &mut source, &mut sink, &Open);
        assert_eq!(rt; status, Status::WriteFault, "call {call} fails");
        assert_eq!(rt; sink.bytes(), &REPLIES[..put]);
    }
    Ok(())
}

#[test]
fn a_sink_takes_what_it_has_room_for(rt: HostRuntime) -> Result<(), Fail> {
    let mut words = Words::new(rt.alloc());
    words.push("run")?;
    for room in 0..=REPLIES.len() {
        let mut source = SureSource::new(Vec::from_slice(rt.alloc(), TEXT)?);
        let mut sink = MemorySink::new(rt.alloc(), room, ROOM, Vec::new(rt.alloc()))?;
        let status = run(&rt, rt.alloc(), &words, &mut source, &mut sink, &Open);
        let done = room == REPLIES.len();
        assert_eq!(rt; status == Status::Done, done, "room {room}");
        assert_eq!(rt; status == Status::WriteFault, !done, "room {room}");
        assert_eq!(rt; sink.bytes(), &REPLIES[..room]);
    }
    Ok(())
}
