//! What no clause says: the worked examples, each status once, and each fault.

use crate::status::{Status, status_text};
use crate::top::run;
use crate::words::Words;
use pt_run::Open;
use pt_script::Reason;
use pt_stream::{MemorySink, MemorySource, SureSource};
use std::alloc::Global;
use std::test::Fail;
use std::thread::Threads;

const FIRST_PATH: &[u8] =
    b"format vtdss3\nframes 16\nhold 0\nmap 0x1000 0x200000 0x1000 rw\nlookup 0x1abc\nmap 0x1000 0x3000 0x1000 r\nmap 0x1234 0x3000 0x1000 r\nmap 0x8000000000 0x0 0x1000 r\nlookup 0x2000\nlookup 0x8000000000\nclose\nend\n";

const FIRST_REPLIES: &[u8] =
    b"4 map ok\n5 lookup 0x200abc rw\n6 map occupied 0x1000\n7 map misaligned\n8 map outside\n9 lookup none\n10 lookup outside\n";

pub(crate) const ROOM: usize = 4096;

fn one_word(alloc: Global, word: &str) -> Result<Words, Fail> {
    let mut words = Words::new(alloc);
    words.push(word)?;
    Ok(words)
}

/// How a run of a text ends, and what it puts into a sink with so much room.
pub(crate) fn outcome<R: Threads + Sync>(
    rt: &R,
    alloc: Global,
    text: &[u8],
    room: usize,
) -> Result<(Status, MemorySink), Fail> {
    let words = one_word(alloc, "run")?;
    let mut source = SureSource::new(Vec::from_slice(alloc, text)?);
    let mut sink = MemorySink::new(alloc, room, ROOM, Vec::new(alloc))?;
    let status = run(rt, alloc, &words, &mut source, &mut sink, &Open);
    Ok((status, sink))
}

#[test]
fn the_first_path(rt: HostRuntime) -> Result<(), Fail> {
    let words = one_word(rt.alloc(), "run")?;
    for piece in [1, 7, 4096] {
        assert!(rt; piece > 0);
        let bytes = Vec::from_slice(rt.alloc(), FIRST_PATH)?;
        let mut source = MemorySource::new(bytes, piece, Vec::new(rt.alloc()));
        let mut sink = MemorySink::new(rt.alloc(), ROOM, 5, Vec::new(rt.alloc()))?;
        let status = run(&rt, rt.alloc(), &words, &mut source, &mut sink, &Open);
        assert_eq!(rt; status, Status::Done);
        assert_eq!(rt; sink.bytes(), FIRST_REPLIES);
    }
    Ok(())
}

#[test]
fn each_fault_of_a_device_ends_the_run(rt: HostRuntime) -> Result<(), Fail> {
    let words = one_word(rt.alloc(), "run")?;
    for call in 1..31 {
        let bytes = Vec::from_slice(rt.alloc(), FIRST_PATH)?;
        let mut source = MemorySource::new(bytes, 7, vec![in rt.alloc(); call]?);
        let mut sink = MemorySink::new(rt.alloc(), ROOM, ROOM, Vec::new(rt.alloc()))?;
        let status = run(&rt, rt.alloc(), &words, &mut source, &mut sink, &Open);
        assert_eq!(rt;
            status,
            Status::ReadFault,
            "call {call} of the source fails"
        );
        assert_eq!(rt; sink.bytes().len(), 0);
    }
    for call in 1..24 {
        let put = 5 * (call - 1);
        let mut source = SureSource::new(Vec::from_slice(rt.alloc(), FIRST_PATH)?);
        let mut sink = MemorySink::new(rt.alloc(), ROOM, 5, vec![in rt.alloc(); call as u64]?)?;
        let status = run(&rt, rt.alloc(), &words, &mut source, &mut sink, &Open);
        assert_eq!(rt; status, Status::WriteFault, "call {call} of the sink fails");
        assert_eq!(rt; sink.bytes(), &FIRST_REPLIES[..put]);
    }
    Ok(())
}

#[test]
fn other_words_leave_the_input(rt: HostRuntime) -> Result<(), Fail> {
    let mut words = Words::new(rt.alloc());
    for word in ["", "RUN", "runs"] {
        let mut source = SureSource::new(Vec::from_slice(rt.alloc(), FIRST_PATH)?);
        let mut sink = MemorySink::new(rt.alloc(), ROOM, ROOM, Vec::new(rt.alloc()))?;
        let other = one_word(rt.alloc(), word)?;
        assert_eq!(rt;
            run(&rt, rt.alloc(), &other, &mut source, &mut sink, &Open),
            Status::Usage
        );
        assert_eq!(rt;
            run(&rt, rt.alloc(), &words, &mut source, &mut sink, &Open),
            Status::Usage
        );
        assert_eq!(rt; sink.bytes().len(), 0);
    }
    words.push("run")?;
    words.push("x")?;
    let mut source = SureSource::new(Vec::from_slice(rt.alloc(), FIRST_PATH)?);
    let mut sink = MemorySink::new(rt.alloc(), ROOM, ROOM, Vec::new(rt.alloc()))?;
    assert_eq!(rt;
        run(&rt, rt.alloc(), &words, &mut source, &mut sink, &Open),
        Status::Usage
    );
    let only = one_word(rt.alloc(), "run")?;
    assert_eq!(rt;
        run(&rt, rt.alloc(), &only, &mut source, &mut sink, &Open),
        Status::Done,
        "the input is still there"
    );
    Ok(())
}

// Scripts and what they are answered.
const ANSWERED: [(&[u8], &[u8]); 4] = [
    // the middle of a range is taken
    (
        b"format vtdss3\nframes 8\nhold 0\nmap 0x3000 0x9000 0x1000 r\nmap 0x1000 0x20000 0x3000 rw\nlookup 0x1000\nlookup 0x3004\nclose\nend\n",
        b"4 map ok\n5 map occupied 0x3000\n6 lookup none\n7 lookup 0x9004 r\n",
    ),
    // frames run out, and a page beside a mapped one needs none
    (
        b"format vtdss3\nframes 3\nhold 2\nmap 0x0 0x1000 0x1000 rw\nmap 0x40000000 0x2000 0x1000 rw\nmap 0x1000 0x8000 0x1000 r\nlookup 0x1fff\nclose\nend\n",
        b"4 map ok\n5 map frames\n6 map ok\n7 lookup 0x8fff r\n",
    ),
    // frames that are given back are drawn again, and a release of none changes nothing
    (
        b"format vtdss3\nframes 5\nhold 4\nrelease\nmap 0x0 0x1000 0x1000 rw\nunmap 0x0 0x40000000\nrelease\nrelease\nmap 0x40000000 0x2000 0x1000 r\nlookup 0x40000fff\nclose\nend\n",
        b"4 release ok\n5 map ok\n6 unmap ok 1\n7 release ok\n8 release ok\n9 map ok\n10 lookup 0x2fff r\n",
    ),
    // a tebibyte that pages alone could tile, in all frames, and a gigabyte that they do tile
    (
        b"format vtdss4\nframes 32768\nhold 9\nmap 0x0 0x1000 0x10000000000 rw\nmap 0x40000000 0x1000 0x40000000 rw\nlookup 0x7fffffff\nlookup 0x80000000\nclose\nend\n",
        b"4 map frames\n5 map ok\n6 lookup 0x40000fff rw\n7 lookup none\n",
    ),
];

#[test]
fn scripts_are_answered(rt: HostRuntime) -> Result<(), Fail> {
    for (text, replies) in ANSWERED {
        let (status, sink) = outcome(&rt, rt.alloc(), text, ROOM)?;
        assert_eq!(rt; status, Status::Done);
        assert_eq!(rt; sink.bytes(), replies);
    }
    Ok(())
}

// Inputs that are refused, each with its first bad line and the reason.
const REFUSED: [(&[u8], u32, Reason); 10] = [
    (b"", 1, Reason::Ended),
    (
        b"format vtdss3\nframes 8\nhold 0\nclose\nend",
        5,
        Reason::Ended,
    ),
    (
        b"format vtdss3\nframes 8\nhold 0\nclose\nend\nx",
        6,
        Reason::After,
    ),
    (
        b"format vtdss3\nframes 8\nhold 0\nfork 0x1000\nrelease\n",
        5,
        Reason::Word,
    ),
    (
        b"format vtdss3\nframes 8\nhold 0\nmap  0x1000 0x0 0x1000 r\n",
        4,
        Reason::Shape,
    ),
    (
        b"format vtdss3\nframes 8\nhold 0\nlookup 0x01\n",
        4,
        Reason::Argument,
    ),
    (
        b"format vtdss3\nframes 0\nhold 0\nclose\nend\n",
        2,
        Reason::Limit,
    ),
    (
        b"format vtdss3\nframes 8\nhold 0\nfork 0x1000\nrelease\nwith\nend\nclose\nend\n",
        5,
        Reason::Word,
    ),
    (
        b"format vtdss3\nframes 8\nhold 0\nclose\nlookup 0x0\nend\n",
        5,
        Reason::Word,
    ),
    (
        b"format vtdss3\nframes 8\nhold 0\ndump\ndumb\nclose\nend\n",
        5,
        Reason::Word,
    ),
];

#[test]
fn inputs_are_refused_at_their_first_bad_line(rt: HostRuntime) -> Result<(), Fail> {
    for (text, line, reason) in REFUSED {
        let (status, sink) = outcome(&rt, rt.alloc(), text, ROOM)?;
        assert_eq!(rt; status, Status::Refused { line, reason });
        assert_eq!(rt; sink.bytes().len(), 0);
    }
    Ok(())
}

// A script that is answered in each way, and its replies to the letter.
const EACH_REPLY: (&[u8], &[u8]) = (
    b"format vtdss3\nframes 4\nhold 0\nmap 0x1000 0x2000 0x1000 rw\nmap 0x2000 0x3000 0x1000 r\n\
        map 0x1001 0x2000 0x1000 rw\nmap 0x7ffffff000 0x0 0x2000 rw\nmap 0x5000 0xffffffffff000 0x2000 r\n\
        map 0x0 0x8000 0x2000 rw\nmap 0x40000000 0x8000 0x1000 rw\nlookup 0x1abc\nlookup 0x2abc\nlookup 0x3000\n\
        lookup 0x8000000000\nclose\nend\n",
    b"4 map ok\n5 map ok\n6 map misaligned\n7 map outside\n8 map output\n9 map occupied 0x1000\n10 map frames\n\
        11 lookup 0x2abc rw\n12 lookup 0x3abc r\n13 lookup none\n14 lookup outside\n",
);

#[test]
fn each_reply_has_its_text(rt: HostRuntime) -> Result<(), Fail> {
    let (status, sink) = outcome(&rt, rt.alloc(), EACH_REPLY.0, ROOM)?;
    assert_eq!(rt; status, Status::Done);
    assert_eq!(rt; sink.bytes(), EACH_REPLY.1);
    Ok(())
}

#[test]
fn each_reason_has_its_name(rt: HostRuntime) -> Result<(), Fail> {
    let cases = [
        (Reason::Ended, "refused at line 1048576: ended"),
        (Reason::Word, "refused at line 1048576: word"),
        (Reason::Shape, "refused at line 1048576: shape"),
        (Reason::Argument, "refused at line 1048576: argument"),
        (Reason::Limit, "refused at line 1048576: limit"),
        (Reason::After, "refused at line 1048576: after"),
    ];
    for (reason, line) in cases {
        let status = Status::Refused {
            line: 1_048_576,
            reason,
        };
        let text = status_text(rt.alloc(), &status)?;
        assert_eq!(rt; text.as_slice(), line.as_bytes());
    }
    Ok(())
}

#[test]
fn an_input_has_a_limit(rt: HostRuntime) -> Result<(), Fail> {
    let most = vec![in rt.alloc(); b'a'; 1_048_576]?;
    let (status, _) = outcome(&rt, rt.alloc(), &most, ROOM)?;
    assert_eq!(rt;
        status,
        Status::Refused {
            line: 1,
            reason: Reason::Ended
        }
    );
    let more = vec![in rt.alloc(); b'a'; 1_048_577]?;
    let (status, sink) = outcome(&rt, rt.alloc(), &more, ROOM)?;
    assert_eq!(rt; status, Status::TooLong);
    assert_eq!(rt; sink.bytes().len(), 0);
    Ok(())
}

#[test]
fn each_status_has_its_line(rt: HostRuntime) -> Result<(), Fail> {
    let refused = Status::Refused {
        line: 10,
        reason: Reason::Ended,
    };
    let cases = [
        (Status::Done, "", 0),
        (Status::Usage, "bad words", 2),
        (refused, "refused at line 10: ended", 3),
        (Status::TooLong, "input too long", 3),
        (Status::ReadFault, "read fault", 4),
        (Status::WriteFault, "write fault", 5),
        (Status::Memory, "out of memory", 6),
    ];
    for (status, line, code) in cases {
        let text = status_text(rt.alloc(), &status)?;
        assert_eq!(rt; text.as_slice(), line.as_bytes());
        assert_eq!(rt; status.exit_code(), code);
    }
    Ok(())
}
