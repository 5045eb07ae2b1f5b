// Texts from outside: what is a script, and where the others stop being one.
use super::*;
use std::alloc::Global;

const HEADER: &[u8] = b"format vtdss3\nframes 8\nhold 0\n";

fn bad(alloc: Global, text: &[u8]) -> Option<(u32, Reason)> {
    match parse(alloc, text) {
        Err(ScriptError::Bad { line, reason }) => Some((line, reason)),
        _ => None,
    }
}

// What is wrong with a text behind a good header.
fn bad_body(alloc: Global, body: &[u8]) -> Option<(u32, Reason)> {
    let mut text = Vec::new(alloc);
    if text.extend_from_slice(HEADER).is_err() || text.extend_from_slice(body).is_err() {
        return None;
    }
    bad(alloc, &text)
}

// Headers that are refused, by their first bad line and why.
const BAD_HEADERS: [(u32, Reason, &[&[u8]]); 14] = [
    (1, Reason::Ended, &[b"", b"format vtdss3", b"frames"]),
    (
        1,
        Reason::Word,
        &[
            b"\n",
            b" format vtdss3\n",
            b"Format vtdss3\n",
            b"frames 8\n",
            b"close\n",
            b"formats vtdss3\n",
        ],
    ),
    (
        1,
        Reason::Shape,
        &[
            b"format\n",
            b"format  vtdss3\n",
            b"format vtdss3 \n",
            b"format vtdss3 levels 3\n",
            b"format amdv1\n",
            b"format amdv1 levels\n",
            b"format amdv1 level 3\n",
            b"format amdv1 levels 3 3\n",
        ],
    ),
    (
        1,
        Reason::Argument,
        &[
            b"format vtdss6\n",
            b"format \n",
            b"format VTDSS3\n",
            b"format vtdss3\r\n",
            b"format amdv1 levels \n",
            b"format amdv1 levels 03\n",
            b"format amdv1 levels 0x3\n",
            b"format amdv1 levels 18446744073709551616\n",
        ],
    ),
    (
        1,
        Reason::Limit,
        &[
            b"format amdv1 levels 2\n",
            b"format amdv1 levels 7\n",
            b"format amdv1 levels 18446744073709551615\n",
        ],
    ),
    (
        2,
        Reason::Ended,
        &[b"format sv39\n", b"format sv39\nframes 8"],
    ),
    (
        2,
        Reason::Word,
        &[b"format sv39\nformat sv39\n", b"format sv39\nhold 0\n"],
    ),
    (
        2,
        Reason::Shape,
        &[b"format sv39\nframes\n", b"format sv39\nframes 8 8\n"],
    ),
    (2, Reason::Argument, &[b"format sv39\nframes eight\n"]),
    (
        2,
        Reason::Limit,
        &[
            b"format sv39\nframes 0\n",
            b"format sv39\nframes 32769\n",
            b"format vmsa16\nframes 8193\n",
            b"format vmsa64\nframes 2049\n",
        ],
    ),
    (3, Reason::Word, &[b"format sv39\nframes 1\nframes 1\n"]),
    (3, Reason::Shape, &[b"format sv39\nframes 1\nhold\n"]),
    (3, Reason::Argument, &[b"format sv39\nframes 1\nhold -0\n"]),
    (
        3,
        Reason::Limit,
        &[
            b"format sv39\nframes 1\nhold 1\n",
            b"format sv39\nframes 8\nhold 8\n",
        ],
    ),
];

#[test]
fn headers_are_refused(rt: HostRuntime) {
    for (line, reason, texts) in BAD_HEADERS {
        for text in texts {
            assert_eq!(rt; bad(rt.alloc(), *text), Some((line, reason)), "line {line}");
        }
    }
}

// What is refused behind a good header, by their first bad line and why.
const BAD_BODIES: [(u32, Reason, &[&[u8]]); 14] = [
    (4, Reason::Ended, &[b"", b"close"]),
    (
        4,
        Reason::Word,
        &[
            b"\n",
            b"hold 0\n",
            b"walk 0x0\n",
            b"census\n",
            b"with\n",
            b"end\n",
            b"# a comment\n",
        ],
    ),
    (
        4,
        Reason::Shape,
        &[
            b"map 0x0 0x0 0x1000\n",
            b"map 0x0 0x0 0x1000 rw rw\n",
            b"map 0x0  0x0 0x1000 rw\n",
            b"map\n",
            b"unmap 0x0\n",
            b"unmap 0x0 0x1000 0x1000\n",
            b"lookup\n",
            b"lookup 0x0 \n",
            b"dump 1\n",
            b"release 1\n",
            b"fork\n",
            b"close 1\n",
        ],
    ),
    (
        4,
        Reason::Argument,
        &[
            b"map x 0x0 0x1000 rw\n",
            b"map 0x0 y 0x1000 rw\n",
            b"map 0x0ff000 0x5000 0x1000 rw\n",
            b"map 0x0 0x0 4096 rw\n",
            b"map 0x0 0x0 0x1000 w\n",
            b"map 0x0 0x0 0x1000 \n",
            b"unmap 0x00 0x1000\n",
            b"unmap 0x0 0X1000\n",
            b"lookup 0xA\n",
            b"lookup 0x10000000000000000\n",
            b"lookup \n",
            b"fork 16\n",
        ],
    ),
    (
        5,
        Reason::Shape,
        &[
            b"dump\ndump \n",
            b"fork 0x1000\nwith 1\n",
            b"close\nwalk\n",
            b"close\ncensus 1\n",
            b"close\nend \n",
        ],
    ),
    (
        5,
        Reason::Word,
        &[
            b"fork 0x1000\nrelease\n",
            b"fork 0x1000\nclose\n",
            b"fork 0x1000\nend\n",
            b"close\nlookup 0x0\n",
            b"close\nclose\n",
        ],
    ),
    (
        6,
        Reason::Word,
        &[
            b"fork 0x1000\nwith\nwith\n",
            b"fork 0x1000\nwith\nrelease\n",
        ],
    ),
    (6, Reason::Shape, &[b"fork 0x1000\nwith\nend 1\n"]),
    (7, Reason::Word, &[b"fork 0x1000\nwith\nend\nend\n"]),
    (
        8,
        Reason::Word,
        &[b"fork 0x1000\nfork 0x800\nwith\nend\nend\n"],
    ),
    (7, Reason::Ended, &[b"fork 0x1000\nwith\nend\n"]),
    (5, Reason::Ended, &[b"close\n"]),
    (5, Reason::Argument, &[b"close\nwalk zero\n"]),
    (6, Reason::After, &[b"close\nend\n\n", b"close\nend\nend"]),
];

#[test]
fn bodies_are_refused(rt: HostRuntime) {
    for (line, reason, texts) in BAD_BODIES {
        for text in texts {
            let found = bad_body(rt.alloc(), *text);
            assert_eq!(rt; found, Some((line, reason)), "line {line}");
        }
    }
}

// Copies of a text in a row.
fn repeated(alloc: Global, text: &[u8], count: usize) -> Vec<u8> {
    let mut all = Vec::new(alloc);
    for _ in 0..count {
        if all.extend_from_slice(text).is_err() {
            return all;
        }
    }
    all
}

// The header and three parts behind it.
fn script(alloc: Global, first: &[u8], second: &[u8], third: &[u8]) -> Vec<u8> {
    let mut all = Vec::new(alloc);
    if all.extend_from_slice(HEADER).is_err() || all.extend_from_slice(first).is_err() {
        return all;
    }
    if all.extend_from_slice(second).is_err() || all.extend_from_slice(third).is_err() {
        return all;
    }
    all
}

#[test]
fn limits_are_counted(rt: HostRuntime) {
    let alloc = rt.alloc();
    let end: &[u8] = b"close\nend\n";
    let walks: &[u8] = b"close\nwalk 0x0\ncensus\nend\n";
    let lookups = repeated(alloc, b"lookup 0x0\n", 65_536);
    let most = script(alloc, &lookups, b"", end);
    assert!(rt; parse(alloc, &most).is_ok());
    let many = script(alloc, &lookups, b"unmap 0x0 0x1000\n", end);
    assert_eq!(rt; bad(alloc, &many), Some((65_540, Reason::Limit)));
    let fewer = repeated(alloc, b"lookup 0x0\n", 65_535);
    let walked = script(alloc, &fewer, b"", walks);
    assert_eq!(rt; bad(alloc, &walked), Some((65_541, Reason::Limit)));
    let dumps = repeated(alloc, b"dump\n", 256);
    let most = script(alloc, &dumps, b"", end);
    assert!(rt; parse(alloc, &most).is_ok());
    let many = script(alloc, &dumps, b"dump\n", end);
    assert_eq!(rt; bad(alloc, &many), Some((260, Reason::Limit)));
    let forks = repeated(alloc, b"fork 0x1000\n", 16);
    let ends = repeated(alloc, b"with\nend\n", 16);
    let most = script(alloc, &forks, &ends, end);
    assert!(rt; parse(alloc, &most).is_ok());
    let deep = script(alloc, &forks, b"fork 0x1000\n", end);
    assert_eq!(rt; bad(alloc, &deep), Some((20, Reason::Limit)));
}

#[test]
fn texts_come_back(rt: HostRuntime) {
    let body: &[u8] =
        b"map 0x1000 0x200000 0x1000 rw\nmap 0x0 0x0 0xffffffffffffffff r\nunmap 0x1000 0x1000\nlookup 0x1abc\n\
        dump\nrelease\nfork 0x2000\nfork 0x1000\nwith\nend\nlookup 0x0\nwith\ndump\nend\nclose\nwalk 0x1abc\ncensus\nend\n";
    let headers: [&[u8]; 14] = [
        b"format amdv1 levels 3\nframes 32768\nhold 32767\n",
        b"format amdv1 levels 6\nframes 1\nhold 0\n",
        b"format vtdss3\nframes 32768\nhold 0\n",
        b"format vtdss4\nframes 10\nhold 9\n",
        b"format vtdss5\nframes 10\nhold 9\n",
        b"format x86-4\nframes 10\nhold 9\n",
        b"format x86-5\nframes 10\nhold 9\n",
        b"format vmsa4\nframes 32768\nhold 9\n",
        b"format vmsa16\nframes 8192\nhold 9\n",
        b"format vmsa64\nframes 2048\nhold 9\n",
        b"format sv39\nframes 10\nhold 9\n",
        b"format sv48\nframes 10\nhold 9\n",
        b"format sv57\nframes 10\nhold 9\n",
        b"format sv39\nframes 2\nhold 1\n",
    ];
    let alloc = rt.alloc();
    for header in headers {
        let mut text = Vec::new(alloc);
        assert!(rt; text.extend_from_slice(header).is_ok());
        assert!(rt; text.extend_from_slice(body).is_ok());
        match print_again(alloc, &text) {
            Ok(again) => assert!(rt; again == text),
            Err(error) => assert!(rt; false, "{error}"),
        }
    }
}

// A text of each kind of line outside forks, and the commands and asks that it is.
const COMMANDS: [Command; 2] = [
    Command {
        line: 4,
        what: What::Map {
            va: 0x1000,
            pa: 0x2000,
            len: 0x1000,
            prot: Prot::Read,
        },
    },
    Command {
        line: 5,
        what: What::Lookup { va: 0 },
    },
];

const ASKS: [Ask; 2] = [
    Ask {
        line: 7,
        what: AskWhat::Census,
    },
    Ask {
        line: 8,
        what: AskWhat::Walk { va: 7 },
    },
];

#[test]
fn a_script_has_its_lines(rt: HostRuntime) {
    let alloc = rt.alloc();
    let text = script(
        alloc,
        b"dump\nfork 0x2000\nfork 0x1000\nwith\nend\nwith\nrelease\n",
        b"",
        b"",
    );
    assert_eq!(rt; bad(alloc, &text), Some((10, Reason::Word)));
    let text = script(
        alloc,
        b"map 0x1000 0x2000 0x1000 r\nlookup 0x0\nclose\ncensus\nwalk 0x7\nend\n",
        b"",
        b"",
    );
    let Ok(read) = parse(alloc, &text) else {
        assert!(rt; false);
        return;
    };
    assert_eq!(rt;
        (read.format, read.levels, read.frames, read.hold),
        (Name::VtdSs3, 3, 8, 0)
    );
    assert!(rt; read.body.commands() == COMMANDS.as_slice());
    assert!(rt; read.tail.asks() == ASKS.as_slice());
    let Ok(again) = read_again(alloc, &read) else {
        assert!(rt; false);
        return;
    };
    assert!(rt; again.body.commands() == COMMANDS.as_slice());
}

#[test]
fn errors_have_messages(rt: HostRuntime) {
    let bad = ScriptError::Bad {
        line: 7,
        reason: Reason::Word,
    };
    let Ok(text) = format!(in rt.alloc(); "{bad}, {}", ScriptError::Memory) else {
        assert!(rt; false);
        return;
    };
    assert_eq!(rt; text.as_str(), "bad line 7, out of memory");
}
