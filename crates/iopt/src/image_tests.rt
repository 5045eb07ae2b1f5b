//! Spaces that are saved as images, and scripts that are run on images.

use crate::status::{Status, status_text};
use crate::top::run;
use crate::words::Words;
use pt_image::{EntryFault, ImageFault};
use pt_run::Open;
use pt_script::Reason;
use pt_stream::{MemorySink, MemorySource, SureSource};
use std::alloc::Global;
use std::test::Fail;
use std::thread::Threads;

const ROOM: usize = 1 << 20;

const FIRST: &[u8] =
    b"format vtdss3\nframes 8\nhold 0\nmap 0x1000 0x200000 0x1000 rw\nlookup 0x1abc\ndump\nclose\nwalk 0x1abc\ncensus\nend\n";

const AGAIN: &[u8] = b"format vtdss3\nframes 8\nhold 0\nlookup 0x1abc\nclose\ncensus\nend\n";

const SHORT: &[u8] = b"format vtdss3\nframes 1\nhold 0\nclose\ncensus\nend\n";

/// How a run with this word ends on these bytes, and what it puts.
fn ended<R: Threads + Sync>(
    rt: &R,
    alloc: Global,
    word: &str,
    first: &[u8],
    second: &[u8],
) -> Result<(Status, MemorySink), Fail> {
    let mut words = Words::new(alloc);
    words.push(word)?;
    let mut input = Vec::from_slice(alloc, first)?;
    input.extend_from_slice(second)?;
    let mut source = SureSource::new(input);
    let mut sink = MemorySink::new(alloc, ROOM, ROOM, Vec::new(alloc))?;
    let status = run(rt, alloc, &words, &mut source, &mut sink, &Open);
    Ok((status, sink))
}

/// An image of one frame, whose entries but one are zero.
fn one_frame(
    alloc: Global,
    number: u8,
    levels: u8,
    bytes: usize,
    root: u64,
    index: usize,
    entry: u64,
) -> Result<Vec<u8>, Fail> {
    let mut image = Vec::from_slice(alloc, b"IOPTIMG1")?;
    image.push(number)?;
    image.push(levels)?;
    image.extend_from_slice(&1u32.to_le_bytes())?;
    image.extend_from_slice(&root.to_le_bytes())?;
    for at in 0..bytes {
        let word = if at == index { entry } else { 0 };
        image.extend_from_slice(&word.to_le_bytes())?;
    }
    Ok(image)
}

#[test]
fn a_bad_entry_is_named(rt: HostRuntime) -> Result<(), Fail> {
    for (entry, fault) in [
        (0x1_0000_0003, EntryFault::Shared),
        (0x7, EntryFault::Alien),
    ] {
        let image = one_frame(rt.alloc(), 1, 3, 512, 2, 0, entry)?;
        assert_eq!(rt; image.len(), 4118);
        let (status, sink) = ended(&rt, rt.alloc(), "resume", &image, SHORT)?;
        let (level, base, index) = (2, 0, 0);
        let fault = ImageFault::Entry {
            level,
            base,
            index,
            fault,
        };
        assert_eq!(rt; status, Status::Image { fault });
        assert_eq!(rt; sink.bytes().len(), 0);
    }
    Ok(())
}

#[test]
fn an_entry_past_the_space_is_outside(rt: HostRuntime) -> Result<(), Fail> {
    let image = one_frame(rt.alloc(), 7, 4, 2048, 3, 2, 0x3)?;
    let (status, _) = ended(&rt, rt.alloc(), "resume", &image, b"")?;
    let fault = ImageFault::Entry {
        level: 3,
        base: 0,
        index: 2,
        fault: EntryFault::Outside,
    };
    assert_eq!(rt; status, Status::Image { fault });
    Ok(())
}

#[test]
fn every_cut_of_an_image_is_truncated(rt: HostRuntime) -> Result<(), Fail> {
    let image = one_frame(rt.alloc(), 1, 3, 512, 2, 0, 0)?;
    for length in 0..image.len() {
        let (status, sink) = ended(&rt, rt.alloc(), "resume", &image[..length], b"")?;
        let have = length as u64;
        let want = if have < 14 { 14 } else { 4118 };
        let fault = ImageFault::Truncated { have, want };
        assert_eq!(rt; status, Status::Image { fault });
        assert_eq!(rt; sink.bytes().len(), 0);
    }
    let (status, sink) = ended(&rt, rt.alloc(), "resume", &image, SHORT)?;
    assert_eq!(rt; status, Status::Done);
    assert_eq!(rt;
        sink.bytes(),
        b"5 census levels 3 tables 1 blocks 0 pages 0\n".as_slice()
    );
    Ok(())
}

#[test]
fn a_saved_space_is_resumed(rt: HostRuntime) -> Result<(), Fail> {
    let (status, saved) = ended(&rt, rt.alloc(), "save", FIRST, b"")?;
    assert_eq!(rt; status, Status::Done);
    assert_eq!(rt; saved.bytes().len(), 22 + 8 * 4096);
    let (status, sink) = ended(&rt, rt.alloc(), "resume", saved.bytes(), AGAIN)?;
    assert_eq!(rt; status, Status::Done);
    assert_eq!(rt;
        sink.bytes(),
        b"4 lookup 0x200abc rw\n6 census levels 3 tables 3 blocks 1 pages 1\n".as_slice()
    );
    for (script, line) in [
        (
            b"format vtdss4\nframes 9\nhold 0\nclose\nend\n".as_slice(),
            1,
        ),
        (
            b"format vtdss3\nframes 9\nhold 1\nclose\nend\n".as_slice(),
            2,
        ),
        (
            b"format vtdss3\nframes 8\nhold 1\nclose\nend\n".as_slice(),
            3,
        ),
    ] {
        let (status, sink) = ended(&rt, rt.alloc(), "resume", saved.bytes(), script)?;
        assert_eq!(rt; status, Status::Differs { line });
        assert_eq!(rt; sink.bytes().len(), 0);
    }
    let (status, _) = ended(
        &rt,
        rt.alloc(),
        "resume",
        saved.bytes(),
        b"format vtdss3\nframe 9\n",
    )?;
    let refused = Status::Refused {
        line: 2,
        reason: Reason::Word,
    };
    assert_eq!(rt; status, refused);
    Ok(())
}

#[test]
fn a_grown_space_is_resumed(rt: HostRuntime) -> Result<(), Fail> {
    let script =
        b"format amdv1 levels 3\nframes 8\nhold 0\nmap 0x8000000000 0x1000 0x1000 r\nclose\nend\n";
    let (status, saved) = ended(&rt, rt.alloc(), "save", script, b"")?;
    assert_eq!(rt; status, Status::Done);
    let script =
        b"format amdv1 levels 3\nframes 8\nhold 0\nlookup 0x8000000fff\nmap 0x0 0x2000 0x1000 rw\nclose\nwalk 0x8000000fff\nwalk 0x0\ncensus\nend\n";
    let replies =
        b"4 lookup 0x1fff r\n5 map ok\n7 walk 0x1fff r\n8 walk 0x2000 rw\n9 census levels 4 tables 7 blocks 2 pages 2\n";
    let (status, sink) = ended(&rt, rt.alloc(), "resume", saved.bytes(), script)?;
    assert_eq!(rt; status, Status::Done);
    assert_eq!(rt; sink.bytes(), replies.as_slice());
    let other = b"format amdv1 levels 4\nframes 8\nhold 0\nclose\nend\n";
    let (status, _) = ended(&rt, rt.alloc(), "resume", saved.bytes(), other)?;
    assert_eq!(rt; status, Status::Differs { line: 1 });
    Ok(())
}

#[test]
fn what_follows_an_image_is_no_longer_than_a_script(rt: HostRuntime) -> Result<(), Fail> {
    let image = one_frame(rt.alloc(), 1, 3, 512, 2, 0, 0x7)?;
    let mut text = Vec::new(rt.alloc());
    text.resize(1 << 20, 97)?;
    let (status, _) = ended(&rt, rt.alloc(), "resume", &image, &text)?;
    let (level, base, index, fault) = (2, 0, 0, EntryFault::Alien);
    let fault = ImageFault::Entry {
        level,
        base,
        index,
        fault,
    };
    assert_eq!(rt; status, Status::Image { fault });
    text.push(97)?;
    let (status, _) = ended(&rt, rt.alloc(), "resume", &image, &text)?;
    assert_eq!(rt; status, Status::TooLong);
    Ok(())
}

#[test]
fn words_of_images(rt: HostRuntime) -> Result<(), Fail> {
    for word in ["saves", "sav", "resumed", "Save", ""] {
        let (status, _) = ended(&rt, rt.alloc(), word, FIRST, b"")?;
        assert_eq!(rt; status, Status::Usage);
    }
    let mut words = Words::new(rt.alloc());
    words.push("save")?;
    words.push("--plain")?;
    let mut source = SureSource::new(Vec::from_slice(rt.alloc(), FIRST)?);
    let mut sink = MemorySink::new(rt.alloc(), ROOM, ROOM, Vec::new(rt.alloc()))?;
    let status = run(&rt, rt.alloc(), &words, &mut source, &mut sink, &Open);
    assert_eq!(rt; status, Status::Usage);
    Ok(())
}

#[test]
fn ends_of_images_are_told(rt: HostRuntime) -> Result<(), Fail> {
    let (have, want, offset, frame, index) = (3, 14, 8, 0, 1);
    let (level, base, fault) = (2, 0, EntryFault::Group);
    let entry = ImageFault::Entry {
        level,
        base,
        index,
        fault,
    };
    for (fault, line) in [
        (
            ImageFault::Truncated { have, want },
            b"bad image: truncated".as_slice(),
        ),
        (
            ImageFault::Header { offset },
            b"bad image: header".as_slice(),
        ),
        (ImageFault::Root, b"bad image: root".as_slice()),
        (entry, b"bad image: entry".as_slice()),
        (
            ImageFault::Stray { frame, index },
            b"bad image: stray".as_slice(),
        ),
    ] {
        let status = Status::Image { fault };
        assert_eq!(rt; status.exit_code(), 3);
        assert_eq!(rt; status_text(rt.alloc(), &status)?.as_slice(), line);
    }
    let status = Status::Differs { line: 2 };
    assert_eq!(rt; status.exit_code(), 3);
    assert_eq!(rt;
        status_text(rt.alloc(), &status)?.as_slice(),
        b"script differs at line 2".as_slice()
    );
    Ok(())
}

#[test]
fn faults_of_devices_end_a_resumed_run(rt: HostRuntime) -> Result<(), Fail> {
    let mut words = Words::new(rt.alloc());
    words.push("resume")?;
    let mut input = one_frame(rt.alloc(), 1, 3, 512, 2, 0, 0)?;
    input.extend_from_slice(SHORT)?;
    let failing = Vec::from_slice(rt.alloc(), &[2])?;
    let mut source = MemorySource::new(input.clone()?, 4096, failing.clone()?);
    let mut sink = MemorySink::new(rt.alloc(), ROOM, 5, Vec::new(rt.alloc()))?;
    let status = run(&rt, rt.alloc(), &words, &mut source, &mut sink, &Open);
    assert_eq!(rt; status, Status::ReadFault);
    assert_eq!(rt; sink.bytes().len(), 0);
    let mut source = SureSource::new(input);
    let mut sink = MemorySink::new(rt.alloc(), ROOM, 5, failing)?;
    let status = run(&rt, rt.alloc(), &words, &mut source, &mut sink, &Open);
    assert_eq!(rt; status, Status::WriteFault);
    assert_eq!(rt; sink.bytes(), b"5 cen".as_slice());
    Ok(())
}
