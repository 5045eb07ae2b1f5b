use crate::{
    Failed, Line, MemorySink, MemorySource, ReadError, Sink, Source, StdSink, StdSource,
    SureSource, push_dec, push_hex, read_all, read_dec, read_hex, write_all,
};
use std::io::{Read, Write};
use std::test::Fail;
use std::{fmt, io};

const TEXT: &[u8] = b"one map\ntwo maps";

#[test]
fn numbers_have_one_spelling(rt: HostRuntime) -> Result<(), Fail> {
    // a text, and the number that it is in decimal and in hexadecimal
    let cases = [
        ("0", Some(0), None),
        ("4096", Some(4096), None),
        ("18446744073709551615", Some(u64::MAX), None),
        ("18446744073709551616", None, None),
        ("00", None, None),
        ("+1", None, None),
        ("1", Some(1), None),
        ("0x0", None, Some(0)),
        ("0x1", None, Some(1)),
        ("0x1f000", None, Some(0x1f000)),
        ("0xffffffffffffffff", None, Some(u64::MAX)),
        ("0x10000000000000000", None, None),
        ("0x00", None, None),
        ("0xA", None, None),
        ("0X1", None, None),
        ("0x", None, None),
        ("", None, None),
    ];
    for (text, decimal, hexadecimal) in cases {
        let mut out = vec![in rt.alloc(); b'=']?;
        assert_eq!(rt; read_dec(text.as_bytes()), decimal, "{text:?}");
        if let Some(value) = decimal {
            push_dec(&mut out, value)?;
        }
        assert_eq!(rt; read_hex(text.as_bytes()), hexadecimal, "{text:?}");
        if let Some(value) = hexadecimal {
            push_hex(&mut out, value)?;
        }
        if decimal.is_some() || hexadecimal.is_some() {
            assert_eq!(rt; &out[1..], text.as_bytes());
        }
    }
    Ok(())
}

#[test]
fn a_line_is_made_from_its_end(rt: HostRuntime) -> Result<(), Fail> {
    let mut line = Line::new();
    line.put(b"\n");
    line.put_hex(0x1f000);
    line.put(b" ");
    line.put_dec(7);
    let mut out = vec![in rt.alloc(); b'=']?;
    line.push_to(&mut out)?;
    assert_eq!(rt; out.as_slice(), b"=7 0x1f000\n".as_slice());
    Ok(())
}

#[test]
fn an_input_is_read_whole(rt: HostRuntime) -> Result<(), Fail> {
    // the number of bytes, the piece, the call that fails, the limit, the number of bytes read
    let cases = [
        (5000, 1, 0, 5000, Ok(5000)),
        (5000, 7, 0, 5001, Ok(5000)),
        (5000, 4096, 0, 5000, Ok(5000)),
        (5000, usize::MAX, 3, 5000, Err(ReadError::Fault)),
        (5000, 7, 0, 4999, Err(ReadError::TooLong)),
        (14, 7, 1, 14, Err(ReadError::Fault)),
        (14, 7, 2, 14, Err(ReadError::Fault)),
        (14, 7, 3, 14, Err(ReadError::Fault)),
        (14, 7, 4, 14, Ok(14)),
        (0, 1, 0, 0, Ok(0)),
        (1, 1, 0, 0, Err(ReadError::TooLong)),
    ];
    for (len, piece, call, limit, want) in cases {
        assert!(rt; piece > 0);
        let bytes = vec![in rt.alloc(); b'a'; len]?;
        let mut source = MemorySource::new(bytes, piece, vec![in rt.alloc(); call]?);
        let read = read_all(rt.alloc(), &mut source, limit).map(|bytes| bytes.len());
        assert_eq!(rt; read, want, "{len} bytes by {piece}, call {call} fails");
    }
    let mut source = MemorySource::new(
        Vec::from_slice(rt.alloc(), TEXT)?,
        7,
        vec![in rt.alloc(); 2]?,
    );
    assert_eq!(rt;
        read_all(rt.alloc(), &mut source, 99).err(),
        Some(ReadError::Fault)
    );
    let rest = read_all(rt.alloc(), &mut source, 99)?;
    assert_eq!(rt; rest.as_slice(), &TEXT[7..], "a fault takes no byte");
    let mut source = SureSource::new(Vec::from_slice(rt.alloc(), TEXT)?);
    let bytes = read_all(rt.alloc(), &mut source, TEXT.len())?;
    assert_eq!(rt; bytes.as_slice(), TEXT);
    Ok(())
}

#[test]
fn an_output_is_written_whole_or_in_part(rt: HostRuntime) -> Result<(), Fail> {
    // the room, the piece, the call that fails, the number of bytes that the sink then holds
    let cases = [
        (99, 5, 0, 16),
        (16, 99, 0, 16),
        (99, 5, 3, 10),
        (99, 5, 1, 0),
        (15, 4, 0, 15),
        (1, 4, 0, 1),
        (0, 4, 0, 0),
    ];
    for (room, piece, call, held) in cases {
        assert!(rt; piece > 0);
        assert!(rt; held <= TEXT.len());
        let mut sink = MemorySink::new(rt.alloc(), room, piece, vec![in rt.alloc(); call]?)?;
        let written = write_all(&mut sink, TEXT);
        assert_eq!(rt;
            written.is_ok(),
            held == TEXT.len(),
            "room {room}, call {call} fails"
        );
        assert_eq!(rt;
            sink.bytes(),
            &TEXT[..held],
            "room {room}, call {call} fails"
        );
    }
    Ok(())
}

#[test]
fn errors_have_messages(rt: HostRuntime) -> Result<(), Fail> {
    let cases = [
        (ReadError::Fault, "read fault"),
        (ReadError::TooLong, "input too long"),
        (ReadError::Memory, "out of memory"),
    ];
    for (error, want) in cases {
        let message = format!(in rt.alloc(); "{error}")?;
        assert_eq!(rt; message.as_str(), want);
    }
    Ok(())
}

// A reader and writer whose every call fails.
#[derive(Drop)]
struct Broken;

impl Read for Broken {
    fn read(&mut self, _buf: &mut [u8]) -> io::Result<usize> {
        Err(io::Error::other("broken"))
    }
}

impl Write for Broken {
    fn write(&mut self, _buf: &[u8]) -> io::Result<usize> {
        Err(io::Error::other("broken"))
    }

    fn flush(&mut self) -> io::Result<()> {
        Ok(())
    }
}

#[test]
fn readers_and_writers_are_devices(rt: HostRuntime) -> Result<(), Fail> {
    let mut source = StdSource::new(TEXT);
    let bytes = read_all(rt.alloc(), &mut source, 99)?;
    assert_eq!(rt; bytes.as_slice(), TEXT);
    let mut source = StdSource::new(Broken);
    assert_eq!(rt;
        read_all(rt.alloc(), &mut source, 99).err(),
        Some(ReadError::Fault)
    );

    let mut output = Vec::new(rt.alloc());
    let mut sink = StdSink::new(&mut output);
    assert_eq!(rt; write_all(&mut sink, TEXT), Ok(()));
    drop(sink);
    assert_eq!(rt; output.as_slice(), TEXT);
    assert_eq!(rt; write_all(&mut StdSink::new(Broken), TEXT), Err(Failed));

    // A slice that is full takes no byte.
    let mut full: [u8; 0] = [];
    assert_eq!(rt;
        write_all(&mut StdSink::new(full.as_mut_slice()), TEXT),
        Err(Failed)
    );
    Ok(())
}
