//! The program against the slow book of the definitions: each command, forks too, and what is asked behind `close`.

ghost use Rattle.std.specs.Prelude.{◌<◌, All, IfOk, IfSome, IsTrue};
ghost use Rattle.pt_book.specs.Spaces.{IsStart};
ghost use Rattle.pt_reply.specs.Telling.{CutsLegalBlock, IsListable, IsTellable, NamesLegalBlock, has_small_blocks};

use crate::status::Status;
use crate::top::run;
use crate::words::Words;
use fmt_amdv1::AmdV1;
use fmt_riscv::RiscV;
use fmt_vmsa::Vmsa;
use fmt_vtdss::VtdSs;
use fmt_x86::X86;
use pt_book::ListBook;
use pt_format::{Format, page_under};
use pt_model::{
    Answer, Ask, AskWhat, Dump, ForkAnswer, LookupAnswer, MapAnswer, Name, Prot, Reply,
    UnmapAnswer, What,
};
use pt_reply::push_reply;
use pt_script::{Script, parse};
use pt_stream::{MemorySink, SureSource, push_dec, push_hex};
use std::alloc::Global;
use std::test::Fail;
use std::thread::Threads;

/// A format, by its name in a script and the log2 of the bytes of its pages, and numbers of frames to run scripts in.
/// The input space ends at `end`, which is 0 for `2^64`, and its last page begins at `last`; so for the outputs.
#[derive(Clone, Copy)]
pub(crate) struct FormatCase {
    pub name: &'static [u8],
    pub granule: u32,
    pub end: u64,
    pub last: u64,
    pub outputs_end: u64,
    pub last_output: u64,
    /// The bytes of a group of sixteen pages or more, of the lowest table, and of the one above.
    pub borders: [u64; 3],
    /// One, the fewest that map a page, and more.
    pub frames: [u32; 5],
}

/// The formats that run. Their frames are one, as many as the levels, two more than those, twice as many, and sixty.
pub(crate) const FORMATS: [FormatCase; 14] = [
    FormatCase {
        name: b"amdv1 levels 3",
        granule: 12,
        end: 0,
        last: 0xffff_ffff_ffff_f000,
        outputs_end: 0x10_0000_0000_0000,
        last_output: 0xf_ffff_ffff_f000,
        borders: [0x1_0000, 0x20_0000, 0x4000_0000],
        frames: [1, 3, 5, 6, 60],
    },
    FormatCase {
        name: b"amdv1 levels 4",
        granule: 12,
        end: 0,
        last: 0xffff_ffff_ffff_f000,
        outputs_end: 0x10_0000_0000_0000,
        last_output: 0xf_ffff_ffff_f000,
        borders: [0x1_0000, 0x20_0000, 0x4000_0000],
        frames: [1, 4, 6, 8, 60],
    },
    FormatCase {
        name: b"amdv1 levels 6",
        granule: 12,
        end: 0,
        last: 0xffff_ffff_ffff_f000,
        outputs_end: 0x10_0000_0000_0000,
        last_output: 0xf_ffff_ffff_f000,
        borders: [0x1_0000, 0x20_0000, 0x4000_0000],
        frames: [1, 6, 8, 12, 60],
    },
    FormatCase {
        name: b"vtdss3",
        granule: 12,
        end: 0x80_0000_0000,
        last: 0x7f_ffff_f000,
        outputs_end: 0x10_0000_0000_0000,
        last_output: 0xf_ffff_ffff_f000,
        borders: [0x1_0000, 0x20_0000, 0x4000_0000],
        frames: [1, 3, 5, 6, 60],
    },
    FormatCase {
        name: b"vtdss4",
        granule: 12,
        end: 0x1_0000_0000_0000,
        last: 0xffff_ffff_f000,
        outputs_end: 0x10_0000_0000_0000,
        last_output: 0xf_ffff_ffff_f000,
        borders: [0x1_0000, 0x20_0000, 0x4000_0000],
        frames: [1, 4, 6, 8, 60],
    },
    FormatCase {
        name: b"vtdss5",
        granule: 12,
        end: 0x200_0000_0000_0000,
        last: 0x1ff_ffff_ffff_f000,
        outputs_end: 0x10_0000_0000_0000,
        last_output: 0xf_ffff_ffff_f000,
        borders: [0x1_0000, 0x20_0000, 0x4000_0000],
        frames: [1, 5, 7, 10, 60],
    },
    FormatCase {
        name: b"x86-4",
        granule: 12,
        end: 0x8000_0000_0000,
        last: 0x7fff_ffff_f000,
        outputs_end: 0x10_0000_0000_0000,
        last_output: 0xf_ffff_ffff_f000,
        borders: [0x1_0000, 0x20_0000, 0x4000_0000],
        frames: [1, 4, 6, 8, 60],
    },
    FormatCase {
        name: b"x86-5",
        granule: 12,
        end: 0x100_0000_0000_0000,
        last: 0xff_ffff_ffff_f000,
        outputs_end: 0x10_0000_0000_0000,
        last_output: 0xf_ffff_ffff_f000,
        borders: [0x1_0000, 0x20_0000, 0x4000_0000],
        frames: [1, 5, 7, 10, 60],
    },
    FormatCase {
        name: b"vmsa4",
        granule: 12,
        end: 0x1_0000_0000_0000,
        last: 0xffff_ffff_f000,
        outputs_end: 0x1_0000_0000_0000,
        last_output: 0xffff_ffff_f000,
        borders: [0x1_0000, 0x20_0000, 0x4000_0000],
        frames: [1, 4, 6, 8, 60],
    },
    FormatCase {
        name: b"vmsa16",
        granule: 14,
        end: 0x1_0000_0000_0000,
        last: 0xffff_ffff_c000,
        outputs_end: 0x1_0000_0000_0000,
        last_output: 0xffff_ffff_c000,
        borders: [0x20_0000, 0x200_0000, 0x10_0000_0000],
        frames: [1, 4, 6, 8, 60],
    },
    FormatCase {
        name: b"vmsa64",
        granule: 16,
        end: 0x1_0000_0000_0000,
        last: 0xffff_ffff_0000,
        outputs_end: 0x1_0000_0000_0000,
        last_output: 0xffff_ffff_0000,
        borders: [0x20_0000, 0x2000_0000, 0x400_0000_0000],
        frames: [1, 3, 5, 6, 60],
    },
    FormatCase {
        name: b"sv39",
        granule: 12,
        end: 0x40_0000_0000,
        last: 0x3f_ffff_f000,
        outputs_end: 0x100_0000_0000_0000,
        last_output: 0xff_ffff_ffff_f000,
        borders: [0x1_0000, 0x20_0000, 0x4000_0000],
        frames: [1, 3, 5, 6, 60],
    },
    FormatCase {
        name: b"sv48",
        granule: 12,
        end: 0x8000_0000_0000,
        last: 0x7fff_ffff_f000,
        outputs_end: 0x100_0000_0000_0000,
        last_output: 0xff_ffff_ffff_f000,
        borders: [0x1_0000, 0x20_0000, 0x4000_0000],
        frames: [1, 4, 6, 8, 60],
    },
    FormatCase {
        name: b"sv57",
        granule: 12,
        end: 0x100_0000_0000_0000,
        last: 0xff_ffff_ffff_f000,
        outputs_end: 0x100_0000_0000_0000,
        last_output: 0xff_ffff_ffff_f000,
        borders: [0x1_0000, 0x20_0000, 0x4000_0000],
        frames: [1, 5, 7, 10, 60],
    },
];

fn looked_up<F: Format>(book: &ListBook<F>, va: u64) -> LookupAnswer {
    if book.is_outside(va) {
        return LookupAnswer::Outside;
    }
    match book.lookup(va) {
        Some((out, prot)) => LookupAnswer::Found { out, prot },
        None => LookupAnswer::Nothing,
    }
}

/// Maps in a book, in a space of so many frames.
fn mapped<F: Format>(
    book: &mut ListBook<F>,
    frames: u32,
    va: u64,
    pa: u64,
    len: u64,
    prot: Prot,
) -> Result<MapAnswer, Fail> {
    if let Some(refusal) = book.refusal(va, pa, len) {
        return Ok(refusal);
    }
    if book.is_short(frames, va, pa, len, prot)? {
        return Ok(MapAnswer::Frames);
    }
    book.map(va, pa, len, prot)?;
    Ok(MapAnswer::Mapped)
}

/// Takes a range away in a book.
fn unmapped<F: Format>(book: &mut ListBook<F>, va: u64, len: u64) -> Result<UnmapAnswer, Fail>
    requires small { IsTrue (has_small_blocks F.layout) }
    ensures { IfOk result (NamesLegalBlock F.layout) }
{
    if let Some(refusal) = book.unmap_refusal(va, len) {
        return Ok(refusal);
    }
    let pages = u64::try_from(book.unmap(va, len)?)?;
    Ok(UnmapAnswer::Unmapped { pages })
}

/// What a book lists of its span.
fn dumped<F: Format>(alloc: Global, book: &ListBook<F>) -> Result<Dump, Fail>
    requires small { IsTrue (has_small_blocks F.layout) }
    ensures { IfOk result (λ dump. All (IsListable F.layout) dump.lowest) }
{
    Ok(book.dump(alloc)?)
}

/// A fork that is open: it was refused, or the span from page `first` to before page `end` was cut at page `at`.
#[derive(Clone, Copy)]
enum Open {
    Refused,
    Cut { first: u64, at: u64, end: u64 },
}

/// Whether the commands here are answered: no open fork was refused.
fn is_running(forks: &[Open]) -> bool {
    !forks.iter().any(|fork| matches!(fork, Open::Refused))
}

/// Turns a book to the pages from `first` to before `end`.
fn turn<F: Format>(book: &mut ListBook<F>, first: u64, end: u64) -> Result<(), Fail> {
    if first > end || end > 1 << (F::INPUT - F::GRANULE) {
        return Err(Fail::new("no such span"));
    }
    book.stand_in(first, end);
    Ok(())
}

/// Opens a fork where the commands are answered. One that isn't refused turns the book to the pages before the cut.
fn forked<F: Format>(
    book: &mut ListBook<F>,
    forks: &mut Vec<Open>,
    at: u64,
) -> Result<ForkAnswer, Fail>
    requires small { IsTrue (has_small_blocks F.layout) }
    ensures { IfOk result (CutsLegalBlock F.layout) }
{
    if let Some(refusal) = book.cut_refusal(at) {
        forks.push(Open::Refused)?;
        return Ok(refusal);
    }
    let span = book.span();
    let at = page_under::<F>(at);
    let first = span.first;
    let end = first.wrapping_add(span.count);
    turn(book, first, at)?;
    forks.push(Open::Cut { first, at, end })?;
    Ok(ForkAnswer::Forked)
}

/// Opens, parts or ends a fork that isn't answered: `with` turns the book to the pages from the cut on, and `end` to
/// the whole span again.
fn passed<F: Format>(
    book: &mut ListBook<F>,
    forks: &mut Vec<Open>,
    what: What,
) -> Result<(), Fail> {
    match what {
        What::Fork { .. } => forks.push(Open::Refused)?,
        What::With => {
            if let Some(Open::Cut { at, end, .. }) = forks.last().copied() {
                turn(book, at, end)?;
            }
        }
        What::End => {
            if let Some(Open::Cut { first, end, .. }) = forks.pop() {
                turn(book, first, end)?;
            }
        }
        _ => {}
    }
    Ok(())
}

/// The book's answer to a command in a space of so many frames, where it has one.
fn answered<F: Format>(
    alloc: Global,
    book: &mut ListBook<F>,
    forks: &mut Vec<Open>,
    frames: u32,
    what: What,
) -> Result<Option<Answer>, Fail>
    requires small { IsTrue (has_small_blocks F.layout) }
    ensures { IfOk result (λ answer. IfSome answer (IsTellable F.layout)) }
{
    if !is_running(forks) {
        passed(book, forks, what)?;
        return Ok(None);
    }
    Ok(Some(match what {
        What::Map { va, pa, len, prot } => Answer::Map(mapped(book, frames, va, pa, len, prot)?),
        What::Unmap { va, len } => Answer::Unmap(unmapped(book, va, len)?),
        What::Lookup { va } => Answer::Lookup(looked_up(book, va)),
        What::Dump => Answer::Dump(dumped(alloc, book)?),
        What::Release => Answer::Release,
        What::Fork { at } => Answer::Fork(forked(book, forks, at)?),
        What::With | What::End => {
            passed(book, forks, what)?;
            return Ok(None);
        }
    }))
}

/// Appends what a book answers to what is asked of it.
fn push_asked<F: Format>(text: &mut Vec<u8>, book: &ListBook<F>, asks: &[Ask]) -> Result<(), Fail> {
    for ask in asks {
        let answer = match ask.what {
            AskWhat::Walk { va } => Answer::Walk(book.walk(va)),
            AskWhat::Census => match book.census() {
                Some(census) => Answer::Census(census),
                None => return Err(Fail::new("pages past 64 bits")),
            },
        };
        let line = ask.line;
        push_reply::<F>(text, &Reply { line, answer })?;
    }
    Ok(())
}

/// The text of the book's answers to a script: to its commands, and to what is asked behind them.
fn book_replies<F: Format>(alloc: Global, script: &Script) -> Result<Vec<u8>, Fail>
    requires start { IsStart F.layout script.now.levels }
    requires small { IsTrue (has_small_blocks F.layout) }
{
    let mut book = ListBook::<F>::new(alloc, script.levels);
    let mut forks = Vec::new(alloc);
    let mut text = Vec::new(alloc);
    for command in script.body.commands() {
        let answer = answered(alloc, &mut book, &mut forks, script.frames, command.what)?;
        let line = command.line;
        if let Some(answer) = answer {
            push_reply::<F>(&mut text, &Reply { line, answer })?;
        }
    }
    push_asked(&mut text, &book, script.tail.asks())?;
    Ok(text)
}

fn replies_by_book(alloc: Global, script: &Script) -> Result<Vec<u8>, Fail> {
    match script.format {
        Name::AmdV1 => book_replies::<AmdV1>(alloc, script),
        Name::VtdSs3 => book_replies::<VtdSs<3>>(alloc, script),
        Name::VtdSs4 => book_replies::<VtdSs<4>>(alloc, script),
        Name::VtdSs5 => book_replies::<VtdSs<5>>(alloc, script),
        Name::X86L4 => book_replies::<X86<4>>(alloc, script),
        Name::X86L5 => book_replies::<X86<5>>(alloc, script),
        Name::Vmsa4 => book_replies::<Vmsa<12>>(alloc, script),
        Name::Vmsa16 => book_replies::<Vmsa<14>>(alloc, script),
        Name::Vmsa64 => book_replies::<Vmsa<16>>(alloc, script),
        Name::Sv39 => book_replies::<RiscV<3>>(alloc, script),
        Name::Sv48 => book_replies::<RiscV<4>>(alloc, script),
        Name::Sv57 => book_replies::<RiscV<5>>(alloc, script),
    }
}

/// The most bytes of a test's replies.
const ROOM: usize = 0x4_0000;

/// What the program puts for a script with these words.
fn put_for<R: Threads + Sync>(
    rt: &R,
    alloc: Global,
    words: &Words,
    text: &[u8],
) -> Result<(Status, MemorySink), Fail> {
    let mut source = SureSource::new(Vec::from_slice(alloc, text)?);
    let mut sink = MemorySink::new(alloc, ROOM, ROOM, Vec::new(alloc))?;
    let status = run(rt, alloc, words, &mut source, &mut sink, &pt_run::Open);
    Ok((status, sink))
}

/// Whether the program puts what the book answers to a script: with its forks in turn, or, where it has none, on a shared space.
fn agree<R: Threads + Sync>(rt: &R, alloc: Global, text: &[u8]) -> Result<bool, Fail> {
    let script = parse(alloc, text)?;
    let expected = replies_by_book(alloc, &script)?;
    let mut words = Words::new(alloc);
    words.push("run")?;
    if script.body.commands().iter().any(|c| c.what == What::With) {
        words.push("--plain")?;
    }
    let (status, sink) = put_for(rt, alloc, &words, text)?;
    Ok(status == Status::Done && !expected.is_empty() && sink.bytes() == expected.as_slice())
}

/// What a command asks for, where its numbers are those of pages of 4 KiB and the format's are `2^shift` times as large.
fn scaled(what: What, shift: u32) -> What
    requires { shift < 64 }
{
    match what {
        What::Map { va, pa, len, prot } => What::Map {
            va: va << shift,
            pa: pa << shift,
            len: len << shift,
            prot,
        },
        What::Unmap { va, len } => What::Unmap {
            va: va << shift,
            len: len << shift,
        },
        What::Lookup { va } => What::Lookup { va: va << shift },
        What::Fork { at } => What::Fork { at: at << shift },
        other => other,
    }
}

/// The lines of commands on pages of 4 KiB, for pages that are `2^shift` times as large.
pub(crate) fn scaled_lines(alloc: Global, lines: &[u8], shift: u32) -> Result<Vec<u8>, Fail>
    requires { shift < 64 }
{
    let mut text = Vec::from_slice(alloc, b"format vtdss5\nframes 1\nhold 0\n")?;
    text.extend_from_slice(lines)?;
    text.extend_from_slice(b"close\nend\n")?;
    let script = parse(alloc, &text)?;
    let mut out = Vec::new(alloc);
    for command in script.body.commands() {
        push_line(&mut out, scaled(command.what, shift))?;
    }
    Ok(out)
}

/// What is asked behind `close` in each script, besides the census and the walk of the last page.
const ASKS: &[u8] =
    b"walk 0x0\nwalk 0x1234\nwalk 0x2fff\nwalk 0x8000\nwalk 0xffff\nwalk 0x10000\nwalk 0x1f000\n\
    walk 0x1fffff\nwalk 0x200000\nwalk 0x2ff001\nwalk 0x300000\nwalk 0x3ff000\nwalk 0x400000\nwalk 0x600abc\n\
    walk 0x800000\nwalk 0x1000000\nwalk 0x3ffff000\nwalk 0x40000000\nwalk 0x40200000\nwalk 0x7ffff000\n\
    walk 0x80000000\nwalk 0xc0000000\nwalk 0x8000000000\nwalk 0x7fffffffffff\nwalk 0xffff800000000000\n\
    walk 0xffffffffffffffff\ncensus\n";

/// Whether the program and the book agree on these lines, in so many frames of which half are held, and on what is asked
/// behind them.
pub(crate) fn agree_in<R: Threads + Sync>(
    rt: &R,
    alloc: Global,
    format: FormatCase,
    frames: u32,
    lines: &[u8],
) -> Result<bool, Fail> {
    let mut text = Vec::from_slice(alloc, b"format ")?;
    text.extend_from_slice(format.name)?;
    text.extend_from_slice(b"\nframes ")?;
    push_dec(&mut text, u64::from(frames))?;
    text.extend_from_slice(b"\nhold ")?;
    push_dec(&mut text, u64::from(frames / 2))?;
    text.push(b'\n')?;
    text.extend_from_slice(lines)?;
    text.extend_from_slice(b"close\ncensus\nwalk ")?;
    push_hex(&mut text, format.last)?;
    text.push(b'\n')?;
    text.extend_from_slice(ASKS)?;
    text.extend_from_slice(b"end\n")?;
    agree(rt, alloc, &text)
}

/// Whether the program and the book agree on these lines of pages of 4 KiB, or of the format's pages in their place, in
/// each number of frames of a format.
fn agree_in_frames<R: Threads + Sync>(
    rt: &R,
    alloc: Global,
    format: FormatCase,
    lines: &[u8],
) -> Result<bool, Fail> {
    let lines = scaled_lines(alloc, lines, format.granule.saturating_sub(12) % 64)?;
    for frames in format.frames {
        if !agree_in(rt, alloc, format, frames, &lines)? {
            return Ok(false);
        }
    }
    Ok(true)
}

/// The same, in each format.
pub(crate) fn agree_everywhere<R: Threads + Sync>(
    rt: &R,
    alloc: Global,
    lines: &[u8],
) -> Result<bool, Fail> {
    for format in FORMATS {
        if !agree_in_frames(rt, alloc, format, lines)? {
            return Ok(false);
        }
    }
    Ok(true)
}

/// Input addresses: whole ones and others, in the spaces and at their ends, and past them.
const PLACES: [u64; 8] = [
    0x0,
    0x1000,
    0x1234,
    0x3fff_f000,
    0x7f_ffff_f000,
    0x80_0000_0000,
    0x7fff_ffff_f000,
    0xffff_8000_0000_0000,
];

/// Output addresses: whole ones and others, the last page, and the one past it.
const OUTPUTS: [u64; 5] = [
    0x0,
    0x20_0000,
    0x3008,
    0xf_ffff_ffff_f000,
    0x10_0000_0000_0000,
];

/// Lengths: a page and more, a large page and more, none, and a part of a page.
const LENGTHS: [u64; 8] = [
    0x1000, 0x2000, 0x1f_f000, 0x20_0000, 0x20_1000, 0x1000, 0x0, 0x10,
];

/// What the line of this number asks for.
fn mixed(line: u32) -> What {
    let mix = u64::from(line).wrapping_mul(0x9e37_79b9_7f4a_7c15);
    let va = PLACES[(mix >> 40) as usize % 8];
    if mix >> 60 < 4 {
        return What::Lookup {
            va: va ^ (mix >> 32 & 0x7ff),
        };
    }
    if mix >> 60 < 8 {
        return What::Unmap {
            va,
            len: LENGTHS[(mix >> 36) as usize % 8],
        };
    }
    What::Map {
        va,
        pa: OUTPUTS[(mix >> 48) as usize % 5],
        len: LENGTHS[(mix >> 24) as usize % 8],
        prot: if mix >> 59 & 1 == 0 {
            Prot::Read
        } else {
            Prot::ReadWrite
        },
    }
}

/// Appends a line of one address.
fn push_at(out: &mut Vec<u8>, word: &[u8], at: u64) -> Result<(), Fail> {
    out.extend_from_slice(word)?;
    push_hex(out, at)?;
    out.push(b'\n')?;
    Ok(())
}

/// Appends the line of a command.
pub(crate) fn push_line(out: &mut Vec<u8>, what: What) -> Result<(), Fail> {
    match what {
        What::Map { va, pa, len, prot } => {
            out.extend_from_slice(b"map ")?;
            push_hex(out, va)?;
            out.push(b' ')?;
            push_hex(out, pa)?;
            out.push(b' ')?;
            push_hex(out, len)?;
            out.extend_from_slice(match prot {
                Prot::Read => b" r\n",
                Prot::ReadWrite => b" rw\n",
            })?;
        }
        What::Unmap { va, len } => {
            out.extend_from_slice(b"unmap ")?;
            push_hex(out, va)?;
            out.push(b' ')?;
            push_hex(out, len)?;
            out.push(b'\n')?;
        }
        What::Lookup { va } => push_at(out, b"lookup ", va)?,
        What::Fork { at } => push_at(out, b"fork ", at)?,
        What::Dump => out.extend_from_slice(b"dump\n")?,
        What::Release => out.extend_from_slice(b"release\n")?,
        What::With => out.extend_from_slice(b"with\n")?,
        What::End => out.extend_from_slice(b"end\n")?,
    }
    Ok(())
}

#[test]
fn mixed_commands_are_answered_as_by_the_book(rt: HostRuntime) -> Result<(), Fail> {
    let mut lines = Vec::new(rt.alloc());
    for line in 4..124 {
        push_line(&mut lines, mixed(line))?;
    }
    for format in FORMATS {
        assert!(rt; agree_in(&rt, rt.alloc(), format, 16, &lines)?);
    }
    Ok(())
}
