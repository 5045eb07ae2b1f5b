//! The summary of the replies to a made script.

ghost use Rattle.std.specs.Prelude.{◌≡◌, ◌+◌, ◌*◌, ◌++◌, ◌^◌, ◌≤◌, IfOk, OnOk, codes, length};
ghost use Rattle.pt_model.specs.Numbers.{decimal};
ghost use Rattle.pt_script.specs.Scripts.{lines_in};
ghost use Rattle.pt_made.specs.Summary.{census_line, census_lines, count_of, head_line, is_counted, lookups_line, maps_line, pages_of, pages_unmapped, summary, unmaps_line};

use pt_model::{Answer, LookupAnswer, MapAnswer, Reply, UnmapAnswer};
use pt_num::Memory;
use pt_script::{Script, name_text};
use pt_stream::{push_census, push_dec_behind};
use std::alloc::Global;

/// The kinds of answers that are counted.
#[derive(Clone, Copy, Debug, PartialEq, Eq)]
pub enum Counted {
    Mapped,
    Occupied,
    Unmapped,
    Cut,
    Found,
    Nothing,
}

/// Whether an answer is one of a kind.
fn is_counted(kind: Counted, answer: &Answer) -> bool
    ensures { result ≡ is_counted kind answer.now }
{
    match (kind, answer) {
        (Counted::Mapped, Answer::Map(MapAnswer::Mapped)) => true,
        (Counted::Occupied, Answer::Map(MapAnswer::Occupied { .. })) => true,
        (Counted::Unmapped, Answer::Unmap(UnmapAnswer::Unmapped { .. })) => true,
        (Counted::Cut, Answer::Unmap(UnmapAnswer::Cuts { .. })) => true,
        (Counted::Found, Answer::Lookup(LookupAnswer::Found { .. })) => true,
        (Counted::Nothing, Answer::Lookup(LookupAnswer::Nothing)) => true,
        _ => false,
    }
}

/// How many replies are of a kind.
fn count_of(kind: Counted, replies: &[Reply]) -> u64
    ensures { result ≡ count_of kind replies.now }
{
    let mut count = 0;
    for reply in replies {
        count += u64::from(is_counted(kind, &reply.answer));
    }
    count
}

/// The pages that an unmap removed.
fn pages_of(answer: &Answer) -> u64
    ensures { result ≡ pages_of answer.now }
{
    match answer {
        Answer::Unmap(UnmapAnswer::Unmapped { pages }) => *pages,
        _ => 0,
    }
}

/// The pages that all unmaps removed.
fn pages_unmapped(replies: &[Reply]) -> u128
    ensures { result ≡ pages_unmapped replies.now }
{
    let mut pages = 0;
    for reply in replies {
        pages += u128::from(pages_of(&reply.answer));
    }
    pages
}

/// How many lines a script has.
fn line_count(script: &Script) -> u64
    ensures { result ≡ length (lines_in script.now) }
{
    (script.body.commands().len() + script.tail.asks().len()) as u64 + 5
}

fn push_head(out: &mut Vec<u8>, number: u64, script: &Script) -> Result<(), Memory>
    ensures { OnOk result (out.new.items ≡ out.old.items ++ head_line number script.now) }
{
    push_dec_behind(out, b"made ", number)?;
    out.extend_from_slice(b" format ")?;
    out.extend_from_slice(name_text(script.format))?;
    push_dec_behind(out, b" lines ", line_count(script))?;
    out.extend_from_slice(b"\n")?;
    Ok(())
}

fn push_maps(out: &mut Vec<u8>, replies: &[Reply]) -> Result<(), Memory>
    ensures { OnOk result (out.new.items ≡ out.old.items ++ maps_line replies.now) }
{
    push_dec_behind(out, b"maps ok ", count_of(Counted::Mapped, replies))?;
    push_dec_behind(out, b" occupied ", count_of(Counted::Occupied, replies))?;
    out.extend_from_slice(b"\n")?;
    Ok(())
}

/// Appends the spelling of a number of any size.
fn push_sum(out: &mut Vec<u8>, alloc: Global, sum: u128) -> Result<(), Memory>
    ensures { OnOk result (out.new.items ≡ out.old.items ++ decimal sum) }
{
    let text = format!(in alloc; "{sum}")?;
    out.extend_from_slice(text.as_bytes())?;
    Ok(())
}

fn push_unmaps(out: &mut Vec<u8>, alloc: Global, replies: &[Reply]) -> Result<(), Memory>
    ensures { OnOk result (out.new.items ≡ out.old.items ++ unmaps_line replies.now) }
{
    push_dec_behind(out, b"unmaps ok ", count_of(Counted::Unmapped, replies))?;
    push_dec_behind(out, b" cuts ", count_of(Counted::Cut, replies))?;
    out.extend_from_slice(b" pages ")?;
    push_sum(out, alloc, pages_unmapped(replies))?;
    out.extend_from_slice(b"\n")?;
    Ok(())
}

fn push_lookups(out: &mut Vec<u8>, replies: &[Reply]) -> Result<(), Memory>
    ensures { OnOk result (out.new.items ≡ out.old.items ++ lookups_line replies.now) }
{
    push_dec_behind(out, b"lookups found ", count_of(Counted::Found, replies))?;
    push_dec_behind(out, b" none ", count_of(Counted::Nothing, replies))?;
    out.extend_from_slice(b"\n")?;
    Ok(())
}

/// Appends the line of a census, where the answer is one.
fn push_census_line(out: &mut Vec<u8>, answer: &Answer) -> Result<(), Memory>
    ensures { OnOk result (out.new.items ≡ out.old.items ++ census_line answer.now) }
{
    if let Answer::Census(census) = answer {
        push_census(out, *census)?;
        out.extend_from_slice(b"\n")?;
    }
    Ok(())
}

fn push_census_lines(out: &mut Vec<u8>, replies: &[Reply]) -> Result<(), Memory>
    ensures { OnOk result (out.new.items ≡ out.old.items ++ census_lines replies.now) }
{
    for reply in replies {
        push_census_line(out, &reply.answer)?;
    }
    Ok(())
}

/// The summary of the replies to a made script, in five lines: the number, the format and how many lines the script has; how
/// many maps were made and how many met a mapped page; how many unmaps were made, how many cut a block, and the pages that
/// were removed; how many lookups found a page and how many none; and the census.
pub fn summary_text(
    alloc: Global,
    number: u64,
    script: &Script,
    replies: &[Reply],
) -> Result<Vec<u8>, Memory>
    ensures { IfOk result (λ text. text.items ≡ summary number script.now replies.now) }
{
    let mut out = Vec::new(alloc);
    push_head(&mut out, number, script)?;
    push_maps(&mut out, replies)?;
    push_unmaps(&mut out, alloc, replies)?;
    push_lookups(&mut out, replies)?;
    push_census_lines(&mut out, replies)?;
    Ok(out)
}
