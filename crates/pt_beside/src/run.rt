//! The run of commands, with the branches of their forks beside each other.

ghost use Rattle.std.specs.Prelude.{◌≡◌, ◌+◌, ◌<◌, ◌^◌, length, true, None, IfOk, OnOk};
ghost use Rattle.std.specs.Thread.{IsSync};
ghost use Rattle.pt_model.specs.Cuts.{cut_refusal};
ghost use Rattle.pt_forks.specs.Running.{IsFront};
ghost use Rattle.pt_beside.specs.Places.{StaysIn, IsSound};
ghost use Rattle.pt_beside.specs.Running.{IsBodyIn, IsBodyOf, Ran, IsNoted, HasPassed, AreMerged, HasForked, IsRun};

use crate::part::Part;
use pt_laws::printed_uncovered;
use pt_model::{Answer, Command, ForkAnswer, Reply, What};
use pt_num::Memory;
use pt_script::branches;
use std::alloc::Global;
use std::thread::{Threads, join};

/// A branch of a fork: its commands, and the line that opens it.
#[derive(Clone, Copy)]
struct Branch<'a> {
    line: u32,
    commands: &'a [Command],
}

/// Runs commands over a part of a space, the branches of each fork beside each other, and answers the part and the replies.
/// `Memory` where there is none for an answer or for the replies.
pub fn run_parts<G: Sync, P: Part<G> + Send, R: Threads + Sync>(
    rt: &R,
    alloc: Global,
    part: P,
    commands: &[Command],
    gate: &G,
) -> (P, Result<Vec<Reply>, Memory>)
    requires body { IsBodyOf (P.place part) commands.now }
    ensures stays { StaysIn (P.place part) (P.place result.0) }
    ensures run { IfOk result.1 (λ replies. IsRun P.told (P.place part) (P.place result.0) commands.now replies.items) }
{
    printed_uncovered();
    run_commands(rt, alloc, part, commands, gate)
}

/// Runs commands in turn.
#[cycle(run_commands)]
fn run_commands<G: Sync, P: Part<G> + Send, R: Threads + Sync>(
    rt: &R,
    alloc: Global,
    part: P,
    commands: &[Command],
    gate: &G,
) -> (P, Result<Vec<Reply>, Memory>)
    requires body { IsBodyOf (P.place part) commands.now }
    ensures stays { StaysIn (P.place part) (P.place result.0) }
    ensures run { IfOk result.1 (λ replies. Ran P.told (P.place part) (P.place result.0) commands.now replies.items) }
{
    let mut replies = Vec::new(alloc);
    let mut part = part;
    let mut place: usize = 0;
    while place < commands.len() {
        let (behind, passed) = run_first(rt, alloc, part, &commands[place..], gate, &mut replies);
        part = behind;
        match passed {
            Ok(count) => place += count,
            Err(Memory) => return (part, Err(Memory)),
        }
    }
    (part, Ok(replies))
}

/// Runs the first command, with its branches where it is a fork, and answers how many lines it has.
#[cycle(run_commands)]
fn run_first<G: Sync, P: Part<G> + Send, R: Threads + Sync>(
    rt: &R,
    alloc: Global,
    part: P,
    commands: &[Command],
    gate: &G,
    replies: &mut Vec<Reply>,
) -> (P, Result<usize, Memory>)
    requires body { IsBodyOf (P.place part) commands.now }
    requires some { 0 < length commands.now }
    ensures stays { StaysIn (P.place part) (P.place result.0) }
    ensures run { IfOk result.1 (HasPassed P.told (P.place part) (P.place result.0) commands.now replies.old.items replies.new.items) }
{
    let command = commands[0];
    if let What::Fork { at } = command.what {
        return run_fork(rt, alloc, part, command.line, at, commands, gate, replies);
    }
    let (part, answered) = part.answer(alloc, command.what);
    (part, note(command.line, answered, replies))
}

/// Appends the reply to a call, which is one line.
fn note(
    line: u32,
    answered: Result<Answer, Memory>,
    replies: &mut Vec<Reply>,
) -> Result<usize, Memory>
    ensures { IfOk result (IsNoted line answered replies.old.items replies.new.items) }
{
    let answer = answered?;
    replies.push(Reply { line, answer })?;
    Ok(1)
}

/// Runs a fork, and answers how many lines it has.
#[cycle(run_commands)]
fn run_fork<G: Sync, P: Part<G> + Send, R: Threads + Sync>(
    rt: &R,
    alloc: Global,
    part: P,
    line: u32,
    at: u64,
    commands: &[Command],
    gate: &G,
    replies: &mut Vec<Reply>,
) -> (P, Result<usize, Memory>)
    requires body { IsBodyOf (P.place part) commands.now }
    requires front { IsFront commands.now line at }
    ensures stays { StaysIn (P.place part) (P.place result.0) }
    ensures run { IfOk result.1 (HasPassed P.told (P.place part) (P.place result.0) commands.now replies.old.items replies.new.items) }
{
    let (middle, last) = branches(commands);
    let (part, answer) = part.cut_at(at);
    let Ok(()) = replies.push(Reply {
        line,
        answer: Answer::Fork(answer),
    }) else {
        return (part, Err(Memory));
    };
    if let ForkAnswer::Forked = answer {
        let left = Branch {
            line,
            commands: &commands[1..middle],
        };
        let right = Branch {
            line: commands[middle].line,
            commands: &commands[middle + 1..last],
        };
        let (joined, ran) = run_branches(rt, alloc, part, at, left, right, gate, replies);
        return match ran {
            Ok(()) => (joined, Ok(last + 1)),
            Err(Memory) => (joined, Err(Memory)),
        };
    }
    (part, Ok(last + 1))
}

/// Runs the branches of a fork on the two parts of a part that can be cut, beside each other, and appends their replies,
/// those of the left one first. The left part has the frames of its need, or all that could be gathered.
#[cycle(run_commands)]
fn run_branches<G: Sync, P: Part<G> + Send, R: Threads + Sync>(
    rt: &R,
    alloc: Global,
    part: P,
    at: u64,
    left: Branch<'_>,
    right: Branch<'_>,
    gate: &G,
    replies: &mut Vec<Reply>,
) -> (P, Result<(), Memory>)
    requires sound { IsSound (P.place part) }
    requires admitted { cut_refusal (P.place part).machine.layout (P.place part).book at ≡ None }
    requires left { IsBodyIn true left.commands.now }
    requires right { IsBodyIn true right.commands.now }
    requires few { length left.commands.now + length right.commands.now < 2 ^ 32 }
    ensures stays { StaysIn (P.place part) (P.place result.0) }
    ensures run { OnOk result.1 (HasForked P.told (P.place part) (P.place result.0) at left.entry.commands.now right.entry.commands.now replies.old.items replies.new.items) }
{
    let (opened, first) = (left.line, left.commands);
    let (turned, second) = (right.line, right.commands);
    let need = part.need_of(first);
    let both = need + part.need_of(second);
    let (part, held) = part.gather(both);
    let (before, after) = part.split(at, need.min(u64::from(held)) as u32);
    let ((before, one), (after, two)) = join(
        rt,
        || -> (P, Result<Vec<Reply>, Memory>)
            requires sync { IsSync R.row }
            requires body { IsBodyOf (P.place before) first.now }
            ensures stays { StaysIn (P.place before) (P.place result.0) }
            ensures run { IfOk result.1 (λ replies. Ran P.told (P.place before) (P.place result.0) first.entry.now replies.items) }
        { run_branch(rt, alloc, before, opened, first, gate) },
        || -> (P, Result<Vec<Reply>, Memory>)
            requires sync { IsSync R.row }
            requires body { IsBodyOf (P.place after) second.now }
            ensures stays { StaysIn (P.place after) (P.place result.0) }
            ensures run { IfOk result.1 (λ replies. Ran P.told (P.place after) (P.place result.0) second.entry.now replies.items) }
        { run_branch(rt, alloc, after, turned, second, gate) },
    );
    (before.join(after), merge(one, two, replies))
}

/// Appends the replies of both branches.
fn merge(
    left: Result<Vec<Reply>, Memory>,
    right: Result<Vec<Reply>, Memory>,
    replies: &mut Vec<Reply>,
) -> Result<(), Memory>
    ensures { OnOk result (AreMerged left right replies.old.items replies.new.items) }
{
    let mut left = left?;
    let mut right = right?;
    replies.append(&mut left)?;
    replies.append(&mut right)?;
    Ok(())
}

/// Passes the gate, and runs a branch.
#[cycle(run_commands)]
fn run_branch<G: Sync, P: Part<G> + Send, R: Threads + Sync>(
    rt: &R,
    alloc: Global,
    part: P,
    line: u32,
    commands: &[Command],
    gate: &G,
) -> (P, Result<Vec<Reply>, Memory>)
    requires body { IsBodyOf (P.place part) commands.now }
    ensures stays { StaysIn (P.place part) (P.place result.0) }
    ensures run { IfOk result.1 (λ replies. Ran P.told (P.place part) (P.place result.0) commands.now replies.items) }
{
    let part = part.pass(gate, line);
    run_commands(rt, alloc, part, commands, gate)
}
