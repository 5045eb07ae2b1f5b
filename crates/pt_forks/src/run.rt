//! The run of commands, with the branches of their forks.

ghost use Rattle.std.specs.Prelude.{◌≡◌, ◌∷◌, ◌<◌, length, None, IfOk, OnOk};
ghost use Rattle.pt_model.specs.Cuts.{cut_refusal};
ghost use Rattle.pt_forks.specs.Places.{StaysIn, cut_by};
ghost use Rattle.pt_forks.specs.Running.{AddsTold, IsOneBody, IsRun, IsFront, HasPassed, HasRun};

use crate::owner::Owner;
use pt_model::{Answer, Command, ForkAnswer, Reply, What};
use pt_num::Memory;
use pt_script::{Side, branches};
use std::alloc::Global;

/// Runs commands in the present span, and appends the replies.
#[cycle(run_part)]
pub fn run_part<H: Owner>(
    alloc: Global,
    owner: &mut H,
    commands: &[Command],
    replies: &mut Vec<Reply>,
) -> Result<(), Memory>
    requires body { IsOneBody commands.now (H.place owner.old).cuts }
    ensures stays { StaysIn (H.place owner.old) (H.place owner.new) }
    ensures run { OnOk result (IsRun (H.place owner.old) (H.place owner.new) commands.now replies.old.items replies.new.items) }
    ensures told { OnOk result (AddsTold H.told replies.old.items replies.new.items) }
{
    let mut place: usize = 0;
    while place < commands.len() {
        place += run_first(alloc, owner, &commands[place..], replies)?;
    }
    Ok(())
}

/// Runs the first command, with its branches where it is a fork, and answers how many lines it has.
#[cycle(run_part)]
fn run_first<H: Owner>(
    alloc: Global,
    owner: &mut H,
    commands: &[Command],
    replies: &mut Vec<Reply>,
) -> Result<usize, Memory>
    requires body { IsOneBody commands.now (H.place owner.old).cuts }
    requires some { 0 < length commands.now }
    ensures stays { StaysIn (H.place owner.old) (H.place owner.new) }
    ensures run { IfOk result (HasPassed (H.place owner.old) (H.place owner.new) commands.now replies.old.items replies.new.items) }
    ensures told { OnOk result (AddsTold H.told replies.old.items replies.new.items) }
{
    let command = commands[0];
    if let What::Fork { at } = command.what {
        return run_fork(alloc, owner, command.line, at, commands, replies);
    }
    let answer = owner.answer(alloc, command.what)?;
    replies.push(Reply {
        line: command.line,
        answer,
    })?;
    Ok(1)
}

/// Runs a fork, and answers how many lines it has.
#[cycle(run_part)]
fn run_fork<H: Owner>(
    alloc: Global,
    owner: &mut H,
    line: u32,
    at: u64,
    commands: &[Command],
    replies: &mut Vec<Reply>,
) -> Result<usize, Memory>
    requires body { IsOneBody commands.now (H.place owner.old).cuts }
    requires front { IsFront commands.now line at }
    ensures stays { StaysIn (H.place owner.old) (H.place owner.new) }
    ensures run { IfOk result (HasPassed (H.place owner.old) (H.place owner.new) commands.now replies.old.items replies.new.items) }
    ensures told { OnOk result (AddsTold H.told replies.old.items replies.new.items) }
{
    let (middle, last) = branches(commands);
    let answer = owner.cut_at(at);
    replies.push(Reply {
        line,
        answer: Answer::Fork(answer),
    })?;
    if let ForkAnswer::Forked = answer {
        run_branch(alloc, owner, at, Side::Left, &commands[1..middle], replies)?;
        run_branch(
            alloc,
            owner,
            at,
            Side::Right,
            &commands[middle + 1..last],
            replies,
        )?;
    }
    Ok(last + 1)
}

/// Runs a branch in its part of the span.
#[cycle(run_part)]
fn run_branch<H: Owner>(
    alloc: Global,
    owner: &mut H,
    at: u64,
    side: Side,
    commands: &[Command],
    replies: &mut Vec<Reply>,
) -> Result<(), Memory>
    requires admitted { cut_refusal (H.place owner.old).machine.layout (H.place owner.old).book at ≡ None }
    requires few { length (H.place owner.old).cuts < 16 }
    requires body { IsOneBody commands.now (cut_by (H.place owner.old) at ∷ (H.place owner.old).cuts) }
    ensures stays { StaysIn (H.place owner.old) (H.place owner.new) }
    ensures run { OnOk result (HasRun (H.place owner.old) (H.place owner.new) at side commands.now replies.old.items replies.new.items) }
    ensures told { OnOk result (AddsTold H.told replies.old.items replies.new.items) }
{
    owner.narrow(at, side);
    let result = run_part(alloc, owner, commands, replies);
    owner.widen();
    result
}
