//! The body of a made script, command by command.

ghost use Rattle.std.specs.Prelude.{◌≡◌, ℕ, ◌+◌, ◌*◌, ◌++◌, ◌∷◌, [], ◌<◌, ◌≤◌, ◌^◌, IfOk, OnOk, length};
ghost use Rattle.pt_model.specs.declared.command.What.TheVariants.{Fork, With, End};
ghost use Rattle.pt_made.specs.Draws.{behind, next_four};
ghost use Rattle.pt_made.specs.Made as Made;
ghost use Rattle.pt_made.specs.Made.{body_on, drawn_command, drawn_commands, inner_fork, numbered, state_before, what_by};

use crate::draws::Draws;
use pt_format::Format;
use pt_model::{Command, Prot, What};
use pt_num::Memory;
use std::alloc::Global;

/// How many pages a branch has.
fn region<F: Format>() -> u64
    ensures pages { result ≡ Made.region F.layout }
    ensures some { 0 < result }
    ensures few { result ≤ 2 ^ 15 }
{
    1 << (F::INDEX + 2)
}

/// How many pages are before those of the first branch.
fn margin<F: Format>() -> u64
    ensures pages { result ≡ Made.margin F.layout }
    ensures few { result ≤ 2 ^ 12 }
{
    1 << (F::INDEX - 1)
}

/// The first page of a branch.
fn first_of<F: Format>(branch: u64) -> u64
    requires { branch ≤ 4 }
    ensures page { result ≡ Made.first_of F.layout branch }
    ensures few { result < 2 ^ 18 }
{
    branch * region::<F>() + margin::<F>()
}

/// How many commands a branch has.
fn per_branch<F: Format>() -> u64
    ensures number { result ≡ Made.per_branch F.layout }
    ensures few { result ≤ 1000 }
{
    match F::GRANULE {
        12 => 1000,
        14 => 250,
        _ => 60,
    }
}

/// The bytes of so many pages.
fn bytes<F: Format>(pages: u64) -> u64
    requires { pages < 2 ^ 32 }
    ensures { result ≡ Made.bytes F.layout pages }
{
    pages << F::GRANULE
}

/// The page at which a command of a branch begins, by its second draw.
fn start_by<F: Format>(branch: u64, draw: u64) -> u64
    requires { branch ≤ 3 }
    ensures page { result ≡ Made.start_by F.layout branch draw }
    ensures within { result < Made.first_of F.layout (branch + 1) }
{
    first_of::<F>(branch) + draw % region::<F>()
}

/// How many pages a command has that begins at page `start`, by its third draw.
fn count_by_draw<F: Format>(branch: u64, start: u64, draw: u64) -> u64
    requires a_branch { branch ≤ 3 }
    requires within { start < Made.first_of F.layout (branch + 1) }
    ensures count { result ≡ Made.count_by_draw F.layout branch start draw }
    ensures few { result ≤ 2 ^ 16 }
{
    let most = first_of::<F>(branch + 1) - start;
    most.min(1 + draw % (1 << F::INDEX))
}

/// What a command asks for, by its first draw, its pages and its fourth draw.
fn what_by<F: Format>(kind: u64, start: u64, count: u64, draw: u64) -> What
    requires a_page { start < 2 ^ 18 }
    requires few { count ≤ 2 ^ 16 }
    ensures { result ≡ what_by F.layout kind start count draw }
{
    let va = bytes::<F>(start);
    let len = bytes::<F>(count);
    match kind % 4 {
        3 => What::Lookup { va },
        2 => What::Unmap { va, len },
        _ => What::Map {
            va,
            pa: bytes::<F>(start + (1 << 20) + draw % 2),
            len,
            prot: prot_by(draw),
        },
    }
}

/// What a map permits, by its fourth draw.
fn prot_by(draw: u64) -> Prot
    ensures { result ≡ Made.prot_by draw }
{
    if draw / 2 % 2 == 0 {
        Prot::ReadWrite
    } else {
        Prot::Read
    }
}

/// The next command of a branch.
fn draw_command<F: Format>(draws: &mut Draws, branch: u64) -> What
    requires { branch ≤ 3 }
    ensures command { result ≡ drawn_command F.layout branch draws.old.state }
    ensures state { draws.new.state ≡ next_four draws.old.state }
{
    let kind = draws.draw();
    let start = start_by::<F>(branch, draws.draw());
    let count = count_by_draw::<F>(branch, start, draws.draw());
    what_by::<F>(kind, start, count, draws.draw())
}

/// Appends a command with the number of its line, the first being 4.
fn push_command(commands: &mut Vec<Command>, what: What) -> Result<(), Memory>
    requires { length commands.old.items < 2 ^ 16 }
    ensures commands { OnOk result (commands.new.items ≡ commands.old.items ++ numbered (4 + length commands.old.items) (what ∷ [])) }
    ensures number { OnOk result (length commands.new.items ≡ length commands.old.items + 1) }
{
    let line = commands.len() as u32 + 4;
    commands.push(Command { line, what })?;
    Ok(())
}

/// Appends the commands of a branch.
fn push_branch<F: Format>(
    commands: &mut Vec<Command>,
    draws: &mut Draws,
    branch: u64,
) -> Result<(), Memory>
    requires a_branch { branch ≤ 3 }
    requires room { length commands.old.items < 2 ^ 15 }
    ensures commands { OnOk result (commands.new.items ≡ commands.old.items
        ++ numbered (4 + length commands.old.items) (drawn_commands F.layout branch (Made.per_branch F.layout) draws.old.state)) }
    ensures state { OnOk result (draws.new.state ≡ behind (Made.per_branch F.layout) draws.old.state) }
    ensures number { OnOk result (length commands.new.items ≤ length commands.old.items + 1000) }
{
    let count = per_branch::<F>();
    for _drawn in 0..count {
        let what = draw_command::<F>(draws, branch);
        push_command(commands, what)?;
    }
    Ok(())
}

/// Appends a fork of a branch and the next one.
fn push_fork<F: Format>(
    commands: &mut Vec<Command>,
    draws: &mut Draws,
    branch: u64,
) -> Result<(), Memory>
    requires a_branch { branch ≤ 2 }
    requires room { length commands.old.items < 2 ^ 14 }
    ensures commands { OnOk result ((number : ℕ) → draws.old.state ≡ state_before F.layout branch number
        → commands.new.items ≡ commands.old.items ++ numbered (4 + length commands.old.items) (inner_fork F.layout number branch)) }
    ensures state { OnOk result ((number : ℕ) → draws.old.state ≡ state_before F.layout branch number
        → draws.new.state ≡ state_before F.layout (branch + 2) number) }
    ensures number { OnOk result (length commands.new.items ≤ length commands.old.items + 2003) }
{
    let at = bytes::<F>(first_of::<F>(branch + 1));
    push_command(commands, What::Fork { at })?;
    push_branch::<F>(commands, draws, branch)?;
    push_command(commands, What::With)?;
    push_branch::<F>(commands, draws, branch + 1)?;
    push_command(commands, What::End)?;
    Ok(())
}

/// The body of the made script of a number.
pub(crate) fn make_body<F: Format>(alloc: Global, number: u64) -> Result<Vec<Command>, Memory>
    ensures { IfOk result (λ commands. commands.items ≡ body_on F.layout number) }
{
    let mut commands = Vec::new(alloc);
    let mut draws = Draws { state: number };
    let at = bytes::<F>(first_of::<F>(2));
    push_command(&mut commands, What::Fork { at })?;
    push_fork::<F>(&mut commands, &mut draws, 0)?;
    push_command(&mut commands, What::With)?;
    push_fork::<F>(&mut commands, &mut draws, 2)?;
    push_command(&mut commands, What::End)?;
    Ok(commands)
}
