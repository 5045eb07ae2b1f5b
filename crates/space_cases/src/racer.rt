//! Leases that race: each goes to one goal, a call at a time, in whatever order their turns come.

ghost use Rattle.std.specs.Prelude.{◌≡◌, ◌+◌, ◌^◌, ◌<◌};
ghost use Rattle.space_cases.specs.Owned.{HasTableAt};
ghost use Rattle.space_cases.specs.Racing.{IsIdle, IsRooted, Moves};
ghost use Rattle.space_cases.specs.Stages.{HasTried, IsAt, IsPreparedFor, MayGoTo};

use crate::owned::{leave_and_release, unlink};
use crate::steps::{
    give_up, leave_root, link, load_root, prepare, raise, rest_at_root, rest_below, try_take,
};
use pt_format::Format;
use pt_space::Lease;
use pt_view::{Holder, Won};

/// What a lease goes to.
#[derive(Clone, Copy, Debug, PartialEq, Eq)]
pub enum Goal {
    /// A table at entry 0 of the root's table. With an empty purse it tries to take the spare frame.
    Link { spare: u32 },
    /// A root one level higher.
    Raise,
    /// The table at an entry of the root's table, where that is of this level, is unlinked, and every frame is freed.
    Unlink { level: u32, number: u32 },
}

/// How far a lease is.
#[derive(Clone, Copy, Debug, PartialEq, Eq)]
pub enum Stage {
    Idle,
    Rooted { level: u32 },
    Prepared { level: u32 },
    Tried { won: Won },
    Done,
}

/// Prepares a frame for the table at entry 0, where the purse has one, or tries to take the spare one.
fn start_link<F: Format>(lease: &mut Lease<'_, F>, spare: u32, level: u32) -> Stage
    requires { IsRooted F.layout level lease.old.view }
    ensures moves { Moves lease.old lease.new }
    ensures at { IsAt F.layout (Goal.Link spare) result lease.new.view }
{
    if level == 0 {
        return Stage::Rooted { level };
    }
    if lease.purse() == 0 {
        try_take(lease, level, spare);
        return Stage::Rooted { level };
    }
    prepare(lease, level, level - 1);
    Stage::Prepared { level }
}

/// Prepares a frame for the root's next level, where the purse has one and the format has that level.
fn start_raise<F: Format>(lease: &mut Lease<'_, F>, level: u32) -> Stage
    requires { IsRooted F.layout level lease.old.view }
    ensures moves { Moves lease.old lease.new }
    ensures at { IsAt F.layout Goal.Raise result lease.new.view }
{
    if lease.purse() == 0 || level + 1 >= F::LEVELS {
        return Stage::Rooted { level };
    }
    prepare(lease, level, level + 1);
    Stage::Prepared { level }
}

/// Unlinks the table at an entry, where the root is of the table's level.
fn start_unlink<F: Format>(lease: &mut Lease<'_, F>, at: u32, number: u32, level: u32) -> Stage
    requires rooted { IsRooted F.layout level lease.old.view }
    requires linked { HasTableAt F.layout at number lease.old.view }
    ensures moves { Moves lease.old lease.new }
    ensures at { IsAt F.layout (Goal.Unlink at number) result lease.new.view }
{
    if level != at {
        return Stage::Rooted { level };
    }
    unlink(lease, level, number);
    Stage::Tried { won: Won::Yes }
}

/// Makes the first call at the root's table.
fn start<F: Format>(lease: &mut Lease<'_, F>, goal: Goal, level: u32) -> Stage
    requires rooted { IsRooted F.layout level lease.old.view }
    requires may { MayGoTo F.layout goal lease.old.view }
    ensures moves { Moves lease.old lease.new }
    ensures at { IsAt F.layout goal result lease.new.view }
{
    match goal {
        Goal::Link { spare } => start_link(lease, spare, level),
        Goal::Raise => start_raise(lease, level),
        Goal::Unlink { level: at, number } => start_unlink(lease, at, number, level),
    }
}

/// Tries to link the prepared frame.
fn attempt<F: Format>(lease: &mut Lease<'_, F>, goal: Goal, level: u32) -> Won
    requires ready { IsPreparedFor F.layout goal level lease.old.view }
    requires near { lease.old.view.first < 2 ^ F.layout.index }
    ensures moves { Moves lease.old lease.new }
    ensures tried { HasTried F.layout goal result lease.new.view }
{
    match goal {
        Goal::Link { .. } => link(lease, level),
        Goal::Raise => raise(lease, level),
        Goal::Unlink { .. } => unreachable!(),
    }
}

/// Rests after a try, or after an unlink.
fn finish<F: Format>(lease: &mut Lease<'_, F>, goal: Goal, won: Won)
    requires { HasTried F.layout goal won lease.old.view }
    ensures moves { Moves lease.old lease.new }
    ensures idle { IsIdle lease.new.view }
{
    match goal {
        Goal::Link { .. } => rest_below(lease, won),
        Goal::Raise => rest_at_root(lease, won),
        Goal::Unlink { level, .. } => leave_and_release(lease, level),
    }
}

/// Puts a prepared frame back, and rests.
fn withdraw<F: Format>(lease: &mut Lease<'_, F>, goal: Goal, level: u32)
    requires { IsPreparedFor F.layout goal level lease.old.view }
    ensures moves { Moves lease.old lease.new }
    ensures idle { IsIdle lease.new.view }
{
    match goal {
        Goal::Link { .. } => give_up(lease, level, level - 1),
        Goal::Raise => give_up(lease, level, level + 1),
        Goal::Unlink { .. } => unreachable!(),
    }
    leave_root(lease, level);
}

/// Makes the call that comes at a stage. Answers the stage after it.
pub fn turn<F: Format>(lease: &mut Lease<'_, F>, goal: Goal, stage: Stage) -> Stage
    requires at { IsAt F.layout goal stage lease.old.view }
    requires near { lease.old.view.first < 2 ^ F.layout.index }
    ensures moves { Moves lease.old lease.new }
    ensures at { IsAt F.layout goal result lease.new.view }
{
    match stage {
        Stage::Idle => {
            let level = load_root(lease);
            Stage::Rooted { level }
        }
        Stage::Rooted { level } => start(lease, goal, level),
        Stage::Prepared { level } => {
            let won = attempt(lease, goal, level);
            Stage::Tried { won }
        }
        Stage::Tried { won } => {
            finish(lease, goal, won);
            Stage::Done
        }
        Stage::Done => Stage::Done,
    }
}

/// Rests, from whatever stage.
pub fn rest<F: Format>(lease: &mut Lease<'_, F>, goal: Goal, stage: Stage)
    requires { IsAt F.layout goal stage lease.old.view }
    ensures moves { Moves lease.old lease.new }
    ensures idle { IsIdle lease.new.view }
{
    match stage {
        Stage::Idle | Stage::Done => {}
        Stage::Rooted { level } => leave_root(lease, level),
        Stage::Prepared { level } => withdraw(lease, goal, level),
        Stage::Tried { won } => finish(lease, goal, won),
    }
}
