//! The calls of a lease without blocks, on its way to link a table under the root's or to raise the root.

ghost use Rattle.std.specs.Prelude.{◌≡◌, ◌+◌, ◌-◌, ◌^◌, ◌<◌, length};
ghost use Rattle.pt_view.specs.Views.{SameBook};
ghost use Rattle.space_cases.specs.Racing.{IsIdle, IsReady, IsRooted, IsTried, Moves, depth_after};

use pt_format::Format;
use pt_space::Lease;
use pt_view::{Holder, Won};

/// Loads the root, and answers its level.
pub fn load_root<F: Format>(lease: &mut Lease<'_, F>) -> u32
    requires { IsIdle lease.old.view }
    ensures moves { Moves lease.old lease.new }
    ensures rooted { IsRooted F.layout result lease.new.view }
    ensures held { lease.new.view.purse ≡ lease.old.view.purse }
    ensures book { SameBook lease.old.view lease.new.view }
{
    lease.root()
}

/// Goes back from the root's table.
pub fn leave_root<F: Format>(lease: &mut Lease<'_, F>, _level: u32)
    requires { IsRooted F.layout _level lease.old.view }
    ensures moves { Moves lease.old lease.new }
    ensures idle { IsIdle lease.new.view }
{
    lease.leave();
}

/// Tries to take a frame, where the space has one of that number.
pub fn try_take<F: Format>(lease: &mut Lease<'_, F>, _level: u32, frame: u32)
    requires { IsRooted F.layout _level lease.old.view }
    ensures moves { Moves lease.old lease.new }
    ensures rooted { IsRooted F.layout _level lease.new.view }
{
    if frame < lease.frames() {
        lease.take(frame);
    }
}

/// Prepares a frame for the table over page 0 of level `at`.
pub fn prepare<F: Format>(lease: &mut Lease<'_, F>, _level: u32, at: u32)
    requires rooted { IsRooted F.layout _level lease.old.view }
    requires legal { at < F.layout.levels }
    requires some { 0 < length lease.old.view.purse }
    ensures moves { Moves lease.old lease.new }
    ensures ready { IsReady F.layout _level at lease.new.view }
{
    lease.place(at, 0);
}

/// Puts the prepared frame back.
pub fn give_up<F: Format>(lease: &mut Lease<'_, F>, _level: u32, _at: u32)
    requires { IsReady F.layout _level _at lease.old.view }
    ensures moves { Moves lease.old lease.new }
    ensures rooted { IsRooted F.layout _level lease.new.view }
{
    lease.unplace();
}

/// Tries to link the prepared frame at entry 0 of the root's table, and goes into the table that is linked there.
pub fn link<F: Format>(lease: &mut Lease<'_, F>, _level: u32) -> Won
    requires high { 0 < _level }
    requires ready { IsReady F.layout _level (_level - 1) lease.old.view }
    requires near { lease.old.view.first < 2 ^ F.layout.index }
    ensures moves { Moves lease.old lease.new }
    ensures tried { IsTried result 2 lease.new.view }
{
    // that the span has a page is part of what is told
    let _span = lease.range();
    lease.install(0)
}

/// Tries to raise the root by the prepared frame.
pub fn raise<F: Format>(lease: &mut Lease<'_, F>, _level: u32) -> Won
    requires { IsReady F.layout _level (_level + 1) lease.old.view }
    ensures moves { Moves lease.old lease.new }
    ensures tried { IsTried result (depth_after result) lease.new.view }
{
    lease.grow()
}

/// Puts the prepared frame back where it wasn't linked.
fn keep<F: Format>(lease: &mut Lease<'_, F>, won: Won, _depth: u32)
    requires { IsTried won _depth lease.old.view }
    ensures moves { Moves lease.old lease.new }
    ensures tried { IsTried Won.Yes _depth lease.new.view }
    ensures tables { lease.new.view.tables ≡ lease.old.view.tables }
{
    if won == Won::Met {
        lease.unplace();
    }
}

/// Rests after a try to link a table.
pub fn rest_below<F: Format>(lease: &mut Lease<'_, F>, won: Won)
    requires { IsTried won 2 lease.old.view }
    ensures moves { Moves lease.old lease.new }
    ensures idle { IsIdle lease.new.view }
    ensures tables { lease.new.view.tables ≡ lease.old.view.tables }
{
    keep(lease, won, 2);
    lease.leave();
    lease.leave();
}

/// Rests after a try to raise the root.
pub fn rest_at_root<F: Format>(lease: &mut Lease<'_, F>, won: Won)
    requires { IsTried won (depth_after won) lease.old.view }
    ensures moves { Moves lease.old lease.new }
    ensures idle { IsIdle lease.new.view }
{
    match won {
        Won::Yes => lease.leave(),
        Won::Met => lease.unplace(),
    }
}
