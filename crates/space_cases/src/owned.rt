//! The calls by which a lease links a table at an entry of the root's table whose pages are all its own, and unlinks it.

ghost use Rattle.std.specs.Prelude.{◌≡◌, ◌+◌, ◌*◌, ◌<◌, ◌≤◌, [], length};
ghost use Rattle.pt_model.specs.Layout.{pages_of_entry};
ghost use Rattle.space_cases.specs.Owned.{HasTableAt, IsOwnEntry};
ghost use Rattle.space_cases.specs.Racing.{IsIdle, IsRooted, IsTried, Moves};

use crate::steps::{leave_root, load_root, rest_below};
use pt_format::Format;
use pt_space::Lease;
use pt_view::{Holder, Won};

/// Links a table at an entry of the root's table, over the pages from `base` on, and goes into it.
fn link_own<F: Format>(lease: &mut Lease<'_, F>, level: u32, number: u32, base: u64) -> Won
    requires rooted { IsRooted F.layout level lease.old.view }
    requires own { IsOwnEntry F.layout level number lease.old.view }
    requires base { number * pages_of_entry F.layout level ≡ base }
    requires none { lease.old.view.tables ≡ [] }
    requires some { 0 < length lease.old.view.purse }
    ensures moves { Moves lease.old lease.new }
    ensures tried { IsTried result 2 lease.new.view }
    ensures linked { HasTableAt F.layout level number lease.new.view }
{
    // that the span ends within the space is part of what is told
    let _span = lease.range();
    lease.place(level - 1, base);
    lease.install(number)
}

/// Links a table at an entry of the root's table, which is of the format's greatest level, over the pages from `base` on,
/// and rests.
pub fn set_table<F: Format>(lease: &mut Lease<'_, F>, level: u32, number: u32, base: u64)
    requires idle { IsIdle lease.old.view }
    requires greatest { F.layout.levels ≤ level + 1 }
    requires reaches { level ≤ lease.old.view.top }
    requires own { IsOwnEntry F.layout level number lease.old.view }
    requires base { number * pages_of_entry F.layout level ≡ base }
    requires none { lease.old.view.tables ≡ [] }
    requires some { 0 < length lease.old.view.purse }
    ensures moves { Moves lease.old lease.new }
    ensures idle { IsIdle lease.new.view }
    ensures linked { HasTableAt F.layout level number lease.new.view }
{
    let found = load_root(lease);
    if found != level {
        unreachable!()
    }
    let won = link_own(lease, level, number, base);
    rest_below(lease, won);
}

/// Unlinks the table at an entry of the root's table: its frame is then the first of the purse.
pub fn unlink<F: Format>(lease: &mut Lease<'_, F>, _level: u32, number: u32)
    requires rooted { IsRooted F.layout _level lease.old.view }
    requires linked { HasTableAt F.layout _level number lease.old.view }
    ensures moves { Moves lease.old lease.new }
    ensures rooted { IsRooted F.layout _level lease.new.view }
{
    lease.unlink(number);
}

/// Goes back from the root's table, and frees every frame of the purse.
pub fn leave_and_release<F: Format>(lease: &mut Lease<'_, F>, level: u32)
    requires { IsRooted F.layout level lease.old.view }
    ensures moves { Moves lease.old lease.new }
    ensures idle { IsIdle lease.new.view }
{
    leave_root(lease, level);
    lease.release();
}
