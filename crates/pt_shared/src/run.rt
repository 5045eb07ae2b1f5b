//! The run of commands over a lease.

ghost use Rattle.std.specs.Prelude.{IfOk, IsTrue};
ghost use Rattle.pt_reply.specs.Running.{IsReady};
ghost use Rattle.pt_reply.specs.Telling.{has_small_blocks, IsTellable};
ghost use Rattle.pt_beside.specs.Places.{StaysIn};
ghost use Rattle.pt_beside.specs.Running.{IsBodyOf, IsRun};
ghost use Rattle.pt_shared.specs.Parts.{place_of};

use crate::gate::Gate;
use crate::shared::Shared;
use pt_beside::run_parts;
use pt_format::Format;
use pt_model::{Command, Reply};
use pt_num::Memory;
use pt_space::Lease;
use std::alloc::Global;
use std::thread::Threads;

/// Runs commands over a lease at rest, the branches of each fork beside each other, and answers the lease, at rest again, and
/// the replies. Each branch passes the gate before its first command. `Memory` where there is none for the blocks of a dump
/// or for the replies.
pub fn run_over<'a, F: Format + Send + Sync, R: Threads + Sync, G: Gate + Sync>(
    rt: &R,
    alloc: Global,
    lease: Lease<'a, F>,
    commands: &[Command],
    gate: &G,
) -> (Lease<'a, F>, Result<Vec<Reply>, Memory>)
    requires small { IsTrue (has_small_blocks F.layout) }
    requires ready { IsReady F.layout lease.view }
    requires body { IsBodyOf (place_of F.layout lease) commands.now }
    ensures ready { IsReady F.layout result.0.view }
    ensures stays { StaysIn (place_of F.layout lease.entry) (place_of F.layout result.0) }
    ensures run { IfOk result.1
        (λ replies. IsRun (IsTellable F.layout) (place_of F.layout lease.entry) (place_of F.layout result.0) commands.now replies.items) }
{
    let part = Shared::of(lease.space(), lease);
    let (part, replies) = run_parts(rt, alloc, part, commands, gate);
    (part.lease(), replies)
}
