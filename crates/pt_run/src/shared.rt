//! The run of a script on a shared space, new or resumed.

ghost use Rattle.std.specs.Prelude.{◌≡◌, ◌<◌, ◌≤◌, IfOk, IsTrue};
ghost use Rattle.pt_model.specs.Layout.{input_pages};
ghost use Rattle.pt_model.specs.Words.{frame_limit};
ghost use Rattle.pt_names.specs.Names.{layout_of};
ghost use Rattle.pt_reply.specs.Built.{machine};
ghost use Rattle.pt_reply.specs.Running.{IsReady, book_in, machine_in};
ghost use Rattle.pt_reply.specs.Telling.{has_small_blocks, IsTellable};
ghost use Rattle.pt_beside.specs.Places.{StaysIn};
ghost use Rattle.pt_beside.specs.Running.{IsBodyOf, IsRun};
ghost use Rattle.pt_shared.specs.Parts.{place_of};
ghost use Rattle.pt_run.specs.Scripted.{Closes};
ghost use Rattle.pt_run.specs.Shared.{IsRunFrom, IsRunShared, saved_book};

use crate::asks::answer_asks;
use crate::replies::Replies;
use fmt_amdv1::AmdV1;
use fmt_riscv::RiscV;
use fmt_vmsa::Vmsa;
use fmt_vtdss::VtdSs;
use fmt_x86::X86;
use pt_format::Format;
use pt_model::{Command, Name};
use pt_num::Memory;
use pt_script::Script;
use pt_shared::{Gate, run_over};
use pt_space::{Lease, Pass, Sound, Space};
use std::alloc::Global;
use std::thread::Threads;

/// Runs commands on the very lease that is handed in, at rest, the branches of each fork beside each other, and answers the lease,
/// at rest again, and the replies. Each branch passes the gate before its first command. `Memory` where there is none for the
/// blocks of a dump or for the replies; the lease is at rest with its span then too.
pub fn run_on<'a, F: Format + Send + Sync, R: Threads + Sync, G: Gate + Sync>(
    rt: &R,
    alloc: Global,
    lease: Lease<'a, F>,
    commands: &[Command],
    gate: &G,
) -> (Lease<'a, F>, Result<Replies, Memory>)
    requires small { IsTrue (has_small_blocks F.layout) }
    requires ready { IsReady F.layout lease.view }
    requires body { IsBodyOf (place_of F.layout lease) commands.now }
    ensures ready { IsReady F.layout result.0.view }
    ensures stays { StaysIn (place_of F.layout lease.entry) (place_of F.layout result.0) }
    ensures run { IfOk result.1
        (λ replies. IsRun (IsTellable F.layout) (place_of F.layout lease.entry) (place_of F.layout result.0) commands.now replies) }
{
    let (lease, ran) = run_over(rt, alloc, lease, commands, gate);
    match ran {
        Ok(replies) => (lease, Ok(Replies { replies })),
        Err(Memory) => (lease, Err(Memory)),
    }
}

/// The words of a shared space whose pass, of all of it, is at rest: those of a closed space with its book.
fn close<F: Format>(space: Space<F>, whole: Pass<F>) -> Result<Vec<u64>, Memory>
    requires of_space { whole.space ≡ space }
    requires all { whole.view.count ≡ input_pages F.layout }
    requires ready { IsReady F.layout whole.view }
    ensures { IfOk result (λ words. Closes (machine_in F.layout whole.view) (book_in whole.view) words.items) }
{
    space.close(whole)
}

/// Runs a script of this format on the whole of a shared space, and answers what is asked of its words behind the body. The
/// space is closed whether the body has replies or not.
fn run_whole<F: Format + Send + Sync, R: Threads + Sync, G: Gate + Sync>(
    rt: &R,
    alloc: Global,
    script: &Script,
    space: Space<F>,
    pass: Pass<F>,
    gate: &G,
) -> Result<Replies, Memory>
    requires name { layout_of script.now.format ≡ F.layout }
    requires of_space { pass.space ≡ space }
    requires machine { machine_in F.layout pass.view ≡ machine F.layout script.now.levels script.now.frames }
    requires all { pass.view.count ≡ input_pages F.layout }
    requires ready { IsReady F.layout pass.view }
    ensures { IfOk result (IsRunFrom script.now (book_in pass.view)) }
{
    let (lease, ran) = run_on(rt, alloc, space.lease(pass), script.body.commands(), gate);
    let whole = lease.pass();
    let words = close::<F>(space, whole);
    let mut replies = ran?;
    let words = words?;
    answer_asks::<F>(
        script.format,
        &words,
        script.frames,
        script.tail.asks(),
        &mut replies.replies,
    )?;
    Ok(replies)
}

/// Runs a script of this format on a new shared space.
fn share_in<F: Format + Send + Sync, R: Threads + Sync, G: Gate + Sync>(
    rt: &R,
    alloc: Global,
    script: &Script,
    gate: &G,
) -> Result<Replies, Memory>
    requires name { layout_of script.now.format ≡ F.layout }
    requires low { F.layout.start ≤ script.now.levels }
    requires high { script.now.levels ≤ F.layout.levels }
    requires few { script.now.frames ≤ frame_limit F.layout }
    requires hold { script.now.hold < script.now.frames }
    ensures { IfOk result (IsRunShared script.now) }
{
    let (space, pass) = Space::<F>::make(alloc, script.frames, script.levels, script.hold)?;
    run_whole(rt, alloc, script, space, pass, gate)
}

/// Runs a script on a new shared space, the branches of each fork beside each other: as the two closures of the runtime's
/// `join`. Each branch passes the gate before its first command. Behind the body each `walk` is the manual's walk of the space's
/// words, and `census` counts over them. `Memory` where there is none for the words, the replies or the blocks of a dump.
pub fn run_shared<R: Threads + Sync, G: Gate + Sync>(
    rt: &R,
    alloc: Global,
    script: &Script,
    gate: &G,
) -> Result<Replies, Memory>
    ensures { IfOk result (IsRunShared script.now) }
{
    match script.format {
        Name::AmdV1 => share_in::<AmdV1, R, G>(rt, alloc, script, gate),
        Name::VtdSs3 => share_in::<VtdSs<3>, R, G>(rt, alloc, script, gate),
        Name::VtdSs4 => share_in::<VtdSs<4>, R, G>(rt, alloc, script, gate),
        Name::VtdSs5 => share_in::<VtdSs<5>, R, G>(rt, alloc, script, gate),
        Name::X86L4 => share_in::<X86<4>, R, G>(rt, alloc, script, gate),
        Name::X86L5 => share_in::<X86<5>, R, G>(rt, alloc, script, gate),
        Name::Vmsa4 => share_in::<Vmsa<12>, R, G>(rt, alloc, script, gate),
        Name::Vmsa16 => share_in::<Vmsa<14>, R, G>(rt, alloc, script, gate),
        Name::Vmsa64 => share_in::<Vmsa<16>, R, G>(rt, alloc, script, gate),
        Name::Sv39 => share_in::<RiscV<3>, R, G>(rt, alloc, script, gate),
        Name::Sv48 => share_in::<RiscV<4>, R, G>(rt, alloc, script, gate),
        Name::Sv57 => share_in::<RiscV<5>, R, G>(rt, alloc, script, gate),
    }
}

/// Runs a script as `run_shared` does, on the space of sound words in place of a new one: they are of the script's format, levels
/// and frames, and the script holds no frame. On `Memory` the words are given up.
pub fn run_from<F: Format + Send + Sync, R: Threads + Sync, G: Gate + Sync>(
    rt: &R,
    alloc: Global,
    script: &Script,
    sound: Sound<F>,
    gate: &G,
) -> Result<Replies, Memory>
    requires name { layout_of script.now.format ≡ F.layout }
    requires levels { sound.levels ≡ script.now.levels }
    requires frames { sound.frames ≡ script.now.frames }
    requires hold { script.now.hold ≡ 0 }
    ensures { IfOk result (IsRunFrom script.now (saved_book F.layout sound)) }
{
    let (space, pass) = Space::resume(alloc, sound)?;
    run_whole(rt, alloc, script, space, pass, gate)
}
