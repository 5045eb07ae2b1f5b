//! The run of a script over one owner, and the words that it leaves.

ghost use Rattle.std.specs.Prelude.{◌≡◌, ◌<◌, ◌≤◌, IfOk, IsTrue};
ghost use Rattle.pt_model.specs.Words.{frame_limit};
ghost use Rattle.pt_names.specs.Names.{layout_of};
ghost use Rattle.pt_reply.specs.Built.{machine};
ghost use Rattle.pt_reply.specs.Running.{IsReady, book_in, machine_in};
ghost use Rattle.pt_reply.specs.Telling.{has_small_blocks};
ghost use Rattle.pt_run.specs.Scripted.{Closes, EndsOfOne, IsLastOfOne, IsRunOfOne};

use crate::asks::answer_asks;
use crate::replies::Replies;
use fmt_amdv1::AmdV1;
use fmt_riscv::RiscV;
use fmt_vmsa::Vmsa;
use fmt_vtdss::VtdSs;
use fmt_x86::X86;
use pt_format::Format;
use pt_model::{Name, Reply};
use pt_narrow::run_over;
use pt_num::Memory;
use pt_plain::Plain;
use pt_script::Script;
use std::alloc::Global;

/// The words of an owner at rest, which are those of a closed space with its book.
fn close<F: Format>(plain: Plain<F>) -> Vec<u64>
    requires { IsReady F.layout plain.view }
    ensures { Closes (machine_in F.layout plain.view) (book_in plain.view) result.items }
{
    plain.close()
}

/// Runs the body of a script on a new space of this format, and closes the space.
fn run_body<F: Format>(alloc: Global, script: &Script) -> Result<(Vec<u64>, Vec<Reply>), Memory>
    requires small { IsTrue (has_small_blocks F.layout) }
    requires low { F.layout.start ≤ script.now.levels }
    requires high { script.now.levels ≤ F.layout.levels }
    requires few { script.now.frames ≤ frame_limit F.layout }
    requires hold { script.now.hold < script.now.frames }
    ensures { IfOk result (λ r. EndsOfOne (machine F.layout script.now.levels script.now.frames) script.now.body r.0.items r.1.items) }
{
    let plain = Plain::<F>::make(alloc, script.frames, script.levels, script.hold)?;
    let (plain, replies) = run_over::<F>(alloc, plain, script.body.commands())?;
    let words = close::<F>(plain);
    Ok((words, replies))
}

/// Runs a script of this format on a new space, and answers what is asked of its words behind the body.
fn run_in<F: Format>(alloc: Global, script: &Script) -> Result<Replies, Memory>
    requires name { layout_of script.now.format ≡ F.layout }
    requires small { IsTrue (has_small_blocks F.layout) }
    requires low { F.layout.start ≤ script.now.levels }
    requires high { script.now.levels ≤ F.layout.levels }
    requires few { script.now.frames ≤ frame_limit F.layout }
    requires hold { script.now.hold < script.now.frames }
    ensures { IfOk result (IsRunOfOne script.now) }
{
    let (words, mut replies) = run_body::<F>(alloc, script)?;
    answer_asks::<F>(
        script.format,
        &words,
        script.frames,
        script.tail.asks(),
        &mut replies,
    )?;
    Ok(Replies { replies })
}

/// The words of the space that a script of this format leaves.
fn words_in<F: Format>(alloc: Global, script: &Script) -> Result<Vec<u64>, Memory>
    requires name { layout_of script.now.format ≡ F.layout }
    requires small { IsTrue (has_small_blocks F.layout) }
    requires low { F.layout.start ≤ script.now.levels }
    requires high { script.now.levels ≤ F.layout.levels }
    requires few { script.now.frames ≤ frame_limit F.layout }
    requires hold { script.now.hold < script.now.frames }
    ensures { IfOk result (λ words. IsLastOfOne script.now words.items) }
{
    let (words, _) = run_body::<F>(alloc, script)?;
    Ok(words)
}

/// Runs a script over one owner of a new space, the branches of a fork one after the other, each in its part of the span.
/// Behind the body each `walk` is the manual's walk of the space's words, and `census` counts over them. `Memory` where
/// there is none for the words, the replies or the blocks of a dump.
pub fn run_plain(alloc: Global, script: &Script) -> Result<Replies, Memory>
    ensures { IfOk result (IsRunOfOne script.now) }
{
    match script.format {
        Name::AmdV1 => run_in::<AmdV1>(alloc, script),
        Name::VtdSs3 => run_in::<VtdSs<3>>(alloc, script),
        Name::VtdSs4 => run_in::<VtdSs<4>>(alloc, script),
        Name::VtdSs5 => run_in::<VtdSs<5>>(alloc, script),
        Name::X86L4 => run_in::<X86<4>>(alloc, script),
        Name::X86L5 => run_in::<X86<5>>(alloc, script),
        Name::Vmsa4 => run_in::<Vmsa<12>>(alloc, script),
        Name::Vmsa16 => run_in::<Vmsa<14>>(alloc, script),
        Name::Vmsa64 => run_in::<Vmsa<16>>(alloc, script),
        Name::Sv39 => run_in::<RiscV<3>>(alloc, script),
        Name::Sv48 => run_in::<RiscV<4>>(alloc, script),
        Name::Sv57 => run_in::<RiscV<5>>(alloc, script),
    }
}

/// Runs the body of a script over one owner of a new space, and answers the words of the closed space. `Memory` where there is
/// none for the words, the replies or the blocks of a dump.
pub fn words_of(alloc: Global, script: &Script) -> Result<Vec<u64>, Memory>
    ensures { IfOk result (λ words. IsLastOfOne script.now words.items) }
{
    match script.format {
        Name::AmdV1 => words_in::<AmdV1>(alloc, script),
        Name::VtdSs3 => words_in::<VtdSs<3>>(alloc, script),
        Name::VtdSs4 => words_in::<VtdSs<4>>(alloc, script),
        Name::VtdSs5 => words_in::<VtdSs<5>>(alloc, script),
        Name::X86L4 => words_in::<X86<4>>(alloc, script),
        Name::X86L5 => words_in::<X86<5>>(alloc, script),
        Name::Vmsa4 => words_in::<Vmsa<12>>(alloc, script),
        Name::Vmsa16 => words_in::<Vmsa<14>>(alloc, script),
        Name::Vmsa64 => words_in::<Vmsa<16>>(alloc, script),
        Name::Sv39 => words_in::<RiscV<3>>(alloc, script),
        Name::Sv48 => words_in::<RiscV<4>>(alloc, script),
        Name::Sv57 => words_in::<RiscV<5>>(alloc, script),
    }
}
