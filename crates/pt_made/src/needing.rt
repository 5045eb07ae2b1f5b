//! How many frames the maps of commands may take.

ghost use Rattle.std.specs.Prelude.{◌≡◌, ℕ, ◌+◌, ◌/◌, ◌^◌, ◌<◌, ◌≤◌, length, None, IfSome, IsNone};
ghost use Rattle.pt_model.specs.Book.{map_refusal, new_book};
ghost use Rattle.pt_model.specs.Layout.{input_pages, output_pages};
ghost use Rattle.pt_model.specs.Pages.{page_under};
ghost use Rattle.pt_laws.specs.Need as Need;
ghost use Rattle.pt_names.specs.Names.{layout_of};
ghost use Rattle.pt_made.specs.Formats.{machine_of, machine_in};
ghost use Rattle.pt_made.specs.Needing.{IsAdmitted, IsRefused, machine};

use fmt_amdv1::AmdV1;
use fmt_riscv::RiscV;
use fmt_vmsa::Vmsa;
use fmt_vtdss::VtdSs;
use fmt_x86::X86;
use pt_format::{Format, is_whole, range_of};
use pt_model::{Command, Name, What};
use pt_num::Span;
use pt_script::{Script, scripts_are_legal};
use pt_tile::tables_needed;

/// The pages of a map whose numbers alone don't refuse it.
fn admitted<F: Format>(va: u64, pa: u64, len: u64) -> Option<Span>
    ensures some { IfSome result (λ span. IsAdmitted F.layout va pa len span.first span.count) }
    ensures none { IsNone result → IsRefused F.layout va pa len }
{
    if !is_whole::<F>(va) || !is_whole::<F>(pa) || !is_whole::<F>(len) || len == 0 {
        return None;
    }
    let span = range_of::<F>(va, len)?;
    if u128::from(pa) + u128::from(len) > 1 << F::OUTPUT {
        return None;
    }
    Some(span)
}

/// The tables that a command needs: none where it is no map, or is refused by its numbers alone, and at most one more
/// than all frames.
fn need_of_one<F: Format>(levels: u32, frames: u32, what: What) -> u64
    requires low { F.layout.start ≤ levels }
    requires high { levels ≤ F.layout.levels }
    ensures need { result ≡ Need.need_of_one (machine F.layout levels frames) what }
    ensures few { result ≤ frames + 1 }
{
    let What::Map { va, pa, len, .. } = what else {
        return 0
    };
    match admitted::<F>(va, pa, len) {
        Some(span) => tables_needed::<F>(span, pa >> F::GRANULE, levels, u64::from(frames) + 1),
        None => 0,
    }
}

/// The need of commands in a space of this format, as `need_of` says.
pub fn need_on<F: Format>(levels: u32, frames: u32, commands: &[Command]) -> u64
    requires low { F.layout.start ≤ levels }
    requires high { levels ≤ F.layout.levels }
    requires few { length commands.now < 2 ^ 32 }
    ensures { result ≡ Need.need (machine F.layout levels frames) commands.now }
{
    let mut need = 0;
    for command in commands {
        need += need_of_one::<F>(levels, frames, command.what);
    }
    need
}

/// The need of commands in a space of a format with so many levels from the start and so many frames: the sum over all maps,
/// those in branches of forks too, of the tables that the map needs beside the starting top. A map that its numbers alone
/// refuse counts 0, and none counts more than `frames + 1`. It takes no memory.
pub fn need_of(format: Name, levels: u32, frames: u32, commands: &[Command]) -> u64
    requires low { (layout_of format).start ≤ levels }
    requires high { levels ≤ (layout_of format).levels }
    requires few { length commands.now < 2 ^ 32 }
    ensures { result ≡ Need.need (machine_of format levels frames) commands.now }
{
    match format {
        Name::AmdV1 => need_on::<AmdV1>(levels, frames, commands),
        Name::VtdSs3 => need_on::<VtdSs<3>>(levels, frames, commands),
        Name::VtdSs4 => need_on::<VtdSs<4>>(levels, frames, commands),
        Name::VtdSs5 => need_on::<VtdSs<5>>(levels, frames, commands),
        Name::X86L4 => need_on::<X86<4>>(levels, frames, commands),
        Name::X86L5 => need_on::<X86<5>>(levels, frames, commands),
        Name::Vmsa4 => need_on::<Vmsa<12>>(levels, frames, commands),
        Name::Vmsa16 => need_on::<Vmsa<14>>(levels, frames, commands),
        Name::Vmsa64 => need_on::<Vmsa<16>>(levels, frames, commands),
        Name::Sv39 => need_on::<RiscV<3>>(levels, frames, commands),
        Name::Sv48 => need_on::<RiscV<4>>(levels, frames, commands),
        Name::Sv57 => need_on::<RiscV<5>>(levels, frames, commands),
    }
}

/// The need of a script. Where it holds as many frames, no map of it lacks any. It takes no memory.
pub fn need(script: &Script) -> u64
    ensures { result ≡ Need.need (machine_in script.now) script.now.body }
{
    scripts_are_legal();
    need_of(
        script.format,
        script.levels,
        script.frames,
        script.body.commands(),
    )
}
