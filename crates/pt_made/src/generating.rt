//! The made script of a number.

ghost use Rattle.std.specs.Prelude.{◌≡◌, IfOk};
ghost use Rattle.pt_names.specs.Names.{layout_of};
ghost use Rattle.pt_made.specs.Formats.{name_at};
ghost use Rattle.pt_made.specs.Made.{IsMade, census_in};

use crate::making::make_body;
use crate::needing::need_on;
use fmt_amdv1::AmdV1;
use fmt_riscv::RiscV;
use fmt_vmsa::Vmsa;
use fmt_vtdss::VtdSs;
use fmt_x86::X86;
use pt_format::Format;
use pt_model::{Ask, AskWhat, Name};
use pt_num::Memory;
use pt_script::{Body, Script, Tail, is_the_grammar};
use std::alloc::Global;

const NAMES: [Name; 12] = [
    Name::AmdV1,
    Name::VtdSs3,
    Name::VtdSs4,
    Name::VtdSs5,
    Name::X86L4,
    Name::X86L5,
    Name::Vmsa4,
    Name::Vmsa16,
    Name::Vmsa64,
    Name::Sv39,
    Name::Sv48,
    Name::Sv57,
];

/// The format of a number.
fn name_at(number: u64) -> Name
    ensures { result ≡ name_at number }
{
    NAMES[(number % 12) as usize]
}

/// A tail that asks for the census in a line.
fn census_in(alloc: Global, line: u32) -> Result<Vec<Ask>, Memory>
    ensures { IfOk result (λ asks. asks.items ≡ census_in line) }
{
    let mut asks = Vec::new(alloc);
    asks.push(Ask {
        line,
        what: AskWhat::Census,
    })?;
    Ok(asks)
}

/// The made script of a number whose format this is.
fn generate_on<F: Format>(alloc: Global, number: u64, format: Name) -> Result<Script, Memory>
    requires layout { layout_of format ≡ F.layout }
    requires name { format ≡ name_at number }
    ensures { IfOk result (IsMade number) }
{
    is_the_grammar();
    let levels = F::START;
    let frames = 1 << (27 - F::GRANULE);
    let commands = make_body::<F>(alloc, number)?;
    let hold = need_on::<F>(levels, frames, &commands) as u32;
    let line = commands.len() as u32 + 5;
    let asks = census_in(alloc, line)?;
    Ok(Script {
        format,
        levels,
        frames,
        hold,
        body: Body::of(commands),
        tail: Tail::of(asks),
    })
}

/// The made script of a number. Its format is one of the twelve by the number; it has all the frames that the format may
/// have and holds as many as its need.
pub fn generate(alloc: Global, number: u64) -> Result<Script, Memory>
    ensures { IfOk result (IsMade number) }
{
    let format = name_at(number);
    match format {
        Name::AmdV1 => generate_on::<AmdV1>(alloc, number, format),
        Name::VtdSs3 => generate_on::<VtdSs<3>>(alloc, number, format),
        Name::VtdSs4 => generate_on::<VtdSs<4>>(alloc, number, format),
        Name::VtdSs5 => generate_on::<VtdSs<5>>(alloc, number, format),
        Name::X86L4 => generate_on::<X86<4>>(alloc, number, format),
        Name::X86L5 => generate_on::<X86<5>>(alloc, number, format),
        Name::Vmsa4 => generate_on::<Vmsa<12>>(alloc, number, format),
        Name::Vmsa16 => generate_on::<Vmsa<14>>(alloc, number, format),
        Name::Vmsa64 => generate_on::<Vmsa<16>>(alloc, number, format),
        Name::Sv39 => generate_on::<RiscV<3>>(alloc, number, format),
        Name::Sv48 => generate_on::<RiscV<4>>(alloc, number, format),
        Name::Sv57 => generate_on::<RiscV<5>>(alloc, number, format),
    }
}
