//! The run of a script on the space of an image that nobody vouches for.

ghost use Rattle.std.specs.Prelude.{◌≡◌, ◌≤◌, ◌<◌, length, IfErr, IfNone, IfOk, IfSome};
ghost use Rattle.pt_names.specs.Names.{layout_of};
ghost use Rattle.pt_image.specs.Headers.{HasFields, name_at};
ghost use Rattle.pt_run.specs.Shared.{saved_book};
ghost use Rattle.iopt.specs.Resumed.{AreOf, BeginsWith, DiffersAt, HasHeaderOf, IsChecked, IsOfFormat, IsResumed, IsUnresumedFor, check_status};
ghost use Rattle.iopt.specs.Top.{script_status};

use crate::saving::number_of;
use crate::status::Status;
use fmt_amdv1::AmdV1;
use fmt_riscv::RiscV;
use fmt_vmsa::Vmsa;
use fmt_vtdss::VtdSs;
use fmt_x86::X86;
use pt_format::Format;
use pt_image::{CheckRefused, Header, check, read_header};
use pt_model::Name;
use pt_num::Memory;
use pt_run::{Gate, reply_text, run_from};
use pt_script::{Script, ScriptError, parse};
use pt_space::Sound;
use std::alloc::Global;
use std::thread::Threads;

/// The most bytes of a script.
pub(crate) const INPUT_LIMIT: usize = 1 << 20;

/// How a run ends whose script is refused.
pub(crate) fn script_status(error: ScriptError) -> Status
    ensures { result ≡ script_status error }
{
    match error {
        ScriptError::Bad { line, reason } => Status::Refused { line, reason },
        ScriptError::Memory => Status::Memory,
    }
}

/// How a run ends whose image is refused.
fn check_status(refused: CheckRefused) -> Status
    ensures { result ≡ check_status refused }
{
    match refused {
        CheckRefused::Fault { fault } => Status::Image { fault },
        CheckRefused::Memory => Status::Memory,
    }
}

/// The first line of a script's header that isn't an image's.
fn first_difference(header: &Header, script: &Script) -> Option<u32>
    ensures none { IfNone result (HasHeaderOf header.now script.now) }
    ensures first { IfSome result (DiffersAt header.now script.now) }
{
    if header.number != number_of(script.format) || header.levels != script.levels {
        return Some(1);
    }
    if header.frames != script.frames {
        return Some(2);
    }
    if script.hold != 0 {
        return Some(3);
    }
    None
}

/// The words of the image of this format that an input begins with, and the script behind it, where the image is good and the
/// script doesn't differ from it. The input is given up.
fn check_input<F: Format>(
    alloc: Global,
    header: &Header,
    input: Vec<u8>,
) -> Result<(Sound<F>, Script), Status>
    requires begins { BeginsWith input.items header.now }
    requires format { IsOfFormat F.layout header.now }
    ensures checked { IfOk result (λ r. IsChecked input.items r.1 (saved_book F.layout r.0)) }
    ensures numbers { IfOk result (λ r. AreOf F.layout r.0 r.1) }
    ensures unresumed { IfErr result (IsUnresumedFor input.items) }
{
    let length = header.length as usize;
    let sound = match check::<F>(alloc, header, &input[..length]) {
        Ok(sound) => sound,
        Err(refused) => return Err(check_status(refused)),
    };
    let script = match parse(alloc, &input[length..]) {
        Ok(script) => script,
        Err(error) => return Err(script_status(error)),
    };
    match first_difference(header, &script) {
        Some(line) => Err(Status::Differs { line }),
        None => Ok((sound, script)),
    }
}

/// The text of the replies to the script behind an image of this format, run on the image's space. The input is given up before
/// the space is made.
fn resume_in<F: Format + Send + Sync, R: Threads + Sync, G: Gate + Sync>(
    rt: &R,
    alloc: Global,
    header: &Header,
    input: Vec<u8>,
    gate: &G,
) -> Result<Vec<u8>, Status>
    requires begins { BeginsWith input.items header.now }
    requires format { IsOfFormat F.layout header.now }
    ensures resumed { IfOk result (λ text. IsResumed input.items text.items) }
    ensures unresumed { IfErr result (IsUnresumedFor input.items) }
{
    let (sound, script) = check_input::<F>(alloc, header, input)?;
    let Ok(replies) = run_from(rt, alloc, &script, sound, gate) else {
        return Err(Status::Memory)
    };
    match reply_text(alloc, script.format, &replies) {
        Ok(text) => Ok(text),
        Err(Memory) => Err(Status::Memory),
    }
}

const FORMATS: [Name; 12] = [
    Name::AmdV1,
    Name::VtdSs3,
    Name::VtdSs4,
    Name::VtdSs5,
    Name::X86L4,
    Name::X86L5,
    Name::Vmsa4,
    Name::Vmsa16,
    Name::Vmsa64,
    Name::Sv39,
    Name::Sv48,
    Name::Sv57,
];

/// The format of a number in an image.
fn format_of(number: u32) -> Option<Name>
    ensures { result ≡ name_at number }
{
    FORMATS.get(number as usize).copied()
}

/// The same for a header of any format.
fn resume_by<R: Threads + Sync, G: Gate + Sync>(
    rt: &R,
    alloc: Global,
    header: &Header,
    input: Vec<u8>,
    gate: &G,
) -> Result<Vec<u8>, Status>
    requires { BeginsWith input.items header.now }
    ensures resumed { IfOk result (λ text. IsResumed input.items text.items) }
    ensures unresumed { IfErr result (IsUnresumedFor input.items) }
{
    let Some(format) = format_of(header.number) else {
        unreachable!()
    };
    match format {
        Name::AmdV1 => resume_in::<AmdV1, R, G>(rt, alloc, header, input, gate),
        Name::VtdSs3 => resume_in::<VtdSs<3>, R, G>(rt, alloc, header, input, gate),
        Name::VtdSs4 => resume_in::<VtdSs<4>, R, G>(rt, alloc, header, input, gate),
        Name::VtdSs5 => resume_in::<VtdSs<5>, R, G>(rt, alloc, header, input, gate),
        Name::X86L4 => resume_in::<X86<4>, R, G>(rt, alloc, header, input, gate),
        Name::X86L5 => resume_in::<X86<5>, R, G>(rt, alloc, header, input, gate),
        Name::Vmsa4 => resume_in::<Vmsa<12>, R, G>(rt, alloc, header, input, gate),
        Name::Vmsa16 => resume_in::<Vmsa<14>, R, G>(rt, alloc, header, input, gate),
        Name::Vmsa64 => resume_in::<Vmsa<16>, R, G>(rt, alloc, header, input, gate),
        Name::Sv39 => resume_in::<RiscV<3>, R, G>(rt, alloc, header, input, gate),
        Name::Sv48 => resume_in::<RiscV<4>, R, G>(rt, alloc, header, input, gate),
        Name::Sv57 => resume_in::<RiscV<5>, R, G>(rt, alloc, header, input, gate),
    }
}

/// The text of the replies to the script behind an image, run on the image's space; or why the input isn't resumed: the first
/// fault of the image's header, else more bytes behind the image than a script may have, else the first fault of the image, else
/// the first line of the script that is refused, else the first line of its header that isn't the image's. `Memory` may come at
/// any of them.
pub(crate) fn resume<R: Threads + Sync, G: Gate + Sync>(
    rt: &R,
    alloc: Global,
    input: Vec<u8>,
    gate: &G,
) -> Result<Vec<u8>, Status>
    ensures resumed { IfOk result (λ text. IsResumed input.items text.items) }
    ensures unresumed { IfErr result (IsUnresumedFor input.items) }
{
    let header = match read_header(&input) {
        Ok(header) => header,
        Err(fault) => return Err(Status::Image { fault }),
    };
    if input.len() - header.length as usize > INPUT_LIMIT {
        return Err(Status::TooLong);
    }
    resume_by(rt, alloc, &header, input, gate)
}
