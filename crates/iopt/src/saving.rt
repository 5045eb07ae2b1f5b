//! The image of the space that a script leaves.

ghost use Rattle.std.specs.Prelude.{◌≡◌, ◌<◌, ◌≤◌, IfOk, Some};
ghost use Rattle.pt_model.specs.Words.{frame_limit};
ghost use Rattle.pt_names.specs.Names.{layout_of};
ghost use Rattle.pt_image.specs.Headers.{name_at};
ghost use Rattle.iopt.specs.Runs.{IsSaved};

use fmt_amdv1::AmdV1;
use fmt_riscv::RiscV;
use fmt_vmsa::Vmsa;
use fmt_vtdss::VtdSs;
use fmt_x86::X86;
use pt_format::Format;
use pt_image::{image_of, resting_words_make_a_good_image};
use pt_model::Name;
use pt_num::Memory;
use pt_run::words_of;
use pt_script::Script;
use std::alloc::Global;

/// The number of a format in an image.
pub(crate) fn number_of(format: Name) -> u32
    ensures number { name_at result ≡ Some format }
    ensures few { result < 12 }
{
    match format {
        Name::AmdV1 => 0,
        Name::VtdSs3 => 1,
        Name::VtdSs4 => 2,
        Name::VtdSs5 => 3,
        Name::X86L4 => 4,
        Name::X86L5 => 5,
        Name::Vmsa4 => 6,
        Name::Vmsa16 => 7,
        Name::Vmsa64 => 8,
        Name::Sv39 => 9,
        Name::Sv48 => 10,
        Name::Sv57 => 11,
    }
}

/// The image of the space that a script of this format leaves.
fn image_in<F: Format>(alloc: Global, script: &Script) -> Result<Vec<u8>, Memory>
    requires name { layout_of script.now.format ≡ F.layout }
    requires low { F.layout.start ≤ script.now.levels }
    requires high { script.now.levels ≤ F.layout.levels }
    requires few { script.now.frames ≤ frame_limit F.layout }
    requires hold { script.now.hold < script.now.frames }
    ensures { IfOk result (λ image. IsSaved script.now image.items) }
{
    resting_words_make_a_good_image();
    let words = words_of(alloc, script)?;
    let number = number_of(script.format);
    image_of(alloc, number, script.levels, script.frames, &words)
}

/// The image of the space that a script leaves.
pub(crate) fn image_for(alloc: Global, script: &Script) -> Result<Vec<u8>, Memory>
    ensures { IfOk result (λ image. IsSaved script.now image.items) }
{
    match script.format {
        Name::AmdV1 => image_in::<AmdV1>(alloc, script),
        Name::VtdSs3 => image_in::<VtdSs<3>>(alloc, script),
        Name::VtdSs4 => image_in::<VtdSs<4>>(alloc, script),
        Name::VtdSs5 => image_in::<VtdSs<5>>(alloc, script),
        Name::X86L4 => image_in::<X86<4>>(alloc, script),
        Name::X86L5 => image_in::<X86<5>>(alloc, script),
        Name::Vmsa4 => image_in::<Vmsa<12>>(alloc, script),
        Name::Vmsa16 => image_in::<Vmsa<14>>(alloc, script),
        Name::Vmsa64 => image_in::<Vmsa<16>>(alloc, script),
        Name::Sv39 => image_in::<RiscV<3>>(alloc, script),
        Name::Sv48 => image_in::<RiscV<4>>(alloc, script),
        Name::Sv57 => image_in::<RiscV<5>>(alloc, script),
    }
}
