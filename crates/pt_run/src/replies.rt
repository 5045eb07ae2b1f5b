//! Replies, and their text.

ghost use Rattle.std.specs.Prelude.{◌≡◌, IfOk};
ghost use Rattle.pt_model.specs.Text.{replies_text};
ghost use Rattle.pt_forks.specs.Running.{AreTold};
ghost use Rattle.pt_names.specs.Names.{layout_of};
ghost use Rattle.pt_reply.specs.Telling.{IsTellable};

use fmt_amdv1::AmdV1;
use fmt_riscv::RiscV;
use fmt_vmsa::Vmsa;
use fmt_vtdss::VtdSs;
use fmt_x86::X86;
use pt_format::Format;
use pt_model::{Name, Reply};
use pt_num::Memory;
use pt_reply::push_reply;
use std::alloc::Global;
use std::marker::Model;

/// The replies of a run, seen as a list.
#[derive(Drop)]
pub struct Replies {
    pub(crate) replies: Vec<Reply>,
}

impl Model for Replies {
    ghost use Rattle.std.specs.Prelude.{List};
    ghost use Rattle.pt_model.specs.declared.reply.Reply.{Reply};

    ghost Value = { List Reply };

    ghost view = { λ s. s.replies.items };
}

impl Replies {
    ghost use Rattle.std.specs.Prelude.{◌≡◌};

    pub fn all(&self) -> &[Reply]
        ensures { result.now ≡ self.now }
    {
        &self.replies
    }
}

/// The text of replies of a format.
fn text_in<F: Format>(alloc: Global, replies: &Replies) -> Result<Vec<u8>, Memory>
    requires { AreTold (IsTellable F.layout) replies.now }
    ensures { IfOk result (λ text. text.items ≡ replies_text F.layout replies.now) }
{
    let mut text = Vec::new(alloc);
    for reply in replies.all() {
        push_reply::<F>(&mut text, reply)?;
    }
    Ok(text)
}

/// The text of replies in the format of this name: a line for each, and behind that of a dump the lines of its blocks.
/// Blocks that a reply names are legal ones of the format, smaller than its space.
pub fn reply_text(alloc: Global, format: Name, replies: &Replies) -> Result<Vec<u8>, Memory>
    requires { AreTold (IsTellable (layout_of format)) replies.now }
    ensures { IfOk result (λ text. text.items ≡ replies_text (layout_of format) replies.now) }
{
    match format {
        Name::AmdV1 => text_in::<AmdV1>(alloc, replies),
        Name::VtdSs3 => text_in::<VtdSs<3>>(alloc, replies),
        Name::VtdSs4 => text_in::<VtdSs<4>>(alloc, replies),
        Name::VtdSs5 => text_in::<VtdSs<5>>(alloc, replies),
        Name::X86L4 => text_in::<X86<4>>(alloc, replies),
        Name::X86L5 => text_in::<X86<5>>(alloc, replies),
        Name::Vmsa4 => text_in::<Vmsa<12>>(alloc, replies),
        Name::Vmsa16 => text_in::<Vmsa<14>>(alloc, replies),
        Name::Vmsa64 => text_in::<Vmsa<16>>(alloc, replies),
        Name::Sv39 => text_in::<RiscV<3>>(alloc, replies),
        Name::Sv48 => text_in::<RiscV<4>>(alloc, replies),
        Name::Sv57 => text_in::<RiscV<5>>(alloc, replies),
    }
}
