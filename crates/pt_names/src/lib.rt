//! The twelve formats by their names in a script: the layout that a name stands for, and the manual's walk of its tables.
//!
//! It stands on the formats and on the walks of their manuals. It promises that the walk by a name is that of the name's
//! layout. No call takes memory.
#![tactic(auto)]

ghost use Rattle.std.specs.Prelude.{◌≡◌};
ghost use Rattle.pt_model.specs.Words.{IsSpace};
ghost use Rattle.fmt_nine_bit.specs.OverPages.{reached};
ghost use Rattle.pt_names.specs.Names.{layout_of};

use pt_manual::{Walked, walk_amdv1, walk_riscv, walk_vmsa, walk_vtdss, walk_x86};
use pt_model::Name;

/// What the manual's walk finds at an input address, in bytes, over the words of a space of this format.
pub fn walk(name: Name, words: &[u64], address: u64) -> Walked
    requires { IsSpace (layout_of name) words.now }
    ensures { reached result ≡ (layout_of name).walk words.now address }
{
    match name {
        Name::AmdV1 => walk_amdv1(words, address),
        Name::VtdSs3 => walk_vtdss(words, 3, address),
        Name::VtdSs4 => walk_vtdss(words, 4, address),
        Name::VtdSs5 => walk_vtdss(words, 5, address),
        Name::X86L4 => walk_x86(words, 4, address),
        Name::X86L5 => walk_x86(words, 5, address),
        Name::Vmsa4 => walk_vmsa(words, 12, address),
        Name::Vmsa16 => walk_vmsa(words, 14, address),
        Name::Vmsa64 => walk_vmsa(words, 16, address),
        Name::Sv39 => walk_riscv(words, 3, address),
        Name::Sv48 => walk_riscv(words, 4, address),
        Name::Sv57 => walk_riscv(words, 5, address),
    }
}
