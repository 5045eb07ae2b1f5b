//! What a book says of an address.

ghost use Rattle.std.specs.Prelude.{◌≡◌, ◌↔◌, ℕ, ◌+◌, ◌<◌, ◌≤◌, List, IfOk, IsErr, IsTrue};
ghost use Rattle.pt_model.specs.declared.block.Block.{Block};
ghost use Rattle.pt_model.specs.declared.block.Prot.{Prot};
ghost use Rattle.pt_model.specs.Layout.{input_pages};
ghost use Rattle.pt_model.specs.Book.{is_outside};
ghost use Rattle.pt_format.specs.Words.{IsLeaf};
ghost use Rattle.pt_view.specs.Views.{KeepsRest, Stays, book_of};
ghost use Rattle.pt_walk.specs.Walks.{FindsPage, IsTranslation, MapsTo, Rests};
ghost use Rattle.pt_view.specs.Loads.{ByLoads};

use crate::path::{Leaf, leaf_over};
use pt_format::{Format, Prot, Span, page_of};
use pt_view::Holder;

/// The refusal of an address whose page isn't one of the span.
#[derive(Clone, Copy, Debug, PartialEq, Eq)]
pub struct OutsideLease;

/// The page of an address, where it is one of a span.
fn page_in<F: Format>(span: Span, address: u64) -> Option<u64>
    requires { span.first + span.count ≤ input_pages F.layout }
    ensures { FindsPage F.layout span.first span.count address result }
{
    let page = page_of::<F>(address)?;
    if page >= span.first && page - span.first < span.count {
        Some(page)
    } else {
        None
    }
}

/// The output address of the byte at an address, of a page under a leaf, and what is permitted there.
fn value_under<F: Format>(leaf: Leaf, page: u64, address: u64) -> (u64, Prot)
    requires a_leaf { (log2 : ℕ) × (prot : Prot) × IsLeaf F.layout leaf.level leaf.word log2 prot }
    requires a_page { page < input_pages F.layout }
    ensures { MapsTo F.layout leaf.level leaf.word page address result }
{
    let offset = address & ((1 << F::GRANULE) - 1);
    let out = F::out_of(leaf.level, leaf.word, page);
    (
        (out << F::GRANULE) + offset,
        F::prot_of(leaf.level, leaf.word),
    )
}

/// The output address of the byte at an input address, and what is permitted there, by the book. None
/// where the book maps nothing at its page. Addresses are in bytes.
///
/// `OutsideLease` exactly where the address has no page or its page isn't one of the span.
pub fn lookup<F: Format, H: Holder<F>>(
    holder: &mut H,
    address: u64,
) -> Result<Option<(u64, Prot)>, OutsideLease>
    requires rest { Rests F.layout (H.view holder.old) }
    ensures stays { Stays H.space H.aside H.alone holder.old holder.new }
    ensures walked { ByLoads H.tells (H.view holder.old) (H.view holder.new) }
    ensures rest { KeepsRest F.layout (H.view holder.old) (H.view holder.new) }
    ensures outside { (blocks : List Block) → IsErr result ↔ IsTrue (is_outside F.layout (book_of (H.view holder.old) blocks) address) }
    ensures found { IfOk result (λ to. IsTranslation F.layout (H.view holder.old) address to) }
{
    let Some(page) = page_in::<F>(holder.range(), address) else {
        return Err(OutsideLease)
    };
    match leaf_over::<F, H>(holder, page) {
        Some(leaf) => Ok(Some(value_under::<F>(leaf, page, address))),
        None => Ok(None),
    }
}
