//! Whether a span may be cut in two at a page.

ghost use Rattle.std.specs.Prelude.{◌≡◌, IfOk, IfErr, Some};
ghost use Rattle.pt_model.specs.Pages.{page_at};
ghost use Rattle.pt_view.specs.Loads.{ByLoads};
ghost use Rattle.pt_view.specs.Views.{KeepsRest, Stays};
ghost use Rattle.pt_walk.specs.SpanCuts.{AnswersCut, IsCutPage, RefusesCut};
ghost use Rattle.pt_walk.specs.Walks.{Rests};

use crate::walker::next_block;
use pt_format::{Block, Format, Span, is_whole, page_of};
use pt_view::Holder;

/// Why a span isn't cut at an address, in the order in which the causes are tested.
#[derive(Clone, Copy, Debug, PartialEq, Eq)]
pub enum CutRefused {
    /// The address is not of whole pages.
    Misaligned,
    /// The address has no page, or its page is not one behind the first of the span.
    OutsideLease,
    /// The block begins before the page and ends behind it.
    CutsEntry { block: Block },
}

/// The page of an address, in bytes, where it is one behind the first of a span. Refused, in this order: `Misaligned` where
/// the address isn't of whole pages, and `OutsideLease` where its page isn't one behind the first of the span.
pub fn page_above<F: Format>(span: Span, at: u64) -> Result<u64, CutRefused>
    ensures found { IfOk result (λ page. IsCutPage F.layout span.first span.count at page) }
    ensures refused { IfErr result (λ why. RefusesCut F.layout span.first span.count at why) }
{
    if !is_whole::<F>(at) {
        return Err(CutRefused::Misaligned);
    }
    let Some(page) = page_of::<F>(at) else {
        return Err(CutRefused::OutsideLease)
    };
    if page <= span.first || page - span.first >= span.count {
        return Err(CutRefused::OutsideLease);
    }
    Ok(page)
}

/// The page at an address, in bytes, where the span may be cut in two there: both parts have a page, and no
/// block is on both sides. The causes of a refusal are those of `cut_at`.
pub fn cut_page<F: Format, H: Holder<F>>(holder: &mut H, at: u64) -> Result<u64, CutRefused>
    requires rest { Rests F.layout (H.view holder.old) }
    ensures stays { Stays H.space H.aside H.alone holder.old holder.new }
    ensures walked { ByLoads H.tells (H.view holder.old) (H.view holder.new) }
    ensures rest { KeepsRest F.layout (H.view holder.old) (H.view holder.new) }
    ensures answered { AnswersCut F.layout (H.view holder.old) at result }
    ensures page { IfOk result (λ page. page_at F.layout at ≡ Some page) }
{
    let page = page_above::<F>(holder.range(), at)?;
    let Some(block) = next_block::<F, H>(
        holder,
        Span {
            first: page,
            count: 1,
        },
    ) else {
        return Ok(page)
    };
    if block.first < page {
        return Err(CutRefused::CutsEntry { block });
    }
    Ok(page)
}

/// Whether the span may be cut in two at an address, in bytes. Nothing changes.
///
/// Refused, in this order: `Misaligned` where the address isn't of whole pages, `OutsideLease` where its page
/// isn't one behind the first of the span, and `CutsEntry` where a block begins before the page and ends behind it.
pub fn cut_at<F: Format, H: Holder<F>>(holder: &mut H, at: u64) -> Result<(), CutRefused>
    requires rest { Rests F.layout (H.view holder.old) }
    ensures stays { Stays H.space H.aside H.alone holder.old holder.new }
    ensures walked { ByLoads H.tells (H.view holder.old) (H.view holder.new) }
    ensures rest { KeepsRest F.layout (H.view holder.old) (H.view holder.new) }
    ensures answered { AnswersCut F.layout (H.view holder.old) at result }
{
    match cut_page::<F, H>(holder, at) {
        Ok(_) => Ok(()),
        Err(why) => Err(why),
    }
}
