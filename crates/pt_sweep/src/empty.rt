//! The unlinking of tables that hold nothing.

ghost use Rattle.std.specs.Prelude.{◌+◌};
ghost use Rattle.pt_view.specs.Views.{KeepsRest, Stays};
ghost use Rattle.pt_walk.specs.Walks.{IsFree, Rests};
ghost use Rattle.pt_walk.specs.RangeWalks.{HasSpan};
ghost use Rattle.pt_sweep.specs.Empties.{UnlinksIn};

use crate::sweep::sweep_span;
use pt_format::{Format, Span};
use pt_view::Holder;

/// Unlinks every table off the spine whose span lies in a span of pages that no block meets. Their frames are in
/// front of the purse.
pub fn clear_empty<F: Format, H: Holder<F>>(holder: &mut H, span: Span)
    requires rest { Rests F.layout (H.view holder.old) }
    requires span { HasSpan (H.view holder.old) span.first span.count }
    requires free { IsFree F.layout (H.view holder.old) span.first (span.first + span.count) }
    ensures stays { Stays H.space H.aside H.alone holder.old holder.new }
    ensures rest { KeepsRest F.layout (H.view holder.old) (H.view holder.new) }
    ensures unlinks { UnlinksIn F.layout H.tells (H.alone holder.old) span.first span.count (H.view holder.old) (H.view holder.new) }
{
    sweep_span::<F, H>(holder, span, true);
}
