//! Leases that are cut in halves, and come together again.

ghost use Rattle.std.specs.Prelude.{◌≡◌, ◌+◌, ◌≤◌, [], length};
ghost use Rattle.pt_view.specs.Views.{IsAtRest, Rests};
ghost use Rattle.pt_bench.specs.Spans.{AreBeside};

use pt_format::Format;
use pt_space::{Lease, Ticket};
use pt_view::Holder;

/// The lease of the lower half of the pages, with so many frames of the purse, and that of the others. Nothing is mapped there.
pub fn halves<'a, F: Format>(lease: Lease<'a, F>, left_frames: u32) -> (Lease<'a, F>, Lease<'a, F>)
    requires blank { IsAtRest F.layout lease.view [] }
    requires pages { 2 ≤ lease.view.count }
    requires frames { left_frames ≤ length lease.view.purse }
    ensures space { (result.0.space ≡ lease.entry.space) × (result.1.space ≡ lease.entry.space) }
    ensures beside { AreBeside lease.entry.view result.0.view result.1.view }
    ensures blank { IsAtRest F.layout result.0.view [] × IsAtRest F.layout result.1.view [] }
{
    let span = lease.range();
    lease.split(span.first + span.count / 2, left_frames)
}

/// The lease of the pages of two that are beside each other.
pub fn together<'a, F: Format>(left: Lease<'a, F>, right: Lease<'a, F>) -> Lease<'a, F>
    requires space { right.space ≡ left.space }
    requires beside { right.view.first ≡ left.view.first + left.view.count }
    requires rest { Rests F.layout left.view × Rests F.layout right.view }
    ensures space { result.space ≡ left.entry.space }
    ensures beside { AreBeside result.view left.entry.view right.entry.view }
    ensures rest { Rests F.layout result.view }
{
    match left.join(right) {
        Ok(both) => both,
        Err((left, right)) => {
            // they are beside each other, so this never comes
            let _right = Ticket::of(right.pass());
            left
        }
    }
}
