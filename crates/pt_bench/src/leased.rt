//! Loads over a lease of a space that is shared.

ghost use Rattle.std.specs.Prelude.{◌≡◌, ◌≤◌, [], IfOk};
ghost use Rattle.pt_view.specs.Views.{IsAtRest, Rests};
ghost use Rattle.pt_bench.specs.Spans.{IsTallyOf, SameSpan};

use crate::halves::{halves, together};
use crate::load::{Tally, Work, run_work};
use crate::size::frames_of;
use pt_format::Format;
use pt_num::Memory;
use pt_space::{Lease, Space};
use pt_view::Holder;
use std::alloc::Global;

/// Runs a work over the lower half of a lease's pages, of that half's, and so on so many times, with all frames.
fn run_low<'a, F: Format>(lease: Lease<'a, F>, halvings: u32, work: Work) -> (Lease<'a, F>, Tally)
    requires blank { IsAtRest F.layout lease.view [] }
    ensures space { result.0.space ≡ lease.entry.space }
    ensures span { SameSpan lease.entry.view result.0.view }
    ensures rest { Rests F.layout result.0.view }
    ensures most { IsTallyOf work.count result.1.made result.1.found }
{
    if halvings == 0 || lease.range().count < 2 {
        let mut lease = lease;
        let tally = run_work::<F, Lease<'a, F>>(&mut lease, 0, work);
        return (lease, tally);
    }
    let held = lease.purse();
    let (left, right) = halves(lease, held);
    let (left, tally) = run_low(left, halvings - 1, work);
    (together(left, right), tally)
}

/// Runs a work in a new space, of the fewest levels of the format, over the lease of its pages, halved so many times.
pub fn run_leased<F: Format>(alloc: Global, halvings: u32, work: Work) -> Result<Tally, Memory>
    ensures { IfOk result (λ tally. IsTallyOf work.count tally.made tally.found) }
{
    let frames = frames_of::<F>();
    let (space, pass) = Space::<F>::make(alloc, frames, F::START, frames - 1)?;
    let (lease, tally) = run_low(space.lease(pass), halvings, work);
    let pass = lease.pass();
    space.close(pass)?;
    Ok(tally)
}
