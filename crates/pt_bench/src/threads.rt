//! Rounds over leases of one space, each on a thread of its own.

ghost use Rattle.std.specs.Prelude.{◌≡◌, ◌≤◌, [], IfOk};
ghost use Rattle.std.specs.Thread.{IsSync};
ghost use Rattle.pt_view.specs.Views.{IsAtRest, Rests};
ghost use Rattle.pt_bench.specs.Spans.{ComesBack, SameSpan};

use crate::halves::{halves, together};
use crate::load::{Load, Work, run_work};
use crate::size::frames_of;
use pt_format::Format;
use pt_num::Memory;
use pt_space::{Lease, Space, Ticket};
use pt_view::Holder;
use std::alloc::Global;
use std::thread::{Threads, join};

/// The pages of a round.
const PAGES: u32 = 16_384;

/// Maps the pages of a round, which go up from an address, looks each up, and takes each away. Whether all was done.
fn make_round<F: Format, H: Holder<F>>(holder: &mut H, base: u64) -> bool
    requires rest { Rests F.layout (H.view holder.old) }
    ensures back { ComesBack F.layout H.space H.view holder.old holder.new }
{
    let pages = Work {
        load: Load::Pages,
        count: PAGES,
        lookups: true,
    };
    let away = Work {
        load: Load::Away,
        count: PAGES,
        lookups: false,
    };
    let there = run_work::<F, H>(holder, base, pages);
    let gone = run_work::<F, H>(holder, base, away);
    there.made == PAGES && there.found == PAGES && gone.made == PAGES
}

/// Makes so many rounds, and answers how many of them were whole.
fn make_rounds<F: Format, H: Holder<F>>(holder: &mut H, rounds: u32) -> u32
    requires rest { Rests F.layout (H.view holder.old) }
    ensures back { ComesBack F.layout H.space H.view holder.old holder.new }
    ensures most { result ≤ rounds }
{
    let base = holder.range().first << F::GRANULE;
    let mut whole = 0;
    for _ in 0..rounds {
        whole += u32::from(make_round::<F, H>(holder, base));
    }
    whole
}

/// Makes so many rounds over the pass of a ticket, or over its halves beside each other, over theirs, and so on so many times.
/// Answers the ticket of these pages, and how many rounds were whole at each lease.
#[cycle(run_beside)]
fn run_beside<F: Format + Send + Sync, R: Threads + Sync>(
    rt: &R,
    space: &Space<F>,
    ticket: Ticket<F>,
    halvings: u32,
    rounds: u32,
) -> (Ticket<F>, u32)
    requires space { ticket.space ≡ space.now }
    requires blank { IsAtRest F.layout ticket.view [] }
    ensures space { result.0.space ≡ space.now }
    ensures span { SameSpan ticket.view result.0.view }
    ensures rest { Rests F.layout result.0.view }
    ensures most { result.1 ≤ rounds }
{
    let mut lease = space.lease(ticket.pass());
    if halvings == 0 || lease.range().count < 2 {
        let whole = make_rounds::<F, Lease<'_, F>>(&mut lease, rounds);
        return (Ticket::of(lease.pass()), whole);
    }
    let fewer = halvings - 1;
    let held = lease.purse();
    let (left, right) = halves(lease, held / 2);
    let (left, right) = (Ticket::of(left.pass()), Ticket::of(right.pass()));
    let ((left, one), (right, two)) = join(
        rt,
        || -> (Ticket<F>, u32)
            requires sync { IsSync R.row }
            requires space { left.space ≡ space.now }
            requires blank { IsAtRest F.layout left.view [] }
            ensures space { result.0.space ≡ space.entry.now }
            ensures span { SameSpan left.view result.0.view }
            ensures rest { Rests F.layout result.0.view }
            ensures most { result.1 ≤ rounds }
        { run_beside(rt, space, left, fewer, rounds) },
        || -> (Ticket<F>, u32)
            requires sync { IsSync R.row }
            requires space { right.space ≡ space.now }
            requires blank { IsAtRest F.layout right.view [] }
            ensures space { result.0.space ≡ space.entry.now }
            ensures span { SameSpan right.view result.0.view }
            ensures rest { Rests F.layout result.0.view }
            ensures most { result.1 ≤ rounds }
        { run_beside(rt, space, right, fewer, rounds) },
    );
    let both = together(space.lease(left.pass()), space.lease(right.pass()));
    (Ticket::of(both.pass()), one.min(two))
}

/// Makes so many rounds in a new space, of the fewest levels of the format, over each of the leases of its pages halved so many
/// times, beside each other. Answers how many rounds were whole at each lease.
pub fn run_rounds<F: Format + Send + Sync, R: Threads + Sync>(
    rt: &R,
    alloc: Global,
    halvings: u32,
    rounds: u32,
) -> Result<u32, Memory>
    ensures { IfOk result (λ whole. whole ≤ rounds) }
{
    let frames = frames_of::<F>();
    let (space, pass) = Space::<F>::make(alloc, frames, F::START, frames - 1)?;
    let (ticket, whole) = run_beside(rt, &space, Ticket::of(pass), halvings, rounds);
    space.close(ticket.pass())?;
    Ok(whole)
}
