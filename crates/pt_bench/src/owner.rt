//! Loads over the words of one owner.

ghost use Rattle.std.specs.Prelude.{◌≤◌, IfOk};
ghost use Rattle.pt_bench.specs.Spans.{IsTallyOf};

use crate::load::{Tally, Work, run_work};
use crate::size::frames_of;
use pt_format::Format;
use pt_num::Memory;
use pt_plain::Plain;
use std::alloc::Global;

/// Runs a work in a new space of one owner, of the fewest levels of the format.
pub fn run_owned<F: Format>(alloc: Global, work: Work) -> Result<Tally, Memory>
    ensures { IfOk result (λ tally. IsTallyOf work.count tally.made tally.found) }
{
    let frames = frames_of::<F>();
    let mut plain = Plain::<F>::make(alloc, frames, F::START, frames - 1)?;
    Ok(run_work::<F, Plain<F>>(&mut plain, 0, work))
}
