//! What a run asks of an owner, by one of a whole space.

ghost use Rattle.std.specs.Prelude.{◌≡◌};
ghost use Rattle.pt_model.specs.Run.{refused_fork};
ghost use Rattle.pt_walk.specs.SpanCuts.{refusal_of};

use crate::narrowed::{Narrowed, Narrowing};
use crate::span::outside_answer;
use pt_forks::Owner;
use pt_format::{Format, Span, page_under};
use pt_model::{Answer, ForkAnswer, What};
use pt_num::Memory;
use pt_plain::Plain;
use pt_reply::answer;
use pt_script::Side;
use pt_view::Holder;
use pt_walk::{CutRefused, cut_at, page_above};
use std::alloc::Global;

/// The answer to a fork that is refused.
fn refused_fork(why: CutRefused) -> ForkAnswer
    ensures { result ≡ refused_fork (refusal_of why) }
{
    match why {
        CutRefused::Misaligned => ForkAnswer::Misaligned,
        CutRefused::OutsideLease => ForkAnswer::Outside,
        CutRefused::CutsEntry { block } => ForkAnswer::Cuts { block },
    }
}

impl<F: Format> Owner for Narrowed<F> {
    ghost use Rattle.pt_reply.specs.Telling.{IsTellable};
    ghost use Rattle.pt_narrow.specs.Standing.{place_of};

    ghost place = { λ s. place_of F.layout s };

    ghost told = { IsTellable F.layout };

    fn answer(&mut self, alloc: Global, what: What) -> Result<Answer, Memory> {
        if let What::Dump = what {
            return Ok(Answer::Dump(self.dump(alloc)?));
        }
        let span = Span {
            first: self.first,
            count: self.count,
        };
        if let Some(refused) = outside_answer::<F>(span, what) {
            return Ok(refused);
        }
        answer::<F, Plain<F>>(alloc, &mut self.plain, what)
    }

    fn cut_at(&mut self, at: u64) -> ForkAnswer {
        // that the book at rest is lawful is part of the answer
        let _whole = self.plain.range();
        let span = Span {
            first: self.first,
            count: self.count,
        };
        if let Err(why) = page_above::<F>(span, at) {
            return refused_fork(why);
        }
        match cut_at::<F, Plain<F>>(&mut self.plain, at) {
            Ok(()) => ForkAnswer::Forked,
            Err(why) => refused_fork(why),
        }
    }

    fn narrow(&mut self, at: u64, side: Side) {
        let page = page_under::<F>(at);
        let before = page - self.first;
        self.cuts.push(Narrowing {
            first: self.first,
            count: self.count,
            at: page,
        });
        match side {
            Side::Left => self.count = before,
            Side::Right => {
                self.first = page;
                self.count -= before;
            }
        }
    }

    fn widen(&mut self) {
        let Some(cut) = self.cuts.pop() else {
            unreachable!()
        };
        self.first = cut.first;
        self.count = cut.count;
    }
}
