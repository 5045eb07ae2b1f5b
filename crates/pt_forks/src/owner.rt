//! What a run asks of an owner.

ghost use Rattle.std.specs.Prelude.{◌≡◌, ◌<◌, ℕ, List, length, true, Some, None, IfOk, OnOk};
ghost use Rattle.pt_model.specs.declared.reply.Answer.{Answer};
ghost use Rattle.pt_model.specs.declared.reply.Answer.TheVariants as answer;
ghost use Rattle.pt_model.specs.Cuts.{cut_refusal};
ghost use Rattle.pt_model.specs.Run.{fork_answer, answer_to, book_after};
ghost use Rattle.pt_laws.specs.OneText.{is_call};
ghost use Rattle.pt_forks.specs.Places.{Place, StaysIn, account_says, narrowed, IsWidened};

use pt_model::{Answer, ForkAnswer, What};
use pt_num::Memory;
use pt_script::Side;
use std::alloc::Global;

/// One owner of a whole space, who stands in a span of it. Cuts are addresses, in bytes.
pub trait Owner {
    /// The machine that the owner is, the book of the whole space in the present span, and the cuts that it stands in.
    ghost place: { Self → Place };

    /// What makes an answer one that has a text.
    ghost told: { Answer → Type 0 };

    /// Answers a command that is no line of a fork.
    fn answer(&mut self, alloc: Global, what: What) -> Result<Answer, Memory>
        requires { is_call what ≡ true }
        ensures stays { StaysIn (place self.old) (place self.new) }
        ensures answers { IfOk result (λ a. answer_to (place self.old).machine (place self.old).book (account_says (place self.old) what) what ≡ Some a) }
        ensures book { OnOk result ((place self.new).book ≡ book_after (place self.old).machine (place self.old).book (account_says (place self.old) what) what) }
        ensures told { IfOk result told };

    /// Whether the span can be cut at an address.
    fn cut_at(&mut self, at: u64) -> ForkAnswer
        ensures stays { place self.new ≡ place self.old }
        ensures answers { result ≡ fork_answer (place self.old).machine (place self.old).book at }
        ensures told { told (answer.Fork result) };

    /// Goes into a part of the span, which can be cut there.
    fn narrow(&mut self, at: u64, side: Side)
        requires admitted { cut_refusal (place self.old).machine.layout (place self.old).book at ≡ None }
        requires few { length (place self.old).cuts < 16 }
        ensures { place self.new ≡ narrowed (place self.old) at side };

    /// Takes the span back from before the last cut, which no block crosses.
    fn widen(&mut self)
        requires { 0 < length (place self.old).cuts }
        ensures { IsWidened (place self.old) (place self.new) };
}
