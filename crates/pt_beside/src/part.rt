//! What a run asks of a part of a space.

ghost use Rattle.std.specs.Prelude.{◌≡◌, ◌≤◌, ◌<◌, ◌^◌, ◌*◌, length, None, IfOk};
ghost use Rattle.pt_model.specs.declared.reply.Answer.{Answer};
ghost use Rattle.pt_model.specs.declared.reply.Answer.TheVariants as answer;
ghost use Rattle.pt_model.specs.Cuts.{cut_refusal};
ghost use Rattle.pt_model.specs.Run.{fork_answer};
ghost use Rattle.pt_laws.specs.Need.{need};
ghost use Rattle.pt_beside.specs.Places.{Place, StaysIn, IsSound, MayAsk, IsAnswered, HasGathered, IsSplit, AreBeside, both};

use pt_model::{Answer, Command, ForkAnswer, What};
use pt_num::Memory;
use std::alloc::Global;

/// A part of a space while no call works on it, so that it may go to another thread. `G` is what a branch passes before its
/// first command. Cuts are addresses, in bytes.
pub trait Part<G>: Drop {
    /// Which space, its machine, the book of the part, and how many frames its purse has.
    ghost place: { Self → Place };

    /// What makes an answer one that has a text.
    ghost told: { Answer → Type 0 };

    /// Answers a command that is no line of a fork. `Memory` where there is none for the answer.
    fn answer(self, alloc: Global, what: What) -> (Self, Result<Answer, Memory>)
        requires { MayAsk (place self) what }
        ensures sound { IsSound (place self) }
        ensures stays { StaysIn (place self) (place result.0) }
        ensures answers { IfOk result.1 (IsAnswered (place self) (place result.0) what) }
        ensures told { IfOk result.1 told };

    /// Whether the span can be cut at an address.
    fn cut_at(self, at: u64) -> (Self, ForkAnswer)
        ensures sound { IsSound (place self) }
        ensures same { place result.0 ≡ place self }
        ensures answers { result.1 ≡ fork_answer (place self).machine (place self).book at }
        ensures told { told (answer.Fork result.1) };

    /// How many frames the maps of commands may take.
    fn need_of(&self, commands: &[Command]) -> u64
        requires { length commands.now < 2 ^ 32 }
        ensures need { result ≡ need (place self.now).machine commands.now }
        ensures few { result ≤ length commands.now * 2 ^ 32 };

    /// Draws frames until the purse has so many or none is free, and answers how many it has then.
    fn gather(self, count: u64) -> (Self, u32)
        ensures { HasGathered (place self) (place result.0) count result.1 };

    /// The parts before and from an address, at which the span can be cut. The left one has the first frames of the purse.
    fn split(self, at: u64, left_frames: u32) -> (Self, Self)
        requires admitted { cut_refusal (place self).machine.layout (place self).book at ≡ None }
        requires frames { left_frames ≤ (place self).purse }
        ensures { IsSplit (place self) at left_frames (place result.0) (place result.1) };

    /// One part of this one and the one that begins where it ends.
    fn join(self, right: Self) -> Self
        requires { AreBeside (place self) (place right) }
        ensures { place result ≡ both (place self) (place right) };

    /// Passes the gate, before the first command of the branch that a line opens.
    fn pass(self, gate: &G, branch: u32) -> Self
        ensures { place result ≡ place self };
}
