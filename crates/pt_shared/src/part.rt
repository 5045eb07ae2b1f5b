//! What a run asks of a part, by a range of a shared space.

ghost use Rattle.std.specs.Prelude.{◌≡◌, Result};
ghost use Rattle.pt_shared.specs.Parts.{fork_said};

use crate::gate::Gate;
use crate::shared::Shared;
use pt_beside::Part;
use pt_format::{Format, page_under};
use pt_made::need_on;
use pt_model::{Answer, Command, ForkAnswer, What};
use pt_num::Memory;
use pt_reply::answer;
use pt_space::{Lease, Ticket};
use pt_sweep::draw;
use pt_view::Holder;
use pt_walk::{CutRefused, cut_at};
use std::alloc::Global;

/// The answer to a fork.
fn said(done: Result<(), CutRefused>) -> ForkAnswer
    ensures { result ≡ fork_said done }
{
    match done {
        Ok(()) => ForkAnswer::Forked,
        Err(CutRefused::Misaligned) => ForkAnswer::Misaligned,
        Err(CutRefused::OutsideLease) => ForkAnswer::Outside,
        Err(CutRefused::CutsEntry { block }) => ForkAnswer::Cuts { block },
    }
}

impl<'a, F: Format, G: Gate> Part<G> for Shared<'a, F> {
    ghost use Rattle.pt_reply.specs.Telling.{IsTellable};
    ghost use Rattle.pt_shared.specs.Parts.{place_of};

    ghost place = { λ s. place_of F.layout s };

    ghost told = { IsTellable F.layout };

    fn answer(self, alloc: Global, what: What) -> (Self, Result<Answer, Memory>) {
        let space = self.space;
        let mut lease = self.lease();
        let answered = answer::<F, Lease<'_, F>>(alloc, &mut lease, what);
        (Shared::of(space, lease), answered)
    }

    fn cut_at(self, at: u64) -> (Self, ForkAnswer) {
        let space = self.space;
        let mut lease = self.lease();
        let done = cut_at::<F, Lease<'_, F>>(&mut lease, at);
        (Shared::of(space, lease), said(done))
    }

    fn need_of(&self, commands: &[Command]) -> u64 {
        need_on::<F>(self.levels, self.frames, commands)
    }

    fn gather(self, count: u64) -> (Self, u32) {
        let space = self.space;
        let most = u64::from(self.frames);
        let mut lease = self.lease();
        let lack = count.saturating_sub(u64::from(lease.purse())).min(most);
        draw::<F, Lease<'_, F>>(&mut lease, lack as u32);
        let held = lease.purse();
        (Shared::of(space, lease), held)
    }

    fn split(self, at: u64, left_frames: u32) -> (Self, Self) {
        let space = self.space;
        let (left, right) = self.lease().split(page_under::<F>(at), left_frames);
        (Shared::of(space, left), Shared::of(space, right))
    }

    fn join(self, right: Self) -> Self {
        let space = self.space;
        match self.lease().join(right.lease()) {
            Ok(both) => Shared::of(space, both),
            Err((left, right)) => {
                // they meet, so this never comes
                let _right = Ticket::of(right.pass());
                Shared::of(space, left)
            }
        }
    }

    fn pass(self, gate: &G, branch: u32) -> Self {
        let space = self.space;
        let mut lease = self.lease();
        gate.pass::<F>(branch, &mut lease);
        Shared::of(space, lease)
    }
}
