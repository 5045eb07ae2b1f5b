//! A range of a shared space between calls.

ghost use Rattle.std.specs.Prelude.{◌≡◌, IsTrue};
ghost use Rattle.pt_reply.specs.Running.{IsReady};
ghost use Rattle.pt_reply.specs.Telling.{has_small_blocks};

use pt_format::Format;
use pt_space::{Lease, Space, Ticket};
use pt_view::Holder;
use std::marker::Model;

/// A range of a shared space between calls.
#[derive(Drop)]
pub struct Shared<'a, F: Format> {
    pub(crate) space: &'a Space<F>,
    ticket: Ticket<F>,
    pub(crate) frames: u32,
    pub(crate) levels: u32,
}

impl<'a, F: Format> Model for Shared<'a, F> {
    ghost use Rattle.pt_space.specs.Standing.{Standing};
    ghost use Rattle.pt_shared.specs.Parts.{IsShared};

    ghost Value = { Standing };

    ghost view = { λ s. s.ticket };

    ghost invariant = { λ s. IsShared F.layout s.space.now s.ticket s.frames s.levels };
}

impl<'a, F: Format> Shared<'a, F> {
    /// A lease at rest, of this space.
    pub fn of(space: &'a Space<F>, lease: Lease<'a, F>) -> Shared<'a, F>
        requires small { IsTrue (has_small_blocks F.layout) }
        requires space { lease.space ≡ space.now }
        requires ready { IsReady F.layout lease.view }
        ensures { result ≡ lease.entry }
    {
        let frames = lease.frames();
        let levels = lease.levels();
        // that the book at rest is lawful is part of what is told
        let _span = lease.range();
        Shared {
            space,
            ticket: Ticket::of(lease.pass()),
            frames,
            levels,
        }
    }

    /// The lease, at rest.
    pub fn lease(self) -> Lease<'a, F>
        ensures same { result ≡ self.entry }
        ensures ready { IsReady F.layout result.view }
    {
        let Shared {
            space,
            ticket,
            frames: _,
            levels: _,
        } = self;
        space.lease(ticket.pass())
    }
}
