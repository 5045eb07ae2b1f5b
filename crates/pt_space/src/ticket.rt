//! The form in which a pass crosses to another thread.

ghost use Rattle.std.specs.Prelude.{◌≡◌};

use crate::pass::Pass;
use pt_format::Format;
use std::marker::Model;

/// A pass on its way to another thread. What a thread is handed may be dropped: the range of a dropped ticket stays as it
/// is, and its space can't be closed.
pub struct Ticket<F: Format> {
    pass: Pass<F>,
}

impl<F: Format> Model for Ticket<F> {
    ghost use Rattle.pt_space.specs.Standing.{Standing};

    ghost Value = { Standing };

    ghost view = { λ s. s.pass };
}

impl<F: Format> Ticket<F> {
    /// The ticket of a pass.
    pub fn of(pass: Pass<F>) -> Ticket<F>
        ensures { result ≡ pass }
    {
        Ticket { pass }
    }

    /// The pass again.
    pub fn pass(self) -> Pass<F>
        ensures { result ≡ self }
    {
        let Ticket { pass } = self;
        pass
    }
}

impl<F: Format> Drop for Ticket<F> {
    fn drop(self) {
        let Pass {
            seat: _,
            frames: _,
            levels: _,
            first: _,
            count: _,
            head: _,
            held: _,
            format: _,
        } = self.pass();
    }
}
