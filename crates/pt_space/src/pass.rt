//! The right to a range while it isn't in use.

use atomic_table::Seat;
use pt_format::Format;
use pt_view::View;
use std::marker::{Model, PhantomData};

/// The right to a range of a space while no lease uses it. It must be spent.
pub struct Pass<F: Format> {
    pub(crate) seat: Seat<(), View>,
    pub(crate) frames: u32,
    pub(crate) levels: u32,
    pub(crate) first: u64,
    pub(crate) count: u64,
    pub(crate) head: Option<u32>,
    pub(crate) held: u32,
    pub(crate) format: PhantomData<F>,
}

impl<F: Format> Model for Pass<F> {
    ghost use Rattle.std.specs.Prelude.{◌≡◌, [], ◌∷◌, None};
    ghost use Rattle.pt_rule.specs.Kinds.{retrace};
    ghost use Rattle.pt_space.specs.Standing.{Standing, Shows};

    ghost Value = { Standing };

    ghost view = { λ s. record { space = record { table = s.seat.table_id; frames = s.frames; levels = s.levels }; view = retrace [] s.seat.me.0 } };

    ghost invariant = { λ s. (s.seat.me.1 ≡ []) × Shows F.layout s.frames s.levels s.seat.me.0 (record { first = s.first; count = s.count; head = s.head; held = s.held; path = []; depth = 0; level = 0; prepared = None }) };
}
