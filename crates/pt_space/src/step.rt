//! One step of one word.

ghost use Rattle.std.specs.Prelude.{◌≡◌, ℕ, ◌==◌, List};
ghost use prog.Atomic.{either};
ghost use Rattle.pt_view.specs.declared.view.View.{View};
ghost use Rattle.pt_view.specs.declared.view.Node.{Node};
ghost use Rattle.pt_view.specs.declared.view.Piece.{Piece};
ghost use Rattle.pt_rule.specs.Kinds.{Kind, retrace};
ghost use Rattle.pt_space.specs.Standing.{MayStep, Stepped, SteppedAbout};

use crate::space::Space;
use atomic_table::{Play, Seat};
use pt_format::Format;
use pt_view::View;
use std::marker::{Brand, PhantomData};

/// The kind of a step, and the path of the holder that makes it.
pub trait Step {
    ghost kind: { Kind };

    ghost path: { List Node };
}

impl Step for Brand {
    ghost use Rattle.std.specs.Prelude.{[]};
    ghost use Rattle.pt_rule.specs.Kinds.{load_root};

    ghost kind = { load_root };

    ghost path = { [] };
}

/// Where a holder makes a step, for the pick of its kind: the length of its path, and a frame and an entry.
#[derive(Clone, Copy)]
pub(crate) struct At {
    pub(crate) depth: u32,
    pub(crate) frame: u32,
    pub(crate) number: u32,
}

pub(crate) struct Makes<F: Format, J: Step> {
    of: PhantomData<(F, J)>,
}

impl<F: Format, J: Step> Play<(), View> for Makes<F, J> {
    ghost then = { λ _ m n w. Stepped F.layout m.0.frames m.0.levels J.kind (retrace J.path m.0) n w.0 × (w.1 ≡ m.1) };
}

/// A load of a word.
#[inline(always)]
pub(crate) fn load<F: Format, J: Step>(
    space: &Space<F>,
    seat: &mut Seat<(), View>,
    _at: At,
    word: usize,
) -> u64
    requires seat { seat.old.table_id ≡ space.now.table }
    requires may { MayStep F.layout space.now.frames space.now.levels J.kind J.path seat.old.me.0 word (λ found. found) }
    ensures seat { (seat.new.table_id ≡ seat.old.table_id) × (seat.new.id ≡ seat.old.id) × (seat.new.me.1 ≡ seat.old.me.1) }
    ensures stepped { Stepped F.layout space.now.frames space.now.levels J.kind (retrace J.path seat.old.me.0) result seat.new.me.0 }
{
    space.table.shared.load::<Makes<F, J>>(seat, word)
}

pub(crate) struct Stores<F: Format, J: Step> {
    of: PhantomData<(F, J)>,
}

impl<F: Format, J: Step> Play<(), View> for Stores<F, J> {
    ghost then = { λ _ m _ w. ((found : ℕ) × Stepped F.layout m.0.frames m.0.levels J.kind (retrace J.path m.0) found w.0) × (w.1 ≡ m.1) };
}

/// A store to a word. What it finds isn't told.
#[inline(always)]
pub(crate) fn store<F: Format, J: Step>(
    space: &Space<F>,
    seat: &mut Seat<(), View>,
    _at: At,
    word: usize,
    new: u64,
)
    requires seat { seat.old.table_id ≡ space.now.table }
    requires may { MayStep F.layout space.now.frames space.now.levels J.kind J.path seat.old.me.0 word (λ _. new) }
    ensures seat { (seat.new.table_id ≡ seat.old.table_id) × (seat.new.id ≡ seat.old.id) × (seat.new.me.1 ≡ seat.old.me.1) }
    ensures stepped { (found : ℕ) × Stepped F.layout space.now.frames space.now.levels J.kind (retrace J.path seat.old.me.0) found seat.new.me.0 }
{
    space.table.shared.store::<Stores<F, J>>(seat, word, new);
}

/// A store of zero to a word.
#[inline(always)]
pub(crate) fn store_zero<F: Format, J: Step>(
    space: &Space<F>,
    seat: &mut Seat<(), View>,
    at: At,
    word: usize,
)
    requires seat { seat.old.table_id ≡ space.now.table }
    requires may { MayStep F.layout space.now.frames space.now.levels J.kind J.path seat.old.me.0 word (λ _. 0) }
    ensures seat { (seat.new.table_id ≡ seat.old.table_id) × (seat.new.id ≡ seat.old.id) × (seat.new.me.1 ≡ seat.old.me.1) }
    ensures stepped { (found : ℕ) × Stepped F.layout space.now.frames space.now.levels J.kind (retrace J.path seat.old.me.0) found seat.new.me.0 }
{
    store::<F, J>(space, seat, at, word, 0);
}

/// An exchange of a word, from `old` to `new`. Answers the word as it was. It is tried once.
#[inline(always)]
pub(crate) fn exchange<F: Format, J: Step>(
    space: &Space<F>,
    seat: &mut Seat<(), View>,
    _at: At,
    word: usize,
    old: u64,
    new: u64,
) -> u64
    requires seat { seat.old.table_id ≡ space.now.table }
    requires may { MayStep F.layout space.now.frames space.now.levels J.kind J.path seat.old.me.0 word (λ found. either (found == old) new found) }
    ensures seat { (seat.new.table_id ≡ seat.old.table_id) × (seat.new.id ≡ seat.old.id) × (seat.new.me.1 ≡ seat.old.me.1) }
    ensures stepped { Stepped F.layout space.now.frames space.now.levels J.kind (retrace J.path seat.old.me.0) result seat.new.me.0 }
{
    space
        .table
        .shared
        .compare_exchange::<Makes<F, J>>(seat, word, old, new)
}

/// The kind of a step about a piece that isn't named, and the path of the holder that makes it.
pub trait PieceStep {
    ghost kind: { Piece → Kind };

    ghost path: { List Node };
}

impl PieceStep for Brand {
    ghost use Rattle.std.specs.Prelude.{[]};
    ghost use Rattle.pt_rule.specs.Kinds.{write};

    ghost kind = { write 0 0 };

    ghost path = { [] };
}

pub(crate) struct StoresPiece<F: Format, J: PieceStep> {
    of: PhantomData<(F, J)>,
}

impl<F: Format, J: PieceStep> Play<(), View> for StoresPiece<F, J> {
    ghost then = { λ s m _ w. SteppedAbout F.layout m.0.frames m.0.levels J.kind (retrace J.path m.0) s.first w.0 × (w.1 ≡ m.1) };
}

/// A store to an entry about some piece.
#[inline(always)]
pub(crate) fn store_piece<F: Format, J: PieceStep>(
    space: &Space<F>,
    seat: &mut Seat<(), View>,
    _at: At,
    word: usize,
    new: u64,
)
    requires seat { seat.old.table_id ≡ space.now.table }
    requires may { (x : Piece) × MayStep F.layout space.now.frames space.now.levels (J.kind x) J.path seat.old.me.0 word (λ _. new) }
    ensures seat { (seat.new.table_id ≡ seat.old.table_id) × (seat.new.id ≡ seat.old.id) × (seat.new.me.1 ≡ seat.old.me.1) }
    ensures stepped { SteppedAbout F.layout space.now.frames space.now.levels J.kind (retrace J.path seat.old.me.0) new seat.new.me.0 }
{
    space
        .table
        .shared
        .store::<StoresPiece<F, J>>(seat, word, new);
}
