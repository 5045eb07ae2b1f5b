//! Two and three leases side by side that go on in turns.

ghost use Rattle.std.specs.Prelude.{◌≡◌, ◌^◌, ◌<◌};
ghost use Rattle.pt_model.specs.Layout.{input_pages};
ghost use Rattle.pt_view.specs.Views.{Rests};
ghost use Rattle.space_cases.specs.Racing.{IsIdle, Moves};
ghost use Rattle.space_cases.specs.Pairs.{IsPair, IsTrio};
ghost use Rattle.space_cases.specs.Stages.{MayGoTo};

use crate::racer::{Goal, Stage, rest, turn};
use pt_format::Format;
use pt_space::Lease;
use std::marker::Model;

/// A lease on its way to a goal.
pub struct Racer<'a, F: Format> {
    lease: Lease<'a, F>,
    goal: Goal,
    stage: Stage,
}

impl<'a, F: Format> Model for Racer<'a, F> {
    ghost use Rattle.std.specs.Prelude.{◌^◌, ◌<◌};
    ghost use Rattle.pt_space.specs.Standing.{Standing};
    ghost use Rattle.space_cases.specs.Stages.{IsAt};

    ghost Value = { Standing };

    ghost view = { λ s. s.lease };

    ghost invariant = { λ s. IsAt F.layout s.goal s.stage s.lease.view × (s.lease.view.first < 2 ^ F.layout.index) };
}

impl<'a, F: Format> Racer<'a, F> {
    /// A lease at rest, before its first call.
    pub fn of(lease: Lease<'a, F>, goal: Goal) -> Racer<'a, F>
        requires idle { IsIdle lease.view }
        requires may { MayGoTo F.layout goal lease.view }
        requires near { lease.view.first < 2 ^ F.layout.index }
        ensures { result ≡ lease.entry }
    {
        Racer {
            lease,
            goal,
            stage: Stage::Idle,
        }
    }

    /// Makes the next call.
    pub fn turn(&mut self)
        ensures { Moves self.old self.new }
    {
        let stage = turn(&mut self.lease, self.goal, self.stage);
        self.stage = stage;
    }

    /// The lease at rest, whatever calls were made.
    pub fn rest(self) -> Lease<'a, F>
        ensures moves { Moves self.entry result }
        ensures rest { Rests F.layout result.view }
    {
        let Racer {
            mut lease,
            goal,
            stage,
        } = self;
        rest(&mut lease, goal, stage);
        lease
    }
}

/// Two racers that have the whole space.
pub struct Pair<'a, F: Format> {
    left: Racer<'a, F>,
    right: Racer<'a, F>,
}

impl<'a, F: Format> Model for Pair<'a, F> {
    ghost use Rattle.pt_space.specs.Standing.{SpaceId};
    ghost use Rattle.space_cases.specs.Pairs.{IsPair};

    ghost Value = { SpaceId };

    ghost view = { λ s. s.left.space };

    ghost invariant = { λ s. IsPair F.layout s.left s.right };
}

impl<'a, F: Format> Pair<'a, F> {
    /// Two racers side by side.
    pub fn of(left: Racer<'a, F>, right: Racer<'a, F>) -> Pair<'a, F>
        requires { IsPair F.layout left right }
        ensures { result ≡ left.entry.space }
    {
        Pair { left, right }
    }

    /// Goes through an order of eight turns: those of the left racer are the ones of its bits.
    pub fn run(&mut self, order: u32)
        ensures { self.new ≡ self.old }
    {
        for place in 0..8u32 {
            self.turn(order >> place & 1 == 1);
        }
    }

    /// One of them makes its next call.
    fn turn(&mut self, left: bool)
        ensures { self.new ≡ self.old }
    {
        if left {
            self.left.turn();
        } else {
            self.right.turn();
        }
    }

    /// One lease of the whole space, at rest.
    pub fn join(self) -> Lease<'a, F>
        ensures space { result.space ≡ self.entry }
        ensures whole { result.view.count ≡ input_pages F.layout }
        ensures rest { Rests F.layout result.view }
    {
        let Pair { left, right } = self;
        let joined = left.rest().join(right.rest());
        let Ok(whole) = joined else { unreachable!() };
        whole
    }
}

/// Three racers that have the whole space.
pub struct Trio<'a, F: Format> {
    left: Racer<'a, F>,
    middle: Racer<'a, F>,
    right: Racer<'a, F>,
}

impl<'a, F: Format> Model for Trio<'a, F> {
    ghost use Rattle.pt_space.specs.Standing.{SpaceId};
    ghost use Rattle.space_cases.specs.Pairs.{IsTrio};

    ghost Value = { SpaceId };

    ghost view = { λ s. s.left.space };

    ghost invariant = { λ s. IsTrio F.layout s.left s.middle s.right };
}

impl<'a, F: Format> Trio<'a, F> {
    /// Three racers, one after the other.
    pub fn of(left: Racer<'a, F>, middle: Racer<'a, F>, right: Racer<'a, F>) -> Trio<'a, F>
        requires { IsTrio F.layout left middle right }
        ensures { result ≡ left.entry.space }
    {
        Trio {
            left,
            middle,
            right,
        }
    }

    /// Goes through an order of six turns, each of two calls: its digits to base 3 say whose they are.
    pub fn run(&mut self, order: u32)
        ensures { self.new ≡ self.old }
    {
        let mut left = order;
        for _ in 0..6u32 {
            self.turn(left % 3);
            self.turn(left % 3);
            left = left / 3;
        }
    }

    /// One of them makes its next call.
    fn turn(&mut self, number: u32)
        ensures { self.new ≡ self.old }
    {
        match number {
            0 => self.left.turn(),
            1 => self.middle.turn(),
            _ => self.right.turn(),
        }
    }

    /// One lease of the whole space, at rest.
    pub fn join(self) -> Lease<'a, F>
        ensures space { result.space ≡ self.entry }
        ensures whole { result.view.count ≡ input_pages F.layout }
        ensures rest { Rests F.layout result.view }
    {
        let Trio {
            left,
            middle,
            right,
        } = self;
        let joined = left.rest().join(middle.rest());
        let Ok(both) = joined else { unreachable!() };
        let joined = both.join(right.rest());
        let Ok(whole) = joined else { unreachable!() };
        whole
    }
}
