//! Numbers that look random.

ghost use Rattle.std.specs.Prelude.{◌≡◌, ◌<◌, ◌^◌};
ghost use Rattle.pt_made.specs.Draws.{next, drawn};

const MULTIPLIER: u64 = 6_364_136_223_846_793_005;

const INCREMENT: u64 = 1_442_695_040_888_963_407;

/// A linear congruential generator.
#[derive(Drop)]
pub(crate) struct Draws {
    pub(crate) state: u64,
}

impl Draws {
    /// The next number, below `2^31`.
    pub(crate) fn draw(&mut self) -> u64
        ensures number { result ≡ drawn (next self.old.state) }
        ensures state { self.new.state ≡ next self.old.state }
        ensures few { result < 2 ^ 31 }
    {
        self.state = self.state.wrapping_mul(MULTIPLIER).wrapping_add(INCREMENT);
        self.state >> 33
    }
}
