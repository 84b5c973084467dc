//! Numbers drawn one after the other, the same ones each time.

ghost use Rattle.std.specs.Prelude.{◌≡◌, ◌<◌};
ghost use Rattle.pl_bench.specs.Draws.{next_state, number_at};

use std::marker::Model;

const FACTOR: u64 = 6_364_136_223_846_793_005;

const STEP: u64 = 1_442_695_040_888_963_407;

/// A sequence of draws: a linear congruential generator of 64 bits, seen as its state.
#[derive(Drop)]
pub struct Draws {
    state: u64,
}

impl Model for Draws {
    ghost use Rattle.std.specs.Prelude.{ℕ};

    ghost Value = { ℕ };

    ghost view = { λ d. d.state };
}

impl Draws {
    /// The sequence of this number, none drawn yet.
    pub fn new(number: u32) -> Draws
        ensures { result ≡ number }
    {
        Draws {
            state: u64::from(number),
        }
    }

    /// The next number below `below`, from the upper 31 bits of the state.
    #[tactic(auto, unfolding(crate::specs::Draws::next_state, crate::specs::Draws::number_at))]
    pub fn draw(&mut self, below: u32) -> u32
        requires { 0 < below }
        ensures state { self.new ≡ next_state self.old }
        ensures number { result ≡ number_at self.new below }
        ensures within { result < below }
    {
        self.state = self.state.wrapping_mul(FACTOR).wrapping_add(STEP);
        ((self.state >> 33) % u64::from(below)) as u32
    }
}
