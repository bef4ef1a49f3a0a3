// The generator of numbers.
ghost use Rattle.std.specs.Prelude.{◌≡◌, ◌<◌, ◌^◌};
ghost use Rattle.demo_desk.specs.Draws.{next_state, value_of};

use std::marker::Model;

/// A generator of numbers: a linear congruence modulo 2^64 with the constants of MMIX (Knuth, The Art of Computer
/// Programming, volume 2, section 3.3.4), of whose state the upper 31 bits are given.
#[derive(Drop)]
pub struct Generator {
    state: u64,
}

impl Model for Generator {
    ghost use Rattle.std.specs.Prelude.{ℕ};

    ghost Value = { ℕ };

    ghost view = { λ g. g.state };
}

const MULTIPLIER: u64 = 6_364_136_223_846_793_005;

const INCREMENT: u64 = 1_442_695_040_888_963_407;

impl Generator {
    /// A generator that starts at a seed.
    pub fn new(seed: u32) -> Generator
        ensures { result ≡ seed }
    {
        Generator { state: seed as u64 }
    }

    /// The value of the next draw, below 2^31.
    pub fn draw(&mut self) -> u32
        ensures state { self.new ≡ next_state self.old }
        ensures value { result ≡ value_of self.new }
        ensures small { result < 2 ^ 31 }
    {
        self.state = self.state.wrapping_mul(MULTIPLIER).wrapping_add(INCREMENT);
        (self.state >> 33) as u32
    }
}
