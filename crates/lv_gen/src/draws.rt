//! A linear congruential generator: each state is a multiple of the one before, moved on by an increment, modulo 2^64.
//! It is not random in any strong sense; what counts here is that one seed gives the same draws everywhere. A draw is
//! taken from the high bits, since the low ones repeat soon.
#![tactic(auto)]

ghost use Rattle.std.specs.Prelude.{◌≡◌, ◌<◌};
ghost use Rattle.lv_gen.specs.Draws.{next_state, draw_of};

/// What a state is multiplied by.
const MULTIPLIER: u64 = 6_364_136_223_846_793_005;

/// What is added to that.
const INCREMENT: u64 = 1_442_695_040_888_963_407;

/// The low bits of a state that a draw leaves out.
const LOW_BITS: u32 = 33;

/// A generator of draws, given by its state.
#[derive(Clone, Copy, Debug, PartialEq, Eq)]
pub struct Generator {
    pub state: u64,
}

impl Generator {
    /// The generator whose first state is the seed. No draw is taken from that state itself.
    pub fn new(seed: u64) -> Generator
        ensures { result.state ≡ seed }
    {
        Generator { state: seed }
    }

    /// Moves on to the next state and draws a number below the bound from it.
    pub fn draw(&mut self, bound: u64) -> u64
        requires { 0 < bound }
        ensures drawn { result ≡ draw_of bound self.new.state }
        ensures moved { self.new.state ≡ next_state self.old.state }
        ensures below { result < bound }
    {
        self.state = self.state.wrapping_mul(MULTIPLIER).wrapping_add(INCREMENT);
        (self.state >> LOW_BITS) % bound
    }
}
