//! What benches count by: numbers that look random and are the same in each run, and the numbers that words say.
#![tactic(auto)]

ghost use Rattle.std.specs.Prelude.{◌≡◌, ◌≤◌, ◌<◌, length};

/// The state of a linear congruential generator.
#[derive(Debug, Drop)]
pub struct Numbers {
    pub state: u64,
}

impl Numbers {
    /// The generator that starts at a seed.
    pub fn new(seed: u64) -> Numbers
        ensures { result.state ≡ seed }
    {
        Numbers { state: seed }
    }

    /// The next number below a bound that isn't 0.
    pub fn below(&mut self, bound: u64) -> u64
        requires { 0 < bound }
        ensures { result < bound }
    {
        self.state = self
            .state
            .wrapping_mul(6_364_136_223_846_793_005)
            .wrapping_add(1_442_695_040_888_963_407);
        (self.state >> 33) % bound
    }
}

/// The number that a word says; 0 where it says none.
pub fn number_of(word: &str) -> u32 {
    word.parse::<u32>().unwrap_or(0)
}

/// The number that the word at a place says; 0 where there is no such word, or it says none.
pub fn number_at(words: &[String], place: usize) -> u32
    ensures { length words.now ≤ place → result ≡ 0 }
{
    match words.get(place) {
        Some(word) => number_of(word.as_str()),
        None => 0,
    }
}
