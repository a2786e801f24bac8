//! A trial that refuses the candidates that have one choice.
#![tactic(auto)]

ghost use Rattle.std.specs.Prelude.{◌≡◌, Bool, true, not, [], ◌∷◌};
ghost use Rattle.lv_base.specs.Choices.{picks};
ghost use Rattle.search_tests.specs.Avoids.{has_it, others_lack_it};

use lv_base::search::has_pair;
use lv_base::{Candidate, Conflict, Pair};
use lv_search::{Trial, Tried};
use std::alloc::{AllocError, Global};

/// A choice that no candidate may have.
#[derive(Drop)]
pub struct Avoids {
    pub alloc: Global,
    pub pair: Pair,
}

impl Trial for Avoids {
    ghost suits = { λ s c. true };

    ghost fits = { λ s c. not (picks c.choices s.pair) };

    ghost reason = { λ s c. s.pair ∷ [] };

    ghost is_inside = { λ s c suits. has_it c.choices s.pair };

    ghost is_apart = { λ s c d _ _ _. others_lack_it d.choices s.pair };

    fn attempt(&mut self, candidate: &Candidate) -> Result<Tried, AllocError> {
        if has_pair(candidate.choices.as_slice(), self.pair) {
            Ok(Tried::Refused(Conflict::from_pairs(self.alloc, &[self.pair])?))
        } else {
            Ok(Tried::Fits)
        }
    }
}
