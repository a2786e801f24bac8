//! What a search wants of its trial: it tells of one candidate whether it fits, and else which of its choices can't stand
//! together.
#![tactic(auto)]

ghost use Rattle.std.specs.Prelude.{◌≡◌, Bool, true, false, List, IfOk, IsTrue};
ghost use Rattle.lv_base.specs.declared.search.Pair.{Pair};
ghost use Rattle.lv_base.specs.declared.search.Candidate.{Candidate};
ghost use Rattle.lv_base.specs.Choices.{contains_all};

use lv_base::{Candidate, Conflict};
use std::alloc::AllocError;

/// The answer of a trial: the candidate fits, or these of its choices can't stand together.
#[derive(Debug, Drop)]
pub enum Tried {
    Fits,
    Refused(Conflict),
}

/// A trial has three meanings: which candidates suit it, which of these fit, and of one that doesn't fit the reason, a
/// conflict. The reason is contained in the candidate, and in no candidate that fits.
pub trait Trial {
    ghost use Rattle.lv_search.specs.Trial.{Tells};

    ghost suits: { Self → Candidate → Bool };

    ghost fits: { Self → Candidate → Bool };

    ghost reason: { Self → Candidate → List Pair };

    /// Tries a candidate that suits. What contracts see of the trial stays as it was, after want of memory too.
    fn attempt(&mut self, candidate: &Candidate) -> Result<Tried, AllocError>
        requires { IsTrue (suits self.old candidate.now) }
        ensures told { IfOk result (λ tried. Tells tried (fits self.old candidate.now) (reason self.old candidate.now)) }
        ensures same { self.new ≡ self.old };

    ghost is_inside: { (s : Self) (c : Candidate) → suits s c ≡ true → fits s c ≡ false → contains_all c.choices (reason s c) ≡ true };

    ghost is_apart: { (s : Self) (c d : Candidate) → suits s c ≡ true → suits s d ≡ true → fits s c ≡ false → fits s d ≡ true → contains_all d.choices (reason s c) ≡ false };
}
