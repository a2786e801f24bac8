//! A trial of command sets: whether one tests an observable, and the reason of one that doesn't.
#![tactic(auto)]

ghost use Rattle.std.specs.Prelude.{◌≡◌, ◌<◌, [], ℕ, List, true, slice_index_or, IfOk};
ghost use Rattle.lv_base.specs.Choices.{pairs_of};
ghost use Rattle.lv_model.specs.Lists.{sizes};
ghost use Rattle.lv_reconf.specs.Assuming.{pairs_fit};
ghost use Rattle.lv_reconf.specs.Judging.{candidate_commands};
ghost use Rattle.lv_reconf.specs.Tests.{can_show, two_pass, some_shared, candidate_tests, candidate_test_reason};
ghost use Rattle.lv_reconf.specs.Testing.{TestQuestion, testing, JudgesTest};

use super::judged::Judged;
use super::reaching::Reaching;
use super::setting::Setting;
use lv_base::{Candidate, Conflict, Pair, ValId, VarId};
use lv_search::{Trial, Tried};
use std::alloc::{AllocError, Global};
use std::marker;

/// A trial of command sets in a setting that asks nothing of goals. Contracts see the plant, the aim and the variable.
#[derive(Drop)]
pub struct TestTrial<'s, 'a> {
    alloc: Global,
    reaching: Reaching<'s, 'a>,
    var: VarId,
    size: u32,
}

impl<'s, 'a> marker::Model for TestTrial<'s, 'a> {
    ghost use Rattle.std.specs.Coded.{codes};
    ghost use Rattle.lv_base.specs.contracts.formula.Condition as condition;
    ghost use Rattle.lv_reconf.specs.Testing.{TestQuestion, IsTesting};

    ghost Value = { TestQuestion };

    ghost coded = { Prim.hlevel (codes, condition.the_row.coded) };

    ghost view = { λ t. record { plant = t.reaching.plant; aim = t.reaching.aim; var = t.var } };

    ghost invariant = { λ t. IsTesting t.reaching.plant t.reaching.aim t.var t.size };
}

impl<'s, 'a> TestTrial<'s, 'a> {
    /// Of a variable that has so many values.
    pub fn new(
        alloc: Global,
        setting: &'s Setting<'a>,
        var: VarId,
        size: u32,
    ) -> Result<TestTrial<'s, 'a>, AllocError>
        requires none { setting.now.aim.goals ≡ [] }
        requires size { size ≡ slice_index_or (sizes setting.now.plant) var.0 0 }
        ensures { IfOk result (λ t. t ≡ testing setting.now.plant setting.now.aim var) }
    {
        Ok(TestTrial {
            alloc,
            reaching: Reaching::new(alloc, setting)?,
            var,
            size,
        })
    }

    /// How many values the variable has.
    fn size(&self) -> u32
        ensures { result ≡ slice_index_or (sizes self.now.plant) self.now.var.0 0 }
    {
        self.size
    }

    /// Whether this value of the variable may be seen after steps from two of the tracked states.
    fn is_shared(&mut self, pairs: &[Pair], v: u32) -> Result<bool, AllocError>
        requires fit { pairs_fit self.old.plant pairs.now ≡ true }
        requires value { v < slice_index_or (sizes self.old.plant) self.old.var.0 0 }
        ensures answer { IfOk result (λ answer. answer ≡ two_pass (can_show self.old.plant self.old.aim self.old.var pairs.now v) self.old.aim.tracked) }
        ensures kept { self.new ≡ self.old }
    {
        let var = self.var;
        self.reaching.shown_twice(pairs, var, ValId(v))
    }

    /// Whether some value of the variable may be.
    fn some_shared(&mut self, pairs: &[Pair]) -> Result<bool, AllocError>
        requires { pairs_fit self.old.plant pairs.now ≡ true }
        ensures answer { IfOk result (λ answer. answer ≡ some_shared self.old.plant self.old.aim self.old.var pairs.now) }
        ensures kept { self.new ≡ self.old }
    {
        let size = self.size();
        for v in 0..size {
            if self.is_shared(pairs, v)? {
                return Ok(true);
            }
        }
        Ok(false)
    }

    /// What is found of the values of a command set: first from how many tracked states there is a step with them, then
    /// whether some value of the variable is shared.
    fn judge(&mut self, pairs: &[Pair]) -> Result<Judged, AllocError>
        requires { pairs_fit self.old.plant pairs.now ≡ true }
        ensures judges { (u : List ℕ) → pairs.now ≡ pairs_of u → IfOk result (λ judged. JudgesTest self.old.plant self.old.aim self.old.var u judged) }
        ensures kept { self.new ≡ self.old }
    {
        let count = self.reaching.count(pairs)?;
        if count < self.reaching.setting().aim().tracked.len() {
            return Ok(Judged::Stops(count));
        }
        if self.some_shared(pairs)? {
            return Ok(Judged::Misses);
        }
        Ok(Judged::Recovers)
    }
}

impl Trial for TestTrial<'_, '_> {
    ghost use Rattle.lv_reconf.specs.LawfulTests.{reason_inside, reason_apart};

    ghost suits = { λ t c. candidate_commands t.plant c };

    ghost fits = { λ t c. candidate_tests t.plant t.aim t.var c };

    ghost reason = { λ t c. candidate_test_reason t.plant t.aim c };

    ghost is_inside = { λ t c suits unfit. reason_inside t.plant t.aim c.choices };

    ghost is_apart = { λ t c d one other cannot can. reason_apart t.plant t.aim t.var c.choices d.choices one other cannot can };

    fn attempt(&mut self, candidate: &Candidate) -> Result<Tried, AllocError> {
        let pairs = self.reaching.values_of(candidate)?;
        match self.judge(pairs.as_slice())? {
            Judged::Recovers => Ok(Tried::Fits),
            Judged::Misses => Ok(Tried::Refused(Conflict::from_pairs(
                self.alloc,
                pairs.as_slice(),
            )?)),
            Judged::Stops(at) => {
                let reason = self.reaching.reduced_at(at, pairs.as_slice())?;
                Ok(Tried::Refused(Conflict::from_pairs(self.alloc, reason.as_slice())?))
            }
        }
    }
}
