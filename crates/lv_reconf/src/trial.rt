//! A trial of command sets: whether one recovers, and the reason of one that doesn't.
#![tactic(auto)]

ghost use Rattle.std.specs.Prelude.{◌≡◌, ◌≤◌, ℕ, List, true, length, IfOk};
ghost use Rattle.lv_base.specs.Choices.{pairs_of};
ghost use Rattle.lv_meaning.specs.Commands.{is_command_set};
ghost use Rattle.lv_meaning.specs.Recovery.{candidate_recovers, candidate_reason};
ghost use Rattle.lv_reconf.specs.Assuming.{pairs_fit};
ghost use Rattle.lv_reconf.specs.Judging.{candidate_commands, Judges};
ghost use Rattle.lv_reconf.specs.Trying.{some_can_miss};

use super::commanded::Commanded;
use super::judged::Judged;
use super::reaching::Reaching;
use super::setting::Setting;
use lv_base::{Candidate, Conflict, Pair};
use lv_search::{Trial, Tried};
use std::alloc::{AllocError, Global};
use std::marker;

/// A trial of command sets in a setting. Contracts see the plant and the aim.
#[derive(Drop)]
pub struct ReconfTrial<'s, 'a> {
    alloc: Global,
    reaching: Reaching<'s, 'a>,
}

impl<'s, 'a> marker::Model for ReconfTrial<'s, 'a> {
    ghost use Rattle.std.specs.Coded.{codes};
    ghost use Rattle.lv_base.specs.contracts.formula.Condition as condition;
    ghost use Rattle.lv_reconf.specs.Trying.{Question};

    ghost Value = { Question };

    ghost coded = { Prim.hlevel (codes, condition.the_row.coded) };

    ghost view = { λ t. record { plant = t.reaching.plant; aim = t.reaching.aim } };
}

impl<'s, 'a> ReconfTrial<'s, 'a> {
    pub fn new(alloc: Global, setting: &'s Setting<'a>) -> Result<ReconfTrial<'s, 'a>, AllocError>
        ensures { IfOk result (λ t. t ≡ setting.now) }
    {
        Ok(ReconfTrial {
            alloc,
            reaching: Reaching::new(alloc, setting)?,
        })
    }

    /// Whether from some of the first tracked states the values can miss a goal.
    pub fn can_miss(&self, count: usize, pairs: &[Pair]) -> Result<bool, AllocError>
        requires within { count ≤ length self.now.aim.tracked }
        requires fit { pairs_fit self.now.plant pairs.now ≡ true }
        ensures { IfOk result (λ answer. answer ≡ some_can_miss self.now.plant self.now.aim count pairs.now) }
    {
        let setting = self.reaching.setting();
        let aim = setting.aim();
        Commanded::new(self.alloc, setting, pairs).some_missed(
            setting.plain(),
            &aim.tracked.as_slice()[..count],
            aim.goals.as_slice(),
        )
    }

    /// What is found of the values of a command set: first from how many tracked states they reach the goals, then whether
    /// from one of these they can miss a goal.
    fn judge(&mut self, pairs: &[Pair]) -> Result<Judged, AllocError>
        requires { pairs_fit self.old.plant pairs.now ≡ true }
        ensures judges { (u : List ℕ) → pairs.now ≡ pairs_of u → IfOk result (λ judged. Judges self.old.plant self.old.aim u judged) }
        ensures kept { self.new ≡ self.old }
    {
        let count = self.reaching.count(pairs)?;
        if self.can_miss(count, pairs)? {
            return Ok(Judged::Misses);
        }
        if count == self.reaching.setting().aim().tracked.len() {
            return Ok(Judged::Recovers);
        }
        Ok(Judged::Stops(count))
    }
}

impl Trial for ReconfTrial<'_, '_> {
    ghost use Rattle.lv_reconf.specs.Lawful.{inside, apart};

    ghost suits = { λ t c. candidate_commands t.plant c };

    ghost fits = { λ t c. candidate_recovers t.plant t.aim c };

    ghost reason = { λ t c. candidate_reason t.plant t.aim c };

    ghost is_inside = { λ t c suits unfit. inside t.plant t.aim c };

    ghost is_apart = { λ t c d one other cannot can. apart t.plant t.aim c d one other cannot can };

    fn attempt(&mut self, candidate: &Candidate) -> Result<Tried, AllocError> {
        let pairs = self.reaching.values_of(candidate)?;
        match self.judge(pairs.as_slice())? {
            Judged::Recovers => Ok(Tried::Fits),
            Judged::Misses => Ok(Tried::Refused(Conflict::from_pairs(
                self.alloc,
                pairs.as_slice(),
            )?)),
            Judged::Stops(at) => {
                let reason = self.reaching.reduced_at(at, pairs.as_slice())?;
                Ok(Tried::Refused(Conflict::from_pairs(self.alloc, reason.as_slice())?))
            }
        }
    }
}
