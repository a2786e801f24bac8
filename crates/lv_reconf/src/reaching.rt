//! Whether values of controls reach the goals of an aim, asked of one solver.
#![tactic(auto)]

ghost use Rattle.std.specs.Prelude.{◌≡◌, ◌<◌, [], true, slice_index_or, IfOk};
ghost use Rattle.std.specs.List.{prefix_len};
ghost use Rattle.lv_model.specs.declared.state.TrackedState.{TrackedState};
ghost use Rattle.lv_meaning.specs.Recovers.{reaches};
ghost use Rattle.lv_meaning.specs.lv_boxes.Reason.{reduced};
ghost use Rattle.lv_model.specs.Lists.{sizes};
ghost use Rattle.lv_base.specs.Choices.{pairs_of};
ghost use Rattle.lv_reconf.specs.Assuming.{pairs_fit};
ghost use Rattle.lv_reconf.specs.Judging.{candidate_commands};
ghost use Rattle.lv_reconf.specs.Tests.{can_show, two_pass};
ghost use Rattle.lv_reconf.specs.Trying.{asking, looking_at, reaches_at};

use super::commanded::Commanded;
use super::goals::reaching_solver;
use super::setting::Setting;
use lv_asking::{Refuter, reduced};
use lv_base::{Candidate, Pair, ValId, VarId, pairs_of};
use lv_clauses::{Marks, is_marked};
use lv_meaning::Observation;
use lv_sat::Solver;
use std::alloc::{AllocError, Global};
use std::marker::Model;

/// A solver for nominal steps that meet all goals of an aim, and the place of the tracked state that is looked at.
#[derive(Drop)]
pub struct Reaching<'s, 'a> {
    alloc: Global,
    setting: &'s Setting<'a>,
    solver: Solver,
    at: usize,
}

impl<'s, 'a> Model for Reaching<'s, 'a> {
    ghost use Rattle.std.specs.Coded.{codes};
    ghost use Rattle.lv_base.specs.contracts.formula.Condition as condition;
    ghost use Rattle.lv_meaning.specs.Recovers.{meets_goals};
    ghost use Rattle.lv_reconf.specs.Narrowing.{Asks};
    ghost use Rattle.lv_reconf.specs.Trying.{ReachingValue};

    ghost Value = { ReachingValue };

    ghost coded = { Prim.hlevel (codes, condition.the_row.coded) };

    ghost view = { λ r. record { plant = r.setting.now.plant; aim = r.setting.now.aim; at = r.at } };

    ghost invariant = { λ r. Asks r.setting.now.plant r.setting.now.aim.present (meets_goals r.setting.now.aim.goals) r.solver.set };
}

impl<'s, 'a> Reaching<'s, 'a> {
    pub fn new(alloc: Global, setting: &'s Setting<'a>) -> Result<Reaching<'s, 'a>, AllocError>
        ensures { IfOk result (λ r. r ≡ looking_at setting.now.plant setting.now.aim 0) }
    {
        let goals = setting.aim().goals.as_slice();
        Ok(Reaching {
            alloc,
            setting,
            solver: reaching_solver(alloc, setting.compiled(), setting.plain(), goals)?,
            at: 0,
        })
    }

    pub fn setting(&self) -> &'s Setting<'a>
        ensures { result.now ≡ asking self.now.plant self.now.aim }
    {
        self.setting
    }

    /// The values of a command set, each at its control's slot.
    pub fn values_of(&self, candidate: &Candidate) -> Result<Vec<Pair>, AllocError>
        requires { candidate_commands self.now.plant candidate.now ≡ true }
        ensures pairs { IfOk result (λ out. out.items ≡ pairs_of candidate.now.choices) }
        ensures fit { IfOk result (λ out. pairs_fit self.now.plant out.items ≡ true) }
    {
        let _plant = self.setting.compiled().model().plant();
        pairs_of(self.alloc, candidate.choices.as_slice())
    }

    /// From how many tracked states these values reach the goals, up to the first from which they don't.
    pub fn count(&mut self, pairs: &[Pair]) -> Result<usize, AllocError>
        requires { pairs_fit self.old.plant pairs.now ≡ true }
        ensures count { IfOk result (λ n. n ≡ prefix_len (λ (s : TrackedState). reaches self.old.plant self.old.aim s.state pairs.now) self.old.aim.tracked) }
        ensures kept { self.new ≡ self.old }
    {
        let states = self.setting.aim().tracked.as_slice();
        Commanded::new(self.alloc, self.setting, pairs).count_stepping(&mut self.solver, states)
    }

    /// Whether a variable may be seen to have this value after steps from two of the tracked states, where nothing is asked of
    /// the goals.
    pub fn shown_twice(
        &mut self,
        pairs: &[Pair],
        var: VarId,
        val: ValId,
    ) -> Result<bool, AllocError>
        requires fit { pairs_fit self.old.plant pairs.now ≡ true }
        requires value { val.0 < slice_index_or (sizes self.old.plant) var.0 0 }
        requires none { self.old.aim.goals ≡ [] }
        ensures answer { IfOk result (λ answer. answer ≡ two_pass (can_show self.old.plant self.old.aim var pairs.now val.0) self.old.aim.tracked) }
        ensures kept { self.new ≡ self.old }
    {
        let states = self.setting.aim().tracked.as_slice();
        Commanded::new(self.alloc, self.setting, pairs).shown_twice(
            &mut self.solver,
            states,
            Observation { var, val },
        )
    }

    /// What is left of these values when each, from the first on, is left free where the others still don't reach the goals
    /// from the tracked state of this place.
    pub fn reduced_at(&mut self, at: usize, pairs: &[Pair]) -> Result<Vec<Pair>, AllocError>
        requires { pairs_fit self.old.plant pairs.now ≡ true }
        ensures reduced { IfOk result (λ out. out.items ≡ reduced (reaches_at (looking_at self.old.plant self.old.aim at)) [] pairs.now) }
        ensures kept { self.new ≡ record self.old { at = at } }
    {
        self.at = at;
        reduced(self.alloc, self, pairs, None)
    }
}

impl Refuter for Reaching<'_, '_> {
    ghost use Rattle.lv_reconf.specs.Refuting.{needs};
    ghost use Rattle.lv_reconf.specs.Lawful.{fewer_fit, reaching_is_monotone};

    ghost fits = { λ r pairs. pairs_fit r.plant pairs ≡ true };

    ghost tells = { λ r possible. possible ≡ reaches_at r };

    ghost needs = { λ r marks p. needs r.plant marks p };

    ghost fits_without = { λ r front p back fit. fewer_fit r.plant front p back fit };

    ghost is_monotone = { λ r possible is. reaching_is_monotone r possible is };

    fn refuted(&mut self, pairs: &[Pair], _kept: usize) -> Result<Option<Marks>, AllocError> {
        match self.setting.aim().tracked.as_slice().get(self.at) {
            Some(s) => Commanded::new(self.alloc, self.setting, pairs).refuted(
                &mut self.solver,
                &s.state,
            ),
            None => Ok(Some(Marks::new(self.alloc, 0)?)),
        }
    }

    fn is_needed(&self, core: &Marks, pair: Pair) -> bool {
        is_marked(core.as_slice(), self.setting.compiled().commands(pair))
    }
}
