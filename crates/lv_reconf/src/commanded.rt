//! The questions that are asked of a solver about values of controls: whether there is such a nominal step as its clauses
//! ask for, from one state or from several, and whether a goal can be missed or a value seen.
#![tactic(auto)]

ghost use Rattle.std.specs.Prelude.{◌≡◌, ◌<◌, ◌&&◌, [], true, Bool, List, All, IfOk};
ghost use Rattle.std.specs.List.{prefix_len, list_any};
ghost use Rattle.lv_base.specs.declared.ids.ValId.{ValId};
ghost use Rattle.lv_compile.specs.Booleans.{bool_count, booleans_next};
ghost use Rattle.lv_compile.specs.FormulaClauses.{size_of};
ghost use Rattle.lv_meaning.specs.declared.facts.Observation.{Observation as ObservationOf};
ghost use Rattle.lv_meaning.specs.Facts.{agrees};
ghost use Rattle.lv_meaning.specs.Ranges.{modes_fit, StateFits, GoalFits};
ghost use Rattle.lv_meaning.specs.Recovers.{has_modes, has_controls, some_nominal_step};
ghost use Rattle.lv_model.specs.Lists.{controls};
ghost use Rattle.lv_model.specs.Ranges.{plant_ranges};
ghost use Rattle.lv_model.specs.declared.state.TrackedState.{TrackedState};
ghost use Rattle.lv_reconf.specs.Assuming.{Assumes, MarkedHold, commanding, pairs_fit};
ghost use Rattle.lv_reconf.specs.Narrowing.{Asks};
ghost use Rattle.lv_reconf.specs.Refuting.{RefutesSteps};
ghost use Rattle.lv_reconf.specs.Tests.{two_pass};
ghost use Rattle.lv_reconf.specs.Trying.{misses_goal, some_missed};

use super::assumptions::{assume, assume_controls, assume_modes};
use super::compiled::Compiled;
use super::goals::missing_solver;
use super::setting::Setting;
use lv_asking::refutation::refute_once;
use lv_base::{Condition, Lit, Pair, ValId};
use lv_clauses::Marks;
use lv_meaning::Observation;
use lv_model::{State, TrackedState};
use lv_sat::{Answer, Solver};
use std::alloc::{AllocError, Global};
use std::marker::Model;

/// Values that controls of a model have. Contracts see the plant and the values. No question changes a solver's clauses.
#[derive(Drop)]
pub struct Commanded<'c, 'a> {
    alloc: Global,
    compiled: &'c Compiled<'a>,
    pairs: &'c [Pair],
}

impl<'c, 'a> Model for Commanded<'c, 'a> {
    ghost use Rattle.std.specs.Coded.{codes};
    ghost use Rattle.std.specs.Prelude.{◌≡◌, true};
    ghost use Rattle.lv_base.specs.contracts.formula.Condition as condition;
    ghost use Rattle.lv_reconf.specs.Assuming.{CommandedValue, pairs_fit};

    ghost Value = { CommandedValue };

    ghost coded = { Prim.hlevel (codes, condition.the_row.coded) };

    ghost view = { λ c. record { plant = c.compiled.now; pairs = c.pairs.now } };

    ghost invariant = { λ c. pairs_fit c.compiled.now c.pairs.now ≡ true };
}

impl<'c, 'a> Commanded<'c, 'a> {
    /// Of the model of a setting, whose plant has such values.
    pub fn new(alloc: Global, setting: &'c Setting<'a>, pairs: &'c [Pair]) -> Commanded<'c, 'a>
        requires { pairs_fit setting.now.plant pairs.now ≡ true }
        ensures { result ≡ commanding setting.now.plant pairs.now }
    {
        Commanded {
            alloc,
            compiled: setting.compiled(),
            pairs,
        }
    }

    /// The literals that say that the parts are in these modes and that the controls have their values.
    fn assumptions(&self, modes: &[ValId]) -> Result<Vec<Lit>, AllocError>
        requires { modes_fit (plant_ranges self.now.plant) self.now.plant.parts modes.now ≡ true }
        ensures marked { IfOk result (λ lits. MarkedHold self.now.plant modes.now self.now.pairs lits.items) }
        ensures says { IfOk result (λ lits. Assumes self.now.plant [] lits.items (λ a. has_modes self.now.plant.parts modes.now a && has_controls (controls self.now.plant) a self.now.pairs)) }
    {
        let mut lits = Vec::new(self.alloc);
        assume_modes(self.compiled, &mut lits, modes)?;
        assume_controls(self.compiled, &mut lits, self.pairs)?;
        Ok(lits)
    }

    /// Whether some nominal step from the state ends as the solver's clauses ask.
    fn has_step(&self, solver: &mut Solver, state: &State) -> Result<bool, AllocError>
        requires bools { solver.old.set.bools ≡ bool_count self.now.plant }
        requires modes { modes_fit (plant_ranges self.now.plant) self.now.plant.parts state.now.modes ≡ true }
        ensures answer { (present : List ObservationOf) (ends : List ValId → Bool) → Asks self.now.plant present ends solver.old.set →
            IfOk result (λ answer. answer ≡ some_nominal_step self.now.plant present state.now self.now.pairs ends) }
        ensures kept { solver.new.set ≡ solver.old.set }
    {
        let lits = self.assumptions(state.modes.as_slice())?;
        match solver.solve(lits.as_slice())? {
            Answer::Sat { .. } => Ok(true),
            Answer::Unsat { .. } => Ok(false),
        }
    }

    /// The same question: nothing where there is such a step, else marks of literals, among them those of values with which
    /// there already is none.
    pub fn refuted(&self, solver: &mut Solver, state: &State) -> Result<Option<Marks>, AllocError>
        requires bools { solver.old.set.bools ≡ bool_count self.now.plant }
        requires modes { modes_fit (plant_ranges self.now.plant) self.now.plant.parts state.now.modes ≡ true }
        ensures answer { (present : List ObservationOf) (ends : List ValId → Bool) → Asks self.now.plant present ends solver.old.set →
            IfOk result (λ core. RefutesSteps self.now.plant present ends state.now self.now.pairs core) }
        ensures kept { solver.new.set ≡ solver.old.set }
    {
        let lits = self.assumptions(state.modes.as_slice())?;
        refute_once(self.alloc, solver, lits.as_slice())
    }

    /// How many states, up to the first from which there is no such step as the solver's clauses ask for.
    pub fn count_stepping(
        &self,
        solver: &mut Solver,
        states: &[TrackedState],
    ) -> Result<usize, AllocError>
        requires bools { solver.old.set.bools ≡ bool_count self.now.plant }
        requires states { All (StateFits self.now.plant) states.now }
        ensures answer { (present : List ObservationOf) (ends : List ValId → Bool) → Asks self.now.plant present ends solver.old.set →
            IfOk result (λ n. n ≡ prefix_len (λ (s : TrackedState). some_nominal_step self.now.plant present s.state self.now.pairs ends) states.now) }
        ensures kept { solver.new.set ≡ solver.old.set }
    {
        for (n, s) in states.iter().enumerate() {
            if !self.has_step(solver, &s.state)? {
                return Ok(n);
            }
        }
        Ok(states.len())
    }

    /// Whether from some state there is such a step as the solver's clauses ask for.
    fn some_steps(&self, solver: &mut Solver, states: &[TrackedState]) -> Result<bool, AllocError>
        requires bools { solver.old.set.bools ≡ bool_count self.now.plant }
        requires states { All (StateFits self.now.plant) states.now }
        ensures answer { (present : List ObservationOf) (ends : List ValId → Bool) → Asks self.now.plant present ends solver.old.set →
            IfOk result (λ answer. answer ≡ list_any (λ (s : TrackedState). some_nominal_step self.now.plant present s.state self.now.pairs ends) states.now) }
        ensures kept { solver.new.set ≡ solver.old.set }
    {
        for s in states {
            if self.has_step(solver, &s.state)? {
                return Ok(true);
            }
        }
        Ok(false)
    }

    /// Whether from some state a nominal step ends with the goal false. Where there are no states, no solver is made.
    fn misses(
        &self,
        plain: &Solver,
        states: &[TrackedState],
        goal: &Condition,
    ) -> Result<bool, AllocError>
        requires bools { plain.now.set.bools ≡ bool_count self.now.plant }
        requires states { All (StateFits self.now.plant) states.now }
        requires goal { GoalFits self.now.plant goal.now }
        ensures { (present : List ObservationOf) → Asks self.now.plant present (λ b. true) plain.now.set →
            IfOk result (λ answer. answer ≡ list_any (misses_goal self.now.plant present self.now.pairs goal.now) states.now) }
    {
        if states.is_empty() {
            return Ok(false);
        }
        let mut solver = missing_solver(self.alloc, self.compiled, plain, goal)?;
        self.some_steps(&mut solver, states)
    }

    /// Whether from some state a nominal step ends with some goal false.
    pub fn some_missed(
        &self,
        plain: &Solver,
        states: &[TrackedState],
        goals: &[Condition],
    ) -> Result<bool, AllocError>
        requires bools { plain.now.set.bools ≡ bool_count self.now.plant }
        requires states { All (StateFits self.now.plant) states.now }
        requires goals { All (GoalFits self.now.plant) goals.now }
        ensures { (present : List ObservationOf) → Asks self.now.plant present (λ b. true) plain.now.set →
            IfOk result (λ answer. answer ≡ some_missed self.now.plant present self.now.pairs goals.now states.now) }
    {
        for goal in goals {
            if self.misses(plain, states, goal)? {
                return Ok(true);
            }
        }
        Ok(false)
    }

    /// Whether some nominal step from the state ends as the solver's clauses ask and with this value.
    fn shows(
        &self,
        solver: &mut Solver,
        state: &State,
        seen: Observation,
    ) -> Result<bool, AllocError>
        requires bools { solver.old.set.bools ≡ bool_count self.now.plant }
        requires modes { modes_fit (plant_ranges self.now.plant) self.now.plant.parts state.now.modes ≡ true }
        requires value { seen.val.0 < size_of (booleans_next self.now.plant) seen.var.0 }
        ensures answer { (present : List ObservationOf) (ends : List ValId → Bool) → Asks self.now.plant present ends solver.old.set →
            IfOk result (λ answer. answer ≡ some_nominal_step self.now.plant present state.now self.now.pairs (λ b. ends b && agrees b seen)) }
        ensures kept { solver.new.set ≡ solver.old.set }
    {
        let mut lits = self.assumptions(state.modes.as_slice())?;
        assume(&mut lits, self.compiled.ends_with(seen.var, seen.val))?;
        match solver.solve(lits.as_slice())? {
            Answer::Sat { .. } => Ok(true),
            Answer::Unsat { .. } => Ok(false),
        }
    }

    /// The same from two of the states.
    pub fn shown_twice(
        &self,
        solver: &mut Solver,
        states: &[TrackedState],
        seen: Observation,
    ) -> Result<bool, AllocError>
        requires bools { solver.old.set.bools ≡ bool_count self.now.plant }
        requires states { All (StateFits self.now.plant) states.now }
        requires value { seen.val.0 < size_of (booleans_next self.now.plant) seen.var.0 }
        ensures answer { (present : List ObservationOf) (ends : List ValId → Bool) → Asks self.now.plant present ends solver.old.set →
            IfOk result (λ answer. answer ≡ two_pass (λ (s : TrackedState). some_nominal_step self.now.plant present s.state self.now.pairs (λ b. ends b && agrees b seen)) states.now) }
        ensures kept { solver.new.set ≡ solver.old.set }
    {
        let mut once = false;
        for s in states {
            let shown = self.shows(solver, &s.state, seen)?;
            if shown && once {
                return Ok(true);
            }
            once = once || shown;
        }
        Ok(false)
    }
}
