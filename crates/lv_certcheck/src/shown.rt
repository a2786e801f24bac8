//! Whether values before and after a step show what is to be shown.
#![tactic(auto)]

ghost use Rattle.std.specs.Prelude.{◌≡◌, true, false, nat_eq, length, slice_get, All, IfOk, map};
ghost use Rattle.std.specs.Option.{option_map_or};
ghost use Rattle.lv_base.specs.declared.ids.ValId.{ValId as Value};
ghost use Rattle.lv_system.specs.lv_clauses.Literals.{same_truth};
ghost use Rattle.lv_base.specs.Tree.{number_of};
ghost use Rattle.lv_model.specs.WellFormed.{Reads};
ghost use Rattle.lv_meaning.specs.Facts as Facts;
ghost use Rattle.lv_meaning.specs.Facts.{meets, commanded};
ghost use Rattle.lv_meaning.specs.Possible.{move_number};
ghost use Rattle.lv_meaning.specs.Recovers as Recovers;
ghost use Rattle.lv_cert_laws.specs.lv_cert_meaning.Judging as Judging;
ghost use Rattle.lv_certcheck.specs.Settings.{IsSetting, plant_of};
ghost use Rattle.lv_certcheck.specs.Giving.{Fits, IsWhole};
ghost use Rattle.lv_certcheck.specs.Verdicts.{judged_of};

use crate::judged::{Aimed, Judged};
use crate::setting::Setting;
use lv_base::{Condition, MoveId, Rank, ValId, VarId};
use lv_cert::Question;
use lv_cert_meaning::{has_controls, has_modes, is_nominal_pair};
use lv_meaning::facts::meets_all;
use lv_model::TrackedState;
use std::alloc::{AllocError, Global};

/// The number of the variable's value; 0 where there is no such variable.
fn number_at(a: &[ValId], var: VarId) -> u32
    ensures { result ≡ number_of a.now var.0 }
{
    match a.get(var.0 as usize) {
        Some(value) => value.0,
        None => 0,
    }
}

/// Whether the control has the value of this place, if there is one.
fn has_command(control: VarId, values: &[ValId], k: usize, a: &[ValId]) -> bool
    ensures { result ≡ option_map_or (λ (v : Value). nat_eq (number_of a.now control.0) v.0) (slice_get values.now k) true }
{
    match values.get(k) {
        Some(value) => number_at(a, control) == value.0,
        None => true,
    }
}

/// Whether each control with a value has it.
fn meets_commands(controls: &[VarId], values: &[ValId], a: &[ValId]) -> bool
    ensures { result ≡ meets a.now (commanded controls.now values.now) }
{
    for (k, control) in controls.iter().enumerate() {
        if !has_command(*control, values, k, a) {
            return false;
        }
    }
    true
}

fn moves_of(alloc: Global, choices: &[u32]) -> Result<Vec<MoveId>, AllocError>
    ensures { IfOk result (λ out. out.items ≡ map move_number choices.now) }
{
    choices.iter().map(|n| MoveId(*n)).collect(alloc)
}

/// Whether all goals are true.
fn meets_goals(goals: &[Condition], b: &[ValId]) -> bool
    requires { All (Reads (length b.now) 0) goals.now }
    ensures { result ≡ Recovers.meets_goals goals.now b.now }
{
    goals.iter().all(|goal| goal.holds(b, 0))
}

fn same_truth(one: bool, other: bool) -> bool
    ensures { result ≡ same_truth one other }
{
    if one { other } else { !other }
}

/// A step that is shown: what it is judged by, what was judged so far, and the values of all variables before it and after.
#[derive(Clone, Copy)]
struct Shown<'a> {
    setting: &'a Setting<'a>,
    judged: &'a Judged<'a>,
    before: &'a [ValId],
    after: &'a [ValId],
}

impl<'a> Shown<'a> {
    /// Whether values before and after meet the facts.
    fn meets_facts(&self) -> bool
        requires setting { IsSetting self.now.setting.now }
        requires fits { Fits (plant_of self.now.setting.now) self.now.setting.now.system.now self.now.judged.now }
        requires now { IsWhole (plant_of self.now.setting.now) self.now.before.now }
        requires next { IsWhole (plant_of self.now.setting.now) self.now.after.now }
        ensures { result ≡ Facts.meets_facts (plant_of self.now.setting.now) self.now.judged.now.stated.facts self.now.before.now self.now.after.now }
    {
        let judged = self.judged;
        let facts = &judged.stated.facts;
        meets_commands(
            self.setting.counts.controls.as_slice(),
            facts.controls.as_slice(),
            self.before,
        ) && meets_all(self.before, facts.present.as_slice())
            && meets_all(self.after, facts.next.as_slice())
    }

    /// Whether the values are a step by the moves of the candidate that meets the facts.
    fn is_step_of(&self, alloc: Global, rank: &Rank) -> Result<bool, AllocError>
        requires setting { IsSetting self.now.setting.now }
        requires fits { Fits (plant_of self.now.setting.now) self.now.setting.now.system.now self.now.judged.now }
        requires now { IsWhole (plant_of self.now.setting.now) self.now.before.now }
        requires next { IsWhole (plant_of self.now.setting.now) self.now.after.now }
        ensures { IfOk result (λ is. is ≡ Judging.is_step_of (plant_of self.now.setting.now) self.now.judged.now.stated.facts self.now.before.now self.now.after.now rank.now) }
    {
        let model = self.setting.model;
        if rank.choices.len() != model.plant().parts.len() {
            return Ok(false);
        }
        let moves = moves_of(alloc, rank.choices.as_slice())?;
        Ok(model.is_step(self.before, self.after, moves.as_slice()) && self.meets_facts())
    }

    /// Whether the values are a step by the moves of the last candidate listed that meets the facts.
    fn shows_listed(&self, alloc: Global) -> Result<bool, AllocError>
        requires setting { IsSetting self.now.setting.now }
        requires fits { Fits (plant_of self.now.setting.now) self.now.setting.now.system.now self.now.judged.now }
        requires now { IsWhole (plant_of self.now.setting.now) self.now.before.now }
        requires next { IsWhole (plant_of self.now.setting.now) self.now.after.now }
        ensures { IfOk result (λ is. is ≡ Judging.shows_listed (plant_of self.now.setting.now) (judged_of self.now.judged.now) self.now.before.now self.now.after.now) }
    {
        match self.judged.last() {
            Some(rank) => self.is_step_of(alloc, rank),
            None => Ok(false),
        }
    }

    /// Whether the values are a step without faults from the state, with these values of the controls, that meets what was
    /// seen.
    fn is_aimed_step(&self, values: &[u32], state: &TrackedState) -> bool
        requires setting { IsSetting self.now.setting.now }
        requires fits { Fits (plant_of self.now.setting.now) self.now.setting.now.system.now self.now.judged.now }
        requires now { IsWhole (plant_of self.now.setting.now) self.now.before.now }
        requires next { IsWhole (plant_of self.now.setting.now) self.now.after.now }
        ensures { result ≡ Judging.is_aimed_step (plant_of self.now.setting.now) (judged_of self.now.judged.now) values.now self.now.before.now self.now.after.now state.now }
    {
        let judged = self.judged;
        let parts = self.setting.model.plant().parts.as_slice();
        has_modes(parts, state.state.modes.as_slice(), self.before)
            && has_controls(self.setting.counts.controls.as_slice(), self.before, values)
            && meets_all(self.before, judged.stated.facts.present.as_slice())
            && is_nominal_pair(self.setting.model, self.before, self.after)
    }

    /// Whether the values are such a step from the tracked state of this place.
    fn is_step_from(&self, place: usize, values: &[u32]) -> bool
        requires setting { IsSetting self.now.setting.now }
        requires fits { Fits (plant_of self.now.setting.now) self.now.setting.now.system.now self.now.judged.now }
        requires now { IsWhole (plant_of self.now.setting.now) self.now.before.now }
        requires next { IsWhole (plant_of self.now.setting.now) self.now.after.now }
        ensures { result ≡ option_map_or (Judging.is_aimed_step (plant_of self.now.setting.now) (judged_of self.now.judged.now) values.now self.now.before.now self.now.after.now) (slice_get self.now.judged.now.stated.tracked place) false }
    {
        let judged = self.judged;
        match judged.stated.tracked.get(place) {
            Some(state) => self.is_aimed_step(values, state),
            None => false,
        }
    }

    /// Whether all goals that are stated are true.
    fn meets_stated(&self) -> bool
        requires fits { Fits (plant_of self.now.setting.now) self.now.setting.now.system.now self.now.judged.now }
        requires next { IsWhole (plant_of self.now.setting.now) self.now.after.now }
        ensures { result ≡ Recovers.meets_goals self.now.judged.now.stated.goals self.now.after.now }
    {
        let judged = self.judged;
        let _plant = self.setting.model.plant();
        meets_goals(judged.stated.goals.as_slice(), self.after)
    }

    /// Whether the values are such a step as is aimed at, with the goals all true behind it, or not.
    fn is_as_aimed(&self, aimed: &Aimed) -> bool
        requires setting { IsSetting self.now.setting.now }
        requires fits { Fits (plant_of self.now.setting.now) self.now.setting.now.system.now self.now.judged.now }
        requires now { IsWhole (plant_of self.now.setting.now) self.now.before.now }
        requires next { IsWhole (plant_of self.now.setting.now) self.now.after.now }
        ensures { result ≡ Judging.is_as_aimed (plant_of self.now.setting.now) (judged_of self.now.judged.now) self.now.before.now self.now.after.now aimed.now }
    {
        self.is_step_from(aimed.place, aimed.values.as_slice())
            && same_truth(self.meets_stated(), aimed.reaches)
    }

    fn shows_aimed(&self) -> bool
        requires setting { IsSetting self.now.setting.now }
        requires fits { Fits (plant_of self.now.setting.now) self.now.setting.now.system.now self.now.judged.now }
        requires now { IsWhole (plant_of self.now.setting.now) self.now.before.now }
        requires next { IsWhole (plant_of self.now.setting.now) self.now.after.now }
        ensures { result ≡ Judging.shows_aimed (plant_of self.now.setting.now) (judged_of self.now.judged.now) self.now.before.now self.now.after.now }
    {
        let judged = self.judged;
        match &judged.aimed {
            Some(aimed) => self.is_as_aimed(aimed),
            None => false,
        }
    }
}

/// Whether the values behind a step show, with those before it, what is to be shown.
pub fn shows(
    alloc: Global,
    question: Question,
    setting: &Setting<'_>,
    judged: &Judged<'_>,
    b: &[ValId],
) -> Result<bool, AllocError>
    requires setting { IsSetting setting.now }
    requires fits { Fits (plant_of setting.now) setting.now.system.now judged.now }
    requires next { IsWhole (plant_of setting.now) b.now }
    ensures { IfOk result (λ is. is ≡ option_map_or (Judging.shows question (plant_of setting.now) (judged_of judged.now) b.now) judged.now.before false) }
{
    let Some(before) = &judged.before else {
        return Ok(false);
    };
    let shown = Shown {
        setting,
        judged,
        before: before.as_slice(),
        after: b,
    };
    match question {
        Question::Diagnosis => shown.shows_listed(alloc),
        Question::Recovery => Ok(shown.shows_aimed()),
    }
}
