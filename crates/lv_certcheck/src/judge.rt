//! What each kind of line asks for, where it stands. A call answers whether the line is good; after a bad line what was judged
//! means nothing.
#![tactic(auto)]

ghost use Rattle.std.specs.Prelude.{◌≡◌, ◌-◌, ◌<◌, ◌≤◌, ◌&&◌, [], true, false, Some, None, All, IfOk, IfSome, OnOk, IsTrue, length, map, option_map, nat_lt, slice_index_or, if◌then◌else◌};
ghost use Rattle.std.specs.Option.{option_map_or};
ghost use Rattle.std.specs.Cmp.Lexicographic.{pointwise};
ghost use Rattle.lv_model.specs.Lists.{sizes, controls};
ghost use Rattle.lv_meaning.specs.Commands as Commands;
ghost use Rattle.lv_meaning.specs.Ranges.{ObservationFits};
ghost use Rattle.lv_cert_laws.specs.lv_cert_meaning.Judging as Judging;
ghost use Rattle.lv_cert_laws.specs.lv_cert_meaning.Space.{open_zone};
ghost use Rattle.lv_cert_laws.specs.lv_cert_meaning.Stated as Stated;
ghost use Rattle.lv_cert_laws.specs.lv_cert_meaning.Stated.{with_observation, observation_of, observed_literal, with_goal};
ghost use Rattle.lv_search_zones.specs.lv_compile.Booleans.{booleans_now};
ghost use Rattle.lv_meaning.specs.Facts.{commanded};
ghost use Rattle.lv_cert_laws.specs.lv_cert_meaning.Counting.{is_one_of, are_of, values_of};
ghost use Rattle.lv_cert_laws.specs.lv_cert_meaning.Units.{nominal_units};
ghost use Rattle.lv_cert_meaning.specs.Fitting.{HasFewChoices, IsPairOf, are_values};
ghost use Rattle.lv_model.specs.declared.state.TrackedState.{TrackedState};
ghost use Rattle.lv_meaning.specs.Commands.{control_sizes};
ghost use Rattle.lv_boxes.specs.Members.{ZoneValue};
ghost use Rattle.lv_certcheck.specs.Settings.{IsSetting, plant_of};
ghost use Rattle.lv_certcheck.specs.Giving.{with_clauses};
ghost use Rattle.lv_certcheck.specs.Judges.{Judges, StillFits};
ghost use Rattle.lv_certcheck.specs.Verdicts.{judged_of, came};
ghost use Rattle.lv_certcheck.specs.Splits.{split_into};
ghost use Rattle.lv_cert.specs.declared.line.Evidence.TheVariants as evidence;
ghost use Rattle.lv_boxes.specs.Parts.{parts_of};

use crate::blocks::{give_choices, give_goal, give_goals, give_nominal, give_units};
use crate::judged::{Aimed, Judged};
use crate::setting::Setting;
use crate::shown::shows;
use lv_base::limits::TRACKED;
use lv_base::{Cost, Lit, Pair, Rank, Seq, ValId};
use lv_boxes::choices_as_conflict;
use lv_cert::{Evidence, Head, Line, Literal, Moment, Question};
use lv_cert_meaning::{
    candidate_of, conflict_of, goal_of, has_target, observation_of, places_of, state_of, values_of,
};
use lv_meaning::Observation;
use lv_search_zones::zones_of;
use lv_system::Moment as Side;
use std::alloc::{AllocError, Global};

/// A setting, and the room that judging takes.
#[derive(Clone, Copy)]
pub struct Judge<'a> {
    pub alloc: Global,
    pub question: Question,
    pub setting: Setting<'a>,
}

/// The place of the thing of this number in a list of so many, if there is one.
fn place_in(count: usize, n: u128) -> Option<usize>
    ensures place { result ≡ (if is_one_of count n then Some (n - 1) else None) }
    ensures within { IfSome result (λ place. place < count) }
{
    if 0 < n && n <= count as u128 {
        Some(n as usize - 1)
    } else {
        None
    }
}

/// Whether there is a value for each count, and it is below it.
fn are_below(values: &[u32], counts: &[usize]) -> bool
    ensures { result ≡ pointwise nat_lt values.now counts.now }
{
    if values.len() != counts.len() {
        return false;
    }
    for (k, value) in values.iter().enumerate() {
        if *value as usize >= counts[k] {
            return false;
        }
    }
    true
}

/// Whether the last of the clauses that come first is empty.
fn ends_empty(rest: &[Line]) -> bool
    ensures { result ≡ Judging.ends_empty rest.now }
{
    let mut is_empty = false;
    for line in rest {
        match line {
            Line::Clause(lits, _) => is_empty = lits.is_empty(),
            _ => return is_empty,
        }
    }
    is_empty
}

impl<'a> Judge<'a> {
    /// Judges a line, where these come behind it.
    pub fn line(
        &self,
        judged: &mut Judged<'a>,
        rest: &[Line],
        line: &Line,
    ) -> Result<bool, AllocError>
        requires { Judges self.now judged.old }
        ensures judged { IfOk result (λ good. came good judged.new ≡ Judging.judge_line self.now.question (plant_of self.now.setting) (judged_of judged.old) rest.now line.now) }
        ensures fits { IfOk result (λ good. StillFits self.now good judged.new) }
    {
        match line {
            Line::Certificate(_) => Ok(true),
            Line::Model(name) => {
                Ok(name.as_slice() == self.setting.model.plant().name.as_slice())
            }
            Line::Goal(text) => self.goal(judged, text.as_slice()),
            Line::Distinct(k) => Ok(self.limit_to(judged, *k, true)),
            Line::Fact(moment, x, v) => self.fact(judged, *moment, *x, *v),
            Line::Clause(lits, hints) => self.clause(judged, lits.as_slice(), hints.as_slice()),
            Line::Split(n, by) => self.split(judged, *n, *by),
            Line::Numbers(head, ns) => self.numbers(judged, rest, *head, ns.as_slice()),
            Line::End => judged.space.all_passed(self.alloc, judged.full_to()),
        }
    }

    fn numbers(
        &self,
        judged: &mut Judged<'a>,
        rest: &[Line],
        head: Head,
        ns: &[u128],
    ) -> Result<bool, AllocError>
        requires { Judges self.now judged.old }
        ensures judged { IfOk result (λ good. came good judged.new ≡ Judging.judge_numbers self.now.question (plant_of self.now.setting) (judged_of judged.old) rest.now ns.now head) }
        ensures fits { IfOk result (λ good. StillFits self.now good judged.new) }
    {
        match head {
            Head::Limit => Ok(self.limit(judged, ns)),
            Head::State => self.state(judged, ns),
            Head::Control => self.control(judged, ns),
            Head::Listed => self.listed(judged, ns),
            Head::Now => self.now(judged, ns),
            Head::Next => self.next(judged, ns),
            Head::Conflict => self.conflict(judged, ns, rest),
            Head::Recovery => self.recovery(judged, ns),
            Head::Good => self.good(judged, ns),
            Head::Proof => self.proof(judged, ns, rest),
            Head::Counter => self.counter(judged, ns),
        }
    }

    fn limit(&self, judged: &mut Judged<'a>, ns: &[u128]) -> bool
        requires { Judges self.now judged.old }
        ensures judged { came result judged.new ≡ Judging.judge_limit (judged_of judged.old) ns.now }
        ensures fits { StillFits self.now result judged.new }
    {
        let [k] = ns else {
            return false;
        };
        self.limit_to(judged, *k, false)
    }

    /// States how many candidates are listed at most, and whether their targets have to be distinct.
    fn limit_to(&self, judged: &mut Judged<'a>, most: u128, distinct: bool) -> bool
        requires { Judges self.now judged.old }
        ensures judged { came result judged.new ≡ Judging.limited (judged_of judged.old) (record { most = most; distinct = distinct }) }
        ensures fits { StillFits self.now result judged.new }
    {
        if 0 < most && most <= 64 {
            judged.stated.k = most as u32;
            judged.stated.distinct = distinct;
            true
        } else {
            false
        }
    }

    fn state(&self, judged: &mut Judged<'a>, ns: &[u128]) -> Result<bool, AllocError>
        requires { Judges self.now judged.old }
        ensures judged { IfOk result (λ good. came good judged.new ≡ Judging.judge_state (plant_of self.now.setting) (judged_of judged.old) ns.now) }
        ensures fits { IfOk result (λ good. StillFits self.now good judged.new) }
    {
        if judged.stated.tracked.len() as u64 >= u64::from(TRACKED) {
            return Ok(false);
        }
        match state_of(self.alloc, self.setting.model, self.setting.counts, ns)? {
            Some(state) => {
                judged.stated.push_state(state)?;
                Ok(true)
            }
            None => Ok(false),
        }
    }

    /// The literals that the controls have these values.
    fn control_literals(&self, values: &[ValId]) -> Result<Vec<Lit>, AllocError>
        requires setting { IsSetting self.now.setting }
        requires values { are_values (control_sizes (plant_of self.now.setting)) values.now ≡ true }
        ensures { IfOk result (λ lits. lits.items ≡ map (observed_literal (booleans_now (plant_of self.now.setting))) (commanded (controls (plant_of self.now.setting)) values.now)) }
    {
        let mut lits = Vec::new(self.alloc);
        for (k, control) in self.setting.counts.controls.iter().enumerate() {
            lits.push(self.setting.system.lit_of(Side::Now, *control, values[k]))?;
        }
        Ok(lits)
    }

    fn control(&self, judged: &mut Judged<'a>, ns: &[u128]) -> Result<bool, AllocError>
        requires { Judges self.now judged.old }
        ensures judged { IfOk result (λ good. came good judged.new ≡ Judging.judge_control (plant_of self.now.setting) (judged_of judged.old) ns.now) }
        ensures fits { IfOk result (λ good. StillFits self.now good judged.new) }
    {
        let counts = self.setting.counts;
        let Some(values) = values_of(self.alloc, counts.controlled.as_slice(), ns)? else {
            return Ok(false);
        };
        let lits = self.control_literals(values.as_slice())?;
        judged.stated.set_controls(values, lits.as_slice())?;
        let zones = zones_of(
            self.alloc,
            self.setting.model,
            judged.stated.tracked.as_slice(),
        )?;
        judged.space.restart(self.alloc, zones)?;
        Ok(true)
    }

    fn fact(
        &self,
        judged: &mut Judged<'a>,
        moment: Moment,
        x: u128,
        v: u128,
    ) -> Result<bool, AllocError>
        requires { Judges self.now judged.old }
        ensures judged { IfOk result (λ good. came good judged.new ≡ option_map (λ o. record (judged_of judged.old) { stated = with_observation (plant_of self.now.setting) moment judged.old.stated o }) (observation_of (plant_of self.now.setting) x v)) }
        ensures fits { IfOk result (λ good. StillFits self.now good judged.new) }
    {
        let setting = self.setting;
        match observation_of(setting.model, setting.lists, setting.counts, x, v) {
            Some(o) => self.observe(judged, moment, o),
            None => Ok(false),
        }
    }

    fn observe(
        &self,
        judged: &mut Judged<'a>,
        moment: Moment,
        o: Observation,
    ) -> Result<bool, AllocError>
        requires judges { Judges self.now judged.old }
        requires observation { ObservationFits (plant_of self.now.setting) o }
        ensures judged { IfOk result (λ good. came good judged.new ≡ Some (record (judged_of judged.old) { stated = with_observation (plant_of self.now.setting) moment judged.old.stated o })) }
        ensures fits { IfOk result (λ good. StillFits self.now good judged.new) }
    {
        let side = match moment {
            Moment::Now => Side::Now,
            Moment::Next => Side::Next,
        };
        let lit = self.setting.system.lit_of(side, o.var, o.val);
        judged.stated.push_observation(moment, o, lit)?;
        Ok(true)
    }

    fn goal(&self, judged: &mut Judged<'a>, text: &[u8]) -> Result<bool, AllocError>
        requires { Judges self.now judged.old }
        ensures judged { IfOk result (λ good. came good judged.new ≡ option_map (λ goal. record (judged_of judged.old) { stated = with_goal judged.old.stated goal }) (Stated.goal_of (plant_of self.now.setting) text.now)) }
        ensures fits { IfOk result (λ good. StillFits self.now good judged.new) }
    {
        match goal_of(self.alloc, self.setting.model, self.setting.lists, text)? {
            Some(goal) => {
                judged.stated.push_goal(goal)?;
                Ok(true)
            }
            None => Ok(false),
        }
    }

    fn listed(&self, judged: &mut Judged<'a>, ns: &[u128]) -> Result<bool, AllocError>
        requires { Judges self.now judged.old }
        ensures judged { IfOk result (λ good. came good judged.new ≡ Judging.judge_listed (plant_of self.now.setting) (judged_of judged.old) ns.now) }
        ensures fits { IfOk result (λ good. StillFits self.now good judged.new) }
    {
        let tracked = judged.stated.tracked.as_slice();
        match candidate_of(self.alloc, self.setting.model, tracked, ns)? {
            Some(rank) => self.list(judged, rank),
            None => Ok(false),
        }
    }

    /// Whether a candidate leads to the state of one that is listed, where targets have to be distinct.
    fn has_old_target(&self, judged: &Judged<'a>, rank: &Rank) -> bool
        requires setting { IsSetting self.now.setting }
        ensures { result ≡ Judging.has_old_target (plant_of self.now.setting) (judged_of judged.now) rank.now }
    {
        judged.stated.distinct && has_target(self.setting.targets, judged.listed.as_slice(), rank)
    }

    /// Lists a candidate, if it ranks behind the one before, and has a new target where this is asked for.
    fn list(&self, judged: &mut Judged<'a>, rank: Rank) -> Result<bool, AllocError>
        requires judges { Judges self.now judged.old }
        requires few { HasFewChoices rank }
        ensures judged { IfOk result (λ good. came good judged.new ≡ Judging.with_listed (plant_of self.now.setting) (judged_of judged.old) rank) }
        ensures fits { IfOk result (λ good. StillFits self.now good judged.new) }
    {
        if !is_next(judged, &rank) || self.has_old_target(judged, &rank) {
            return Ok(false);
        }
        judged.listed.push(rank)?;
        Ok(true)
    }

    fn now(&self, judged: &mut Judged<'a>, ns: &[u128]) -> Result<bool, AllocError>
        requires { Judges self.now judged.old }
        ensures judged { IfOk result (λ good. came good judged.new ≡ Judging.judge_now (plant_of self.now.setting) (judged_of judged.old) ns.now) }
        ensures fits { IfOk result (λ good. StillFits self.now good judged.new) }
    {
        match values_of(self.alloc, self.setting.counts.values.as_slice(), ns)? {
            Some(values) => {
                judged.before = Some(Seq::from_vec(values));
                Ok(true)
            }
            None => Ok(false),
        }
    }

    fn next(&self, judged: &Judged<'a>, ns: &[u128]) -> Result<bool, AllocError>
        requires { Judges self.now judged.now }
        ensures { IfOk result (λ good. good ≡ (are_of (sizes (plant_of self.now.setting)) ns.now && option_map_or (Judging.shows self.now.question (plant_of self.now.setting) (judged_of judged.now) (values_of ns.now)) judged.now.before false)) }
    {
        match values_of(self.alloc, self.setting.counts.values.as_slice(), ns)? {
            Some(values) => shows(
                self.alloc,
                self.question,
                &self.setting,
                judged,
                values.as_slice(),
            ),
            None => Ok(false),
        }
    }

    fn conflict(
        &self,
        judged: &mut Judged<'a>,
        ns: &[u128],
        rest: &[Line],
    ) -> Result<bool, AllocError>
        requires { Judges self.now judged.old }
        ensures judged { IfOk result (λ good. came good judged.new ≡ Judging.judge_conflict self.now.question (plant_of self.now.setting) (judged_of judged.old) ns.now rest.now) }
        ensures fits { IfOk result (λ good. StillFits self.now good judged.new) }
    {
        match self.question {
            Question::Diagnosis => self.refute_choices(judged, ns, rest),
            Question::Recovery => self.refute_goals(judged, ns, rest),
        }
    }

    /// Opens the block of choices that can't be made together.
    fn refute_choices(
        &self,
        judged: &mut Judged<'a>,
        ns: &[u128],
        rest: &[Line],
    ) -> Result<bool, AllocError>
        requires { Judges self.now judged.old }
        ensures judged { IfOk result (λ good. came good judged.new ≡ Judging.choices_refuted (plant_of self.now.setting) (judged_of judged.old) ns.now rest.now) }
        ensures fits { IfOk result (λ good. StillFits self.now good judged.new) }
    {
        let Some(conflict) = conflict_of(self.alloc, self.setting.counts.moves.as_slice(), ns)?
        else {
            return Ok(false);
        };
        if !ends_empty(rest) {
            return Ok(false);
        }
        judged.block.restart();
        give_units(&mut judged.block, judged.stated.literals.as_slice())?;
        give_choices(&self.setting, &mut judged.block, conflict.pairs())?;
        judged.excluded.push(conflict)?;
        Ok(true)
    }

    /// Opens the block of values with which no step from a state reaches all goals.
    fn refute_goals(
        &self,
        judged: &mut Judged<'a>,
        ns: &[u128],
        rest: &[Line],
    ) -> Result<bool, AllocError>
        requires { Judges self.now judged.old }
        ensures judged { IfOk result (λ good. came good judged.new ≡ Judging.goals_refuted (plant_of self.now.setting) (judged_of judged.old) ns.now rest.now) }
        ensures fits { IfOk result (λ good. StillFits self.now good judged.new) }
    {
        let [s, ns @ ..] = ns else {
            return Ok(false);
        };
        let Some(place) = place_in(judged.stated.tracked.len(), *s) else {
            return Ok(false);
        };
        let Some(conflict) = conflict_of(self.alloc, self.setting.counts.controlled.as_slice(), ns)?
        else {
            return Ok(false);
        };
        if !ends_empty(rest) {
            return Ok(false);
        }
        self.give_step(judged, place, conflict.pairs())?;
        give_goals(
            self.alloc,
            &self.setting,
            &mut judged.block,
            judged.stated.goals.as_slice(),
        )?;
        judged.excluded.push(conflict)?;
        Ok(true)
    }

    /// Opens the block of a nominal step from a state with these values of controls.
    fn give_step(
        &self,
        judged: &mut Judged<'a>,
        place: usize,
        pairs: &[Pair],
    ) -> Result<(), AllocError>
        requires judges { Judges self.now judged.old }
        requires place { place < length judged.old.stated.tracked }
        requires pairs { All (IsPairOf (control_sizes (plant_of self.now.setting))) pairs.now }
        ensures { OnOk result ((d : TrackedState) → judged.new ≡ record judged.old { block = with_clauses (record { system = judged.old.block.system; own = [] }) (nominal_units (plant_of self.now.setting) (slice_index_or judged.old.stated.tracked place d).state.modes judged.old.stated.literals pairs.now) }) }
    {
        judged.block.restart();
        give_nominal(
            &self.setting,
            &mut judged.block,
            judged.stated.tracked[place].state.modes.as_slice(),
            judged.stated.literals.as_slice(),
            pairs,
        )
    }

    fn recovery(&self, judged: &mut Judged<'a>, ns: &[u128]) -> Result<bool, AllocError>
        requires { Judges self.now judged.old }
        ensures judged { IfOk result (λ good. came good judged.new ≡ Judging.judge_recovery (plant_of self.now.setting) (judged_of judged.old) ns.now) }
        ensures fits { IfOk result (λ good. StillFits self.now good judged.new) }
    {
        match places_of(self.alloc, self.setting.counts.controlled.as_slice(), ns)? {
            Some(values) => {
                judged.listed.push(self.command_rank(values))?;
                Ok(true)
            }
            None => Ok(false),
        }
    }

    /// What the values of the controls cost together.
    fn command_cost(&self, values: &[u32]) -> u64
        requires setting { IsSetting self.now.setting }
        requires values { length values.now ≡ length (controls (plant_of self.now.setting)) }
        ensures { result ≡ Commands.commands_cost (plant_of self.now.setting) (controls (plant_of self.now.setting)) values.now }
    {
        let _plant = self.setting.model.plant();
        let mut cost = 0;
        for (k, control) in self.setting.counts.controls.iter().enumerate() {
            cost += self.setting.model.price(*control, ValId(values[k])).0;
        }
        cost
    }

    /// The rank of the command set of these values.
    fn command_rank(&self, values: Vec<u32>) -> Rank
        requires setting { IsSetting self.now.setting }
        requires values { length values.items ≡ length (controls (plant_of self.now.setting)) }
        ensures { result ≡ Commands.command_rank (plant_of self.now.setting) values.items }
    {
        let cost = self.command_cost(values.as_slice());
        Rank {
            cost: Cost(cost),
            source: 0,
            choices: Seq::from_vec(values),
        }
    }

    /// The values of the answer.
    fn answer_values(&self, judged: &Judged<'a>) -> Result<Vec<u32>, AllocError>
        requires setting { IsSetting self.now.setting }
        requires few { All HasFewChoices judged.now.listed.items }
        ensures values { IfOk result (λ values. values.items ≡ Judging.answer_values (judged_of judged.now)) }
        ensures few { IfOk result (λ values. length values.items ≤ 4096) }
    {
        match judged.listed.first() {
            Some(rank) => Vec::from_slice(self.alloc, rank.choices.as_slice()),
            None => Ok(Vec::new(self.alloc)),
        }
    }

    fn good(&self, judged: &mut Judged<'a>, ns: &[u128]) -> Result<bool, AllocError>
        requires { Judges self.now judged.old }
        ensures judged { IfOk result (λ good. came good judged.new ≡ Judging.judge_good (judged_of judged.old) ns.now) }
        ensures fits { IfOk result (λ good. StillFits self.now good judged.new) }
    {
        let [s] = ns else {
            return Ok(false);
        };
        let Some(place) = place_in(judged.stated.tracked.len(), *s) else {
            return Ok(false);
        };
        judged.aimed = Some(Aimed {
            place,
            values: Seq::from_vec(self.answer_values(judged)?),
            reaches: true,
        });
        Ok(true)
    }

    /// Opens the block of a goal that can't be missed from a state with the values of the answer.
    fn proof(&self, judged: &mut Judged<'a>, ns: &[u128], rest: &[Line]) -> Result<bool, AllocError>
        requires { Judges self.now judged.old }
        ensures judged { IfOk result (λ good. came good judged.new ≡ Judging.judge_proof (plant_of self.now.setting) (judged_of judged.old) ns.now rest.now) }
        ensures fits { IfOk result (λ good. StillFits self.now good judged.new) }
    {
        let [s, g] = ns else {
            return Ok(false);
        };
        let Some(goal) = place_in(judged.stated.goals.len(), *g) else {
            return Ok(false);
        };
        let Some(place) = place_in(judged.stated.tracked.len(), *s) else {
            return Ok(false);
        };
        let values = self.answer_values(judged)?;
        if !are_below(values.as_slice(), self.setting.counts.controlled.as_slice())
            || !ends_empty(rest)
        {
            return Ok(false);
        }
        let conflict = choices_as_conflict(self.alloc, values.as_slice())?;
        self.give_step(judged, place, conflict.pairs())?;
        give_goal(
            self.alloc,
            &self.setting,
            &mut judged.block,
            &judged.stated.goals[goal],
            false,
        )?;
        Ok(true)
    }

    fn counter(&self, judged: &mut Judged<'a>, ns: &[u128]) -> Result<bool, AllocError>
        requires { Judges self.now judged.old }
        ensures judged { IfOk result (λ good. came good judged.new ≡ Judging.judge_counter (plant_of self.now.setting) (judged_of judged.old) ns.now) }
        ensures fits { IfOk result (λ good. StillFits self.now good judged.new) }
    {
        let [s, ns @ ..] = ns else {
            return Ok(false);
        };
        let Some(place) = place_in(judged.stated.tracked.len(), *s) else {
            return Ok(false);
        };
        let Some(values) = places_of(self.alloc, self.setting.counts.controlled.as_slice(), ns)?
        else {
            return Ok(false);
        };
        let conflict = choices_as_conflict(self.alloc, values.as_slice())?;
        judged.excluded.push(conflict)?;
        judged.aimed = Some(Aimed {
            place,
            values: Seq::from_vec(values),
            reaches: false,
        });
        Ok(true)
    }

    fn clause(
        &self,
        judged: &mut Judged<'a>,
        lits: &[Literal],
        hints: &[u128],
    ) -> Result<bool, AllocError>
        requires { Judges self.now judged.old }
        ensures judged { IfOk result (λ good. came good judged.new ≡ Judging.judge_clause (plant_of self.now.setting) (judged_of judged.old) lits.now hints.now) }
        ensures fits { IfOk result (λ good. StillFits self.now good judged.new) }
    {
        let good = judged.block.derive(lits, hints)?;
        Ok(good)
    }

    fn split(&self, judged: &mut Judged<'a>, n: u128, by: Evidence) -> Result<bool, AllocError>
        requires { Judges self.now judged.old }
        ensures judged { IfOk result (λ good. came good judged.new ≡ Judging.judge_split (plant_of self.now.setting) (judged_of judged.old) n by) }
        ensures fits { IfOk result (λ good. StillFits self.now good judged.new) }
    {
        let Some(source) = source_of(judged, n) else {
            return Ok(false);
        };
        match by {
            Evidence::Conflict(j) => self.split_by_conflict(judged, n, j),
            Evidence::Listed(j) => self.split_by_listed(judged, n, source, j),
            Evidence::Target(j) => self.split_by_target(judged, n, j),
            Evidence::Recovery => self.split_by_listed(judged, n, source, 1),
        }
    }

    fn split_by_conflict(
        &self,
        judged: &mut Judged<'a>,
        n: u128,
        j: u128,
    ) -> Result<bool, AllocError>
        requires { Judges self.now judged.old }
        ensures judged { (zone : ZoneValue) → open_zone judged.old.space n ≡ Some zone → IfOk result (λ good. came good judged.new ≡ split_into (judged_of judged.old) n (Judging.split_parts (plant_of self.now.setting) (judged_of judged.old) zone (evidence.Conflict j))) }
        ensures fits { IfOk result (λ good. StillFits self.now good judged.new) }
    {
        let Some(place) = place_in(judged.excluded.len(), j) else {
            return Ok(false);
        };
        judged.space.split(self.alloc, n, &judged.excluded[place])?;
        Ok(true)
    }

    /// Splits a zone of a state by the listed candidate of this number, if that is one of the state.
    fn split_by_listed(
        &self,
        judged: &mut Judged<'a>,
        n: u128,
        source: u32,
        j: u128,
    ) -> Result<bool, AllocError>
        requires { Judges self.now judged.old }
        ensures judged { (zone : ZoneValue) → open_zone judged.old.space n ≡ Some zone → zone.source ≡ source → IfOk result (λ good. came good judged.new ≡ split_into (judged_of judged.old) n (option_map (parts_of zone) (Judging.listed_choices (judged_of judged.old) zone j))) }
        ensures fits { IfOk result (λ good. StillFits self.now good judged.new) }
    {
        let Some(place) = place_in(judged.listed.len(), j) else {
            return Ok(false);
        };
        let rank = &judged.listed[place];
        if rank.source != source {
            return Ok(false);
        }
        let conflict = choices_as_conflict(self.alloc, rank.choices.as_slice())?;
        judged.space.split(self.alloc, n, &conflict)?;
        Ok(true)
    }

    /// Splits a zone by the target of the listed candidate of this number, where targets have to be distinct and no member of
    /// the zone ranks before it.
    fn split_by_target(&self, judged: &mut Judged<'a>, n: u128, j: u128) -> Result<bool, AllocError>
        requires { Judges self.now judged.old }
        ensures judged { (zone : ZoneValue) → open_zone judged.old.space n ≡ Some zone → IfOk result (λ good. came good judged.new ≡ split_into (judged_of judged.old) n (Judging.target_parts (plant_of self.now.setting) (judged_of judged.old) zone j)) }
        ensures fits { IfOk result (λ good. StillFits self.now good judged.new) }
    {
        if !judged.stated.distinct {
            return Ok(false);
        }
        let Some(place) = place_in(judged.listed.len(), j) else {
            return Ok(false);
        };
        let rank = &judged.listed[place];
        if judged.space.has_before(self.alloc, n, rank)? {
            return Ok(false);
        }
        judged.space.split_by_groups(self.alloc, n, self.setting.targets, rank.choices.as_slice())?;
        Ok(true)
    }
}

/// Whether a candidate ranks behind the last one that is listed.
fn is_next(judged: &Judged<'_>, rank: &Rank) -> bool
    ensures { result ≡ Judging.is_next judged.now.listed.items rank.now }
{
    match judged.last() {
        Some(last) => last.before(rank),
        None => true,
    }
}

/// The tracked state's place of the zone of this number, if it is open.
fn source_of(judged: &Judged<'_>, n: u128) -> Option<u32>
    ensures { result ≡ option_map (λ (zone : ZoneValue). zone.source) (open_zone judged.now.space n) }
{
    judged.space.source_of(n)
}
