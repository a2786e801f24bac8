//! The lines of the recovery that is given: from each state there is a step under it, and none misses a goal.
#![tactic(auto)]

ghost use Rattle.std.specs.Prelude.{◌≡◌, ◌+◌, ◌++◌, ◌∷◌, [], Some, IfOk, length, slice_get};
ghost use Rattle.lv_cert.specs.declared.line.Head.TheVariants as head;
ghost use Rattle.lv_cert.specs.declared.line.Line.TheVariants.{Numbers};
ghost use Rattle.lv_cert_recovery.specs.Keeping.{IsGiven, answer_of, choices_of};
ghost use Rattle.lv_cert_recovery.specs.Leading.{asked, good, proved, excluding, standing, LeadsOn};
ghost use Rattle.lv_cert_recovery.specs.Showing.{step_lines};
ghost use Rattle.lv_cert_recovery.specs.Showing as Showing;

use crate::asking::{Asking, lines_told, step_told};
use lv_base::{Condition, Pair, Seq, ValId};
use lv_cert::{Head, Line};
use lv_cert_writing::Refuter;
use lv_cert_writing::asking::push_clauses;
use lv_cert_writing::stating::values_line;
use lv_model::TrackedState;
use std::alloc::{AllocError, Global};

/// Adds the values before and after a step.
pub fn push_step(
    alloc: Global,
    lines: &mut Vec<Line>,
    before: &[ValId],
    after: &[ValId],
) -> Result<(), AllocError>
    ensures { IfOk result (λ _. lines.new.items ≡ lines.old.items ++ step_lines before.now after.now) }
{
    lines.push(values_line(alloc, Head::Now, before)?)?;
    lines.push(values_line(alloc, Head::Next, after)?)?;
    Ok(())
}

/// That the state of this place is good.
fn good_line(alloc: Global, place: usize) -> Result<Line, AllocError>
    ensures { IfOk result (λ line. line ≡ Numbers head.Good ((place + 1) ∷ [])) }
{
    let mut numbers = Seq::new(alloc);
    numbers.push(place as u128 + 1)?;
    Ok(Line::Numbers(Head::Good, numbers))
}

/// That from the state of this place the goal of that place isn't missed.
fn proof_line(alloc: Global, place: usize, goal: usize) -> Result<Line, AllocError>
    ensures { IfOk result (λ line. line ≡ Numbers head.Proof ((place + 1) ∷ ((goal + 1) ∷ []))) }
{
    let mut numbers = Seq::new(alloc);
    numbers.push(place as u128 + 1)?;
    numbers.push(goal as u128 + 1)?;
    Ok(Line::Numbers(Head::Proof, numbers))
}

/// The values to which the controls are commanded.
fn recovery_line(alloc: Global, pairs: &[Pair]) -> Result<Line, AllocError>
    ensures { IfOk result (λ line. line ≡ Showing.recovery_line (choices_of pairs.now)) }
{
    let mut numbers = Seq::new(alloc);
    for pair in pairs {
        numbers.push(u128::from(pair.choice) + 1)?;
    }
    Ok(Line::Numbers(Head::Recovery, numbers))
}

/// A recovery that is given, by its values, and a state, by its place, from which it leads to the goals.
#[derive(Clone, Copy)]
struct Case<'a> {
    asking: &'a Asking<'a>,
    pairs: &'a [Pair],
    place: usize,
    state: &'a TrackedState,
}

impl<'a> Case<'a> {
    /// Shows that from the state there is a step under the recovery.
    fn push_good(&self, refuter: &mut Refuter<'_>, lines: &mut Vec<Line>) -> Result<(), AllocError>
        requires refuter { refuter.old ≡ self.now.asking.now.system }
        requires given { IsGiven self.now.asking.now.plant self.now.asking.now.aim self.now.pairs.now }
        requires state { slice_get self.now.asking.now.aim.tracked self.now.place ≡ Some self.now.state.now }
        ensures told { IfOk result (λ _. LeadsOn self.now.asking.now.plant self.now.asking.now.aim (standing (good self.now.place) (answer_of self.now.asking.now.plant self.now.pairs.now) []) (standing (proved self.now.place 0) (answer_of self.now.asking.now.plant self.now.pairs.now) []) lines.old.items lines.new.items) }
        ensures kept { refuter.new ≡ refuter.old }
    {
        let _aim = self.asking.aim();
        let step = step_told(self.asking.reach(refuter, &self.state.state, self.pairs)?);
        lines.push(good_line(self.asking.alloc(), self.place)?)?;
        push_step(
            self.asking.alloc(),
            lines,
            step.now.as_slice(),
            step.next.as_slice(),
        )
    }

    /// Shows that from the state no step under the recovery misses the goal of this place.
    fn push_proof(
        &self,
        refuter: &mut Refuter<'_>,
        lines: &mut Vec<Line>,
        at: usize,
        goal: &Condition,
    ) -> Result<(), AllocError>
        requires refuter { refuter.old ≡ self.now.asking.now.system }
        requires given { IsGiven self.now.asking.now.plant self.now.asking.now.aim self.now.pairs.now }
        requires state { slice_get self.now.asking.now.aim.tracked self.now.place ≡ Some self.now.state.now }
        requires goal { slice_get self.now.asking.now.aim.goals at ≡ Some goal.now }
        ensures told { IfOk result (λ _. LeadsOn self.now.asking.now.plant self.now.asking.now.aim (standing (proved self.now.place at) (answer_of self.now.asking.now.plant self.now.pairs.now) []) (standing (proved self.now.place (at + 1)) (answer_of self.now.asking.now.plant self.now.pairs.now) []) lines.old.items lines.new.items) }
        ensures kept { refuter.new ≡ refuter.old }
    {
        let _aim = self.asking.aim();
        let told = lines_told(
            self.asking
                .miss(refuter, &self.state.state, self.pairs, goal)?,
        );
        lines.push(proof_line(self.asking.alloc(), self.place, at)?)?;
        push_clauses(lines, told)?;
        Ok(())
    }

    /// Shows that from the state no step under the recovery misses a goal.
    fn push_proofs(
        &self,
        refuter: &mut Refuter<'_>,
        lines: &mut Vec<Line>,
    ) -> Result<(), AllocError>
        requires refuter { refuter.old ≡ self.now.asking.now.system }
        requires given { IsGiven self.now.asking.now.plant self.now.asking.now.aim self.now.pairs.now }
        requires state { slice_get self.now.asking.now.aim.tracked self.now.place ≡ Some self.now.state.now }
        ensures told { IfOk result (λ _. LeadsOn self.now.asking.now.plant self.now.asking.now.aim (standing (proved self.now.place 0) (answer_of self.now.asking.now.plant self.now.pairs.now) []) (standing (proved self.now.place (length self.now.asking.now.aim.goals)) (answer_of self.now.asking.now.plant self.now.pairs.now) []) lines.old.items lines.new.items) }
        ensures kept { refuter.new ≡ refuter.old }
    {
        let aim = self.asking.aim();
        for (at, goal) in aim.goals.as_slice().iter().enumerate() {
            self.push_proof(refuter, lines, at, goal)?;
        }
        Ok(())
    }
}

/// Shows that from each state the recovery leads to the goals.
fn push_states<'a>(
    asking: &'a Asking<'a>,
    refuter: &mut Refuter<'_>,
    pairs: &'a [Pair],
    lines: &mut Vec<Line>,
) -> Result<(), AllocError>
    requires refuter { refuter.old ≡ asking.now.system }
    requires given { IsGiven asking.now.plant asking.now.aim pairs.now }
    ensures told { IfOk result (λ _. LeadsOn asking.now.plant asking.now.aim (standing (good 0) (answer_of asking.now.plant pairs.now) []) (standing (good (length asking.now.aim.tracked)) (answer_of asking.now.plant pairs.now) []) lines.old.items lines.new.items) }
    ensures kept { refuter.new ≡ refuter.old }
{
    let aim = asking.aim();
    for (place, state) in aim.tracked.as_slice().iter().enumerate() {
        let case = Case {
            asking,
            pairs,
            place,
            state,
        };
        case.push_good(refuter, lines)?;
        case.push_proofs(refuter, lines)?;
    }
    Ok(())
}

/// Gives the recovery, whose values these are, and shows that it recovers.
pub fn push_recovery(
    asking: &Asking,
    refuter: &mut Refuter<'_>,
    pairs: &[Pair],
    lines: &mut Vec<Line>,
) -> Result<(), AllocError>
    requires refuter { refuter.old ≡ asking.now.system }
    requires given { IsGiven asking.now.plant asking.now.aim pairs.now }
    ensures told { IfOk result (λ _. LeadsOn asking.now.plant asking.now.aim (standing asked [] []) (standing excluding (answer_of asking.now.plant pairs.now) []) lines.old.items lines.new.items) }
    ensures kept { refuter.new ≡ refuter.old }
{
    let _aim = asking.aim();
    lines.push(recovery_line(asking.alloc(), pairs)?)?;
    push_states(asking, refuter, pairs, lines)
}
