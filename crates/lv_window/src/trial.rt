//! A trial of trajectories: the solver tells whether a trajectory is possible, and of one that isn't the reason, by deletion
//! step by step, part by part.
#![tactic(auto)]

ghost use Rattle.std.specs.Prelude.{◌≡◌, ◌≤◌, [], All, IfOk, IsTrue, length};
ghost use Rattle.lv_base.specs.Choices.{pairs_of};
ghost use Rattle.lv_compile.specs.declared.windows.TheConstants.{WINDOW};
ghost use Rattle.lv_compile.specs.WindowLaws.{counts_of};
ghost use Rattle.lv_system.specs.Windows.{IsWindowOf};
ghost use Rattle.lv_asking.specs.Asking.{IsPartial, IsReason};
ghost use Rattle.lv_window.specs.Possible.{is_possible_over, is_possible_trajectory};
ghost use Rattle.lv_window.specs.Walk.{window_reason};
ghost use Rattle.lv_window.specs.Joints.{is_full_window};
ghost use Rattle.lv_window.specs.Known.{StepFits};
ghost use Rattle.lv_window.specs.Trial.{TellsWindow};

use crate::known::window_literals;
use lv_asking::Asking;
use lv_asking::literals::each_once;
use lv_base::{Candidate, Conflict, Pair, Seq, pairs_of};
use lv_meaning::Facts;
use lv_model::Model;
use lv_sat::Effort;
use lv_search::{Trial, Tried};
use lv_system::WindowSystem;
use lv_system::window::compile_window;
use std::alloc::{AllocError, Global};
use std::marker;

/// A trial of the trajectories of a model, of whose steps this is known. Contracts see the plant and what is known.
#[derive(Drop)]
pub struct WindowTrial<'a> {
    alloc: Global,
    model: &'a Model,
    steps: Seq<Facts>,
    asking: Asking,
}

impl<'a> marker::Model for WindowTrial<'a> {
    ghost use Rattle.std.specs.Prelude.{length, ◌≤◌};
    ghost use Rattle.lv_compile.specs.declared.windows.TheConstants.{WINDOW};
    ghost use Rattle.lv_window.specs.Trial.{WindowTrialValue, TellsWindow};
    ghost use Rattle.std.specs.Coded.{codes};
    ghost use Rattle.lv_model.specs.lv_base.contracts.formula.Condition as condition;

    ghost Value = { WindowTrialValue };

    ghost coded = { Prim.hlevel (codes, condition.the_row.coded) };

    ghost view = { λ t. record { plant = t.model.now; steps = t.steps } };

    ghost invariant = { λ t. (length t.steps ≤ WINDOW) × TellsWindow t.model.now t.steps t.asking };
}

/// What is asked about the choices of these steps.
fn asking_of(
    alloc: Global,
    model: &Model,
    system: &WindowSystem,
    steps: &[Facts],
) -> Result<Asking, AllocError>
    requires some { 1 ≤ length steps.now }
    requires system { IsWindowOf model.now (length steps.now) system.now }
    requires fits { All (StepFits model.now) steps.now }
    ensures { IfOk result (λ asking. TellsWindow model.now steps.now asking) }
{
    let _plant = model.plant();
    let literals = window_literals(alloc, model, system, steps)?;
    let choices = system.choices().copied(alloc)?;
    let assumed = each_once(alloc, choices.as_values().first(), literals.as_slice())?;
    Asking::new(alloc, system.clauses(), choices, assumed)
}

impl<'a> WindowTrial<'a> {
    /// A trial of trajectories over these steps, of which there is one at least. What is known of them may contradict itself.
    pub fn new(
        alloc: Global,
        model: &'a Model,
        steps: Vec<Facts>,
    ) -> Result<WindowTrial<'a>, AllocError>
        requires some { 1 ≤ length steps.items }
        requires few { length steps.items ≤ WINDOW }
        requires fits { All (StepFits model.now) steps.items }
        ensures { IfOk result (λ trial. trial ≡ record { plant = model.now; steps = steps.items }) }
    {
        let known = steps.as_slice();
        let system = compile_window(alloc, model, known.len() as u32)?;
        let asking = asking_of(alloc, model, &system, known)?;
        Ok(WindowTrial {
            alloc,
            model,
            steps: Seq::from_vec(steps),
            asking,
        })
    }

    /// What its solver did so far. Takes no memory.
    pub fn effort(&self) -> Effort {
        self.asking.effort()
    }

    /// The trajectory's choices, step by step, part by part.
    fn choices_of(&self, candidate: &Candidate) -> Result<Vec<Pair>, AllocError>
        requires { IsTrue (is_full_window self.now.plant (length self.now.steps) candidate.now) }
        ensures pairs { IfOk result (λ out. out.items ≡ pairs_of candidate.now.choices) }
        ensures partial { IfOk result (λ out. IsPartial (counts_of self.now.plant (length self.now.steps)) out.items) }
    {
        let _plant = self.model.plant();
        pairs_of(self.alloc, candidate.choices.as_slice())
    }

    /// Nothing where the pairs are possible together, else their reason.
    fn reason_of(&mut self, pairs: &[Pair]) -> Result<Option<Conflict>, AllocError>
        requires { IsPartial (counts_of self.old.plant (length self.old.steps)) pairs.now }
        ensures reason { IfOk result (IsReason (is_possible_over self.old.plant self.old.steps) pairs.now) }
        ensures same { self.new ≡ self.old }
    {
        self.asking.reason(pairs)
    }
}

impl Trial for WindowTrial<'_> {
    ghost use Rattle.std.proofs.Common.{refl};
    ghost use Rattle.lv_base.specs.Choices.{picks};
    ghost use Rattle.lv_boxes.proofs.ReasonLemmas.{part_of_all};
    ghost use Rattle.lv_meaning.proofs.Reasons.{own_pairs};
    ghost use Rattle.lv_window.specs.Lawful.{apart_over};

    ghost suits = { λ t c. is_full_window t.plant (length t.steps) c };

    ghost fits = { λ t c. is_possible_trajectory t.plant t.steps c };

    ghost reason = { λ t c. window_reason t.plant t.steps c };

    ghost is_inside = { λ t c suits unfit. part_of_all (is_possible_over t.plant t.steps) (picks c.choices) [] (pairs_of c.choices) refl (own_pairs [] c.choices) };

    ghost is_apart = { λ t c d one other cannot can. apart_over t.plant t.steps c d cannot can };

    fn attempt(&mut self, candidate: &Candidate) -> Result<Tried, AllocError> {
        let pairs = self.choices_of(candidate)?;
        match self.reason_of(pairs.as_slice())? {
            None => Ok(Tried::Fits),
            Some(conflict) => Ok(Tried::Refused(conflict)),
        }
    }
}
