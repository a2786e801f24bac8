//! The system of several steps, one behind the other: their clauses in a set, and the literals of values and moves at each
//! of them.
#![tactic(auto)]

ghost use Rattle.std.specs.Prelude.{◌≡◌, ◌<◌, ◌≤◌, IfOk, IsTrue, length, slice_get, Some, suc};
ghost use Rattle.lv_model.specs.WellFormed.{is_well_formed};
ghost use Rattle.lv_compile.specs.declared.windows.TheConstants.{WINDOW};
ghost use Rattle.lv_compile.specs.Windows.{past_copies};
ghost use Rattle.lv_compile.specs.WindowLaws.{counts_of};
ghost use Rattle.lv_system.specs.Windows.{copies_from, IsWindowOf};

use crate::choices::ChoiceBools;
use crate::numbered::number_all;
use lv_base::Seq;
use lv_clauses::ClauseSet;
use lv_compile::plant_clauses::sum_of;
use lv_compile::value_bools::ValueBools;
use lv_compile::windows::{WINDOW, bools_from, window_clauses};
use lv_model::{Model, Plant};
use std::alloc::{AllocError, Global};
use std::marker;

/// The clauses of several steps, and the numbering of the booleans: of the variables before the first step and after each,
/// and of the choices, step by step.
#[derive(Drop)]
pub struct WindowSystem {
    copies: Seq<ValueBools>,
    choices: ChoiceBools,
    set: ClauseSet,
}

impl marker::Model for WindowSystem {
    ghost use Rattle.lv_system.specs.Windows.{WindowValue};

    ghost Value = { WindowValue };

    ghost view = { λ s. record { set = s.set; copies = s.copies; choices = s.choices } };
}

/// Copies of the variables, one behind the other, and the boolean behind them.
#[derive(Drop)]
struct AllCopies {
    copies: Vec<ValueBools>,
    past: u32,
}

/// The copies of the variables before the first of so many steps and after each.
fn all_copies(alloc: Global, plant: &Plant, steps: u32) -> Result<AllCopies, AllocError>
    requires well { IsTrue (is_well_formed plant.now) }
    requires few { steps ≤ WINDOW }
    ensures copies { IfOk result (λ all. all.copies.items ≡ copies_from plant.now 0 (suc steps)) }
    ensures past { IfOk result (λ all. all.past ≡ past_copies plant.now 0 (suc steps)) }
{
    let mut copies = Vec::new(alloc);
    let mut first = 0;
    let mut left = steps + 1;
    'copies: while left > 0 {
        let bools = bools_from(alloc, plant, first)?;
        first += sum_of(bools.sizes());
        copies.push(bools)?;
        left -= 1;
    }
    Ok(AllCopies {
        copies,
        past: first,
    })
}

/// How many moves each part has in each of so many steps.
fn all_counts(alloc: Global, model: &Model, steps: u32) -> Result<Vec<usize>, AllocError>
    ensures { IfOk result (λ counts. counts.items ≡ counts_of model.now steps) }
{
    let own = model.move_counts(alloc)?;
    let mut counts = Vec::new(alloc);
    let mut left = steps;
    'steps: while left > 0 {
        counts.extend_from_slice(own.as_slice())?;
        left -= 1;
    }
    Ok(counts)
}

/// The system of so many steps of the model.
pub fn compile_window(alloc: Global, model: &Model, steps: u32) -> Result<WindowSystem, AllocError>
    requires { steps ≤ WINDOW }
    ensures { IfOk result (λ s. IsWindowOf model.now steps s) }
{
    let all = all_copies(alloc, model.plant(), steps)?;
    let counts = all_counts(alloc, model, steps)?;
    let bools = all.past + sum_of(counts.as_slice());
    let choices = ChoiceBools::new(alloc, all.past, counts)?;
    let clauses = window_clauses(alloc, model, steps)?;
    let numbered = number_all(alloc, bools, clauses.as_slice())?;
    Ok(WindowSystem {
        copies: Seq::from_vec(all.copies),
        choices,
        set: numbered.set,
    })
}

impl WindowSystem {
    /// The set of the clauses.
    pub fn clauses(&self) -> &ClauseSet
        ensures { result.now ≡ self.now.set }
    {
        &self.set
    }

    /// The booleans of the variables in the copy of this number: 0 for what is before the first step, else what is after
    /// so many.
    pub fn bools_at(&self, copy: usize) -> &ValueBools
        requires { copy < length self.now.copies }
        ensures { slice_get self.now.copies copy ≡ Some result.now }
    {
        &self.copies.as_slice()[copy]
    }

    /// The booleans of the choices: a slot for each part of each step, step by step.
    pub fn choices(&self) -> &ChoiceBools
        ensures { result.now ≡ self.now.choices }
    {
        &self.choices
    }
}
