//! The clauses of several steps, one behind the other: the copies of the variables, then the moves of each step. Those of
//! one step are the clauses of the plant.
#![tactic(auto)]

ghost use Rattle.std.specs.Prelude.{◌≡◌, ◌+◌, ◌<◌, ◌≤◌, ◌^◌, ◌++◌, IfOk, IsTrue, sum_by};
ghost use Rattle.std.specs.List.{sum};
ghost use Rattle.lv_model.specs.WellFormed.{is_well_formed};
ghost use Rattle.lv_model.specs.Lists.{sizes, part_moves};
ghost use Rattle.lv_compile.specs.Booleans.{booleans_from};
ghost use Rattle.lv_compile.specs.declared.windows.TheConstants.{WINDOW};
ghost use Rattle.lv_compile.specs.Windows.{past_copies, copies_clauses, steps_clauses, raw_window, window_clauses, window_choice};

use crate::cleaning::cleaned;
use crate::copies::push_copy;
use crate::moves::{Copies, moves_of_part, push_choices};
use crate::plant_clauses::sum_of;
use crate::value_bools::ValueBools;
use lv_base::{Lit, Seq};
use lv_model::variables::all_sizes;
use lv_model::{ComponentType, Model, Part, Plant};
use std::alloc::{AllocError, Global};

/// How many steps a window has at most.
pub const WINDOW: u32 = 4;

/// The booleans of a copy of the plant's variables, of which this is the first.
pub fn bools_from(alloc: Global, plant: &Plant, first: u32) -> Result<ValueBools, AllocError>
    requires { first + sum (sizes plant.now) < 2 ^ 32 }
    ensures { IfOk result (λ b. b ≡ booleans_from plant.now first) }
{
    let sizes = all_sizes(alloc, plant)?;
    ValueBools::new(alloc, first, sizes)
}

/// The booleans of the copies before a step and after it, of which this is the first, and the first of its moves.
fn copies_from(
    alloc: Global,
    plant: &Plant,
    first: u32,
    first_choice: u32,
) -> Result<Copies, AllocError>
    requires { first + sum (sizes plant.now) + sum (sizes plant.now) < 2 ^ 32 }
    ensures before { IfOk result (λ c. c.before ≡ booleans_from plant.now first) }
    ensures after { IfOk result (λ c. c.after ≡ booleans_from plant.now (first + sum (sizes plant.now))) }
{
    let before = bools_from(alloc, plant, first)?;
    let behind = first + sum_of(before.sizes());
    let after = bools_from(alloc, plant, behind)?;
    Ok(Copies {
        before,
        after,
        first_choice,
    })
}

/// How many moves all parts have to choose from.
fn moves_of_parts(types: &[ComponentType], parts: &[Part]) -> u32
    requires { sum_by (part_moves types.now) parts.now < 2 ^ 32 }
    ensures { result ≡ sum_by (part_moves types.now) parts.now }
{
    let mut total = 0;
    for part in parts {
        total += moves_of_part(types, part) as u32;
    }
    total
}

/// Adds what holds of the plant at so many times, and answers the boolean behind their variables.
fn push_copies(
    out: &mut Vec<Seq<Lit>>,
    alloc: Global,
    plant: &Plant,
    copies: u32,
) -> Result<u32, AllocError>
    requires well { IsTrue (is_well_formed plant.now) }
    requires few { copies ≤ WINDOW + 1 }
    ensures out { IfOk result (λ _. out.new.items ≡ out.old.items ++ copies_clauses plant.now 0 copies) }
    ensures past { IfOk result (λ past. past ≡ past_copies plant.now 0 copies) }
{
    let mut first = 0;
    let mut left = copies;
    'copies: while left > 0 {
        let bools = bools_from(alloc, plant, first)?;
        push_copy(out, alloc, &bools, plant)?;
        first += sum_of(bools.sizes());
        left -= 1;
    }
    Ok(first)
}

/// Adds what the moves of so many steps ask for, of which this is the first boolean.
fn push_steps(
    out: &mut Vec<Seq<Lit>>,
    alloc: Global,
    plant: &Plant,
    first_choice: u32,
    steps: u32,
) -> Result<(), AllocError>
    requires well { IsTrue (is_well_formed plant.now) }
    requires few { steps ≤ WINDOW }
    requires choice { first_choice ≡ window_choice plant.now steps }
    ensures { IfOk result (λ _. out.new.items ≡ out.old.items ++ steps_clauses plant.now 0 first_choice steps) }
{
    let types = plant.types.as_slice();
    let parts = plant.parts.as_slice();
    let mut first = 0;
    let mut choice = first_choice;
    let mut left = steps;
    'steps: while left > 0 {
        let copies = copies_from(alloc, plant, first, choice)?;
        push_choices(out, alloc, &copies, types, choice, parts)?;
        first = copies.after.first();
        choice += moves_of_parts(types, parts);
        left -= 1;
    }
    Ok(())
}

/// The clauses of so many steps in their order, with literals that stand twice and clauses that are true of everything.
fn raw_window(alloc: Global, plant: &Plant, steps: u32) -> Result<Vec<Seq<Lit>>, AllocError>
    requires well { IsTrue (is_well_formed plant.now) }
    requires few { steps ≤ WINDOW }
    ensures { IfOk result (λ out. out.items ≡ raw_window plant.now steps) }
{
    let mut out = Vec::new(alloc);
    let first_choice = push_copies(&mut out, alloc, plant, steps + 1)?;
    push_steps(&mut out, alloc, plant, first_choice, steps)?;
    Ok(out)
}

/// The clauses of a window of so many steps, in their order.
pub fn window_clauses(alloc: Global, model: &Model, steps: u32) -> Result<Vec<Seq<Lit>>, AllocError>
    requires { steps ≤ WINDOW }
    ensures { IfOk result (λ out. out.items ≡ window_clauses model.now steps) }
{
    let raw = raw_window(alloc, model.plant(), steps)?;
    cleaned(alloc, raw)
}
