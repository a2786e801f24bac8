//! The clauses of a plant, and the booleans of its variables and choices.
#![tactic(auto)]

ghost use Rattle.std.specs.Prelude.{◌≡◌, ◌+◌, ◌<◌, ◌^◌, IfOk, IsTrue};
ghost use Rattle.std.specs.List.{sum};
ghost use Rattle.lv_model.specs.WellFormed.{is_well_formed};
ghost use Rattle.lv_model.specs.Lists.{sizes};
ghost use Rattle.lv_compile.specs.Booleans.{booleans_now, booleans_next, first_choice};
ghost use Rattle.lv_compile.specs.ModelClauses.{model_clauses};

use crate::moves::Copies;
use crate::value_bools::ValueBools;
use crate::windows::window_clauses;
use lv_base::{Lit, Seq};
use lv_model::variables::all_sizes;
use lv_model::{Model, Plant};
use std::alloc::{AllocError, Global};

/// How many booleans there are of things that have so many each.
pub fn sum_of(sizes: &[usize]) -> u32
    requires { sum sizes.now < 2 ^ 32 }
    ensures { result ≡ sum sizes.now }
{
    let mut total = 0;
    for size in sizes {
        total += *size as u32;
    }
    total
}

/// The booleans of the plant's variables and choices.
pub fn copies_of(alloc: Global, plant: &Plant) -> Result<Copies, AllocError>
    requires { IsTrue (is_well_formed plant.now) }
    ensures before { IfOk result (λ c. c.before ≡ booleans_now plant.now) }
    ensures after { IfOk result (λ c. c.after ≡ booleans_next plant.now) }
    ensures choices { IfOk result (λ c. c.first_choice ≡ first_choice plant.now) }
{
    let sizes = all_sizes(alloc, plant)?;
    let values = sum_of(sizes.as_slice());
    let before = ValueBools::new(alloc, 0, sizes)?;
    let sizes = all_sizes(alloc, plant)?;
    let after = ValueBools::new(alloc, values, sizes)?;
    Ok(Copies {
        before,
        after,
        first_choice: values + values,
    })
}

/// The clauses of the model, in their order: those of a window of one step.
pub fn model_clauses(alloc: Global, model: &Model) -> Result<Vec<Seq<Lit>>, AllocError>
    ensures { IfOk result (λ out. out.items ≡ model_clauses model.now) }
{
    window_clauses(alloc, model, 1)
}
