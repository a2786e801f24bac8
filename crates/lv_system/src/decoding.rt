//! Numbers read off truth values: which of a thing's booleans is true.
#![tactic(auto)]

ghost use Rattle.std.specs.Prelude.{◌≡◌, ◌<◌, IfOk, length, map};
ghost use Rattle.lv_system.specs.Encoding.{truth_in, value_numbered, move_numbered};
ghost use Rattle.lv_system.specs.Decoding.{IsNumberOf, AreNumbers};

use lv_base::{MoveId, ValId};
use lv_clauses::lit_holds;
use lv_compile::value_bools::ValueBools;
use std::alloc::{AllocError, Global};

/// Which of the thing's booleans is true, the first if more are; 0 where none is.
fn number_of(bools: &ValueBools, values: &[bool], thing: usize) -> u32
    requires { thing < length bools.now.sizes }
    ensures { IsNumberOf (truth_in values.now) bools.now thing result }
{
    for number in 0..bools.size(thing) {
        if lit_holds(values, bools.literal(thing, number, true)) {
            return number;
        }
    }
    0
}

/// Of each thing which of its booleans is true.
pub fn numbers_of(
    alloc: Global,
    bools: &ValueBools,
    values: &[bool],
) -> Result<Vec<u32>, AllocError>
    ensures { IfOk result (λ out. AreNumbers (truth_in values.now) bools.now out.items) }
{
    let mut out = Vec::new(alloc);
    for thing in 0..bools.sizes().len() {
        out.push(number_of(bools, values, thing))?;
    }
    Ok(out)
}

/// The values of these numbers.
pub fn values_numbered(alloc: Global, numbers: &[u32]) -> Result<Vec<ValId>, AllocError>
    ensures { IfOk result (λ a. a.items ≡ map value_numbered numbers.now) }
{
    numbers.iter().map(|number| ValId(*number)).collect(alloc)
}

/// The moves of these numbers.
pub fn moves_numbered(alloc: Global, numbers: &[u32]) -> Result<Vec<MoveId>, AllocError>
    ensures { IfOk result (λ ms. ms.items ≡ map move_numbered numbers.now) }
{
    numbers.iter().map(|number| MoveId(*number)).collect(alloc)
}
