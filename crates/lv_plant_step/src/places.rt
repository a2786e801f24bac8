//! The values before a step and those after it, one behind the other: the literal that one of them is such a value.
#![tactic(auto)]

ghost use Rattle.std.specs.Prelude.{◌≡◌, ◌++◌, ◌<◌, length, slice_index_or};
ghost use Rattle.lv_plant_step.specs.Finding.{place_literal};

use lv_base::{Lit, ValId};
use lv_system::{Moment, StepSystem};

/// The literal that the value at a place is this one.
pub fn place_literal(system: &StepSystem, place: usize, val: ValId) -> Lit
    requires { val.0 < slice_index_or (system.now.before.sizes ++ system.now.after.sizes) place 0 }
    ensures { result ≡ place_literal system.now.before system.now.after place val.0 }
{
    let before = system.bools_at(Moment::Now);
    let width = before.sizes().len();
    if place < width {
        before.literal(place, val.0, true)
    } else {
        let after = system.bools_at(Moment::Next);
        after.literal(place - width, val.0, true)
    }
}
