//! Whether what is asked of a recovery is of the model.
#![tactic(auto)]

ghost use Rattle.std.specs.Prelude.{◌≡◌, true};
ghost use Rattle.std.specs.List.{list_all};
ghost use Rattle.lv_base.specs.Fits.{fits};
ghost use Rattle.lv_model.specs.Ranges.{plant_ranges};
ghost use Rattle.lv_meaning.specs.Ranges.{modes_fit, AimFits};

use lv_base::range::has_value;
use lv_base::{Condition, Range, ValId};
use lv_meaning::Aim;
use lv_model::{Part, Plant, TrackedState};

/// Whether there is one mode for each part, and the part has it.
pub fn have_modes(ranges: &[Range], parts: &[Part], modes: &[ValId]) -> bool
    ensures { result ≡ modes_fit ranges.now parts.now modes.now }
{
    for (i, part) in parts.iter().enumerate() {
        if i >= modes.len() || !has_value(ranges, part.first, modes[i]) {
            return false;
        }
    }
    modes.len() <= parts.len()
}

fn states_fit(ranges: &[Range], parts: &[Part], states: &[TrackedState]) -> bool
    ensures { result ≡ list_all (λ s. modes_fit ranges.now parts.now s.state.modes) states.now }
{
    states
        .iter()
        .all(|s| have_modes(ranges, parts, s.state.modes.as_slice()))
}

fn goals_fit(ranges: &[Range], goals: &[Condition]) -> bool
    ensures { result ≡ list_all (fits ranges.now) goals.now }
{
    goals.iter().all(|g| g.fits(ranges))
}

/// Whether the aim is of the plant, whose variables have these ranges. It has no observations.
pub fn is_of(plant: &Plant, ranges: &[Range], aim: &Aim) -> bool
    requires { ranges.now ≡ plant_ranges plant.now }
    ensures { result ≡ true → AimFits plant.now aim.now }
{
    aim.present.is_empty()
        && states_fit(ranges, plant.parts.as_slice(), aim.tracked.as_slice())
        && goals_fit(ranges, aim.goals.as_slice())
}
