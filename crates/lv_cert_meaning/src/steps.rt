//! Whether values before and after are a step without faults, from a state and with values of the controls.
#![tactic(auto)]

ghost use Rattle.std.specs.Prelude.{◌≡◌, ◌&&◌, false, nat_eq, Some, length, slice_get};
ghost use Rattle.std.specs.List.{list_all};
ghost use Rattle.std.specs.Option.{option_map_or};
ghost use Rattle.lv_base.specs.Choices.{pairs_of};
ghost use Rattle.lv_base.specs.Tree.{number_of};
ghost use Rattle.lv_model.specs.Lists.{variable_count};
ghost use Rattle.lv_model.specs.Meaning.{part_steps, part_is_nominal, target_of};
ghost use Rattle.lv_meaning.specs.Recovers as Recovers;
ghost use Rattle.lv_cert_meaning.specs.Judging as Judging;

use lv_base::{MoveId, PartId, ValId, VarId};
use lv_meaning::moves::moves_of;
use lv_model::lookup::move_of_part;
use lv_model::meaning::target_mode;
use lv_model::{Model, MoveKind, Part};

/// The number of the variable's value; 0 where there is no such variable.
fn number_at(a: &[ValId], var: VarId) -> u32
    ensures { result ≡ number_of a.now var.0 }
{
    match a.get(var.0 as usize) {
        Some(value) => value.0,
        None => 0,
    }
}

/// Whether each part is in its mode, and there is a mode for each.
pub fn has_modes(parts: &[Part], modes: &[ValId], a: &[ValId]) -> bool
    ensures { result ≡ Recovers.has_modes parts.now modes.now a.now }
{
    if parts.len() != modes.len() {
        return false;
    }
    for (k, part) in parts.iter().enumerate() {
        if number_at(a, part.first) != modes[k].0 {
            return false;
        }
    }
    true
}

/// Whether the control of a place has the value.
fn has_control(controls: &[VarId], a: &[ValId], place: usize, value: u32) -> bool
    ensures { result ≡ Recovers.has_control controls.now a.now (record { slot = place; choice = value }) }
{
    match controls.get(place) {
        Some(control) => number_at(a, *control) == value,
        None => false,
    }
}

/// Whether each of the first controls has its value.
pub fn has_controls(controls: &[VarId], a: &[ValId], values: &[u32]) -> bool
    ensures { result ≡ Recovers.has_controls controls.now a.now (pairs_of values.now) }
{
    for (place, value) in values.iter().enumerate() {
        if !has_control(controls, a, place, *value) {
            return false;
        }
    }
    true
}

/// Whether the part has the move, which is no fault.
fn is_no_fault(model: &Model, part: &Part, mv: MoveId) -> bool
    ensures { result ≡ part_is_nominal model.now.types part.now mv.0 }
{
    match move_of_part(model.plant().types.as_slice(), part, mv) {
        Some(m) => match m.kind {
            MoveKind::Step => true,
            MoveKind::Stay => true,
            MoveKind::Fault => false,
        },
        None => false,
    }
}

/// Whether the part is in the move's target.
fn has_target(model: &Model, part: &Part, mv: MoveId, b: &[ValId]) -> bool
    ensures { result ≡ option_map_or (λ mode. nat_eq (number_of b.now part.now.first.0) mode) (target_of model.now.types part.now mv.0) false }
{
    match target_mode(model.plant().types.as_slice(), part, mv) {
        Some(mode) => number_at(b, part.first) == mode.0,
        None => false,
    }
}

/// Whether the part of this place steps by the move, which is no fault.
fn steps_by(model: &Model, place: u32, part: &Part, mv: MoveId, a: &[ValId], b: &[ValId]) -> bool
    requires now { length a.now ≡ variable_count model.now }
    requires part { slice_get model.now.parts place ≡ Some part.now }
    ensures { result ≡ (part_steps model.now.types a.now b.now part.now mv.0 && part_is_nominal model.now.types part.now mv.0) }
{
    model.takes(PartId(place), mv, a)
        && has_target(model, part, mv, b)
        && is_no_fault(model, part, mv)
}

/// Whether the part of this place steps by some move that is no fault.
fn steps_nominally(model: &Model, place: u32, part: &Part, a: &[ValId], b: &[ValId]) -> bool
    requires now { length a.now ≡ variable_count model.now }
    requires part { slice_get model.now.parts place ≡ Some part.now }
    ensures { result ≡ Judging.steps_nominally model.now.types a.now b.now part.now }
{
    let moves = moves_of(model.plant().types.as_slice(), part);
    let count = moves.len() as u32;
    (0..count).any(|n| steps_by(model, place, part, MoveId(n), a, b))
}

/// Whether each part does.
fn each_steps_nominally(model: &Model, a: &[ValId], b: &[ValId]) -> bool
    requires now { length a.now ≡ variable_count model.now }
    ensures { result ≡ list_all (Judging.steps_nominally model.now.types a.now b.now) model.now.parts }
{
    let parts = model.plant().parts.as_slice();
    for (place, part) in parts.iter().enumerate() {
        if !steps_nominally(model, place as u32, part, a, b) {
            return false;
        }
    }
    true
}

/// Whether the values before and after are a step without faults.
pub fn is_nominal_pair(model: &Model, a: &[ValId], b: &[ValId]) -> bool
    requires now { length a.now ≡ variable_count model.now }
    requires next { length b.now ≡ variable_count model.now }
    ensures { result ≡ Judging.is_nominal_pair model.now a.now b.now }
{
    model.is_feasible(a) && model.is_feasible(b) && each_steps_nominally(model, a, b)
}
