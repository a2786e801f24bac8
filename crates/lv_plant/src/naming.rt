//! The fault that a line names.
#![tactic(auto)]

ghost use Rattle.std.specs.Prelude.{◌≡◌, ◌<◌, All, IfSome, length};
ghost use Rattle.std.specs.List.{position};
ghost use Rattle.lv_model.specs.WellFormed.{TypeIsSmall};
ghost use Rattle.lv_plant.specs.Naming.{is_part, is_fault_at, fault_at, mode_at, named_fault_at, named_fault};

use lv_base::{MoveId, ValId, has_name};
use lv_meaning::moves::moves_of;
use lv_model::{ComponentType, Model, Move, MoveKind, Part};

/// A move that is named of a part, for the next step.
#[derive(Clone, Copy)]
pub struct NamedFault {
    pub part: usize,
    pub mv: MoveId,
}

/// The place of the part of this name.
fn part_named(parts: &[Part], name: &[u8]) -> Option<usize>
    ensures { result ≡ position (is_part name.now) parts.now }
{
    parts.iter().position(|part| has_name(&part.name, name))
}

/// Whether a move is a fault of the mode with this line.
fn is_fault_at(mode: ValId, line: u128, m: &Move) -> bool
    ensures { result ≡ is_fault_at mode.0 line m.now }
{
    let is_fault = match m.kind {
        MoveKind::Step | MoveKind::Stay => false,
        MoveKind::Fault => true,
    };
    is_fault && m.source.0 == mode.0 && u128::from(m.line) == line
}

/// The number of the first of these moves that is such a fault.
fn place_of_fault(moves: &[Move], mode: ValId, line: u128) -> Option<usize>
    ensures place { result ≡ position (is_fault_at mode.0 line) moves.now }
    ensures within { IfSome result (λ n. n < length moves.now) }
{
    moves.iter().position(|m| is_fault_at(mode, line, m))
}

/// The part's fault of the mode with this line.
fn fault_at(types: &[ComponentType], part: &Part, mode: ValId, line: u128) -> Option<MoveId>
    requires { All TypeIsSmall types.now }
    ensures { result ≡ fault_at types.now part.now mode.0 line }
{
    let n = place_of_fault(moves_of(types, part), mode, line)?;
    Some(MoveId(n as u32))
}

/// The mode of the part of this place.
fn mode_at(modes: &[ValId], k: usize) -> ValId
    ensures { result ≡ mode_at modes.now k }
{
    if k < modes.len() { modes[k] } else { ValId(0) }
}

/// The fault of this line from the mode of the part of this place.
fn fault_named_at(model: &Model, modes: &[ValId], line: u128, k: usize) -> Option<NamedFault>
    ensures { result ≡ named_fault_at model.now modes.now line k }
{
    let plant = model.plant();
    let part = plant.parts.as_slice().get(k)?;
    let mv = fault_at(plant.types.as_slice(), part, mode_at(modes, k), line)?;
    Some(NamedFault { part: k, mv })
}

/// The fault of this line from the mode of the part of this name.
pub fn fault_named(
    model: &Model,
    modes: &[ValId],
    name: &[u8],
    tag: Option<u128>,
) -> Option<NamedFault>
    ensures { result ≡ named_fault model.now modes.now name.now tag }
{
    let k = part_named(model.plant().parts.as_slice(), name)?;
    fault_named_at(model, modes, tag?, k)
}
