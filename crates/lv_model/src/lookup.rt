//! Items of a plant's lists by their numbers.
#![tactic(auto)]

ghost use Rattle.std.specs.Prelude.{◌≡◌, ◌<◌, OnSome, length, slice_get};
ghost use Rattle.std.specs.Option.{option_copied};
ghost use Rattle.lv_model.specs.Moves.{move_at};

use crate::plant::{ComponentType, Move, Part};
use lv_base::{MoveId, PartId};

/// The type of a part, if there is one.
pub fn type_of<'a>(types: &'a [ComponentType], part: &Part) -> Option<&'a ComponentType>
    ensures { option_copied result ≡ slice_get types.now part.now.kind }
{
    types.get(part.kind as usize)
}

/// The move of this number, if there is one.
pub fn move_of(moves: &[Move], mv: MoveId) -> Option<&Move>
    ensures found { option_copied result ≡ slice_get moves.now mv.0 }
    ensures within { OnSome result (mv.0 < length moves.now) }
{
    moves.get(mv.0 as usize)
}

/// The move of this number of the part's type, if there is one.
pub fn move_of_part<'a>(types: &'a [ComponentType], part: &Part, mv: MoveId) -> Option<&'a Move>
    ensures { option_copied result ≡ move_at types.now part.now mv.0 }
{
    match type_of(types, part) {
        Some(t) => move_of(t.moves.as_slice(), mv),
        None => None,
    }
}

/// The part of this number, if there is one.
pub fn part_of(parts: &[Part], part: PartId) -> Option<&Part>
    ensures { option_copied result ≡ slice_get parts.now part.0 }
{
    parts.get(part.0 as usize)
}
