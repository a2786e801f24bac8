//! The moves that a part's candidates choose among.
#![tactic(auto)]

ghost use Rattle.std.specs.Prelude.{◌≡◌, ◌≤◌, All, length};
ghost use Rattle.lv_model.specs.WellFormed.{TypeIsSmall, MoveIsCheap};
ghost use Rattle.lv_base.specs.declared.limits.TheConstants.{MOVES};
ghost use Rattle.lv_meaning.specs.Candidates.{type_moves};

use lv_model::lookup::type_of;
use lv_model::{ComponentType, Move, Part};

/// The moves of the part's type; none where there is no such type.
pub fn moves_of<'a>(types: &'a [ComponentType], part: &Part) -> &'a [Move]
    requires { All TypeIsSmall types.now }
    ensures moves { result.now ≡ type_moves types.now part.now }
    ensures few { length result.now ≤ MOVES }
    ensures cheap { All MoveIsCheap result.now }
{
    match type_of(types, part) {
        Some(t) => t.moves.as_slice(),
        None => &[],
    }
}
