//! Copies of guards, for a line that gives several of the one that it has.
#![tactic(auto)]

ghost use Rattle.std.specs.Prelude.{◌≡◌, IfOk};

use lv_base::Condition;
use std::alloc::{AllocError, Global};

/// A copy of a condition, if there is one.
pub fn guard_copied(
    alloc: Global,
    guard: &Option<Condition>,
) -> Result<Option<Condition>, AllocError>
    ensures { IfOk result (λ copy. copy ≡ guard.now) }
{
    match guard {
        Some(guard) => Ok(Some(guard.copied(alloc)?)),
        None => Ok(None),
    }
}
