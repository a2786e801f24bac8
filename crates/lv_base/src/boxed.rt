//! Small steps on values in boxes, each in a frame of its own: a recursion that does them through these keeps the
//! values themselves out of its frames.
#![tactic(auto)]

ghost use Rattle.std.specs.Prelude.{◌≡◌, ◌++◌, ◌∷◌, [], IfOk, OnOk};

use std::alloc::{AllocError, Global};

/// The value in a box.
#[inline(never)]
pub fn boxed<T: Drop>(alloc: Global, value: T) -> Result<Box<T>, AllocError>
    ensures { IfOk result (λ whole. whole.value ≡ value) }
{
    Ok(Box::new(alloc, value)?)
}

/// Puts what is in a box behind the items of a list.
#[inline(never)]
pub fn push_unboxed<T: Drop>(items: &mut Vec<T>, last: Box<T>) -> Result<(), AllocError>
    ensures { OnOk result (items.new.items ≡ items.old.items ++ last.value ∷ []) }
{
    Ok(items.push(Box::into_inner(last))?)
}
