//! A value in a box of its own, which contracts see as the value.
#![tactic(auto)]

ghost use Rattle.std.specs.Prelude.{◌≡◌, IfOk};

use std::alloc::{AllocError, Global};
use std::marker::Model;

/// A value that lies apart, so that what holds it is small to hand on.
#[derive(Debug, Drop)]
pub struct Apart<T> {
    kept: Box<T>,
}

impl<T> Model for Apart<T> {
    ghost Value = { T };

    ghost view = { λ s. s.kept.value };
}

impl<T: Drop> Apart<T> {
    /// A value put apart.
    pub fn new(alloc: Global, value: T) -> Result<Apart<T>, AllocError>
        ensures { IfOk result (λ apart. apart ≡ value) }
    {
        let kept = Box::new(alloc, value)?;
        Ok(Apart { kept })
    }

    /// The value, taken back.
    pub fn into_value(self) -> T
        ensures { result ≡ self }
    {
        Box::into_inner(self.kept)
    }
}
