//! Why tokens give no formula.
#![tactic(auto)]

use std::alloc::AllocError;
use thiserror::Error;

/// Why tokens give no formula.
#[derive(Clone, Copy, Debug, PartialEq, Eq, Error)]
pub enum PhraseFault {
    /// Parentheses or the operators `!`, `=>`, `<=>` nest deeper than is allowed, whatever else the line holds.
    #[error("the formula is nested too deep")]
    TooDeep,
    /// The tokens are no formula.
    #[error("this is no formula")]
    Form,
    /// Memory ran out. No clause says when.
    #[error("out of memory")]
    Memory,
}

impl From<AllocError> for PhraseFault {
    ghost use Rattle.std.specs.Prelude.{◌≡◌};
    ghost use Rattle.lv_formula_text.specs.declared.fault.PhraseFault.TheVariants.{Memory};

    ghost from_gives = { λ _ fault. fault ≡ Memory };

    fn from(_failed: AllocError) -> PhraseFault {
        PhraseFault::Memory
    }
}
