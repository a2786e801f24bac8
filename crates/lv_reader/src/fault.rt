//! What ends the reading of a line, and of a text.
#![tactic(auto)]

ghost use Rattle.std.specs.Prelude.{◌≡◌};

use crate::code::ModelCode;
use std::alloc::{AllocError, AllocFailed};
use thiserror::Error;

/// Why a text gives no model.
#[derive(Clone, Copy, Debug, PartialEq, Eq, Error)]
pub enum ModelFault {
    /// The text is refused for this, on this line. Lines are counted from 1; a text over its limit is refused on line 0,
    /// and what its end lacks on the line behind the last.
    #[error("model {line}: {code:?}")]
    At { code: ModelCode, line: usize },
    /// Memory ran out. No clause says when.
    #[error("out of memory")]
    Memory,
}

impl From<AllocError> for ModelFault {
    ghost use Rattle.lv_reader.specs.declared.fault.ModelFault.TheVariants.{Memory};

    ghost from_gives = { λ _ fault. fault ≡ Memory };

    fn from(_failed: AllocError) -> ModelFault {
        ModelFault::Memory
    }
}

impl<T: Drop> From<AllocFailed<T>> for ModelFault {
    ghost use Rattle.lv_reader.specs.declared.fault.ModelFault.TheVariants.{Memory};

    ghost from_gives = { λ _ fault. fault ≡ Memory };

    fn from(_failed: AllocFailed<T>) -> ModelFault {
        ModelFault::Memory
    }
}

/// Why a line gives no statement.
#[derive(Clone, Copy, Debug, PartialEq, Eq)]
pub enum LineFault {
    Refused(ModelCode),
    /// Memory ran out. No clause says when.
    Memory,
}

/// Why tokens don't have a form.
#[derive(Clone, Copy, Debug, PartialEq, Eq)]
pub enum FormFault {
    Form,
    /// Memory ran out. No clause says when.
    Memory,
}

impl From<AllocError> for FormFault {
    ghost use Rattle.lv_reader.specs.declared.fault.FormFault.TheVariants.{Memory};

    ghost from_gives = { λ _ fault. fault ≡ Memory };

    fn from(_failed: AllocError) -> FormFault {
        FormFault::Memory
    }
}

impl<T: Drop> From<AllocFailed<T>> for FormFault {
    ghost use Rattle.lv_reader.specs.declared.fault.FormFault.TheVariants.{Memory};

    ghost from_gives = { λ _ fault. fault ≡ Memory };

    fn from(_failed: AllocFailed<T>) -> FormFault {
        FormFault::Memory
    }
}
