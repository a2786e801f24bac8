//! Why a session was not served to its end.

use lv_io::IoFault;
use std::alloc::AllocError;
use thiserror::Error;

/// Why a session was not served to its end.
#[derive(Clone, Copy, Debug, PartialEq, Eq, Error)]
pub enum ServeFault {
    /// The session could not be read. The shelf's count of faults rose.
    #[error("the session could not be read")]
    Read,
    /// The replies could not be written. The sink's count of faults rose.
    #[error("the replies could not be written")]
    Write,
    /// The session is longer than its limit, and no `quit` ends it before.
    #[error("the session is too long")]
    TooLong,
    /// Memory was wanting.
    #[error("out of memory")]
    Memory,
}

/// What want of memory ends a serving with.
impl From<AllocError> for ServeFault {
    ghost use Rattle.std.specs.Prelude.{◌≡◌};
    ghost use Rattle.lv_serve.specs.declared.fault.ServeFault.TheVariants.{Memory};

    ghost from_gives = { λ _ fault. fault ≡ Memory };

    fn from(_error: AllocError) -> ServeFault {
        ServeFault::Memory
    }
}

/// What a fault of writing ends a serving with.
impl From<IoFault> for ServeFault {
    ghost use Rattle.std.specs.Prelude.{◌≡◌};
    ghost use Rattle.lv_serve.specs.Faults.{fault_of_sink};

    ghost from_gives = { λ fault ended. ended ≡ fault_of_sink fault };

    fn from(fault: IoFault) -> ServeFault {
        match fault {
            IoFault::Failed => ServeFault::Write,
            IoFault::Memory => ServeFault::Memory,
        }
    }
}
