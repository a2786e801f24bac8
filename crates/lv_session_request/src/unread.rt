//! Why a line asks for nothing.
#![tactic(auto)]

ghost use Rattle.std.specs.Prelude.{◌≡◌};

use lv_reply::Refusal;
use std::alloc::AllocError;

/// Why a line asks for nothing.
#[derive(Clone, Copy, Debug, PartialEq, Eq)]
pub enum Unread {
    Refused(Refusal),
    /// Memory ran out. No clause says when.
    Memory,
}

impl From<Refusal> for Unread {
    ghost use Rattle.lv_session_request.specs.declared.unread.Unread.TheVariants.{Refused};

    ghost from_gives = { λ refusal fault. fault ≡ Refused refusal };

    fn from(refusal: Refusal) -> Unread {
        Unread::Refused(refusal)
    }
}

impl From<AllocError> for Unread {
    ghost use Rattle.lv_session_request.specs.declared.unread.Unread.TheVariants.{Memory};

    ghost from_gives = { λ _ fault. fault ≡ Memory };

    fn from(_failed: AllocError) -> Unread {
        Unread::Memory
    }
}
