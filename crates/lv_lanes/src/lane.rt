//! What a lane wants of its responder.
#![tactic(auto)]

ghost use Rattle.std.specs.Prelude.{◌≡◌, Bool, IfOk};

use lv_serve::Responder;
use std::alloc::AllocError;

/// A responder of which there can be many of one kind, each on its own, and whose queries can be gone on with.
pub trait Lane: Responder + Drop {
    ghost start: { Self → Self };

    ghost is_open: { Self → Bool };

    /// Another of the same kind, at its start.
    fn fresh(&self) -> Result<Self, AllocError>
        ensures { IfOk result (λ lane. lane ≡ start self.now) };

    /// Whether its query is unsettled, so that `more` goes on with it. Takes no memory.
    fn is_unsettled(&self) -> bool
        ensures { result ≡ is_open self.now };
}
