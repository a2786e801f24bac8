//! What was observed: the observations held by their names, the present ones and those of the assignment after the step.
#![tactic(auto)]

ghost use Rattle.std.specs.Prelude.{◌≡◌, IfOk, OnErr};
ghost use Rattle.lv_session_state.specs.State.{is_held, has_no_room, observe, retract};

use crate::state::State;
use lv_base::limits::{NAME_BYTES, OBSERVATIONS};
use lv_reply::{Refusal, Reply};
use lv_session_request::Sighting;
use std::alloc::AllocError;

impl State {
    /// Whether an observation of this name is held.
    fn is_held(&self, name: &[u8]) -> bool
        ensures { result ≡ is_held self.now name.now }
    {
        self.present.has(name) || self.next.has(name)
    }

    /// Whether no further observation can be held, or none under such a name.
    fn has_no_room(&self, name: &[u8]) -> bool
        ensures { result ≡ has_no_room self.now name.now }
    {
        let held = self.present.len() as u64 + self.next.len() as u64;
        u64::from(OBSERVATIONS) <= held || NAME_BYTES < name.len()
    }

    /// Holds one more observation, of the assignment after the step.
    pub fn observe(&mut self, sighting: Sighting) -> Result<Reply, AllocError>
        ensures ok { IfOk result (λ reply. record { state = self.new; reply = reply } ≡ observe self.old sighting) }
        ensures err { OnErr result (self.new ≡ self.old) }
    {
        if self.is_held(sighting.name.as_slice()) {
            return Ok(Reply::Refused(Refusal::NameHeld));
        }
        if self.has_no_room(sighting.name.as_slice()) {
            return Ok(Reply::Refused(Refusal::TooManyHeld));
        }
        self.next.push(sighting)?;
        Ok(self.cleared())
    }

    /// Takes out the observation of this name.
    pub fn retract(&mut self, name: &[u8]) -> Reply
        ensures { record { state = self.new; reply = result } ≡ retract self.old name.now }
    {
        if !self.is_held(name) {
            return Reply::Refused(Refusal::NameNotHeld);
        }
        self.present.take_out(name);
        self.next.take_out(name);
        self.cleared()
    }
}
