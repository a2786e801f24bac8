//! The times that a session keeps, and what is observed of each.
#![tactic(auto)]

ghost use Rattle.std.specs.Prelude.{◌≡◌, ◌≤◌};
ghost use Rattle.lv_base.specs.declared.limits.TheConstants.{COMMITS};
ghost use Rattle.lv_session_state.specs.Times.{first_time, is_kept, is_held_of, without_of, retract_at};

use crate::state::State;
use lv_reply::{Refusal, Reply};
use lv_session_request::Retraction;

impl State {
    /// The time of the oldest commit that is kept.
    fn first_time(&self) -> u64
        ensures { result ≡ first_time self.now }
    {
        self.time.saturating_sub(self.history.len() as u64)
    }

    /// Whether a time is kept.
    fn is_kept(&self, time: u128) -> bool
        ensures { result ≡ is_kept self.now time }
    {
        u128::from(self.first_time()) <= time && time <= u128::from(self.time) + 1
    }

    /// Whether an observation of this name is held of a time.
    fn is_held_of(&self, time: u64, name: &[u8]) -> bool
        requires { self.now.time ≤ COMMITS }
        ensures { result ≡ is_held_of self.now time name.now }
    {
        if time == self.time + 1 {
            self.next.has(name)
        } else if time == self.time {
            self.present.has(name)
        } else {
            let place = time.saturating_sub(self.first_time()) as usize;
            self.history.has(place, name)
        }
    }

    /// Takes the observation of this name out of what is held of a time.
    fn take_out_of(&mut self, time: u64, name: &[u8])
        requires { self.old.time ≤ COMMITS }
        ensures { self.new ≡ without_of self.old time name.now }
    {
        if time == self.time + 1 {
            self.next.take_out(name);
        } else if time == self.time {
            self.present.take_out(name);
        } else {
            let place = time.saturating_sub(self.first_time()) as usize;
            self.history.take_out(place, name);
        }
    }

    /// Takes out the observation of this name that is held of this time.
    pub fn retract_at(&mut self, retraction: &Retraction) -> Reply
        requires { self.old.time ≤ COMMITS }
        ensures { record { state = self.new; reply = result } ≡ retract_at self.old retraction.now }
    {
        if !self.is_kept(retraction.time) {
            return Reply::Refused(Refusal::OutOfLimits);
        }
        let time = retraction.time as u64;
        let name = retraction.name.as_slice();
        if !self.is_held_of(time, name) {
            return Reply::Refused(Refusal::NameNotHeld);
        }
        self.take_out_of(time, name);
        self.cleared()
    }
}
