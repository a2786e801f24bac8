//! What a session keeps of its last commits.
//!
//! | call | answer |
//! |---|---|
//! | `History::new` | nothing is kept, and there is room for all that ever is |
//! | `remember` | keeps one commit more; the oldest goes where there are as many as are kept |
//! | `has`, `take_out` | whether an observation of a name is kept of a commit, and taking it out |
//! | `len` | how many commits are kept |
//! | `has_steps`, `commits_in` | whether so many steps are kept, and the commits among them |
#![tactic(auto)]

ghost use Rattle.std.specs.Prelude.{◌≡◌, ◌≤◌, ◌++◌, [], ◌∷◌, length, IfOk};
ghost use Rattle.lv_session_history.specs.declared.history.TheConstants.{HISTORY};
ghost use Rattle.lv_session_history.specs.History.{with_room, is_held_in, without_in, has_steps, commits_in};

use lv_base::{Seq, ValId};
use lv_session_request::Held;
use lv_tracker::Tracked;
use std::alloc::{AllocError, Global};
use std::marker::Model;

/// How many commits are kept at most.
pub const HISTORY: usize = 3;

/// What a state was before a commit: what was tracked, the value that each control had in the step, and what is observed
/// of its time.
#[derive(Drop)]
pub struct Past {
    pub tracked: Tracked,
    pub controls: Seq<ValId>,
    pub observed: Held,
}

/// The last commits, the oldest first. Keeping one more takes no memory.
#[derive(Drop)]
pub struct History {
    past: Vec<Past>,
}

impl Model for History {
    ghost use Rattle.std.specs.Prelude.{List};
    ghost use Rattle.std.specs.Vec.{vec_len, vec_capacity};
    ghost use Rattle.lv_session_history.specs.declared.history.Past.{Past};
    ghost use Rattle.lv_session_history.specs.Rooms.{IsRoomy};

    ghost Value = { List Past };

    ghost view = { λ h. h.past.items };

    ghost invariant = { λ h. IsRoomy (vec_len h.past) (vec_capacity h.past) };
}

impl History {
    /// Nothing is kept.
    pub fn new(alloc: Global) -> Result<History, AllocError>
        ensures { IfOk result (λ history. history ≡ []) }
    {
        Ok(History {
            past: Vec::with_capacity(alloc, HISTORY)?,
        })
    }

    /// Keeps one commit more. Takes no memory.
    pub fn remember(&mut self, past: Past)
        ensures { self.new ≡ with_room self.old ++ past ∷ [] }
    {
        if HISTORY <= self.past.len() {
            self.past.remove(0);
        }
        self.past.push_reserved(past);
    }

    /// How many commits are kept.
    pub fn len(&self) -> usize
        ensures len { result ≡ length self.now }
        ensures few { result ≤ HISTORY }
    {
        self.past.len()
    }

    /// Whether so many steps are kept, with the one that isn't committed.
    pub fn has_steps(&self, steps: u32) -> bool
        ensures { result ≡ has_steps self.now steps }
    {
        steps as usize <= self.past.len() + 1
    }

    /// The commits among the last so many steps, the oldest first.
    pub fn commits_in(&self, steps: u32) -> &[Past]
        ensures { result.now ≡ commits_in self.now steps }
    {
        let older = (self.past.len() + 1).saturating_sub(steps as usize);
        let first = older.min(self.past.len());
        &self.past.as_slice()[first..]
    }

    /// Whether what is kept at this place has an observation of this name.
    pub fn has(&self, place: usize, name: &[u8]) -> bool
        ensures { result ≡ is_held_in self.now place name.now }
    {
        match self.past.get(place) {
            Some(past) => past.observed.has(name),
            None => false,
        }
    }

    /// Takes the observation of this name out of what is kept at this place. Takes no memory.
    pub fn take_out(&mut self, place: usize, name: &[u8])
        ensures { self.new ≡ without_in self.old place name.now }
    {
        if let Some(past) = self.past.get_mut(place) {
            past.observed.take_out(name);
        }
    }
}
