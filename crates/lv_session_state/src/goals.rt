//! The goals of recoveries, by their names.
#![tactic(auto)]

ghost use Rattle.std.specs.Prelude.{◌≡◌, IfOk, OnErr, map, filter};
ghost use Rattle.std.specs.List.{list_any};
ghost use Rattle.lv_session_state.specs.State.{formula_of, text_of_goal, has_goal_name, lacks_goal_name, is_goal, has_no_goal_room, set_goal, drop_goal};

use crate::state::State;
use lv_base::limits::{GOALS, NAME_BYTES};
use lv_base::{Condition, Seq, has_name};
use lv_reply::{Refusal, Reply};
use lv_session_request::Goal;
use std::alloc::{AllocError, Global};

/// Whether one of the goals has this name.
fn is_among(goals: &[Goal], name: &[u8]) -> bool
    ensures { result ≡ list_any (has_goal_name name.now) goals.now }
{
    goals.iter().any(|g| has_name(&g.name, name))
}

/// Takes out what has this name; the others stay.
fn take_out(goals: &mut Vec<Goal>, name: &[u8])
    ensures { goals.new.items ≡ filter (lacks_goal_name name.now) goals.old.items }
{
    goals.retain(|g| !has_name(&g.name, name));
}

/// The formulas of the goals, without the names.
pub(crate) fn formulas_of(alloc: Global, goals: &[Goal]) -> Result<Vec<Condition>, AllocError>
    ensures { IfOk result (λ out. out.items ≡ map formula_of goals.now) }
{
    let mut out = Vec::new(alloc);
    for goal in goals {
        out.push(goal.formula.copied(alloc)?)?;
    }
    Ok(out)
}

/// The texts of the goals.
pub fn texts_of(alloc: Global, goals: &[Goal]) -> Result<Vec<Seq<u8>>, AllocError>
    ensures { IfOk result (λ out. out.items ≡ map text_of_goal goals.now) }
{
    let mut out = Vec::new(alloc);
    for goal in goals {
        out.push(Seq::from_slice(alloc, goal.text.as_slice())?)?;
    }
    Ok(out)
}

impl State {
    /// Whether a goal of this name is held.
    fn is_goal(&self, name: &[u8]) -> bool
        ensures { result ≡ is_goal self.now name.now }
    {
        is_among(self.goals.as_slice(), name)
    }

    /// Whether no further goal can be held, or none under such a name.
    fn has_no_goal_room(&self, name: &[u8]) -> bool
        ensures { result ≡ has_no_goal_room self.now name.now }
    {
        GOALS as usize <= self.goals.len() || NAME_BYTES < name.len()
    }

    /// Holds one more goal.
    pub fn set_goal(&mut self, goal: Goal) -> Result<Reply, AllocError>
        ensures ok { IfOk result (λ reply. record { state = self.new; reply = reply } ≡ set_goal self.old goal) }
        ensures err { OnErr result (self.new ≡ self.old) }
    {
        if self.is_goal(goal.name.as_slice()) {
            return Ok(Reply::Refused(Refusal::NameHeld));
        }
        if self.has_no_goal_room(goal.name.as_slice()) {
            return Ok(Reply::Refused(Refusal::TooManyHeld));
        }
        self.goals.push(goal)?;
        Ok(self.cleared())
    }

    /// Takes out the goal of this name.
    pub fn drop_goal(&mut self, name: &[u8]) -> Reply
        ensures { record { state = self.new; reply = result } ≡ drop_goal self.old name.now }
    {
        if !self.is_goal(name) {
            return Reply::Refused(Refusal::NameNotHeld);
        }
        take_out(&mut self.goals, name);
        self.cleared()
    }
}
