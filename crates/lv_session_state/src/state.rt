//! The state of a session, and what a request does to it.
#![tactic(auto)]

ghost use Rattle.std.specs.Prelude.{◌≡◌, ◌+◌, ◌<◌, ◌++◌, [], ◌∷◌, IfOk, OnOk, OnErr};
ghost use Rattle.lv_base.specs.declared.limits.TheConstants.{COMMITS};
ghost use Rattle.lv_session_state.specs.State.{start, resting, past_of, cleared, track, set_budget, set_control, release, commanded, reset, quit};
ghost use Rattle.lv_reply.specs.declared.reply.Reply.TheVariants.{States};
ghost use Rattle.lv_session_history.specs.History.{with_room};
ghost use Rattle.lv_session_state.specs.declared.query.Query.TheVariants.{Absent};

use crate::query::Query;
use lv_base::limits::{LISTED, TRIALS};
use lv_base::{Seq, ValId};
use lv_model::Model;
use lv_reply::Reply;
use lv_session_history::{History, Past};
use lv_session_request::{Command, Goal, Held};
use lv_tracker::{Tracked, copies_of};
use std::alloc::{AllocError, Global};
use std::{marker, mem};

/// The state of a session. What its fields are is said where clauses see them, at `SessionState`.
#[derive(Drop)]
pub struct State {
    pub(crate) tracked: Tracked,
    pub(crate) time: u64,
    pub(crate) k: u32,
    pub(crate) distinct: bool,
    pub(crate) budget: u64,
    pub(crate) controls: Vec<ValId>,
    pub(crate) present: Held,
    pub(crate) next: Held,
    pub(crate) history: History,
    pub(crate) goals: Vec<Goal>,
    pub(crate) query: Query,
    pub(crate) is_ended: bool,
}

impl marker::Model for State {
    ghost use Rattle.lv_session_state.specs.State.{SessionState};
    ghost use Rattle.std.specs.Coded.{codes};
    ghost use Rattle.lv_base.specs.contracts.formula.Condition as condition;

    ghost Value = { SessionState };

    ghost coded = { Prim.hlevel (codes, condition.the_row.coded) };

    ghost view = { λ s. record { tracked = s.tracked; time = s.time; k = s.k; distinct = s.distinct; budget = s.budget; controls = s.controls.items; present = s.present; next = s.next; history = s.history; goals = s.goals.items; query = s.query; is_ended = s.is_ended } };
}

/// The value at which a control rests, for each control.
pub(crate) fn resting_values(alloc: Global, model: &Model) -> Result<Vec<ValId>, AllocError>
    ensures { IfOk result (λ values. values.items ≡ resting model.now) }
{
    let controls = model.controls(alloc)?;
    controls.as_slice().iter().map(|_| ValId(0)).collect(alloc)
}

impl State {
    /// The state at the start, and after a `reset`.
    pub fn start(alloc: Global, model: &Model) -> Result<State, AllocError>
        ensures { IfOk result (λ state. state ≡ start model.now) }
    {
        let controls = resting_values(alloc, model)?;
        let history = History::new(alloc)?;
        let tracked = Tracked::start(alloc, model)?;
        Ok(State {
            tracked,
            time: 0,
            k: LISTED,
            distinct: false,
            budget: TRIALS,
            controls,
            present: Held::new(alloc),
            next: Held::new(alloc),
            history,
            goals: Vec::new(alloc),
            query: Query::Absent,
            is_ended: false,
        })
    }

    /// The state at the start, in a box.
    pub fn boxed(alloc: Global, model: &Model) -> Result<Box<State>, AllocError>
        ensures { IfOk result (λ state. state.value ≡ start model.now) }
    {
        let state = State::start(alloc, model)?;
        Ok(Box::new(alloc, state)?)
    }

    /// Whether the session has ended.
    pub fn is_ended(&self) -> bool
        ensures { result ≡ self.now.is_ended }
    {
        self.is_ended
    }

    /// The tracked states.
    pub fn tracked(&self) -> &Tracked
        ensures { result.now ≡ self.now.tracked }
    {
        &self.tracked
    }

    /// How many candidates a diagnosis lists.
    pub fn k(&self) -> u32
        ensures { result ≡ self.now.k }
    {
        self.k
    }

    /// Whether no two candidates listed may lead to one state.
    pub fn is_distinct(&self) -> bool
        ensures { result ≡ self.now.distinct }
    {
        self.distinct
    }

    /// The trials of a new query.
    pub fn budget(&self) -> u64
        ensures { result ≡ self.now.budget }
    {
        self.budget
    }

    /// The values that the controls are commanded to, in written order.
    pub fn controls(&self) -> &[ValId]
        ensures { result.now ≡ self.now.controls }
    {
        self.controls.as_slice()
    }

    /// What is observed now, by its names.
    pub fn present(&self) -> &Held
        ensures { result.now ≡ self.now.present }
    {
        &self.present
    }

    /// The goals.
    pub fn goals(&self) -> &[Goal]
        ensures { result.now ≡ self.now.goals }
    {
        self.goals.as_slice()
    }

    /// The current query.
    pub fn query(&self) -> Query
        ensures { result ≡ self.now.query }
    {
        self.query
    }

    /// The reply to what was carried out, where no query is current any more.
    pub(crate) fn cleared(&mut self) -> Reply
        ensures { record { state = self.new; reply = result } ≡ cleared self.old }
    {
        self.query = Query::Absent;
        Reply::Accepted
    }

    /// How many candidates a diagnosis lists from now on, and whether no two of them may lead to one state.
    pub fn track(&mut self, n: u32, distinct: bool) -> Reply
        ensures { record { state = self.new; reply = result } ≡ track self.old n distinct }
    {
        self.k = n;
        self.distinct = distinct;
        self.cleared()
    }

    /// The trials of each new query from now on.
    pub fn set_budget(&mut self, n: u64) -> Reply
        ensures { record { state = self.new; reply = result } ≡ set_budget self.old n }
    {
        self.budget = n;
        Reply::Accepted
    }

    /// Commands a control, if there is one at this place.
    fn command(&mut self, place: usize, value: ValId) -> Reply
        ensures { record { state = self.new; reply = result } ≡ commanded self.old place value }
    {
        if place < self.controls.len() {
            self.controls[place] = value;
        }
        self.cleared()
    }

    /// Commands a control to a value.
    pub fn set_control(&mut self, command: Command) -> Reply
        ensures { record { state = self.new; reply = result } ≡ set_control self.old command }
    {
        self.command(command.place, command.value)
    }

    /// Lets the control of this place rest.
    pub fn release(&mut self, place: usize) -> Reply
        ensures { record { state = self.new; reply = result } ≡ release self.old place }
    {
        self.command(place, ValId(0))
    }

    /// Goes back to the start.
    pub fn reset(&mut self, alloc: Global, model: &Model) -> Result<Reply, AllocError>
        ensures ok { IfOk result (λ reply. record { state = self.new; reply = reply } ≡ reset model.now) }
        ensures err { OnErr result (self.new ≡ self.old) }
    {
        *self = State::start(alloc, model)?;
        Ok(Reply::Accepted)
    }

    /// Ends the session.
    pub fn quit(&mut self) -> Reply
        ensures { record { state = self.new; reply = result } ≡ quit self.old }
    {
        self.is_ended = true;
        Reply::Accepted
    }

    /// Takes these over: they are tracked and commanded from now on, the next observations become present, and what was is
    /// kept. Takes no memory.
    pub(crate) fn advance_to(&mut self, alloc: Global, tracked: Tracked, controls: Vec<ValId>)
        requires { self.old.time < COMMITS }
        ensures { self.new ≡ record self.old { tracked = tracked; time = self.old.time + 1; controls = controls.items; present = self.old.next; next = []; history = with_room self.old.history ++ past_of self.old ∷ []; query = Absent } }
    {
        let next = mem::replace(&mut self.next, Held::new(alloc));
        self.history.remember(Past {
            tracked: mem::replace(&mut self.tracked, tracked),
            controls: Seq::from_vec(mem::replace(&mut self.controls, controls)),
            observed: mem::replace(&mut self.present, next),
        });
        self.time += 1;
        self.query = Query::Absent;
    }

    /// The time, and a copy of the tracked states.
    pub fn states(&self, alloc: Global) -> Result<Reply, AllocError>
        ensures { IfOk result (λ reply. reply ≡ States self.now.time self.now.tracked) }
    {
        let tracked = copies_of(alloc, self.tracked.as_slice())?;
        Ok(Reply::States(self.time, Seq::from_vec(tracked)))
    }
}
