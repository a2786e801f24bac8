//! What guides the searches of a solver and is no part of what they show.
#![tactic(auto)]

ghost use Rattle.std.specs.Prelude.{◌≡◌, ◌≤◌, ◌+◌, true, length, count_by, IsTrue, IfSome, IfNone, is_some, is_none};
ghost use Rattle.std.specs.List.{list_all};
ghost use Rattle.lv_trail.specs.Trail.{is_open};

use super::effort::Effort;
use super::lead::{Lead, Trust, next_lead, no_lead};
use lv_base::Lit;
use lv_clauses::ClauseSet;
use lv_last_values::LastValues;
use lv_sat_guide::{Order, Watches};
use lv_trail::{Analysis, Entry, Reasons, Trail};
use std::alloc::{AllocError, Global};

/// For how many learned clauses there is room at first.
const FIRST_ROOM: usize = 2000;

/// For how many more, each time that half of them were let go of.
const MORE_ROOM: usize = 300;

/// After so many clauses learned a question is hard, and the last values don't lead it any more.
const HARD: usize = 8;

/// Which clauses to look at, how many of those learned, what to choose, what an analysis sees, and what was done.
#[derive(Drop)]
pub struct Guide {
    pub watches: Watches,
    pub room: usize,
    pub order: Order,
    pub analysis: Analysis,
    pub effort: Effort,
    pub trust: Trust,
    /// How far it is trusted that values near the last ones answer a question.
    pub near: Trust,
    /// So many of the first entries are true by the last values.
    pub agreed: usize,
}

impl Guide {
    /// For the clauses of a set.
    pub fn new(alloc: Global, set: &ClauseSet) -> Result<Guide, AllocError> {
        Ok(Guide {
            watches: Watches::new(alloc, set)?,
            room: FIRST_ROOM,
            order: Order::new(alloc, set.bools())?,
            analysis: Analysis::new(alloc),
            effort: Effort::new(),
            trust: Trust::new(),
            near: Trust::new(),
            agreed: 0,
        })
    }

    /// Notes that a question is asked.
    pub fn note_call(&mut self) {
        self.effort = self.effort.with_call();
        self.trust = self.trust.renewed();
        self.near = self.near.renewed();
        self.watches.clear_learned();
        self.room = FIRST_ROOM;
        self.order.begin();
    }

    /// Notes that a question is answered as one before it.
    pub fn note_again(&mut self) {
        self.effort = self.effort.with_call();
    }

    /// Notes a clause learned, and that the entries from a place on are taken back.
    pub fn learn(
        &mut self,
        entries: &[Entry],
        clause: &[Lit],
        step: usize,
        cut: usize,
    ) -> Result<(), AllocError>
        requires { cut ≤ length entries.now }
    {
        self.effort = self.effort.with(&entries[cut..]).with_conflict();
        self.order.score_all(self.analysis.noted());
        self.order.touch_all(clause);
        self.put_back_all(&entries[cut..]);
        if self.watches.learned() > self.room {
            self.room = self.room.saturating_add(MORE_ROOM);
            self.watches.reduce()?;
        }
        self.watches.add_learned(clause, step)
    }

    /// Notes that the entries from a place on are taken back.
    pub fn note_back(&mut self, entries: &[Entry], len: usize)
        requires { len ≤ length entries.now }
    {
        self.effort = self.effort.with(&entries[len..]);
        self.put_back_all(&entries[len..]);
        self.agreed = self.agreed.min(len);
    }

    /// What the last values say of the next choice, while the question isn't hard, and where that is trusted.
    pub fn easy_lead(
        &mut self,
        reasons: Reasons,
        trail: &Trail,
        last: &LastValues,
        place: usize,
    ) -> Lead {
        if reasons.log.len() >= HARD || !self.trust.is_given() {
            return no_lead(place);
        }
        self.trust = self.trust.led();
        next_lead(reasons.set, trail, last, place)
    }

    /// A literal of a boolean that is in range and unmarked, this one if it is; None where there is none.
    pub fn choose(
        &mut self,
        trail: &Trail,
        lead: Option<Lit>,
        last: &LastValues,
        bools: u32,
    ) -> Option<Lit>
        requires len { length trail.now.marks.items ≡ bools }
        requires room { length trail.now.entries.items + count_by is_none trail.now.marks.items ≡ length trail.now.marks.items }
        ensures free { IfSome result (λ lit. IsTrue (is_open trail.now.marks.items lit)) }
        ensures full { IfNone result (list_all is_some trail.now.marks.items ≡ true) }
    {
        if trail.is_full() {
            return None;
        }
        if let Some(lit) = lead
            && trail.is_open(lit)
        {
            return Some(lit);
        }
        if let Some(lit) = self.order.next(trail.marks(), last.as_slice())
            && trail.is_open(lit)
        {
            return Some(lit);
        }
        trail.free_lit(bools)
    }

    fn put_back_all(&mut self, entries: &[Entry]) {
        for entry in entries {
            self.order.put_back(entry.lit);
        }
    }
}
