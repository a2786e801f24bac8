//! The search: a loop over the trail, which begins with the assumptions and what they force. Choices are added, and what
//! clauses force, until each boolean is marked or a clause is false. A false clause teaches a clause that turns the last
//! choice that it rests on; where it rests on assumptions alone, there are no values.
#![tactic(auto)]

ghost use Rattle.std.specs.Prelude.{◌≡◌, ◌<◌, ◌≤◌, [], true, List, length, take, None, IfOk, OnOk, IfSome, is_some, ℕ};
ghost use Rattle.std.specs.List.{list_all};
ghost use Rattle.lv_clauses.specs.ClauseMap.{ClauseMap, satisfies};
ghost use Rattle.lv_clauses.specs.declared.log.Step.{Step};
ghost use Rattle.lv_clauses.specs.Following.{first_bad_step};
ghost use Rattle.lv_last_values.specs.Occurrences.{IsUpToDate};
ghost use Rattle.lv_last_values.specs.Values.{KeepMarks};
ghost use Rattle.lv_trail.specs.Trail.{IsTrail};
ghost use Rattle.lv_sat.specs.Front.{Finds};
ghost use Rattle.lv_sat.specs.Measure.{trails_left};
ghost use Rattle.lv_sat.specs.Search.{IsSearch, IsReached, IsGrown, Reaches};

use super::effort::Effort;
use super::guide::Guide;
use super::propagation::propagate;
use lv_base::Seq;
use lv_clauses::{ClauseSet, Hint, Log};
use lv_last_values::LastValues;
use lv_sat_guide::Pace;
use lv_trail::{Conflict, Entry, Reasons, Trail};
use std::alloc::{AllocError, Global};

/// The trail of a search, and what guides it.
#[derive(Drop)]
pub struct Search {
    pub alloc: Global,
    pub guide: Guide,
    pub trail: Trail,
}

/// Where the choices led.
#[derive(Drop)]
pub enum Reached {
    /// Values that satisfy the clauses.
    Values(Seq<bool>),
    /// A clause that is false.
    False(Hint),
}

impl Search {
    /// Whether the trail can be completed to values that satisfy the clauses. It is left as it was.
    pub fn complete(
        &mut self,
        set: &ClauseSet,
        log: &mut Log,
        last: &LastValues,
    ) -> Result<Option<Seq<bool>>, AllocError>
        requires trail { IsTrail set.now log.old self.old.trail.marks.items self.old.trail.entries.items }
        requires log { log.old ≡ [] }
        requires last { IsUpToDate set.now last.now.values last.now.occurrences }
        ensures found { IfOk result (λ found. Finds set.now self.old.trail.entries.items log.new found) }
        ensures entries { OnOk result (self.new.trail.entries.items ≡ self.old.trail.entries.items) }
        ensures trail { OnOk result (IsTrail set.now [] self.new.trail.marks.items self.new.trail.entries.items) }
    {
        let len = self.trail.entries().len();
        let found = self.seek(set, log, last)?;
        self.take_back(len);
        Ok(found)
    }

    /// Takes the entries from a place on back, and notes it.
    pub fn take_back(&mut self, len: usize)
        requires { len ≤ length self.old.trail.entries.items }
        ensures entries { self.new.trail.entries.items ≡ take len self.old.trail.entries.items }
        ensures trail { (set : ClauseMap) (log : List Step) → IsTrail set log self.old.trail.marks.items self.old.trail.entries.items
            → IsTrail set log self.new.trail.marks.items self.new.trail.entries.items }
    {
        self.guide.note_back(self.trail.entries(), len);
        self.trail.cut(len);
    }

    /// Notes which of the first entries are true by the last values, which are new: all, or it isn't known where they were
    /// found without the trail.
    pub fn note_values(&mut self)
        ensures { self.new.trail ≡ self.old.trail }
    {
        self.guide.agreed = if self.guide.near.is_met() {
            0
        } else {
            self.trail.entries().len()
        };
    }

    /// What was done so far.
    pub fn effort(&self) -> Effort {
        self.guide.effort.with(self.trail.entries())
    }

    /// Whether the trail can be completed to values that satisfy the clauses. Choices are added behind it, and each clause
    /// that becomes false turns one.
    fn seek(
        &mut self,
        set: &ClauseSet,
        log: &mut Log,
        last: &LastValues,
    ) -> Result<Option<Seq<bool>>, AllocError>
        requires trail { IsTrail set.now log.old self.old.trail.marks.items self.old.trail.entries.items }
        requires valid { first_bad_step set.now log.old ≡ None }
        requires last { IsUpToDate set.now last.now.values last.now.occurrences }
        ensures found { IfOk result (λ found. Finds set.now self.old.trail.entries.items log.new found) }
        ensures trail { OnOk result (IsGrown set.now self.old.trail.entries.items self.new.trail.marks.items self.new.trail.entries.items) }
    {
        let floor = self.trail.entries().len();
        let mut pace = Pace::new();
        self.guide.analysis.note_base(self.trail.entries());
        let mut from = floor;
        'conflicts: loop {
            from = self.rest(floor, from, &mut pace);
            match self.extend(Reasons { set, log: &*log }, last, from)? {
                Reached::Values(values) => return Ok(Some(values)),
                Reached::False(hint) => {
                    let entries = self.trail.entries();
                    let conflict = Conflict { entries, hint };
                    match self.guide.analysis.derive(set, log, conflict, floor)? {
                        None => return Ok(None),
                        Some(flip) => {
                            let step = log.len() - 1;
                            let clause = log.step(step).clause.as_slice();
                            self.guide.learn(entries, clause, step, flip.cut)?;
                            self.trail.turn(flip, Hint::Earlier(step))?;
                            from = flip.cut;
                        }
                    }
                }
            }
        }
    }

    /// Takes all choices back where it is time to begin anew with what was learned. Answers the place of the first entry
    /// whose clauses weren't looked at yet; before it was this one.
    fn rest(&mut self, floor: usize, from: usize, pace: &mut Pace) -> usize
        requires { floor ≤ length self.old.trail.entries.items }
        ensures search { (set : ClauseMap) (start : List Entry) (log : List Step) → length start ≡ floor → IsSearch set start log self.old.trail.marks.items self.old.trail.entries.items
            → IsSearch set start log self.new.trail.marks.items self.new.trail.entries.items }
        ensures fewer { (bools : ℕ) → trails_left bools pace.new.left self.new.trail.entries.items ≤ trails_left bools pace.old.left self.old.trail.entries.items }
    {
        if !pace.is_due() {
            return from;
        }
        let place = first_chosen(self.trail.entries(), floor);
        self.take_back(place);
        self.guide.order.harden();
        self.guide.analysis.note_base(self.trail.entries());
        from.min(place)
    }

    /// Adds choices to the trail, and what clauses force, until each boolean is marked or a clause is false. The entries
    /// from a place on are those whose clauses weren't looked at yet.
    fn extend(
        &mut self,
        reasons: Reasons,
        last: &LastValues,
        from: usize,
    ) -> Result<Reached, AllocError>
        requires trail { IsTrail reasons.set.now reasons.log.now self.old.trail.marks.items self.old.trail.entries.items }
        requires last { IsUpToDate reasons.set.now last.now.values last.now.occurrences }
        ensures { IfOk result (λ reached. IsReached reasons.entry.set.now reasons.entry.log.now self.old.trail.entries.items self.new.trail.marks.items self.new.trail.entries.items reached) }
    {
        let mut from = from;
        let mut place = self.guide.agreed;
        'choices: loop {
            if let Some(hint) = propagate(
                reasons,
                &mut self.guide.watches,
                from,
                &mut self.trail,
            )? {
                return Ok(Reached::False(hint));
            }
            from = self.trail.entries().len();
            let lead = self.guide.easy_lead(reasons, &self.trail, last, place);
            place = lead.place;
            if lead.is_met
                && let Some(values) = self.guessed(reasons.set, last)?
            {
                self.guide.trust = self.guide.trust.met();
                return Ok(Reached::Values(values));
            }
            match self
                .guide
                .choose(&self.trail, lead.lit, last, reasons.set.bools())
            {
                Some(lit) => self.trail.push(Entry { lit, reason: None })?,
                None => return self.judge(reasons, last),
            }
        }
    }

    /// The last values with the marks in place of theirs, if they satisfy the clauses.
    fn guessed(&self, set: &ClauseSet, last: &LastValues) -> Result<Option<Seq<bool>>, AllocError>
        requires len { length self.now.trail.marks.items ≡ set.now.bools }
        requires last { IsUpToDate set.now last.now.values last.now.occurrences }
        ensures { IfOk result (λ found. IfSome found (λ values. KeepMarks self.now.trail.marks.items values × (satisfies values set.now.slots ≡ true))) }
    {
        let guess = last.guess(self.alloc, set, self.trail.marks())?;
        match last.first_false(set, &guess) {
            Some(_) => Ok(None),
            None => Ok(Some(guess.values)),
        }
    }

    /// What the trail comes to where each boolean is marked.
    fn judge(&self, reasons: Reasons, last: &LastValues) -> Result<Reached, AllocError>
        requires trail { IsTrail reasons.set.now reasons.log.now self.now.trail.marks.items self.now.trail.entries.items }
        requires full { list_all is_some self.now.trail.marks.items ≡ true }
        requires last { IsUpToDate reasons.set.now last.now.values last.now.occurrences }
        ensures { IfOk result (λ reached. Reaches reasons.entry.set.now reasons.entry.log.now self.now.trail.marks.items self.now.trail.entries.items reached) }
    {
        let guess = last.guess(self.alloc, reasons.set, self.trail.marks())?;
        match last.first_false(reasons.set, &guess) {
            Some(id) => Ok(Reached::False(Hint::Given(id))),
            None => Ok(Reached::Values(guess.values)),
        }
    }
}

/// The first place from this one on at which a choice stands; the end where there is none. What comes before it was learned
/// without any choice.
fn first_chosen(entries: &[Entry], floor: usize) -> usize
    requires { floor ≤ length entries.now }
    ensures from { floor ≤ result }
    ensures within { result ≤ length entries.now }
{
    let mut place = floor;
    while place < entries.len() && entries[place].reason.is_some() {
        place += 1;
    }
    place
}
