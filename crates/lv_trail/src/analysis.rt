//! What a false clause teaches. The trail is walked from its end: an entry that was needed gives way to the entries that
//! forced it, until one is met behind which nothing is needed up to a choice. Where there is none, the walk goes on through
//! the front, and the assumptions alone are left. The negations of the entries needed are then a clause that follows from
//! the reasons used, in the order of the trail, and the false clause: one step of the log.
#![tactic(auto)]

ghost use Rattle.std.specs.Prelude.{◌≡◌, ◌<◌, ◌≤◌, ◌+◌, ◌++◌, ◌∷◌, [], length, take, IfOk, IfSome, IfNone, OnOk, reverse};
ghost use Rattle.lv_trail.specs.Trail.{IsChain, IsFalse, lits_of, unforced};
ghost use Rattle.lv_trail.specs.Analysis as Analysed;
ghost use Rattle.lv_trail.specs.Analysis.{seen_by, GoesPast, HasReason, IsForcedIfSeen, IsApart, IsChoiceOr, IsCut, Derives, IsDerived, IsPending, Replaces, StopsAt};

use super::reasons::Reasons;
use super::seen::Seen;
use super::trail::{Entry, count_base};
use lv_base::Lit;
use lv_clauses::{ClauseSet, Hint, Log};
use std::alloc::{AllocError, Global};

/// An entry whose negation is to be taken as true, and the choice at or before it in whose place. None of the entries
/// from that choice on and before this one is needed.
#[derive(Clone, Copy, Debug, PartialEq, Eq)]
pub struct Flip {
    pub place: usize,
    pub cut: usize,
}

/// A clause that is false by the entries of a trail.
#[derive(Clone, Copy)]
pub struct Conflict<'a> {
    pub entries: &'a [Entry],
    pub hint: Hint,
}

/// What the analysis at hand saw and the hints that it took, the last one first. Up to the base, the entries rest on nothing
/// that was assumed or chosen.
#[derive(Drop)]
pub struct Analysis {
    seen: Seen,
    hints: Vec<Hint>,
    base: usize,
}

impl Analysis {
    pub fn new(alloc: Global) -> Analysis {
        Analysis {
            seen: Seen::new(alloc),
            hints: Vec::new(alloc),
            base: 0,
        }
    }

    /// Takes note of the entries that rest on nothing assumed or chosen.
    pub fn note_base(&mut self, entries: &[Entry]) {
        self.base = count_base(entries);
    }

    /// The literals whose booleans the last analysis saw.
    pub fn noted(&self) -> &[Lit] {
        self.seen.noted()
    }

    /// Has an analysis begin anew that was left where memory was wanting.
    pub fn clear(&mut self) {
        self.seen.clear();
    }

    /// Adds the step that a false clause teaches to the log. Its clause negates entries: the last of them is answered, with
    /// the first choice behind the others, or all stand before the floor and have no reason.
    pub fn derive(
        &mut self,
        set: &ClauseSet,
        log: &mut Log,
        conflict: Conflict,
        floor: usize,
    ) -> Result<Option<Flip>, AllocError>
        requires chain { IsChain set.now log.old conflict.entries.now }
        requires floor { floor ≤ length conflict.entries.now }
        requires refuted { IsFalse set.now.slots log.old (lits_of conflict.entries.now) conflict.hint }
        ensures { IfOk result (λ flip. Derives set.now log.old log.new floor conflict.entry.entries.now flip) }
    {
        let entries = conflict.entries;
        let reasons = Reasons { set, log: &*log };
        self.begin(reasons, conflict)?;
        match self.walk(reasons, entries, floor)? {
            Some(flip) => {
                let clause = self.seen.deny(&entries[..flip.place + 1])?;
                self.add_step(log, clause.as_slice())?;
                Ok(Some(flip))
            }
            None => {
                self.settle(set, log, &entries[..floor])?;
                Ok(None)
            }
        }
    }

    /// Adds the step that a false clause teaches where no entry is to be turned: its clause negates entries that have no
    /// reason.
    pub fn refute(
        &mut self,
        set: &ClauseSet,
        log: &mut Log,
        conflict: Conflict,
    ) -> Result<(), AllocError>
        requires chain { IsChain set.now log.old conflict.entries.now }
        requires refuted { IsFalse set.now.slots log.old (lits_of conflict.entries.now) conflict.hint }
        ensures { OnOk result (IsDerived set.now log.old log.new (unforced conflict.entry.entries.now)) }
    {
        self.begin(Reasons { set, log: &*log }, conflict)?;
        self.settle(set, log, conflict.entries)
    }

    /// Begins with the false clause alone.
    fn begin(&mut self, reasons: Reasons, conflict: Conflict) -> Result<(), AllocError>
        requires chain { IsChain reasons.set.now reasons.log.now conflict.entries.now }
        requires refuted { IsFalse reasons.set.now.slots reasons.log.now (lits_of conflict.entries.now) conflict.hint }
        ensures { OnOk result (IsPending reasons.entry.set.now reasons.entry.log.now conflict.entry.entries.now (lits_of conflict.entry.entries.now) self.new.seen.marks.items self.new.hints.items) }
    {
        self.seen.begin(reasons.set.bools())?;
        self.hints.clear();
        self.take_reason(reasons, conflict.hint)?;
        Ok(())
    }

    /// Goes back through all entries, and adds the step of those needed that have no reason.
    fn settle(
        &mut self,
        set: &ClauseSet,
        log: &mut Log,
        entries: &[Entry],
    ) -> Result<(), AllocError>
        requires chain { IsChain set.now log.old entries.now }
        requires pending { IsPending set.now log.old entries.now (lits_of entries.now) self.old.seen.marks.items self.old.hints.items }
        ensures { OnOk result (IsDerived set.now log.old log.new (unforced entries.now)) }
    {
        self.go_back(Reasons { set, log: &*log }, entries)?;
        let clause = self.seen.deny_unforced(entries)?;
        self.add_step(log, clause.as_slice())
    }

    /// Adds a step with the hints in the order of the trail, in which the last one taken is the first. With it the analysis
    /// ends.
    fn add_step(&mut self, log: &mut Log, clause: &[Lit]) -> Result<(), AllocError>
        ensures { OnOk result (log.new ≡ log.old ++ record { clause = clause.now; hints = reverse self.old.hints.items } ∷ []) }
    {
        self.hints.reverse();
        log.push(clause, self.hints.as_slice())?;
        self.seen.end();
        Ok(())
    }

    /// Walks back through all entries: each that was needed gives way to its reason if it has one.
    fn go_back(&mut self, reasons: Reasons, entries: &[Entry]) -> Result<(), AllocError>
        requires chain { IsChain reasons.set.now reasons.log.now entries.now }
        requires pending { IsPending reasons.set.now reasons.log.now entries.now (lits_of entries.now) self.old.seen.marks.items self.old.hints.items }
        ensures { OnOk result (IsPending reasons.entry.set.now reasons.entry.log.now entries.now (lits_of (unforced entries.now)) self.new.seen.marks.items self.new.hints.items) }
    {
        let mut at = entries.len();
        while at > 0 {
            at -= 1;
            self.pass(reasons, entries[at])?;
        }
        Ok(())
    }

    /// Walks back to the last entry needed behind which a choice stands before the next one needed; None where there is none
    /// from the floor on. The hints are taken in the order of the walk.
    fn walk(
        &mut self,
        reasons: Reasons,
        entries: &[Entry],
        floor: usize,
    ) -> Result<Option<Flip>, AllocError>
        requires chain { IsChain reasons.set.now reasons.log.now entries.now }
        requires floor { floor ≤ length entries.now }
        requires pending { IsPending reasons.set.now reasons.log.now entries.now (lits_of entries.now) self.old.seen.marks.items self.old.hints.items }
        ensures { IfOk result (λ flip. StopsAt reasons.entry.set.now reasons.entry.log.now entries.now floor self.new.seen.marks.items self.new.hints.items flip) }
    {
        let mut at = entries.len();
        while at > floor {
            at -= 1;
            if let Some(cut) = self.cut_at(reasons, entries, floor, at)? {
                return Ok(Some(Flip { place: at, cut }));
            }
            self.pass(reasons, entries[at])?;
        }
        Ok(None)
    }

    /// The choice in whose place the negation of an entry can be taken as true, where there is one: then entries before it
    /// have given way to their reasons, where all that forced them is needed too.
    fn cut_at(
        &mut self,
        reasons: Reasons,
        entries: &[Entry],
        floor: usize,
        at: usize,
    ) -> Result<Option<usize>, AllocError>
        requires chain { IsChain reasons.set.now reasons.log.now entries.now }
        requires floor { floor ≤ at }
        requires within { at < length entries.now }
        requires pending { IsPending reasons.set.now reasons.log.now entries.now (lits_of (take (at + 1) entries.now)) self.old.seen.marks.items self.old.hints.items }
        ensures pending { OnOk result (IsPending reasons.entry.set.now reasons.entry.log.now entries.now (lits_of (take (at + 1) entries.now)) self.new.seen.marks.items self.new.hints.items) }
        ensures found { IfOk result (λ found. IfSome found (λ cut. IsCut self.new.seen.marks.items entries.now floor at cut)) }
        ensures forced { IfOk result (λ found. IfNone found (IsForcedIfSeen self.new.seen.marks.items entries.now at)) }
    {
        if self.find_cut(entries, floor, at).is_some() {
            self.shorten(reasons, entries, at)?;
        }
        Ok(self.find_cut(entries, floor, at))
    }

    /// Lets entries needed before a place give way to their reasons, where these need nothing else.
    fn shorten(
        &mut self,
        reasons: Reasons,
        entries: &[Entry],
        place: usize,
    ) -> Result<(), AllocError>
        requires chain { IsChain reasons.set.now reasons.log.now entries.now }
        requires within { place < length entries.now }
        requires pending { IsPending reasons.set.now reasons.log.now entries.now (lits_of (take (place + 1) entries.now)) self.old.seen.marks.items self.old.hints.items }
        ensures { OnOk result (IsPending reasons.entry.set.now reasons.entry.log.now entries.now (lits_of (take (place + 1) entries.now)) self.new.seen.marks.items self.new.hints.items) }
    {
        let mut at = place;
        while at > 0 && self.seen.is_ahead() {
            at -= 1;
            self.seen.come_to(self.seen.sees(entries[at].lit));
            if self.is_spare(reasons, &entries[at], at < self.base) {
                self.replace(reasons, entries[at])?;
            }
        }
        Ok(())
    }

    /// Whether an entry was seen, and so were all that forced it, or nothing that was assumed or chosen did.
    #[inline(always)]
    fn is_spare(&self, reasons: Reasons, entry: &Entry, is_base: bool) -> bool {
        if !self.seen.sees(entry.lit) {
            return false;
        }
        match entry.reason {
            Some(hint) => is_base || self.sees_others(reasons.find(hint), entry.lit),
            None => false,
        }
    }

    /// Whether all literals of a clause but those of this boolean were seen.
    fn sees_others(&self, clause: Option<&[Lit]>, lit: Lit) -> bool {
        match clause {
            Some(lits) => lits
                .iter()
                .all(|other| other.var == lit.var || self.seen.sees(*other)),
            None => false,
        }
    }

    /// An entry gives way to its reason, if it has one, and isn't seen any more.
    fn replace(&mut self, reasons: Reasons, entry: Entry) -> Result<(), AllocError>
        ensures { OnOk result (Replaces reasons.entry.set.now.slots reasons.entry.log.now entry.lit entry.reason self.old.seen.marks.items self.old.hints.items self.new.seen.marks.items self.new.hints.items) }
    {
        match entry.reason {
            None => Ok(()),
            Some(hint) => {
                self.take_reason(reasons, hint)?;
                self.seen.unsee(entry.lit);
                Ok(())
            }
        }
    }

    /// The first choice behind the last entry before this one that was seen, where this one was seen too and is behind it or
    /// is that choice.
    #[inline(always)]
    fn find_cut(&self, entries: &[Entry], floor: usize, at: usize) -> Option<usize>
        requires floor { floor ≤ at }
        requires within { at < length entries.now }
        ensures found { IfSome result (λ cut. IsCut self.now.seen.marks.items entries.now floor at cut) }
        ensures forced { IfNone result (IsForcedIfSeen self.now.seen.marks.items entries.now at) }
    {
        if self.seen.sees(entries[at].lit) {
            self.first_choice(entries, floor, at)
        } else {
            None
        }
    }

    /// The first choice from the last entry before this one that was seen, up to this one.
    fn first_choice(&self, entries: &[Entry], floor: usize, at: usize) -> Option<usize>
        requires floor { floor ≤ at }
        requires within { at < length entries.now }
        ensures found { IfSome result (λ cut. IsApart self.now.seen.marks.items entries.now floor at cut) }
        ensures forced { IfNone result (HasReason entries.now at) }
    {
        let mut cut = choice_at(entries, at, None);
        let mut below = at;
        while below > floor {
            below -= 1;
            if self.seen.sees(entries[below].lit) {
                return cut;
            }
            cut = choice_at(entries, below, cut);
        }
        cut
    }

    /// Goes past an entry, with the literals that forced it seen if it was and has a reason.
    #[inline(always)]
    fn pass(&mut self, reasons: Reasons, entry: Entry) -> Result<(), AllocError>
        ensures { OnOk result (GoesPast reasons.entry.set.now.slots reasons.entry.log.now (Analysed.sees self.old.seen.marks.items entry.lit) entry.reason self.old.seen.marks.items self.old.hints.items self.new.seen.marks.items self.new.hints.items) }
    {
        if !self.seen.sees(entry.lit) {
            return Ok(());
        }
        self.seen.come_to(true);
        match entry.reason {
            None => Ok(()),
            Some(hint) => self.take_reason(reasons, hint),
        }
    }

    /// Takes a hint, and sees the booleans of its clause.
    fn take_reason(&mut self, reasons: Reasons, hint: Hint) -> Result<(), AllocError>
        ensures hints { OnOk result (self.new.hints.items ≡ self.old.hints.items ++ hint ∷ []) }
        ensures seen { OnOk result (self.new.seen.marks.items ≡ seen_by reasons.entry.set.now.slots reasons.entry.log.now hint self.old.seen.marks.items) }
    {
        self.hints.push(hint)?;
        self.seen.see_clause(reasons.find(hint));
        Ok(())
    }
}

/// The place where a choice stands there, else the other one.
fn choice_at(entries: &[Entry], at: usize, other: Option<usize>) -> Option<usize>
    requires { at < length entries.now }
    ensures { IsChoiceOr entries.now at other result }
{
    match entries[at].reason {
        None => Some(at),
        Some(_) => other,
    }
}
