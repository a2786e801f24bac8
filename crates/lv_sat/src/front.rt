//! The front of the trail: the assumptions, each with what it forces. It stays for the next call, which takes back what it
//! doesn't begin with, and puts on only what is new.
#![tactic(auto)]

ghost use Rattle.std.specs.Prelude.{◌≡◌, ◌<◌, ◌≤◌, ◌++◌, ◌∷◌, [], List, length, take, map, true, IsTrue, IfOk, IfSome, OnOk, None, slice_index_or};
ghost use Rattle.lv_clauses.specs.Literals.{neg, is_clause};
ghost use Rattle.lv_clauses.specs.ClauseMap.{ClauseMap};
ghost use Rattle.lv_trail.specs.Trail.{is_open, IsTrail, IsPropagated, IsChain, IsFalse, among, lits_of, unforced};
ghost use Rattle.lv_trail.specs.Analysis.{IsDerived};
ghost use Rattle.lv_sat.specs.Answers.{Answers, last_clause};
ghost use Rattle.lv_sat.specs.Front.{assumed, AreLevels, Assumes, IsFront, IsRefuted, Stands};
ghost use Rattle.lv_sat.specs.Fronts.{FrontIsKept, FrontStands, IsAsked};

use super::answer::Answer;
use super::propagation::{propagate, visit_all};
use super::search::Search;
use lv_base::{Lit, Seq};
use lv_clauses::{ClauseSet, Hint, Log, is_marked, negation};
use lv_last_values::{LastValues, near_values};
use lv_trail::{Conflict, Entry, Reasons};
use std::alloc::{AllocError, Global};

/// An assumption that is true on the trail, and how many entries came before it and what it forces.
#[derive(Clone, Copy, Debug, PartialEq, Eq)]
pub struct Level {
    pub lit: Lit,
    pub place: usize,
}

/// A search, and the assumptions that stand on its trail.
#[derive(Drop)]
pub struct Front {
    pub search: Search,
    pub levels: Vec<Level>,
}

impl Front {
    /// Whether some values satisfy the clauses and make the assumptions true. The front is left for the next call.
    pub fn answer(
        &mut self,
        set: &ClauseSet,
        last: &LastValues,
        assumptions: &[Lit],
    ) -> Result<Answer, AllocError>
        requires { IsAsked set.now last.now assumptions.now self.old }
        ensures answer { IfOk result (λ answer. Answers set.now assumptions.now answer) }
        ensures kept { FrontIsKept set.now self.new }
    {
        self.search.guide.note_call();
        match self.answer_near(set, last, assumptions) {
            Ok(answer) => Ok(answer),
            Err(error) => {
                self.search.guide.analysis.clear();
                self.forget();
                Err(error)
            }
        }
    }

    /// The answer, where memory suffices: values near the last ones, where they are found, else what a search finds. There
    /// are none near where an assumption is false by those that stand still.
    fn answer_near(
        &mut self,
        set: &ClauseSet,
        last: &LastValues,
        assumptions: &[Lit],
    ) -> Result<Answer, AllocError>
        requires { IsAsked set.now last.now assumptions.now self.old }
        ensures answer { IfOk result (λ answer. Answers set.now assumptions.now answer) }
        ensures kept { OnOk result (FrontIsKept set.now self.new) }
    {
        let alloc = self.search.alloc;
        self.keep(assumptions);
        let is_tried = self.search.guide.near.is_given() && !self.is_contradicted(assumptions);
        if is_tried && let Some(values) = near_values(alloc, set, last, assumptions)? {
            self.search.guide.near = self.search.guide.near.met();
            return Ok(Answer::Sat {
                values,
                log: Log::new(alloc)?,
            });
        }
        let answer = self.find_answer(set, last, assumptions)?;
        if is_tried && let Answer::Sat { .. } = answer {
            self.search.guide.near = self.search.guide.near.led();
        }
        Ok(answer)
    }

    /// What a search finds, where memory suffices.
    fn find_answer(
        &mut self,
        set: &ClauseSet,
        last: &LastValues,
        assumptions: &[Lit],
    ) -> Result<Answer, AllocError>
        requires { IsAsked set.now last.now assumptions.now self.old }
        ensures answer { IfOk result (λ answer. Answers set.now assumptions.now answer) }
        ensures kept { OnOk result (FrontIsKept set.now self.new) }
    {
        let alloc = self.search.alloc;
        let mut log = Log::new(alloc)?;
        if !self.stand(set, &mut log, assumptions)? {
            return refutation(alloc, log);
        }
        match self.search.complete(set, &mut log, last)? {
            Some(values) => Ok(Answer::Sat { values, log }),
            None => refutation(alloc, log),
        }
    }

    /// Takes the assumptions as true, with what they force. Answers whether they stand; where clauses refute them already,
    /// the log says so.
    fn stand(
        &mut self,
        set: &ClauseSet,
        log: &mut Log,
        assumptions: &[Lit],
    ) -> Result<bool, AllocError>
        requires clause { IsTrue (is_clause set.now.bools assumptions.now) }
        requires log { log.old ≡ [] }
        requires kept { FrontIsKept set.now self.old }
        ensures kept { OnOk result (FrontIsKept set.now self.new) }
        ensures standing { IfOk result (λ stands. stands ≡ true → FrontStands set.now self.new) }
        ensures told { IfOk result (λ stands. Stands set.now assumptions.now self.new.levels.items log.new stands) }
    {
        self.keep(assumptions);
        if let Some(hint) = self.search.begin(Reasons { set, log: &*log })? {
            self.search.refute(set, log, hint)?;
            self.forget();
            return Ok(false);
        }
        self.assume_all(set, log, assumptions)
    }

    /// Takes the whole front back.
    pub fn forget(&mut self)
        ensures { (set : ClauseMap) → FrontIsKept set self.new }
    {
        self.search.take_back(0);
        self.levels.clear();
    }

    /// Takes back what the front doesn't share with these assumptions.
    fn keep(&mut self, assumptions: &[Lit])
        requires { AreLevels self.old.levels.items self.old.search.trail.entries.items }
        ensures kept { (set : ClauseMap) → FrontIsKept set self.old → FrontIsKept set self.new }
        ensures shared { assumed self.new.levels.items ≡ take (length self.new.levels.items) assumptions.now }
    {
        let count = count_shared(self.levels.as_slice(), assumptions);
        self.cut_to(count);
    }

    /// Takes back all assumptions but the first, so many.
    pub fn cut_to(&mut self, count: usize)
        requires { AreLevels self.old.levels.items self.old.search.trail.entries.items }
        ensures kept { (set : ClauseMap) → FrontIsKept set self.old → FrontIsKept set self.new }
        ensures levels { self.new.levels.items ≡ take count self.old.levels.items }
    {
        if count < self.levels.len() {
            let place = self.levels[count].place;
            self.search.take_back(place);
            self.levels.truncate(count);
        }
    }

    /// Takes the assumptions behind those that stand.
    fn assume_all(
        &mut self,
        set: &ClauseSet,
        log: &mut Log,
        assumptions: &[Lit],
    ) -> Result<bool, AllocError>
        requires clause { IsTrue (is_clause set.now.bools assumptions.now) }
        requires log { log.old ≡ [] }
        requires standing { FrontStands set.now self.old }
        requires shared { assumed self.old.levels.items ≡ take (length self.old.levels.items) assumptions.now }
        ensures standing { OnOk result (FrontStands set.now self.new) }
        ensures told { IfOk result (λ stands. Stands set.now assumptions.now self.new.levels.items log.new stands) }
    {
        for at in self.levels.len()..assumptions.len() {
            if !self.assume(set, log, assumptions[at])? {
                return Ok(false);
            }
        }
        Ok(true)
    }

    /// Whether one of the assumptions behind those that stand is false by these.
    fn is_contradicted(&self, assumptions: &[Lit]) -> bool {
        let marks = self.search.trail.marks();
        assumptions
            .iter()
            .skip(self.levels.len())
            .any(|lit| is_marked(marks, negation(*lit)))
    }

    /// Takes one more assumption. Where it is refuted, the front is as it was.
    fn assume(&mut self, set: &ClauseSet, log: &mut Log, lit: Lit) -> Result<bool, AllocError>
        requires log { log.old ≡ [] }
        requires standing { FrontStands set.now self.old }
        requires clause { is_clause set.now.bools (assumed self.old.levels.items ++ lit ∷ []) ≡ true }
        ensures standing { OnOk result (FrontStands set.now self.new) }
        ensures told { IfOk result (λ stands. Assumes set.now self.old.levels.items lit self.new.levels.items log.new stands) }
    {
        let place = self.search.trail.entries().len();
        if is_marked(self.search.trail.marks(), lit) {
            self.levels.push(Level { lit, place })?;
            return Ok(true);
        }
        if !self.search.trail.is_open(lit) {
            self.search.contradict(set, log, lit)?;
            return Ok(false);
        }
        match self.search.take_on(Reasons { set, log: &*log }, lit)? {
            Some(hint) => {
                self.search.refute(set, log, hint)?;
                self.search.take_back(place);
                Ok(false)
            }
            None => {
                self.levels.push(Level { lit, place })?;
                Ok(true)
            }
        }
    }
}

impl Search {
    /// Has a trail of no entries begin with what clauses force without any assumption; or finds a false clause.
    fn begin(&mut self, reasons: Reasons) -> Result<Option<Hint>, AllocError>
        requires { 0 < length self.old.trail.entries.items → IsTrail reasons.set.now reasons.log.now self.old.trail.marks.items self.old.trail.entries.items }
        ensures { IfOk result (λ found. IsPropagated reasons.entry.set.now reasons.entry.log.now self.old.trail.entries.items self.new.trail.marks.items self.new.trail.entries.items found) }
    {
        if !self.trail.entries().is_empty() {
            return Ok(None);
        }
        self.trail.restart(reasons.set.bools())?;
        if let Some(hint) = visit_all(reasons, self.guide.watches.short(), &mut self.trail)? {
            return Ok(Some(hint));
        }
        propagate(reasons, &mut self.guide.watches, 0, &mut self.trail)
    }

    /// Adds an assumption to the trail with what it forces; or finds a false clause.
    fn take_on(&mut self, reasons: Reasons, lit: Lit) -> Result<Option<Hint>, AllocError>
        requires trail { IsTrail reasons.set.now reasons.log.now self.old.trail.marks.items self.old.trail.entries.items }
        requires free { IsTrue (is_open self.old.trail.marks.items lit) }
        ensures { IfOk result (λ found. IsPropagated reasons.entry.set.now reasons.entry.log.now (self.old.trail.entries.items ++ record { lit = lit; reason = None } ∷ []) self.new.trail.marks.items self.new.trail.entries.items found) }
    {
        let place = self.trail.entries().len();
        self.trail.push(Entry { lit, reason: None })?;
        propagate(reasons, &mut self.guide.watches, place, &mut self.trail)
    }

    /// Adds the step that refutes the entries that have no reason, by a clause that is false.
    fn refute(&mut self, set: &ClauseSet, log: &mut Log, hint: Hint) -> Result<(), AllocError>
        requires chain { IsChain set.now log.old self.old.trail.entries.items }
        requires refuted { IsFalse set.now.slots log.old (lits_of self.old.trail.entries.items) hint }
        ensures derived { OnOk result (IsDerived set.now log.old log.new (unforced self.old.trail.entries.items)) }
        ensures kept { self.new.trail ≡ self.old.trail }
    {
        let entries = self.trail.entries();
        self.guide
            .analysis
            .refute(set, log, Conflict { entries, hint })
    }

    /// Adds the step that refutes an assumption whose negation is on the trail, which stays as it is. No other assumption is
    /// its negation, so a clause forces that; it is false once the assumption stands in its place, where it is put for the
    /// look back.
    fn contradict(&mut self, set: &ClauseSet, log: &mut Log, lit: Lit) -> Result<(), AllocError>
        requires log { log.old ≡ [] }
        requires chain { IsChain set.now log.old self.old.trail.entries.items }
        requires there { among (lits_of self.old.trail.entries.items) (neg lit) ≡ true }
        ensures refuted { OnOk result ((assumptions : List Lit) → IsFront assumptions self.old.trail.entries.items → is_clause set.now.bools (assumptions ++ lit ∷ []) ≡ true → IsRefuted set.now (assumptions ++ lit ∷ []) log.new) }
        ensures entries { OnOk result (self.new.trail.entries.items ≡ self.old.trail.entries.items) }
        ensures marks { OnOk result (self.new.trail.marks.items ≡ self.old.trail.marks.items) }
    {
        let place = place_of(self.trail.entries(), negation(lit));
        let negated = self.trail.entries()[place];
        let Some(hint) = negated.reason else {
            return Ok(());
        };
        self.trail.put(place, Entry { lit, reason: None });
        let entries = &self.trail.entries()[..place + 1];
        self.guide
            .analysis
            .refute(set, log, Conflict { entries, hint })?;
        self.trail.put(place, negated);
        Ok(())
    }
}

/// How many assumptions of the levels are also the first of these.
fn count_shared(levels: &[Level], assumptions: &[Lit]) -> usize
    ensures levels { result ≤ length levels.now }
    ensures assumptions { result ≤ length assumptions.now }
    ensures shared { take result (assumed levels.now) ≡ take result assumptions.now }
{
    let mut count = 0;
    while count < levels.len()
        && count < assumptions.len()
        && levels[count].lit == assumptions[count]
    {
        count += 1;
    }
    count
}

/// The place of the literal among the entries.
fn place_of(entries: &[Entry], lit: Lit) -> usize
    requires { among (lits_of entries.now) lit ≡ true }
    ensures within { result < length entries.now }
    ensures lit { (d : Entry) → (slice_index_or entries.now result d).lit ≡ lit }
{
    let mut place = 0;
    while entries[place].lit != lit {
        place += 1;
    }
    place
}

/// The refutation that a log ends in.
fn refutation(alloc: Global, log: Log) -> Result<Answer, AllocError>
    requires { 0 < length log }
    ensures { (set : ClauseMap) (assumptions : List Lit) → IsRefuted set assumptions log → IfOk result (λ answer. Answers set assumptions answer) }
{
    let core = negate_last(alloc, &log)?;
    Ok(Answer::Unsat { core, log })
}

/// The negations of the last step's literals.
fn negate_last(alloc: Global, log: &Log) -> Result<Seq<Lit>, AllocError>
    requires { 0 < length log.now }
    ensures { IfOk result (λ core. IfSome (last_clause log.now) (λ clause. core ≡ map neg clause)) }
{
    negate_all(alloc, log.step(log.len() - 1).clause.as_slice())
}

fn negate_all(alloc: Global, lits: &[Lit]) -> Result<Seq<Lit>, AllocError>
    ensures { IfOk result (λ all. all ≡ map neg lits.now) }
{
    let mut all = Seq::new(alloc);
    for lit in lits {
        all.push(negation(*lit))?;
    }
    Ok(all)
}
