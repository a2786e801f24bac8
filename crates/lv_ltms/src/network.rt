//! What a system keeps beside its assumptions, as one: the clauses, the two literals that each watches, and the labels.
//! Its calls find what follows, and take away what no longer does.
#![tactic(auto)]

ghost use Rattle.std.specs.Prelude.{◌≡◌, ℕ, ◌<◌, ◌≤◌, ◌||◌, false, [], length, replicate, is_some, slice_set, vec_capacity, IsTrue, IsSome, IfOk, IfNone, OnErr, None, Some};
ghost use Rattle.lv_clauses.specs.Literals.{is_clause};
ghost use Rattle.lv_clauses.specs.ClauseMap.{clause_at, AreClauses};
ghost use Rattle.lv_clauses.specs.Marks.{nothing, is_marked};
ghost use Rattle.lv_ltms.specs.declared.labels.Reason.TheVariants.{Assumed};
ghost use Rattle.lv_ltms.specs.Labelled.{GoesOn};
ghost use Rattle.lv_ltms.specs.Standing.{PutsSlot, NoneEmpty, TellsEmpty};
ghost use Rattle.lv_ltms.specs.Networks.{IsAlive, IsRested, KeepsAll};
ghost use Rattle.lv_ltms.specs.Watching.{last, lit_at, IsThreaded, AreMembers};
ghost use Rattle.lv_ltms.specs.Revising.{IsShaken, AreFixed, AreMarked};
ghost use Rattle.lv_ltms.specs.Reaching.{IsWithout, StaysOn};
ghost use Rattle.lv_ltms.specs.Trail.{IsDerivation};

use super::arena::Arena;
use super::labels::Labels;
use super::propagation::{Progress, pick, propagate, settle};
use super::revision::{Grounds, lower_all, support_all, sweep};
use super::watchers::Watchers;
use lv_base::{ClauseId, Lit};
use std::alloc::{AllocError, Global};

/// The clauses, those that watch each literal on each of two sides, the labels, how far the trail was looked at, a
/// clause of no literals, and room for the literals that lose their label in one call.
#[derive(Drop)]
pub struct Network {
    pub arena: Arena,
    pub near: Watchers,
    pub far: Watchers,
    pub labels: Labels,
    pub fallen: Vec<Lit>,
    pub progress: Progress,
    pub empty: Option<ClauseId>,
}

impl Network {
    /// The network of no clauses over so many booleans.
    pub fn new(alloc: Global, bools: u32) -> Result<Network, AllocError>
        ensures arena { IfOk result (λ n. n.arena ≡ []) }
        ensures near { IfOk result (λ n. n.near ≡ record { of_true = replicate bools last; of_false = replicate bools last; watches = [] }) }
        ensures far { IfOk result (λ n. n.far ≡ record { of_true = replicate bools last; of_false = replicate bools last; watches = [] }) }
        ensures labels { IfOk result (λ n. n.labels ≡ record { marks = nothing bools; supports = replicate bools Assumed; trail = [] }) }
        ensures progress { IfOk result (λ n. n.progress ≡ record { done = 0; conflict = None }) }
        ensures empty { IfOk result (λ n. n.empty ≡ None) }
        ensures room { IfOk result (λ n. bools ≤ vec_capacity n.fallen) }
    {
        Ok(Network {
            arena: Arena::new(alloc)?,
            near: Watchers::new(alloc, bools)?,
            far: Watchers::new(alloc, bools)?,
            labels: Labels::new(alloc, bools)?,
            fallen: Vec::with_capacity(alloc, bools as usize)?,
            progress: Progress {
                done: 0,
                conflict: None,
            },
            empty: None,
        })
    }

    /// Adds a clause, and marks the literal that it leaves.
    pub fn add(&mut self, lits: &[Lit]) -> Result<ClauseId, AllocError>
        requires alive { IsAlive self.old }
        requires clause { IsTrue (is_clause (length self.old.labels.marks) lits.now) }
        ensures vacant { IfOk result (λ id. clause_at self.old.arena id.0 ≡ None) }
        ensures added { IfOk result (λ id. PutsSlot self.old.arena self.new.arena id.0 (Some lits.now)) }
        ensures kept { OnErr result (KeepsAll self.old self.new) }
        ensures alive { IsAlive self.new }
        ensures goes_on { GoesOn self.new.arena self.old.labels self.new.labels }
        ensures room { vec_capacity self.new.fallen ≡ vec_capacity self.old.fallen }
    {
        let id = self.arena.add(lits, &mut self.near, &mut self.far)?;
        let Some(pair) = pick(lits, self.labels.marks()) else {
            self.empty = Some(id);
            return Ok(id);
        };
        self.near.put(id, pair.near);
        self.far.put(id, pair.far);
        self.progress = settle(id, pair, &mut self.labels, self.progress);
        Ok(id)
    }

    /// Takes away a clause that is present.
    pub fn remove(&mut self, id: ClauseId)
        requires alive { IsAlive self.old }
        requires present { IsSome (clause_at self.old.arena id.0) }
        ensures removed { PutsSlot self.old.arena self.new.arena id.0 None }
        ensures alive { IsAlive self.new }
        ensures labels { self.new.labels ≡ self.old.labels }
        ensures room { vec_capacity self.new.fallen ≡ vec_capacity self.old.fallen }
    {
        unwatch(id, &self.arena, &mut self.near);
        unwatch(id, &self.arena, &mut self.far);
        self.arena.remove(id);
        self.progress.conflict = None;
        self.empty = blank_left(self.empty, &self.arena);
    }

    /// Marks all that follows, unless a clause is known that is false.
    pub fn propagate(&mut self)
        requires { IsAlive self.old }
        ensures rested { IsRested self.new }
        ensures arena { self.new.arena ≡ self.old.arena }
        ensures goes_on { GoesOn self.old.arena self.old.labels self.new.labels }
        ensures room { vec_capacity self.new.fallen ≡ vec_capacity self.old.fallen }
    {
        if self.progress.conflict.is_some() {
            return;
        }
        self.progress = propagate(
            self.progress.done,
            &self.arena,
            &mut self.near,
            &mut self.far,
            &mut self.labels,
        );
    }

    /// Labels anew what the labels from a place of the trail on leave: those that lost their support fall, and what
    /// follows from the others is marked. Where no clause was known to be false, and no assumption turns a label, none
    /// that falls is turned.
    pub fn revise(&mut self, from: usize, assumed: &[Option<bool>], turns: bool)
        requires alive { IsAlive self.old }
        requires place { from ≤ length self.old.labels.trail }
        requires shaken { IsShaken (is_marked assumed.now) self.old.arena self.old.labels.trail from }
        requires marked { AreFixed (is_marked assumed.now) self.old.labels }
        requires straight { turns ≡ false → AreMarked (is_marked assumed.now) self.old.labels }
        requires room { length self.old.labels.marks ≤ vec_capacity self.old.fallen }
        ensures rested { IsRested self.new }
        ensures arena { self.new.arena ≡ self.old.arena }
        ensures marks { length self.new.labels.marks ≡ length self.old.labels.marks }
        ensures derivation { IsDerivation self.old.arena (is_marked assumed.now) self.new.labels.trail }
        ensures marked { AreMarked (is_marked assumed.now) self.new.labels }
        ensures stays { (l : Lit) → IsWithout (is_marked assumed.now) self.old.arena self.old.labels.trail l
            → StaysOn self.old.arena self.old.labels.trail l self.old.labels.trail self.new.labels.trail }
        ensures room { vec_capacity self.new.fallen ≡ vec_capacity self.old.fallen }
    {
        self.fallen.clear();
        let both = self.may_turn(turns);
        let grounds = Grounds {
            assumed,
            arena: &self.arena,
            near: &self.near,
            far: &self.far,
        };
        let done = self.progress.done;
        let looked = sweep(from, done, grounds, &mut self.labels, &mut self.fallen);
        support_all(self.fallen.as_slice(), both, grounds, &mut self.labels);
        let done = lower_all(
            self.fallen.as_slice(),
            &self.near,
            &self.far,
            &self.labels,
            looked,
        );
        self.progress = propagate(
            done,
            &self.arena,
            &mut self.near,
            &mut self.far,
            &mut self.labels,
        );
    }

    /// Whether a literal that falls may be turned: some assumption turns one, or not all links were looked at.
    fn may_turn(&self, turns: bool) -> bool
        ensures turns { result ≡ false → turns ≡ false }
        ensures done { result ≡ false → length self.now.labels.trail ≤ self.now.progress.done }
    {
        turns || self.progress.done < self.labels.trail().len()
    }

    /// Whether a clause is known to be false.
    pub fn has_false(&self) -> bool
        ensures { result ≡ (is_some self.now.progress.conflict || is_some self.now.empty) }
    {
        self.progress.conflict.is_some() || self.empty.is_some()
    }
}

/// Takes a clause out of the list of the literal that it watches on one side, if it has a literal.
fn unwatch(id: ClauseId, arena: &Arena, rows: &mut Watchers)
    requires threaded { IsThreaded rows.old arena.now (length rows.old.of_true) }
    requires clauses { AreClauses (length rows.old.of_true) arena.now }
    requires members { AreMembers arena.now (lit_at rows.old) }
    requires present { IsSome (clause_at arena.now id.0) }
    ensures threaded { IsThreaded rows.new (slice_set arena.now id.0 None) (length rows.old.of_true) }
    ensures same { (i : ℕ) → lit_at rows.new i ≡ lit_at rows.old i }
{
    if arena.is_blank(id) {
        return;
    }
    let lit = rows.lit(id);
    let mut at = rows.take(lit);
    for _ in 0..rows.room() {
        let Some(other) = at else {
            return;
        };
        at = rows.next(other);
        if other.0 != id.0 {
            rows.put(other, lit);
        }
    }
}

/// A clause without literals, where one was known before some clause went.
fn blank_left(known: Option<ClauseId>, arena: &Arena) -> Option<ClauseId>
    requires { IfNone known (NoneEmpty arena.now) }
    ensures { TellsEmpty arena.now result }
{
    match known {
        Some(_) => arena.first_blank(),
        None => None,
    }
}
