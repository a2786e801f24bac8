//! A clause that is added while assumptions stand: they stay, and what it forces comes behind them.
#![tactic(auto)]

ghost use Rattle.std.specs.Prelude.{◌≡◌, ◌<◌, [], List, length, IfOk};
ghost use Rattle.lv_sat.specs.declared.front.Level.{Level};
ghost use Rattle.lv_sat.specs.Front.{IsKept};
ghost use Rattle.lv_sat.specs.Fronts.{FrontIsKept};
ghost use Rattle.lv_trail.specs.Trail.{IsTrail};

use super::front::Front;
use super::propagation::{propagate, visit_all};
use super::search::Search;
use lv_base::{ClauseId, Lit};
use lv_clauses::{ClauseSet, Finding, Hint, Log, is_marked, look, negation};
use lv_trail::{Reasons, Trail};
use std::alloc::{AllocError, Global};

impl Front {
    /// Takes in a clause of the set that is new, with what it forces. Where a clause is false by that, assumptions give way;
    /// where one is so without any, or memory is wanting, the whole front is taken back.
    pub fn take_in(&mut self, set: &ClauseSet, lits: &[Lit], id: ClauseId)
        requires { FrontIsKept set.now self.old }
        ensures { FrontIsKept set.now self.new }
    {
        match self.search.enter(set, lits, id) {
            Ok(None) => {}
            Ok(Some(_)) => self.give_way(set, lits, id),
            Err(_) => self.forget(),
        }
    }

    /// Takes assumptions back, from the last one on, until what the clause forces leaves no clause false.
    fn give_way(&mut self, set: &ClauseSet, lits: &[Lit], id: ClauseId)
        requires { FrontIsKept set.now self.old }
        ensures { FrontIsKept set.now self.new }
    {
        let count = self.levels.len();
        'levels: for left in (0..count).rev() {
            self.cut_to(left);
            match self.search.force_new(set, lits, id) {
                Ok(None) => return,
                Ok(Some(_)) => {}
                Err(_) => break 'levels,
            }
        }
        self.forget();
    }
}

impl Search {
    /// Has a clause watch two of its literals, and adds what it forces to the trail; or finds a false clause.
    fn enter(
        &mut self,
        set: &ClauseSet,
        lits: &[Lit],
        id: ClauseId,
    ) -> Result<Option<Hint>, AllocError>
        requires { 0 < length self.old.trail.entries.items → IsTrail set.now [] self.old.trail.marks.items self.old.trail.entries.items }
        ensures { (levels : List Level) → IsKept set.now levels self.old.trail.marks.items self.old.trail.entries.items
            → IfOk result (λ _. IsKept set.now levels self.new.trail.marks.items self.new.trail.entries.items) }
    {
        let order = in_watch_order(self.alloc, &self.trail, lits)?;
        self.guide.watches.add_given(order.as_slice(), id)?;
        self.force_new(set, lits, id)
    }

    /// Adds what a clause of the set forces to the trail, if it does; or finds a false clause.
    fn force_new(
        &mut self,
        set: &ClauseSet,
        lits: &[Lit],
        id: ClauseId,
    ) -> Result<Option<Hint>, AllocError>
        requires { 0 < length self.old.trail.entries.items → IsTrail set.now [] self.old.trail.marks.items self.old.trail.entries.items }
        ensures { (levels : List Level) → IsKept set.now levels self.old.trail.marks.items self.old.trail.entries.items
            → IfOk result (λ _. IsKept set.now levels self.new.trail.marks.items self.new.trail.entries.items) }
    {
        if self.trail.entries().is_empty() {
            return Ok(None);
        }
        match look(self.trail.marks(), lits) {
            Finding::Open => Ok(None),
            Finding::Unit(_) | Finding::AllFalse => {
                let log = Log::new(self.alloc)?;
                self.force_by(Reasons { set, log: &log }, id)
            }
        }
    }

    /// Adds what a clause forces to the trail; or finds a false clause.
    fn force_by(&mut self, reasons: Reasons, id: ClauseId) -> Result<Option<Hint>, AllocError>
        requires { IsTrail reasons.set.now reasons.log.now self.old.trail.marks.items self.old.trail.entries.items }
        ensures { (levels : List Level) → reasons.entry.log.now ≡ [] → IsKept reasons.entry.set.now levels self.old.trail.marks.items self.old.trail.entries.items
            → IfOk result (λ _. IsKept reasons.entry.set.now levels self.new.trail.marks.items self.new.trail.entries.items) }
    {
        let place = self.trail.entries().len();
        match visit_all(reasons, &[Hint::Given(id)], &mut self.trail)? {
            Some(hint) => Ok(Some(hint)),
            None => propagate(reasons, &mut self.guide.watches, place, &mut self.trail),
        }
    }
}

/// The literals, those first that aren't false; behind a single one of these comes that which became false last.
fn in_watch_order(alloc: Global, trail: &Trail, lits: &[Lit]) -> Result<Vec<Lit>, AllocError> {
    let mut order = Vec::with_capacity(alloc, lits.len())?;
    for lit in lits {
        if !is_false(trail, *lit) {
            order.push(*lit)?;
        }
    }
    let last = if order.len() == 1 {
        last_false(trail, lits)
    } else {
        None
    };
    if let Some(lit) = last {
        order.push(lit)?;
    }
    for lit in lits {
        if is_false(trail, *lit) && last != Some(*lit) {
            order.push(*lit)?;
        }
    }
    Ok(order)
}

fn is_false(trail: &Trail, lit: Lit) -> bool {
    is_marked(trail.marks(), negation(lit))
}

/// Of these literals the one that became false last.
fn last_false(trail: &Trail, lits: &[Lit]) -> Option<Lit> {
    for entry in trail.entries().iter().rev() {
        let turned = negation(entry.lit);
        if lits.contains(&turned) {
            return Some(turned);
        }
    }
    None
}
