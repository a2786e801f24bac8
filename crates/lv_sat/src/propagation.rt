//! Propagation: what clauses force, given the literals on the trail. It looks at the clauses that watch a literal that
//! became false; such a clause finds another literal to watch, or else forces its last one, or is false.
#![tactic(auto)]

ghost use Rattle.std.specs.Prelude.{◌-◌, ◌<◌, IfOk};
ghost use Rattle.lv_trail.specs.Trail.{IsTrail, IsPropagated};

use lv_base::Lit;
use lv_clauses::{Finding, Hint, look, negation};
use lv_sat_guide::{Fate, Watch, Watches};
use lv_trail::{Reasons, Trail};
use std::alloc::AllocError;

/// Adds what clauses force by the entries from a place on and by those that this adds; or finds a false clause.
pub fn propagate(
    reasons: Reasons,
    watches: &mut Watches,
    from: usize,
    trail: &mut Trail,
) -> Result<Option<Hint>, AllocError>
    requires { IsTrail reasons.set.now reasons.log.now trail.old.marks.items trail.old.entries.items }
    ensures { IfOk result (λ found. IsPropagated reasons.entry.set.now reasons.entry.log.now trail.old.entries.items trail.new.marks.items trail.new.entries.items found) }
{
    let mut at = from;
    while at < trail.entries().len() {
        let turned = negation(trail.entries()[at].lit);
        if let Some(hint) = visit(reasons, watches, turned, trail)? {
            return Ok(Some(hint));
        }
        at += 1;
    }
    Ok(None)
}

/// Adds what the clauses force that watch a literal that became false; or finds a false one.
fn visit(
    reasons: Reasons,
    watches: &mut Watches,
    turned: Lit,
    trail: &mut Trail,
) -> Result<Option<Hint>, AllocError>
    requires { IsTrail reasons.set.now reasons.log.now trail.old.marks.items trail.old.entries.items }
    ensures { IfOk result (λ found. IsPropagated reasons.entry.set.now reasons.entry.log.now trail.old.entries.items trail.new.marks.items trail.new.entries.items found) }
{
    let mut row = watches.take_row(turned);
    let found = visit_row(reasons, watches, &mut row, turned, trail);
    watches.put_row(turned, row);
    found
}

/// Goes along the watches of a literal that became false.
fn visit_row(
    reasons: Reasons,
    watches: &mut Watches,
    row: &mut Vec<Watch>,
    turned: Lit,
    trail: &mut Trail,
) -> Result<Option<Hint>, AllocError>
    requires { IsTrail reasons.set.now reasons.log.now trail.old.marks.items trail.old.entries.items }
    ensures { IfOk result (λ found. IsPropagated reasons.entry.set.now reasons.entry.log.now trail.old.entries.items trail.new.marks.items trail.new.entries.items found) }
{
    let mut at = 0;
    while at < row.len() {
        match watches.meet(trail.marks(), row[at], turned)? {
            Fate::Leaves => {
                row.swap_remove(at);
            }
            Fate::Stays(watch) => {
                row[at] = watch;
                at += 1;
            }
            Fate::Asks(hint) => {
                if let Some(found) = examine(reasons, trail, hint)? {
                    return Ok(Some(found));
                }
                at += 1;
            }
        }
    }
    Ok(None)
}

/// Adds what the clauses that hints name force; or finds a false one.
pub fn visit_all(
    reasons: Reasons,
    hints: &[Hint],
    trail: &mut Trail,
) -> Result<Option<Hint>, AllocError>
    requires { IsTrail reasons.set.now reasons.log.now trail.old.marks.items trail.old.entries.items }
    ensures { IfOk result (λ found. IsPropagated reasons.entry.set.now reasons.entry.log.now trail.old.entries.items trail.new.marks.items trail.new.entries.items found) }
{
    for hint in hints {
        if let Some(found) = examine(reasons, trail, *hint)? {
            return Ok(Some(found));
        }
    }
    Ok(None)
}

/// Adds the literal that a clause forces, if it does; or answers the hint where the clause is false.
fn examine(reasons: Reasons, trail: &mut Trail, hint: Hint) -> Result<Option<Hint>, AllocError>
    requires { IsTrail reasons.set.now reasons.log.now trail.old.marks.items trail.old.entries.items }
    ensures { IfOk result (λ found. IsPropagated reasons.entry.set.now reasons.entry.log.now trail.old.entries.items trail.new.marks.items trail.new.entries.items found) }
{
    match reasons.find(hint) {
        None => Ok(None),
        Some(clause) => match look(trail.marks(), clause) {
            Finding::AllFalse => Ok(Some(hint)),
            Finding::Open => Ok(None),
            Finding::Unit(lit) => {
                trail.force(lit, hint)?;
                Ok(None)
            }
        },
    }
}
