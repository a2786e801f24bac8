//! The clauses of a set in a truth maintenance system.
#![tactic(auto)]

ghost use Rattle.std.specs.Prelude.{◌≡◌, [], IfOk, Some, None};
ghost use Rattle.lv_clauses.specs.ClauseMap.{clause_at};
ghost use Rattle.lv_clauses.specs.Marks.{nothing};
ghost use Rattle.lv_labels.specs.Copying.{AreCopied, AreSame};

use lv_base::ClauseId;
use lv_clauses::ClauseSet;
use lv_ltms::Ltms;
use std::alloc::{AllocError, Global};

/// Adds each clause of the set, in the order of their numbers.
fn copy_clauses(ltms: &mut Ltms, set: &ClauseSet) -> Result<(), AllocError>
    requires bools { ltms.old.bools ≡ set.now.bools }
    requires empty { ltms.old.clauses ≡ [] }
    ensures bools { ltms.new.bools ≡ ltms.old.bools }
    ensures assumed { ltms.new.assumed ≡ ltms.old.assumed }
    ensures same { IfOk result (λ _. AreSame set.now.slots ltms.new.clauses) }
{
    for n in 0..set.bound() {
        if let Some(lits) = set.find(ClauseId(n)) {
            ltms.add_clause(lits)?;
        }
    }
    Ok(())
}

/// The system of the set's clauses, with no assumptions.
pub fn ltms_of(alloc: Global, set: &ClauseSet) -> Result<Ltms, AllocError>
    ensures bools { IfOk result (λ s. s.bools ≡ set.now.bools) }
    ensures assumed { IfOk result (λ s. s.assumed ≡ nothing set.now.bools) }
    ensures same { IfOk result (λ s. AreSame set.now.slots s.clauses) }
{
    let mut ltms = Ltms::new(alloc, set.bools())?;
    copy_clauses(&mut ltms, set)?;
    Ok(ltms)
}
