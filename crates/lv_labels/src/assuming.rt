//! Assumptions that come for a while: each that isn't there yet is added, and taken back in reverse order.
#![tactic(auto)]

ghost use Rattle.std.specs.Prelude.{◌≡◌, ◌<◌, ◌^◌, ◌||◌, [], IfOk, All, length};
ghost use Rattle.lv_base.specs.declared.ids.Lit.{Lit};
ghost use Rattle.lv_clauses.specs.Marks.{Marks, is_marked};
ghost use Rattle.lv_ltms.specs.System.{in_list};
ghost use Rattle.lv_labels.specs.Assuming.{IsClaim, AreTrue, Joins, IsOver, IsStacked, IsToldUnder};

use crate::labelling::Labelling;
use crate::reading::read;
use crate::values::Values;
use lv_base::Lit;
use lv_ltms::Ltms;
use std::alloc::{AllocError, Global};

/// Assumes a literal that isn't assumed, and notes it.
fn assume_one(ltms: &mut Ltms, lit: Lit, added: &mut Vec<Lit>) -> Result<(), AllocError>
    requires claim { IsClaim ltms.old.bools lit }
    requires positive { AreTrue ltms.old }
    ensures bools { ltms.new.bools ≡ ltms.old.bools }
    ensures clauses { ltms.new.clauses ≡ ltms.old.clauses }
    ensures positive { AreTrue ltms.new }
    ensures over { (base : Marks) → IsOver base added.old.items ltms.old.assumed → IsOver base added.new.items ltms.new.assumed }
    ensures joins { IfOk result (λ _. Joins ltms.old.assumed lit ltms.new.assumed) }
{
    if ltms.can_assume(lit) {
        added.push(lit)?;
        ltms.assume(lit);
    }
    Ok(())
}

/// Assumes those of the literals that aren't assumed, and notes them.
fn assume_all(ltms: &mut Ltms, lits: &[Lit], added: &mut Vec<Lit>) -> Result<(), AllocError>
    requires claims { All (IsClaim ltms.old.bools) lits.now }
    requires positive { AreTrue ltms.old }
    ensures bools { ltms.new.bools ≡ ltms.old.bools }
    ensures clauses { ltms.new.clauses ≡ ltms.old.clauses }
    ensures over { (base : Marks) → IsOver base added.old.items ltms.old.assumed → IsOver base added.new.items ltms.new.assumed }
    ensures joined { IfOk result (λ _. (m : Lit) → is_marked ltms.new.assumed m ≡ (is_marked ltms.old.assumed m || in_list lits.now m)) }
{
    for lit in lits {
        assume_one(ltms, *lit, added)?;
    }
    Ok(())
}

/// Takes back what was noted, the last first.
fn take_back(ltms: &mut Ltms, mut added: Vec<Lit>)
    requires { IsStacked added.items ltms.old.assumed }
    ensures bools { ltms.new.bools ≡ ltms.old.bools }
    ensures clauses { ltms.new.clauses ≡ ltms.old.clauses }
    ensures back { (base : Marks) → IsOver base added.items ltms.old.assumed → ltms.new.assumed ≡ base }
{
    while let Some(lit) = added.pop() {
        ltms.retract(lit);
    }
}

/// The labels under the assumptions present and these literals, which are noted.
fn told_with(
    alloc: Global,
    ltms: &mut Ltms,
    values: &Values,
    lits: &[Lit],
    added: &mut Vec<Lit>,
) -> Result<Labelling, AllocError>
    requires before { length values.now.before.sizes < 2 ^ 32 }
    requires after { length values.now.after.sizes < 2 ^ 32 }
    requires claims { All (IsClaim ltms.old.bools) lits.now }
    requires positive { AreTrue ltms.old }
    ensures bools { ltms.new.bools ≡ ltms.old.bools }
    ensures clauses { ltms.new.clauses ≡ ltms.old.clauses }
    ensures over { (base : Marks) → IsOver base added.old.items ltms.old.assumed → IsOver base added.new.items ltms.new.assumed }
    ensures told { IfOk result (IsToldUnder ltms.old lits.now values.now) }
{
    assume_all(ltms, lits, added)?;
    read(alloc, ltms, values)
}

/// The labels under the assumptions present and these literals, which are taken back.
pub fn told_under(
    alloc: Global,
    ltms: &mut Ltms,
    values: &Values,
    lits: &[Lit],
) -> Result<Labelling, AllocError>
    requires before { length values.now.before.sizes < 2 ^ 32 }
    requires after { length values.now.after.sizes < 2 ^ 32 }
    requires claims { All (IsClaim ltms.old.bools) lits.now }
    requires positive { AreTrue ltms.old }
    ensures bools { ltms.new.bools ≡ ltms.old.bools }
    ensures clauses { ltms.new.clauses ≡ ltms.old.clauses }
    ensures assumed { ltms.new.assumed ≡ ltms.old.assumed }
    ensures told { IfOk result (IsToldUnder ltms.old lits.now values.now) }
{
    let mut added = Vec::new(alloc);
    let told = told_with(alloc, ltms, values, lits, &mut added);
    take_back(ltms, added);
    told
}
