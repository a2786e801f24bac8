//! How often each boolean is claimed, and that it is assumed while it is.
#![tactic(auto)]

ghost use Rattle.std.specs.Prelude.{◌≡◌, ◌<◌, ◌+◌, ◌-◌, ◌^◌, true, IfOk, length, replicate, slice_set};
ghost use Rattle.lv_labels.specs.Claims.{count_at, AreAssumed};
ghost use Rattle.lv_labels.specs.Assuming.{IsClaim};

use lv_base::Lit;
use lv_ltms::Ltms;
use std::alloc::{AllocError, Global};

/// No boolean is claimed.
pub fn no_claims(alloc: Global, bools: u32) -> Result<Vec<u32>, AllocError>
    ensures { IfOk result (λ out. out.items ≡ replicate bools 0) }
{
    vec![in alloc; 0; bools as usize]
}

/// Claims a literal once more: it is assumed where it wasn't claimed.
pub fn add_claim(ltms: &mut Ltms, counts: &mut Vec<u32>, lit: Lit)
    requires claim { IsClaim (length counts.old.items) lit }
    requires assumed { AreAssumed counts.old.items ltms.old }
    ensures assumed { AreAssumed counts.new.items ltms.new }
    ensures clauses { ltms.new.clauses ≡ ltms.old.clauses }
    ensures counts { count_at counts.old.items lit.var.0 < 2 ^ 32 - 1 → counts.new.items ≡ slice_set counts.old.items lit.var.0 (count_at counts.old.items lit.var.0 + 1) }
    ensures len { length counts.new.items ≡ length counts.old.items }
{
    let index = lit.var.0 as usize;
    let count = counts[index];
    if count == 0 {
        counts[index] = 1;
        ltms.assume(lit);
        return;
    }
    counts[index] = count.saturating_add(1);
}

/// Claims a literal once less, if it is claimed: it is assumed no more where that was the last claim.
pub fn drop_claim(ltms: &mut Ltms, counts: &mut Vec<u32>, lit: Lit)
    requires claim { IsClaim (length counts.old.items) lit }
    requires assumed { AreAssumed counts.old.items ltms.old }
    ensures assumed { AreAssumed counts.new.items ltms.new }
    ensures clauses { ltms.new.clauses ≡ ltms.old.clauses }
    ensures counts { counts.new.items ≡ slice_set counts.old.items lit.var.0 (count_at counts.old.items lit.var.0 - 1) }
    ensures len { length counts.new.items ≡ length counts.old.items }
{
    let index = lit.var.0 as usize;
    let count = counts[index];
    if count == 1 {
        counts[index] = 0;
        ltms.retract(lit);
        return;
    }
    counts[index] = count.saturating_sub(1);
}
