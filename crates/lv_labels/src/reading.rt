//! Labels as a truth maintenance system has them.
#![tactic(auto)]

ghost use Rattle.std.specs.Prelude.{◌≡◌, ◌<◌, ◌++◌, ◌^◌, IfOk, filter, length};
ghost use Rattle.lv_compile.specs.FormulaClauses.{size_of};
ghost use Rattle.lv_ltms.specs.Trail.{trail_has};
ghost use Rattle.lv_ltms.specs.System.{IsRefuted, IsWholeTrail};
ghost use Rattle.lv_labels.specs.Values.{booleans_at};
ghost use Rattle.lv_labels.specs.Labels.{value_labels, labels_from};
ghost use Rattle.lv_labels.specs.Assuming.{is_on_trail, IsRead};

use crate::labelling::Labelling;
use crate::values::Values;
use lv_base::{Lit, Seq, ValId, VarId};
use lv_ltms::{Label as Mark, Ltms, Status};
use lv_reply::{Label, Moment};
use std::alloc::{AllocError, Global};

/// Whether a literal is found.
fn is_found(ltms: &Ltms, lit: Lit) -> bool
    requires consistent { ¬ IsRefuted ltms.now }
    requires whole { IsWholeTrail ltms.now }
    ensures { result ≡ trail_has ltms.now.trail lit }
{
    match ltms.label(lit) {
        Mark::True => true,
        Mark::False => false,
        Mark::Unknown => false,
    }
}

/// Adds the labels of a variable: its values whose literals are found.
fn push_values(
    out: &mut Vec<Label>,
    ltms: &Ltms,
    values: &Values,
    moment: Moment,
    var: VarId,
) -> Result<(), AllocError>
    requires there { var.0 < length (booleans_at values.now moment).sizes }
    requires consistent { ¬ IsRefuted ltms.now }
    requires whole { IsWholeTrail ltms.now }
    ensures { IfOk result (λ _. out.new.items ≡ out.old.items ++ filter (is_on_trail ltms.now.trail values.now) (value_labels moment var.0 (size_of (booleans_at values.now moment) var.0))) }
{
    for n in 0..values.at(moment).size(var.0 as usize) {
        let val = ValId(n);
        if is_found(ltms, values.literal(moment, var, val)) {
            out.push(Label { moment, var, val })?;
        }
    }
    Ok(())
}

/// Adds the labels of all variables at a moment.
fn push_labels(
    out: &mut Vec<Label>,
    ltms: &Ltms,
    values: &Values,
    moment: Moment,
) -> Result<(), AllocError>
    requires few { length (booleans_at values.now moment).sizes < 2 ^ 32 }
    requires consistent { ¬ IsRefuted ltms.now }
    requires whole { IsWholeTrail ltms.now }
    ensures { IfOk result (λ _. out.new.items ≡ out.old.items ++ filter (is_on_trail ltms.now.trail values.now) (labels_from moment 0 (booleans_at values.now moment).sizes)) }
{
    for x in 0..values.at(moment).sizes().len() as u32 {
        push_values(out, ltms, values, moment, VarId(x))?;
    }
    Ok(())
}

/// The labels as the system has them, or that it is contradictory.
pub fn read(alloc: Global, ltms: &Ltms, values: &Values) -> Result<Labelling, AllocError>
    requires before { length values.now.before.sizes < 2 ^ 32 }
    requires after { length values.now.after.sizes < 2 ^ 32 }
    ensures { IfOk result (IsRead ltms.now values.now) }
{
    match ltms.status() {
        Status::Contradiction => Ok(Labelling::Contradiction),
        Status::Consistent => {
            let mut out = Vec::new(alloc);
            push_labels(&mut out, ltms, values, Moment::Now)?;
            push_labels(&mut out, ltms, values, Moment::Next)?;
            Ok(Labelling::Labels(Seq::from_vec(out)))
        }
    }
}
