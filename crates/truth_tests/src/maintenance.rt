//! Clauses and assumptions that come and go. Each call is made where its condition holds.
use crate::literals::{A, B, C, NOT_A, NOT_B};
use lv_base::{ClauseId, Lit};
use lv_clauses::is_clause;
use lv_ltms::{Label, Ltms, Reason, Status};
use std::alloc::AllocError;
use std::process::Abort;

fn add(ltms: &mut Ltms, lits: &[Lit]) -> Result<Option<ClauseId>, AllocError> {
    if is_clause(ltms.bools(), lits) {
        Ok(Some(ltms.add_clause(lits)?))
    } else {
        Ok(None)
    }
}

fn drop_clause(ltms: &mut Ltms, id: Option<ClauseId>) {
    if let Some(id) = id {
        if ltms.find_clause(id).is_some() {
            ltms.drop_clause(id);
        }
    }
}

fn assume(ltms: &mut Ltms, lit: Lit) {
    if ltms.can_assume(lit) {
        ltms.assume(lit);
    }
}

fn retract(ltms: &mut Ltms, lit: Lit) {
    if ltms.is_assumed(lit) {
        ltms.retract(lit);
    }
}

fn label(ltms: &Ltms, lit: Lit) -> Option<Label> {
    match ltms.status() {
        Status::Consistent => Some(ltms.label(lit)),
        Status::Contradiction => None,
    }
}

fn reason(ltms: &Ltms, lit: Lit) -> Option<Reason> {
    match ltms.status() {
        Status::Consistent => ltms.reason(lit),
        Status::Contradiction => None,
    }
}

fn core_size(ltms: &Ltms) -> Option<usize> {
    let mut out = [A; 3];
    if ltms.assumption_count() > out.len() {
        return None;
    }
    match ltms.status() {
        Status::Consistent => None,
        Status::Contradiction => Some(ltms.core(&mut out)),
    }
}

fn by_clause(id: Option<ClauseId>) -> Option<Reason> {
    match id {
        Some(id) => Some(Reason::Clause(id)),
        None => None,
    }
}

/// Asserts the labels of the three booleans, which are none while there is a contradiction.
fn labels_are(rt: &impl Abort, ltms: &Ltms, wanted: [Option<Label>; 3]) {
    let found = [label(ltms, A), label(ltms, B), label(ltms, C)];
    assert_eq!(rt; found, wanted);
}

fn reason_is(rt: &impl Abort, ltms: &Ltms, lit: Lit, wanted: Option<Reason>) {
    assert_eq!(rt; reason(ltms, lit), wanted);
}

const TRUE: Option<Label> = Some(Label::True);

const FALSE: Option<Label> = Some(Label::False);

const UNKNOWN: Option<Label> = Some(Label::Unknown);

fn contradiction_goes(rt: &impl Abort, ltms: &mut Ltms) -> Result<(), AllocError> {
    let not_both = add(ltms, &[NOT_A, NOT_B])?;
    assume(ltms, A);
    labels_are(rt, ltms, [TRUE, FALSE, UNKNOWN]);
    reason_is(rt, ltms, A, Some(Reason::Assumed));
    reason_is(rt, ltms, B, by_clause(not_both));
    reason_is(rt, ltms, C, None);
    assume(ltms, B);
    labels_are(rt, ltms, [None; 3]);
    assert!(rt; core_size(ltms) == Some(2));
    retract(ltms, A);
    labels_are(rt, ltms, [FALSE, TRUE, UNKNOWN]);
    Ok(())
}

#[test]
fn contradictions_go_with_their_assumption(rt: HostRuntime) -> Result<(), AllocError> {
    let mut ltms = Ltms::new(rt.alloc(), 3)?;
    contradiction_goes(&rt, &mut ltms)
}

fn label_is_kept(rt: &impl Abort, ltms: &mut Ltms) -> Result<(), AllocError> {
    let first = add(ltms, &[NOT_A, C])?;
    let second = add(ltms, &[NOT_B, C])?;
    assume(ltms, A);
    assume(ltms, B);
    labels_are(rt, ltms, [TRUE, TRUE, TRUE]);
    drop_clause(ltms, first);
    reason_is(rt, ltms, C, by_clause(second));
    retract(ltms, A);
    labels_are(rt, ltms, [UNKNOWN, TRUE, TRUE]);
    drop_clause(ltms, second);
    labels_are(rt, ltms, [UNKNOWN, TRUE, UNKNOWN]);
    Ok(())
}

#[test]
fn labels_keep_another_support(rt: HostRuntime) -> Result<(), AllocError> {
    let mut ltms = Ltms::new(rt.alloc(), 3)?;
    label_is_kept(&rt, &mut ltms)
}

fn empty_comes_and_goes(rt: &impl Abort, ltms: &mut Ltms) -> Result<(), AllocError> {
    let empty = add(ltms, &[])?;
    assert!(rt; ltms.status() == Status::Contradiction);
    assume(ltms, A);
    assert!(rt; ltms.status() == Status::Contradiction);
    drop_clause(ltms, empty);
    labels_are(rt, ltms, [TRUE, UNKNOWN, UNKNOWN]);
    Ok(())
}

#[test]
fn an_empty_clause_comes_and_goes(rt: HostRuntime) -> Result<(), AllocError> {
    let mut ltms = Ltms::new(rt.alloc(), 3)?;
    empty_comes_and_goes(&rt, &mut ltms)
}
