//! Each public call once, with ample memory. A test makes the arena, and its steps take it by reference.
ghost use Rattle.std.specs.Prelude.{◌≡◌};

use crate::literals::{A, B, C, NOT_A, NOT_B};
use lv_base::{ClauseId, Lit};
use lv_clauses::*;
use std::alloc::{AllocError, Global};
use std::process::Abort;

fn ids_are(alloc: Global, set: &ClauseSet, ids: &[ClauseId]) -> Result<bool, AllocError> {
    Ok(set.ids(alloc)?.as_slice() == ids)
}

fn lits_are(set: &ClauseSet, id: ClauseId, lits: &[Lit]) -> bool {
    set.contains(id) && set.get(id) == lits
}

fn is_satisfied_where_all_are(set: &ClauseSet) -> bool
    requires { set.now.bools ≡ 3 }
{
    set.satisfied(&[true, true, true])
        && !set.satisfied(&[false, true, true])
        && !set.satisfied(&[true, true, false])
}

fn second_goes(rt: &impl Abort, set: &mut ClauseSet, second: ClauseId)
    requires { set.old.bools ≡ 3 }
{
    assert!(rt; set.contains(second));
    set.remove(second);
    assert!(rt; set.satisfied(&[true, true, false]));
    assert!(rt; set.find(second).is_none());
}

fn two_come_one_goes(rt: &impl Abort, alloc: Global, set: &mut ClauseSet) -> Result<(), AllocError>
    requires { set.old.bools ≡ 3 }
{
    let first = set.add(&[A, NOT_B])?;
    let second = set.add(&[C])?;
    assert!(rt; first != second && lits_are(set, first, &[A, NOT_B]));
    assert!(rt; is_satisfied_where_all_are(set));
    second_goes(rt, set, second);
    assert!(rt; ids_are(alloc, set, &[first])?);
    Ok(())
}

#[test]
fn clauses_come_and_go(rt: HostRuntime) -> Result<(), AllocError> {
    let mut set = ClauseSet::new(rt.alloc(), 3)?;
    assert!(rt; set.bools() == 3);
    two_come_one_goes(&rt, rt.alloc(), &mut set)
}

fn empty_comes_and_goes(rt: &impl Abort, set: &mut ClauseSet) -> Result<(), AllocError>
    requires { set.old.bools ≡ 2 }
{
    set.add(&[A])?;
    let empty = set.add(&[])?;
    assert!(rt; set.contains(empty));
    assert!(rt; set.get(empty).is_empty());
    assert!(rt; !set.satisfied(&[true, true]));
    set.remove(empty);
    assert!(rt; !set.contains(empty));
    assert!(rt; set.satisfied(&[true, true]));
    Ok(())
}

#[test]
fn empty_clause_comes_and_goes(rt: HostRuntime) -> Result<(), AllocError> {
    let mut set = ClauseSet::new(rt.alloc(), 2)?;
    empty_comes_and_goes(&rt, &mut set)
}

/// Adds two clauses and takes the first away again; answers their numbers.
fn first_goes(rt: &impl Abort, set: &mut ClauseSet) -> Result<(ClauseId, ClauseId), AllocError>
    requires { set.old.bools ≡ 2 }
    ensures { set.new.bools ≡ set.old.bools }
{
    let first = set.add(&[A])?;
    let second = set.add(&[B])?;
    assert!(rt; set.contains(first));
    set.remove(first);
    Ok((first, second))
}

fn third_takes_number(rt: &impl Abort, alloc: Global, set: &mut ClauseSet) -> Result<(), AllocError>
    requires { set.old.bools ≡ 2 }
{
    let (first, second) = first_goes(rt, set)?;
    let third = set.add(&[NOT_A, NOT_B])?;
    assert!(rt; third == first);
    assert!(rt; lits_are(set, second, &[B]) && lits_are(set, third, &[NOT_A, NOT_B]));
    assert!(rt; second.0 < set.bound());
    assert!(rt; ids_are(alloc, set, &[third, second])?);
    Ok(())
}

#[test]
fn number_is_given_again(rt: HostRuntime) -> Result<(), AllocError> {
    let mut set = ClauseSet::new(rt.alloc(), 2)?;
    third_takes_number(&rt, rt.alloc(), &mut set)
}

fn holds_of_values(rt: &impl Abort, clause: &[Lit]) {
    assert!(rt; clause == &[A, NOT_B][..]);
    assert!(rt; clause_holds(&[false, false], clause));
    assert!(rt; !clause_holds(&[false, true], clause));
}

#[test]
fn literals_say_of_values(rt: HostRuntime) -> Result<(), AllocError> {
    let clause = Clause::from_slice(rt.alloc(), &[A, negation(B)])?;
    holds_of_values(&rt, clause.lits());
    assert!(rt; lit_holds(&[true], A));
    Ok(())
}

const FINDINGS: [([Option<bool>; 3], Finding); 4] = [
    ([None, None, None], Finding::Open),
    ([Some(false), Some(true), None], Finding::Unit(C)),
    ([Some(false), Some(true), Some(true)], Finding::Unit(C)),
    ([Some(false), Some(true), Some(false)], Finding::AllFalse),
];

#[test]
fn clauses_are_looked_at(rt: HostRuntime) {
    let clause = [A, NOT_B, C];
    for (marks, finding) in &FINDINGS {
        assert_eq!(rt; look(marks, &clause), *finding);
    }
    assert!(rt; is_marked(&[Some(true)], A) && !is_marked(&[None], NOT_A));
}
