//! Small sets with both answers, and each refutation checked: each public call of the solver with ample memory. A test
//! makes a solver, and its steps take it by reference.
ghost use Rattle.std.specs.Prelude.{◌≡◌};

use crate::literals::{A, B, C, D, NOT_A, NOT_B, NOT_D};
use lv_base::{BoolId, ClauseId, Lit};
use lv_clauses::{ClauseSet, Log, is_clause, lit_holds, negation};
use lv_refcheck::check;
use lv_sat::{Answer, Solver};
use std::alloc::{AllocError, Global};

/// A solver over so many booleans.
fn solver_over(alloc: Global, bools: u32) -> Result<Solver, AllocError> {
    Solver::new(alloc, &ClauseSet::new(alloc, bools)?)
}

fn add(solver: &mut Solver, lits: &[Lit]) -> Result<Option<ClauseId>, AllocError> {
    if is_clause(solver.clauses().bools(), lits) {
        return Ok(Some(solver.add(lits)?));
    }
    Ok(None)
}

/// Takes away the clause of this number, if there is one, and answers whether there was.
fn remove(solver: &mut Solver, id: ClauseId) -> bool {
    let is_there = solver.clauses().contains(id);
    if is_there {
        solver.remove(id);
    }
    is_there
}

/// What the answer to a question is to be.
#[derive(Clone, Copy)]
enum Wanted {
    /// Values that satisfy the clauses and make the assumptions true.
    Values,
    /// A core of assumptions and a log that the checker accepts.
    Refutation,
    /// This core and a log that the checker accepts.
    Core(&'static [Lit]),
}

fn are_values(set: &ClauseSet, assumptions: &[Lit], values: &[bool]) -> bool {
    values.len() == set.bools() as usize
        && set.satisfied(values)
        && assumptions.iter().all(|lit| lit_holds(values, *lit))
}

fn is_core(assumptions: &[Lit], core: &[Lit], wanted: Wanted) -> bool {
    match wanted {
        Wanted::Values => false,
        Wanted::Refutation => core.iter().all(|lit| assumptions.contains(lit)),
        Wanted::Core(lits) => core == lits,
    }
}

/// Whether an answer is as wanted.
fn is_wanted(
    alloc: Global,
    set: &ClauseSet,
    assumptions: &[Lit],
    answer: &Answer,
    wanted: Wanted,
) -> Result<bool, AllocError> {
    match answer {
        Answer::Sat { values, log: _ } => Ok(
            matches!(wanted, Wanted::Values) && are_values(set, assumptions, values.as_slice()),
        ),
        Answer::Unsat { core, log } => Ok(
            is_core(assumptions, core.as_slice(), wanted) && check(alloc, set, log)?.is_none(),
        ),
    }
}

/// Whether the assumptions can be asked about and the answer is as wanted.
fn is_answered(
    alloc: Global,
    solver: &mut Solver,
    assumptions: &[Lit],
    wanted: Wanted,
) -> Result<bool, AllocError> {
    if !is_clause(solver.clauses().bools(), assumptions) {
        return Ok(false);
    }
    let answer = solver.solve(assumptions)?;
    is_wanted(alloc, solver.clauses(), assumptions, &answer, wanted)
}

/// What is done to a solver.
enum Step {
    /// Adds a clause, which gets this number.
    Adds(&'static [Lit], ClauseId),
    /// Takes away the clause of this number.
    Removes(ClauseId),
    /// Adds that so many pigeons sit in three holes, each in one of its own.
    Pigeons(u32),
    /// Asks under assumptions, and wants this answer.
    Asks(&'static [Lit], Wanted),
}

/// Steps of a solver over so many booleans.
struct Case {
    name: &'static str,
    bools: u32,
    steps: &'static [Step],
}

const CASES: &[Case] = &[
    Case {
        name: "no clause at all",
        bools: 2,
        steps: &[
            Step::Asks(&[], Wanted::Values),
            Step::Asks(&[NOT_B, A], Wanted::Values),
        ],
    },
    Case {
        name: "the empty clause",
        bools: 1,
        steps: &[
            Step::Adds(&[], ClauseId(0)),
            Step::Asks(&[A], Wanted::Core(&[])),
        ],
    },
    Case {
        name: "a core leaves out what is not needed",
        bools: 4,
        steps: &[
            Step::Adds(&[NOT_A, B], ClauseId(0)),
            Step::Adds(&[NOT_B, NOT_D], ClauseId(1)),
            Step::Asks(&[A, C], Wanted::Values),
            Step::Asks(&[C, D, A], Wanted::Core(&[D, A])),
        ],
    },
    Case {
        name: "three pigeons in three holes",
        bools: 12,
        steps: &[Step::Pigeons(3), Step::Asks(&[B], Wanted::Values)],
    },
    Case {
        name: "four pigeons in three holes",
        bools: 12,
        steps: &[Step::Pigeons(4), Step::Asks(&[], Wanted::Core(&[]))],
    },
];

/// Whether a step can be done and answers as wanted.
fn is_done(alloc: Global, solver: &mut Solver, step: &Step) -> Result<bool, AllocError> {
    match step {
        Step::Adds(lits, id) => Ok(add(solver, lits)? == Some(*id)),
        Step::Removes(id) => Ok(remove(solver, *id)),
        Step::Pigeons(count) => {
            add_pigeons(solver, *count)?;
            Ok(true)
        }
        Step::Asks(assumptions, wanted) => is_answered(alloc, solver, assumptions, *wanted),
    }
}

fn are_done(alloc: Global, solver: &mut Solver, steps: &[Step]) -> Result<bool, AllocError> {
    for step in steps {
        if !is_done(alloc, solver, step)? {
            return Ok(false);
        }
    }
    Ok(true)
}

fn is_met(alloc: Global, case: &Case) -> Result<bool, AllocError> {
    let mut solver = solver_over(alloc, case.bools)?;
    are_done(alloc, &mut solver, case.steps)
}

#[test]
fn steps_of_a_new_solver(rt: HostRuntime) -> Result<(), AllocError> {
    for case in CASES {
        assert!(rt; is_met(rt.alloc(), case)?, "{}", case.name);
    }
    Ok(())
}

const FIRST: ClauseId = ClauseId(0);

/// Where the first of two clauses has gone.
const FIRST_COMES_AND_GOES: &[Step] = &[
    Step::Asks(&[NOT_A], Wanted::Values),
    Step::Adds(&[A], FIRST),
    Step::Asks(&[NOT_B], Wanted::Refutation),
    Step::Removes(FIRST),
    Step::Asks(&[NOT_B], Wanted::Values),
];

/// Adds two clauses and takes away the first; answers whether it had its number.
fn first_goes(set: &mut ClauseSet) -> Result<bool, AllocError>
    requires { set.old.bools ≡ 2 }
{
    let first = set.add(&[A])?;
    set.add(&[NOT_A, B])?;
    set.remove(first);
    Ok(first == FIRST)
}

fn first_comes_and_goes(alloc: Global, set: &ClauseSet) -> Result<bool, AllocError> {
    let mut solver = Solver::new(alloc, set)?;
    are_done(alloc, &mut solver, FIRST_COMES_AND_GOES)
}

#[test]
fn clauses_of_a_solver_come_and_go(rt: HostRuntime) -> Result<(), AllocError> {
    let mut set = ClauseSet::new(rt.alloc(), 2)?;
    assert!(rt; first_goes(&mut set)?);
    assert!(rt; first_comes_and_goes(rt.alloc(), &set)?);
    Ok(())
}

/// Four pigeons, three holes: the boolean that a pigeon sits in a hole, each counted from 0.
fn sits(pigeon: u32, hole: u32) -> Lit {
    Lit {
        var: BoolId(pigeon.wrapping_mul(3).wrapping_add(hole)),
        sign: true,
    }
}

fn add_pigeon(solver: &mut Solver, pigeon: u32) -> Result<(), AllocError> {
    add(solver, &[sits(pigeon, 0), sits(pigeon, 1), sits(pigeon, 2)])?;
    Ok(())
}

/// No hole holds both.
fn set_apart(solver: &mut Solver, one: u32, two: u32) -> Result<(), AllocError> {
    for hole in 0..3 {
        add(
            solver,
            &[negation(sits(one, hole)), negation(sits(two, hole))],
        )?;
    }
    Ok(())
}

fn set_apart_from_earlier(solver: &mut Solver, pigeon: u32) -> Result<(), AllocError> {
    for other in 0..pigeon {
        set_apart(solver, pigeon, other)?;
    }
    Ok(())
}

/// Each pigeon sits, and no two of so many share a hole.
fn add_pigeons(solver: &mut Solver, count: u32) -> Result<(), AllocError> {
    for pigeon in 0..count {
        add_pigeon(solver, pigeon)?;
        set_apart_from_earlier(solver, pigeon)?;
    }
    Ok(())
}

/// The booleans of calls in a row, and how many calls there are.
const BOOLS: u32 = 12;

const CALLS: u32 = 200;

/// A number below this one, which follows from those drawn before.
fn draw(state: &mut u64, below: u32) -> u32 {
    *state = state
        .wrapping_mul(6_364_136_223_846_793_005)
        .wrapping_add(1_442_695_040_888_963_407);
    ((*state >> 33) % u64::from(below.max(1))) as u32
}

fn draw_literal(state: &mut u64) -> Lit {
    Lit {
        var: BoolId(draw(state, BOOLS)),
        sign: draw(state, 2) == 1,
    }
}

fn draw_three(state: &mut u64) -> [Lit; 3] {
    [
        draw_literal(state),
        draw_literal(state),
        draw_literal(state),
    ]
}

/// Adds clauses of three literals.
fn add_drawn(solver: &mut Solver, state: &mut u64) -> Result<(), AllocError> {
    for _clause in 0..36 {
        add(solver, &draw_three(state))?;
    }
    Ok(())
}

fn add_some_of(solver: &mut Solver, lits: &[Lit; 3], state: &mut u64) -> Result<(), AllocError> {
    let count = 1 + draw(state, 3) as usize;
    add(solver, &lits[..count.min(3)])?;
    Ok(())
}

/// Adds a clause of up to three literals, takes one away, or leaves all as they are.
fn change_clauses(solver: &mut Solver, state: &mut u64) -> Result<(), AllocError> {
    let lits = draw_three(state);
    match draw(state, 4) {
        0 => add_some_of(solver, &lits, state)?,
        1 => {
            remove(solver, ClauseId(draw(state, 60) as usize));
        }
        _ => {}
    }
    Ok(())
}

/// Keeps some first assumptions and adds others behind them.
fn change_assumptions(assumptions: &mut Vec<Lit>, state: &mut u64) -> Result<(), AllocError> {
    assumptions.truncate(draw(state, BOOLS) as usize);
    for _more in 0..draw(state, 5) {
        assumptions.push(draw_literal(state))?;
        if !is_clause(BOOLS, assumptions.as_slice()) {
            assumptions.pop();
        }
    }
    Ok(())
}

/// How a new solver of the same clauses answers.
fn new_answer(alloc: Global, set: &ClauseSet, assumptions: &[Lit]) -> Result<Wanted, AllocError> {
    let mut solver = Solver::new(alloc, set)?;
    if is_answered(alloc, &mut solver, assumptions, Wanted::Values)? {
        return Ok(Wanted::Values);
    }
    Ok(Wanted::Refutation)
}

/// Whether the solver answers as a new one does, and a core is of assumptions.
fn agrees(alloc: Global, solver: &mut Solver, assumptions: &[Lit]) -> Result<bool, AllocError> {
    let wanted = new_answer(alloc, solver.clauses(), assumptions)?;
    is_answered(alloc, solver, assumptions, wanted)
}

fn next_agrees(
    alloc: Global,
    solver: &mut Solver,
    assumptions: &mut Vec<Lit>,
    state: &mut u64,
) -> Result<bool, AllocError> {
    change_clauses(solver, state)?;
    change_assumptions(assumptions, state)?;
    agrees(alloc, solver, assumptions.as_slice())
}

fn all_agree(alloc: Global, solver: &mut Solver) -> Result<bool, AllocError> {
    let mut state = 1;
    add_drawn(solver, &mut state)?;
    let mut assumptions = Vec::new(alloc);
    for _call in 0..CALLS {
        if !next_agrees(alloc, solver, &mut assumptions, &mut state)? {
            return Ok(false);
        }
    }
    Ok(true)
}

#[test]
fn calls_in_a_row_answer_as_new_solvers_do(rt: HostRuntime) -> Result<(), AllocError> {
    let mut solver = solver_over(rt.alloc(), BOOLS)?;
    assert!(rt; all_agree(rt.alloc(), &mut solver)?);
    Ok(())
}

/// The answer to a question that can be asked.
fn ask(solver: &mut Solver, assumptions: &[Lit]) -> Result<Option<Answer>, AllocError> {
    if !is_clause(solver.clauses().bools(), assumptions) {
        return Ok(None);
    }
    Ok(Some(solver.solve(assumptions)?))
}

fn has_core(answer: &Option<Answer>, lits: &[Lit]) -> bool {
    match answer {
        Some(Answer::Unsat { core, log: _ }) => core.as_slice() == lits,
        Some(Answer::Sat { .. }) | None => false,
    }
}

fn are_same_steps(one: &Log, other: &Log) -> bool {
    if one.len() != other.len() {
        return false;
    }
    for place in 0..one.len() {
        let (step, like) = (one.step(place), other.step(place));
        if step.clause.as_slice() != like.clause.as_slice()
            || step.hints.as_slice() != like.hints.as_slice()
        {
            return false;
        }
    }
    true
}

/// Whether both are the same refutation.
fn are_same(one: &Option<Answer>, other: &Option<Answer>) -> bool {
    match (one, other) {
        (
            Some(Answer::Unsat { core, log }),
            Some(
                Answer::Unsat {
                    core: lits,
                    log: steps,
                },
            ),
        ) => { core.as_slice() == lits.as_slice() && are_same_steps(log, steps) }
        _ => false,
    }
}

/// Whether a question is answered like this without a search.
fn is_told_again(
    solver: &mut Solver,
    assumptions: &[Lit],
    answer: &Option<Answer>,
) -> Result<bool, AllocError> {
    let before = solver.effort();
    let again = ask(solver, assumptions)?;
    Ok(solver.effort() == before.with_call() && are_same(answer, &again))
}

/// Whether a refutation of two assumptions is told again for more of them, and with a clause more, which alone would refute
/// the first.
fn stays_told(solver: &mut Solver) -> Result<bool, AllocError> {
    add(solver, &[NOT_A, B])?;
    add(solver, &[NOT_B, NOT_D])?;
    let first = ask(solver, &[A, D])?;
    if !has_core(&first, &[A, D]) || !is_told_again(solver, &[A, C, D], &first)? {
        return Ok(false);
    }
    add(solver, &[NOT_A])?;
    is_told_again(solver, &[C, A, D], &first)
}

/// Whether all is refuted anew once the first clause is gone.
fn is_told_anew(solver: &mut Solver) -> Result<bool, AllocError> {
    if !remove(solver, FIRST) {
        return Ok(false);
    }
    let anew = ask(solver, &[A, C, D])?;
    Ok(has_core(&anew, &[A]))
}

#[test]
fn a_refutation_is_told_again_until_a_clause_goes(rt: HostRuntime) -> Result<(), AllocError> {
    let mut solver = solver_over(rt.alloc(), 4)?;
    assert!(rt; stays_told(&mut solver)?);
    assert!(rt; is_told_anew(&mut solver)?);
    Ok(())
}
