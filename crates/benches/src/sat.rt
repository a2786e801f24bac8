//! Solves series of clauses, and prints what the answers came to: counts that are the same in each run. Each of its words
//! is one setting, with numbers behind spaces; what solving takes is measured from outside, by bench/sat.sh.
//!
//! | setting | calls |
//! |---|---|
//! | `random BOOLS CLAUSES SETS ROUNDS` | so many sets of clauses of three random literals, each solved in each round |
//! | `pigeons PIGEONS HOLES ROUNDS` | each pigeon in a hole, no two in one |
//! | `chain LENGTH ROUNDS` | each boolean implies the next: in each round with the first assumed true, then the last false too |
//! | `valves N CALLS` | the model of valves of the number N, each call with a random move assumed of each part |
//! | `turns N CALLS` | the same, but each call begins with the moves of the last one up to a random part |
//!
//! Behind the word `checked` the logs of the settings are checked too.
#![tactic(auto)]

mod setting;
mod tally;
mod valves;

use crate::literals::literal;
use crate::numbers::{Numbers, number_of};
use crate::settings::tell;
use lv_sat::Solver;
use std::alloc::{AllocError, Global};
use std::io;
use tally::{Checks, Tally};
use valves::Valves;

/// The seed of random clauses.
const CLAUSE_SEED: u64 = 1;

/// The word behind which logs are checked.
const CHECKED: &str = "checked";

/// Makes the calls of each setting.
pub fn run(rt: &impl Print, alloc: Global, words: &[String]) -> io::Result<()> {
    let mut checks = Checks::None;
    for word in words {
        if word.as_str() == CHECKED {
            checks = Checks::All;
        } else {
            let tally = tally_of(alloc, checks, word.as_str())?;
            tell(rt, word.as_str(), tally)?;
        }
    }
    Ok(())
}

/// What the calls of a setting came to; None where a word says no setting.
fn tally_of(alloc: Global, checks: Checks, setting: &str) -> Result<Option<Tally>, AllocError> {
    let mut tally = Tally::new(alloc, checks);
    if solve(alloc, &mut tally, setting)? {
        Ok(Some(tally))
    } else {
        Ok(None)
    }
}

/// Makes the calls of a setting; whether the word says one.
fn solve(alloc: Global, tally: &mut Tally, setting: &str) -> Result<bool, AllocError> {
    let words: Vec<&str> = setting.split_whitespace().collect(alloc)?;
    match words.as_slice() {
        ["random", bools, clauses, sets, rounds] => {
            let sizes = (number_of(bools), number_of(clauses));
            solve_random(alloc, tally, sizes, number_of(sets), number_of(rounds))?;
            Ok(true)
        }
        ["pigeons", pigeons, holes, rounds] => {
            let solver = setting::pigeons(alloc, number_of(pigeons), number_of(holes))?;
            solve_often(tally, solver, number_of(rounds))?;
            Ok(true)
        }
        ["chain", length, rounds] => {
            solve_chain(alloc, tally, number_of(length), number_of(rounds))?;
            Ok(true)
        }
        ["valves", n, calls] => solve_valves(alloc, tally, number_of(n), number_of(calls)),
        ["turns", n, calls] => solve_turns(alloc, tally, number_of(n), number_of(calls)),
        _ => Ok(false),
    }
}

/// Each of so many random sets solved in each round.
fn solve_random(
    alloc: Global,
    tally: &mut Tally,
    sizes: (u32, u32),
    sets: u32,
    rounds: u32,
) -> Result<(), AllocError> {
    let mut numbers = Numbers::new(CLAUSE_SEED);
    for _set in 0..sets {
        let solver = setting::random(alloc, sizes.0, sizes.1, &mut numbers)?;
        solve_often(tally, solver, rounds)?;
    }
    Ok(())
}

/// One set solved in each round, with nothing assumed.
fn solve_often(tally: &mut Tally, mut solver: Solver, rounds: u32) -> Result<(), AllocError> {
    for _round in 0..rounds {
        tally.solve(&mut solver, &[])?;
    }
    tally.end(&solver);
    Ok(())
}

/// A chain that holds with its first literal, and not with the negation of its last one too.
fn solve_chain(
    alloc: Global,
    tally: &mut Tally,
    length: u32,
    rounds: u32,
) -> Result<(), AllocError> {
    let mut solver = setting::chain(alloc, length)?;
    let first = literal(0, true);
    let last = literal(length.saturating_sub(1), false);
    for _round in 0..rounds {
        tally.solve(&mut solver, &[first])?;
        tally.solve(&mut solver, &[first, last])?;
    }
    tally.end(&solver);
    Ok(())
}

/// A random move of each part assumed in each call; whether there is such a model.
fn solve_valves(alloc: Global, tally: &mut Tally, n: u32, calls: u32) -> Result<bool, AllocError> {
    let Some(mut valves) = Valves::new(alloc, n)? else {
        return Ok(false);
    };
    for _call in 0..calls {
        let lits = valves.draw(alloc)?;
        tally.solve(&mut valves.solver, lits.as_slice())?;
    }
    tally.end(&valves.solver);
    Ok(true)
}

/// The same, but each call begins with the moves of the last one up to a random part.
fn solve_turns(alloc: Global, tally: &mut Tally, n: u32, calls: u32) -> Result<bool, AllocError> {
    let Some(mut valves) = Valves::new(alloc, n)? else {
        return Ok(false);
    };
    let mut lits = Vec::new(alloc);
    for _call in 0..calls {
        valves.turn(alloc, &mut lits)?;
        tally.solve(&mut valves.solver, lits.as_slice())?;
    }
    tally.end(&valves.solver);
    Ok(true)
}
