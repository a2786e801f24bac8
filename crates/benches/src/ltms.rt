//! Assumes and retracts literals of a truth maintenance system many times over, and prints what became of them: counts
//! that are the same in each run. Each of its words is one setting, with numbers behind spaces; what the calls take is
//! measured from outside, by bench/ltms.sh.
//!
//! | setting | calls |
//! |---|---|
//! | `chain LENGTH ROUNDS` | in each round the first literal of a chain of implications is assumed and retracted |
//! | `random BOOLS CLAUSES HELD CALLS ROUNDS` | in each round random literals are assumed over clauses of three random literals and, once so many are held, the oldest retracted; at its end all |
//! | `count BOOLS CLAUSES HELD CALLS` | one such round, with a look at every label after each call |
#![tactic(auto)]

mod held;
mod rounds;
mod setting;
mod tally;

use crate::numbers::number_of;
use crate::settings::tell;
use held::Sizes;
use std::alloc::{AllocError, Global};
use std::io;
use tally::Tally;

/// Makes the calls of each setting.
pub fn run(rt: &impl Print, alloc: Global, settings: &[String]) -> io::Result<()> {
    for setting in settings {
        let tally = tally_of(alloc, setting.as_str())?;
        tell(rt, setting.as_str(), tally)?;
    }
    Ok(())
}

/// What the calls of a setting came to; None where a word says no setting.
fn tally_of(alloc: Global, setting: &str) -> Result<Option<Tally>, AllocError> {
    let words: Vec<&str> = setting.split_whitespace().collect(alloc)?;
    match words.as_slice() {
        ["chain", length, rounds] => {
            let tally = rounds::chain(alloc, number_of(length), number_of(rounds))?;
            Ok(Some(tally))
        }
        ["random", bools, clauses, held, calls, rounds] => {
            let sizes = sizes_of(bools, clauses, held, calls);
            let tally = rounds::random(alloc, sizes, number_of(rounds))?;
            Ok(Some(tally))
        }
        ["count", bools, clauses, held, calls] => {
            let tally = rounds::count(alloc, sizes_of(bools, clauses, held, calls))?;
            Ok(Some(tally))
        }
        _ => Ok(None),
    }
}

fn sizes_of(bools: &str, clauses: &str, held: &str, calls: &str) -> Sizes {
    Sizes {
        bools: number_of(bools),
        clauses: number_of(clauses),
        held: number_of(held),
        calls: number_of(calls),
    }
}
