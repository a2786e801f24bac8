//! Checks a long log many times over, and prints what the checker answered and what it read: counts that are the same
//! in each run. Its two words say how many steps the log has, and how many rounds of the check are run; what a round
//! takes is measured from outside, by bench/refcheck.sh.
#![tactic(auto)]

mod chain;
mod reading;

use crate::numbers::number_at;
use chain::Chain;
use std::alloc::Global;
use std::io;

/// Makes the log, and checks it in so many rounds.
pub fn run(rt: &impl Print, alloc: Global, words: &[String]) -> io::Result<()> {
    let chain = Chain::new(alloc, number_at(words, 0))?;
    let read = reading::of_log(&chain.set, &chain.log);
    println!(rt;
        "log: {} steps, {} hints, {} of them earlier steps, {} literals of hinted clauses and steps",
        chain.log.len(),
        read.hints,
        read.earlier,
        read.literals
    )?;
    let rounds = number_at(words, 1);
    let good = reading::good_rounds(alloc, &chain, rounds)?;
    println!(rt; "check: no bad step in {good} of {rounds} rounds")
}
