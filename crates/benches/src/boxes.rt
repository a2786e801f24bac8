//! Runs the calls of a best-first search on zones and kept conflicts many times over, and prints what they answered:
//! counts and sums that are the same in each run. Its three words say how many rounds of each call are run; what a
//! round takes is measured from outside, by bench/boxes.sh.
//!
//! | word | call |
//! |---|---|
//! | 1 | `Grid::write_best` on 256 slots of 4 choices |
//! | 2 | `split` of a zone of 256 slots by 256 pairs |
//! | 3 | `Store::contained_in` over 10,000 conflicts of 4 pairs on 256 slots |
#![tactic(auto)]

mod rounds;
mod setting;

use crate::numbers::number_at;
use std::alloc::Global;
use std::io;

/// Runs each call in as many rounds as its word says.
pub fn run(rt: &impl Print, alloc: Global, words: &[String]) -> io::Result<()> {
    let written = rounds::write_best(alloc, number_at(words, 0))?;
    println!(rt;
        "write_best: {} members, sum of costs {}",
        written.count, written.sum
    )?;
    let parts = rounds::split_zone(alloc, number_at(words, 1))?;
    println!(rt;
        "split: {} parts, sum of least costs {}",
        parts.count, parts.sum
    )?;
    let contained = rounds::contained_in(alloc, number_at(words, 2))?;
    println!(rt;
        "contained_in: {} found, sum of places {}",
        contained.count, contained.sum
    )
}
