//! The benches, in one program: it runs parts of what the repository is made of many times over, and prints counts that
//! are the same in each run. What they take is measured from outside, by the scripts of bench/. The first word chooses a
//! bench; the words behind it are the bench's own, and its module says what they mean.
//!
//! | first word | what is run |
//! |---|---|
//! | `boxes` | the calls of a best-first search on zones and kept conflicts |
//! | `ltms` | a truth maintenance system |
//! | `refcheck` | the check of a log |
//! | `sat` | the solver |
//! | `compile` | the compiler of models |
//! | `session` | sessions over models |
//!
//! Behind the word `then` another bench may follow, with its own words.
#![tactic(auto)]

mod bench;
mod boxes;
mod compile;
mod literals;
mod ltms;
mod models;
mod numbers;
mod refcheck;
mod sat;
mod session;
mod settings;

use bench::{Bench, BenchWords};
use lv_io::{HostShelf, Shelf};
use std::alloc::Global;
use std::{env, io};

/// The word behind which another bench follows.
const THEN: &str = "then";

fn main(rt: HostRuntime) -> io::Result<()> {
    let alloc = rt.alloc();
    let words: Vec<String> = env::args(&rt)?.skip(1).collect(alloc)?;
    let mut shelf = HostShelf::new(alloc, &rt);
    for call in words.as_slice().split(|word| word.as_str() == THEN) {
        run(&rt, alloc, &mut shelf, call)?;
    }
    Ok(())
}

/// Runs the bench that the first word chooses. Where it chooses none it tells which words do.
fn run<F: Shelf>(
    rt: &impl Print,
    alloc: Global,
    shelf: &mut F,
    words: &[String],
) -> io::Result<()> {
    let Some((word, own)) = words.split_first() else {
        return println!(rt; "no bench; the benches are{BenchWords}");
    };
    match Bench::of_word(word.as_str()) {
        Some(bench) => bench.run(rt, alloc, shelf, own),
        None => println!(rt; "{word}: no bench; the benches are{BenchWords}"),
    }
}
