//! The benches, and the words that choose them.
#![tactic(auto)]

use crate::{boxes, compile, ltms, refcheck, sat, session};
use lv_io::Shelf;
use std::alloc::Global;
use std::fmt::{self, Formatter, Write};
use std::io;

/// What can be run.
#[derive(Clone, Copy, Debug, PartialEq, Eq)]
pub enum Bench {
    Boxes,
    Ltms,
    Refcheck,
    Sat,
    Compile,
    Session,
}

/// Each bench behind the word that chooses it.
const BENCHES: [(&str, Bench); 6] = [
    ("boxes", Bench::Boxes),
    ("ltms", Bench::Ltms),
    ("refcheck", Bench::Refcheck),
    ("sat", Bench::Sat),
    ("compile", Bench::Compile),
    ("session", Bench::Session),
];

impl Bench {
    /// The bench that a word chooses; None where it chooses none.
    pub fn of_word(word: &str) -> Option<Bench> {
        for (name, bench) in &BENCHES {
            if *name == word {
                return Some(*bench);
            }
        }
        None
    }

    /// Runs the bench with the words that stand behind its own.
    pub fn run<F: Shelf>(
        self,
        rt: &impl Print,
        alloc: Global,
        shelf: &mut F,
        words: &[String],
    ) -> io::Result<()> {
        match self {
            Bench::Boxes => boxes::run(rt, alloc, words),
            Bench::Ltms => ltms::run(rt, alloc, words),
            Bench::Refcheck => refcheck::run(rt, alloc, words),
            Bench::Sat => sat::run(rt, alloc, words),
            Bench::Compile => compile::run(rt, alloc, shelf, words),
            Bench::Session => session::run(rt, alloc, shelf, words),
        }
    }
}

/// The words that choose benches, each behind a space.
#[derive(Clone, Copy, Debug)]
pub struct BenchWords;

impl fmt::Display for BenchWords {
    fn fmt<W: Write>(&self, f: &mut Formatter<W>) -> fmt::Result {
        for (name, _) in &BENCHES {
            write!(f, " {name}")?;
        }
        Ok(())
    }
}
