//! Compiles models to clauses. Each of its words is one setting, with its own words behind spaces; what compiling takes is
//! measured from outside, by bench/compile.sh.
//!
//! | setting | what is printed |
//! |---|---|
//! | `list FILE` | the clauses of the model in the file, one a line behind its number, literals as numbers from 1 on, with a minus where false |
//! | `compile FILE ROUNDS` | the model compiled so often: how many booleans, clauses and literals it has |
//! | `hold FILE COUNT` | how many systems of the model are held at once at the end |
#![tactic(auto)]

mod clauses;

use crate::models::in_file;
use crate::numbers::number_of;
use crate::settings::NO_SETTING;
use clauses::{hold, list, tally_of};
use lv_io::Shelf;
use std::alloc::{AllocError, Global};
use std::io;

/// Prints what each setting asks for.
pub fn run<F: Shelf>(
    rt: &impl Print,
    alloc: Global,
    shelf: &mut F,
    settings: &[String],
) -> io::Result<()> {
    for setting in settings {
        let text = answer(alloc, shelf, setting.as_str())?;
        print!(rt; "{text}")?;
    }
    Ok(())
}

/// What is printed for a setting.
fn answer<F: Shelf>(alloc: Global, shelf: &mut F, setting: &str) -> Result<String, AllocError> {
    let words: Vec<&str> = setting.split_whitespace().collect(alloc)?;
    match words.as_slice() {
        ["list", name] => {
            let model = in_file(alloc, shelf, name);
            list(alloc, &model)
        }
        ["compile", name, rounds] => {
            let model = in_file(alloc, shelf, name);
            tally_of(alloc, &model, number_of(rounds))
        }
        ["hold", name, count] => {
            let model = in_file(alloc, shelf, name);
            hold(alloc, &model, number_of(count))
        }
        _ => format!(in alloc; "{NO_SETTING}\n"),
    }
}
