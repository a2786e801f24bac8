//! Runs sessions over models, and prints what their diagnoses did: counts that are the same in each run. What a session
//! takes is measured from outside, by bench/diagnose.sh.
//!
//! | setting | what is printed |
//! |---|---|
//! | `MODEL SESSION` | what each diagnosis did whose conflicts are shown, all together |
#![tactic(auto)]

mod tally;

use crate::models::in_file;
use crate::settings::tell;
use lv_io::{Role, Shelf, read_file};
use lv_model::Model;
use std::alloc::{AllocError, Global};
use std::io;
use tally::{Tally, tally_of};

/// The most bytes of a session's file.
const SESSION_BYTES: u64 = 16_000_000;

/// Runs the session of each setting.
pub fn run<F: Shelf>(
    rt: &impl Print,
    alloc: Global,
    shelf: &mut F,
    settings: &[String],
) -> io::Result<()> {
    for setting in settings {
        let tally = answer(alloc, shelf, setting.as_str())?;
        tell(rt, setting.as_str(), tally)?;
    }
    Ok(())
}

/// What a setting's session comes to; None where it names no model and session.
fn answer<F: Shelf>(
    alloc: Global,
    shelf: &mut F,
    setting: &str,
) -> Result<Option<Tally>, AllocError> {
    let words: Vec<&str> = setting.split_whitespace().collect(alloc)?;
    match words.as_slice() {
        [model, session] => match in_file(alloc, shelf, model) {
            Some(model) => over_model(alloc, shelf, &model, session),
            None => Ok(None),
        },
        _ => Ok(None),
    }
}

/// What the session in a file comes to over a model; None where there is no such file.
fn over_model<F: Shelf>(
    alloc: Global,
    shelf: &mut F,
    model: &Model,
    name: &str,
) -> Result<Option<Tally>, AllocError> {
    match read_file(alloc, shelf, Role::Second, name, SESSION_BYTES) {
        Ok(text) => Ok(Some(tally_of(alloc, model, text.as_slice())?)),
        Err(_) => Ok(None),
    }
}
