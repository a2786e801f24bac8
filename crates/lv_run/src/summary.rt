//! The summary's lines: the number, and what the replies come to.
#![tactic(auto)]

ghost use Rattle.std.specs.Prelude.{◌≡◌, ◌++◌, IfOk};
ghost use Rattle.lv_run.specs.Drives.{summary_line, summary_text, drive_text};

use crate::tally::{Tally, tally_session};
use itoa::Buffer;
use lv_gen::make_session;
use lv_model::Model;
use std::alloc::{AllocError, Global};

/// Runs the session that a number stands for over a model, that of the number, and writes the summary.
pub fn drive(alloc: Global, number: u32, model: &Model) -> Result<Vec<u8>, AllocError>
    ensures { IfOk result (λ text. text.items ≡ drive_text model.now number) }
{
    let session = make_session(alloc, number)?;
    let tally = tally_session(alloc, model, session.as_slice())?;
    summary(alloc, number, &tally)
}

/// The summary of a number's session.
fn summary(alloc: Global, number: u32, tally: &Tally) -> Result<Vec<u8>, AllocError>
    ensures { IfOk result (λ text. text.items ≡ summary_text number tally.now) }
{
    let mut text = Vec::new(alloc);
    push_line(&mut text, b"drive ", number as u128)?;
    push_line(&mut text, b"replies ", tally.replies as u128)?;
    push_line(&mut text, b"errors ", tally.errors as u128)?;
    push_line(&mut text, b"settled ", tally.settled as u128)?;
    push_line(&mut text, b"unsettled ", tally.unsettled as u128)?;
    push_line(&mut text, b"trials ", tally.trials)?;
    push_line(&mut text, b"tracked ", tally.tracked as u128)?;
    Ok(text)
}

/// Adds a line of a word and a number.
fn push_line(out: &mut Vec<u8>, word: &[u8], number: u128) -> Result<(), AllocError>
    ensures { IfOk result (λ _. out.new.items ≡ out.old.items ++ summary_line word.now number) }
{
    out.extend_from_slice(word)?;
    let mut buffer = Buffer::new();
    out.extend_from_slice(buffer.format(number).as_bytes())?;
    out.extend_from_slice(b"\n")?;
    Ok(())
}
