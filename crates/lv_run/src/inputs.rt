//! What the program reads and makes: the model's text, the model that it gives or its canonical text, and what is made
//! for a number.

ghost use Rattle.std.specs.Prelude.{◌≡◌, ◌≢◌, Some, IfOk, IfErr, IfSome};
ghost use Rattle.lv_checker.specs.Verdicts.{IsVerdict, accepted};
ghost use Rattle.lv_gen.specs.Series.{model_text};
ghost use Rattle.lv_run.specs.Inputs as Inputs;
ghost use Rattle.lv_checker.specs.Standing.{IsPrinted};
ghost use Rattle.lv_run.specs.Inputs.{IsDriven, OpensModel};
ghost use Rattle.lv_run.specs.Faults.{EndsModel, RefusesBy};

use crate::fault::RunFault;
use crate::summary::drive;
use lv_base::limits::MODEL_BYTES;
use lv_checker::{model_of, printed_model};
use lv_gen::{make_model, make_session};
use lv_io::{ReadFault, Role, Shelf, read_file};
use lv_model::Model;
use lv_reader::ModelCode;
use lv_run_words::Kind;
use std::alloc::{AllocError, Global};

/// Opens the model's file and reads it to its end. A text over its limit is refused.
fn load_text<F: Shelf>(alloc: Global, shelf: &mut F, name: &str) -> Result<Vec<u8>, RunFault>
    // What was read.
    ensures text { IfOk result (λ bytes. IfSome (F.file shelf.old name.now) (λ text. text ≡ bytes.items)) }
    ensures refused { IfErr result (λ fault. RefusesBy fault (F.file shelf.old name.now)) }
    ensures ends { IfErr result EndsModel }

    // What is recorded, whose fault it was, and what stays.
    ensures opens { OpensModel name.now result (F.opens shelf.old) (F.opens shelf.new) (F.faults shelf.old) (F.faults shelf.new) }
    ensures files { F.file shelf.new ≡ F.file shelf.old }
{
    match read_file(alloc, shelf, Role::Model, name, MODEL_BYTES) {
        Ok(text) => Ok(text),
        Err(ReadFault::Failed) => Err(RunFault::ModelUnread),
        Err(ReadFault::TooLong) => Err(RunFault::ModelRefused {
            code: ModelCode::TextTooLong,
            line: 0,
        }),
        Err(ReadFault::Memory) => Err(RunFault::OutOfMemory),
    }
}

/// The model that the bytes give.
fn accepted_model(alloc: Global, bytes: &[u8]) -> Result<Model, RunFault>
    ensures model { IfOk result (λ model. IsVerdict bytes.now (accepted model)) }
    ensures refused { IfErr result (λ fault. RefusesBy fault (Some bytes.now)) }
    ensures ends { IfErr result EndsModel }
    ensures read { result ≢ Err RunFault.ModelUnread }
{
    Ok(model_of(alloc, bytes)?)
}

/// The canonical text of the model that the bytes give.
fn canonical_text(alloc: Global, bytes: &[u8]) -> Result<Vec<u8>, RunFault>
    ensures text { IfOk result (λ canonical. IsPrinted bytes.now canonical.items) }
    ensures refused { IfErr result (λ fault. RefusesBy fault (Some bytes.now)) }
    ensures ends { IfErr result EndsModel }
    ensures read { result ≢ Err RunFault.ModelUnread }
{
    Ok(printed_model(alloc, bytes)?)
}

/// Opens the model's file, reads it to its end and checks it.
pub fn load_model<F: Shelf>(alloc: Global, shelf: &mut F, name: &str) -> Result<Model, RunFault>
    // What was read.
    ensures model { IfOk result (λ model. IfSome (F.file shelf.old name.now) (λ text. IsVerdict text (accepted model))) }
    ensures refused { IfErr result (λ fault. RefusesBy fault (F.file shelf.old name.now)) }
    ensures ends { IfErr result EndsModel }

    // What is recorded, whose fault it was, and what stays.
    ensures opens { OpensModel name.now result (F.opens shelf.old) (F.opens shelf.new) (F.faults shelf.old) (F.faults shelf.new) }
    ensures files { F.file shelf.new ≡ F.file shelf.old }
{
    let text = load_text(alloc, shelf, name)?;
    accepted_model(alloc, text.as_slice())
}

/// Opens the model's file, reads it to its end and checks it, and makes its canonical text.
pub fn load_canonical<F: Shelf>(
    alloc: Global,
    shelf: &mut F,
    name: &str,
) -> Result<Vec<u8>, RunFault>
    // What was read.
    ensures model { IfOk result (λ canonical. IfSome (F.file shelf.old name.now) (λ text. IsPrinted text canonical.items)) }
    ensures refused { IfErr result (λ fault. RefusesBy fault (F.file shelf.old name.now)) }
    ensures ends { IfErr result EndsModel }

    // What is recorded, and whose fault it was.
    ensures opens { OpensModel name.now result (F.opens shelf.old) (F.opens shelf.new) (F.faults shelf.old) (F.faults shelf.new) }
{
    let text = load_text(alloc, shelf, name)?;
    canonical_text(alloc, text.as_slice())
}

/// The summary of the session of a number over the model of the number.
pub fn load_summary(alloc: Global, number: u32) -> Result<Vec<u8>, RunFault>
    ensures text { IfOk result (λ summary. IsDriven number summary.items) }
    ensures refused { IfErr result (λ fault. RefusesBy fault (Some (model_text number))) }
    ensures ends { IfErr result EndsModel }
    ensures read { result ≢ Err RunFault.ModelUnread }
{
    let text = make_model(alloc, number)?;
    let model = accepted_model(alloc, text.as_slice())?;
    Ok(drive(alloc, number, &model)?)
}

/// The text of a kind that a number stands for.
pub fn made_text(alloc: Global, kind: Kind, number: u32) -> Result<Vec<u8>, AllocError>
    ensures { IfOk result (λ text. text.items ≡ Inputs.made_text kind number) }
{
    match kind {
        Kind::Model => make_model(alloc, number),
        Kind::Session => make_session(alloc, number),
    }
}
