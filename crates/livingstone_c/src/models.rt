//! What C calls of models.
#![tactic(auto)]

ghost use Rattle.std.specs.Prelude.{◌≡◌, ◌≢◌, ◌≤◌, None, IfSome};
ghost use Rattle.std.specs.Option.{IsSomeAnd};
ghost use Rattle.lv_checker.specs.Verdicts.{IsVerdict, accepted};
ghost use Rattle.lv_certcheck.specs.Verdicts.{IsVerdictOn, ProvesItsAnswer};
ghost use Rattle.lv_certcheck.specs.declared.check.Verdict.TheVariants as Verdict;
ghost use Rattle.livingstone_c.specs.Answers.{IsRefusedAs};

use crate::accepted::Accepted;
use crate::model_handle::ModelHandle;
use lv_certcheck::{Verdict, check_text};
use lv_model::Model;
use lv_reader::ModelFault;
use std::alloc::Global;

/// Why a model's text is refused, by the number of the reason, and on which line.
#[repr(C)]
#[derive(Drop)]
pub struct Refusal {
    pub number: u32,
    pub line: u64,
}

/// Opens the model that a text gives: 0, or 1 with the refusal, or 2.
#[unsafe(no_mangle)]
pub extern "C" fn lv_open_model(
    alloc: Global,
    model: &mut ModelHandle,
    text: &[u8],
    refusal: &mut Refusal,
) -> u32
    requires closed { model.old.held ≡ None }
    ensures done { result ≡ 0 → IsSomeAnd model.new.held (λ held. IsVerdict text.now (accepted held.model.now)) }
    ensures compiled { IfSome model.new.held (λ held. held.compiled.now ≡ held.model.now) }
    ensures refused { result ≡ 1 → IsRefusedAs text.now refusal.new.number refusal.new.line }
    ensures closed { result ≢ 0 → model.new.held ≡ None }
    ensures number { result ≤ 2 }
{
    match Accepted::of(alloc, text) {
        Ok(held) => {
            *model = ModelHandle::of(held);
            0
        }
        Err(ModelFault::At { code, line }) => {
            refusal.number = code.number();
            refusal.line = line as u64;
            1
        }
        Err(ModelFault::Memory) => 2,
    }
}

/// Closes a model. What its sessions share stays where it is.
#[unsafe(no_mangle)]
pub extern "C" fn lv_close_model(alloc: Global, model: &mut ModelHandle)
    requires open { model.old.held ≢ None }
    ensures closed { model.new.held ≡ None }
{
    let _held = model.take(alloc);
}

/// Judges the text of a certificate over a model: 0 where it is valid, 1 with the first bad line, or 2.
#[unsafe(no_mangle)]
pub extern "C" fn lv_check(
    alloc: Global,
    model: &mut ModelHandle,
    certificate: &[u8],
    bad_line: &mut u64,
) -> u32
    requires open { model.old.held ≢ None }
    ensures model { model.new.held ≡ model.old.held }
    ensures valid { result ≡ 0 → IsSomeAnd model.old.held (λ held. IsVerdictOn held.model.now certificate.now Verdict.Valid) }
    ensures proves { result ≡ 0 → IsSomeAnd model.old.held (λ held. ProvesItsAnswer held.model.now certificate.now) }
    ensures invalid { result ≡ 1 → IsSomeAnd model.old.held (λ held. IsVerdictOn held.model.now certificate.now (Verdict.Invalid bad_line.new)) }
    ensures number { result ≤ 2 }
{
    let held = model.take(alloc);
    let number = judge(alloc, held.model, certificate, bad_line);
    *model = ModelHandle::of(held);
    number
}

/// The same over the model itself.
fn judge(alloc: Global, model: &Model, certificate: &[u8], bad_line: &mut u64) -> u32
    ensures valid { result ≡ 0 → IsVerdictOn model.now certificate.now Verdict.Valid }
    ensures proves { result ≡ 0 → ProvesItsAnswer model.now certificate.now }
    ensures invalid { result ≡ 1 → IsVerdictOn model.now certificate.now (Verdict.Invalid bad_line.new) }
    ensures number { result ≤ 2 }
{
    match check_text(alloc, model, certificate) {
        Ok(Verdict::Valid) => 0,
        Ok(Verdict::Invalid(line)) => {
            *bad_line = line;
            1
        }
        Err(_) => 2,
    }
}
