//! The text of a recovery or a test: what it costs, and the controls that don't rest.
#![tactic(auto)]

ghost use Rattle.std.specs.Prelude.{◌≡◌, ◌+◌, ◌++◌, [], ◌∷◌, IfOk, drop, decimal, codes};
ghost use Rattle.lv_model.specs.Lists.{controls};
ghost use Rattle.lv_reply.specs.Variables.{setting_text};
ghost use Rattle.lv_reply.specs.Recovery.{shown_setting, shown_settings, commands_text, undecided_text};

use crate::pieces::{push_joined, push_number};
use crate::variables::push_equation;
use lv_base::{Rank, Seq, ValId, VarId};
use lv_model::{Model, Name};
use std::alloc::{AllocError, Global};

/// A value that a control is set to.
pub fn text_of_setting(
    alloc: Global,
    model: &Model,
    control: VarId,
    value: u32,
) -> Result<Vec<u8>, AllocError>
    ensures { IfOk result (λ out. out.items ≡ setting_text model.now control.0 value) }
{
    let mut out = Vec::new(alloc);
    push_equation(&mut out, model, b"=", control, ValId(value))?;
    Ok(out)
}

/// Adds what a control of this value shows: nothing where it rests.
fn push_shown(
    alloc: Global,
    out: &mut Vec<Name>,
    model: &Model,
    control: VarId,
    value: u32,
) -> Result<(), AllocError>
    ensures { IfOk result (λ _. out.new.items ≡ out.old.items ++ shown_setting model.now control value) }
{
    if value != 0 {
        out.push(Seq::from_vec(text_of_setting(alloc, model, control, value)?))?;
    }
    Ok(())
}

/// What the controls of these values show, in order.
fn shown_settings(
    alloc: Global,
    model: &Model,
    controls: &[VarId],
    values: &[u32],
) -> Result<Vec<Name>, AllocError>
    ensures { IfOk result (λ out. out.items ≡ shown_settings model.now controls.now values.now) }
{
    let mut out = Vec::new(alloc);
    for (i, control) in controls.iter().enumerate() {
        if i >= values.len() {
            return Ok(out);
        }
        push_shown(alloc, &mut out, model, *control, values[i])?;
    }
    Ok(out)
}

/// The text of an answer that is a setting of the controls: the rank's choices are the controls' values. The answer is
/// `recovery` or `test`.
#[tactic(auto, unfolding(crate::specs::Recovery::commands_text))]
pub fn commands_text(
    alloc: Global,
    answer: &[u8],
    model: &Model,
    rank: &Rank,
) -> Result<Vec<u8>, AllocError>
    ensures { IfOk result (λ out. out.items ≡ commands_text answer.now model.now rank.now) }
{
    let controls = model.controls(alloc)?;
    let settings = shown_settings(alloc, model, controls.as_slice(), rank.choices.as_slice())?;
    let mut out = Vec::from_slice(alloc, answer)?;
    out.extend_from_slice(b" cost ")?;
    push_number(&mut out, rank.cost.0)?;
    out.extend_from_slice(b": ")?;
    push_joined(&mut out, settings.as_slice())?;
    out.extend_from_slice(b"\n")?;
    Ok(out)
}

/// The text of a recovery or a test that isn't settled after so many trials.
#[tactic(auto, unfolding(crate::specs::Recovery::undecided_text))]
pub fn undecided_text(alloc: Global, trials: u64) -> Result<Vec<u8>, AllocError>
    ensures { IfOk result (λ out. out.items ≡ undecided_text trials) }
{
    let mut out = Vec::from_slice(alloc, b"unsettled trials ")?;
    push_number(&mut out, trials)?;
    out.extend_from_slice(b"\n")?;
    Ok(out)
}
