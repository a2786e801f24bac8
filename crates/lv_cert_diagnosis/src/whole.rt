//! All lines of a certificate together.
#![tactic(auto)]

ghost use Rattle.std.specs.Prelude.{◌≡◌, ◌≤◌, IfOk};
ghost use Rattle.lv_base.specs.declared.limits.TheConstants.{TRACKED};
ghost use Rattle.lv_cert.specs.declared.line.Question.TheVariants.{Diagnosis};
ghost use Rattle.lv_system.specs.System.{IsSystemOf};
ghost use Rattle.lv_search_zones.specs.Moves.{move_slots, zones_from};
ghost use Rattle.lv_cert_writing.specs.Explained.{last_if_full as last_of_all};
ghost use Rattle.lv_cert_laws.specs.lv_cert_meaning.Certifying.{CertifiesDiagnosis, AreStates, AreFacts, IsSettledDiagnosis, AreFormed};
ghost use Rattle.lv_cert_diagnosis.specs.Showing.{targets_for, HoldsAnswer, HoldsSplits};

use crate::asking::Asking;
use crate::heading::head_of;
use crate::limit::Limit;
use crate::listing::push_listed;
use crate::refuting::push_blocks;
use lv_base::Seq;
use lv_boxes::Groups;
use lv_cert::{Cert, Line, Question};
use lv_cert_writing::stating::push_splits;
use lv_cert_writing::{Explanations, Refuter, Settled, Split, close, last_if_full};
use lv_meaning::Facts;
use lv_model::{Model, TrackedState};
use lv_search_zones::{move_grid, move_targets, zones_of};
use lv_system::StepSystem;
use std::alloc::{AllocError, Global};

/// What a diagnosis is asked: a model with its system, tracked states and facts of the model, and how many candidates are
/// sought.
#[derive(Clone, Copy)]
pub struct DiagnosisQuestion<'a> {
    pub model: &'a Model,
    pub system: &'a StepSystem,
    pub tracked: &'a [TrackedState],
    pub facts: &'a Facts,
    pub limit: Limit,
}

/// Adds what shows the answer: the lines of the listed candidates, and the blocks of the kept conflicts.
fn push_answer(
    alloc: Global,
    lines: &mut Vec<Line>,
    question: &DiagnosisQuestion<'_>,
    answer: &Settled<'_>,
) -> Result<(), AllocError>
    requires system { IsSystemOf question.now.model.now question.now.system.now }
    requires facts { AreFacts question.now.model.now question.now.facts.now }
    requires settled { IsSettledDiagnosis question.now.model.now question.now.tracked.now question.now.facts.now question.now.limit.most question.now.limit.distinct answer.now.listed.now answer.now.kept.now }
    ensures { IfOk result (λ _. HoldsAnswer question.now.model.now question.now.facts.now answer.now.listed.now answer.now.kept.now lines.old.items lines.new.items) }
{
    let asking = Asking::new(alloc, question.model, question.system, question.facts)?;
    let mut refuter = Refuter::new(alloc, question.system)?;
    push_listed(alloc, lines, &asking, &mut refuter, answer.listed)?;
    push_blocks(alloc, lines, &asking, &mut refuter, answer.kept)?;
    Ok(())
}

/// The targets of moves, where distinct targets are sought.
fn targets_of(alloc: Global, model: &Model, limit: Limit) -> Result<Option<Groups>, AllocError>
    ensures { IfOk result (λ targets. targets ≡ targets_for limit.distinct model.now) }
{
    if limit.distinct {
        Ok(Some(move_targets(alloc, model)?))
    } else {
        Ok(None)
    }
}

/// The splits after which each zone left is empty or ranks behind what is listed.
fn splits_of(
    alloc: Global,
    question: &DiagnosisQuestion<'_>,
    answer: &Settled<'_>,
) -> Result<Vec<Split>, AllocError>
    requires states { AreStates question.now.model.now question.now.tracked.now }
    requires some { 1 ≤ question.now.limit.most }
    requires settled { IsSettledDiagnosis question.now.model.now question.now.tracked.now question.now.facts.now question.now.limit.most question.now.limit.distinct answer.now.listed.now answer.now.kept.now }
    ensures { IfOk result (λ made. HoldsSplits (targets_for question.now.limit.distinct question.now.model.now) Diagnosis (move_slots question.now.model.now) (zones_from question.now.model.now 0 question.now.tracked.now) (last_of_all question.now.limit.most answer.now.listed.now) answer.now.listed.now answer.now.kept.now made.items) }
{
    let model = question.model;
    let limit = question.limit;
    let grid = move_grid(alloc, model)?;
    let zones = zones_of(alloc, model, question.tracked)?;
    let targets = targets_of(alloc, model, limit)?;
    let why = Explanations {
        question: Question::Diagnosis,
        targets: targets.as_ref(),
        excluded: answer.kept,
        listed: answer.listed,
        last: last_if_full(answer.listed, limit.most as usize),
    };
    close(alloc, &why, grid, zones)
}

/// A certificate of a settled diagnosis: it states the tracked states, the facts and the limit, and shows, line by line,
/// that what is listed are the first candidates that are possible, with distinct targets where these are sought.
pub fn certify_diagnosis(
    alloc: Global,
    question: &DiagnosisQuestion<'_>,
    answer: &Settled<'_>,
) -> Result<Cert, AllocError>
    requires system { IsSystemOf question.now.model.now question.now.system.now }
    requires states { AreStates question.now.model.now question.now.tracked.now }
    requires facts { AreFacts question.now.model.now question.now.facts.now }
    requires some { 1 ≤ question.now.limit.most }
    requires few { question.now.limit.most ≤ TRACKED }
    requires settled { IsSettledDiagnosis question.now.model.now question.now.tracked.now question.now.facts.now question.now.limit.most question.now.limit.distinct answer.now.listed.now answer.now.kept.now }
    ensures certifies { IfOk result (λ cert. CertifiesDiagnosis question.now.model.now question.now.tracked.now question.now.facts.now question.now.limit.most question.now.limit.distinct answer.now.listed.now cert.lines) }
    ensures formed { IfOk result (λ cert. AreFormed question.now.model.now cert.lines) }
{
    let model = question.model;
    let _plant = model.plant();
    let mut lines = head_of(
        alloc,
        model,
        question.tracked,
        question.facts,
        question.limit,
    )?;
    push_answer(alloc, &mut lines, question, answer)?;
    let made = splits_of(alloc, question, answer)?;
    push_splits(&mut lines, made.as_slice())?;
    lines.push(Line::End)?;
    Ok(Cert::new(Seq::from_vec(lines)))
}
