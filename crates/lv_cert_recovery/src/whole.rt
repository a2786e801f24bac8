//! All lines of a certificate together.
#![tactic(auto)]

ghost use Rattle.std.specs.Prelude.{◌≡◌, [], IfOk};
ghost use Rattle.lv_system.specs.System.{IsSystemOf};
ghost use Rattle.lv_cert_laws.specs.lv_cert_meaning.Certifying.{CertifiesRecovery, IsAsked, AreTexts, IsSettledRecovery, AreFormed};
ghost use Rattle.lv_cert_writing.specs.Lines.{split_lines};
ghost use Rattle.lv_cert_recovery.specs.Closing.{AreClosing};
ghost use Rattle.lv_cert_recovery.specs.Leading.{asked, excluding, standing, LeadsOn};

use crate::asking::Asking;
use crate::excluding::push_blocks;
use crate::heading::head_of;
use crate::showing::push_recovery;
use lv_base::{Seq, pairs_of};
use lv_cert::{Cert, Line, Question};
use lv_cert_writing::stating::push_splits;
use lv_cert_writing::{Explanations, Refuter, Settled, Split, close, last_if_full};
use lv_meaning::Aim;
use lv_model::Model;
use lv_search_zones::{command_grid, command_zone};
use lv_system::StepSystem;
use std::alloc::{AllocError, Global};

/// What a recovery is asked: a model with its system, and an aim of the model, whose goals have these texts.
#[derive(Clone, Copy)]
pub struct RecoveryQuestion<'a> {
    pub model: &'a Model,
    pub system: &'a StepSystem,
    pub aim: &'a Aim,
    pub texts: &'a [Seq<u8>],
}

/// Adds the lines of the recovery, if one is listed.
fn push_listed(
    asking: &Asking,
    refuter: &mut Refuter<'_>,
    lines: &mut Vec<Line>,
    answer: &Settled<'_>,
) -> Result<(), AllocError>
    requires refuter { refuter.old ≡ asking.now.system }
    requires given { IsSettledRecovery asking.now.plant asking.now.aim answer.now.listed.now answer.now.kept.now }
    ensures told { IfOk result (λ _. LeadsOn asking.now.plant asking.now.aim (standing asked [] []) (standing excluding answer.now.listed.now []) lines.old.items lines.new.items) }
    ensures kept { refuter.new ≡ refuter.old }
{
    let _aim = asking.aim();
    match answer.listed.first() {
        Some(rank) => {
            let pairs = pairs_of(asking.alloc(), rank.choices.as_slice())?;
            push_recovery(asking, refuter, pairs.as_slice(), lines)
        }
        None => Ok(()),
    }
}

/// Adds what shows the answer: the lines of the recovery, and the blocks of the kept conflicts.
fn push_answer(
    asking: &Asking,
    lines: &mut Vec<Line>,
    answer: &Settled<'_>,
) -> Result<(), AllocError>
    requires { IsSettledRecovery asking.now.plant asking.now.aim answer.now.listed.now answer.now.kept.now }
    ensures { IfOk result (λ _. LeadsOn asking.now.plant asking.now.aim (standing asked [] []) (standing excluding answer.now.listed.now answer.now.kept.now) lines.old.items lines.new.items) }
{
    let mut refuter = asking.refuter()?;
    push_listed(asking, &mut refuter, lines, answer)?;
    push_blocks(asking, &mut refuter, answer.kept, lines)
}

/// The splits that leave no command set open.
fn splits_of(
    alloc: Global,
    model: &Model,
    aim: &Aim,
    answer: &Settled<'_>,
) -> Result<Vec<Split>, AllocError>
    requires { IsSettledRecovery model.now aim.now answer.now.listed.now answer.now.kept.now }
    ensures { IfOk result (λ made. AreClosing model.now answer.now.listed.now answer.now.kept.now (split_lines made.items)) }
{
    let _plant = model.plant();
    let grid = command_grid(alloc, model)?;
    let mut zones = Vec::new(alloc);
    zones.push(command_zone(alloc, model)?)?;
    let why = Explanations {
        question: Question::Recovery,
        targets: None,
        excluded: answer.kept,
        listed: answer.listed,
        last: last_if_full(answer.listed, 1),
    };
    close(alloc, &why, grid, zones)
}

/// A certificate of a settled recovery: it states the tracked states, what is seen and the goals, and shows, line by line,
/// that what is given is the first command set that recovers, or that none does.
pub fn certify_recovery(
    alloc: Global,
    question: &RecoveryQuestion<'_>,
    answer: &Settled<'_>,
) -> Result<Cert, AllocError>
    requires system { IsSystemOf question.now.model.now question.now.system.now }
    requires asked { IsAsked question.now.model.now question.now.aim.now }
    requires texts { AreTexts question.now.model.now question.now.texts.now question.now.aim.now.goals }
    requires settled { IsSettledRecovery question.now.model.now question.now.aim.now answer.now.listed.now answer.now.kept.now }
    ensures certifies { IfOk result (λ cert. CertifiesRecovery question.now.model.now question.now.aim.now answer.now.listed.now cert.lines) }
    ensures formed { IfOk result (λ cert. AreFormed question.now.model.now cert.lines) }
{
    let model = question.model;
    let aim = question.aim;
    let _plant = model.plant();
    let mut lines = head_of(alloc, model, aim, question.texts)?;
    let asking = Asking::new(alloc, model, question.system, aim)?;
    push_answer(&asking, &mut lines, answer)?;
    let made = splits_of(alloc, model, aim, answer)?;
    push_splits(&mut lines, made.as_slice())?;
    lines.push(Line::End)?;
    Ok(Cert::new(Seq::from_vec(lines)))
}
