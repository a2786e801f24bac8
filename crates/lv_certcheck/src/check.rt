//! The verdict on a certificate.
#![tactic(auto)]

ghost use Rattle.std.specs.Prelude.{◌≡◌, IfOk};
ghost use Rattle.lv_cert_laws.specs.lv_cert_meaning.Judging as Judging;
ghost use Rattle.lv_cert_laws.specs.lv_cert_meaning.Laws.{AnswersRight};
ghost use Rattle.lv_certcheck.specs.Settings.{IsSetting, plant_of};
ghost use Rattle.lv_certcheck.specs.Giving.{Fits};
ghost use Rattle.lv_certcheck.specs.Judges.{Judges};
ghost use Rattle.lv_certcheck.specs.Verdicts.{judged_of, verdict, IsVerdictOn, ProvesItsAnswer};
ghost use Rattle.lv_certcheck.specs.declared.check.Verdict.TheVariants as Verdict;

use crate::judge::Judge;
use crate::judged::Judged;
use crate::setting::Setting;
use crate::stated::Stated;
use lv_boxes::{Grid, Zone};
use lv_cert::{Cert, CertFault, Line, Question, read_cert};
use lv_cert_meaning::{Block, Counts, Space};
use lv_model::Model;
use lv_model_names::Lists;
use lv_search_zones::{command_grid, command_zone, move_grid, move_targets};
use lv_system::{StepSystem, compile};
use std::alloc::{AllocError, Global};

/// What a certificate is worth.
#[derive(Clone, Copy, Debug, PartialEq, Eq)]
pub enum Verdict {
    /// No line is bad: what it lists is the answer to what it states.
    Valid,
    /// The first bad line, counted from 1.
    Invalid(u64),
}

/// What the first line asks.
fn question_of(lines: &[Line]) -> Question
    ensures { result ≡ Judging.question_of lines.now }
{
    match lines {
        [Line::Certificate(question), ..] => *question,
        _ => Question::Diagnosis,
    }
}

/// The space before any line: a diagnosis has no zones yet, a recovery has the zone of all command sets.
fn first_space(alloc: Global, model: &Model, question: Question) -> Result<Space, AllocError>
    ensures { IfOk result (λ space. space ≡ (Judging.unjudged model.now question).space) }
{
    let mut zones: Vec<Zone> = Vec::new(alloc);
    match question {
        Question::Diagnosis => Space::new(alloc, move_grid(alloc, model)?, zones),
        Question::Recovery => {
            zones.push(command_zone(alloc, model)?)?;
            Space::new(alloc, command_grid(alloc, model)?, zones)
        }
    }
}

/// What is judged before any line.
fn unjudged<'a>(
    alloc: Global,
    setting: &Setting<'a>,
    question: Question,
) -> Result<Judged<'a>, AllocError>
    requires { IsSetting setting.now }
    ensures judged { IfOk result (λ j. judged_of j ≡ Judging.unjudged (plant_of setting.now) question) }
    ensures fits { IfOk result (λ j. Fits (plant_of setting.now) setting.now.system.now j) }
{
    let k = match question {
        Question::Diagnosis => 0,
        Question::Recovery => 1,
    };
    let space = first_space(alloc, setting.model, question)?;
    // What is large comes last, so that no exit lets go of it.
    Ok(Judged {
        stated: Stated::new(alloc, k),
        space,
        listed: Vec::new(alloc),
        excluded: Vec::new(alloc),
        aimed: None,
        before: None,
        block: Block::new(alloc, setting.system)?,
    })
}

/// The verdict on lines, of which none was judged yet.
fn judge_on<'a>(
    judge: &Judge<'a>,
    judged: &mut Judged<'a>,
    lines: &[Line],
) -> Result<Verdict, AllocError>
    requires judges { Judges judge.now judged.old }
    requires question { judge.now.question ≡ Judging.question_of lines.now }
    requires start { judged_of judged.old ≡ Judging.unjudged (plant_of judge.now.setting) judge.now.question }
    ensures { IfOk result (λ v. v ≡ verdict (plant_of judge.now.setting) lines.now) }
{
    for (at, line) in lines.iter().enumerate() {
        if !judge.line(judged, &lines[at + 1..], line)? {
            return Ok(Verdict::Invalid(at as u64 + 1));
        }
    }
    Ok(Verdict::Valid)
}

/// The verdict on lines in a setting.
fn judge_lines(judge: &Judge<'_>, lines: &[Line]) -> Result<Verdict, AllocError>
    requires setting { IsSetting judge.now.setting }
    requires question { judge.now.question ≡ Judging.question_of lines.now }
    ensures { IfOk result (λ v. v ≡ verdict (plant_of judge.now.setting) lines.now) }
{
    let mut judged = unjudged(judge.alloc, &judge.setting, judge.question)?;
    judge_on(judge, &mut judged, lines)
}

/// The verdict on a certificate, whoever put it together: what is valid answers rightly what it states.
pub fn check_cert(alloc: Global, model: &Model, cert: &Cert) -> Result<Verdict, AllocError>
    ensures verdict { IfOk result (λ v. v ≡ verdict model.now cert.now.lines) }
    ensures proves { IfOk result (λ v. v ≡ Verdict.Valid → AnswersRight model.now cert.now.lines) }
{
    let _plant = model.plant();
    let verdict = check_lines(alloc, model, cert.lines())?;
    Ok(verdict)
}

/// The verdict on lines.
fn check_lines(alloc: Global, model: &Model, lines: &[Line]) -> Result<Verdict, AllocError>
    ensures { IfOk result (λ v. v ≡ verdict model.now lines.now) }
{
    let lists = Lists::of(alloc, model)?;
    let counts = Counts::of(alloc, model)?;
    let targets = move_targets(alloc, model)?;
    // What is large comes last, so that no exit lets go of it.
    let system = compile(alloc, model)?;
    let setting = Setting {
        model,
        system: &system,
        lists: &lists,
        counts: &counts,
        targets: &targets,
    };
    let judge = Judge {
        alloc,
        question: question_of(lines),
        setting,
    };
    judge_lines(&judge, lines)
}

/// The verdict on bytes that are read as they stand: the first line out of form or order comes before every bad one.
fn verdict_on(alloc: Global, model: &Model, bytes: &[u8]) -> Result<Verdict, AllocError>
    ensures { IfOk result (λ v. IsVerdictOn model.now bytes.now v) }
{
    match read_cert(alloc, bytes) {
        Ok(cert) => check_cert(alloc, model, &cert),
        Err(CertFault::Form(line)) => Ok(Verdict::Invalid(line)),
        Err(CertFault::Memory) => Err(AllocError),
    }
}

/// The verdict on bytes, whoever wrote them: the first line out of form or order comes before every bad one, and what is
/// valid proves its answer, in words of its lines alone.
pub fn check_text(alloc: Global, model: &Model, bytes: &[u8]) -> Result<Verdict, AllocError>
    ensures verdict { IfOk result (λ v. IsVerdictOn model.now bytes.now v) }
    ensures proves { IfOk result (λ v. v ≡ Verdict.Valid → ProvesItsAnswer model.now bytes.now) }
{
    let _plant = model.plant();
    let verdict = verdict_on(alloc, model, bytes)?;
    Ok(verdict)
}
