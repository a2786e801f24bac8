//! Certificates of the current query: whether one is due, and its text.
//!
//! What the search came to is kept beside the state; the lines that certify it are made where one is asked for.
#![tactic(auto)]

ghost use Rattle.std.specs.Prelude.{◌≡◌, ◌≤◌, ℕ, IfOk, length, true};
ghost use Rattle.lv_session_state.specs.lv_system.System.{IsSystemOf};
ghost use Rattle.lv_cert_diagnosis.specs.lv_cert_meaning.Certifying.{CertifiesDiagnosis, CertifiesRecovery, IsSettledDiagnosis, IsSettledRecovery, AreFormed};
ghost use Rattle.lv_session_state.specs.State.{facts_of, aim_of, walked, recovery};
ghost use Rattle.lv_session.specs.Session.{is_certifiable, certificate};
ghost use Rattle.lv_session_state.specs.States.{IsStateOf};
ghost use Rattle.lv_session_state.specs.Current.{kept_walk, IsCurrent};
ghost use Rattle.lv_session.specs.Certificates.{CertifiesWalked, CertifiesRecovered, Certifies};

use lv_cert::{Cert, write_cert};
use lv_cert_diagnosis::{DiagnosisQuestion, Limit, Settled as SettledDiagnosis, certify_diagnosis};
use lv_cert_recovery::{RecoveryQuestion, Settled as SettledRecovery, certify_recovery};
use lv_model::Model;
use lv_reply::{Refusal, Reply};
use lv_session_state::{Query, Running, State, StepSystem, texts_of};
use std::alloc::{AllocError, Global};

/// Whether there are certificates of the current query, where this is kept of it.
fn is_certifiable(state: &State, model: &Model, running: &Running<'_>) -> bool
    requires { IsCurrent model.now state.now running.now }
    ensures { result ≡ is_certifiable state.now.query model.now state.now }
{
    match state.query() {
        Query::Absent => false,
        Query::Diagnosis(_) => state.is_settled(model, running),
        Query::Recovery(_) => state.is_settled(model, running),
        Query::Test(_, _) => false,
        Query::Window(_, _) => false,
    }
}

/// The reply to `certificate`.
pub(crate) fn certificate(state: &State, model: &Model, running: &Running<'_>) -> Reply
    requires { IsCurrent model.now state.now running.now }
    ensures { record { state = state.now; reply = result } ≡ certificate state.now.query model.now state.now }
{
    if is_certifiable(state, model, running) {
        Reply::Certificate
    } else {
        Reply::Refused(Refusal::NoQuery)
    }
}

/// A certificate of a settled diagnosis of the state.
fn diagnosis_certificate<'a>(
    state: &'a State,
    alloc: Global,
    model: &'a Model,
    system: &'a StepSystem,
    running: &Running<'_>,
) -> Result<Cert, AllocError>
    requires state { IsStateOf model.now state.now }
    requires system { IsSystemOf model.now system.now }
    requires settled { IsSettledDiagnosis model.now state.now.tracked (facts_of state.now) state.now.k state.now.distinct (kept_walk running.now).listed (kept_walk running.now).kept }
    ensures certifies { IfOk result (λ cert. CertifiesDiagnosis model.now state.now.tracked (facts_of state.now) state.now.k state.now.distinct (kept_walk running.now).listed cert.lines) }
    ensures formed { IfOk result (λ cert. AreFormed model.now cert.lines) }
{
    let facts = state.facts(alloc)?;
    let answer = SettledDiagnosis {
        listed: running.listed(),
        kept: running.conflicts(),
    };
    let question = DiagnosisQuestion {
        model,
        system,
        tracked: state.tracked().as_slice(),
        facts: &facts,
        limit: Limit {
            most: state.k(),
            distinct: state.is_distinct(),
        },
    };
    let cert = certify_diagnosis(alloc, &question, &answer);
    let SettledDiagnosis { listed: _, kept: _ } = answer;
    cert
}

/// The text of a certificate of a settled diagnosis of the state.
fn diagnosis_text(
    state: &State,
    alloc: Global,
    model: &Model,
    system: &StepSystem,
    running: &Running<'_>,
) -> Result<Vec<u8>, AllocError>
    requires state { IsStateOf model.now state.now }
    requires system { IsSystemOf model.now system.now }
    requires settled { IsSettledDiagnosis model.now state.now.tracked (facts_of state.now) state.now.k state.now.distinct (kept_walk running.now).listed (kept_walk running.now).kept }
    ensures { (sum : ℕ) → walked model.now state.now sum ≡ kept_walk running.now → IfOk result (λ text. CertifiesWalked model.now state.now sum text.items) }
{
    let cert = diagnosis_certificate(state, alloc, model, system, running)?;
    write_cert(alloc, &cert)
}

/// A certificate of a settled recovery from the state.
fn recovery_certificate<'a>(
    state: &State,
    alloc: Global,
    model: &'a Model,
    system: &'a StepSystem,
    running: &Running<'_>,
) -> Result<Cert, AllocError>
    requires state { IsStateOf model.now state.now }
    requires system { IsSystemOf model.now system.now }
    requires some { 1 ≤ length state.now.goals }
    requires settled { IsSettledRecovery model.now (aim_of state.now) (kept_walk running.now).listed (kept_walk running.now).kept }
    ensures certifies { IfOk result (λ cert. CertifiesRecovery model.now (aim_of state.now) (kept_walk running.now).listed cert.lines) }
    ensures formed { IfOk result (λ cert. AreFormed model.now cert.lines) }
{
    let _tracked = state.tracked().as_slice();
    let aim = state.aim(alloc)?;
    let texts = texts_of(alloc, state.goals())?;
    let answer = SettledRecovery {
        listed: running.listed(),
        kept: running.conflicts(),
    };
    let question = RecoveryQuestion {
        model,
        system,
        aim: &aim,
        texts: texts.as_slice(),
    };
    let cert = certify_recovery(alloc, &question, &answer);
    let SettledRecovery { listed: _, kept: _ } = answer;
    cert
}

/// The text of a certificate of a settled recovery from the state.
fn recovery_text(
    state: &State,
    alloc: Global,
    model: &Model,
    system: &StepSystem,
    running: &Running<'_>,
) -> Result<Vec<u8>, AllocError>
    requires state { IsStateOf model.now state.now }
    requires system { IsSystemOf model.now system.now }
    requires some { 1 ≤ length state.now.goals }
    requires settled { IsSettledRecovery model.now (aim_of state.now) (kept_walk running.now).listed (kept_walk running.now).kept }
    ensures { (sum : ℕ) → recovery model.now state.now sum ≡ kept_walk running.now → IfOk result (λ text. CertifiesRecovered model.now state.now sum text.items) }
{
    let cert = recovery_certificate(state, alloc, model, system, running)?;
    write_cert(alloc, &cert)
}

/// The text of a certificate of the current query, which is settled.
pub(crate) fn certificate_text(
    state: &State,
    alloc: Global,
    model: &Model,
    system: &StepSystem,
    running: &Running<'_>,
) -> Result<Vec<u8>, AllocError>
    requires state { IsStateOf model.now state.now }
    requires system { IsSystemOf model.now system.now }
    requires running { IsCurrent model.now state.now running.now }
    requires settled { is_certifiable state.now.query model.now state.now ≡ true }
    ensures { IfOk result (λ text. Certifies state.now.query model.now state.now text.items) }
{
    match state.query() {
        Query::Diagnosis(_) => diagnosis_text(state, alloc, model, system, running),
        Query::Recovery(_) => recovery_text(state, alloc, model, system, running),
        Query::Absent => unreachable!(),
        Query::Test(_, _) => unreachable!(),
        Query::Window(_, _) => unreachable!(),
    }
}
