//! What is replied to a line, and its text.
#![tactic(auto)]

ghost use Rattle.std.specs.Prelude.{◌≡◌, ◌++◌, IfOk, codes};
ghost use Rattle.lv_reply.specs.Texts.{reply_text};
ghost use Rattle.lv_plant.specs.Replies.{fault_code, goals_word, held_word, front_text, commit_text, findings_text, step_text, plant_text};

use crate::fault::PlantFault;
use itoa::Buffer;
use lv_base::{Seq, ValId};
use lv_model::{Model, Plant};
use lv_reply::states::push_modes;
use lv_reply::{Reply, write_reply};
use std::alloc::{AllocError, Global};

/// Whether the goals that are held are true after a step.
#[derive(Clone, Copy, Debug, PartialEq, Eq)]
pub enum GoalsTold {
    /// None is held.
    NoGoals,
    /// All are true.
    Met,
    /// Some is false.
    Open,
}

/// What is told of a step of the plant.
#[derive(Debug, Drop)]
pub struct StepTold {
    /// How many steps the plant has made.
    pub time: u64,
    /// The mode of each part after it.
    pub modes: Seq<ValId>,
    /// The reply of the diagnosis that follows.
    pub diagnosis: Reply,
    /// The reply of the commit, or none where the plant is halted.
    pub commit: Option<Reply>,
    /// Whether a tracked state has the plant's modes.
    pub is_held: bool,
    pub goals: GoalsTold,
}

/// The reply to a line.
#[derive(Debug, Drop)]
pub enum PlantReply {
    /// Nothing is said.
    Silence,
    /// The line was carried out.
    Accepted,
    Refused(PlantFault),
    /// What the session replied.
    Told(Reply),
    /// The plant made a step.
    Moved(StepTold),
}

fn fault_code(fault: PlantFault) -> &'static str
    ensures { result.now ≡ fault_code fault }
{
    match fault {
        PlantFault::LineTooLong => "S15",
        PlantFault::ByteNotAllowed => "S16",
        PlantFault::NoForm => "P01",
        PlantFault::NoFault => "P02",
        PlantFault::NoStep => "P03",
        PlantFault::NoMore => "P04",
        PlantFault::NoRecovery => "P05",
    }
}

fn held_word(is_held: bool) -> &'static str
    ensures { result.now ≡ held_word is_held }
{
    if is_held { "held yes\n" } else { "held no\n" }
}

fn goals_word(goals: GoalsTold) -> &'static str
    ensures { result.now ≡ goals_word goals }
{
    match goals {
        GoalsTold::NoGoals => "goals none\n",
        GoalsTold::Met => "goals met\n",
        GoalsTold::Open => "goals open\n",
    }
}

/// Adds the line of the time and the modes.
#[tactic(auto, unfolding(crate::specs::Replies::front_text))]
fn push_front(
    alloc: Global,
    out: &mut Vec<u8>,
    plant: &Plant,
    told: &StepTold,
) -> Result<(), AllocError>
    ensures { IfOk result (λ _. out.new.items ≡ out.old.items ++ front_text plant.now told.now) }
{
    let mut digits = Buffer::new();
    out.extend_from_slice(b"plant time ")?;
    out.extend_from_slice(digits.format(told.time).as_bytes())?;
    out.extend_from_slice(b": ")?;
    push_modes(alloc, out, plant, told.modes.as_slice())?;
    out.extend_from_slice(b"\n")?;
    Ok(())
}

/// The text of what the session replied.
fn session_text(alloc: Global, model: &Model, reply: &Reply) -> Result<Vec<u8>, AllocError>
    ensures { IfOk result (λ text. text.items ≡ reply_text model.now reply.now) }
{
    let mut text = Vec::new(alloc);
    write_reply(&mut text, alloc, model, reply)?;
    Ok(text)
}

/// Adds what the session replied.
fn push_reply(
    alloc: Global,
    out: &mut Vec<u8>,
    model: &Model,
    reply: &Reply,
) -> Result<(), AllocError>
    ensures { IfOk result (λ _. out.new.items ≡ out.old.items ++ reply_text model.now reply.now) }
{
    let text = session_text(alloc, model, reply)?;
    out.extend_from_slice(text.as_slice())?;
    Ok(())
}

/// Adds the reply of the commit, or that the plant is halted.
fn push_commit(
    alloc: Global,
    out: &mut Vec<u8>,
    model: &Model,
    commit: &Option<Reply>,
) -> Result<(), AllocError>
    ensures { IfOk result (λ _. out.new.items ≡ out.old.items ++ commit_text model.now commit.now) }
{
    match commit {
        Some(reply) => push_reply(alloc, out, model, reply),
        None => {
            out.extend_from_slice(b"halted\n")?;
            Ok(())
        }
    }
}

/// Adds whether the modes are tracked, and whether the goals are met.
fn push_findings(out: &mut Vec<u8>, told: &StepTold) -> Result<(), AllocError>
    ensures { IfOk result (λ _. out.new.items ≡ out.old.items ++ findings_text told.now) }
{
    out.extend_from_slice(held_word(told.is_held).as_bytes())?;
    out.extend_from_slice(goals_word(told.goals).as_bytes())?;
    Ok(())
}

/// The text of what is told of a step.
fn step_text(alloc: Global, model: &Model, told: &StepTold) -> Result<Vec<u8>, AllocError>
    ensures { IfOk result (λ text. text.items ≡ step_text model.now told.now) }
{
    let mut text = Vec::new(alloc);
    push_front(alloc, &mut text, model.plant(), told)?;
    push_reply(alloc, &mut text, model, &told.diagnosis)?;
    push_commit(alloc, &mut text, model, &told.commit)?;
    push_findings(&mut text, told)?;
    Ok(text)
}

/// The text of a refusal.
fn refusal_text(alloc: Global, fault: PlantFault) -> Result<Vec<u8>, AllocError>
    ensures { IfOk result (λ text. text.items ≡ codes "error " ++ fault_code fault ++ codes "\n") }
{
    let mut text = Vec::from_slice(alloc, b"error ")?;
    text.extend_from_slice(fault_code(fault).as_bytes())?;
    text.extend_from_slice(b"\n")?;
    Ok(text)
}

/// The text of a reply to a line of a plant of this model.
pub fn plant_text(alloc: Global, model: &Model, reply: &PlantReply) -> Result<Vec<u8>, AllocError>
    ensures { IfOk result (λ text. text.items ≡ plant_text model.now reply.now) }
{
    match reply {
        PlantReply::Silence => Ok(Vec::new(alloc)),
        PlantReply::Accepted => Vec::from_slice(alloc, b"ok\n"),
        PlantReply::Refused(fault) => refusal_text(alloc, *fault),
        PlantReply::Told(reply) => session_text(alloc, model, reply),
        PlantReply::Moved(told) => step_text(alloc, model, told),
    }
}
