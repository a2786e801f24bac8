//! The lines that state what is asked: the model by its name, the tracked states, what is seen now, and the goals.
#![tactic(auto)]

ghost use Rattle.std.specs.Prelude.{◌≡◌, ◌++◌, IfOk};
ghost use Rattle.lv_cert_recovery.specs.Showing.{goal_lines, head_lines};

use lv_base::Seq;
use lv_cert::{Line, Moment, Question};
use lv_cert_writing::stating::{model_line, push_facts, push_states};
use lv_meaning::Aim;
use lv_model::Model;
use std::alloc::{AllocError, Global};

/// Adds a line for each goal, with its text.
fn push_goals(alloc: Global, lines: &mut Vec<Line>, texts: &[Seq<u8>]) -> Result<(), AllocError>
    ensures { IfOk result (λ _. lines.new.items ≡ lines.old.items ++ goal_lines texts.now) }
{
    for text in texts {
        lines.push(Line::Goal(Seq::from_slice(alloc, text.as_slice())?))?;
    }
    Ok(())
}

/// The lines that state the question, whose goals have these texts.
pub fn head_of(
    alloc: Global,
    model: &Model,
    aim: &Aim,
    texts: &[Seq<u8>],
) -> Result<Vec<Line>, AllocError>
    ensures { IfOk result (λ lines. lines.items ≡ head_lines model.now aim.now texts.now) }
{
    let mut lines = Vec::new(alloc);
    lines.push(Line::Certificate(Question::Recovery))?;
    lines.push(model_line(alloc, model)?)?;
    push_states(alloc, &mut lines, aim.tracked.as_slice())?;
    push_facts(&mut lines, Moment::Now, aim.present.as_slice())?;
    push_goals(alloc, &mut lines, texts)?;
    Ok(lines)
}
