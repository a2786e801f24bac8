//! The lines that state what is asked: the model by its name, the limit, the tracked states, the controls' values and what
//! was seen.
#![tactic(auto)]

ghost use Rattle.std.specs.Prelude.{◌≡◌, ◌++◌, ◌∷◌, [], IfOk};
ghost use Rattle.lv_cert_diagnosis.specs.Showing as Showing;
ghost use Rattle.lv_cert_diagnosis.specs.Showing.{head_lines};

use crate::limit::Limit;
use lv_base::Seq;
use lv_cert::{Head, Line, Moment, Question};
use lv_cert_writing::stating::{model_line, push_facts, push_states, values_line};
use lv_meaning::Facts;
use lv_model::{Model, TrackedState};
use std::alloc::{AllocError, Global};

/// How many candidates are sought, with distinct targets or not.
fn limit_line(alloc: Global, limit: Limit) -> Result<Line, AllocError>
    ensures { IfOk result (λ line. line ≡ Showing.limit_line limit.most limit.distinct) }
{
    if limit.distinct {
        return Ok(Line::Distinct(u128::from(limit.most)));
    }
    let mut numbers = Seq::new(alloc);
    numbers.push(u128::from(limit.most))?;
    Ok(Line::Numbers(Head::Limit, numbers))
}

/// The lines that state the question.
pub fn head_of(
    alloc: Global,
    model: &Model,
    tracked: &[TrackedState],
    facts: &Facts,
    limit: Limit,
) -> Result<Vec<Line>, AllocError>
    ensures { IfOk result (λ lines. lines.items ≡ head_lines model.now tracked.now facts.now limit.most limit.distinct []) }
{
    let mut lines = Vec::new(alloc);
    lines.push(Line::Certificate(Question::Diagnosis))?;
    lines.push(model_line(alloc, model)?)?;
    lines.push(limit_line(alloc, limit)?)?;
    push_states(alloc, &mut lines, tracked)?;
    lines.push(values_line(alloc, Head::Control, facts.controls.as_slice())?)?;
    push_facts(&mut lines, Moment::Now, facts.present.as_slice())?;
    push_facts(&mut lines, Moment::Next, facts.next.as_slice())?;
    Ok(lines)
}
