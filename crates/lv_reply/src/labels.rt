//! Labels, and their text: how many they are, and a line for each.
#![tactic(auto)]

ghost use Rattle.std.specs.Prelude.{◌≡◌, ◌++◌, IfOk, length, drop, decimal, codes};
ghost use Rattle.std.specs.List.{flat_map};
ghost use Rattle.lv_reply.specs.Labels.{moment_word, label_line, labels_text};
ghost use Rattle.lv_reply.specs.Variables.{AreBegun};

use crate::pieces::push_number;
use crate::variables::{begun_near, push_equation_behind};
use lv_base::{ValId, VarId};
use lv_model::Model;
use std::alloc::{AllocError, Global};

/// Before the step that the next diagnosis is of, or after it.
#[derive(Clone, Copy, Debug, PartialEq, Eq)]
pub enum Moment {
    Now,
    Next,
}

/// A value that a variable is found to have.
#[derive(Clone, Copy, Debug, PartialEq, Eq)]
pub struct Label {
    pub moment: Moment,
    pub var: VarId,
    pub val: ValId,
}

/// The word of a moment, with the space behind it.
fn moment_word(moment: Moment) -> &'static [u8]
    ensures { result.now ≡ moment_word moment ++ codes " " }
{
    match moment {
        Moment::Now => b"now ",
        Moment::Next => b"next ",
    }
}

/// Adds the line of a label, of whose variable it is known how many parts begin at or before it.
fn push_line(out: &mut Vec<u8>, model: &Model, begun: usize, label: Label) -> Result<(), AllocError>
    requires { AreBegun label.var.0 model.now.parts begun }
    ensures { IfOk result (λ _. out.new.items ≡ out.old.items ++ label_line model.now label) }
{
    out.extend_from_slice(moment_word(label.moment))?;
    push_equation_behind(out, model, b" = ", label.var, label.val, begun)?;
    out.push(b'\n')?;
    Ok(())
}

/// Adds the lines of the labels. A label's part is mostly that of the label before, or the one behind that.
fn push_lines(out: &mut Vec<u8>, model: &Model, labels: &[Label]) -> Result<(), AllocError>
    ensures { IfOk result (λ _. out.new.items ≡ out.old.items ++ flat_map (label_line model.now) labels.now) }
{
    let mut begun = 0;
    for label in labels {
        begun = begun_near(model, label.var.0, begun);
        push_line(out, model, begun, *label)?;
    }
    Ok(())
}

/// The text of these labels.
#[tactic(auto, unfolding(crate::specs::Labels::labels_text))]
pub fn labels_text(alloc: Global, model: &Model, labels: &[Label]) -> Result<Vec<u8>, AllocError>
    ensures { IfOk result (λ out. out.items ≡ labels_text model.now labels.now) }
{
    let mut out = Vec::from_slice(alloc, b"labels ")?;
    push_number(&mut out, labels.len() as u64)?;
    out.extend_from_slice(b"\n")?;
    push_lines(&mut out, model, labels)?;
    Ok(out)
}
