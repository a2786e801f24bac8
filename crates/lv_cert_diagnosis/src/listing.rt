//! The lines of listed candidates: each with values before and after its step, which show that it is possible.
#![tactic(auto)]

ghost use Rattle.std.specs.Prelude.{◌≡◌, ◌∷◌, All, IfOk};
ghost use Rattle.lv_cert.specs.declared.line.Head.TheVariants.{Listed};
ghost use Rattle.lv_cert.specs.declared.line.Line.TheVariants.{Numbers};
ghost use Rattle.lv_cert_writing.specs.Lines.{numbers_of};
ghost use Rattle.lv_cert_diagnosis.specs.Showing.{CanBeShown, AddsShown};

use crate::asking::Asking;
use lv_base::{Rank, Seq};
use lv_cert::{Head, Line};
use lv_cert_writing::Refuter;
use lv_cert_writing::stating::{push_places, values_line};
use std::alloc::{AllocError, Global};

/// A candidate: its tracked state and its moves.
fn listed_line(alloc: Global, rank: &Rank) -> Result<Line, AllocError>
    ensures { IfOk result (λ line. line ≡ Numbers Listed (numbers_of (rank.now.source ∷ rank.now.choices))) }
{
    let mut numbers = Seq::new(alloc);
    numbers.push(u128::from(rank.source) + 1)?;
    push_places(&mut numbers, rank.choices.as_slice())?;
    Ok(Line::Numbers(Head::Listed, numbers))
}

/// Adds the lines of these candidates, each of which is possible.
pub fn push_listed(
    alloc: Global,
    lines: &mut Vec<Line>,
    asking: &Asking<'_>,
    refuter: &mut Refuter<'_>,
    listed: &[Rank],
) -> Result<(), AllocError>
    requires refuter { refuter.old ≡ asking.now.system }
    requires can { All (CanBeShown asking.now.plant asking.now.facts) listed.now }
    ensures added { IfOk result (λ _. AddsShown asking.now.plant asking.now.facts listed.now lines.old.items lines.new.items) }
    ensures kept { refuter.new ≡ refuter.old }
{
    for rank in listed {
        let step = asking.step_of(refuter, rank)?;
        lines.push(listed_line(alloc, rank)?)?;
        lines.push(values_line(alloc, Head::Now, step.now.as_slice())?)?;
        lines.push(values_line(alloc, Head::Next, step.next.as_slice())?)?;
    }
    Ok(())
}
