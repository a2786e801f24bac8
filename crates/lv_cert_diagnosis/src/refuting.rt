//! The blocks of conflicts: each with lines that refute that its choices stand together under the facts.
#![tactic(auto)]

ghost use Rattle.std.specs.Prelude.{◌≡◌, All, IfOk};
ghost use Rattle.lv_cert.specs.declared.line.Head.TheVariants.{Conflict as OfConflict};
ghost use Rattle.lv_cert.specs.declared.line.Line.TheVariants.{Numbers};
ghost use Rattle.lv_cert_writing.specs.Lines.{pair_numbers};
ghost use Rattle.lv_cert_diagnosis.specs.Showing.{CanBeRefuted, AddsBlocks};

use crate::asking::Asking;
use lv_base::{Conflict, Pair, Seq};
use lv_cert::{Head, Line};
use lv_cert_writing::Refuter;
use lv_cert_writing::asking::push_clauses;
use lv_cert_writing::stating::push_pairs;
use std::alloc::{AllocError, Global};

/// The choices of a conflict.
fn conflict_line(alloc: Global, pairs: &[Pair]) -> Result<Line, AllocError>
    ensures { IfOk result (λ line. line ≡ Numbers OfConflict (pair_numbers pairs.now)) }
{
    let mut numbers = Seq::new(alloc);
    push_pairs(&mut numbers, pairs)?;
    Ok(Line::Numbers(Head::Conflict, numbers))
}

/// Adds the blocks of these conflicts, of none of which the choices are possible together.
pub fn push_blocks(
    alloc: Global,
    lines: &mut Vec<Line>,
    asking: &Asking<'_>,
    refuter: &mut Refuter<'_>,
    kept: &[Conflict],
) -> Result<(), AllocError>
    requires refuter { refuter.old ≡ asking.now.system }
    requires can { All (CanBeRefuted asking.now.plant asking.now.facts) kept.now }
    ensures added { IfOk result (λ _. AddsBlocks asking.now.plant asking.now.facts kept.now lines.old.items lines.new.items) }
    ensures kept { refuter.new ≡ refuter.old }
{
    for conflict in kept {
        let pairs = conflict.pairs();
        let told = asking.refutation_of(refuter, pairs)?;
        lines.push(conflict_line(alloc, pairs)?)?;
        push_clauses(lines, told)?;
    }
    Ok(())
}
