//! What a block states as clauses, and what a refuter tells of it as lines.
#![tactic(auto)]

ghost use Rattle.std.specs.Prelude.{◌≡◌, ◌<◌, ◌^◌, ◌++◌, IfOk, IsTrue, length, map};
ghost use Rattle.lv_cert_meaning.specs.Units.{units};
ghost use Rattle.lv_cert_writing.specs.BlockLines.{derived_of};
ghost use Rattle.lv_cert_writing.specs.declared.refuter.Refuted.TheVariants.{Values, Lines};
ghost use Rattle.lv_cert_writing.specs.Asking.{are_values, are_lines};
ghost use Rattle.lv_cert_writing.specs.Lines.{clause_lines};

use crate::{Derivation, Refuted};
use lv_base::{Lit, Seq};
use lv_cert::Line;
use std::alloc::{AllocError, Global};

/// Adds each literal as a clause of its own.
pub fn push_units(alloc: Global, out: &mut Vec<Seq<Lit>>, lits: &[Lit]) -> Result<(), AllocError>
    ensures { IfOk result (λ _. out.new.items ≡ out.old.items ++ units lits.now) }
{
    for lit in lits {
        out.push(Seq::from_slice(alloc, &[*lit])?)?;
    }
    Ok(())
}

/// The values that a refuter told.
pub fn values_told(told: Refuted) -> Seq<bool>
    requires { IsTrue (are_values told) }
    ensures { told ≡ Values result }
{
    match told {
        Refuted::Values(values) => values,
        Refuted::Lines(_) => unreachable!(),
    }
}

/// The lines that a refuter told.
pub fn lines_told(told: Refuted) -> Seq<Derivation>
    requires { IsTrue (are_lines told) }
    ensures { told ≡ Lines result }
{
    match told {
        Refuted::Lines(lines) => lines,
        Refuted::Values(_) => unreachable!(),
    }
}

/// Adds the clause lines, and answers how many they are.
pub fn push_clauses(lines: &mut Vec<Line>, told: Seq<Derivation>) -> Result<usize, AllocError>
    ensures lines { IfOk result (λ _. lines.new.items ≡ lines.old.items ++ clause_lines (map derived_of told)) }
    ensures count { IfOk result (λ n. n ≡ length told) }
    ensures few { IfOk result (λ _. length told < 2 ^ 64) }
{
    let count = told.len();
    for line in told.into_vec() {
        lines.push(Line::Clause(line.literals, line.hints))?;
    }
    Ok(count)
}
