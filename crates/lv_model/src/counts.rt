//! How many clauses a plant comes to, counted without making them. A running total stops at one more than the limit, so
//! that no sum is too large.
#![tactic(auto)]

ghost use Rattle.std.specs.Prelude.{◌≡◌, true, false, ◌+◌, ◌≤◌, ◌<◌, ◌++◌, ◌∷◌, [], min, IfOk, length, map, take, sum_by, slice_get};
ghost use Rattle.std.specs.Option.{option_map_or};
ghost use Rattle.std.specs.List.{list_all};
ghost use Rattle.lv_base.specs.Counts.{truth_count};
ghost use Rattle.lv_model.specs.Ranges.{domain_size};
ghost use Rattle.lv_model.specs.Counts.{held, one_of_count, limited, variable_size, formula_sizes, law_sizes, formula_count, mode_formula_count, guard_count, closed_count, goes_count, moves_count, choice_count, values_count, holds_count, copy_count, type_count, law_count};
ghost use Rattle.lv_model.specs.Denials.{denial, denied, goes_of};

use crate::plant::{ComponentType, Domain, ModeFormula, Move, MoveKind, Plant, Variable};
use crate::ranges::size_of_domain;
use crate::totals::{limited, with};
use crate::variables::all_sizes;
use lv_base::{Condition, ValId, limits};
use std::alloc::{AllocError, Global};

/// What it takes to say that a move's guard is false, where the move is a step of the mode; nothing of another move.
#[derive(Clone, Copy, Debug)]
pub struct Denial {
    pub mode: ValId,
    pub count: u32,
}

/// That one of so many booleans is true, and no two of them are.
fn with_one_of(total: u32, booleans: usize) -> u32
    ensures { result ≡ held (total + one_of_count booleans) }
{
    let mut out = with(total, 1);
    for others in 0..booleans {
        out = with(out, others);
    }
    out
}

/// How many values the variable has.
pub fn variable_size(domains: &[Domain], v: &Variable) -> u32
    ensures { result ≡ variable_size domains.now v.now }
{
    limited(size_of_domain(domains, v.domain))
}

/// How many values the variables of a type's formulas have, the mode first, which counts with as many as a type may have
/// modes, whatever modes there are.
pub fn formula_sizes(
    alloc: Global,
    domains: &[Domain],
    variables: &[Variable],
) -> Result<Vec<u32>, AllocError>
    ensures { IfOk result (λ out. out.items ≡ formula_sizes domains.now variables.now) }
{
    let mut out = Vec::new(alloc);
    out.push(limits::MODES)?;
    for v in variables {
        out.push(variable_size(domains, v))?;
    }
    Ok(out)
}

/// How many values the variables of the system's laws have, those of all parts.
pub fn law_sizes(alloc: Global, plant: &Plant) -> Result<Vec<u32>, AllocError>
    ensures { IfOk result (λ out. out.items ≡ law_sizes plant.now) }
{
    let sizes = all_sizes(alloc, plant)?;
    sizes.iter().map(|size| limited(*size)).collect(alloc)
}

/// How many clauses the condition comes to in the sign; 0 where it has too many.
pub fn formula_count(condition: &Condition, sign: bool, sizes: &[u32]) -> u32
    ensures { result ≡ formula_count sizes.now sign condition.now }
{
    match condition.clause_count(sign, sizes) {
        Some(count) => count,
        None => 0,
    }
}

fn with_laws(total: u32, sizes: &[u32], laws: &[Condition]) -> u32
    ensures { result ≡ held (total + sum_by (formula_count sizes.now true) laws.now) }
{
    let mut out = with(total, 0);
    for law in laws {
        out = with(out, formula_count(law, true, sizes) as usize);
    }
    out
}

fn with_mode_formulas(total: u32, sizes: &[u32], formulas: &[ModeFormula]) -> u32
    ensures { result ≡ held (total + sum_by (mode_formula_count sizes.now) formulas.now) }
{
    let mut out = with(total, 0);
    for f in formulas {
        out = with(out, formula_count(&f.condition, true, sizes) as usize);
    }
    out
}

/// That each of the variables has one value.
fn with_values(total: u32, domains: &[Domain], variables: &[Variable]) -> u32
    ensures { result ≡ held (total + sum_by (values_count domains.now) variables.now) }
{
    let mut out = with(total, 0);
    for v in variables {
        out = with_one_of(out, variable_size(domains, v) as usize);
    }
    out
}

/// That the move's guard has this truth; what has no guard is open.
fn guard_count(sizes: &[u32], sign: bool, m: &Move) -> u32
    ensures { result ≡ guard_count sizes.now sign m.now }
{
    match &m.guard {
        Some(guard) => formula_count(guard, sign, sizes),
        None => { if sign { 0 } else { 1 } }
    }
}

fn denial_of(sizes: &[u32], m: &Move) -> Denial
    ensures { result ≡ denial sizes.now m.now }
{
    let count = match m.kind {
        MoveKind::Step => guard_count(sizes, false, m),
        MoveKind::Stay => 0,
        MoveKind::Fault => 0,
    };
    Denial {
        mode: m.source,
        count,
    }
}

/// What denying each of the moves takes.
fn denials_of(alloc: Global, sizes: &[u32], moves: &[Move]) -> Result<Vec<Denial>, AllocError>
    ensures { IfOk result (λ out. out.items ≡ map (denial sizes.now) moves.now) }
{
    let mut out = Vec::new(alloc);
    for m in moves {
        out.push(denial_of(sizes, m))?;
    }
    Ok(out)
}

/// What denying the move takes, if it is of the mode.
fn denied(mode: ValId, denial: Denial) -> u32
    ensures { result ≡ denied mode.0 denial }
{
    if denial.mode.0 == mode.0 {
        denial.count
    } else {
        0
    }
}

/// That no step from the mode is open, of these that are denied.
fn with_closed(total: u32, mode: ValId, denials: &[Denial]) -> u32
    ensures { result ≡ held (total + sum_by (denied mode.0) denials.now) }
{
    let mut out = with(total, 0);
    for denial in denials {
        out = with(out, denied(mode, *denial) as usize);
    }
    out
}

/// When the move may go on that stands behind so many others.
fn with_going(total: u32, sizes: &[u32], denials: &[Denial], others: usize, m: &Move) -> u32
    requires { others ≤ length denials.now }
    ensures { result ≡ held (total + goes_of m.now.kind sizes.now denials.now others m.now) }
{
    match m.kind {
        MoveKind::Step => with_closed(
            with(total, guard_count(sizes, true, m) as usize),
            m.source,
            &denials[..others],
        ),
        MoveKind::Stay => with_closed(total, m.source, denials),
        MoveKind::Fault => with(total, guard_count(sizes, true, m) as usize),
    }
}

/// What the choice of each move asks for: its source, its target, and that it may go on.
fn with_moves(alloc: Global, total: u32, sizes: &[u32], moves: &[Move]) -> Result<u32, AllocError>
    ensures { IfOk result (λ out. out ≡ held (total + moves_count sizes.now moves.now 0 moves.now)) }
{
    let denials = denials_of(alloc, sizes, moves)?;
    let mut out = with(total, 0);
    for (others, m) in moves.iter().enumerate() {
        out = with_going(with(out, 2), sizes, denials.as_slice(), others, m);
    }
    Ok(out)
}

/// What holds of a part of the type before a step, and so after it.
fn with_copy(total: u32, domains: &[Domain], sizes: &[u32], t: &ComponentType) -> u32
    requires { sizes.now ≡ formula_sizes domains.now t.now.variables }
    ensures { result ≡ held (total + copy_count domains.now t.now) }
{
    let out = with_one_of(total, t.modes.len());
    let out = with_values(out, domains, t.variables.as_slice());
    let out = with_laws(out, sizes, t.laws.as_slice());
    with_mode_formulas(out, sizes, t.formulas.as_slice())
}

/// How many clauses each part of the type adds to a model, as far as the limit of a whole model and one more. Its
/// formulas are taken to have their counts.
pub fn type_count(alloc: Global, domains: &[Domain], t: &ComponentType) -> Result<u32, AllocError>
    ensures { IfOk result (λ out. out ≡ held (type_count domains.now t.now)) }
{
    let sizes = formula_sizes(alloc, domains, t.variables.as_slice())?;
    let sizes = sizes.as_slice();
    let out = with_copy(0, domains, sizes, t);
    let out = with_copy(out, domains, sizes, t);
    let out = with_one_of(out, t.moves.len());
    let out = with_moves(alloc, out, sizes, t.moves.as_slice())?;
    Ok(out)
}

/// How many clauses a law of the system adds to a model, where the variables of all parts have so many values.
pub fn law_count(law: &Condition, sizes: &[u32]) -> u32
    ensures { result ≡ held (law_count sizes.now law.now) }
{
    let count = formula_count(law, true, sizes) as usize;
    with(with(0, count), count)
}
