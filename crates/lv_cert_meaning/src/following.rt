//! Whether a line follows from the clauses of a system and further ones behind them, numbered from 1. Each hint leads
//! straight to its clause, so that the work is linear in the literals that are read.
#![tactic(auto)]

ghost use Rattle.std.specs.Prelude.{◌≡◌, ◌<◌, ◌≤◌, ◌-◌, ◌++◌, [], true, IfOk, IsTrue, Some, None, length, map, option_map, slice_get, if◌then◌else◌};
ghost use Rattle.std.specs.List.{list_all};
ghost use Rattle.lv_clauses.specs.Marks.{nothing, look_at};
ghost use Rattle.lv_cert_meaning.specs.Blocks.{clauses_of};
ghost use Rattle.lv_cert_meaning.specs.Following as Following;
ghost use Rattle.lv_cert_meaning.specs.Following.{numbered, follows};

use lv_base::{BoolId, Lit, Seq};
use lv_cert::Literal;
use lv_clauses::{Clause, Finding, Marks, look};
use lv_refcheck::deny;
use lv_system::StepSystem;
use std::alloc::{AllocError, Global};

/// Whether the literal's number is that of one of so many booleans.
fn names_boolean(bools: u32, literal: Literal) -> bool
    ensures { result ≡ Following.names_boolean bools literal }
{
    0 < literal.number && literal.number <= u128::from(bools)
}

/// The literal of the boolean that has this number.
fn literal_of(bools: u32, literal: Literal) -> Lit
    requires { IsTrue (Following.names_boolean bools literal) }
    ensures { result ≡ Following.literal_of literal }
{
    Lit {
        var: BoolId((literal.number - 1) as u32),
        sign: !literal.negated,
    }
}

/// The literals of a line, None exactly where a number isn't that of one of so many booleans.
fn literals_of(
    alloc: Global,
    bools: u32,
    literals: &[Literal],
) -> Result<Option<Seq<Lit>>, AllocError>
    ensures { IfOk result (λ lits. lits ≡ (if list_all (Following.names_boolean bools) literals.now then Some (map Following.literal_of literals.now) else None)) }
{
    let mut lits = Seq::new(alloc);
    for literal in literals {
        if !names_boolean(bools, *literal) {
            return Ok(None);
        }
        lits.push(literal_of(bools, *literal))?;
    }
    Ok(Some(lits))
}

/// The model's clause of this number.
fn model_clause(system: &StepSystem, n: u32) -> &[Lit]
    requires positive { 0 < n }
    requires within { n ≤ length system.now.ids }
    ensures { slice_get (clauses_of system.now) (n - 1) ≡ Some result.now }
{
    system.clauses().get(system.clause_id(n))
}

/// What the clause of a number says under the marks, None exactly where no clause has it.
fn look_at_number(
    system: &StepSystem,
    own: &[Clause],
    n: u128,
    marks: &[Option<bool>],
) -> Option<Finding>
    ensures { result ≡ option_map (look_at marks.now) (numbered (clauses_of system.now ++ own.now) n) }
{
    let models = u128::from(system.clause_total());
    if n == 0 {
        None
    } else if n <= models {
        Some(look(marks, model_clause(system, n as u32)))
    } else if n - models <= own.len() as u128 {
        Some(look(marks, own[(n - models - 1) as usize].lits()))
    } else {
        None
    }
}

/// Whether the hints end well from these marks on.
fn ends_well(
    system: &StepSystem,
    own: &[Clause],
    hints: &[u128],
    marks: &mut Marks,
) -> Result<bool, AllocError>
    ensures well { IfOk result (λ good. good ≡ Following.ends_well (clauses_of system.now ++ own.now) hints.now marks.old) }
    ensures len { length marks.new ≡ length marks.old }
{
    for (at, hint) in hints.iter().enumerate() {
        match look_at_number(system, own, *hint, marks.as_slice()) {
            None => return Ok(false),
            Some(Finding::Open) => return Ok(false),
            Some(Finding::AllFalse) => return Ok(at + 1 == hints.len()),
            Some(Finding::Unit(lit)) => marks.take(lit)?,
        }
    }
    Ok(false)
}

/// The clause of a line, None exactly where it doesn't follow from the system's clauses and the further ones. What the line
/// marks is left to be cleared, also after want of memory.
pub fn derived(
    alloc: Global,
    system: &StepSystem,
    own: &[Clause],
    literals: &[Literal],
    hints: &[u128],
    marks: &mut Marks,
) -> Result<Option<Clause>, AllocError>
    requires blank { marks.old ≡ nothing system.now.set.bools }
    ensures derived { IfOk result (λ clause. clause ≡ (if follows system.now.set.bools (clauses_of system.now ++ own.now) literals.now hints.now then Some (map Following.literal_of literals.now) else None)) }
    ensures len { length marks.new ≡ length marks.old }
{
    match literals_of(alloc, system.clauses().bools(), literals)? {
        None => Ok(None),
        Some(lits) => {
            if !deny(lits.as_slice(), marks)? {
                return Ok(None);
            }
            if !ends_well(system, own, hints, marks)? {
                return Ok(None);
            }
            Ok(Some(Clause::from_slice(alloc, lits.as_slice())?))
        }
    }
}
