//! Clauses without repeated literals, and without those that are true of everything.
#![tactic(auto)]

ghost use Rattle.std.specs.Prelude.{◌≡◌, ◌++◌, IfOk};
ghost use Rattle.std.specs.List.{list_any};
ghost use Rattle.lv_compile.specs.Cleaning.{same_literal, is_tautology, unless_tautology, has_repeats, without_repeats, cleaned, is_repeated, with_new};

use lv_base::{Lit, Seq};
use lv_clauses::negation;
use std::alloc::{AllocError, Global};

fn is_same(one: Lit, other: Lit) -> bool
    ensures { result ≡ same_literal one other }
{
    one.var.0 == other.var.0 && one.sign == other.sign
}

fn has_literal(lits: &[Lit], lit: Lit) -> bool
    ensures { result ≡ list_any (same_literal lit) lits.now }
{
    lits.iter().any(|other| is_same(lit, *other))
}

fn is_repeated(earlier: &[Lit], lit: Lit) -> bool
    ensures { result ≡ is_repeated earlier.now lit }
{
    earlier.iter().any(|one| is_same(*one, lit))
}

/// Whether a literal stands in the clause with its negation.
fn is_tautology(lits: &[Lit]) -> bool
    ensures { result ≡ is_tautology lits.now }
{
    let mut rest = lits;
    while let Some((first, more)) = rest.split_first() {
        if has_literal(more, negation(*first)) {
            return true;
        }
        rest = more;
    }
    false
}

/// Whether a literal stands in the clause twice.
fn has_repeats(lits: &[Lit]) -> bool
    ensures { result ≡ has_repeats lits.now }
{
    let mut rest = lits;
    while let Some((first, more)) = rest.split_first() {
        if has_literal(more, *first) {
            return true;
        }
        rest = more;
    }
    false
}

/// Adds the literal where it doesn't stand there yet.
fn push_new(out: &mut Vec<Lit>, lit: Lit) -> Result<(), AllocError>
    ensures { IfOk result (λ _. out.new.items ≡ with_new out.old.items lit) }
{
    if !is_repeated(out.as_slice(), lit) {
        out.push(lit)?;
    }
    Ok(())
}

/// Each literal once, at its first place.
fn without_repeats(alloc: Global, lits: &[Lit]) -> Result<Seq<Lit>, AllocError>
    ensures { IfOk result (λ c. c ≡ without_repeats lits.now) }
{
    let mut out = Vec::new(alloc);
    for lit in lits {
        push_new(&mut out, *lit)?;
    }
    Ok(Seq::from_vec(out))
}

/// The clause itself where it repeats no literal, as most do, else one without repeats.
fn tidied(alloc: Global, clause: Seq<Lit>) -> Result<Seq<Lit>, AllocError>
    ensures { IfOk result (λ c. c ≡ without_repeats clause) }
{
    if has_repeats(clause.as_slice()) {
        return without_repeats(alloc, clause.as_slice());
    }
    Ok(clause)
}

/// Adds the clause, which repeats no literal, unless it is true of everything.
fn push_clean(out: &mut Vec<Seq<Lit>>, clause: Seq<Lit>) -> Result<(), AllocError>
    ensures { IfOk result (λ _. out.new.items ≡ out.old.items ++ unless_tautology clause) }
{
    if !is_tautology(clause.as_slice()) {
        out.push(clause)?;
    }
    Ok(())
}

/// The clauses that are not true of everything, each without repeated literals.
pub fn cleaned(alloc: Global, clauses: Vec<Seq<Lit>>) -> Result<Vec<Seq<Lit>>, AllocError>
    ensures { IfOk result (λ out. out.items ≡ cleaned clauses.items) }
{
    let mut out = Vec::with_capacity(alloc, clauses.len())?;
    for clause in clauses {
        push_clean(&mut out, tidied(alloc, clause)?)?;
    }
    Ok(out)
}
