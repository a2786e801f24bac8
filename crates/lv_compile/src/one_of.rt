//! Clauses that say of booleans that stand together that exactly one of them is true.
#![tactic(auto)]

ghost use Rattle.std.specs.Prelude.{◌≡◌, ◌+◌, ◌<◌, ◌≤◌, ◌^◌, ◌++◌, ◌∷◌, [], true, false, IfOk, map, length};
ghost use Rattle.std.specs.List.{sum, range_with_len};
ghost use Rattle.lv_compile.specs.Booleans.{literal};
ghost use Rattle.lv_compile.specs.ModelClauses.{not_both, apart, exactly_one, values_clauses};

use lv_base::{BoolId, Lit, Seq};
use std::alloc::{AllocError, Global};

/// The boolean of this number, or its negation.
pub fn literal(number: u32, sign: bool) -> Lit
    ensures { result ≡ literal number sign }
{
    Lit {
        var: BoolId(number),
        sign,
    }
}

/// That the first boolean isn't true beside any of so many behind it.
fn push_pairs(
    out: &mut Vec<Seq<Lit>>,
    alloc: Global,
    first: u32,
    others: u32,
) -> Result<(), AllocError>
    requires { first + others < 2 ^ 32 }
    ensures { IfOk result (λ _. out.new.items ≡ out.old.items ++ map (not_both first) (range_with_len (first + 1) others)) }
{
    for past in 0..others {
        let pair = [literal(first, false), literal(first + 1 + past, false)];
        out.push(Seq::from_slice(alloc, &pair)?)?;
    }
    Ok(())
}

/// That no two of so many booleans are true.
fn push_apart(
    out: &mut Vec<Seq<Lit>>,
    alloc: Global,
    first: u32,
    booleans: u32,
) -> Result<(), AllocError>
    requires { first + booleans < 2 ^ 32 }
    ensures { IfOk result (λ _. out.new.items ≡ out.old.items ++ apart first booleans) }
{
    for past in 0..booleans {
        push_pairs(out, alloc, first + past, booleans - past - 1)?;
    }
    Ok(())
}

/// Of so many booleans the literals that they are true.
fn all_true(alloc: Global, first: u32, booleans: u32) -> Result<Seq<Lit>, AllocError>
    requires { first + booleans < 2 ^ 32 }
    ensures { IfOk result (λ c. c ≡ map (λ n. literal n true) (range_with_len first booleans)) }
{
    let mut lits = Vec::new(alloc);
    for past in 0..booleans {
        lits.push(literal(first + past, true))?;
    }
    Ok(Seq::from_vec(lits))
}

/// That exactly one of so many booleans is true.
pub fn push_one_of(
    out: &mut Vec<Seq<Lit>>,
    alloc: Global,
    first: u32,
    booleans: u32,
) -> Result<(), AllocError>
    requires { first + booleans < 2 ^ 32 }
    ensures { IfOk result (λ _. out.new.items ≡ out.old.items ++ exactly_one first booleans) }
{
    out.push(all_true(alloc, first, booleans)?)?;
    push_apart(out, alloc, first, booleans)
}

/// That each variable has one value, where the booleans of the first begin with this one.
pub fn push_values(
    out: &mut Vec<Seq<Lit>>,
    alloc: Global,
    first: u32,
    sizes: &[usize],
) -> Result<(), AllocError>
    requires { first + sum sizes.now < 2 ^ 32 }
    ensures { IfOk result (λ _. out.new.items ≡ out.old.items ++ values_clauses first sizes.now) }
{
    let mut start = first;
    for size in sizes {
        push_one_of(out, alloc, start, *size as u32)?;
        start += *size as u32;
    }
    Ok(())
}
