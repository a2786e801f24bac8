//! Lists of clauses, put behind one another or multiplied: what says that all of two lists hold, and what says that all
//! of one or all of the other do.
#![tactic(auto)]

ghost use Rattle.std.specs.Prelude.{◌≡◌, ◌++◌, ◌∷◌, [], IfOk, OnOk, map};
ghost use Rattle.lv_compile.specs.FormulaClauses.{each_after, product, gather, when_true};
ghost use Rattle.lv_compile.specs.ModelClauses.{unless};

use lv_base::{Lit, Seq};
use std::alloc::{AllocError, Global};
use std::mem;

/// The literals of both.
fn longer(alloc: Global, front: &Seq<Lit>, back: &Seq<Lit>) -> Result<Seq<Lit>, AllocError>
    ensures { IfOk result (λ c. c ≡ front.now ++ back.now) }
{
    let mut lits = Vec::from_slice(alloc, front.as_slice())?;
    lits.extend_from_slice(back.as_slice())?;
    Ok(Seq::from_vec(lits))
}

/// Adds each clause of the list with the same literals before its own.
fn push_longer(
    out: &mut Vec<Seq<Lit>>,
    alloc: Global,
    front: &Seq<Lit>,
    backs: &[Seq<Lit>],
) -> Result<(), AllocError>
    ensures { IfOk result (λ _. out.new.items ≡ out.old.items ++ each_after backs.now front.now) }
{
    for back in backs {
        out.push(longer(alloc, front, back)?)?;
    }
    Ok(())
}

/// For each clause of the one list and each of the other the literals of both.
pub fn product(
    alloc: Global,
    fronts: &[Seq<Lit>],
    backs: &[Seq<Lit>],
) -> Result<Vec<Seq<Lit>>, AllocError>
    ensures { IfOk result (λ out. out.items ≡ product fronts.now backs.now) }
{
    let mut out = Vec::new(alloc);
    for front in fronts {
        push_longer(&mut out, alloc, front, backs)?;
    }
    Ok(out)
}

/// The literals of each clause of the list, and behind them those of the one clause. Each grows where it lies.
fn each_before(
    alloc: Global,
    fronts: Vec<Seq<Lit>>,
    back: &Seq<Lit>,
) -> Result<Vec<Seq<Lit>>, AllocError>
    ensures { IfOk result (λ out. out.items ≡ product fronts.items (back.now ∷ [])) }
{
    let mut out = Vec::with_capacity(alloc, fronts.len())?;
    for front in fronts {
        let mut lits = front.into_vec();
        lits.extend_from_slice(back.as_slice())?;
        out.push(Seq::from_vec(lits))?;
    }
    Ok(out)
}

/// The clauses of the one list, then those of the other.
pub fn both_lists(
    mut front: Vec<Seq<Lit>>,
    back: Vec<Seq<Lit>>,
) -> Result<Vec<Seq<Lit>>, AllocError>
    ensures { IfOk result (λ out. out.items ≡ front.items ++ back.items) }
{
    for clause in back {
        front.push(clause)?;
    }
    Ok(front)
}

/// Clauses that are all true, or none can be: no clause, or the empty one.
pub fn when_true(alloc: Global, is_true: bool) -> Result<Vec<Seq<Lit>>, AllocError>
    ensures { IfOk result (λ out. out.items ≡ when_true is_true) }
{
    let mut out = Vec::new(alloc);
    if !is_true {
        out.push(Seq::new(alloc))?;
    }
    Ok(out)
}

/// The clauses that say what both lists say, or what one of them does.
pub fn gather(
    alloc: Global,
    of_all: bool,
    front: Vec<Seq<Lit>>,
    back: Vec<Seq<Lit>>,
) -> Result<Vec<Seq<Lit>>, AllocError>
    ensures { IfOk result (λ out. out.items ≡ gather of_all front.items back.items) }
{
    if of_all {
        return both_lists(front, back);
    }
    match back.as_slice() {
        [only] => each_before(alloc, front, only),
        backs => product(alloc, front.as_slice(), backs),
    }
}

/// Makes clauses that say what the list does and that the literal is true, or one of the two. A clause that stands alone,
/// as in a law of equations joined by `|`, grows where it lies.
pub fn gather_literal(
    alloc: Global,
    of_all: bool,
    out: &mut Vec<Seq<Lit>>,
    literal: Lit,
) -> Result<(), AllocError>
    ensures { OnOk result (out.new.items ≡ gather of_all out.old.items ((literal ∷ []) ∷ [])) }
{
    if !of_all && out.len() == 1 {
        return out[0].push(literal);
    }
    let single = Seq::from_slice(alloc, &[literal])?;
    if of_all {
        out.push(single)?;
        return Ok(());
    }
    let fronts = mem::replace(out, Vec::new(alloc));
    *out = each_before(alloc, fronts, &single)?;
    Ok(())
}

/// Adds what holds where the literal is false: each clause of the list behind the literal.
pub fn push_unless(
    out: &mut Vec<Seq<Lit>>,
    alloc: Global,
    literal: Lit,
    clauses: &[Seq<Lit>],
) -> Result<(), AllocError>
    ensures { IfOk result (λ _. out.new.items ≡ out.old.items ++ unless literal clauses.now) }
{
    let front = Seq::from_slice(alloc, &[literal])?;
    push_longer(out, alloc, &front, clauses)
}

/// Adds the clauses of the list.
pub fn push_all(out: &mut Vec<Seq<Lit>>, clauses: Vec<Seq<Lit>>) -> Result<(), AllocError>
    ensures { IfOk result (λ _. out.new.items ≡ out.old.items ++ clauses.items) }
{
    for clause in clauses {
        out.push(clause)?;
    }
    Ok(())
}
