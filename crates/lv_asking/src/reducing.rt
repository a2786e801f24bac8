//! What is left of pairs when each that isn't needed is left out, from the first on, whoever it is that tells which pairs are
//! possible together.
#![tactic(auto)]

ghost use Rattle.std.specs.Prelude.{◌≡◌, ◌+◌, ◌<◌, ◌≤◌, ◌++◌, ◌∷◌, [], Bool, false, List, All, drop, filter, length, IfOk, IfSome};
ghost use Rattle.lv_base.specs.declared.search.Pair.{Pair};
ghost use Rattle.lv_boxes.specs.Reason.{reduced};
ghost use Rattle.lv_asking.specs.Reducing.{IsReducing, is_needed};

use lv_base::Pair;
use lv_clauses::Marks;
use std::alloc::{AllocError, Global};

/// What tells of pairs whether they are possible together, and of those that aren't which of them already aren't. It has
/// three meanings: which pairs can be asked for, which tests of pairs it tells the truth of, and which pairs marks mark. With
/// a pair less, pairs can still be asked for, and stay possible.
pub trait Refuter {
    ghost use Rattle.lv_clauses.specs.Marks.{Marks};
    ghost use Rattle.lv_boxes.specs.WalkLaws.{IsMonotone};
    ghost use Rattle.lv_asking.specs.Reducing.{RefutesPairs};

    ghost fits: { Self → List Pair → Type 0 };

    ghost tells: { Self → (List Pair → Bool) → Type 0 };

    ghost needs: { Self → Marks → Pair → Bool };

    /// Asks whether the pairs are possible together: nothing where they are, else marks of those of them that already
    /// aren't. The first of them, so many, are kept by a deletion, which has still to look at the others: that may help to ask,
    /// and says nothing of the answer.
    fn refuted(&mut self, pairs: &[Pair], kept: usize) -> Result<Option<Marks>, AllocError>
        requires { fits self.old pairs.now }
        ensures told { (possible : List Pair → Bool) → tells self.old possible → IfOk result (RefutesPairs possible (needs self.old) pairs.now) }
        ensures same { self.new ≡ self.old };

    /// Whether the pair is one of those that a refutation needed.
    fn is_needed(&self, core: &Marks, pair: Pair) -> bool
        requires { fits self.now (pair ∷ []) }
        ensures { result ≡ needs self.now core.now pair };

    ghost fits_without: { (s : Self) (front : List Pair) (p : Pair) (back : List Pair) → fits s (front ++ (p ∷ back)) → fits s (front ++ back) };

    ghost is_monotone: { (s : Self) (possible : List Pair → Bool) → tells s possible → IsMonotone possible };
}

/// Pairs of which some are left out: those kept so far, and marks of those that the last refutation needed, if there was one.
#[derive(Drop)]
struct Deletion {
    kept: Vec<Pair>,
    core: Option<Marks>,
}

/// The kept pairs, and those behind this place: what a deletion asks for where it leaves out the pair at this place.
fn all_but(alloc: Global, kept: &[Pair], pairs: &[Pair], at: usize) -> Result<Vec<Pair>, AllocError>
    requires { at < length pairs.now }
    ensures { IfOk result (λ out. out.items ≡ kept.now ++ drop (at + 1) pairs.now) }
{
    let mut out = Vec::with_capacity(alloc, pairs.len())?;
    out.extend_from_slice(kept)?;
    out.extend_from_slice(&pairs[at + 1..])?;
    Ok(out)
}

/// Whether the last refutation needed the pair. Where there was none, each may be needed.
fn is_needed<R: Refuter>(refuter: &R, core: &Option<Marks>, pair: Pair) -> bool
    requires { R.fits refuter.now (pair ∷ []) }
    ensures { result ≡ is_needed (R.needs refuter.now) core.now pair }
{
    match core {
        Some(marks) => refuter.is_needed(marks, pair),
        None => true,
    }
}

/// Whether the last refutation needed one of the pairs.
fn needs_one<R: Refuter>(refuter: &R, core: &Option<Marks>, pairs: &[Pair]) -> bool
    requires { All (λ (p : Pair). R.fits refuter.now (p ∷ [])) pairs.now }
{
    for pair in pairs {
        if is_needed(refuter, core, *pair) {
            return true;
        }
    }
    false
}

/// Asks whether what is kept is impossible by itself, where the last refutation needed pairs from this place on too: if so,
/// none of them is needed. It asks for one kept pair, for two, for four and so on, so that a long reason costs few questions
/// more.
fn leap<R: Refuter>(
    refuter: &mut R,
    pairs: &[Pair],
    at: usize,
    deletion: &mut Deletion,
) -> Result<(), AllocError>
    requires at { at ≤ length pairs.now }
    requires fits { R.fits refuter.old (deletion.old.kept.items ++ drop at pairs.now) }
    ensures fits { IfOk result (λ _. R.fits refuter.old (deletion.new.kept.items ++ drop at pairs.now)) }
    ensures so_far { (possible : List Pair → Bool) → R.tells refuter.old possible → IsReducing possible (R.needs refuter.old) pairs.now at deletion.old.kept.items deletion.old.core →
        IfOk result (λ _. IsReducing possible (R.needs refuter.old) pairs.now at deletion.new.kept.items deletion.new.core) }
    ensures same { refuter.new ≡ refuter.old }
{
    if deletion.kept.len().is_power_of_two() && needs_one(refuter, &deletion.core, &pairs[at..]) {
        let kept = deletion.kept.len();
        if let Some(core) = refuter.refuted(deletion.kept.as_slice(), kept)? {
            deletion.core = Some(core);
        }
    }
    Ok(())
}

/// Leaves the pair at this place out where the others aren't possible together, and else keeps it. Of a pair that the last
/// refutation didn't need that is known.
fn look_at<R: Refuter>(
    alloc: Global,
    refuter: &mut R,
    pairs: &[Pair],
    at: usize,
    deletion: &mut Deletion,
) -> Result<(), AllocError>
    requires at { at < length pairs.now }
    requires fits { R.fits refuter.old (deletion.old.kept.items ++ drop at pairs.now) }
    ensures fits { IfOk result (λ _. R.fits refuter.old (deletion.new.kept.items ++ drop (at + 1) pairs.now)) }
    ensures so_far { (possible : List Pair → Bool) → R.tells refuter.old possible → IsReducing possible (R.needs refuter.old) pairs.now at deletion.old.kept.items deletion.old.core →
        IfOk result (λ _. IsReducing possible (R.needs refuter.old) pairs.now (at + 1) deletion.new.kept.items deletion.new.core) }
    ensures same { refuter.new ≡ refuter.old }
{
    if !is_needed(refuter, &deletion.core, pairs[at]) {
        return Ok(());
    }
    let others = all_but(alloc, deletion.kept.as_slice(), pairs, at)?;
    match refuter.refuted(others.as_slice(), deletion.kept.len())? {
        Some(core) => {
            deletion.core = Some(core);
            Ok(())
        }
        None => {
            deletion.kept.push(pairs[at])?;
            leap(refuter, pairs, at + 1, deletion)
        }
    }
}

/// What is left of the pairs when each that isn't needed is left out, from the first on, where the last refutation, if there
/// was one, needed those that are marked.
pub fn reduced<R: Refuter>(
    alloc: Global,
    refuter: &mut R,
    pairs: &[Pair],
    core: Option<Marks>,
) -> Result<Vec<Pair>, AllocError>
    requires { R.fits refuter.old pairs.now }
    ensures reduced { (possible : List Pair → Bool) → R.tells refuter.old possible → IfSome core (λ marks. possible (filter (R.needs refuter.old marks) pairs.now) ≡ false) →
        IfOk result (λ out. out.items ≡ reduced possible [] pairs.now) }
    ensures fits { IfOk result (λ out. R.fits refuter.old out.items) }
    ensures same { refuter.new ≡ refuter.old }
{
    let mut deletion = Deletion {
        kept: Vec::new(alloc),
        core,
    };
    for at in 0..pairs.len() {
        look_at(alloc, refuter, pairs, at, &mut deletion)?;
    }
    Ok(deletion.kept)
}
