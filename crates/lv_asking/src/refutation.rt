//! The one question that a trial asks of the solver: whether literals can be true together with others that are assumed
//! each time, and if not, which of them already can't. Values that the solver found are kept for a while, since they may
//! answer later questions too.
#![tactic(auto)]

ghost use Rattle.std.specs.Prelude.{◌≡◌, ◌++◌, [], ◌∷◌, true, All, IfOk, OnOk, OnErr, reverse};
ghost use Rattle.std.specs.Option.{is_none};
ghost use Rattle.std.specs.List.Sorted.{IsPermutation};
ghost use Rattle.std.specs.List.{list_all, list_any};
ghost use Rattle.lv_clauses.specs.Literals.{is_clause, lit_holds};
ghost use Rattle.lv_clauses.specs.Marks.{is_marked};
ghost use Rattle.lv_sat.specs.Answers.{IsModel};
ghost use Rattle.lv_asking.specs.Refutation.{Refutes, Tells, latest};

use crate::lemma_solver::{LemmaSolver, Reply};
use lv_base::{Lit, Seq};
use lv_clauses::{Marks, lit_holds};
use lv_sat::{Answer, Solver};
use std::alloc::{AllocError, Global};
use std::marker::Model;

/// How many of the values found are kept.
pub const KEPT: usize = 128;

/// So many places before the last one a solution's false literal is looked for, since a question leaves out few literals that
/// the one before had.
const BACK: usize = 2;

/// Values that a solver found, seen by contracts as their list, and the place of a literal of the last question that they
/// made false. It is looked for there first, since a question differs little from the one before.
#[derive(Drop)]
struct Solution {
    values: Seq<bool>,
    place: usize,
}

impl Model for Solution {
    ghost use Rattle.std.specs.Prelude.{List, Bool};

    ghost Value = { List Bool };

    ghost view = { λ s. s.values };
}

impl Solution {
    /// Values of which no literal was asked yet.
    fn new(values: Seq<bool>) -> Solution
        ensures { result ≡ values }
    {
        Solution { values, place: 0 }
    }

    /// Whether the values make all the literals true.
    fn makes_true(&mut self, lits: &[Lit]) -> bool
        ensures answer { result ≡ list_all (lit_holds self.old) lits.now }
        ensures same { self.new ≡ self.old }
    {
        let start = self.place.saturating_sub(BACK).min(lits.len());
        let (front, back) = lits.split_at(start);
        if let Some(place) = first_false(self.values.as_slice(), back) {
            self.place = start.saturating_add(place);
            return false;
        }
        match first_false(self.values.as_slice(), front) {
            Some(place) => {
                self.place = place;
                false
            }
            None => true,
        }
    }
}

/// The place of the first of the literals that the values make false.
fn first_false(values: &[bool], lits: &[Lit]) -> Option<usize>
    ensures { is_none result ≡ list_all (lit_holds values.now) lits.now }
{
    for place in 0..lits.len() {
        if !lit_holds(values, lits[place]) {
            return Some(place);
        }
    }
    None
}

/// The last values that a solver found, at most `KEPT` of them, the oldest first.
#[derive(Drop)]
pub struct Solutions {
    kept: Vec<Solution>,
}

impl Model for Solutions {
    ghost use Rattle.std.specs.Prelude.{List, Bool, length, ◌≤◌};
    ghost use Rattle.lv_asking.specs.declared.refutation.TheConstants.{KEPT};

    ghost Value = { List (List Bool) };

    ghost view = { λ s. s.kept.items };

    ghost invariant = { λ s. length s.kept.items ≤ KEPT };
}

impl Solutions {
    /// No values, which take no memory.
    pub fn new(alloc: Global) -> Solutions
        ensures { result ≡ [] }
    {
        Solutions {
            kept: Vec::new(alloc),
        }
    }

    /// Whether some of the values make all the literals true. Takes no memory.
    pub fn has(&mut self, lits: &[Lit]) -> bool
        ensures answer { result ≡ list_any (λ values. list_all (lit_holds values) lits.now) self.old }
        ensures same { self.new ≡ self.old }
    {
        for at in 0..self.kept.len() {
            if self.kept[at].makes_true(lits) {
                return true;
            }
        }
        false
    }

    /// Keeps these values too, in the place of the oldest where there are too many. After want of memory all is as it was.
    pub fn keep(&mut self, values: Seq<bool>) -> Result<(), AllocError>
        ensures ok { OnOk result (self.new ≡ latest (self.old ++ values ∷ [])) }
        ensures err { OnErr result (self.new ≡ self.old) }
    {
        self.kept.push(Solution::new(values))?;
        if self.kept.len() > KEPT {
            self.kept.remove(0);
        }
        Ok(())
    }
}

/// Marks of these literals, which are of distinct booleans.
fn marks_of(alloc: Global, bools: u32, lits: &[Lit]) -> Result<Marks, AllocError>
    requires { is_clause bools lits.now ≡ true }
    ensures { IfOk result (λ marks. list_all (is_marked marks) lits.now ≡ true) }
{
    let mut marks = Marks::new(alloc, bools)?;
    for lit in lits {
        marks.take(*lit)?;
    }
    Ok(marks)
}

/// What the solver says of a question: values, or marks of literals that can't be true together.
#[derive(Drop)]
enum Found {
    Values(Seq<bool>),
    Core(Marks),
}

/// So many kept literals at a time are put in front.
const BLOCK: usize = 16;

/// The assumed literals, and behind them the chosen ones. Of these the first are those that a deletion keeps, so many, and the
/// others those that it has still to look at. The others come from the last to the first, so that the questions of a deletion
/// begin alike while it takes them out from the first on. Kept ones come behind them, but for whole blocks, which come before:
/// so a question that begins alike has few literals behind, and not all that are kept.
fn assumptions(
    alloc: Global,
    chosen: &[Lit],
    kept: usize,
    assumed: &[Lit],
) -> Result<Vec<Lit>, AllocError>
    ensures { IfOk result (λ out. IsPermutation (chosen.now ++ assumed.now) out.items) }
{
    let (kept, others) = chosen.split_at(kept.min(chosen.len()));
    let (blocks, last) = kept.split_at(kept.len() - kept.len() % BLOCK);
    let mut out = Vec::with_capacity(alloc, assumed.len().saturating_add(chosen.len()))?;
    out.extend_from_slice(assumed)?;
    out.extend_from_slice(blocks)?;
    push_backwards(alloc, others, &mut out)?;
    out.extend_from_slice(last)?;
    Ok(out)
}

/// Adds literals from the last to the first.
fn push_backwards(alloc: Global, lits: &[Lit], out: &mut Vec<Lit>) -> Result<(), AllocError>
    ensures { OnOk result (out.new.items ≡ out.old.items ++ reverse lits.now) }
{
    let mut backwards = Vec::from_slice(alloc, lits)?;
    backwards.reverse();
    out.extend_from_slice(backwards.as_slice())?;
    Ok(())
}

/// Values that satisfy the solver's clauses and make the chosen and the assumed literals true; where there are none, marks
/// of chosen literals of which, with the assumed ones, this holds already.
fn ask(
    alloc: Global,
    solver: &mut LemmaSolver,
    chosen: &[Lit],
    kept: usize,
    assumed: &[Lit],
) -> Result<Found, AllocError>
    requires { is_clause solver.old.bools (chosen.now ++ assumed.now) ≡ true }
    ensures answer { IfOk result (Tells solver.old chosen.now assumed.now) }
    ensures kept { solver.new ≡ solver.old }
{
    let lits = assumptions(alloc, chosen, kept, assumed)?;
    match solver.solve(lits.as_slice())? {
        Reply::Values(values) => Ok(Found::Values(values)),
        Reply::Core(core) => {
            let bools = solver.bools();
            Ok(Found::Core(marks_of(alloc, bools, core.as_slice())?))
        }
    }
}

/// Whether some values satisfy the solver's clauses and make the chosen and the assumed literals true: nothing where they
/// do, else marks of chosen literals of which, with the assumed ones, this holds of no values. All literals are of distinct
/// booleans. The solutions satisfy the clauses and the assumed literals; the solver is asked only where none of them makes
/// the chosen ones true. How many of the chosen ones are kept, whatever is left out, is for the order of the question alone.
pub fn refute(
    alloc: Global,
    solver: &mut LemmaSolver,
    solutions: &mut Solutions,
    chosen: &[Lit],
    kept: usize,
    assumed: &[Lit],
) -> Result<Option<Marks>, AllocError>
    requires clause { is_clause solver.old.bools (chosen.now ++ assumed.now) ≡ true }
    requires solutions { All (IsModel solver.old assumed.now) solutions.old }
    ensures answer { IfOk result (λ core. Refutes solver.old chosen.now assumed.now core) }
    ensures solutions { All (IsModel solver.old assumed.now) solutions.new }
    ensures kept { solver.new ≡ solver.old }
{
    if solutions.has(chosen) {
        return Ok(None);
    }
    match ask(alloc, solver, chosen, kept, assumed)? {
        Found::Values(values) => {
            solutions.keep(values)?;
            Ok(None)
        }
        Found::Core(marks) => Ok(Some(marks)),
    }
}

/// Whether some values satisfy the clauses of a solver that keeps no lemmas and make the literals true, which are of
/// distinct booleans: nothing where they do, else marks of literals of which this holds of no values.
pub fn refute_once(
    alloc: Global,
    solver: &mut Solver,
    lits: &[Lit],
) -> Result<Option<Marks>, AllocError>
    requires { is_clause solver.old.set.bools (lits.now ++ []) ≡ true }
    ensures answer { IfOk result (λ core. Refutes solver.old.set lits.now [] core) }
    ensures kept { solver.new.set ≡ solver.old.set }
{
    let asked = assumptions(alloc, lits, 0, &[])?;
    match solver.solve(asked.as_slice())? {
        Answer::Sat { .. } => Ok(None),
        Answer::Unsat { core, log: _ } => {
            let bools = solver.clauses().bools();
            Ok(Some(marks_of(alloc, bools, core.as_slice())?))
        }
    }
}
