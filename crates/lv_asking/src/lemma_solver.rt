//! A solver that keeps lemmas: short clauses that its searches learned, whether they found values or refuted. They follow
//! from the clauses given, so what can be true stays the same, and later questions need not learn them again.
#![tactic(auto)]

ghost use Rattle.std.specs.Prelude.{◌≡◌, ◌<◌, true, None, IsTrue, IfOk};
ghost use Rattle.lv_clauses.specs.Literals.{is_clause};
ghost use Rattle.lv_clauses.specs.Following.{first_bad_step};
ghost use Rattle.lv_asking.specs.Lemmas.{Follows, HaveSameModels, IsFilled, AddsLemmas};

use lv_base::{ClauseId, Lit, Seq};
use lv_clauses::{ClauseSet, Log, is_clause};
use lv_sat::{Answer, Effort, Solver};
use std::alloc::{AllocError, Global};
use std::marker::Model;

/// A clause of more literals is no lemma.
const LONGEST: usize = 12;

/// So many lemmas are kept at most.
const MOST: usize = 10_000;

/// What the solver says.
#[derive(Drop)]
pub enum Reply {
    /// Values that satisfy the clauses and make the assumptions true.
    Values(Seq<bool>),
    /// Assumptions that can't all be true.
    Core(Seq<Lit>),
}

/// A solver of the clauses given, which contracts see as the map from their numbers, and of lemmas, whose numbers come
/// behind theirs, so that it need not keep the clauses given once more.
#[derive(Drop)]
pub struct LemmaSolver {
    solver: Solver,
    front: Front,
    lemmas: usize,
}

/// The number behind those of the clauses given, and whether each before it is that of a clause. Where one is free a lemma
/// might get it, so that then none is kept.
#[derive(Clone, Copy, Debug)]
struct Front {
    bound: usize,
    is_filled: bool,
}

impl Model for LemmaSolver {
    ghost use Rattle.lv_clauses.specs.ClauseMap.{ClauseMap};
    ghost use Rattle.lv_asking.specs.Lemmas.{front_of, HasLemmas};

    ghost Value = { ClauseMap };

    ghost view = { λ s. front_of s.front.bound s.solver.set };

    ghost invariant = { λ s. HasLemmas s.front.bound s.front.is_filled s.solver.set };
}

impl LemmaSolver {
    ghost use Rattle.lv_asking.specs.Replies.{Replies};

    /// A solver of copies of a set's clauses.
    pub fn new(alloc: Global, set: &ClauseSet) -> Result<LemmaSolver, AllocError>
        ensures { IfOk result (λ s. HaveSameModels set.now s) }
    {
        let bound = set.bound();
        Ok(LemmaSolver {
            front: Front {
                bound,
                is_filled: is_filled(set, bound),
            },
            lemmas: 0,
            solver: Solver::new(alloc, set)?,
        })
    }

    /// The number of booleans.
    pub fn bools(&self) -> u32
        ensures { result ≡ self.now.bools }
    {
        self.solver.clauses().bools()
    }

    /// Whether some values satisfy the clauses and make the assumptions true, which are of distinct booleans in range. It
    /// changes no clause.
    pub fn solve(&mut self, assumptions: &[Lit]) -> Result<Reply, AllocError>
        requires { IsTrue (is_clause self.old.bools assumptions.now) }
        ensures reply { IfOk result (λ reply. Replies self.old assumptions.now reply) }
        ensures kept { self.new ≡ self.old }
    {
        match self.solver.solve(assumptions)? {
            Answer::Sat { values, log } => {
                self.lemmas = keep_lemmas(&mut self.solver, &log, self.front, self.lemmas)?;
                Ok(Reply::Values(values))
            }
            Answer::Unsat { core, log } => {
                self.lemmas = keep_lemmas(&mut self.solver, &log, self.front, self.lemmas)?;
                Ok(Reply::Core(core))
            }
        }
    }

    /// What its searches did, all together.
    pub fn effort(&self) -> Effort {
        self.solver.effort()
    }
}

/// Whether each number below the bound is that of a clause.
fn is_filled(set: &ClauseSet, bound: usize) -> bool
    ensures { result ≡ true → IsFilled bound set.now }
{
    for at in 0..bound {
        if !set.contains(ClauseId(at)) {
            return false;
        }
    }
    true
}

/// Keeps the short clauses that a log derives, beside so many lemmas. Answers how many there are then. Where propagation alone
/// refuted, none is kept: it does so again as quickly.
fn keep_lemmas(
    solver: &mut Solver,
    log: &Log,
    front: Front,
    lemmas: usize,
) -> Result<usize, AllocError>
    requires valid { first_bad_step solver.old.set log.now ≡ None }
    requires filled { front.is_filled ≡ true → IsFilled front.bound solver.old.set }
    ensures { AddsLemmas front.bound front.is_filled solver.old.set solver.new.set }
{
    if !front.is_filled || log.len() < 2 {
        return Ok(lemmas);
    }
    let mut count = lemmas;
    for place in 0..log.len() {
        count = keep_lemma(
            solver,
            log.step(place).clause.as_slice(),
            front.bound,
            count,
        )?;
    }
    Ok(count)
}

/// Keeps a clause that follows, where it is short and there aren't too many yet. Answers how many there are then.
fn keep_lemma(
    solver: &mut Solver,
    clause: &[Lit],
    bound: usize,
    lemmas: usize,
) -> Result<usize, AllocError>
    requires follows { Follows solver.old.set clause.now }
    requires filled { IsFilled bound solver.old.set }
    ensures { AddsLemmas bound true solver.old.set solver.new.set }
{
    let bools = solver.clauses().bools();
    if lemmas < MOST && clause.len() <= LONGEST && is_clause(bools, clause) {
        solver.add(clause)?;
        return Ok(lemmas + 1);
    }
    Ok(lemmas)
}
