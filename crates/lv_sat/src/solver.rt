//! The solver: clauses that come and go, and the question whether they and some assumptions can be true together. It
//! keeps copies of the clauses under their numbers, by which the log of a refutation names them.
#![tactic(auto)]

ghost use Rattle.std.specs.Prelude.{◌≡◌, IsTrue, IsSome, Some, None, IfOk, IfSome, OnErr};
ghost use Rattle.lv_clauses.specs.Literals.{is_clause};
ghost use Rattle.lv_clauses.specs.ClauseMap.{clause_at, Puts};

use super::answer::{Answer, Refutation};
use super::effort::Effort;
use super::front::Front;
use super::guide::Guide;
use super::part::is_part;
use super::search::Search;
use lv_base::{ClauseId, Lit};
use lv_clauses::ClauseSet;
use lv_last_values::LastValues;
use lv_trail::Trail;
use std::alloc::{AllocError, Global};
use std::marker::Model;

/// The clauses present over booleans counted from 0 and the last refutation, unless a clause was taken away since: contracts
/// see the two, the clauses as the map from their numbers. What else it keeps is the lead of its searches, the assumptions
/// of the last one with what they force, and the last values, from one to the next.
#[derive(Drop)]
pub struct Solver {
    alloc: Global,
    set: ClauseSet,
    front: Front,
    last: LastValues,
    refuted: Option<Refutation>,
}

impl Model for Solver {
    ghost use Rattle.std.specs.Prelude.{IfSome};
    ghost use Rattle.lv_sat.specs.Fronts.{FrontIsKept};
    ghost use Rattle.lv_last_values.specs.Occurrences.{IsUpToDate};
    ghost use Rattle.lv_sat.specs.Solver.{SolverValue, Refutes};

    ghost Value = { SolverValue };

    ghost view = { λ s. record { set = s.set; refuted = s.refuted } };

    ghost invariant = { λ s. record {
      front : FrontIsKept s.set s.front;
      last : IsUpToDate s.set s.last.values s.last.occurrences;
      refuted : IfSome s.refuted (Refutes s.set);
    } };
}

impl Solver {
    ghost use Rattle.lv_sat.specs.declared.answer.Answer.TheVariants.{Unsat};
    ghost use Rattle.lv_sat.specs.Answers.{Answers, IsSublist};
    ghost use Rattle.lv_sat.specs.Solver.{last_refuted};

    /// A solver of copies of a set's clauses, each with its number.
    pub fn new(alloc: Global, set: &ClauseSet) -> Result<Solver, AllocError>
        ensures set { IfOk result (λ s. s.set ≡ set.now) }
        ensures refuted { IfOk result (λ s. s.refuted ≡ None) }
    {
        Ok(Solver {
            alloc,
            set: set.copy()?,
            front: Front {
                search: Search {
                    alloc,
                    guide: Guide::new(alloc, set)?,
                    trail: Trail::new(alloc, set.bools())?,
                },
                levels: Vec::new(alloc),
            },
            last: LastValues::new(),
            refuted: None,
        })
    }

    /// Adds a clause and answers its number, which no clause had. After want of memory the clauses are as they were. Where
    /// memory suffices for the clause alone, it is there, and a search judges by it only in the end. What was refuted stays
    /// so: the log of it names other clauses.
    pub fn add(&mut self, lits: &[Lit]) -> Result<ClauseId, AllocError>
        requires { IsTrue (is_clause self.old.set.bools lits.now) }
        ensures vacant { IfOk result (λ id. clause_at self.old.set.slots id.0 ≡ None) }
        ensures added { IfOk result (λ id. Puts self.old.set self.new.set id.0 (Some lits.now)) }
        ensures kept { OnErr result (self.new.set ≡ self.old.set) }
        ensures refuted { self.new.refuted ≡ self.old.refuted }
    {
        let id = self.set.add(lits)?;
        self.last.add(lits, id);
        self.front.take_in(&self.set, lits, id);
        Ok(id)
    }

    /// Takes away a clause that is present, and with it what was refuted. Takes no memory.
    pub fn remove(&mut self, id: ClauseId)
        requires { IsSome (clause_at self.old.set.slots id.0) }
        ensures removed { Puts self.old.set self.new.set id.0 None }
        ensures refuted { self.new.refuted ≡ None }
    {
        self.front.forget();
        self.set.remove(id);
        self.last.remove();
        self.refuted = None;
        self.front.search.guide.watches.remove_given(id);
    }

    /// The clauses present, by which the log of a refutation can be checked.
    pub fn clauses(&self) -> &ClauseSet
        ensures { result.now ≡ self.now.set }
    {
        &self.set
    }

    /// Whether some values satisfy the clauses and make the assumptions true, which are of distinct booleans in range. It
    /// changes no clause. Where the core of the last refutation is a part of the assumptions, that refutation is the answer
    /// again, without a search.
    pub fn solve(&mut self, assumptions: &[Lit]) -> Result<Answer, AllocError>
        requires { IsTrue (is_clause self.old.set.bools assumptions.now) }
        ensures answer { IfOk result (λ answer. Answers self.old.set assumptions.now answer) }
        ensures again { IfSome self.old.refuted (λ r. IsSublist r.core assumptions.now → IfOk result (λ answer. answer ≡ Unsat r.core r.log)) }
        ensures kept { self.new.set ≡ self.old.set }
        ensures remembers { IfOk result (λ answer. self.new.refuted ≡ last_refuted self.old.refuted answer) }
        ensures failed { OnErr result (self.new.refuted ≡ self.old.refuted) }
    {
        if let Some(refuted) = &self.refuted
            && is_part(refuted.core.as_slice(), assumptions)
        {
            self.front.search.guide.note_again();
            return refuted.answer(self.alloc);
        }
        self.seek(assumptions)
    }

    /// What a search answers. The last refutation is kept.
    fn seek(&mut self, assumptions: &[Lit]) -> Result<Answer, AllocError>
        requires { IsTrue (is_clause self.old.set.bools assumptions.now) }
        ensures answer { IfOk result (λ answer. Answers self.old.set assumptions.now answer) }
        ensures kept { self.new.set ≡ self.old.set }
        ensures remembers { IfOk result (λ answer. self.new.refuted ≡ last_refuted self.old.refuted answer) }
        ensures failed { OnErr result (self.new.refuted ≡ self.old.refuted) }
    {
        let answer = self.front.answer(&self.set, &self.last, assumptions)?;
        match &answer {
            Answer::Sat { values, log: _ } => {
                self.last.keep(self.alloc, &self.set, values.as_slice());
                self.front.search.note_values();
            }
            Answer::Unsat { core, log } => {
                self.refuted = Some(Refutation::copy_of(self.alloc, core.as_slice(), log)?);
            }
        }
        Ok(answer)
    }

    /// What its searches did, all together.
    pub fn effort(&self) -> Effort {
        self.front.search.effort()
    }
}
