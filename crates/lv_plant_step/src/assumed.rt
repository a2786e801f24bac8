//! Literals that are assumed together. Each stands once, and marks tell at once whether it does or its negation.
#![tactic(auto)]

ghost use Rattle.std.specs.Prelude.{◌≡◌, [], true, false, All, IfOk, OnOk};
ghost use Rattle.std.specs.List.{list_all};
ghost use Rattle.lv_clauses.specs.Literals.{in_range, lit_holds};
ghost use Rattle.lv_plant_step.specs.Assuming.{SaysMore, IsLit, Tells, AreMarked};

use lv_base::{Lit, Seq};
use lv_clauses::{is_marked, negation};
use lv_sat::{Answer, Solver};
use std::alloc::{AllocError, Global};
use std::marker::Model;

/// Literals of distinct booleans, a mark of each, and whether one was to be assumed against another.
#[derive(Drop)]
pub struct Assumed {
    lits: Vec<Lit>,
    marks: Vec<Option<bool>>,
    has_clash: bool,
}

impl Model for Assumed {
    ghost use Rattle.std.specs.Prelude.{length};
    ghost use Rattle.lv_plant_step.specs.Assuming.{Assumption, AreMarked};

    ghost Value = { Assumption };

    ghost view = { λ s. record { bools = length s.marks.items; lits = s.lits.items; has_clash = s.has_clash } };

    ghost invariant = { λ s. AreMarked s.lits.items s.marks.items };
}

impl Assumed {
    /// Nothing, over so many booleans.
    pub fn new(alloc: Global, bools: u32) -> Result<Assumed, AllocError>
        ensures { IfOk result (λ s. s ≡ record { bools = bools; lits = []; has_clash = false }) }
    {
        let marks = vec![in alloc; None; bools as usize]?;
        Ok(Assumed {
            lits: Vec::new(alloc),
            marks,
            has_clash: false,
        })
    }

    /// The same once more.
    pub fn copied(&self, alloc: Global) -> Result<Assumed, AllocError>
        ensures { IfOk result (λ s. s ≡ self.now) }
    {
        let lits = Vec::from_slice(alloc, self.lits.as_slice())?;
        let marks = Vec::from_slice(alloc, self.marks.as_slice())?;
        Ok(Assumed {
            lits,
            marks,
            has_clash: self.has_clash,
        })
    }

    /// Assumes a literal too. One that is assumed adds nothing; with one whose negation is, nothing is possible.
    pub fn assume(&mut self, lit: Lit) -> Result<(), AllocError>
        requires { in_range self.old.bools lit ≡ true }
        ensures { OnOk result (SaysMore self.old self.new (λ values. lit_holds values lit)) }
    {
        if is_marked(self.marks.as_slice(), lit) {
            return Ok(());
        }
        if is_marked(self.marks.as_slice(), negation(lit)) {
            self.has_clash = true;
            return Ok(());
        }
        self.lits.push(lit)?;
        self.marks[lit.var.0 as usize] = Some(lit.sign);
        Ok(())
    }

    /// Whether some values satisfy the solver's clauses and make all that is assumed true: such values, if there are any. It
    /// changes no clause.
    pub fn solve(&self, solver: &mut Solver) -> Result<Option<Seq<bool>>, AllocError>
        requires { solver.old.set.bools ≡ self.now.bools }
        ensures answer { IfOk result (Tells solver.old.set self.now) }
        ensures kept { solver.new.set ≡ solver.old.set }
    {
        if self.has_clash {
            return Ok(None);
        }
        match solver.solve(self.lits.as_slice())? {
            Answer::Sat { values, log: _ } => Ok(Some(values)),
            Answer::Unsat { .. } => Ok(None),
        }
    }
}

/// Assumes these literals too.
pub fn assume_all(assumed: &mut Assumed, lits: &[Lit]) -> Result<(), AllocError>
    requires { All (IsLit assumed.old.bools) lits.now }
    ensures { OnOk result (SaysMore assumed.old assumed.new (λ values. list_all (lit_holds values) lits.now)) }
{
    for lit in lits {
        assumed.assume(*lit)?;
    }
    Ok(())
}
