//! Which booleans an analysis saw. Marks are taken back by going back along what was marked, and the walk ends where nothing
//! that was seen is left.
#![tactic(auto)]

ghost use Rattle.std.specs.Prelude.{◌≡◌, true, false, [], length, IfOk, OnOk, option_map, slice_set, unwrap_or};
ghost use Rattle.lv_trail.specs.Analysis as Analysis;
ghost use Rattle.lv_trail.specs.Analysis.{denial, seen_all};
ghost use Rattle.lv_trail.specs.Trail.{unforced};

use super::trail::Entry;
use lv_base::Lit;
use lv_clauses::negation;
use std::alloc::{AllocError, Global};

/// A mark for each boolean seen, a literal of each that was marked, and how many of them the walk back has still to come to.
#[derive(Drop)]
pub struct Seen {
    alloc: Global,
    marks: Vec<bool>,
    noted: Vec<Lit>,
    ahead: usize,
}

impl Seen {
    pub fn new(alloc: Global) -> Seen {
        Seen {
            alloc,
            marks: Vec::new(alloc),
            noted: Vec::new(alloc),
            ahead: 0,
        }
    }

    /// Has a place for each boolean, and nothing noted.
    pub fn begin(&mut self, bools: u32) -> Result<(), AllocError>
        ensures { OnOk result (length self.new.marks.items ≡ bools) }
    {
        self.noted.clear();
        self.ahead = 0;
        if self.marks.len() != bools as usize {
            self.marks.clear();
            self.marks.resize(bools as usize, false)?;
        }
        Ok(())
    }

    /// Takes the marks of all booleans noted back.
    pub fn end(&mut self) {
        for lit in &self.noted {
            unmark(*lit, &mut self.marks);
        }
    }

    /// Takes all marks back, of which some may not be noted.
    pub fn clear(&mut self) {
        self.marks.clear();
    }

    /// The literals whose booleans were marked.
    pub fn noted(&self) -> &[Lit] {
        self.noted.as_slice()
    }

    /// Whether more than one of the booleans seen is still to come.
    pub fn is_ahead(&self) -> bool {
        self.ahead > 1
    }

    /// Notes that the walk came to an entry, which was seen or not.
    pub fn come_to(&mut self, is_seen: bool)
        ensures { self.new.marks ≡ self.old.marks }
    {
        if is_seen {
            self.ahead = self.ahead.wrapping_sub(1);
        }
    }

    /// Whether the literal's boolean was seen.
    pub fn sees(&self, lit: Lit) -> bool
        ensures { result ≡ Analysis.sees self.now.marks.items lit }
    {
        let index = lit.var.0 as usize;
        index < self.marks.len() && self.marks[index]
    }

    /// Sees the booleans of a clause, if there is one.
    pub fn see_clause(&mut self, clause: Option<&[Lit]>)
        ensures { self.new.marks.items ≡ seen_all self.old.marks.items (unwrap_or (option_map (λ lits. lits.now) clause.entry) []) }
    {
        match clause {
            Some(lits) => self.see_all(lits),
            None => {}
        }
    }

    fn see_all(&mut self, lits: &[Lit])
        ensures { self.new.marks.items ≡ seen_all self.old.marks.items lits.now }
    {
        for lit in lits {
            self.see(*lit);
        }
    }

    /// Sees a literal's boolean, which is noted where it wasn't seen before. Where memory is wanting its mark stays, which
    /// does no harm.
    fn see(&mut self, lit: Lit)
        ensures { self.new.marks.items ≡ slice_set self.old.marks.items lit.var.0 true }
    {
        let index = lit.var.0 as usize;
        if index < self.marks.len() {
            if !self.marks[index] {
                self.ahead = self.ahead.wrapping_add(1);
                match self.noted.push(lit) {
                    Ok(()) | Err(_) => {}
                }
            }
            self.marks[index] = true;
        }
    }

    /// Sees the literal's boolean no more.
    pub fn unsee(&mut self, lit: Lit)
        ensures { self.new.marks.items ≡ slice_set self.old.marks.items lit.var.0 false }
    {
        unmark(lit, &mut self.marks);
    }

    /// The negations of the entries seen, in their order.
    pub fn deny(&self, entries: &[Entry]) -> Result<Vec<Lit>, AllocError>
        ensures { IfOk result (λ clause. clause.items ≡ denial self.now.marks.items entries.now) }
    {
        let mut clause = Vec::new(self.alloc);
        for entry in entries {
            if self.sees(entry.lit) {
                clause.push(negation(entry.lit))?;
            }
        }
        Ok(clause)
    }

    /// The negations of the entries seen that have no reason, in their order.
    pub fn deny_unforced(&self, entries: &[Entry]) -> Result<Vec<Lit>, AllocError>
        ensures { IfOk result (λ clause. clause.items ≡ denial self.now.marks.items (unforced entries.now)) }
    {
        let mut clause = Vec::new(self.alloc);
        for entry in entries {
            if entry.reason.is_none() && self.sees(entry.lit) {
                clause.push(negation(entry.lit))?;
            }
        }
        Ok(clause)
    }
}

fn unmark(lit: Lit, marks: &mut [bool])
    ensures { marks.new ≡ slice_set marks.old lit.var.0 false }
{
    let index = lit.var.0 as usize;
    if index < marks.len() {
        marks[index] = false;
    }
}
