//! Marks of booleans with a note of what was marked, so that clearing them takes no longer than marking did.
#![tactic(auto)]

ghost use Rattle.std.specs.Prelude.{◌≡◌, ◌&&◌, length, IfOk, OnOk, OnErr};
ghost use Rattle.lv_clauses.specs.Marks.{nothing, marked};
ghost use Rattle.lv_clauses.specs.Noted as Noted;
ghost use Rattle.lv_clauses.specs.Noted.{AreTaken};

use super::marks::unmark;
use lv_base::Lit;
use std::alloc::{AllocError, Global};
use std::marker::Model;

/// A mark or none for each boolean, seen by contracts as their list.
#[derive(Drop)]
pub struct Marks {
    marks: Vec<Option<bool>>,
    taken: Vec<Lit>,
}

impl Model for Marks {
    ghost use Rattle.std.specs.Prelude.{List, Bool, Option};
    ghost use Rattle.lv_clauses.specs.Noted.{AreNoted};

    ghost Value = { List (Option Bool) };

    ghost view = { λ m. m.marks.items };

    ghost invariant = { λ m. AreNoted m.marks.items m.taken.items };
}

impl Marks {
    /// Marks of so many booleans, none of them marked.
    pub fn new(alloc: Global, bools: u32) -> Result<Marks, AllocError>
        ensures { IfOk result (λ m. m ≡ nothing bools) }
    {
        let marks = vec![in alloc; None; bools as usize]?;
        let taken = Vec::with_capacity(alloc, bools as usize)?;
        Ok(Marks { marks, taken })
    }

    pub fn as_slice(&self) -> &[Option<bool>]
        ensures { result.now ≡ self.now }
    {
        self.marks.as_slice()
    }

    /// Whether the literal's boolean is in range and unmarked.
    pub fn is_open(&self, lit: Lit) -> bool
        ensures { result ≡ Noted.is_open self.now lit }
    {
        let index = lit.var.0 as usize;
        index < self.marks.len() && self.marks[index].is_none()
    }

    /// Takes a literal as true. One whose boolean is out of range changes nothing, and so does want of memory.
    pub fn take(&mut self, lit: Lit) -> Result<(), AllocError>
        ensures taken { OnOk result (self.new ≡ marked self.old lit) }
        ensures kept { OnErr result (self.new ≡ self.old) }
    {
        let index = lit.var.0 as usize;
        if index < self.marks.len() {
            self.taken.push(lit)?;
            self.marks[index] = Some(lit.sign);
        }
        Ok(())
    }

    /// Unmarks every boolean. Takes no memory.
    pub fn clear(&mut self)
        ensures { self.new ≡ nothing (length self.old) }
    {
        unmark_all(&mut self.marks, self.taken.as_slice());
        self.taken.clear();
    }
}

/// Unmarks the booleans of all literals taken, which are all that are marked.
fn unmark_all(marks: &mut Vec<Option<bool>>, taken: &[Lit])
    requires { AreTaken marks.old.items taken.now }
    ensures { marks.new.items ≡ nothing (length marks.old.items) }
{
    for lit in taken {
        unmark(marks, *lit);
    }
}
