//! For each literal the clauses that watch it: a list that runs through an arena of watches, one for each clause. So a
//! clause comes to watch another literal without taking memory.
#![tactic(auto)]

ghost use Rattle.std.specs.Prelude.{◌≡◌, ℕ, ◌<◌, ◌≤◌, [], length, slice_index_or, replicate, IfOk, IfSome, OnOk, None, Some};
ghost use Rattle.lv_ltms.specs.Trail.{same_lit};
ghost use Rattle.lv_ltms.specs.Watching as Watching;
ghost use Rattle.lv_ltms.specs.Watching.{last, blank, next_of, head_at, head_of, next_at, lit_at, with_head_of, with_head, with_watch, Fits};

use lv_base::{BoolId, ClauseId, Lit};
use std::alloc::{AllocError, Global};
use std::marker::Model;

/// For how many clauses there may be room: their numbers are kept in half a word.
const MOST: usize = 4294967295;

/// The clause of the number before this one, none at 0.
#[derive(Clone, Copy, Debug)]
pub struct Next(u32);

const LAST: Next = Next(0);

/// The literal that a clause watches, and the next clause that watches it.
#[derive(Clone, Copy, Debug)]
pub struct Watch {
    lit: Lit,
    next: Next,
}

/// What stands in the place of a clause that watches nothing.
const BLANK: Watch = Watch {
    lit: Lit {
        var: BoolId(0),
        sign: false,
    },
    next: LAST,
};

/// The first clause that watches each literal, true and false, and the watch of each clause by its number.
#[derive(Drop)]
pub struct Watchers {
    of_true: Vec<Next>,
    of_false: Vec<Next>,
    watches: Vec<Watch>,
}

impl Model for Watchers {
    ghost use Rattle.std.specs.Prelude.{◌≡◌, ◌≤◌, length};
    ghost use Rattle.lv_ltms.specs.Watching.{Rows};

    ghost Value = { Rows };

    ghost view = { λ s. record { of_true = s.of_true.items; of_false = s.of_false.items; watches = s.watches.items } };

    ghost invariant = { λ s. (length s.of_true.items ≡ length s.of_false.items) × (length s.watches.items ≤ 4294967295) };
}

impl Watchers {
    /// No clause watches any of the literals of so many booleans.
    pub fn new(alloc: Global, bools: u32) -> Result<Watchers, AllocError>
        ensures { IfOk result (λ s. s ≡ record { of_true = replicate bools last; of_false = replicate bools last; watches = [] }) }
    {
        Ok(Watchers {
            of_true: vec![in alloc; LAST; bools as usize]?,
            of_false: vec![in alloc; LAST; bools as usize]?,
            watches: Vec::new(alloc),
        })
    }

    /// Has a place for the watch of a clause. What is watched stays as it was, also after want of memory or where the
    /// number takes more than half a word.
    pub fn fit(&mut self, id: ClauseId) -> Result<(), AllocError>
        ensures room { OnOk result (id.0 < length self.new.watches) }
        ensures kept { Fits self.old self.new }
    {
        grow(&mut self.watches, id.0)
    }

    /// The first clause that watches a literal.
    pub fn first(&self, lit: Lit) -> Option<ClauseId>
        ensures { result ≡ head_of self.now lit }
    {
        clause_of(self.head(lit))
    }

    fn head(&self, lit: Lit) -> Next
        ensures { result ≡ head_at self.now lit }
    {
        let firsts = if lit.sign {
            &self.of_true
        } else {
            &self.of_false
        };
        match firsts.get(lit.var.0 as usize) {
            Some(first) => *first,
            None => LAST,
        }
    }

    /// The literal that a clause watches.
    pub fn lit(&self, id: ClauseId) -> Lit
        requires { id.0 < length self.now.watches }
        ensures { result ≡ lit_at self.now id.0 }
    {
        self.watches[id.0].lit
    }

    /// The clause after this one in its list.
    pub fn next(&self, id: ClauseId) -> Option<ClauseId>
        requires { id.0 < length self.now.watches }
        ensures { result ≡ next_at self.now id.0 }
    {
        clause_of(self.watches[id.0].next)
    }

    /// Whether a clause watches this literal.
    pub fn is_watch(&self, id: ClauseId, lit: Lit) -> bool
        requires { id.0 < length self.now.watches }
        ensures { result ≡ same_lit (lit_at self.now id.0) lit }
    {
        self.watches[id.0].lit == lit
    }

    /// For how many clauses there is room.
    pub fn room(&self) -> usize
        ensures { result ≡ length self.now.watches }
    {
        self.watches.len()
    }

    /// Takes the list of a literal away, and answers its first clause. Takes no memory.
    pub fn take(&mut self, lit: Lit) -> Option<ClauseId>
        requires { lit.var.0 < length self.old.of_true }
        ensures first { result ≡ head_of self.old lit }
        ensures taken { self.new ≡ with_head self.old lit None }
    {
        let first = self.first(lit);
        self.set_head(lit, LAST);
        first
    }

    /// Lets a clause that is in no list watch a literal. Takes no memory.
    pub fn put(&mut self, id: ClauseId, lit: Lit)
        requires room { id.0 < length self.old.watches }
        requires range { lit.var.0 < length self.old.of_true }
        ensures { self.new ≡ with_watch self.old id lit }
    {
        let next = self.head(lit);
        self.watches[id.0] = Watch { lit, next };
        self.set_head(lit, next_to(id));
    }

    fn set_head(&mut self, lit: Lit, head: Next)
        requires { lit.var.0 < length self.old.of_true }
        ensures { self.new ≡ with_head_of self.old lit.sign lit.var.0 head }
    {
        let index = lit.var.0 as usize;
        if lit.sign {
            self.of_true[index] = head;
        } else {
            self.of_false[index] = head;
        }
    }
}

/// The clause that one is next to.
fn clause_of(next: Next) -> Option<ClauseId>
    ensures { result ≡ Watching.clause_of next }
{
    if next.0 == 0 {
        return None;
    }
    Some(ClauseId((next.0 - 1) as usize))
}

/// What is next to a clause.
fn next_to(id: ClauseId) -> Next
    requires { id.0 < 4294967295 }
    ensures { result ≡ next_of (Some id) }
{
    Next((id.0 + 1) as u32)
}

/// Has a watch at this number, and puts blank ones before it where there are none.
fn grow(watches: &mut Vec<Watch>, number: usize) -> Result<(), AllocError>
    requires { length watches.old.items ≤ 4294967295 }
    ensures room { OnOk result (number < length watches.new.items) }
    ensures most { length watches.new.items ≤ 4294967295 }
    ensures more { length watches.old.items ≤ length watches.new.items }
    ensures same { (i : ℕ) → slice_index_or watches.new.items i blank ≡ slice_index_or watches.old.items i blank }
{
    if number >= MOST {
        return Err(AllocError);
    }
    while watches.len() <= number {
        watches.push(BLANK)?;
    }
    Ok(())
}
