//! Labels and their reasons: a mark or none for each boolean, the reason that supports each label, and the trail, the
//! literals marked in the order in which they were derived. The trail has room for every boolean from the start.
#![tactic(auto)]

ghost use Rattle.std.specs.Prelude.{◌≡◌, ◌<◌, ◌≤◌, false, [], length, take, position, unwrap_or, IfOk, IsTrue, slice_set, replicate};
ghost use Rattle.lv_clauses.specs.Literals.{neg, same_var};
ghost use Rattle.lv_clauses.specs.Marks.{nothing};
ghost use Rattle.lv_ltms.specs.declared.labels.Reason.TheVariants.{Assumed};
ghost use Rattle.lv_ltms.specs.Labelled.{with_link, without_mark, support_if_marked, Agrees};
ghost use Rattle.lv_ltms.specs.Trail.{reason_in};
ghost use Rattle.lv_ltms.specs.Standing.{true_before};

use lv_base::{BoolId, ClauseId, Lit};
use lv_clauses::{is_marked, negation};
use std::alloc::{AllocError, Global};
use std::marker::Model;

/// Why a literal is true.
#[derive(Clone, Copy, Debug, PartialEq, Eq)]
pub enum Reason {
    /// It is an assumption.
    Assumed,
    /// The other literals of this clause are false.
    Clause(ClauseId),
}

/// A literal on the trail, with its reason.
#[derive(Clone, Copy, Debug, PartialEq, Eq)]
pub struct Link {
    pub lit: Lit,
    pub reason: Reason,
}

/// Marks, supports and trail, seen by contracts as their lists.
#[derive(Drop)]
pub struct Labels {
    marks: Vec<Option<bool>>,
    supports: Vec<Reason>,
    trail: Vec<Link>,
}

impl Model for Labels {
    ghost use Rattle.std.specs.Prelude.{◌≤◌, length, vec_capacity};
    ghost use Rattle.lv_ltms.specs.Labelled.{Labelled};

    ghost Value = { Labelled };

    ghost view = { λ s. record { marks = s.marks.items; supports = s.supports.items; trail = s.trail.items } };

    ghost invariant = { λ s. length s.marks.items ≤ vec_capacity s.trail };
}

impl Labels {
    /// Labels of so many booleans, none of them marked.
    pub fn new(alloc: Global, bools: u32) -> Result<Labels, AllocError>
        ensures { IfOk result (λ s. s ≡ record { marks = nothing bools; supports = replicate bools Assumed; trail = [] }) }
    {
        Ok(Labels {
            marks: vec![in alloc; None; bools as usize]?,
            supports: vec![in alloc; Reason::Assumed; bools as usize]?,
            trail: Vec::with_capacity(alloc, bools as usize)?,
        })
    }

    /// A mark or none for each boolean.
    pub fn marks(&self) -> &[Option<bool>]
        ensures { result.now ≡ self.now.marks }
    {
        self.marks.as_slice()
    }

    /// The trail.
    pub fn trail(&self) -> &[Link]
        ensures { result.now ≡ self.now.trail }
    {
        self.trail.as_slice()
    }

    /// Marks a literal, at the end of the trail.
    pub fn push(&mut self, link: Link)
        requires room { length self.old.trail < length self.old.marks }
        requires mark { link.lit.var.0 < length self.old.marks }
        requires support { link.lit.var.0 < length self.old.supports }
        ensures { self.new ≡ with_link self.old link }
    {
        let index = link.lit.var.0 as usize;
        self.marks[index] = Some(link.lit.sign);
        self.supports[index] = link.reason;
        self.trail.push_reserved(link);
    }

    /// Takes away a literal's mark. The trail stays as it is.
    pub fn unmark(&mut self, lit: Lit)
        requires { lit.var.0 < length self.old.marks }
        ensures { self.new ≡ without_mark self.old lit }
    {
        self.marks[lit.var.0 as usize] = None;
    }

    /// Puts a link at a place of the trail. Marks and supports stay as they are.
    pub fn put(&mut self, place: usize, link: Link)
        requires { place < length self.old.trail }
        ensures { self.new ≡ record { marks = self.old.marks; supports = self.old.supports; trail = slice_set self.old.trail place link } }
    {
        self.trail[place] = link;
    }

    /// Cuts the trail back to so many links. Marks and supports stay as they are.
    pub fn cut(&mut self, len: usize)
        ensures { self.new ≡ record { marks = self.old.marks; supports = self.old.supports; trail = take len self.old.trail } }
    {
        self.trail.truncate(len);
    }

    /// Where the literal's boolean stands on the trail; the trail's length where it doesn't.
    pub fn place_of(&self, lit: Lit) -> usize
        ensures { result ≡ unwrap_or (position (λ k. same_var k.lit lit) self.now.trail) (length self.now.trail) }
    {
        first_of(self.trail.as_slice(), lit).unwrap_or(self.trail.len())
    }

    /// At most so many links of the trail, before which the literal isn't false.
    pub fn before_false(&self, lit: Lit, len: usize) -> usize
        requires agrees { Agrees self.now.marks self.now.supports self.now.trail }
        ensures within { result ≤ len }
        ensures clear { true_before result self.now.trail (neg lit) ≡ false }
    {
        if is_marked(self.marks(), negation(lit)) {
            self.place_of(lit).min(len)
        } else {
            len
        }
    }

    /// The reason of a literal or its negation, None where neither is marked.
    pub fn reason(&self, lit: Lit) -> Option<Reason>
        requires supports { length self.now.supports ≡ length self.now.marks }
        requires agrees { Agrees self.now.marks self.now.supports self.now.trail }
        ensures { result ≡ reason_in self.now.trail lit }
    {
        kept_support(self.marks.as_slice(), self.supports.as_slice(), lit)
    }
}

/// The support kept for the literal's boolean, if that is marked.
fn kept_support(marks: &[Option<bool>], supports: &[Reason], lit: Lit) -> Option<Reason>
    requires { length supports.now ≡ length marks.now }
    ensures { result ≡ support_if_marked marks.now supports.now lit }
{
    let index = lit.var.0 as usize;
    if index >= marks.len() {
        return None;
    }
    match marks[index] {
        Some(_) => Some(supports[index]),
        None => None,
    }
}

/// The first place of a trail at which the literal's boolean stands.
fn first_of(trail: &[Link], lit: Lit) -> Option<usize>
    ensures { result ≡ position (λ k. same_var k.lit lit) trail.now }
{
    trail.iter().position(|link| link.lit.var == lit.var)
}
