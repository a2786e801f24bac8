//! The truth maintenance system. All room is taken when it is made and when a clause is added, so that nothing else can
//! fail. Labels are kept from call to call: a call changes those alone that it touches.
#![tactic(auto)]

ghost use Rattle.std.specs.Prelude.{◌≡◌, ◌≤◌, ◌&&◌, option_map, [], length, take, position, Some, None, IfOk, OnErr, IsSome, IsTrue, is_some, count_by, slice_set};
ghost use Rattle.lv_clauses.specs.Literals.{is_clause, in_range};
ghost use Rattle.lv_clauses.specs.ClauseMap.{clause_at};
ghost use Rattle.lv_clauses.specs.Marks.{nothing, is_marked, marked, is_free};
ghost use Rattle.lv_ltms.specs.Trail.{reason_in};
ghost use Rattle.lv_ltms.specs.Marked.{literals_from};
ghost use Rattle.lv_ltms.specs.Labelled.{gives};

use super::labels::{Link, Reason};
use super::network::Network;
use lv_base::{BoolId, ClauseId, Lit};
use lv_clauses::{is_marked, negation, unmark};
use std::alloc::{AllocError, Global};
use std::marker::Model;

/// What a literal is under the clauses and assumptions present.
#[derive(Clone, Copy, Debug, PartialEq, Eq)]
pub enum Label {
    True,
    False,
    Unknown,
}

/// Whether the clauses and assumptions present contradict each other by unit propagation.
#[derive(Clone, Copy, Debug, PartialEq, Eq)]
pub enum Status {
    Consistent,
    Contradiction,
}

/// Clauses and assumptions that come and go over booleans counted from 0, with what unit propagation derives from those
/// present.
#[derive(Drop)]
pub struct Ltms {
    bools: u32,
    assumed: Vec<Option<bool>>,
    network: Network,
}

impl Model for Ltms {
    ghost use Rattle.std.specs.Prelude.{vec_capacity};
    ghost use Rattle.lv_ltms.specs.System.{System, IsKept};

    ghost Value = { System };

    ghost view = { λ s. record { bools = s.bools; clauses = s.network.arena; assumed = s.assumed.items; trail = s.network.labels.trail } };

    ghost invariant = { λ s. IsKept (record { bools = s.bools; clauses = s.network.arena; assumed = s.assumed.items; trail = s.network.labels.trail }) s.network.near s.network.far s.network.labels s.network.progress.done s.network.progress.conflict s.network.empty (vec_capacity s.network.fallen) };
}

impl Ltms {
    ghost use Rattle.lv_ltms.specs.System.{System, PutsClause, PutsAssumed, Retracts, IsRefuted, TellsStatus, IsWholeTrail, IsCore};
    ghost use Rattle.lv_ltms.specs.Told.{TellsLabel};

    /// The system of no clauses and no assumptions over so many booleans.
    pub fn new(alloc: Global, bools: u32) -> Result<Ltms, AllocError>
        ensures { IfOk result (λ s. s ≡ record { bools = bools; clauses = []; assumed = nothing bools; trail = [] }) }
    {
        Ok(Ltms {
            bools,
            assumed: vec![in alloc; None; bools as usize]?,
            network: Network::new(alloc, bools)?,
        })
    }

    /// Adds a clause and answers its number, which no clause had. After want of memory the system is as it was.
    pub fn add_clause(&mut self, lits: &[Lit]) -> Result<ClauseId, AllocError>
        requires { IsTrue (is_clause self.old.bools lits.now) }
        ensures vacant { IfOk result (λ id. clause_at self.old.clauses id.0 ≡ None) }
        ensures added { IfOk result (λ id. PutsClause self.old self.new id.0 (Some lits.now)) }
        ensures kept { OnErr result (self.new ≡ self.old) }
    {
        let id = self.network.add(lits)?;
        self.network.propagate();
        Ok(id)
    }

    /// Takes away a clause that is present.
    pub fn drop_clause(&mut self, id: ClauseId)
        requires { IsSome (clause_at self.old.clauses id.0) }
        ensures { PutsClause self.old self.new id.0 None }
    {
        let trail = self.network.labels.trail();
        let from = first_given(trail, id).unwrap_or(trail.len());
        self.network.remove(id);
        self.network.revise(from, self.assumed.as_slice(), false);
    }

    /// Adds an assumption: a literal that isn't assumed, nor its negation. Where its negation is derived, that label
    /// gives way to the assumption.
    pub fn assume(&mut self, lit: Lit)
        requires range { IsTrue (in_range self.old.bools lit) }
        requires free { IsTrue (is_free self.old.assumed lit) }
        ensures { PutsAssumed self.old self.new (marked self.old.assumed lit) }
    {
        self.assumed[lit.var.0 as usize] = Some(lit.sign);
        if is_marked(self.network.labels.marks(), lit) {
            return;
        }
        if is_marked(self.network.labels.marks(), negation(lit)) {
            let from = self.network.labels.place_of(lit);
            self.network.revise(from, self.assumed.as_slice(), true);
            return;
        }
        self.network.labels.push(Link {
            lit,
            reason: Reason::Assumed,
        });
        self.network.propagate();
    }

    /// Takes back an assumption. From a consistent system each true literal that didn't rest on it keeps its reason.
    pub fn retract(&mut self, lit: Lit)
        requires { IsTrue (is_marked self.old.assumed lit) }
        ensures { Retracts self.old self.new lit }
    {
        unmark(&mut self.assumed, lit);
        let from = self.network.labels.place_of(lit);
        self.network.revise(from, self.assumed.as_slice(), false);
    }

    /// Whether a literal is one of the assumptions present.
    pub fn is_assumed(&self, lit: Lit) -> bool
        ensures { result ≡ is_marked self.now.assumed lit }
    {
        is_marked(self.assumed.as_slice(), lit)
    }

    /// Whether a literal may be assumed: its boolean is in range, and neither it nor its negation is assumed.
    pub fn can_assume(&self, lit: Lit) -> bool
        ensures { result ≡ (in_range self.now.bools lit && is_free self.now.assumed lit) }
    {
        let index = lit.var.0 as usize;
        index < self.assumed.len() && self.assumed[index].is_none()
    }

    /// The literals of the clause of a number, None exactly where none is present.
    pub fn find_clause(&self, id: ClauseId) -> Option<&[Lit]>
        ensures { option_map (λ lits. lits.now) result ≡ clause_at self.now.clauses id.0 }
    {
        self.network.arena.find(id)
    }

    /// The number of booleans.
    pub fn bools(&self) -> u32
        ensures { result ≡ self.now.bools }
    {
        self.bools
    }

    /// Whether unit propagation over what is present comes to a contradiction.
    pub fn status(&self) -> Status
        ensures status { TellsStatus self.now result }
        ensures trail { ¬ IsRefuted self.now → IsWholeTrail self.now }
    {
        if self.network.has_false() {
            Status::Contradiction
        } else {
            Status::Consistent
        }
    }

    /// What a literal is. Only while the system is consistent.
    pub fn label(&self, lit: Lit) -> Label
        requires { ¬ IsRefuted self.now }
        ensures { TellsLabel self.now lit result }
    {
        if is_marked(self.network.labels.marks(), lit) {
            return Label::True;
        }
        if is_marked(self.network.labels.marks(), negation(lit)) {
            return Label::False;
        }
        Label::Unknown
    }

    /// Why a literal is true, or its negation where it is false; None exactly where it is unknown. Only while the system
    /// is consistent.
    pub fn reason(&self, lit: Lit) -> Option<Reason>
        requires { ¬ IsRefuted self.now }
        ensures reason { result ≡ reason_in self.now.trail lit }
        ensures trail { IsWholeTrail self.now }
    {
        self.network.labels.reason(lit)
    }

    /// How many assumptions are present.
    pub fn assumption_count(&self) -> usize
        ensures { result ≡ count_by is_some self.now.assumed }
    {
        self.assumed.iter().filter(|mark| mark.is_some()).count()
    }

    /// Writes assumptions which with the clauses present are contradictory, and answers how many. Only while there is a
    /// contradiction, and with room for all assumptions. They are all that are present: which of them the contradiction
    /// rests on isn't worked out.
    pub fn core(&self, out: &mut [Lit]) -> usize
        requires refuted { IsRefuted self.now }
        requires room { count_by is_some self.now.assumed ≤ length out.old }
        ensures within { result ≤ length out.old }
        ensures core { IsCore self.now (take result out.new) }
    {
        write_assumptions(self.bools, self.assumed.as_slice(), out)
    }
}

/// Writes the literals marked, by rising boolean, and answers how many.
fn write_assumptions(bools: u32, assumed: &[Option<bool>], out: &mut [Lit]) -> usize
    requires len { length assumed.now ≡ bools }
    requires room { count_by is_some assumed.now ≤ length out.old }
    ensures within { result ≤ length out.old }
    ensures written { take result out.new ≡ literals_from 0 assumed.now }
{
    let mut written = 0;
    for var in 0..bools {
        if let Some(sign) = assumed[var as usize] {
            out[written] = Lit {
                var: BoolId(var),
                sign,
            };
            written += 1;
        }
    }
    written
}

/// The first place of a trail at which a clause of this number is the reason.
fn first_given(trail: &[Link], id: ClauseId) -> Option<usize>
    ensures { result ≡ position (gives id) trail.now }
{
    trail
        .iter()
        .position(|link| link.reason == Reason::Clause(id))
}
