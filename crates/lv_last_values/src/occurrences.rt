//! Which clauses hold each literal, so that where a literal became false only these need a look.
#![tactic(auto)]

ghost use Rattle.std.specs.Prelude.{◌≡◌, ◌<◌, ◌≤◌, ◌∷◌, [], length, IfOk, OnOk, slice_index_or, unwrap_or, ℕ};
ghost use Rattle.lv_clauses.specs.ClauseMap.{clause_at};
ghost use Rattle.lv_last_values.specs.Occurrences.{NamesAll};
ghost use Rattle.lv_last_values.specs.Rows as Rows;
ghost use Rattle.lv_last_values.specs.Rows.{AreRows, Names, head_of, id_of, link_at};

use lv_base::{ClauseId, Lit};
use lv_clauses::ClauseSet;
use std::alloc::{AllocError, Global};
use std::marker::Model;

/// A clause in a literal's row, by its number, and the place of the link behind it. Places are counted from 1; 0 ends the
/// row. There is one for each literal of each clause, so that both are of 32 bits; where these don't suffice there are no
/// occurrences.
#[derive(Clone, Copy, Debug)]
pub struct Link {
    number: u32,
    next: u32,
}

impl Link {
    pub fn id(self) -> ClauseId
        ensures { result ≡ id_of self }
    {
        ClauseId(self.number as usize)
    }

    pub fn next(self) -> usize
        ensures { result ≡ self.next }
    {
        self.next as usize
    }
}

/// For each literal the clauses that hold it, and maybe such as held it before they were taken away.
#[derive(Drop)]
pub struct Occurrences {
    heads: Vec<u32>,
    links: Vec<Link>,
}

impl Model for Occurrences {
    ghost use Rattle.lv_last_values.specs.Rows.{AreRows};
    ghost use Rattle.lv_last_values.specs.Rows as Rows;

    ghost Value = { Rows.Rows };

    ghost view = { λ o. record { heads = o.heads.items; links = o.links.items } };

    ghost invariant = { λ o. AreRows o.heads.items o.links.items };
}

impl Occurrences {
    /// Of all clauses present.
    pub fn of(alloc: Global, set: &ClauseSet) -> Result<Occurrences, AllocError>
        ensures { IfOk result (λ o. NamesAll set.now.slots o) }
    {
        let mut occurrences = Occurrences {
            heads: Vec::new(alloc),
            links: Vec::new(alloc),
        };
        for key in 0..set.bound() {
            occurrences.add_present(set, ClauseId(key))?;
        }
        Ok(occurrences)
    }

    /// Adds the clause of this number, if it is present.
    fn add_present(&mut self, set: &ClauseSet, id: ClauseId) -> Result<(), AllocError>
        ensures { OnOk result (Names (unwrap_or (clause_at set.now.slots id.0) []) id self.old self.new) }
    {
        match set.find(id) {
            Some(lits) => self.add(lits, id),
            None => Ok(()),
        }
    }

    /// Adds a clause to the rows of its literals.
    pub fn add(&mut self, lits: &[Lit], id: ClauseId) -> Result<(), AllocError>
        ensures { OnOk result (Names lits.now id self.old self.new) }
    {
        for lit in lits {
            enter(&mut self.heads, &mut self.links, *lit, id)?;
        }
        Ok(())
    }

    /// The place at which a literal's row begins.
    pub fn head(&self, lit: Lit) -> usize
        ensures value { result ≡ head_of self.now.heads lit }
        ensures within { result ≤ length self.now.links }
    {
        let row = row_of(lit);
        if row < self.heads.len() {
            self.heads[row] as usize
        } else {
            0
        }
    }

    /// The link at a place.
    pub fn link(&self, place: usize) -> Link
        requires some { 0 < place }
        requires within { place ≤ length self.now.links }
        ensures value { result ≡ link_at self.now.links place }
        ensures before { result.next < place }
    {
        self.links[place - 1]
    }
}

/// The number of a literal's row.
fn row_of(lit: Lit) -> usize
    ensures { result ≡ Rows.row_of lit }
{
    let first = 2 * lit.var.0 as usize;
    if lit.sign { first + 1 } else { first }
}

/// Adds a clause to the row of a literal.
fn enter(
    heads: &mut Vec<u32>,
    links: &mut Vec<Link>,
    lit: Lit,
    id: ClauseId,
) -> Result<(), AllocError>
    requires { AreRows heads.old.items links.old.items }
    ensures rows { AreRows heads.new.items links.new.items }
    ensures names { OnOk result (Names (lit ∷ []) id (record { heads = heads.old.items; links = links.old.items }) (record { heads = heads.new.items; links = links.new.items })) }
{
    let row = row_of(lit);
    let number = short(id.0)?;
    fit(heads, row)?;
    links.push(Link {
        number,
        next: heads[row],
    })?;
    heads[row] = short(links.len())?;
    Ok(())
}

/// The same number in 32 bits.
fn short(number: usize) -> Result<u32, AllocError>
    ensures { IfOk result (λ short. short ≡ number) }
{
    match u32::try_from(number) {
        Ok(short) => Ok(short),
        Err(_) => Err(AllocError),
    }
}

/// Has a row of this number, by adding empty ones.
fn fit(heads: &mut Vec<u32>, row: usize) -> Result<(), AllocError>
    ensures within { OnOk result (row < length heads.new.items) }
    ensures same { (k : ℕ) → slice_index_or heads.new.items k 0 ≡ slice_index_or heads.old.items k 0 }
{
    while heads.len() <= row {
        heads.push(0)?;
    }
    Ok(())
}
