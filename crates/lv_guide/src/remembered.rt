//! What was found of the parts of boxes, each with how many conflicts were known then. More conflicts only take members
//! away: a part that had no member which contains none has none later either, and the first member of one is still the
//! first, where it contains none of those that came since.
#![tactic(auto)]

ghost use Rattle.std.specs.Prelude.{◌≡◌, ◌≤◌, ◌<◌, ◌^◌, List, length, drop, slice_set, true, not, is_none, IfOk, IfSome, Some};
ghost use Rattle.std.specs.List.{list_all};
ghost use Rattle.lv_base.specs.declared.search.Pair.{Pair};
ghost use Rattle.lv_boxes.specs.Members.{are_left};
ghost use Rattle.lv_boxes.specs.Walk.{is_ruled_out};
ghost use Rattle.lv_search_parts.specs.Parts.{inner_of};
ghost use Rattle.lv_search_guide.specs.Lowest.{LowestTells};
ghost use Rattle.lv_guide.specs.Remembered.{IsTrueBy, AreTrueBy, IsFoundOf, HoldsBy};

use lv_base::{Conflict, Cost, Seq, contains};
use lv_boxes::Grid;
use lv_search_bans::masks::Masks;
use lv_search_guide::least_free::first_in;
use lv_search_guide::look::Member;
use lv_search_parts::part::part_conflicts;
use std::alloc::{AllocError, Global};
use std::marker::Model;

/// A part of a box: the slots that are marked, what their choices cost, and which of these are left.
#[derive(Debug, Drop)]
pub(crate) struct Part {
    pub(crate) marks: Seq<bool>,
    pub(crate) grid: Grid,
    pub(crate) masks: Seq<u64>,
}

/// What was found of a part by so many of the known conflicts.
#[derive(Debug, Drop)]
pub(crate) struct Found {
    part: Part,
    known: usize,
    first: Option<Member>,
}

/// What was found of parts, each in the row that its masks tell. Contracts see the list of the rows.
#[derive(Debug, Drop)]
pub(crate) struct Remembered {
    rows: Vec<Option<Found>>,
}

/// How many rows there are, once something is kept.
const ROWS: u64 = 256;

impl Model for Remembered {
    ghost use Rattle.std.specs.Prelude.{List, Option};
    ghost use Rattle.lv_guide.specs.declared.remembered.Found.{Found};

    ghost Value = { List (Option Found) };

    ghost view = { λ remembered. remembered.rows.items };
}

impl Remembered {
    /// Nothing, which takes no memory.
    pub(crate) fn new(alloc: Global) -> Remembered
        ensures { (conflicts : List (List Pair)) → AreTrueBy conflicts result }
    {
        Remembered {
            rows: Vec::new(alloc),
        }
    }

    /// What is kept in a row.
    fn at(&self, row: usize) -> Option<&Found>
        ensures { (conflicts : List (List Pair)) → AreTrueBy conflicts self.now → IfSome result (λ found. IsTrueBy conflicts found.now) }
    {
        match self.rows.get(row) {
            Some(Some(found)) => Some(found),
            _ => None,
        }
    }

    /// What was found of the part, if it is kept.
    fn of(&self, part: &Part) -> Option<&Found>
        ensures { (conflicts : List (List Pair)) → AreTrueBy conflicts self.now → IfSome result (λ found. IsFoundOf conflicts part.now found.now) }
    {
        match self.at(row_of(part.masks.as_slice())) {
            Some(found) => {
                if is_same(&found.part, part) {
                    Some(found)
                } else {
                    None
                }
            }
            None => None,
        }
    }

    /// Keeps what was found of a part, in place of what was in its row.
    fn keep(&mut self, alloc: Global, found: Found) -> Result<(), AllocError>
        ensures { (conflicts : List (List Pair)) → AreTrueBy conflicts self.old → IsTrueBy conflicts found → AreTrueBy conflicts self.new }
    {
        self.make_rows(alloc)?;
        let row = row_of(found.part.masks.as_slice());
        replace(&mut self.rows, row, found);
        Ok(())
    }

    /// Makes the rows, where there are none yet.
    fn make_rows(&mut self, alloc: Global) -> Result<(), AllocError>
        ensures { (conflicts : List (List Pair)) → AreTrueBy conflicts self.old → AreTrueBy conflicts self.new }
    {
        if self.rows.is_empty() {
            self.rows = empty_rows(alloc)?;
        }
        Ok(())
    }
}

/// Puts what was found in a row, in place of what was there. A row that there isn't is passed over.
fn replace(rows: &mut Vec<Option<Found>>, row: usize, found: Found)
    ensures { rows.new.items ≡ slice_set rows.old.items row (Some found) }
{
    if row < rows.len() {
        rows[row] = Some(found);
    }
}

/// Rows in which nothing is kept.
fn empty_rows(alloc: Global) -> Result<Vec<Option<Found>>, AllocError>
    ensures { IfOk result (λ rows. list_all is_none rows.items ≡ true) }
{
    let mut rows = Vec::new(alloc);
    for _row in 0..ROWS {
        rows.push(None)?;
    }
    Ok(rows)
}

/// The row of a part with these masks.
fn row_of(masks: &[u64]) -> usize {
    let mut sum: u64 = 0;
    for mask in masks {
        sum = sum.rotate_left(7).wrapping_mul(11400714819323198485) ^ *mask;
    }
    ((sum.wrapping_mul(11400714819323198485) >> 40) % ROWS) as usize
}

/// Whether both are one part.
fn is_same(one: &Part, other: &Part) -> bool
    ensures { result ≡ true → one.now ≡ other.now }
{
    are_same_masks(one.masks.as_slice(), other.masks.as_slice())
        && are_same_marks(one.marks.as_slice(), other.marks.as_slice())
        && are_same_slots(one.grid.slots(), other.grid.slots())
}

fn are_same_masks(one: &[u64], other: &[u64]) -> bool
    ensures { result ≡ true → one.now ≡ other.now }
{
    one == other
}

fn are_same_marks(one: &[bool], other: &[bool]) -> bool
    ensures { result ≡ true → one.now ≡ other.now }
{
    one == other
}

fn are_same_costs(one: &[Cost], other: &[Cost]) -> bool
    ensures { result ≡ true → one.now ≡ other.now }
{
    one == other
}

/// Whether at each slot the choices cost the same.
fn are_same_slots(one: &[Seq<Cost>], other: &[Seq<Cost>]) -> bool
    ensures { result ≡ true → one.now ≡ other.now }
{
    if one.len() != other.len() {
        return false;
    }
    for (slot, costs) in one.iter().enumerate() {
        if !are_same_costs(costs.as_slice(), other[slot].as_slice()) {
            return false;
        }
    }
    true
}

/// The conflicts behind the first ones, so many.
fn newer(conflicts: &[Conflict], known: usize) -> &[Conflict]
    requires { known ≤ length conflicts.now }
    ensures { result.now ≡ drop known conflicts.now }
{
    &conflicts[known..]
}

/// Whether a member of the part contains none of these conflicts.
fn is_clear(
    alloc: Global,
    conflicts: &[Conflict],
    part: &Part,
    choices: &[u32],
) -> Result<bool, AllocError>
    requires { length part.now.marks < 2 ^ 32 }
    ensures { IfOk result (λ clear. are_left part.now.grid part.now.masks choices.now ≡ true → clear ≡ not (is_ruled_out (inner_of part.now.marks conflicts.now) choices.now)) }
{
    let inner = part_conflicts(
        alloc,
        conflicts,
        part.marks.as_slice(),
        part.masks.as_slice(),
    )?;
    Ok(!contains_some(inner.as_slice(), choices))
}

/// Whether the choices contain one of the conflicts.
fn contains_some(conflicts: &[Conflict], choices: &[u32]) -> bool
    ensures { result ≡ is_ruled_out conflicts.now choices.now }
{
    conflicts
        .iter()
        .any(|conflict| contains(choices, conflict.pairs()))
}

/// Whether what was found of the part is so by all these conflicts too.
fn holds(
    alloc: Global,
    conflicts: &[Conflict],
    part: &Part,
    found: &Found,
) -> Result<bool, AllocError>
    requires few { length part.now.marks < 2 ^ 32 }
    requires known { found.now.known ≤ length conflicts.now }
    ensures { IfOk result (λ holds. holds ≡ true → HoldsBy (drop found.now.known conflicts.now) part.now found.now.first) }
{
    match &found.first {
        Some(member) => {
            let since = newer(conflicts, found.known);
            is_clear(alloc, since, part, member.choices.as_slice())
        }
        None => Ok(true),
    }
}

/// A copy of a member.
fn copied(alloc: Global, member: &Member) -> Result<Member, AllocError>
    ensures { IfOk result (λ copy. copy ≡ member.now) }
{
    Ok(Member {
        cost: member.cost,
        choices: Seq::from_slice(alloc, member.choices.as_slice())?,
    })
}

/// A copy of a member, where there is one.
fn copied_if(alloc: Global, first: &Option<Member>) -> Result<Option<Member>, AllocError>
    ensures { IfOk result (λ copy. copy ≡ first.now) }
{
    match first {
        Some(member) => Ok(Some(copied(alloc, member)?)),
        None => Ok(None),
    }
}

/// What is remembered of the part, if it is still so.
fn recalled(
    alloc: Global,
    conflicts: &[Conflict],
    remembered: &Remembered,
    part: &Part,
) -> Result<Option<Option<Member>>, AllocError>
    requires few { length part.now.marks < 2 ^ 32 }
    requires known { AreTrueBy conflicts.now remembered.now }
    ensures { IfOk result (λ known. IfSome known (λ first. LowestTells part.now.grid (inner_of part.now.marks conflicts.now) part.now.masks first)) }
{
    match remembered.of(part) {
        Some(found) => {
            if holds(alloc, conflicts, part, found)? {
                Ok(Some(copied_if(alloc, &found.first)?))
            } else {
                Ok(None)
            }
        }
        None => Ok(None),
    }
}

/// The first member of a part, looked for.
fn looked_for(
    alloc: Global,
    conflicts: &[Conflict],
    part: &Part,
) -> Result<Option<Member>, AllocError>
    requires { length part.now.marks < 2 ^ 32 }
    ensures { IfOk result (λ first. LowestTells part.now.grid (inner_of part.now.marks conflicts.now) part.now.masks first) }
{
    let words = part.masks.as_slice();
    let inner = part_conflicts(alloc, conflicts, part.marks.as_slice(), words)?;
    let masks = Masks::from_slice(alloc, words)?;
    first_in(alloc, &part.grid, inner, masks)
}

/// The first member of a part: what is remembered of it, if it is still so. Else it is looked for, and kept.
pub(crate) fn first_of(
    alloc: Global,
    conflicts: &[Conflict],
    remembered: &mut Remembered,
    part: Part,
) -> Result<Option<Member>, AllocError>
    requires few { length part.marks < 2 ^ 32 }
    requires known { AreTrueBy conflicts.now remembered.old }
    ensures known { AreTrueBy conflicts.now remembered.new }
    ensures first { IfOk result (λ first. LowestTells part.grid (inner_of part.marks conflicts.now) part.masks first) }
{
    match recalled(alloc, conflicts, remembered, &part)? {
        Some(first) => Ok(first),
        None => {
            let first = looked_for(alloc, conflicts, &part)?;
            let copy = copied_if(alloc, &first)?;
            remembered.keep(
                alloc,
                Found {
                    part,
                    known: conflicts.len(),
                    first: copy,
                },
            )?;
            Ok(first)
        }
    }
}
