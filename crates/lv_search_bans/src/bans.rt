//! Bans: conflicts drawn together. Where conflicts are alike but for the choice at one slot, a ban says them all at once: it
//! has at each of its slots some choices, and rules out the members that have one of these at each.
#![tactic(auto)]

ghost use Rattle.std.specs.Prelude.{◌≡◌, true, false, map, IfOk, IfSome, OnOk, IsTrue};
ghost use Rattle.lv_base.specs.Choices.{slots_rise};
ghost use Rattle.lv_search_bans.specs.Bans.{without_these, sets_rise, set_of, AreBans, IsAlikeBut, TakesIn, HasOneMore};

use super::alike::Alike;
use lv_base::{Conflict, Pair};
use lv_boxes::mask;
use std::alloc::{AllocError, Global};
use std::marker::Model;

/// Some choices of a slot, as a mask.
#[derive(Clone, Copy, Debug, PartialEq, Eq)]
pub struct Choices {
    pub slot: u32,
    pub mask: u64,
}

/// At each of some slots, which rise, choices that can't stand together. Contracts see the list of them.
#[derive(Debug, Drop)]
pub struct Ban {
    sets: Vec<Choices>,
}

impl Model for Ban {
    ghost use Rattle.std.specs.Prelude.{List, IsTrue};
    ghost use Rattle.lv_search_bans.specs.declared.bans.Choices.{Choices};
    ghost use Rattle.lv_search_bans.specs.Bans.{sets_rise};

    ghost Value = { List Choices };

    ghost view = { λ b. b.sets.items };

    ghost invariant = { λ b. IsTrue (sets_rise b.sets.items) };
}

impl Ban {
    /// The ban of these.
    fn from_slice(alloc: Global, sets: &[Choices]) -> Result<Ban, AllocError>
        requires { IsTrue (sets_rise sets.now) }
        ensures { IfOk result (λ ban. ban ≡ sets.now) }
    {
        Ok(Ban {
            sets: Vec::from_slice(alloc, sets)?,
        })
    }

    /// The ban that a conflict comes to, whose pairs these are.
    pub fn from_pairs(alloc: Global, pairs: &[Pair]) -> Result<Ban, AllocError>
        requires { IsTrue (slots_rise pairs.now) }
        ensures { IfOk result (λ ban. ban ≡ map set_of pairs.now) }
    {
        let mut sets = Vec::new(alloc);
        write_sets(pairs, &mut sets)?;
        Ok(Ban { sets })
    }

    /// What it has at its slots, in their order.
    pub fn sets(&self) -> &[Choices]
        ensures sets { result.now ≡ self.now }
        ensures rising { IsTrue (sets_rise result.now) }
    {
        self.sets.as_slice()
    }

    /// Takes in a ban that is alike but for the choices at one slot. Answers whether that is so.
    fn take_in(&mut self, sets: &[Choices]) -> bool
        ensures taken { result ≡ true → TakesIn self.old sets.now self.new }
        ensures kept { result ≡ false → self.new ≡ self.old }
    {
        match differing(self.sets.as_slice(), sets) {
            Some(place) if place < self.sets.len() && place < sets.len() => {
                let own = self.sets[place];
                let other = sets[place];
                self.sets[place] = Choices {
                    slot: own.slot,
                    mask: own.mask | other.mask,
                };
                true
            }
            _ => false,
        }
    }
}

/// The one place at which these have other choices, if they are alike but for that.
fn differing(one: &[Choices], other: &[Choices]) -> Option<usize>
    ensures { IfSome result (λ place. IsAlikeBut place one.now other.now) }
{
    if one.len() != other.len() {
        return None;
    }
    let mut found: Option<usize> = None;
    for place in 0..one.len() {
        if one[place] != other[place] {
            if found.is_some() || one[place].slot != other[place].slot {
                return None;
            }
            found = Some(place);
        }
    }
    found
}

/// Of a mask the choices that are not among these.
#[inline(always)]
pub(crate) fn without_these(mask: u64, these: u64) -> u64
    ensures { result ≡ without_these mask these }
{
    mask ^ (mask & these)
}

/// Writes what a conflict has at its slots: of each the choice alone.
fn write_sets(pairs: &[Pair], sets: &mut Vec<Choices>) -> Result<(), AllocError>
    ensures { OnOk result (sets.new.items ≡ map set_of pairs.now) }
{
    sets.clear();
    for pair in pairs {
        sets.push(Choices {
            slot: pair.slot,
            mask: mask::only(u64::MAX, pair.choice),
        })?;
    }
    Ok(())
}

/// Adds a ban of these, or has one of those from a place on take it in.
pub(crate) fn put(
    alloc: Global,
    sets: &[Choices],
    first: usize,
    bans: &mut Vec<Ban>,
) -> Result<(), AllocError>
    requires { IsTrue (sets_rise sets.now) }
    ensures { OnOk result (HasOneMore bans.old.items sets.now bans.new.items) }
{
    for place in first..bans.len() {
        if bans[place].take_in(sets) {
            return Ok(());
        }
    }
    bans.push(Ban::from_slice(alloc, sets)?)?;
    Ok(())
}

/// Conflicts as bans, each alike to the one before taken in by it.
fn rows_of(alloc: Global, conflicts: &[Conflict]) -> Result<Vec<Ban>, AllocError>
    ensures { IfOk result (λ rows. AreBans conflicts.now rows.items) }
{
    let mut sets = Vec::new(alloc);
    let mut rows = Vec::new(alloc);
    for conflict in conflicts {
        write_sets(conflict.pairs(), &mut sets)?;
        let last = rows.len().saturating_sub(1);
        put(alloc, sets.as_slice(), last, &mut rows)?;
    }
    Ok(rows)
}

/// Conflicts as bans, few where many conflicts are alike.
pub(crate) fn bans_of(alloc: Global, conflicts: &[Conflict]) -> Result<Vec<Ban>, AllocError>
    ensures { IfOk result (λ bans. AreBans conflicts.now bans.items) }
{
    let rows = rows_of(alloc, conflicts)?;
    let mut bans = Vec::new(alloc);
    let mut alike = Alike::new(alloc, rows.len())?;
    for row in rows.as_slice() {
        put_alike(alloc, row.sets(), &mut alike, &mut bans)?;
    }
    Ok(bans)
}

/// Adds a ban of these, or has one take it in that has the same slots.
fn put_alike(
    alloc: Global,
    sets: &[Choices],
    alike: &mut Alike,
    bans: &mut Vec<Ban>,
) -> Result<(), AllocError>
    requires { IsTrue (sets_rise sets.now) }
    ensures { OnOk result (HasOneMore bans.old.items sets.now bans.new.items) }
{
    let row = alike.row_of(sets);
    let mut next = alike.last_in(row);
    for _ban in 0..bans.len() {
        match next {
            Some(place) if place < bans.len() => {
                if bans[place].take_in(sets) {
                    return Ok(());
                }
                next = alike.before(place);
            }
            _ => break,
        }
    }
    alike.note(row)?;
    bans.push(Ban::from_slice(alloc, sets)?)?;
    Ok(())
}
