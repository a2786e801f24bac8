//! A cheapest member of a box that contains no conflict. A stack holds the boxes that are still to be looked at, each
//! without what can't lead to a cheaper member than was found so far, and with what its members cost at least.
#![tactic(auto)]

ghost use Rattle.std.specs.Prelude.{◌≡◌, ◌++◌, IfOk, OnOk, option_to_list};
ghost use Rattle.lv_search_bans.specs.Boxes.{CostsAtLeast};
ghost use Rattle.lv_search_guide.specs.Cheapest.{FallsApart, CheapestTells, BranchTells, PushesBoth, PushesParts, TakesBox};
ghost use Rattle.lv_search_bans.specs.Narrow.{NarrowedTells};

use super::look::{Looked, Member, look};
use super::problem::{Problem, Room, Search};
use lv_base::Pair;
use lv_search_bans::conflicts::Conflicts;
use lv_search_bans::masks::Masks;
use lv_search_bans::narrow::{narrow, narrow_from};
use std::alloc::AllocError;

/// The cheapest member found so far, and what a member has to cost less than to be of interest still.
#[derive(Debug, Drop)]
pub(crate) struct Best {
    under: u64,
    member: Option<Member>,
}

/// A box that is still to be looked at, and what its members cost at least that contain no conflict.
#[derive(Debug, Drop)]
pub(crate) struct Branch {
    masks: Masks,
    low: u64,
}

/// A box, and the pair by which it falls apart.
#[derive(Clone, Copy)]
struct Split<'a> {
    masks: &'a Masks,
    pair: Pair,
}

impl<'a> Search<'a> {
    /// A cheapest member of a box that contains no conflict, if one costs less than `under`. None is known to cost less than
    /// `least`, so the first that costs no more ends the search.
    pub(crate) fn cheapest(
        &self,
        room: &mut Room,
        masks: &Masks,
        least: u64,
        under: u64,
    ) -> Result<Option<Member>, AllocError>
        requires { CostsAtLeast self.now.grid.now self.now.conflicts.now masks.now least }
        ensures { IfOk result (λ member. CheapestTells self.now.grid.now self.now.conflicts.now masks.now under member) }
    {
        let whole = Masks::from_slice(room.alloc, masks.as_slice())?;
        match self.branch_of(room, whole, None, under)? {
            Some(first) => self.cheapest_of(room, first, least, under),
            None => Ok(None),
        }
    }

    /// As `cheapest`, by what of the box is to be looked at.
    fn cheapest_of(
        &self,
        room: &mut Room,
        first: Branch,
        least: u64,
        under: u64,
    ) -> Result<Option<Member>, AllocError>
        requires least { CostsAtLeast self.now.grid.now self.now.conflicts.now first.masks least }
        requires low { CostsAtLeast self.now.grid.now self.now.conflicts.now first.masks first.low }
        ensures { IfOk result (λ member. CheapestTells self.now.grid.now self.now.conflicts.now first.masks under member) }
    {
        let floor = least.max(first.low);
        let mut boxes = Vec::new(room.alloc);
        boxes.push(first)?;
        let mut best = Best {
            under,
            member: None,
        };
        while let Some(next) = boxes.pop() {
            if best.under <= floor {
                return Ok(best.member);
            }
            self.take_box(room, &next, &mut best, &mut boxes)?;
        }
        Ok(best.member)
    }

    /// What of a box is still to be looked at for a member that contains no conflict and costs less than `under`: the choices
    /// that conflicts leave and that aren't too dear. `None` where there is no such member. Where the box is part of one of which
    /// this is known, and lost choices at one slot alone, that slot is told.
    fn branch_of(
        &self,
        room: &mut Room,
        masks: Masks,
        changed: Option<u32>,
        under: u64,
    ) -> Result<Option<Branch>, AllocError>
        ensures { IfOk result (λ branch. BranchTells self.now.grid.now self.now.conflicts.now masks under branch) }
    {
        let mut masks = masks;
        let may_be_left = narrow_where(room, self.conflicts, changed, &mut masks)?;
        if !may_be_left {
            return Ok(None);
        }
        let low = self.drop_dear(room, &mut masks, under)?;
        if low >= under {
            return Ok(None);
        }
        let are_left = narrow_from(self.conflicts, &mut room.changed, &mut masks)?;
        if !are_left {
            return Ok(None);
        }
        Ok(Some(Branch { masks, low }))
    }

    /// Looks at a box that was taken off the stack: gives it up, or finds a cheaper member, or puts its two parts on the stack.
    fn take_box(
        &self,
        room: &mut Room,
        next: &Branch,
        best: &mut Best,
        boxes: &mut Vec<Branch>,
    ) -> Result<(), AllocError>
        ensures { OnOk result (TakesBox self.now.grid.now self.now.conflicts.now next.now best.old boxes.old.items best.new boxes.new.items) }
    {
        if best.under <= next.low {
            return Ok(());
        }
        let problem = Problem {
            grid: self.grid,
            conflicts: self.conflicts.as_slice(),
        };
        match look(
            room.alloc,
            &problem,
            self.conflicts.bans(),
            &next.masks,
            best.under,
        )? {
            Looked::Nothing => Ok(()),
            Looked::Found(member) => {
                best.under = member.cost;
                best.member = Some(member);
                Ok(())
            }
            Looked::Splits(pair) => {
                let split = Split {
                    masks: &next.masks,
                    pair,
                };
                self.push_parts(room, &split, best.under, boxes)?;
                Ok(())
            }
        }
    }

    /// Puts what is to be looked at of the two parts of a box on the stack: the members that have the pair's choice, and those
    /// that haven't.
    fn push_parts(
        &self,
        room: &mut Room,
        split: &Split<'_>,
        under: u64,
        boxes: &mut Vec<Branch>,
    ) -> Result<(), AllocError>
        requires { FallsApart split.now.masks.now split.now.pair }
        ensures { OnOk result (PushesParts self.now.grid.now self.now.conflicts.now split.now.masks.now under boxes.old.items boxes.new.items) }
    {
        let alloc = room.alloc;
        let slot = Some(split.pair.slot);
        let with = self.branch_of(room, split.masks.with(alloc, split.pair)?, slot, under)?;
        let without = self.branch_of(room, split.masks.without(alloc, split.pair)?, slot, under)?;
        push_both(with, without, boxes)?;
        Ok(())
    }
}

/// Takes out of a box what only members have that contain a conflict, beginning at this slot, where one is told. Answers
/// whether members may be left.
fn narrow_where(
    room: &mut Room,
    conflicts: &Conflicts,
    changed: Option<u32>,
    masks: &mut Masks,
) -> Result<bool, AllocError>
    ensures { IfOk result (λ left. NarrowedTells conflicts.now masks.old masks.new left) }
{
    match changed {
        Some(slot) => {
            room.changed.clear();
            room.changed.push(slot)?;
            narrow_from(conflicts, &mut room.changed, masks)
        }
        None => Ok(narrow(conflicts, masks)),
    }
}

/// Puts both on the stack, as far as there are some, the one on top that may cost less.
fn push_both(
    one: Option<Branch>,
    other: Option<Branch>,
    boxes: &mut Vec<Branch>,
) -> Result<(), AllocError>
    ensures { OnOk result (PushesBoth one other boxes.old.items boxes.new.items) }
{
    if low_of(&other) < low_of(&one) {
        push_some(one, boxes)?;
        push_some(other, boxes)
    } else {
        push_some(other, boxes)?;
        push_some(one, boxes)
    }
}

/// Puts a box on the stack, if there is one.
fn push_some(branch: Option<Branch>, boxes: &mut Vec<Branch>) -> Result<(), AllocError>
    ensures { OnOk result (boxes.new.items ≡ boxes.old.items ++ option_to_list branch) }
{
    match branch {
        Some(branch) => {
            boxes.push(branch)?;
            Ok(())
        }
        None => Ok(()),
    }
}

/// What the members of a box cost at least, if there is one.
fn low_of(branch: &Option<Branch>) -> u64 {
    match branch {
        Some(branch) => branch.low,
        None => 0,
    }
}
