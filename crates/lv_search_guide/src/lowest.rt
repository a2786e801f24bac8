//! Of the cheapest members of a box the first in the order of slots. Choices that are too dear are taken out of the box,
//! with what conflicts then rule out; then, slot by slot, it is asked whether a member as cheap has a lower choice there,
//! and that slot keeps the choice of the lowest found.
#![tactic(auto)]

ghost use Rattle.std.specs.Prelude.{◌≡◌, ◌<◌, ◌≤◌, ◌*◌, true, length, slice_index, IfOk};
ghost use Rattle.lv_boxes.specs.Members.{choices_cost};
ghost use Rattle.lv_search_bans.specs.Boxes.{is_free, CostsAtLeast};
ghost use Rattle.lv_search_guide.specs.Cheapest.{IsCheapest};
ghost use Rattle.lv_search_guide.specs.Lowest.{IsLowest, IsFirstAt, LowerTells, HasTells};

use super::look::Member;
use super::problem::{Room, Search};
use lv_base::{Pair, Seq};
use lv_search_bans::masks::Masks;
use lv_search_bans::narrow::narrow;
use std::alloc::AllocError;

impl<'a> Search<'a> {
    /// Of the members that contain no conflict and cost as little as this one, which is a cheapest, the first.
    pub(crate) fn lowest(
        &self,
        room: &mut Room,
        masks: &Masks,
        member: Member,
    ) -> Result<Member, AllocError>
        requires cheapest { IsCheapest self.now.grid.now self.now.conflicts.now masks.now member }
        requires bound { member.cost ≤ 4096 * 1000000 }
        ensures lowest { IfOk result (λ lowest. IsLowest self.now.grid.now self.now.conflicts.now masks.now lowest) }
        ensures cost { IfOk result (λ lowest. lowest.cost ≡ member.cost) }
    {
        let mut part = Masks::from_slice(room.alloc, masks.as_slice())?;
        self.drop_dear(room, &mut part, member.cost + 1)?;
        if !narrow(self.conflicts, &mut part) {
            return Ok(member);
        }
        self.lowest_in(room, part, member)
    }

    /// As `lowest`, in a box without choices that are too dear.
    fn lowest_in(&self, room: &mut Room, masks: Masks, member: Member) -> Result<Member, AllocError>
        requires cheapest { IsCheapest self.now.grid.now self.now.conflicts.now masks member }
        requires bound { member.cost ≤ 4096 * 1000000 }
        ensures lowest { IfOk result (λ lowest. IsLowest self.now.grid.now self.now.conflicts.now masks lowest) }
        ensures cost { IfOk result (λ lowest. lowest.cost ≡ member.cost) }
    {
        let mut part = masks;
        let cost = member.cost;
        let mut choices = member.choices;
        for slot in 0..self.grid.len() {
            let first = self.first_at(room, &part, slot, Member { cost, choices })?;
            part.fix(Pair {
                slot: slot as u32,
                choice: choice_at(&first, slot),
            });
            choices = first;
        }
        Ok(Member { cost, choices })
    }

    /// The choices of a member that costs as little as this one, which costs least, and has the lowest choice at this slot
    /// that such a member has.
    fn first_at(
        &self,
        room: &mut Room,
        masks: &Masks,
        slot: usize,
        member: Member,
    ) -> Result<Seq<u32>, AllocError>
        requires free { is_free self.now.grid.now self.now.conflicts.now masks.now member.choices ≡ true }
        requires costs { choices_cost self.now.grid.now member.choices ≡ member.cost }
        requires least { CostsAtLeast self.now.grid.now self.now.conflicts.now masks.now member.cost }
        requires bound { member.cost ≤ 4096 * 1000000 }
        requires within { slot < length self.now.grid.now }
        requires small { slot < 4096 }
        ensures { IfOk result (λ first. IsFirstAt self.now.grid.now self.now.conflicts.now masks.now slot member.cost first) }
    {
        let own = Pair {
            slot: slot as u32,
            choice: choice_at(&member.choices, slot),
        };
        match self.lower_at(room, masks, own, member.cost)? {
            Some(lower) => Ok(lower),
            None => Ok(member.choices),
        }
    }

    /// A member of this cost, the least, with the lowest choice at the pair's slot that such a member has, if that is below
    /// the pair's choice.
    fn lower_at(
        &self,
        room: &mut Room,
        masks: &Masks,
        own: Pair,
        cost: u64,
    ) -> Result<Option<Seq<u32>>, AllocError>
        requires least { CostsAtLeast self.now.grid.now self.now.conflicts.now masks.now cost }
        requires bound { cost ≤ 4096 * 1000000 }
        requires within { own.slot < length masks.now }
        ensures { IfOk result (λ lower. LowerTells self.now.grid.now self.now.conflicts.now masks.now own.slot own.choice cost lower) }
    {
        for choice in 0..own.choice {
            let pair = Pair {
                slot: own.slot,
                choice,
            };
            match self.member_with(room, masks, pair, cost)? {
                Some(lower) => return Ok(Some(lower)),
                None => {}
            }
        }
        Ok(None)
    }

    /// A member of this cost, the least, that has the pair's choice, if there is one.
    fn member_with(
        &self,
        room: &mut Room,
        masks: &Masks,
        pair: Pair,
        cost: u64,
    ) -> Result<Option<Seq<u32>>, AllocError>
        requires least { CostsAtLeast self.now.grid.now self.now.conflicts.now masks.now cost }
        requires bound { cost ≤ 4096 * 1000000 }
        requires within { pair.slot < length masks.now }
        ensures { IfOk result (λ choices. HasTells self.now.grid.now self.now.conflicts.now masks.now pair cost choices) }
    {
        if !masks.has(pair) {
            return Ok(None);
        }
        let part = masks.with(room.alloc, pair)?;
        match self.cheapest(room, &part, cost, cost + 1)? {
            Some(member) => Ok(Some(member.choices)),
            None => Ok(None),
        }
    }
}

/// The choice at a slot.
fn choice_at(choices: &Seq<u32>, slot: usize) -> u32
    requires { slot < length choices.now }
    ensures { result ≡ slice_index choices.now slot }
{
    choices.as_slice()[slot]
}
