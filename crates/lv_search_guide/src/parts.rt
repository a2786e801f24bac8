//! The first member of a box part by part. While its plain first member contains a conflict, the part that the conflict
//! belongs to is settled: its slots keep the choices of the first member of that part.
#![tactic(auto)]

ghost use Rattle.std.specs.Prelude.{◌≡◌, ◌*◌, ◌≤◌, length, IfOk, IfSome};
ghost use Rattle.lv_search_parts.specs.Slots.{only};
ghost use Rattle.lv_search_parts.specs.Parts.{inner_of, IsPart};
ghost use Rattle.lv_search_guide.specs.First.{SettlesTells};
ghost use Rattle.lv_search_guide.specs.Lowest.{LowestTells};

use super::look::{ABOVE_ALL, Looked, Member, look};
use super::problem::{Problem, Room, Search};
use lv_base::Pair;
use lv_search_bans::conflicts::Conflicts;
use lv_search_bans::masks::Masks;
use lv_search_parts::labels::joined_with;
use lv_search_parts::live::live_in;
use lv_search_parts::part::{fixed, part_conflicts, part_grid, part_masks};
use std::alloc::{AllocError, Global};

impl<'a> Problem<'a> {
    /// Of the members of a box that contain no conflict the first among the cheapest.
    pub(crate) fn first_by_parts(
        &self,
        alloc: Global,
        masks: Masks,
    ) -> Result<Option<Member>, AllocError>
        ensures first { IfOk result (λ first. LowestTells self.now.grid.now self.now.conflicts.now masks first) }
        ensures bound { IfOk result (λ first. IfSome first (λ member. member.cost ≤ 4096 * 1000000)) }
    {
        let _slots = self.grid.slots();
        let mut masks = masks;
        for _part in 0..self.grid.len() {
            match look(alloc, self, &[], &masks, ABOVE_ALL)? {
                Looked::Nothing => return Ok(None),
                Looked::Found(member) => return Ok(Some(member)),
                Looked::Splits(pair) => match self.settled(alloc, &masks, pair)? {
                    Some(less) => masks = less,
                    None => return Ok(None),
                },
            }
        }
        self.first_in_whole(alloc, &masks)
    }

    /// The box in which the slots that conflicts join to the pair's keep the choices of the first member of that part; `None`
    /// where it has none. Where they are no part of the box it is left as it is.
    fn settled(&self, alloc: Global, masks: &Masks, pair: Pair) -> Result<Option<Masks>, AllocError>
        ensures { IfOk result (λ less. SettlesTells self.now.grid.now self.now.conflicts.now masks.now less) }
    {
        match joined_with(alloc, self.conflicts, self.grid.len(), &[pair])? {
            Some(marks) if marks.len() == masks.as_slice().len() => {
                self.settled_part(alloc, masks, marks.as_slice())
            }
            _ => Ok(Some(Masks::from_slice(alloc, masks.as_slice())?)),
        }
    }

    /// The box in which the slots that are marked keep the choices of the first member of that part; `None` where it has none.
    fn settled_part(
        &self,
        alloc: Global,
        masks: &Masks,
        marks: &[bool],
    ) -> Result<Option<Masks>, AllocError>
        requires part { IsPart self.now.conflicts.now (length self.now.grid.now) marks.now }
        requires long { length marks.now ≡ length masks.now }
        ensures { IfOk result (λ less. SettlesTells self.now.grid.now self.now.conflicts.now masks.now less) }
    {
        let _slots = self.grid.slots();
        match self.first_of_part(alloc, masks, marks)? {
            Some(member) => {
                let words = fixed(alloc, masks.as_slice(), marks, member.choices.as_slice())?;
                Ok(Some(Masks::from_vec(words)))
            }
            None => Ok(None),
        }
    }

    /// The first member of the part of a box whose slots are marked.
    fn first_of_part(
        &self,
        alloc: Global,
        masks: &Masks,
        marks: &[bool],
    ) -> Result<Option<Member>, AllocError>
        requires part { IsPart self.now.conflicts.now (length self.now.grid.now) marks.now }
        requires long { length marks.now ≡ length masks.now }
        ensures { IfOk result (λ first. LowestTells (only marks.now self.now.grid.now) (inner_of marks.now self.now.conflicts.now) (only marks.now masks.now) first) }
    {
        let _slots = self.grid.slots();
        let grid = part_grid(alloc, self.grid, marks)?;
        let words = part_masks(alloc, masks.as_slice(), marks)?;
        let inner = part_conflicts(alloc, self.conflicts, marks, words.as_slice())?;
        let conflicts = Conflicts::for_search(alloc, inner, grid.len())?;
        let search = Search {
            grid: &grid,
            conflicts: &conflicts,
        };
        search.first(alloc, &Masks::from_vec(words))
    }

    /// As `first_by_parts`, searched for in the whole box.
    fn first_in_whole(&self, alloc: Global, masks: &Masks) -> Result<Option<Member>, AllocError>
        ensures first { IfOk result (λ first. LowestTells self.now.grid.now self.now.conflicts.now masks.now first) }
        ensures bound { IfOk result (λ first. IfSome first (λ member. member.cost ≤ 4096 * 1000000)) }
    {
        let live = live_in(alloc, self.conflicts, masks.as_slice())?;
        let conflicts = Conflicts::for_search(alloc, live, self.grid.len())?;
        let search = Search {
            grid: self.grid,
            conflicts: &conflicts,
        };
        search.first(alloc, masks)
    }
}

impl<'a> Search<'a> {
    /// The first among the cheapest members of a box that contain no conflict, by the bans.
    fn first(&self, alloc: Global, masks: &Masks) -> Result<Option<Member>, AllocError>
        ensures first { IfOk result (λ first. LowestTells self.now.grid.now self.now.conflicts.now masks.now first) }
        ensures bound { IfOk result (λ first. IfSome first (λ member. member.cost ≤ 4096 * 1000000)) }
    {
        let mut room = Room::new(alloc);
        self.first_with(&mut room, masks)
    }

    /// As `first`, with the room for it.
    fn first_with(&self, room: &mut Room, masks: &Masks) -> Result<Option<Member>, AllocError>
        ensures first { IfOk result (λ first. LowestTells self.now.grid.now self.now.conflicts.now masks.now first) }
        ensures bound { IfOk result (λ first. IfSome first (λ member. member.cost ≤ 4096 * 1000000)) }
    {
        let _slots = self.grid.slots();
        match self.cheapest(room, masks, 0, ABOVE_ALL)? {
            Some(member) => Ok(Some(self.lowest(room, masks, member)?)),
            None => Ok(None),
        }
    }
}
