//! Choices that are too dear: where the bound of what members cost and the price of a choice come to as much as members
//! may cost, no member that is cheap enough has the choice.
#![tactic(auto)]

ghost use Rattle.std.specs.Prelude.{◌≡◌, ◌<◌, ◌≤◌, ◌+◌, ℕ, true, [], List, length, slice_index_or, IfOk, OnOk, if◌then◌else◌};
ghost use Rattle.lv_base.specs.declared.ids.Cost.{Cost};
ghost use Rattle.lv_base.specs.declared.search.Pair.{Pair};
ghost use Rattle.lv_boxes.specs.Parts.{masks_without};
ghost use Rattle.lv_search_bans.specs.Boxes.{CostsAtLeast};
ghost use Rattle.lv_search_guide.specs.Dear.{KeepsUnder};
ghost use Rattle.lv_search_bans.specs.Prices.{IsBound};

use super::problem::{Room, Search};
use lv_base::{Cost, Pair};
use lv_search_bans::masks::{Masks, has_several};
use lv_search_bans::prices::{Row, fill_rows, raise_by_bans, raise_by_slots};
use std::alloc::AllocError;

/// A choice costs no more than this.
const DEAREST: u64 = 1_000_000;

impl<'a> Search<'a> {
    /// Takes out of a box choices that no member has that contains no conflict and costs less than `under`. Where no member
    /// costs less at all it is left as it is. Answers what its members cost at least that contain no conflict. The room tells
    /// at which slots choices were taken out.
    pub(crate) fn drop_dear(
        &self,
        room: &mut Room,
        masks: &mut Masks,
        under: u64,
    ) -> Result<u64, AllocError>
        ensures keeps { OnOk result (KeepsUnder self.now.grid.now self.now.conflicts.now under masks.old masks.new) }
        ensures low { IfOk result (λ low. CostsAtLeast self.now.grid.now self.now.conflicts.now masks.old low) }
    {
        room.changed.clear();
        let low = self.priced_in(room, masks.as_slice(), under)?;
        if low >= under || under - low > DEAREST {
            return Ok(low);
        }
        drop_priced(room.rows.as_slice(), low, under, masks, &mut room.changed)?;
        Ok(low)
    }

    /// What a member of a box that contains no conflict costs at least; the rows tell what its choices cost beside that. No
    /// more is found out once that is enough.
    fn priced_in(&self, room: &mut Room, masks: &[u64], enough: u64) -> Result<u64, AllocError>
        ensures { IfOk result (λ low. IsBound self.now.grid.now self.now.conflicts.now masks.now low room.new.rows.items) }
    {
        fill_rows(room.alloc, self.grid.slots(), masks, &mut room.rows)?;
        if masks.len() != room.rows.len() {
            return Ok(0);
        }
        let by_slots = raise_by_slots(masks, &mut room.rows);
        Ok(raise_by_bans(masks, self.conflicts, by_slots, enough, &mut room.rows))
    }
}

/// Takes out of a box the choices of all slots whose price and the bound come to this. The slots are listed that lose some.
fn drop_priced(
    rows: &[Row],
    low: u64,
    under: u64,
    masks: &mut Masks,
    changed: &mut Vec<u32>,
) -> Result<(), AllocError>
    ensures { OnOk result ((slots : List (List Cost)) (conflicts : List (List Pair)) → IsBound slots conflicts masks.old low rows.now → KeepsUnder slots conflicts under masks.old masks.new) }
{
    for slot in 0..rows.len().min(4096) {
        if drop_at(&rows[slot], slot, low, under, masks) {
            changed.push(slot as u32)?;
        }
    }
    Ok(())
}

/// Takes out of a box the choices of a slot whose price and the bound come to this, where it has several. Answers whether
/// there were some.
fn drop_at(row: &Row, slot: usize, low: u64, under: u64, masks: &mut Masks) -> bool
    requires { slot < 4096 }
    ensures { (slots : List (List Cost)) (conflicts : List (List Pair)) (whole : List ℕ) (rows : List (List Cost)) → slot < length rows → slice_index_or rows slot [] ≡ row.now → IsBound slots conflicts whole low rows → KeepsUnder slots conflicts under whole masks.old → KeepsUnder slots conflicts under whole masks.new }
{
    if !has_several(masks.at(slot)) {
        return false;
    }
    if !is_dear(low, row.dearest(), under) {
        return false;
    }
    let prices = row.as_slice();
    let mut some = false;
    for choice in 0..prices.len().min(64) {
        let dear = is_dear(low, prices[choice].0, under);
        let pair = Pair {
            slot: slot as u32,
            choice: choice as u32,
        };
        some = some || (dear && masks.has(pair));
        exclude_if(dear, pair, masks);
    }
    some
}

/// Whether a bound and a price come to this.
fn is_dear(low: u64, price: u64, under: u64) -> bool
    ensures { result ≡ true → under ≤ low + price }
{
    low.saturating_add(price) >= under
}

/// Takes the pair's choice out of a box, where that is so.
fn exclude_if(dear: bool, pair: Pair, masks: &mut Masks)
    ensures { masks.new ≡ (if dear then masks_without masks.old pair else masks.old) }
{
    if dear {
        masks.exclude(pair);
    }
}
