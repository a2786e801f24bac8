//! Prices: what a member of a box that contains no conflict costs at least. Of each slot the choices begin at what they
//! cost. A member breaks each ban, so it has at one of the ban's slots another choice than the ban's: where
//! all of these have some price, the bound is raised by the least of their prices, and they are priced at that much less.
//! Bound and prices of a member together never pass what it costs.
#![tactic(auto)]

ghost use Rattle.std.specs.Prelude.{◌≡◌, ◌<◌, ◌≤◌, [], List, length, slice_index, slice_index_or, slice_set, IfSome, IsTrue, OnOk};
ghost use Rattle.std.specs.List.{AllByRecursion};
ghost use Rattle.lv_base.specs.declared.ids.Cost.{Cost};
ghost use Rattle.lv_base.specs.declared.search.Pair.{Pair};
ghost use Rattle.lv_search_bans.specs.Bans.{without_these, sets_rise};
ghost use Rattle.lv_search_bans.specs.Prices.{lowered_from, lowered_at, lowered_all, price_after, lesser_of, LeastTells, FallsBy, RaisesBy, BreaksEach, IsBound};

use super::bans::{Choices, without_these};
use super::conflicts::Conflicts;
use super::masks::has_several;
use lv_base::{Cost, Seq};
use lv_boxes::mask;
use std::alloc::{AllocError, Global};
use std::marker::Model;

/// Of a slot what its choices are still priced at.
#[derive(Debug, Drop)]
pub struct Row {
    prices: Vec<Cost>,
    /// The choices left.
    mask: u64,
    /// Those of them that have no price.
    free: u64,
    /// The choices that cost nothing, and what the dearest choice costs.
    costless: u64,
    dearest: u64,
}

impl Model for Row {
    ghost use Rattle.std.specs.Prelude.{List};
    ghost use Rattle.lv_base.specs.declared.ids.Cost.{Cost};

    ghost Value = { List Cost };

    ghost view = { λ r. r.prices.items };
}

impl Row {
    /// No prices.
    fn new(alloc: Global) -> Row
        ensures { result ≡ [] }
    {
        Row {
            prices: Vec::new(alloc),
            mask: 0,
            free: 0,
            costless: 0,
            dearest: 0,
        }
    }

    /// Takes what the choices cost, of which the mask has those left. A row is filled with the costs of one slot alone.
    fn fill(&mut self, costs: &[Cost], mask: u64) -> Result<(), AllocError>
        ensures { OnOk result (self.new ≡ costs.now) }
    {
        if self.prices.len() != costs.len() {
            self.costless = costless_in(costs);
            self.dearest = dearest(costs);
        }
        refill(&mut self.prices, costs)?;
        self.mask = mask;
        self.free = self.costless & mask;
        Ok(())
    }

    pub fn as_slice(&self) -> &[Cost]
        ensures { result.now ≡ self.now }
    {
        self.prices.as_slice()
    }

    /// No choice is priced at more.
    pub fn dearest(&self) -> u64 {
        self.dearest
    }

    /// Whether choices are left, and each has a price.
    fn is_priced(&self) -> bool {
        self.mask != 0 && self.free == 0
    }

    /// Prices each choice that the mask has at so much less.
    fn lower(&mut self, mask: u64, by: u64)
        ensures { self.new ≡ lowered_from 0 mask by self.old }
    {
        if mask == 0 {
            return;
        }
        self.free |= lower_each(&mut self.prices, mask, by) & self.mask;
    }
}

/// Fills a list with costs.
fn refill(prices: &mut Vec<Cost>, costs: &[Cost]) -> Result<(), AllocError>
    ensures { OnOk result (prices.new.items ≡ costs.now) }
{
    if prices.len() == costs.len() {
        prices.copy_from_slice(costs);
        return Ok(());
    }
    prices.clear();
    prices.extend_from_slice(costs)?;
    Ok(())
}

/// The highest cost; 0 of none.
fn dearest(costs: &[Cost]) -> u64 {
    costs.iter().map(|cost| cost.0).max().unwrap_or(0)
}

/// The choices that cost nothing, among the first 64.
fn costless_in(costs: &[Cost]) -> u64 {
    let mut costless = 0;
    let mut own: u64 = 1;
    for cost in costs {
        if cost.0 == 0 {
            costless |= own;
        }
        own <<= 1;
    }
    costless
}

/// Prices each choice that the mask has at so much less. Answers which of them have no price then.
fn lower_each(prices: &mut [Cost], mask: u64, by: u64) -> u64
    ensures { prices.new ≡ lowered_from 0 mask by prices.old }
{
    let mut free = 0;
    let mut own: u64 = 1;
    for choice in 0..prices.len() {
        let lowers = mask::has(mask, choice);
        let price = price_after(lowers, by, prices[choice].0);
        prices[choice] = Cost(price);
        if price == 0 {
            free |= own;
        }
        own <<= 1;
    }
    free & mask
}

/// A price, or so much less, as far as it goes.
fn price_after(lowers: bool, by: u64, price: u64) -> u64
    ensures { result ≡ price_after lowers by price }
{
    if lowers {
        price.saturating_sub(by)
    } else {
        price
    }
}

/// The least of what was found before and the prices of the choices that the mask has.
fn least_in(prices: &[Cost], mask: u64, before: Option<u64>) -> Option<u64>
    ensures { LeastTells prices.now mask (length prices.now) before result }
{
    let mut least = before;
    for choice in 0..prices.len() {
        if mask::has(mask, choice) {
            least = Some(lesser(least, prices[choice].0));
        }
    }
    least
}

/// The lesser of two numbers, or the second where there is no first.
#[inline(always)]
fn lesser(least: Option<u64>, price: u64) -> u64
    ensures { result ≡ lesser_of least price }
{
    match least {
        Some(least) => least.min(price),
        None => price,
    }
}

/// Whether all that breaks these has a price.
fn are_priced(sets: &[Choices], rows: &[Row]) -> bool {
    sets.iter().all(|set| is_priced_beside(*set, rows))
}

/// Whether all choices of the slot that are left beside these have a price.
#[inline(always)]
fn is_priced_beside(set: Choices, rows: &[Row]) -> bool {
    match rows.get(set.slot as usize) {
        Some(row) => without_these(row.free, set.mask) == 0,
        None => false,
    }
}

/// The least price of what breaks a ban, if something in the box breaks it, none of its slots is out of range, and
/// nothing that breaks it is free.
fn least_break(masks: &[u64], sets: &[Choices], rows: &[Row]) -> Option<u64>
    requires { length masks.now ≡ length rows.now }
    ensures { IfSome result (λ by. AllByRecursion (FallsBy masks.now rows.now by) sets.now) }
{
    let mut least = None;
    for set in sets {
        if set.slot as usize >= rows.len() {
            return None;
        }
        least = least_at(masks, *set, rows, least);
        if least == Some(0) {
            return None;
        }
    }
    least
}

/// The least of what was found before and the prices of what breaks a ban at this slot.
#[inline(always)]
fn least_at(masks: &[u64], set: Choices, rows: &[Row], before: Option<u64>) -> Option<u64>
    requires long { length masks.now ≡ length rows.now }
    requires within { set.slot < length rows.now }
    ensures { LeastTells (slice_index_or rows.now set.slot []) (without_these (slice_index masks.now set.slot) set.mask) (length (slice_index_or rows.now set.slot [])) before result }
{
    let slot = set.slot as usize;
    let others = without_these(masks[slot], set.mask);
    if others == 0 {
        return before;
    }
    least_in(rows[slot].as_slice(), others, before)
}

/// Prices what breaks a ban at so much less.
fn lower_all(masks: &[u64], sets: &[Choices], by: u64, rows: &mut Vec<Row>)
    requires { length masks.now ≡ length rows.old.items }
    ensures { rows.new.items ≡ lowered_all masks.now by rows.old.items sets.now }
{
    for set in sets {
        lower_at(masks, *set, by, rows);
    }
}

/// Prices what breaks a ban at this slot at so much less.
fn lower_at(masks: &[u64], set: Choices, by: u64, rows: &mut Vec<Row>)
    requires { length masks.now ≡ length rows.old.items }
    ensures { rows.new.items ≡ lowered_at masks.now by rows.old.items set }
{
    let slot = set.slot as usize;
    if slot < rows.len() {
        rows[slot].lower(without_these(masks[slot], set.mask), by);
    }
}

/// Prices what breaks a ban at as much less as all of it is priced at, and answers by how much.
fn raise(masks: &[u64], sets: &[Choices], rows: &mut Vec<Row>) -> u64
    requires rising { IsTrue (sets_rise sets.now) }
    requires long { length masks.now ≡ length rows.old.items }
    ensures raised { RaisesBy masks.now sets.now rows.old.items rows.new.items result }
    ensures long { length rows.new.items ≡ length rows.old.items }
{
    match least_break(masks, sets, rows.as_slice()) {
        Some(by) => {
            lower_all(masks, sets, by, rows);
            by
        }
        None => 0,
    }
}

/// Raises a bound by what breaks a ban, and lowers the prices there.
fn raise_bound(masks: &[u64], sets: &[Choices], low: u64, rows: &mut Vec<Row>) -> u64
    requires rising { IsTrue (sets_rise sets.now) }
    requires long { length masks.now ≡ length rows.old.items }
    ensures bound { (slots : List (List Cost)) (conflicts : List (List Pair)) → BreaksEach slots conflicts masks.now sets.now → IsBound slots conflicts masks.now low rows.old.items → IsBound slots conflicts masks.now result rows.new.items }
    ensures long { length rows.new.items ≡ length rows.old.items }
{
    low.saturating_add(raise(masks, sets, rows))
}

/// Raises a bound by the cheapest choice of each slot.
pub fn raise_by_slots(masks: &[u64], rows: &mut Vec<Row>) -> u64
    requires few { length rows.old.items ≤ 4096 }
    requires long { length masks.now ≡ length rows.old.items }
    ensures bound { (slots : List (List Cost)) (conflicts : List (List Pair)) → IsBound slots conflicts masks.now 0 rows.old.items → IsBound slots conflicts masks.now result rows.new.items }
    ensures long { length rows.new.items ≡ length rows.old.items }
{
    let mut low = 0;
    for slot in 0..masks.len() {
        low = raise_by_slot(masks, slot, low, rows);
    }
    low
}

/// Raises a bound by the cheapest choice of a slot. Where that is free there is nothing to raise it by.
fn raise_by_slot(masks: &[u64], slot: usize, low: u64, rows: &mut Vec<Row>) -> u64
    requires within { slot < 4096 }
    requires long { length masks.now ≡ length rows.old.items }
    ensures bound { (slots : List (List Cost)) (conflicts : List (List Pair)) → IsBound slots conflicts masks.now low rows.old.items → IsBound slots conflicts masks.now result rows.new.items }
    ensures long { length rows.new.items ≡ length rows.old.items }
{
    if !is_priced(slot, rows.as_slice()) {
        return low;
    }
    let none = Choices {
        slot: slot as u32,
        mask: 0,
    };
    raise_bound(masks, &[none], low, rows)
}

/// Whether choices of a slot are left, and each has a price.
fn is_priced(slot: usize, rows: &[Row]) -> bool {
    match rows.get(slot) {
        Some(row) => row.is_priced(),
        None => false,
    }
}

/// Raises a bound by each ban in turn, until it is enough.
pub fn raise_by_bans(
    masks: &[u64],
    conflicts: &Conflicts,
    low: u64,
    enough: u64,
    rows: &mut Vec<Row>,
) -> u64
    requires long { length masks.now ≡ length rows.old.items }
    ensures { (slots : List (List Cost)) → IsBound slots conflicts.now masks.now low rows.old.items → IsBound slots conflicts.now masks.now result rows.new.items }
{
    let mut bound = low;
    for place in 0..conflicts.bans().len() {
        if bound >= enough {
            return bound;
        }
        bound = raise_by_ban(masks, conflicts, place, bound, rows);
    }
    bound
}

/// Raises a bound by the ban at this place, if there is one.
fn raise_by_ban(
    masks: &[u64],
    conflicts: &Conflicts,
    place: usize,
    low: u64,
    rows: &mut Vec<Row>,
) -> u64
    requires long { length masks.now ≡ length rows.old.items }
    ensures bound { (slots : List (List Cost)) → IsBound slots conflicts.now masks.now low rows.old.items → IsBound slots conflicts.now masks.now result rows.new.items }
    ensures long { length rows.new.items ≡ length rows.old.items }
{
    let bans = conflicts.bans();
    if place >= bans.len() || !are_priced(bans[place].sets(), rows.as_slice()) {
        return low;
    }
    raise_bound(masks, bans[place].sets(), low, rows)
}

/// As many rows as there are slots.
fn fit_rows(alloc: Global, count: usize, rows: &mut Vec<Row>) -> Result<(), AllocError>
    ensures { OnOk result (length rows.new.items ≡ count) }
{
    rows.truncate(count);
    for _row in rows.len()..count {
        rows.push(Row::new(alloc))?;
    }
    Ok(())
}

/// Fills the row of a slot with what its choices cost.
fn fill_row(costs: &[Cost], mask: u64, slot: usize, rows: &mut Vec<Row>) -> Result<(), AllocError>
    requires { slot < length rows.old.items }
    ensures { OnOk result (rows.new.items ≡ slice_set rows.old.items slot costs.now) }
{
    rows[slot].fill(costs, mask)
}

/// Fills the rows with the prices that each slot's choices begin at: what they cost.
pub fn fill_rows(
    alloc: Global,
    slots: &[Seq<Cost>],
    masks: &[u64],
    rows: &mut Vec<Row>,
) -> Result<(), AllocError>
    ensures { OnOk result (rows.new.items ≡ slots.now) }
{
    fit_rows(alloc, slots.len(), rows)?;
    for slot in 0..slots.len() {
        let mask = masks.get(slot).copied().unwrap_or(0);
        fill_row(slots[slot].as_slice(), mask, slot, rows)?;
    }
    Ok(())
}
