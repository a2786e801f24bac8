//! How many choices a pair of a conflict stands against: the more, the better a box falls apart by it.
#![tactic(auto)]

use lv_base::Pair;
use lv_boxes::mask;
use lv_search_bans::bans::{Ban, Choices};
use lv_search_bans::masks::has_several;
use std::alloc::{AllocError, Global};

/// The bans beyond so many tell nothing more of what is best: they come last where short ones come first.
const MOST: usize = 256;

/// Of each slot how many choices of the box the choice of these pairs there can't stand together with, by each ban;
/// nothing of any slot, where there are no bans. The pairs have each slot once at most.
pub(crate) fn counts_of(
    alloc: Global,
    bans: &[Ban],
    masks: &[u64],
    pairs: &[Pair],
) -> Result<Vec<u64>, AllocError> {
    if bans.len() == 0 {
        return Ok(Vec::new(alloc));
    }
    let mut counts = vec![in alloc; 0; masks.len()]?;
    let open = open_choices(alloc, masks, pairs)?;
    for ban in bans.iter().take(MOST) {
        add_ban(ban.sets(), masks, open.as_slice(), &mut counts);
    }
    Ok(counts)
}

/// Of each slot the choice of these pairs there, as a mask, where it is not all that the slot has left.
fn open_choices(alloc: Global, masks: &[u64], pairs: &[Pair]) -> Result<Vec<u64>, AllocError> {
    let mut open = vec![in alloc; 0; masks.len()]?;
    for pair in pairs {
        put_open(masks, *pair, &mut open);
    }
    Ok(open)
}

/// Puts down the pair's choice, where it is not all that its slot has left.
fn put_open(masks: &[u64], pair: Pair, open: &mut [u64]) {
    let slot = pair.slot as usize;
    if slot < masks.len() && slot < open.len() {
        let own = mask::only(masks[slot], pair.choice);
        if own != masks[slot] {
            open[slot] = own;
        }
    }
}

/// Adds, at each slot where a ban has the open choice, in how many ways the ban can be met beside that slot. A ban that
/// can't be met in the box adds nothing.
fn add_ban(sets: &[Choices], masks: &[u64], open: &[u64], counts: &mut [u64]) {
    let ways = ways_of(sets, masks);
    if ways == 0 {
        return;
    }
    for set in sets {
        let slot = set.slot as usize;
        if slot < open.len() && slot < counts.len() && open[slot] & set.mask != 0 {
            counts[slot] = counts[slot].saturating_add(ways_beside(ways, ways_at(*set, masks)));
        }
    }
}

/// Of the ways in which a ban can be met those beside a slot at which it has so many.
#[inline(always)]
fn ways_beside(ways: u64, own: u64) -> u64 {
    if own <= 1 { ways } else { ways / own }
}

/// In how many ways a ban can be met in a box.
fn ways_of(sets: &[Choices], masks: &[u64]) -> u64 {
    let mut ways: u64 = 1;
    for set in sets {
        ways = ways.saturating_mul(ways_at(*set, masks));
        if ways == 0 {
            return 0;
        }
    }
    ways
}

/// How many of these choices a box has; one where it hasn't the slot.
#[inline(always)]
fn ways_at(set: Choices, masks: &[u64]) -> u64 {
    let slot = set.slot as usize;
    if slot < masks.len() {
        count_in(masks[slot] & set.mask)
    } else {
        1
    }
}

/// How many choices a mask has.
#[inline(always)]
fn count_in(mask: u64) -> u64 {
    if has_several(mask) {
        mask.count_ones() as u64
    } else {
        (mask != 0) as u64
    }
}
