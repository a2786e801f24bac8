//! Choices at slots by their numbers, two by two.
#![tactic(auto)]

ghost use Rattle.std.specs.Prelude.{◌≡◌, ◌-◌, ◌<◌, ◌^◌, Some, None, All, IfOk, IfSome, length, option_map, slice_index_or, ◌&&◌, if◌then◌else◌};
ghost use Rattle.lv_base.specs.Choices.{slots_rise};
ghost use Rattle.lv_model.specs.Lists.{IsFew};
ghost use Rattle.lv_cert_meaning.specs.Counting.{is_one_of, are_pairs_of, pairs_in, pairs_of_numbers};
ghost use Rattle.lv_cert_meaning.specs.Fitting.{IsPairOf};

use crate::counting::place_of;
use lv_base::{Conflict, Pair};
use std::alloc::{AllocError, Global};

/// The choice of these numbers, if there is such a slot and it has it.
fn pair_of(counts: &[usize], slot: u128, choice: u128) -> Option<Pair>
    requires few { length counts.now < 2 ^ 32 }
    requires counts { All IsFew counts.now }
    ensures pair { result ≡ (if is_one_of (length counts.now) slot && is_one_of (slice_index_or counts.now (slot - 1) 0) choice then Some (record { slot = slot - 1; choice = choice - 1 }) else None) }
    ensures within { IfSome result (IsPairOf counts.now) }
{
    let slot = place_of(counts.len(), slot)?;
    let choice = place_of(counts[slot as usize], choice)?;
    Some(Pair { slot, choice })
}

/// The choices of these numbers, two by two, if there are such.
fn pairs_in(alloc: Global, counts: &[usize], ns: &[u128]) -> Result<Option<Vec<Pair>>, AllocError>
    requires few { length counts.now < 2 ^ 32 }
    requires counts { All IsFew counts.now }
    ensures pairs { IfOk result (λ found. option_map (λ out. out.items) found ≡ (if are_pairs_of counts.now ns.now then Some (pairs_in ns.now) else None)) }
    ensures within { IfOk result (λ found. IfSome found (λ out. All (IsPairOf counts.now) out.items)) }
{
    let mut out = Vec::new(alloc);
    let mut left = ns;
    while let [slot, choice, more @ ..] = left {
        match pair_of(counts, *slot, *choice) {
            Some(pair) => out.push(pair)?,
            None => return Ok(None),
        }
        left = more;
    }
    if left.is_empty() {
        Ok(Some(out))
    } else {
        Ok(None)
    }
}

/// Whether the slots rise.
fn slots_rise(pairs: &[Pair]) -> bool
    ensures { result ≡ slots_rise pairs.now }
{
    let mut least: u64 = 0;
    for pair in pairs {
        if u64::from(pair.slot) < least {
            return false;
        }
        least = u64::from(pair.slot) + 1;
    }
    true
}

/// The choices that the numbers are, if they are such at slots that rise.
pub fn conflict_of(
    alloc: Global,
    counts: &[usize],
    ns: &[u128],
) -> Result<Option<Conflict>, AllocError>
    requires few { length counts.now < 2 ^ 32 }
    requires counts { All IsFew counts.now }
    ensures pairs { IfOk result (λ found. found ≡ pairs_of_numbers counts.now ns.now) }
    ensures within { IfOk result (λ found. IfSome found (All (IsPairOf counts.now))) }
{
    let Some(pairs) = pairs_in(alloc, counts, ns)? else {
        return Ok(None);
    };
    if !slots_rise(pairs.as_slice()) {
        return Ok(None);
    }
    Ok(Some(Conflict::from_pairs(alloc, pairs.as_slice())?))
}
