//! Things by their numbers, which count from 1.
#![tactic(auto)]

ghost use Rattle.std.specs.Prelude.{◌≡◌, ◌-◌, ◌<◌, ◌^◌, true, Some, None, All, IfOk, IfSome, length, option_map, if◌then◌else◌};
ghost use Rattle.lv_model.specs.Lists.{IsFew};
ghost use Rattle.lv_cert_meaning.specs.Counting as Counting;
ghost use Rattle.lv_cert_meaning.specs.Counting.{is_one_of, are_of};
ghost use Rattle.lv_cert_meaning.specs.Fitting.{are_places, are_values};

use lv_base::ValId;
use std::alloc::{AllocError, Global};

/// The place of the thing of this number among so many, if there is one.
pub fn place_of(count: usize, n: u128) -> Option<u32>
    requires { count < 2 ^ 32 }
    ensures place { result ≡ (if is_one_of count n then Some (n - 1) else None) }
    ensures within { IfSome result (λ place. place < count) }
{
    if 0 < n && n <= count as u128 {
        Some((n - 1) as u32)
    } else {
        None
    }
}

/// The places that numbers stand for, if there is one for each count and it has it.
pub fn places_of(
    alloc: Global,
    counts: &[usize],
    ns: &[u128],
) -> Result<Option<Vec<u32>>, AllocError>
    requires { All IsFew counts.now }
    ensures places { IfOk result (λ found. option_map (λ out. out.items) found ≡ (if are_of counts.now ns.now then Some (Counting.places_of ns.now) else None)) }
    ensures count { IfOk result (λ found. IfSome found (λ out. length out.items ≡ length counts.now)) }
    ensures within { IfOk result (λ found. IfSome found (λ out. are_places counts.now out.items ≡ true)) }
{
    if counts.len() != ns.len() {
        return Ok(None);
    }
    let mut out = Vec::with_capacity(alloc, ns.len())?;
    for (at, n) in ns.iter().enumerate() {
        match place_of(counts[at], *n) {
            Some(place) => out.push(place)?,
            None => return Ok(None),
        }
    }
    Ok(Some(out))
}

/// The values of these places.
fn values(alloc: Global, places: &[u32]) -> Result<Vec<ValId>, AllocError>
    ensures { IfOk result (λ out. out.items ≡ Counting.values_at places.now) }
{
    places.iter().map(|place| ValId(*place)).collect(alloc)
}

/// The values that numbers stand for, if there is one for each count and it has it.
pub fn values_of(
    alloc: Global,
    counts: &[usize],
    ns: &[u128],
) -> Result<Option<Vec<ValId>>, AllocError>
    requires { All IsFew counts.now }
    ensures values { IfOk result (λ found. option_map (λ out. out.items) found ≡ (if are_of counts.now ns.now then Some (Counting.values_of ns.now) else None)) }
    ensures count { IfOk result (λ found. IfSome found (λ out. length out.items ≡ length counts.now)) }
    ensures within { IfOk result (λ found. IfSome found (λ out. are_values counts.now out.items ≡ true)) }
{
    match places_of(alloc, counts, ns)? {
        Some(places) => Ok(Some(values(alloc, places.as_slice())?)),
        None => Ok(None),
    }
}
