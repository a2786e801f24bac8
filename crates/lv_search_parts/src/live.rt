//! What a box leaves of conflicts: those that a member may contain, each without the pairs that all members have.
#![tactic(auto)]

ghost use Rattle.std.specs.Prelude.{◌≡◌, ◌++◌, ◌∷◌, [], List, IfOk, OnOk, IsTrue};
ghost use Rattle.std.specs.List.{list_all};
ghost use Rattle.lv_base.specs.declared.search.Pair.{Pair};
ghost use Rattle.lv_base.specs.Choices.{slots_rise};
ghost use Rattle.lv_search_parts.specs.Parts.{is_there, is_forced, IsOpenOf, IsLiveOf};

use lv_base::{Conflict, Pair};
use lv_boxes::mask;
use std::alloc::{AllocError, Global};

/// What a box leaves of these conflicts.
pub fn live_in(
    alloc: Global,
    conflicts: &[Conflict],
    masks: &[u64],
) -> Result<Vec<Conflict>, AllocError>
    ensures { IfOk result (λ live. IsLiveOf conflicts.now masks.now live.items) }
{
    let mut left = Vec::new(alloc);
    let mut live = Vec::new(alloc);
    for conflict in conflicts {
        push_live(alloc, conflict.pairs(), masks, &mut left, &mut live)?;
    }
    Ok(live)
}

/// Adds what a box leaves of one more conflict, whose pairs these are. What it leaves is written first into `left`.
fn push_live(
    alloc: Global,
    pairs: &[Pair],
    masks: &[u64],
    left: &mut Vec<Pair>,
    live: &mut Vec<Conflict>,
) -> Result<(), AllocError>
    requires { IsTrue (slots_rise pairs.now) }
    ensures { OnOk result ((conflicts : List (List Pair)) → IsLiveOf conflicts masks.now live.old.items → IsLiveOf (conflicts ++ pairs.now ∷ []) masks.now live.new.items) }
{
    if !are_there(masks, pairs) {
        return Ok(());
    }
    write_open(pairs, masks, left)?;
    live.push(Conflict::from_pairs(alloc, left.as_slice())?)?;
    Ok(())
}

/// Writes the pairs that not each member has.
fn write_open(pairs: &[Pair], masks: &[u64], left: &mut Vec<Pair>) -> Result<(), AllocError>
    requires { IsTrue (slots_rise pairs.now) }
    ensures { OnOk result (IsOpenOf masks.now pairs.now left.new.items) }
{
    left.clear();
    for pair in pairs {
        push_open(*pair, masks, left)?;
    }
    Ok(())
}

/// Adds a pair, if not each member has it.
pub(crate) fn push_open(pair: Pair, masks: &[u64], left: &mut Vec<Pair>) -> Result<(), AllocError>
    ensures { OnOk result ((pairs rest : List Pair) → IsOpenOf masks.now pairs (left.old.items ++ pair ∷ rest) → IsOpenOf masks.now pairs (left.new.items ++ rest)) }
{
    if is_forced(masks, pair) {
        return Ok(());
    }
    left.push(pair)?;
    Ok(())
}

/// Whether the box has the choices of all these pairs.
pub fn are_there(masks: &[u64], pairs: &[Pair]) -> bool
    ensures { result ≡ list_all (is_there masks.now) pairs.now }
{
    pairs.iter().all(|pair| is_there(masks, *pair))
}

/// Whether the box has the pair's choice.
pub fn is_there(masks: &[u64], pair: Pair) -> bool
    ensures { result ≡ is_there masks.now pair }
{
    let slot = pair.slot as usize;
    slot < masks.len() && mask::has(masks[slot], pair.choice as usize)
}

/// Whether the pair's choice is all that its slot has left.
fn is_forced(masks: &[u64], pair: Pair) -> bool
    ensures { result ≡ is_forced masks.now pair }
{
    let slot = pair.slot as usize;
    slot < masks.len() && mask::only(masks[slot], pair.choice) == masks[slot]
}
