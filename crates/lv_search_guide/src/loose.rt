//! Loose choices: those that stand in no conflict which a member of the box may contain.
#![tactic(auto)]

ghost use Rattle.std.specs.Prelude.{◌≡◌, ◌++◌, ◌∷◌, [], List, IfOk};
ghost use Rattle.std.specs.List.{list_all};
ghost use Rattle.lv_base.specs.declared.search.Pair.{Pair};
ghost use Rattle.lv_search_bans.specs.Boxes.{has_left};
ghost use Rattle.lv_search_guide.specs.First.{AreLoose, TakesOut};

use lv_base::{Conflict, Pair};
use lv_search_bans::masks::Masks;
use std::alloc::{AllocError, Global};

/// Of each slot of a box the loose choices.
pub(crate) fn loose_in(
    alloc: Global,
    conflicts: &[Conflict],
    masks: &Masks,
) -> Result<Masks, AllocError>
    ensures { IfOk result (λ loose. AreLoose conflicts.now masks.now loose) }
{
    let mut loose = Masks::from_slice(alloc, masks.as_slice())?;
    for conflict in conflicts {
        bind(conflict.pairs(), masks, &mut loose);
    }
    Ok(loose)
}

/// Takes the choices of a conflict out of those that are loose, if a member of the box may contain it.
fn bind(pairs: &[Pair], masks: &Masks, loose: &mut Masks)
    ensures { (conflicts : List (List Pair)) → AreLoose conflicts masks.now loose.old → AreLoose (conflicts ++ pairs.now ∷ []) masks.now loose.new }
{
    if has_all(masks, pairs) {
        take_out(pairs, loose);
    }
}

/// Whether the box has the choices of all these pairs.
fn has_all(masks: &Masks, pairs: &[Pair]) -> bool
    ensures { result ≡ list_all (has_left masks.now) pairs.now }
{
    pairs.iter().all(|pair| masks.has(*pair))
}

/// Takes the choices of these pairs out of a box.
fn take_out(pairs: &[Pair], masks: &mut Masks)
    ensures { TakesOut pairs.now masks.old masks.new }
{
    for pair in pairs {
        masks.exclude(*pair);
    }
}
