//! Slots that are marked.
#![tactic(auto)]

ghost use Rattle.std.specs.Prelude.{◌≡◌};
ghost use Rattle.lv_search_parts.specs.Slots.{is_marked, is_inside};

use lv_base::Pair;

/// Whether all slots of the pairs are marked.
pub fn is_inside(marks: &[bool], pairs: &[Pair]) -> bool
    ensures { result ≡ is_inside marks.now pairs.now }
{
    pairs.iter().all(|pair| is_marked(marks, *pair))
}

/// Whether the pair's slot is marked.
fn is_marked(marks: &[bool], pair: Pair) -> bool
    ensures { result ≡ is_marked marks.now pair.slot }
{
    let slot = pair.slot as usize;
    slot < marks.len() && marks[slot]
}
