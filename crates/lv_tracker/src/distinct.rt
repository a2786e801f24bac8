//! Of states with the same modes the first, in the order in which they appear. The states so far stand in a set, so that
//! a state is compared with those of its hash alone.
#![tactic(auto)]

ghost use Rattle.std.specs.Prelude.{◌≡◌, IfOk, OnOk};
ghost use Rattle.std.specs.Cmp.{on_equiv, on_per, partial_equiv_from_equiv};
ghost use Rattle.std.specs.Cmp.Lexicographic.{pointwise};
ghost use Rattle.std.specs.Hash.{on_Alike};
ghost use Rattle.std.specs.Ordering.{on};
ghost use Rattle.lv_tracker.specs.Distinct.{is_same_mode, first_of_each, with_new};
ghost use Rattle.lv_tracker.specs.Sets.{modes_of, states_of, modes_equiv, fed_modes, modes_alike};

use indexmap::IndexSet;
use lv_base::ValId;
use lv_model::TrackedState;
use std::alloc::{AllocError, Global};
use std::hash::{Hash, Hasher};

/// A tracked state, which is told from others by its modes alone.
#[derive(Debug, Drop)]
struct ByModes {
    tracked: TrackedState,
}

impl ByModes {
    fn modes(&self) -> &[ValId]
        ensures { result.now ≡ modes_of self.now }
    {
        self.tracked.state.modes.as_slice()
    }
}

impl PartialEq for ByModes {
    ghost eq = { on modes_of (pointwise is_same_mode) };

    ghost laws = { on_per modes_of (partial_equiv_from_equiv modes_equiv) };

    fn eq(&self, other: &ByModes) -> bool {
        self.modes() == other.modes()
    }
}

impl Eq for ByModes {
    ghost laws = { on_equiv modes_of modes_equiv };
}

impl Hash for ByModes {
    ghost hash_input = { λ k. fed_modes (modes_of k) };

    ghost respects_eq = { (on_Alike modes_of modes_alike).fed };

    fn hash<H: Hasher>(&self, state: &mut H) {
        let modes = self.modes();
        state.write_usize(modes.len());
        for mode in modes {
            state.write_u32(mode.0);
        }
    }
}

/// Adds a state, unless one with its modes is there.
fn add(found: &mut IndexSet<ByModes>, tracked: TrackedState) -> Result<(), AllocError>
    ensures { OnOk result (states_of found.new.keys ≡ with_new (states_of found.old.keys) tracked) }
{
    found.insert(ByModes { tracked })?;
    Ok(())
}

/// The states of a set, in its order.
fn states_of(alloc: Global, found: IndexSet<ByModes>) -> Result<Vec<TrackedState>, AllocError>
    ensures { IfOk result (λ states. states.items ≡ states_of found.keys) }
{
    found.into_iter().map(|k| k.tracked).collect(alloc)
}

/// The states without each that has the modes of an earlier one.
pub fn first_of_each(
    alloc: Global,
    states: Vec<TrackedState>,
) -> Result<Vec<TrackedState>, AllocError>
    ensures { IfOk result (λ kept. kept.items ≡ first_of_each states.items) }
{
    let mut found = IndexSet::new(alloc);
    for tracked in states {
        add(&mut found, tracked)?;
    }
    states_of(alloc, found)
}
