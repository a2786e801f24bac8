//! The conflicts of a window that are known before any trial: two neighbouring moves of a part, of which the second doesn't
//! go from the mode that the first leads to.
#![tactic(auto)]

ghost use Rattle.std.specs.Prelude.{◌≡◌, ◌+◌, ◌*◌, ◌<◌, ◌≤◌, ◌^◌, ◌++◌, [], ◌∷◌, All, IfOk, length};
ghost use Rattle.lv_base.specs.declared.limits.TheConstants.{PARTS};
ghost use Rattle.lv_compile.specs.declared.windows.TheConstants.{WINDOW};
ghost use Rattle.lv_window.specs.Joints.{breaks, breaks_of, joints_of, part_joints, joints};
ghost use Rattle.lv_model.specs.WellFormed.{TypeIsSmall};

use lv_base::{Conflict, Pair};
use lv_compile::windows::WINDOW;
use lv_meaning::moves::moves_of;
use lv_model::{Model, Move, Plant};
use std::alloc::{AllocError, Global};

/// A part's slots in two neighbouring steps.
#[derive(Clone, Copy, Debug, PartialEq, Eq)]
struct Slots {
    slot: u32,
    behind: u32,
}

/// A move and its number among those of its part's type.
#[derive(Clone, Copy)]
struct Numbered<'m> {
    number: u32,
    of: &'m Move,
}

/// The conflict of these two choices.
fn conflict_of(alloc: Global, slots: Slots, first: u32, second: u32) -> Result<Conflict, AllocError>
    requires { slots.slot < slots.behind }
    ensures { IfOk result (λ c. c ≡ record { slot = slots.slot; choice = first } ∷ record { slot = slots.behind; choice = second } ∷ []) }
{
    let one = Pair {
        slot: slots.slot,
        choice: first,
    };
    let other = Pair {
        slot: slots.behind,
        choice: second,
    };
    Conflict::from_pairs(alloc, &[one, other])
}

/// Adds the conflict of the two moves where the second doesn't go from where the first leads.
fn push_break(
    out: &mut Vec<Conflict>,
    alloc: Global,
    slots: Slots,
    first: Numbered<'_>,
    second: Numbered<'_>,
) -> Result<(), AllocError>
    requires { slots.slot < slots.behind }
    ensures { IfOk result (λ _. out.new.items ≡ out.old.items ++ breaks slots.slot slots.behind first.entry.number first.entry.of.now second.entry.number second.entry.of.now) }
{
    if second.of.source.0 != first.of.target.0 {
        out.push(conflict_of(alloc, slots, first.number, second.number)?)?;
    }
    Ok(())
}

/// Adds those of the one move with all moves behind it.
fn push_breaks(
    out: &mut Vec<Conflict>,
    alloc: Global,
    slots: Slots,
    first: Numbered<'_>,
    moves: &[Move],
) -> Result<(), AllocError>
    requires order { slots.slot < slots.behind }
    requires few { length moves.now < 2 ^ 32 }
    ensures { IfOk result (λ _. out.new.items ≡ out.old.items ++ breaks_of slots.slot slots.behind first.entry.number first.entry.of.now 0 moves.now) }
{
    for (number, of) in moves.iter().enumerate() {
        let second = Numbered {
            number: number as u32,
            of,
        };
        push_break(out, alloc, slots, first, second)?;
    }
    Ok(())
}

/// Adds those of all moves of a part's type in two neighbouring steps.
fn push_joints(
    out: &mut Vec<Conflict>,
    alloc: Global,
    slots: Slots,
    moves: &[Move],
) -> Result<(), AllocError>
    requires order { slots.slot < slots.behind }
    requires few { length moves.now < 2 ^ 32 }
    ensures { IfOk result (λ _. out.new.items ≡ out.old.items ++ joints_of slots.slot slots.behind 0 moves.now moves.now) }
{
    for (number, of) in moves.iter().enumerate() {
        let first = Numbered {
            number: number as u32,
            of,
        };
        push_breaks(out, alloc, slots, first, moves)?;
    }
    Ok(())
}

/// Adds those of all parts in two neighbouring steps, of which the first begins with this slot.
fn push_step(
    out: &mut Vec<Conflict>,
    alloc: Global,
    plant: &Plant,
    slot: u32,
) -> Result<(), AllocError>
    requires small { All TypeIsSmall plant.now.types }
    requires some { length plant.now.parts ≤ PARTS }
    requires slot { slot ≤ WINDOW * PARTS }
    ensures { IfOk result (λ _. out.new.items ≡ out.old.items ++ part_joints plant.now.types slot (slot + length plant.now.parts) plant.now.parts) }
{
    let parts = plant.parts.as_slice();
    for (part, of) in parts.iter().enumerate() {
        let slots = Slots {
            slot: slot + part as u32,
            behind: slot + parts.len() as u32 + part as u32,
        };
        push_joints(out, alloc, slots, moves_of(plant.types.as_slice(), of))?;
    }
    Ok(())
}

/// Those of a step with each of so many later ones.
pub fn joints(alloc: Global, model: &Model, later: u32) -> Result<Vec<Conflict>, AllocError>
    requires { later < WINDOW }
    ensures { IfOk result (λ out. out.items ≡ joints model.now later) }
{
    let plant = model.plant();
    let mut out = Vec::new(alloc);
    let mut slot = 0;
    let mut left = later;
    'steps: while left > 0 {
        push_step(&mut out, alloc, plant, slot)?;
        slot += plant.parts.len() as u32;
        left -= 1;
    }
    Ok(out)
}
