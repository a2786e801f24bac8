//! What is to be done with one box: nothing in it is cheap enough, or its cheapest member contains no conflict, or it
//! falls into two smaller boxes.
#![tactic(auto)]

ghost use Rattle.std.specs.Prelude.{◌≡◌, ◌<◌, ℕ, List, length, IfOk, IfSome, None};
ghost use Rattle.std.specs.List.{find};
ghost use Rattle.std.specs.Option.{option_copied};
ghost use Rattle.lv_base.specs.declared.ids.Cost.{Cost};
ghost use Rattle.lv_base.specs.Choices.{contains_all};
ghost use Rattle.lv_search_bans.specs.Boxes.{is_open};
ghost use Rattle.lv_search_guide.specs.Cheapest.{CheapestLeftTells, IsCheapestLeft, HasNoneLeft, LookTells, OpenTells, SplitTells};

use super::counts::counts_of;
use super::problem::Problem;
use lv_base::{Conflict, Pair, Seq, contains};
use lv_boxes::least::write_least;
use lv_boxes::{Grid, mask};
use lv_search_bans::bans::Ban;
use lv_search_bans::masks::Masks;
use std::alloc::{AllocError, Global};

/// More than any member costs: a choice costs at most 1,000,000, and there are at most 4,096 slots.
pub(crate) const ABOVE_ALL: u64 = 4_096_000_001;

/// A member of a box, and what its choices cost together.
#[derive(Debug, Drop)]
pub struct Member {
    pub cost: u64,
    pub choices: Seq<u32>,
}

/// What a look at a box tells.
#[derive(Debug, Drop)]
pub(crate) enum Looked {
    /// No member without conflict costs less than was asked for.
    Nothing,
    /// This is a cheapest member without conflict.
    Found(Member),
    /// The box falls into the members that have this pair's choice and those that haven't.
    Splits(Pair),
}

/// Looks at a box for a cheapest member that contains no conflict and costs less than `under`. The bans tell by which pair it
/// falls apart best.
pub(crate) fn look(
    alloc: Global,
    problem: &Problem<'_>,
    bans: &[Ban],
    masks: &Masks,
    under: u64,
) -> Result<Looked, AllocError>
    ensures { IfOk result (λ looked. LookTells problem.now.grid.now problem.now.conflicts.now masks.now under looked) }
{
    match cheapest_left(alloc, problem.grid, masks)? {
        Some(member) if member.cost < under => {
            look_at(alloc, problem.conflicts, bans, masks, member)
        }
        _ => Ok(Looked::Nothing),
    }
}

/// A cheapest member of a box, whatever the conflicts.
fn cheapest_left(alloc: Global, grid: &Grid, masks: &Masks) -> Result<Option<Member>, AllocError>
    ensures { IfOk result (λ member. CheapestLeftTells grid.now masks.now member) }
{
    let mut choices = vec![in alloc; 0; grid.len()]?;
    match write_cheapest(grid, masks, &mut choices) {
        Some(cost) => Ok(Some(Member {
            cost,
            choices: Seq::from_vec(choices),
        })),
        None => Ok(None),
    }
}

/// Writes a cheapest member of a box, and answers what it costs.
fn write_cheapest(grid: &Grid, masks: &Masks, out: &mut [u32]) -> Option<u64>
    requires { length out.old ≡ length grid.now }
    ensures some { IfSome result (λ cost. IsCheapestLeft grid.now masks.now (record { cost = cost; choices = out.new })) }
    ensures none { result ≡ None → HasNoneLeft grid.now masks.now }
{
    write_least(grid.slots(), masks.as_slice(), out)
}

/// Looks at a box whose cheapest member this is: it is found, or contains a conflict.
fn look_at(
    alloc: Global,
    conflicts: &[Conflict],
    bans: &[Ban],
    masks: &Masks,
    member: Member,
) -> Result<Looked, AllocError>
    ensures { IfOk result (λ looked. (slots : List (List Cost)) (under : ℕ) → IsCheapestLeft slots masks.now member → member.cost < under → LookTells slots conflicts.now masks.now under looked) }
{
    match first_contained(conflicts, member.choices.as_slice()) {
        Some(conflict) => split_by(alloc, bans, conflict.pairs(), masks),
        None => Ok(Looked::Found(member)),
    }
}

/// Looks at a box whose cheapest member contains the conflict of these pairs: it falls apart by a pair whose choice is not all
/// that its slot has left. Without such a pair each member contains the conflict.
fn split_by(
    alloc: Global,
    bans: &[Ban],
    pairs: &[Pair],
    masks: &Masks,
) -> Result<Looked, AllocError>
    ensures { IfOk result (λ looked. SplitTells masks.now pairs.now looked) }
{
    let counts = counts_of(alloc, bans, masks.as_slice(), pairs)?;
    match busiest_open(counts.as_slice(), masks.as_slice(), pairs) {
        Some(pair) => Ok(Looked::Splits(pair)),
        None => Ok(Looked::Nothing),
    }
}

/// The first conflict that the choices contain.
fn first_contained<'a>(conflicts: &'a [Conflict], choices: &[u32]) -> Option<&'a Conflict>
    ensures { option_copied result ≡ find (contains_all choices.now) conflicts.now }
{
    conflicts
        .iter()
        .find(|conflict| contains(choices, conflict.pairs()))
}

/// Of the pairs whose choices are not all that their slots have left the one that stands against most choices, by the
/// counts of the slots.
fn busiest_open(counts: &[u64], masks: &[u64], pairs: &[Pair]) -> Option<Pair>
    ensures { OpenTells masks.now pairs.now (length pairs.now) result }
{
    let mut busiest: Option<Pair> = None;
    let mut most = 0;
    for pair in pairs {
        if leaves_open(masks, *pair) {
            let count = count_at(counts, *pair);
            if busiest.is_none() || count > most {
                busiest = Some(*pair);
                most = count;
            }
        }
    }
    busiest
}

/// How many choices a pair stands against, where that was counted.
fn count_at(counts: &[u64], pair: Pair) -> u64 {
    let slot = pair.slot as usize;
    if slot < counts.len() { counts[slot] } else { 0 }
}

/// Whether the pair's choice is not all that its slot has left.
fn leaves_open(masks: &[u64], pair: Pair) -> bool
    ensures { result ≡ is_open masks.now pair }
{
    let slot = pair.slot as usize;
    slot < masks.len() && mask::only(masks[slot], pair.choice) != masks[slot]
}
