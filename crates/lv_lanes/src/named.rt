//! Lanes by their names, in the order of their first use. There are so few that a lane is looked for among all of them.
#![tactic(auto)]

ghost use Rattle.std.specs.Prelude.{◌≡◌, ◌++◌, [], ◌∷◌, None, false, IfOk, OnOk, IfSome, map};
ghost use Rattle.std.specs.List.{list_any};
ghost use Rattle.lv_lanes.specs.Standing.{is_lane, has_place, errands_to_open, turned, more_line};
ghost use Rattle.lv_lanes.specs.Replies.{AreReplies, IsHandedOn};

use crate::lane::Lane;
use crate::reply::LaneText;
use itoa::Buffer;
use lv_base::{Name, Seq, has_name};
use std::alloc::{AllocError, Global};

/// How many lanes there can be.
pub const LANES: usize = 64;

/// A lane and its name.
#[derive(Drop)]
pub struct Named<L> {
    pub name: Name,
    pub lane: L,
}

/// Hands a line to a lane: its text.
fn answer_of<L: Lane>(alloc: Global, lane: &mut L, line: &[u8]) -> Result<Seq<u8>, AllocError>
    ensures goes { OnOk result (lane.new ≡ L.next lane.old line.now) }
    ensures says { IfOk result (λ text. L.says lane.old line.now text) }
{
    let mut text = Vec::new(alloc);
    lane.answer(line, &mut text)?;
    Ok(Seq::from_vec(text))
}

/// Hands a line to the lane of a name: its text. None where it isn't there.
fn answer_named<L: Lane>(
    alloc: Global,
    lanes: &mut [Named<L>],
    name: &[u8],
    line: &[u8],
) -> Result<Option<Seq<u8>>, AllocError>
    ensures { (start : L) → IfOk result (IsHandedOn L.says L.next (list_any (is_lane name.now) lanes.old) name.now line.now start lanes.old lanes.new) }
{
    for lane in lanes.iter_mut() {
        if has_name(&lane.name, name) {
            return Ok(Some(answer_of(alloc, &mut lane.lane, line)?));
        }
    }
    Ok(None)
}

/// Makes a lane of that name, at its start, and puts it last.
fn push_fresh<L: Lane>(
    alloc: Global,
    lanes: &mut Vec<Named<L>>,
    first: &L,
    name: &[u8],
) -> Result<(), AllocError>
    ensures { OnOk result (lanes.new.items ≡ lanes.old.items ++ record { name = name.now; lane = L.start first.now } ∷ []) }
{
    let name = Name::from_slice(alloc, name)?;
    let lane = first.fresh()?;
    lanes.push(Named { name, lane })?;
    Ok(())
}

/// Hands a line to the lane of a name, which is made where it isn't there: its text. None where it isn't there and would
/// be one too many.
pub fn answer_for<L: Lane>(
    alloc: Global,
    lanes: &mut Vec<Named<L>>,
    first: &L,
    name: &[u8],
    line: &[u8],
) -> Result<Option<Seq<u8>>, AllocError>
    ensures { IfOk result (IsHandedOn L.says L.next (has_place name.now lanes.old.items) name.now line.now (L.start first.now) lanes.old.items lanes.new.items) }
{
    if let Some(text) = answer_named(alloc, lanes, name, line)? {
        return Ok(Some(text));
    }
    if lanes.len() >= LANES {
        return Ok(None);
    }
    push_fresh(alloc, lanes, first, name)?;
    answer_named(alloc, lanes, name, line)
}

/// The line that goes on with a query, for so many trials.
pub fn more_line(alloc: Global, trials: u64) -> Result<Vec<u8>, AllocError>
    ensures { IfOk result (λ line. line.items ≡ more_line trials) }
{
    let mut line = Vec::from_slice(alloc, b"more ")?;
    let mut digits = Buffer::new();
    line.extend_from_slice(digits.format(trials).as_bytes())?;
    Ok(line)
}

/// Hands a line to a lane, if its query is unsettled: its text then.
fn answer_open<L: Lane>(
    alloc: Global,
    lane: &mut Named<L>,
    line: &[u8],
) -> Result<Option<LaneText>, AllocError>
    ensures goes { OnOk result (lane.new ≡ turned L.next L.is_open line.now lane.old) }
    ensures some { IfOk result (λ reply. IfSome reply (λ r. AreReplies L.says (errands_to_open L.is_open line.now (lane.old ∷ [])) (r ∷ []))) }
    ensures none { IfOk result (λ reply. reply ≡ None → L.is_open lane.old.lane ≡ false) }
{
    if !lane.lane.is_unsettled() {
        return Ok(None);
    }
    let text = answer_of(alloc, &mut lane.lane, line)?;
    Ok(Some(LaneText {
        name: Name::from_slice(alloc, lane.name.as_slice())?,
        text,
    }))
}

/// Hands a line to each lane with an unsettled query, in order.
pub fn answer_all_open<L: Lane>(
    alloc: Global,
    lanes: &mut [Named<L>],
    line: &[u8],
) -> Result<Vec<LaneText>, AllocError>
    ensures goes { OnOk result (lanes.new ≡ map (turned L.next L.is_open line.now) lanes.old) }
    ensures replies { IfOk result (λ replies. AreReplies L.says (errands_to_open L.is_open line.now lanes.old) replies.items) }
{
    let mut replies = Vec::new(alloc);
    for lane in lanes.iter_mut() {
        if let Some(reply) = answer_open(alloc, lane, line)? {
            replies.push(reply)?;
        }
    }
    Ok(replies)
}
