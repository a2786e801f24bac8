//! The lanes, and what each line does.
#![tactic(auto)]

ghost use Rattle.std.specs.Prelude.{◌≡◌, true, false, [], IfOk, OnOk, OnErr, IsErr};
ghost use Rattle.lv_lanes.specs.Forms.{asked_by, for_lane, turn};
ghost use Rattle.lv_lanes.specs.Standing.{lanes_by, work_by, work_of, stepped};
ghost use Rattle.lv_lanes.specs.Replies.{MayReply};

use crate::fault::LaneFault;
use crate::form::{LaneLine, asked_by};
use crate::lane::Lane;
use crate::named::{Named, answer_all_open, answer_for, more_line};
use crate::reply::{LaneReply, LaneText, lanes_text};
use lv_base::{Name, Seq};
use lv_serve::Responder;
use std::alloc::{AllocError, Global};
use std::marker;

/// Lanes, each with a responder of its own, which are made as they are named.
#[derive(Drop)]
pub struct Lanes<L> {
    alloc: Global,
    is_out_of_memory: bool,
    lanes: Vec<Named<L>>,
    first: L,
}

impl<L> marker::Model for Lanes<L> {
    ghost use Rattle.lv_lanes.specs.Standing.{Standing};

    ghost Value = { Standing L };

    ghost view = { λ s. record { first = s.first; lanes = s.lanes.items; is_out_of_memory = s.is_out_of_memory } };
}

/// Hands a line to the lane of a name, and answers its reply.
fn answered_by_lane<L: Lane>(
    alloc: Global,
    lanes: &mut Vec<Named<L>>,
    first: &L,
    name: &[u8],
    line: &[u8],
) -> Result<LaneReply, AllocError>
    ensures goes { OnOk result (lanes.new.items ≡ lanes_by L.next L.start L.is_open first.now lanes.old.items (for_lane name.now line.now)) }
    ensures replies { IfOk result (MayReply L.says (work_by L.start L.is_open first.now lanes.old.items (for_lane name.now line.now))) }
{
    let Some(text) = answer_for(alloc, lanes, first, name, line)? else {
        return Ok(LaneReply::Refused(LaneFault::NoLane));
    };
    let mut replies = Seq::new(alloc);
    replies.push(LaneText {
        name: Name::from_slice(alloc, name)?,
        text,
    })?;
    Ok(LaneReply::Replied(replies))
}

/// Goes on with each lane's unsettled query for so many trials, and answers the replies.
fn answered_in_turn<L: Lane>(
    alloc: Global,
    lanes: &mut Vec<Named<L>>,
    first: &L,
    trials: u64,
) -> Result<LaneReply, AllocError>
    ensures goes { OnOk result (lanes.new.items ≡ lanes_by L.next L.start L.is_open first.now lanes.old.items (turn trials)) }
    ensures replies { IfOk result (MayReply L.says (work_by L.start L.is_open first.now lanes.old.items (turn trials))) }
{
    let line = more_line(alloc, trials)?;
    let replies = answer_all_open(alloc, lanes, &line)?;
    Ok(LaneReply::Replied(Seq::from_vec(replies)))
}

/// Does what a line asks for, and answers the reply.
fn answered<L: Lane>(
    alloc: Global,
    lanes: &mut Vec<Named<L>>,
    first: &L,
    line: &[u8],
) -> Result<LaneReply, AllocError>
    ensures goes { OnOk result (lanes.new.items ≡ lanes_by L.next L.start L.is_open first.now lanes.old.items (asked_by line.now)) }
    ensures replies { IfOk result (MayReply L.says (work_by L.start L.is_open first.now lanes.old.items (asked_by line.now))) }
{
    match asked_by(alloc, line)? {
        LaneLine::Nothing => Ok(LaneReply::Replied(Seq::new(alloc))),
        LaneLine::Refused(fault) => Ok(LaneReply::Refused(fault)),
        LaneLine::ForLane { name, line } => answered_by_lane(alloc, lanes, first, name, line),
        LaneLine::Turn(trials) => answered_in_turn(alloc, lanes, first, trials),
    }
}

impl<L: Lane> Lanes<L> {
    /// No lanes yet. Each will be made of the first, which answers no line itself. Takes no memory.
    pub fn new(alloc: Global, first: L) -> Lanes<L>
        ensures { result ≡ record { first = first; lanes = []; is_out_of_memory = false } }
    {
        Lanes {
            alloc,
            is_out_of_memory: false,
            lanes: Vec::new(alloc),
            first,
        }
    }

    /// Does what a line asks for, which is given without its end, and answers the reply. A line that is refused changes
    /// nothing, and makes no lane. Once memory was wanting, each later call answers so too.
    pub fn step(&mut self, line: &[u8]) -> Result<LaneReply, AllocError>
        ensures goes { OnOk result (self.new ≡ stepped L.next L.start L.is_open self.old line.now) }
        ensures replies { IfOk result (MayReply L.says (work_of L.start L.is_open self.old line.now)) }
        ensures err { OnErr result (self.new.is_out_of_memory ≡ true) }
        ensures stays { self.old.is_out_of_memory ≡ true → IsErr result }
    {
        if self.is_out_of_memory {
            return Err(AllocError);
        }
        match answered(self.alloc, &mut self.lanes, &self.first, line) {
            Ok(reply) => Ok(reply),
            Err(error) => {
                self.is_out_of_memory = true;
                Err(error)
            }
        }
    }
}

/// Lanes answer lines as what they are made of does; a line may be for any of them. No line ends them.
impl<L: Lane> Responder for Lanes<L> {
    ghost use Rattle.std.specs.Prelude.{false};
    ghost use Rattle.lv_lanes.specs.Standing.{stepped};
    ghost use Rattle.lv_lanes.specs.Replies.{MayWrite};
    ghost use Rattle.lv_lanes.specs.LongLines.{long_goes, long_says};

    ghost next = { stepped L.next L.start L.is_open };

    ghost says = { MayWrite L.says L.start L.is_open };

    ghost has_ended = { λ _. false };

    fn answer(&mut self, line: &[u8], text: &mut Vec<u8>) -> Result<(), AllocError> {
        let reply = self.step(line)?;
        *text = lanes_text(self.alloc, &reply)?;
        Ok(())
    }

    fn is_ended(&self) -> bool {
        false
    }

    ghost long_goes = { long_goes L.next L.says L.start L.is_open };

    ghost long_says = { long_says L.next L.says L.start L.is_open };

    ghost ended_stays = { λ s line ended. absurd (cc ended) };

    ghost ended_silent = { λ s line ended. absurd (cc ended) };
}
