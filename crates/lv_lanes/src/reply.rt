//! What is replied to a line, and its text.
#![tactic(auto)]

ghost use Rattle.std.specs.Prelude.{◌≡◌, ◌++◌, IfOk, drop, codes};
ghost use Rattle.lv_lanes.specs.Replies.{fault_digit, fronted, lane_text, lane_texts, reply_text};

use crate::fault::LaneFault;
use lv_base::{Name, Seq};
use std::alloc::{AllocError, Global};

/// A text that a lane replies.
#[derive(Drop)]
pub struct LaneText {
    pub name: Name,
    pub text: Seq<u8>,
}

/// What is replied to a line.
#[derive(Drop)]
pub enum LaneReply {
    Refused(LaneFault),
    /// The texts of the lanes that the line went to, in order.
    Replied(Seq<LaneText>),
}

/// The digit of a refusal's code.
fn fault_digit(fault: LaneFault) -> u8
    ensures { result ≡ fault_digit fault }
{
    match fault {
        LaneFault::NoForm => b'1',
        LaneFault::NoLane => b'2',
        LaneFault::OutOfLimits => b'3',
        LaneFault::LongLine => b'4',
    }
}

/// Adds what stands before each line of a lane's text.
fn put_front(out: &mut Vec<u8>, name: &[u8]) -> Result<(), AllocError>
    ensures { IfOk result (λ _. out.new.items ≡ out.old.items ++ (codes "@" ++ name.now ++ codes " ")) }
{
    out.push(b'@')?;
    out.extend_from_slice(name)?;
    out.push(b' ')?;
    Ok(())
}

/// Adds the lines of a lane's text, each with `@NAME ` before it.
fn put_lane_text(out: &mut Vec<u8>, reply: &LaneText) -> Result<(), AllocError>
    ensures { IfOk result (λ _. out.new.items ≡ out.old.items ++ lane_text reply.now) }
{
    let mut begins = true;
    for byte in reply.text.as_slice() {
        if begins {
            put_front(out, reply.name.as_slice())?;
        }
        out.push(*byte)?;
        begins = *byte == b'\n';
    }
    Ok(())
}

/// Adds the texts of lanes, one behind the other.
fn put_lane_texts(out: &mut Vec<u8>, replies: &[LaneText]) -> Result<(), AllocError>
    ensures { IfOk result (λ _. out.new.items ≡ out.old.items ++ lane_texts replies.now) }
{
    for reply in replies {
        put_lane_text(out, reply)?;
    }
    Ok(())
}

/// The text of a reply: each line of a lane's text has `@NAME ` before it.
pub fn lanes_text(alloc: Global, reply: &LaneReply) -> Result<Vec<u8>, AllocError>
    ensures { IfOk result (λ text. text.items ≡ reply_text reply.now) }
{
    let mut out = Vec::new(alloc);
    match reply {
        LaneReply::Refused(fault) => {
            out.extend_from_slice(b"error L0")?;
            out.push(fault_digit(*fault))?;
            out.push(b'\n')?;
        }
        LaneReply::Replied(replies) => put_lane_texts(&mut out, replies.as_slice())?,
    }
    Ok(out)
}
