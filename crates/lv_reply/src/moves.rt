//! Moves and modes by the names of the plant.
#![tactic(auto)]

ghost use Rattle.std.specs.Prelude.{◌≡◌, ◌++◌, IfOk, decimal, codes};
ghost use Rattle.lv_reply.specs.Moves.{move_text, stay_text, item_text};

use crate::pieces::{push_name, push_number};
use lv_model::{Move, MoveKind, Name, Part};
use std::alloc::{AllocError, Global};

/// A step or a fault of a part.
pub fn text_of_move(
    alloc: Global,
    part: &Part,
    modes: &[Name],
    m: &Move,
) -> Result<Vec<u8>, AllocError>
    ensures { IfOk result (λ out. out.items ≡ move_text part.now modes.now m.now) }
{
    let mut out = Vec::from_slice(alloc, part.name.as_slice())?;
    out.extend_from_slice(b" ")?;
    push_name(&mut out, modes, m.source.0)?;
    out.extend_from_slice(b">")?;
    push_name(&mut out, modes, m.target.0)?;
    out.extend_from_slice(b" #")?;
    push_number(&mut out, m.line as u64)?;
    Ok(out)
}

/// A stay of a part.
fn text_of_stay(alloc: Global, part: &Part, modes: &[Name], m: &Move) -> Result<Vec<u8>, AllocError>
    ensures { IfOk result (λ out. out.items ≡ stay_text part.now modes.now m.now) }
{
    let mut out = Vec::from_slice(alloc, part.name.as_slice())?;
    out.extend_from_slice(b" ")?;
    push_name(&mut out, modes, m.source.0)?;
    out.extend_from_slice(b" stay")?;
    Ok(out)
}

/// A move of a part, stays too.
pub fn text_of_item(
    alloc: Global,
    part: &Part,
    modes: &[Name],
    m: &Move,
) -> Result<Vec<u8>, AllocError>
    ensures { IfOk result (λ out. out.items ≡ item_text m.now.kind part.now modes.now m.now) }
{
    match m.kind {
        MoveKind::Stay => text_of_stay(alloc, part, modes, m),
        MoveKind::Step => text_of_move(alloc, part, modes, m),
        MoveKind::Fault => text_of_move(alloc, part, modes, m),
    }
}
