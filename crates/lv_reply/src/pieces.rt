//! Pieces of a reply's text: numbers, names by their places, and texts with commas between them.
#![tactic(auto)]

ghost use Rattle.std.specs.Prelude.{◌≡◌, ◌++◌, IfOk, drop, decimal};
ghost use Rattle.lv_reply.specs.Pieces.{name_at, after_commas, joined};

use itoa::Buffer;
use lv_model::Name;
use std::alloc::AllocError;

/// Adds a number.
pub fn push_number(out: &mut Vec<u8>, n: u64) -> Result<(), AllocError>
    ensures { IfOk result (λ _. out.new.items ≡ out.old.items ++ decimal n) }
{
    let mut buffer = Buffer::new();
    out.extend_from_slice(buffer.format(n).as_bytes())?;
    Ok(())
}

/// Adds the name at this place; nothing where there is none.
pub fn push_name(out: &mut Vec<u8>, names: &[Name], n: u32) -> Result<(), AllocError>
    ensures { IfOk result (λ _. out.new.items ≡ out.old.items ++ name_at names.now n) }
{
    match names.get(n as usize) {
        Some(name) => {
            out.extend_from_slice(name.as_slice())?;
            Ok(())
        }
        None => Ok(()),
    }
}

/// Adds texts, each after a comma.
fn push_after_commas(out: &mut Vec<u8>, texts: &[Name]) -> Result<(), AllocError>
    ensures { IfOk result (λ _. out.new.items ≡ out.old.items ++ after_commas texts.now) }
{
    for text in texts {
        out.extend_from_slice(b", ")?;
        out.extend_from_slice(text.as_slice())?;
    }
    Ok(())
}

/// Adds texts with commas between them, or `-` where there are none.
pub fn push_joined(out: &mut Vec<u8>, texts: &[Name]) -> Result<(), AllocError>
    ensures { IfOk result (λ _. out.new.items ≡ out.old.items ++ joined texts.now) }
{
    match texts {
        [] => {
            out.extend_from_slice(b"-")?;
            Ok(())
        }
        [first, rest @ ..] => {
            out.extend_from_slice(first.as_slice())?;
            push_after_commas(out, rest)
        }
    }
}
