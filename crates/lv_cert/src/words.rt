//! The words of a line: what stands between its spaces. Two spaces in a row have an empty word between them, and so
//! has the end of the line behind a last space; no kind of line has such a word.
#![tactic(auto)]

ghost use Rattle.std.specs.Prelude.{◌≡◌, ◌<◌, [], ◌∷◌, IfOk, IfSome, IfNone, position, length};
ghost use Rattle.std.specs.List.{slice_split};
ghost use Rattle.lv_cert.specs.Words.{is_space};

use lv_base::Seq;
use std::alloc::{AllocError, Global};

/// A word.
pub type Word = Seq<u8>;

/// The words of a line, which is given without its end.
pub fn words(alloc: Global, line: &[u8]) -> Result<Vec<Word>, AllocError>
    ensures { IfOk result (λ words. words.items ≡ slice_split is_space line.now) }
{
    let mut words = Vec::new(alloc);
    let mut rest = line;
    while let Some((word, behind)) = cut_at_space(rest) {
        words.push(Seq::from_slice(alloc, word)?)?;
        rest = behind;
    }
    words.push(Seq::from_slice(alloc, rest)?)?;
    Ok(words)
}

/// What stands before the first space, and what stands behind it.
fn cut_at_space(line: &[u8]) -> Option<(&[u8], &[u8])>
    ensures whole { IfNone result (slice_split is_space line.now ≡ line.now ∷ []) }
    ensures cut { IfSome result (λ cut. slice_split is_space line.now ≡ cut.0.now ∷ slice_split is_space cut.1.now) }
    ensures shorter { IfSome result (λ cut. length cut.1.now < length line.now) }
{
    let at = first_space(line)?;
    Some((&line[..at], &line[at + 1..]))
}

/// Where the first space stands.
fn first_space(line: &[u8]) -> Option<usize>
    ensures { result ≡ position is_space line.now }
{
    line.iter().position(|byte| *byte == b' ')
}
