//! Lines: where the first line of a text ends.
//!
//! A line feed or the end of the text ends a line, and a text that is empty has none. One carriage
//! return directly before that end belongs to it, and is no part of the line.

ghost use Rattle.std.specs.Prelude.{◌≡◌, ◌↔◌, [], length, IfSome, IsNone, is_some, position};
ghost use Rattle.std.specs.List.{list_any};
ghost use Rattle.std.specs.Str.Lines.{strip_carriage_return};
ghost use Rattle.lv_text.specs.Lines.{first_ended_line, is_line_feed, BeginsWithLine};

/// The first line of a text: how many bytes it has without its end and with it.
#[derive(Clone, Copy, Debug, PartialEq, Eq, Hash)]
pub struct Line {
    /// The bytes of the line itself.
    pub length: usize,
    /// Those and the bytes of its end: where the next line begins.
    pub whole: usize,
}

/// The length of the first line without its end, and with it, or `None` where no line feed ends it.
pub fn first_line(bytes: &[u8]) -> Option<(usize, usize)>
    ensures value { result ≡ first_ended_line bytes.now }
    ensures found { is_some result ≡ list_any is_line_feed bytes.now }
    ensures line { IfSome result (λ found. BeginsWithLine bytes.now found.0 found.1) }
{
    let at = line_feed(bytes)?;
    Some((last_line(&bytes[..at]), at + 1))
}

// Where the first line feed stands.
fn line_feed(bytes: &[u8]) -> Option<usize>
    ensures { result ≡ position is_line_feed bytes.now }
{
    bytes.iter().position(|byte| *byte == b'\n')
}

/// The length of a last line that no line feed ends, without the carriage return that may end it.
pub fn last_line(bytes: &[u8]) -> usize
    ensures { result ≡ length (strip_carriage_return bytes.now) }
{
    match bytes.last() {
        Some(b'\r') => bytes.len() - 1,
        _ => bytes.len(),
    }
}

/// The first line of a whole text, which may be its last, or `None` where the text is empty.
pub fn next_line(bytes: &[u8]) -> Option<Line>
    ensures none { IsNone result ↔ (bytes.now ≡ []) }
    ensures line { IfSome result (λ line. BeginsWithLine bytes.now line.length line.whole) }
{
    if bytes.is_empty() {
        return None;
    }
    match first_line(bytes) {
        Some((length, whole)) => Some(Line { length, whole }),
        None => Some(Line {
            length: last_line(bytes),
            whole: bytes.len(),
        }),
    }
}
