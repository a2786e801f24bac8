//! The lexer: the tokens of one line.
//!
//! A token is a word, a number or a symbol, and is never longer than it can be: `<=>` is one token,
//! and a word takes all the letters, digits and `_` that follow. Between tokens stand spaces and tabs;
//! `#` begins a comment, which may hold any bytes. Every other byte is a fault.

ghost use Rattle.std.specs.Prelude.{◌≡◌, ℕ, ◌<◌, ◌≤◌, [], length, drop, All, IfOk, IfErr, OnOk, IsTrue};
ghost use Rattle.std.specs.List.{prefix_len};
ghost use Rattle.lv_text.specs.Bytes.{is_letter, is_digit, is_word_byte};
ghost use Rattle.lv_text.specs.Pieces.{number_piece, symbol_piece, piece_of};
ghost use Rattle.lv_text.specs.Tokens.{line_tokens, all_tokens, lexed, Tells, tokens_at, tokens_behind};
ghost use Rattle.lv_text.specs.Kinds.{IsTokenOf, follow_on, BeginsWith};

use lv_base::limits::LINE_BYTES;
use std::alloc::{AllocFailed, Global};
use thiserror::Error;

/// What a token is.
#[derive(Clone, Copy, Debug, PartialEq, Eq, Hash)]
pub enum TokenKind {
    /// A letter or `_`, then letters, digits and `_`.
    Word,
    /// Decimal digits.
    Number,
    /// `<=>`
    Iff,
    /// `=>`
    Implies,
    /// `->`
    Arrow,
    /// `=`
    Equals,
    /// `!`
    Not,
    /// `&`
    And,
    /// `|`
    Or,
    /// `(`
    Open,
    /// `)`
    Close,
    /// `.`
    Dot,
}

/// A token of a line, by its place: the bytes from `start` up to `end`, which is not included.
#[derive(Clone, Copy, Debug, PartialEq, Eq, Hash)]
pub struct Token {
    pub kind: TokenKind,
    pub start: usize,
    pub end: usize,
}

/// Why a line has no tokens to give.
#[derive(Clone, Copy, Debug, PartialEq, Eq, Error)]
pub enum TextFault {
    /// The line is longer than `LINE_BYTES`, its comment included, whatever it holds.
    #[error("the line is longer than {LINE_BYTES} bytes")]
    LongLine,
    /// The place in the line of the first byte that is not allowed, counted from 0.
    #[error("the byte at {0} is not allowed")]
    BadByte(usize),
    /// Memory ran out. No clause says when.
    #[error("out of memory")]
    Memory,
}

impl From<AllocFailed<Token>> for TextFault {
    ghost use Rattle.lv_text.specs.declared.lexer.TextFault.TheVariants.{Memory};

    ghost from_gives = { λ _ fault. fault ≡ Memory };

    fn from(_failed: AllocFailed<Token>) -> TextFault {
        TextFault::Memory
    }
}

/// What the rest of a line begins with.
#[derive(Clone, Copy, Debug, PartialEq, Eq)]
pub enum Piece {
    /// Nothing more: the line ends, or a comment begins.
    End,
    /// A space or a tab.
    Blank,
    /// A token of that kind and length.
    Lexeme(TokenKind, usize),
    /// No token: the first byte that is not allowed stands so many bytes further on.
    Fault(usize),
}

fn is_letter(byte: u8) -> bool
    ensures { result ≡ is_letter byte }
{
    byte.is_ascii_alphabetic() || byte == b'_'
}

fn word_length(rest: &[u8]) -> usize
    ensures { result ≡ prefix_len is_word_byte rest.now }
{
    rest.iter()
        .take_while(|byte| is_letter(**byte) || byte.is_ascii_digit())
        .count()
}

fn digits_length(rest: &[u8]) -> usize
    ensures { result ≡ prefix_len is_digit rest.now }
{
    rest.iter().take_while(|byte| byte.is_ascii_digit()).count()
}

// `rest` begins with a digit.
fn number_piece(rest: &[u8]) -> Piece
    ensures { result ≡ number_piece rest.now }
{
    let length = digits_length(rest);
    if length < rest.len() && is_letter(rest[length]) {
        Piece::Fault(length)
    } else {
        Piece::Lexeme(TokenKind::Number, length)
    }
}

// By the first byte; `<`, `=` and `-` may begin a longer symbol.
fn symbol_piece(rest: &[u8]) -> Piece
    ensures { result ≡ symbol_piece rest.now }
{
    match rest.first() {
        Some(b'!') => Piece::Lexeme(TokenKind::Not, 1),
        Some(b'&') => Piece::Lexeme(TokenKind::And, 1),
        Some(b'|') => Piece::Lexeme(TokenKind::Or, 1),
        Some(b'(') => Piece::Lexeme(TokenKind::Open, 1),
        Some(b')') => Piece::Lexeme(TokenKind::Close, 1),
        Some(b'.') => Piece::Lexeme(TokenKind::Dot, 1),
        Some(b'=') => {
            if rest.starts_with(b"=>") {
                Piece::Lexeme(TokenKind::Implies, 2)
            } else {
                Piece::Lexeme(TokenKind::Equals, 1)
            }
        }
        _ => {
            if rest.starts_with(b"<=>") {
                Piece::Lexeme(TokenKind::Iff, 3)
            } else if rest.starts_with(b"->") {
                Piece::Lexeme(TokenKind::Arrow, 2)
            } else {
                Piece::Fault(0)
            }
        }
    }
}

fn piece_of(rest: &[u8]) -> Piece
    ensures { result ≡ piece_of rest.now }
{
    let Some(&first) = rest.first() else {
        return Piece::End;
    };
    if first == b'#' {
        Piece::End
    } else if first == b' ' || first == b'\t' {
        Piece::Blank
    } else if is_letter(first) {
        Piece::Lexeme(TokenKind::Word, word_length(rest))
    } else if first.is_ascii_digit() {
        number_piece(rest)
    } else {
        symbol_piece(rest)
    }
}

fn piece_at(line: &[u8], place: usize) -> Piece
    requires { place ≤ length line.now }
    ensures tokens { tokens_at line.now place ≡ tokens_behind line.now place result }
    ensures fits { BeginsWith (drop place line.now) result }
{
    piece_of(&line[place..])
}

// Puts the tokens of a line that is not too long into an empty list.
fn put_tokens(found: &mut Vec<Token>, line: &[u8]) -> Result<(), TextFault>
    requires { found.old.items ≡ [] }
    ensures ok { OnOk result (all_tokens line.now ≡ lexed found.new.items) }
    ensures fault { IfErr result (λ fault. Tells fault (all_tokens line.now)) }
{
    let mut place = 0;
    while place < line.len() {
        match piece_at(line, place) {
            Piece::End => return Ok(()),
            Piece::Blank => place += 1,
            Piece::Lexeme(kind, length) => {
                let end = place + length;
                found.push(Token {
                    kind,
                    start: place,
                    end,
                })?;
                place = end;
            }
            Piece::Fault(offset) => return Err(TextFault::BadByte(place + offset)),
        }
    }
    Ok(())
}

/// Puts the tokens of a line in place of those of another, whose room they take. After a fault some of them may stand
/// there.
pub fn put_line(found: &mut Vec<Token>, line: &[u8]) -> Result<(), TextFault>
    ensures ok { OnOk result (line_tokens line.now ≡ lexed found.new.items) }
    ensures fault { IfErr result (λ fault. Tells fault (line_tokens line.now)) }
    ensures each { OnOk result (All (IsTokenOf line.now) found.new.items) }
    ensures in_order { OnOk result (IsTrue (follow_on 0 found.new.items)) }
{
    if line.len() > LINE_BYTES {
        return Err(TextFault::LongLine);
    }
    found.clear();
    put_tokens(found, line)
}

/// The tokens of a line, in order, each a part of it. The line is given without its end; a carriage
/// return in it is a byte like any other that begins no token.
pub fn tokens(alloc: Global, line: &[u8]) -> Result<Vec<Token>, TextFault>
    ensures ok { IfOk result (λ found. line_tokens line.now ≡ lexed found.items) }

    // A line too long is told before anything else; else the first byte not allowed is.
    ensures fault { IfErr result (λ fault. Tells fault (line_tokens line.now)) }

    ensures each { IfOk result (λ found. All (IsTokenOf line.now) found.items) }
    ensures in_order { IfOk result (λ found. IsTrue (follow_on 0 found.items)) }
{
    let mut found = Vec::new(alloc);
    put_line(&mut found, line)?;
    Ok(found)
}
