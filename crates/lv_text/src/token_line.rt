//! A line with its tokens, looked at by their places.
//!
//! Those above read a line as a list of lexemes, each a kind and the bytes of its text. The line's bytes are borrowed
//! and its tokens lie in one list, so that a look takes no memory. The room of that list can go from line to line, as a
//! session may have a million of them.

ghost use Rattle.std.specs.Prelude.{◌≡◌, [], length, nat_eq, IfOk, IfErr};
ghost use Rattle.std.specs.Option.{option_copied};
ghost use Rattle.lv_text.specs.Lexemes.{line_reading, reads, Explains, kind_at, text_at, word_at, number_at, says};

use crate::lexer::{TextFault, Token, TokenKind, put_line, tokens};
use crate::numbers::number;
use lv_base::is_same_text;
use std::alloc::Global;
use std::{marker, mem};

/// The tokens of a line, which is given without its end.
#[derive(Debug, Drop)]
pub struct TokenLine<'a> {
    line: &'a [u8],
    tokens: Vec<Token>,
}

impl<'a> marker::Model for TokenLine<'a> {
    ghost use Rattle.std.specs.Prelude.{List, All};
    ghost use Rattle.lv_text.specs.Kinds.{IsTokenOf};
    ghost use Rattle.lv_text.specs.Lexemes.{Lexeme, lexemes_of};

    ghost Value = { List Lexeme };

    ghost view = { λ s. lexemes_of s.line.now s.tokens.items };

    ghost invariant = { λ s. All (IsTokenOf s.line.now) s.tokens.items };
}

impl<'a> TokenLine<'a> {
    /// Reads a line.
    pub fn read(alloc: Global, line: &'a [u8]) -> Result<TokenLine<'a>, TextFault>
        ensures ok { IfOk result (λ found. line_reading line.now ≡ reads found) }

        // A line too long is told before anything else; else the first byte not allowed is.
        ensures fault { IfErr result (λ fault. Explains fault (line_reading line.now)) }
    {
        let tokens = tokens(alloc, line)?;
        Ok(TokenLine { line, tokens })
    }

    /// Reads a line into the room that the tokens of an earlier one had: memory is taken only where they don't fit in
    /// there. After a fault the room can be used again; else it goes with the line, until `into_room`.
    pub fn read_into(
        alloc: Global,
        room: &mut Vec<Token>,
        line: &'a [u8],
    ) -> Result<TokenLine<'a>, TextFault>
        ensures ok { IfOk result (λ found. line_reading line.now ≡ reads found) }
        ensures fault { IfErr result (λ fault. Explains fault (line_reading line.now)) }
    {
        put_line(room, line)?;
        let tokens = mem::replace(room, Vec::new(alloc));
        Ok(TokenLine { line, tokens })
    }

    /// The room of its tokens, empty.
    pub fn into_room(self) -> Vec<Token>
        ensures { result.items ≡ [] }
    {
        let mut room = self.tokens;
        room.clear();
        room
    }

    /// How many tokens the line has.
    pub fn len(&self) -> usize
        ensures { result ≡ length self.now }
    {
        self.tokens.len()
    }

    pub fn is_empty(&self) -> bool
        ensures { result ≡ nat_eq (length self.now) 0 }
    {
        self.tokens.is_empty()
    }

    /// The kind of the token at this place, counted from 0.
    pub fn kind(&self, place: usize) -> Option<TokenKind>
        ensures { result ≡ kind_at self.now place }
    {
        Some(self.tokens.get(place)?.kind)
    }

    /// The text of the token at this place.
    pub fn text(&self, place: usize) -> Option<&'a [u8]>
        ensures { option_copied result ≡ text_at self.now place }
    {
        let token = self.tokens.get(place)?;
        Some(&self.line[token.start..token.end])
    }

    /// The word at this place, or `None` where no token or one of another kind stands there.
    pub fn word(&self, place: usize) -> Option<&'a [u8]>
        ensures { option_copied result ≡ word_at self.now place }
    {
        match self.kind(place) {
            Some(TokenKind::Word) => self.text(place),
            _ => None,
        }
    }

    /// Whether the word at this place is that one. A number or a symbol is no word.
    pub fn says(&self, place: usize, text: &[u8]) -> bool
        ensures { result ≡ says text.now self.now place }
    {
        match self.word(place) {
            Some(word) => is_same_text(word, text),
            None => false,
        }
    }

    /// The value of the number at this place, if it is below 2^128.
    pub fn number(&self, place: usize) -> Option<u128>
        ensures { result ≡ number_at self.now place }
    {
        match self.kind(place) {
            Some(TokenKind::Number) => number(self.text(place)?),
            _ => None,
        }
    }
}
