//! The tokens of a line that are still to be read.
#![tactic(auto)]

ghost use Rattle.std.specs.Prelude.{◌≡◌, ◌≤◌};
ghost use Rattle.std.specs.Option.{option_copied};
ghost use Rattle.lv_formula_text.specs.Cursors.{Takes, TakesWord, TakesName};

use lv_text::{TokenKind, TokenLine};
use std::marker::Model;

/// A place in a line of tokens, seen by clauses as the tokens from there on.
#[derive(Debug, Drop)]
pub(crate) struct Cursor<'a> {
    line: &'a TokenLine<'a>,
    place: usize,
    end: usize,
}

impl<'a> Model for Cursor<'a> {
    ghost use Rattle.std.specs.Prelude.{◌≡◌, List, drop, length};
    ghost use Rattle.lv_text.specs.Lexemes.{Lexeme};

    ghost Value = { List Lexeme };

    ghost view = { λ c. drop c.place c.line.now };

    ghost invariant = { λ c. c.end ≡ length c.line.now };
}

impl<'a> Cursor<'a> {
    ghost use Rattle.std.specs.Prelude.{length, drop, nat_eq};
    ghost use Rattle.lv_formula_text.specs.Connectives.{first_kind, binding};

    pub fn new(line: &'a TokenLine<'a>, place: usize) -> Cursor<'a>
        ensures { result ≡ drop place line.now }
    {
        Cursor {
            line,
            place,
            end: line.len(),
        }
    }

    /// Whether all tokens are read.
    pub fn is_at_end(&self) -> bool
        ensures { result ≡ nat_eq (length self.now) 0 }
    {
        self.end <= self.place
    }

    /// How many tokens are still to be read.
    pub fn len(&self) -> usize
        ensures { result ≡ length self.now }
    {
        self.end.saturating_sub(self.place)
    }

    /// The kind of the next token.
    pub fn kind(&self) -> Option<TokenKind>
        ensures { result ≡ first_kind self.now }
    {
        self.line.kind(self.place)
    }

    /// How tightly the next token binds what stands before it: by the level of a connective, or not at all.
    pub fn binding(&self) -> u32
        ensures { result ≡ binding self.now }
    {
        match self.kind() {
            Some(TokenKind::Iff) => 1,
            Some(TokenKind::Implies) => 2,
            Some(TokenKind::Or) => 3,
            Some(TokenKind::And) => 4,
            _ => 0,
        }
    }

    /// Goes past the next token, if it is of this kind.
    pub fn takes(&mut self, kind: TokenKind) -> bool
        ensures told { Takes kind self.old result self.new }
        ensures left { length self.new ≤ length self.old }
    {
        if self.kind() == Some(kind) {
            self.place += 1;
            true
        } else {
            false
        }
    }

    /// Goes past the next token, if it is a word.
    pub fn word(&mut self) -> Option<&'a [u8]>
        ensures told { TakesWord self.old (option_copied result) self.new }
        ensures left { length self.new ≤ length self.old }
    {
        let word = self.line.word(self.place)?;
        self.place += 1;
        Some(word)
    }

    /// Goes past the next token, if it is this word.
    pub fn takes_word(&mut self, text: &[u8]) -> bool
        ensures told { TakesName text.now self.old result self.new }
        ensures left { length self.new ≤ length self.old }
    {
        let Some(word) = self.line.word(self.place) else {
            return false;
        };
        if word == text {
            self.place += 1;
            true
        } else {
            false
        }
    }
}
