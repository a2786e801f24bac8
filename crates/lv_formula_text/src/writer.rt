//! The text of a line, written token by token: one space stands between two neighbours that are words or numbers, and
//! nowhere else.
#![tactic(auto)]

ghost use Rattle.std.specs.Prelude.{◌≡◌, [], ◌∷◌, ◌++◌, OnOk, false};
ghost use Rattle.lv_text.specs.declared.lexer.TokenKind.TheVariants.{Word};
ghost use Rattle.lv_formula_text.specs.Spacing.{is_wordlike, symbol_text, symbol, written};

use lv_text::TokenKind;
use std::alloc::{AllocError, Global};
use std::marker::Model;

/// The text of a line so far, and whether it ends in a word or a number.
#[derive(Debug, Drop)]
pub struct LineWriter {
    text: Vec<u8>,
    after_word: bool,
}

impl Model for LineWriter {
    ghost use Rattle.std.specs.Prelude.{ℕ, List, Bool};

    ghost Value = { List ℕ × Bool };

    ghost view = { λ w. (w.text.items, w.after_word) };
}

impl LineWriter {
    /// An empty line.
    pub fn new(alloc: Global) -> LineWriter
        ensures { result ≡ ([], false) }
    {
        LineWriter {
            text: Vec::new(alloc),
            after_word: false,
        }
    }

    /// Writes a token of that kind and text.
    pub fn token(&mut self, kind: TokenKind, text: &[u8]) -> Result<(), AllocError>
        ensures { OnOk result (self.new ≡ written (record { kind = kind; text = text.now } ∷ []) self.old) }
    {
        let is_wordlike = is_wordlike(kind);
        if self.after_word && is_wordlike {
            self.text.push(b' ')?;
        }
        self.text.extend_from_slice(text)?;
        self.after_word = is_wordlike;
        Ok(())
    }

    /// Writes a word.
    pub fn word(&mut self, text: &[u8]) -> Result<(), AllocError>
        ensures { OnOk result (self.new ≡ written (record { kind = Word; text = text.now } ∷ []) self.old) }
    {
        self.token(TokenKind::Word, text)
    }

    /// Writes a symbol.
    pub fn symbol(&mut self, kind: TokenKind) -> Result<(), AllocError>
        ensures { OnOk result (self.new ≡ written (symbol kind ∷ []) self.old) }
    {
        match symbol_text(kind) {
            [byte] => {
                self.text.push(*byte)?;
                self.after_word = false;
                Ok(())
            }
            text => self.token(kind, text),
        }
    }

    /// The text.
    pub fn into_bytes(self) -> Vec<u8>
        ensures { result.items ≡ self.0 }
    {
        self.text
    }

    /// The text so far.
    pub fn text(&self) -> &[u8]
        ensures { result.now ≡ self.now.0 }
    {
        self.text.as_slice()
    }

    /// Begins a line again, in the room of the one before.
    pub fn clear(&mut self)
        ensures { self.new ≡ ([], false) }
    {
        self.text.clear();
        self.after_word = false;
    }
}

fn is_wordlike(kind: TokenKind) -> bool
    ensures { result ≡ is_wordlike kind }
{
    matches!(kind, TokenKind::Word | TokenKind::Number)
}

/// The text of a symbol of that kind; words and numbers have none of their own.
fn symbol_text(kind: TokenKind) -> &'static [u8]
    ensures { result.now ≡ symbol_text kind }
{
    match kind {
        TokenKind::Word | TokenKind::Number => b"",
        TokenKind::Iff => b"<=>",
        TokenKind::Implies => b"=>",
        TokenKind::Arrow => b"->",
        TokenKind::Equals => b"=",
        TokenKind::Not => b"!",
        TokenKind::And => b"&",
        TokenKind::Or => b"|",
        TokenKind::Open => b"(",
        TokenKind::Close => b")",
        TokenKind::Dot => b".",
    }
}
