//! The lowest layer of reading: a text is cut into lines, and a line into tokens.
//!
//! - `lines`: where the first line of a text ends.
//! - `lexer`: the tokens of one line, or the first byte that is not allowed.
//! - `token_line`: a line with its tokens, looked at by their places.
//! - `numbers`: the value of a token of digits.
//! - `laws`: what holds of lines and tokens whatever the text, and worked examples.
#![tactic(auto)]

pub mod laws;
pub mod lexer;
pub mod lines;
pub mod numbers;
pub mod token_line;

pub use lexer::{TextFault, Token, TokenKind, put_line, tokens};
pub use lines::{Line, first_line, last_line, next_line};
pub use numbers::number;
pub use token_line::TokenLine;
