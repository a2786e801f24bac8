//! The language of formulas: a formula as it is written, with the names of its variables and values.
//!
//! | part | items |
//! |---|---|
//! | names | `Path`, `Word`, `Scope` |
//! | a formula with names as written | `Phrase`, `PhraseNode` |
//! | reading it, exactly by the grammar | `read_phrase`, `read_shallow_phrase`, `PhraseFault` |
//! | its canonical text | `print_phrase`, `write_phrase`, `LineWriter` |
//! | what its names stand for | `resolve`, `ResolveFault` |
//! | what holds of every text | `laws` |
//! | the tree that tokens have, as a function | `descent` |
//!
//! The grammar stands in `specs/Grammar.antt`, the function in `specs/Descent.antt`.
#![tactic(auto)]

mod atom;
mod connective;
mod cursor;
pub mod descent;
pub mod fault;
pub mod laws;
mod parser;
pub mod path;
pub mod phrase;
mod printer;
pub mod reader;
pub mod resolver;
pub mod scope;
pub mod writer;

pub use descent::{examples, phrase_of_is_formula};
pub use fault::PhraseFault;
pub use path::{Path, Word};
pub use phrase::{Phrase, PhraseNode};
pub use printer::{print_phrase, write_phrase};
pub use reader::{is_too_deep, read_phrase, read_shallow_phrase};
pub use resolver::{ResolveFault, resolve};
pub use scope::Scope;
pub use writer::LineWriter;
