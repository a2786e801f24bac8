//! The statements of a model's text, each with the number of its line, or the first fault of reading; and the canonical
//! text of statements.
//!
//! A line says nothing, or one statement, or is refused. Of the lines above, that depends on the version alone, which the
//! first statement of a text may say: names stay as they are written, and what they stand for, and whether a statement may
//! follow those before it, is for the layer above.
//!
//! | part | items |
//! |---|---|
//! | a text | `read_each`, `TakesStatements`; `read_model`, `ModelText`, `NumberedStatement` |
//! | one statement | `Statement` |
//! | the versions of the language | `Version` |
//! | why not | `ModelFault`, `ModelCode` |
//! | what holds of every text | `laws` |
//! | a model's canonical text | `Canonical` |
//! | that of one statement | `write_statement` |
//! | what holds of every canonical text | `print_laws` |
//!
//! Which tokens are which statement stands in `specs/Statements.antt`, by cases on the statement. A canonical text has
//! `version 2` first and `model NAME` second, one statement a line, one space between neighbours that are words or numbers and nowhere else, no
//! comments, and in formulas no parentheses but those that are needed.
#![tactic(auto)]

pub mod canonical_statement;
pub mod canonical_text;
pub mod code;
pub mod fault;
mod forms;
pub mod keyword;
pub mod laws;
pub mod print_laws;
pub mod reader;
pub mod statement;
pub mod version;
pub mod words;

pub use canonical_statement::write_statement;
pub use canonical_text::Canonical;
pub use code::ModelCode;
pub use fault::ModelFault;
pub use reader::{TakesStatements, read_each, read_model};
pub use statement::{ModelText, NumberedStatement, Repair, Statement};
pub use version::Version;
