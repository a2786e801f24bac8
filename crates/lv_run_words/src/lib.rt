//! The words that the program is called with, and the command that they give.
//!
//! | file | what it is |
//! |---|---|
//! | `parser` | the command line, as `clap` reads it |
//! | `commands` | the commands, each over the values that were read |
//! | `numbers` | the number of a generated text, as a word |
#![tactic(auto)]

ghost use Rattle.std.specs.Prelude.{◌≡◌, Some, None, map, string_bytes, IfOk};
ghost use Rattle.lv_run_words.specs.Words.{command_of};
ghost use Rattle.lv_run_words.specs.Commands.{said_by};

mod commands;
mod numbers;
mod parser;

use commands::command_of_values;
pub use commands::{Command, Kind, Service};
use parser::read;
use std::alloc::{AllocError, AllocFailed, Global};
use thiserror::Error;

/// Why words give no command.
#[derive(Clone, Copy, Debug, PartialEq, Eq, Error)]
pub enum WordsFault {
    /// They are not those of a command.
    #[error("no such command")]
    Refused,
    /// Memory was wanting. No clause says when.
    #[error("out of memory")]
    Memory,
}

/// The command that the words give, the program's own name first.
pub fn read_words(alloc: Global, words: &[String]) -> Result<Command, WordsFault>
    ensures ok { IfOk result (λ command. command_of (map string_bytes words.now) ≡ Some (said_by command)) }
    ensures refused { result ≡ Err WordsFault.Refused → command_of (map string_bytes words.now) ≡ None }
{
    let matches = read(alloc, words)?;
    let Some((command, values)) = matches.subcommand() else {
        return Err(WordsFault::Refused);
    };
    command_of_values(alloc, command, values)
}

impl From<AllocError> for WordsFault {
    ghost use Rattle.lv_run_words.specs.declared.WordsFault.TheVariants.{Memory};

    ghost from_gives = { λ _ fault. fault ≡ Memory };

    fn from(_failed: AllocError) -> WordsFault {
        WordsFault::Memory
    }
}

impl<T: Drop> From<AllocFailed<T>> for WordsFault {
    ghost use Rattle.lv_run_words.specs.declared.WordsFault.TheVariants.{Memory};

    ghost from_gives = { λ _ fault. fault ≡ Memory };

    fn from(_failed: AllocFailed<T>) -> WordsFault {
        WordsFault::Memory
    }
}
