//! The commands, each over its values.
#![tactic(auto)]

ghost use Rattle.std.specs.Prelude.{◌≡◌, ◌≢◌, Some, None, IfOk};
ghost use Rattle.lv_run_words.specs.Words.{runs, checks, prints, said_of, said_of_two, said_of_one, made_of, driven_of};
ghost use Rattle.lv_run_words.specs.Words as Words;
ghost use Rattle.lv_run_words.specs.Commands.{said_by};
ghost use Rattle.lv_run_words.specs.Parser.{values_in};
ghost use Rattle.clap.specs.Words.{rows_of, found_of};

use crate::WordsFault;
use crate::numbers::number_of;
use clap::ArgMatches;
use std::alloc::Global;

/// What the program is asked to do.
#[derive(Drop, Debug)]
pub enum Command {
    /// A session, sessions in lanes, or a plant's script over a model.
    Run {
        /// What serves the lines.
        service: Service,
        /// The name of the model's file.
        model: String,
        /// The name of the file of lines.
        session: String,
    },
    /// A certificate checked over a model.
    Check {
        /// The name of the model's file.
        model: String,
        /// The name of the certificate's file.
        cert: String,
    },
    /// A model written in its canonical form.
    Print {
        /// The name of the model's file.
        model: String,
    },
    /// The text that a number stands for.
    Generate {
        kind: Kind,
        number: u32,
    },
    /// The session that a number stands for run over the model of the number, and a summary of it.
    Drive {
        number: u32,
    },
}

/// What serves a file of lines over a model.
#[derive(Clone, Copy, Debug, PartialEq, Eq)]
pub enum Service {
    /// One session.
    Single,
    /// Sessions side by side, each in a lane of its own.
    Lanes,
    /// A simulated plant in the loop with a session.
    Simulation,
}

/// Which of the texts that a number stands for.
#[derive(Clone, Copy, Debug, PartialEq, Eq)]
pub enum Kind {
    Model,
    Session,
}

/// The command of this name over the values that were read.
pub fn command_of_values(
    alloc: Global,
    command: &str,
    values: &ArgMatches<'_>,
) -> Result<Command, WordsFault>
    ensures ok { IfOk result (λ given. said_of command.now (values_in (rows_of (found_of values.now))) ≡ Some (said_by given)) }
    ensures refused { result ≡ Err WordsFault.Refused → said_of command.now (values_in (rows_of (found_of values.now))) ≡ None }
{
    match (values.get_str("first"), values.get_str("second")) {
        (Some(first), Some(second)) => command_of_two(alloc, command, first, second),
        (Some(first), None) => command_of_one(alloc, command, first),
        (None, _) => Err(WordsFault::Refused),
    }
}

/// The command of this name over two values.
fn command_of_two(
    alloc: Global,
    command: &str,
    first: &str,
    second: &str,
) -> Result<Command, WordsFault>
    ensures ok { IfOk result (λ given. said_of_two command.now first.now second.now ≡ Some (said_by given)) }
    ensures refused { result ≡ Err WordsFault.Refused → said_of_two command.now first.now second.now ≡ None }
{
    match command {
        "run" => run_command(alloc, Service::Single, first, second),
        "check" => check_command(alloc, first, second),
        "generate" => generate_command(first, second),
        "lanes" => run_command(alloc, Service::Lanes, first, second),
        "plant" => run_command(alloc, Service::Simulation, first, second),
        _ => Err(WordsFault::Refused),
    }
}

/// The command of this name over one value.
fn command_of_one(alloc: Global, command: &str, first: &str) -> Result<Command, WordsFault>
    ensures ok { IfOk result (λ given. said_of_one command.now first.now ≡ Some (said_by given)) }
    ensures refused { result ≡ Err WordsFault.Refused → said_of_one command.now first.now ≡ None }
{
    match command {
        "print" => print_command(alloc, first),
        "drive" => drive_command(first),
        _ => Err(WordsFault::Refused),
    }
}

/// The command `run`, `lanes` or `plant` over two files.
fn run_command(
    alloc: Global,
    service: Service,
    model: &str,
    session: &str,
) -> Result<Command, WordsFault>
    ensures ok { IfOk result (λ given. said_by given ≡ runs service model.now session.now) }
    ensures refused { result ≢ Err WordsFault.Refused }
{
    Ok(Command::Run {
        service,
        model: String::from_str(alloc, model)?,
        session: String::from_str(alloc, session)?,
    })
}

/// The command `check` over two files.
fn check_command(alloc: Global, model: &str, cert: &str) -> Result<Command, WordsFault>
    ensures ok { IfOk result (λ given. said_by given ≡ checks model.now cert.now) }
    ensures refused { result ≢ Err WordsFault.Refused }
{
    Ok(Command::Check {
        model: String::from_str(alloc, model)?,
        cert: String::from_str(alloc, cert)?,
    })
}

/// The command `print` over a file.
fn print_command(alloc: Global, model: &str) -> Result<Command, WordsFault>
    ensures ok { IfOk result (λ given. said_by given ≡ prints model.now) }
    ensures refused { result ≢ Err WordsFault.Refused }
{
    Ok(Command::Print {
        model: String::from_str(alloc, model)?,
    })
}

/// The command `generate` over a kind of text and a number.
fn generate_command(kind: &str, number: &str) -> Result<Command, WordsFault>
    ensures ok { IfOk result (λ given. made_of kind.now number.now ≡ Some (said_by given)) }
    ensures refused { result ≡ Err WordsFault.Refused → made_of kind.now number.now ≡ None }
{
    match (kind_of(kind), number_of(number.as_bytes())) {
        (Some(kind), Some(number)) => Ok(Command::Generate { kind, number }),
        _ => Err(WordsFault::Refused),
    }
}

/// The command `drive` over a number.
fn drive_command(number: &str) -> Result<Command, WordsFault>
    ensures ok { IfOk result (λ given. driven_of number.now ≡ Some (said_by given)) }
    ensures refused { result ≡ Err WordsFault.Refused → driven_of number.now ≡ None }
{
    match number_of(number.as_bytes()) {
        Some(number) => Ok(Command::Drive { number }),
        None => Err(WordsFault::Refused),
    }
}

/// The kind of text that a word names.
fn kind_of(word: &str) -> Option<Kind>
    ensures { result ≡ Words.kind_of word.now }
{
    match word {
        "model" => Some(Kind::Model),
        "session" => Some(Kind::Session),
        _ => None,
    }
}
