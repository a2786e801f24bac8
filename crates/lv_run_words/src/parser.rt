//! The command line, as `clap` reads it: the commands, each over its values.
//!
//! `clap` decides which words are accepted, but for two things: a `-` that stands alone it takes for a value, and a number
//! with a `+` before it for a number. The one is looked for here, the other where the number is read.
#![tactic(auto)]

ghost use Rattle.std.specs.Prelude.{◌≡◌, Some, None, codes, map, string_bytes, IfOk};
ghost use Rattle.clap.specs.Words.{App, app_of, with_subcommand, subcommand_rows_of};
ghost use Rattle.lv_run_words.specs.Words.{command_of};
ghost use Rattle.lv_run_words.specs.Parser.{value_rule, number_parser, over_two, over_one, IsArg, IsKindArg, IsCommand, IsGenerate, IsLivingstone, has_lone_by, IsReadOff};

use crate::WordsFault;
use crate::numbers::LARGEST;
use clap::error::ErrorKind;
use clap::{Arg, ArgMatches, Command as Parser, Error, value_parser};
use std::alloc::{AllocError, Global};

/// The words for the kinds of generated texts.
static KINDS: [&str; 2] = ["model", "session"];

/// A value that has to be there.
fn value<'a>(alloc: Global, id: &'a str) -> Arg<'a>
    ensures { IsArg (value_rule id.now None) result }
{
    Arg::new(alloc, id).required(true)
}

/// The kind of a generated text.
fn kind<'a>(alloc: Global, id: &'a str) -> Arg<'a>
    ensures { IsKindArg id.now result }
{
    value(alloc, id).value_parser(KINDS.as_slice())
}

/// The number of a generated text.
fn number<'a>(alloc: Global, id: &'a str) -> Arg<'a>
    ensures { IsArg (value_rule id.now (Some number_parser)) result }
{
    value(alloc, id).value_parser(value_parser!(u32).range(1..=LARGEST as i64))
}

/// A command over two files.
fn over_files<'a>(alloc: Global, name: &'a str) -> Result<Parser<'a>, AllocError>
    ensures { IfOk result (IsCommand (over_two name.now None None)) }
{
    Parser::new(alloc, name)
        .arg(value(alloc, "first"))?
        .arg(value(alloc, "second"))
}

/// A command over one file.
fn over_file<'a>(alloc: Global, name: &'a str) -> Result<Parser<'a>, AllocError>
    ensures { IfOk result (IsCommand (over_one name.now None)) }
{
    Parser::new(alloc, name).arg(value(alloc, "first"))
}

/// The command `generate` over a kind and a number.
fn generate<'a>(alloc: Global) -> Result<Parser<'a>, AllocError>
    ensures { IfOk result IsGenerate }
{
    Parser::new(alloc, "generate")
        .arg(kind(alloc, "first"))?
        .arg(number(alloc, "second"))
}

/// The command `drive` over a number.
fn drive<'a>(alloc: Global) -> Result<Parser<'a>, AllocError>
    ensures { IfOk result (IsCommand (over_one (codes "drive") (Some number_parser))) }
{
    Parser::new(alloc, "drive").arg(number(alloc, "first"))
}

/// The command line with one more command, where memory sufficed for that.
fn with_command<'a>(
    parser: Parser<'a>,
    command: Result<Parser<'a>, AllocError>,
) -> Result<Parser<'a>, AllocError>
    ensures { (app : App) → IfOk command.entry (IsCommand app) → IfOk result (λ whole. app_of whole ≡ with_subcommand (app_of parser.entry) app.top) }
{
    parser.subcommand(command?)
}

/// The whole command line.
fn parser<'a>(alloc: Global) -> Result<Parser<'a>, AllocError>
    ensures { IfOk result IsLivingstone }
{
    let parser = Parser::new(alloc, "livingstone")
        .disable_help_flag(true)
        .disable_help_subcommand(true)
        .subcommand_required(true);
    let parser = with_command(parser, over_files(alloc, "run"))?;
    let parser = with_command(parser, over_files(alloc, "lanes"))?;
    let parser = with_command(parser, over_files(alloc, "plant"))?;
    let parser = with_command(parser, over_files(alloc, "check"))?;
    let parser = with_command(parser, over_file(alloc, "print"))?;
    let parser = with_command(parser, drive(alloc))?;
    parser.subcommand(generate(alloc)?)
}

/// A `-` stands alone before the first `--`.
fn has_lone_dash(words: &[String]) -> bool
    ensures { result ≡ has_lone_by string_bytes words.now }
{
    for word in words {
        match word.as_str() {
            "-" => return true,
            "--" => return false,
            _ => {}
        }
    }
    false
}

/// The command that the words give, and its values.
pub fn read<'a>(alloc: Global, words: &'a [String]) -> Result<ArgMatches<'a>, WordsFault>
    ensures ok { IfOk result (λ matches. IsReadOff (map string_bytes words.now) (subcommand_rows_of matches)) }
    ensures refused { result ≡ Err WordsFault.Refused → command_of (map string_bytes words.now) ≡ None }
{
    let [_, behind @ ..] = words else {
        return Err(WordsFault::Refused);
    };
    if has_lone_dash(behind) {
        return Err(WordsFault::Refused);
    }
    Ok(parser(alloc)?.try_get_matches_from(words)?)
}

impl From<Error> for WordsFault {
    ghost use Rattle.clap.specs.Words.{kind_of};
    ghost use Rattle.lv_run_words.specs.Parser.{fault_by};

    ghost from_gives = { λ error fault. fault ≡ fault_by (kind_of error) };

    fn from(failed: Error) -> WordsFault {
        match failed.kind() {
            ErrorKind::OutOfMemory => WordsFault::Memory,
            _ => WordsFault::Refused,
        }
    }
}
