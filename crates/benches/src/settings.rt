//! What a bench tells of a word that is to say a setting.
#![tactic(auto)]

use std::fmt::Display;
use std::io;

/// What is told of a word that says none.
pub const NO_SETTING: &str = "no setting";

/// Prints what a setting came to, behind its word.
pub fn tell<T: Display + Drop>(
    rt: &impl Print,
    setting: &str,
    outcome: Option<T>,
) -> io::Result<()> {
    match outcome {
        Some(outcome) => println!(rt; "{setting}: {outcome}"),
        None => println!(rt; "{setting}: {NO_SETTING}"),
    }
}
