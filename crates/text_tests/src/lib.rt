//! Tests of the languages: lines, tokens and numbers, formulas, their truth and what their names stand for, statements,
//! canonical texts.
//!
//! What they want comes from the rules of the languages; the canonical texts are those of a program written apart from
//! this one.
#![tactic(auto)]

#[cfg(test)]
mod formula_truth;
#[cfg(test)]
mod formulas;
#[cfg(test)]
mod printing;
#[cfg(test)]
mod resolving;
#[cfg(test)]
mod statements;
#[cfg(test)]
mod tokens;
