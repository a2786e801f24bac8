//! Tests of the program: the words of the process, generated texts, whole calls. The texts of the generator are those that
//! an independent program makes.
#![tactic(auto)]

#[cfg(test)]
mod accepted_words;
#[cfg(test)]
mod calls;
#[cfg(test)]
mod checks;
#[cfg(test)]
mod expected_texts;
#[cfg(test)]
mod failures;
#[cfg(test)]
mod generated;
#[cfg(test)]
mod lanes;
#[cfg(test)]
mod plants;
#[cfg(test)]
mod whole_calls;
