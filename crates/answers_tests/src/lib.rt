//! Tests of diagnoses, recoveries and labels. The answers are those of the worked example, or worked out by hand.
#![tactic(auto)]

#[cfg(test)]
mod aims_that_fit;
#[cfg(test)]
mod asked;
#[cfg(test)]
mod diagnoses;
#[cfg(test)]
mod facts_that_fit;
#[cfg(test)]
mod labels;
#[cfg(test)]
mod reasons;
#[cfg(test)]
mod recoveries;
