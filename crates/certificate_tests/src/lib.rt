//! Tests of certificates: those that were written elsewhere, read and written again; texts that are out of form, with the
//! line that an independent program tells; splits that close zones, worked out by hand.
#![tactic(auto)]

#[cfg(test)]
mod closing;
#[cfg(test)]
mod reading;
#[cfg(test)]
mod texts;
