//! All that the lines of a certificate came to so far.
#![tactic(auto)]

ghost use Rattle.std.specs.Prelude.{◌≡◌};
ghost use Rattle.std.specs.Option.{option_copied};
ghost use Rattle.lv_cert_laws.specs.lv_cert_meaning.Judging as Judging;
ghost use Rattle.lv_certcheck.specs.Verdicts.{judged_of};

use crate::stated::Stated;
use lv_base::{Conflict, Rank, Seq, ValId};
use lv_cert_meaning::{Block, Space};
use std::marker::Model;

/// A step of a recovery that is to be shown: from the tracked state of this place, with these values of the controls, and
/// whether all goals are to be true behind it.
#[derive(Drop)]
pub struct Aimed {
    pub place: usize,
    pub values: Seq<u32>,
    pub reaches: bool,
}

impl Model for Aimed {
    ghost use Rattle.lv_cert_laws.specs.lv_cert_meaning.Judging.{Aimed};

    ghost Value = { Aimed };

    ghost view = { λ a. record { place = a.place; values = a.values; reaches = a.reaches } };
}

/// What is stated, the zones, the answer, what conflicts and counterexamples exclude, the clauses of the block that is open,
/// the step that is to be shown, and the values before it.
#[derive(Drop)]
pub struct Judged<'a> {
    pub stated: Stated,
    pub space: Space,
    pub listed: Vec<Rank>,
    pub excluded: Vec<Conflict>,
    pub block: Block<'a>,
    pub aimed: Option<Aimed>,
    pub before: Option<Seq<ValId>>,
}

impl<'a> Judged<'a> {
    /// The last of the answer.
    pub fn last(&self) -> Option<&Rank>
        ensures { option_copied result ≡ Judging.last_of self.now.listed.items }
    {
        self.listed.last()
    }

    /// The last of the answer, where it is full.
    pub fn full_to(&self) -> Option<&Rank>
        ensures { option_copied result ≡ Judging.full_to (judged_of self.now) }
    {
        if self.listed.len() == self.stated.k as usize {
            self.last()
        } else {
            None
        }
    }
}
