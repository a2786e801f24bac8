//! The search: the candidates left, what is listed and kept so far, and runs that go on where the last one stopped.
#![tactic(auto)]

ghost use Rattle.std.specs.Prelude.{◌≡◌, ◌+◌, ◌<◌, ◌≤◌, ◌^◌, [], true, List, IfOk, Some, None};
ghost use Rattle.lv_base.specs.declared.rank.Rank.{Rank};
ghost use Rattle.lv_boxes.specs.declared.outcome.Outcome.TheVariants.{Settled};
ghost use Rattle.lv_boxes.specs.Walk.{distinct_walk, suit_all};
ghost use Rattle.lv_boxes.specs.Groups.{alike_by};
ghost use Rattle.lv_search.specs.Standing.{trials_of, all_suit, first_fitting, IsUnderWay};

use super::frontier::Frontier;
use super::trial::Trial;
use super::turn::{Held, take_turns};
use lv_base::{Conflict, Rank, Seq};
use lv_boxes::conflicts::Store;
use lv_boxes::{Groups, Outcome};
use std::alloc::{AllocError, Global};
use std::marker::Model;

/// A search for the first `k` candidates that fit. Contracts see where it stands: how many it is to list, what is listed
/// and kept, and the candidates left in the order of their ranks; and the frontier that these are left in.
#[derive(Drop)]
pub struct Search<F: Frontier + Drop> {
    alloc: Global,
    held: Held,
    frontier: F,
}

impl<F: Frontier + Drop> Model for Search<F> {
    ghost use Rattle.lv_search.specs.Search.{SearchValue};
    ghost use Rattle.lv_search.specs.Turn.{standing};

    ghost Value = { SearchValue F };

    ghost view = { λ s. record { standing = standing (F.left s.frontier) s.held; frontier = s.frontier } };
}

impl<F: Frontier + Drop> Search<F> {
    /// A search that has tried nothing, for the candidates left in the frontier.
    pub fn new(alloc: Global, frontier: F, k: u32) -> Result<Search<F>, AllocError>
        ensures { IfOk result (λ search. search ≡ record { standing = record { k = k; groups = None; listed = []; kept = []; left = F.left frontier }; frontier = frontier }) }
    {
        Ok(Search {
            alloc,
            held: Held {
                k,
                groups: None,
                listed: Seq::new(alloc),
                conflicts: Store::new(alloc)?,
            },
            frontier,
        })
    }

    /// As `new`, of a search that lists no two candidates of one target: two have one where their choices are of the same
    /// groups.
    pub fn new_distinct(
        alloc: Global,
        frontier: F,
        k: u32,
        groups: Groups,
    ) -> Result<Search<F>, AllocError>
        ensures { IfOk result (λ search. search ≡ record { standing = record { k = k; groups = Some groups; listed = []; kept = []; left = F.left frontier }; frontier = frontier }) }
    {
        Ok(Search {
            alloc,
            held: Held {
                k,
                listed: Seq::new(alloc),
                conflicts: Store::new(alloc)?,
                groups: Some(groups),
            },
            frontier,
        })
    }

    /// Goes on with `more` trials at most. A search that is on the walk along some entries is then at the walk's end for
    /// the sum of all trials given so far. After want of memory it is only dropped.
    pub fn run<T: Trial>(&mut self, trial: &mut T, more: u64) -> Result<Outcome, AllocError>
        requires number { trials_of self.old.standing + more < 2 ^ 64 }
        requires suit { all_suit (T.suits trial.old) self.old.standing ≡ true }

        // It comes to what the walk comes to, and where that is settled lists the first that fit, with groups of each target.
        ensures walk { (entries : List Rank) → IsUnderWay (T.suits trial.old) (T.fits trial.old) (T.reason trial.old) entries self.old.standing →
            IfOk result (λ outcome. distinct_walk (alike_by self.old.standing.groups) (T.fits trial.old) (T.reason trial.old) self.old.standing.k (trials_of self.old.standing + more) entries ≡ record { outcome = outcome; listed = self.new.standing.listed; kept = self.new.standing.kept }) }
        ensures first { (entries : List Rank) → IsUnderWay (T.suits trial.old) (T.fits trial.old) (T.reason trial.old) entries self.old.standing → suit_all (T.suits trial.old) entries ≡ true →
            IfOk result (λ outcome. outcome ≡ Settled → self.new.standing.listed ≡ first_fitting self.old.standing.groups self.old.standing.k (T.fits trial.old) entries) }

        // No more trials are made than were given.
        ensures few { IfOk result (λ _. trials_of self.new.standing ≤ trials_of self.old.standing + more) }

        // It can go on: it is on the same walk, under the same meanings.
        ensures under_way { (entries : List Rank) → IsUnderWay (T.suits trial.old) (T.fits trial.old) (T.reason trial.old) entries self.old.standing →
            IfOk result (λ _. IsUnderWay (T.suits trial.old) (T.fits trial.old) (T.reason trial.old) entries self.new.standing) }
        ensures suit { IfOk result (λ _. all_suit (T.suits trial.old) self.new.standing ≡ true) }
        ensures k { IfOk result (λ _. self.new.standing.k ≡ self.old.standing.k) }
        ensures groups { IfOk result (λ _. self.new.standing.groups ≡ self.old.standing.groups) }
        ensures same { trial.new ≡ trial.old }
    {
        let budget = self.held.trials() + more;
        take_turns(
            self.alloc,
            &mut self.frontier,
            trial,
            &mut self.held,
            budget,
        )
    }

    /// The candidates listed, in the order of their ranks. Takes no memory.
    pub fn listed(&self) -> &[Rank]
        ensures { result.now ≡ self.now.standing.listed }
    {
        self.held.listed.as_slice()
    }

    /// The conflicts kept, in the order in which they were found. Takes no memory.
    pub fn conflicts(&self) -> &[Conflict]
        ensures { result.now ≡ self.now.standing.kept }
    {
        self.held.conflicts.as_slice()
    }

    /// How many candidates were tried. Takes no memory.
    pub fn trials(&self) -> u64
        ensures { result ≡ trials_of self.now.standing }
    {
        self.held.trials()
    }
}
