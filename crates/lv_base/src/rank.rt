//! The order in which candidates rank: by cost, then the place of the tracked state, then the choices compared slot
//! by slot. It is total: of two ranks that aren't equal exactly one comes before the other.
#![tactic(auto)]

ghost use Rattle.std.specs.Prelude.{◌≡◌, ◌==◌, IfOk};
ghost use Rattle.std.proofs.Common.{rules};
ghost use Rattle.std.specs.Cmp.{partial_order_from_own_ties};
ghost use Rattle.std.specs.Cmp.Rules.{comparing};
ghost use Rattle.std.specs.Cmp.Lexicographic.{slice_cmp, pointwise};
ghost use Rattle.std.specs.Ordering.{nat_cmp, on, as_partial_cmp};
ghost use Rattle.lv_base.specs.Rank.{rank_key, rank_cmp, ranks_before, RankIsTotalOrder};

use super::ids::Cost;
use super::seq::Seq;
use std::alloc::{AllocError, Global};
use std::cmp::Ordering;

/// What a candidate is ranked by. Lists of choices are of one length wherever ranks of one search are compared; of two
/// lists of which one begins the other the shorter comes first.
#[derive(Debug, Drop)]
pub struct Rank {
    pub cost: Cost,
    pub source: u32,
    pub choices: Seq<u32>,
}

impl Rank {
    /// Whether this rank comes strictly before the other one. Takes no memory.
    pub fn before(&self, other: &Rank) -> bool
        ensures { result ≡ ranks_before self.now other.now }
    {
        self.cmp(other).is_lt()
    }

    /// The same rank in memory of its own.
    pub fn copied(&self, alloc: Global) -> Result<Rank, AllocError>
        ensures { IfOk result (λ copy. copy ≡ self.now) }
    {
        Ok(Rank {
            cost: self.cost,
            source: self.source,
            choices: Seq::from_slice(alloc, self.choices.as_slice())?,
        })
    }
}

/// The law of ranks: no rank comes before itself, what comes before what comes before a third comes before the third,
/// and two ranks of which neither comes before the other are equal. The order in which sorted sets of ranks keep them is
/// this one.
pub fn rank_is_total_order()
    ensures { RankIsTotalOrder }
{}

impl PartialEq for Rank {
    ghost eq = { on rank_key (pointwise ◌==◌) };

    ghost laws = { Prim.search (comparing, rules) };

    fn eq(&self, other: &Rank) -> bool {
        self.cost.0 == other.cost.0
            && self.source == other.source
            && self.choices.as_slice() == other.choices.as_slice()
    }
}

impl Eq for Rank {
    ghost laws = { Prim.search (comparing, rules) };
}

impl Ord for Rank {
    ghost cmp = { rank_cmp };

    ghost total = { Prim.search (comparing, rules) };

    ghost matches_partial_cmp = { Prim.search (comparing, rules) };

    ghost matches_eq = { Prim.search (comparing, rules) };

    fn cmp(&self, other: &Rank) -> Ordering {
        self.cost
            .0
            .cmp(&other.cost.0)
            .then(self.source.cmp(&other.source))
            .then(self.choices.as_slice().cmp(other.choices.as_slice()))
    }
}

impl PartialOrd for Rank {
    ghost partial_cmp = { as_partial_cmp rank_cmp };

    ghost laws = { partial_order_from_own_ties (Prim.search (comparing, rules)) (Prim.search (comparing, rules)) };

    fn partial_cmp(&self, other: &Rank) -> Option<Ordering> {
        Some(self.cmp(other))
    }
}
