//! A query: the search for the first command set that recovers, which can be gone on with.
#![tactic(auto)]

ghost use Rattle.std.specs.Prelude.{◌≡◌, ◌+◌, ◌<◌, ◌≤◌, ◌^◌, [], true, IfOk, None};
ghost use Rattle.lv_system.specs.System.{IsSystemOf};
ghost use Rattle.lv_search.specs.Standing.{trials_of, all_suit};
ghost use Rattle.lv_meaning.specs.Commands.{command_sets};
ghost use Rattle.lv_meaning.specs.Ranges.{AimFits};
ghost use Rattle.lv_meaning.specs.Recovery.{recovery_walk};
ghost use Rattle.lv_reconf.specs.Judging.{candidate_commands};
ghost use Rattle.lv_reconf.specs.Query.{IsQuery};

use super::setting::Setting;
use super::trial::ReconfTrial;
use lv_guide::Guide;
use lv_meaning::Aim;
use lv_model::Model;
use lv_search::{Outcome, Search};
use lv_search_zones::{command_grid, command_zone};
use lv_system::StepSystem;
use std::alloc::{AllocError, Global};
use std::marker;

/// A search for the first command set that recovers. Contracts see the plant, the aim, and where the search stands.
#[derive(Drop)]
pub struct Query<'a> {
    alloc: Global,
    setting: Setting<'a>,
    search: Search<Guide>,
}

impl<'a> marker::Model for Query<'a> {
    ghost use Rattle.std.specs.Coded.{codes};
    ghost use Rattle.lv_base.specs.contracts.formula.Condition as condition;
    ghost use Rattle.lv_reconf.specs.Query.{QueryValue};

    ghost Value = { QueryValue };

    ghost coded = { Prim.hlevel (codes, condition.the_row.coded) };

    ghost view = { λ q. record { plant = q.setting.plant; aim = q.setting.aim; standing = q.search.standing } };
}

/// A search for the first of the command sets of a model, which has tried none.
pub(crate) fn search_of(alloc: Global, model: &Model) -> Result<Search<Guide>, AllocError>
    ensures { IfOk result (λ s. s.standing ≡ record { k = 1; groups = None; listed = []; kept = []; left = command_sets model.now }) }
{
    let _plant = model.plant();
    let grid = command_grid(alloc, model)?;
    let mut zones = Vec::new(alloc);
    zones.push(command_zone(alloc, model)?)?;
    let left = Guide::new(alloc, grid, zones)?;
    Search::new(alloc, left, 1)
}

/// A query that has tried nothing, for the first command set that recovers: the cheapest, and of those that cost the same
/// the one whose values come first. It keeps the model by reference, and of the system a copy of what it needs.
pub fn recover<'a>(
    alloc: Global,
    model: &'a Model,
    system: &StepSystem,
    aim: Aim,
) -> Result<Query<'a>, AllocError>
    requires system { IsSystemOf model.now system.now }
    requires fits { AimFits model.now aim }
    ensures start { IfOk result (λ query. query ≡ record { plant = model.now; aim = aim; standing = record { k = 1; groups = None; listed = []; kept = []; left = command_sets model.now } }) }
    ensures query { IfOk result (λ query. IsQuery query) }
{
    let search = search_of(alloc, model)?;
    let setting = Setting::new(alloc, model, system, aim)?;
    Ok(Query {
        alloc,
        setting,
        search,
    })
}

impl<'a> Query<'a> {
    /// Goes on with `more` trials at most. A query on the walk of a recovery is then at that walk's end for the sum of all
    /// trials given so far, and can go on. After want of memory it is only dropped.
    pub fn run(&mut self, more: u64) -> Result<Outcome, AllocError>
        requires number { trials_of self.old.standing + more < 2 ^ 64 }
        requires suit { all_suit (candidate_commands self.old.plant) self.old.standing ≡ true }
        ensures walk { IsQuery self.old →
            IfOk result (λ outcome. recovery_walk self.old.plant self.old.aim (trials_of self.old.standing + more) ≡ record { outcome = outcome; listed = self.new.standing.listed; kept = self.new.standing.kept }) }
        ensures query { IsQuery self.old → IfOk result (λ _. IsQuery self.new) }
        ensures suit { IfOk result (λ _. all_suit (candidate_commands self.new.plant) self.new.standing ≡ true) }
        ensures few { IfOk result (λ _. trials_of self.new.standing ≤ trials_of self.old.standing + more) }
        ensures plant { self.new.plant ≡ self.old.plant }
        ensures aim { self.new.aim ≡ self.old.aim }
        ensures k { IfOk result (λ _. self.new.standing.k ≡ self.old.standing.k) }
    {
        let mut trial = ReconfTrial::new(self.alloc, &self.setting)?;
        self.search.run(&mut trial, more)
    }

    /// The search, which tells what is listed and kept, and how many command sets were tried. Takes no memory.
    pub fn search(&self) -> &Search<Guide>
        ensures { result.now.standing ≡ self.now.standing }
    {
        &self.search
    }
}
