//! A query: the search for the first command set that tests an observable, which can be gone on with.
#![tactic(auto)]

ghost use Rattle.std.specs.Prelude.{◌≡◌, ◌+◌, ◌<◌, ◌≤◌, ◌^◌, [], true, slice_index_or, IfOk, None};
ghost use Rattle.lv_model.specs.Lists.{sizes, variable_count};
ghost use Rattle.lv_system.specs.System.{IsSystemOf};
ghost use Rattle.lv_search.specs.Standing.{trials_of, all_suit};
ghost use Rattle.lv_meaning.specs.Commands.{command_sets};
ghost use Rattle.lv_meaning.specs.Ranges.{AimFits};
ghost use Rattle.lv_reconf.specs.Judging.{candidate_commands};
ghost use Rattle.lv_reconf.specs.Testing.{IsTestQuery};
ghost use Rattle.lv_reconf.specs.Tests.{test_walk};

use super::query::search_of;
use super::setting::Setting;
use super::testing::TestTrial;
use lv_base::VarId;
use lv_guide::Guide;
use lv_meaning::Aim;
use lv_model::Model;
use lv_search::{Outcome, Search};
use lv_system::StepSystem;
use std::alloc::{AllocError, Global};
use std::marker;

/// A search for the first command set that tests a variable. Contracts see the plant, the aim, the variable, and where the
/// search stands.
#[derive(Drop)]
pub struct TestQuery<'a> {
    alloc: Global,
    setting: Setting<'a>,
    search: Search<Guide>,
    var: VarId,
    size: u32,
}

impl<'a> marker::Model for TestQuery<'a> {
    ghost use Rattle.std.specs.Coded.{codes};
    ghost use Rattle.lv_base.specs.contracts.formula.Condition as condition;
    ghost use Rattle.lv_reconf.specs.Testing.{TestValue, IsTesting};

    ghost Value = { TestValue };

    ghost coded = { Prim.hlevel (codes, condition.the_row.coded) };

    ghost view = { λ q. record { plant = q.setting.plant; aim = q.setting.aim; var = q.var; standing = q.search.standing } };

    ghost invariant = { λ q. IsTesting q.setting.plant q.setting.aim q.var q.size };
}

/// How many values a variable has.
fn size_of(alloc: Global, model: &Model, var: VarId) -> Result<u32, AllocError>
    requires { var.0 < variable_count model.now }
    ensures { IfOk result (λ n. n ≡ slice_index_or (sizes model.now) var.0 0) }
{
    let sizes = model.sizes(alloc)?;
    Ok(sizes[var.0 as usize] as u32)
}

/// A query that has tried nothing, for the first command set that tests the variable: the cheapest, and of those that cost
/// the same the one whose values come first. Nothing is asked of goals.
pub fn find_test<'a>(
    alloc: Global,
    model: &'a Model,
    system: &StepSystem,
    aim: Aim,
    var: VarId,
) -> Result<TestQuery<'a>, AllocError>
    requires system { IsSystemOf model.now system.now }
    requires fits { AimFits model.now aim }
    requires none { aim.goals ≡ [] }
    requires there { var.0 < variable_count model.now }
    ensures start { IfOk result (λ query. query ≡ record { plant = model.now; aim = aim; var = var; standing = record { k = 1; groups = None; listed = []; kept = []; left = command_sets model.now } }) }
    ensures query { IfOk result (λ query. IsTestQuery query) }
{
    let size = size_of(alloc, model, var)?;
    let search = search_of(alloc, model)?;
    let setting = Setting::new(alloc, model, system, aim)?;
    Ok(TestQuery {
        alloc,
        setting,
        search,
        var,
        size,
    })
}

impl<'a> TestQuery<'a> {
    /// Goes on with `more` trials at most. A query on the walk of a test is then at that walk's end for the sum of all trials
    /// given so far, and can go on. After want of memory it is only dropped.
    pub fn run(&mut self, more: u64) -> Result<Outcome, AllocError>
        requires number { trials_of self.old.standing + more < 2 ^ 64 }
        requires suit { all_suit (candidate_commands self.old.plant) self.old.standing ≡ true }
        ensures walk { IsTestQuery self.old →
            IfOk result (λ outcome. test_walk self.old.plant self.old.aim self.old.var (trials_of self.old.standing + more) ≡ record { outcome = outcome; listed = self.new.standing.listed; kept = self.new.standing.kept }) }
        ensures query { IsTestQuery self.old → IfOk result (λ _. IsTestQuery self.new) }
        ensures suit { IfOk result (λ _. all_suit (candidate_commands self.new.plant) self.new.standing ≡ true) }
        ensures few { IfOk result (λ _. trials_of self.new.standing ≤ trials_of self.old.standing + more) }
        ensures plant { self.new.plant ≡ self.old.plant }
        ensures aim { self.new.aim ≡ self.old.aim }
        ensures var { self.new.var ≡ self.old.var }
        ensures k { IfOk result (λ _. self.new.standing.k ≡ self.old.standing.k) }
    {
        let mut trial = TestTrial::new(self.alloc, &self.setting, self.var, self.size)?;
        self.search.run(&mut trial, more)
    }

    /// The search, which tells what is listed and kept, and how many command sets were tried. Takes no memory.
    pub fn search(&self) -> &Search<Guide>
        ensures { result.now.standing ≡ self.now.standing }
    {
        &self.search
    }
}
