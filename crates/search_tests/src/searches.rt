//! With ample memory each call answers. A test's search has one owner, whose steps take it by reference; what it has come
//! to is written down as a plain value, and the test looks at that alone.

ghost use Rattle.std.specs.Prelude.{◌≡◌, ◌+◌, ◌≤◌, ◌<◌, ◌^◌, true, length, IfOk};
ghost use Rattle.lv_boxes.specs.RankedMembers.{sources_differ};
ghost use Rattle.lv_search.specs.Standing.{trials_of};

use crate::avoids::Avoids;
use lv_base::{Cost, Pair, Rank};
use lv_boxes::{Grid, Groups, Zone};
use lv_guide::Guide;
use lv_search::{Outcome, Search};
use std::alloc::{AllocError, Global};
use std::test::Fail;

/// Two slots: three choices that cost 0, 1 and 1, and two that cost 0 and 2.
fn small_grid(alloc: Global) -> Result<Grid, AllocError>
    ensures { IfOk result (λ grid. length grid ≡ 2) }
{
    let mut grid = Grid::new(alloc)?;
    grid.push_slot(&[Cost(0), Cost(1), Cost(1)])?;
    grid.push_slot(&[Cost(0), Cost(2)])?;
    Ok(grid)
}

/// All candidates of one tracked state that costs 10, of which three are to be listed.
fn small_search(alloc: Global) -> Result<Search<Guide>, AllocError>
    ensures { IfOk result (λ search. trials_of search.standing ≡ 0) }
{
    let grid = small_grid(alloc)?;
    let zone = Zone::new(alloc, 0, Cost(10), &[0b111, 0b11])?;
    let mut zones = Vec::new(alloc);
    zones.push(zone)?;
    Search::new(alloc, Guide::new(alloc, grid, zones)?, 3)
}

/// Groups of these choices: at the first slot two choices of one group and one of another, at the second all of one.
fn small_groups(alloc: Global) -> Result<Groups, AllocError>
    ensures { IfOk result (λ groups. length groups ≡ 2) }
{
    let mut groups = Groups::new(alloc)?;
    groups.push_slot(&[5, 5, 7])?;
    groups.push_slot(&[0, 0])?;
    Ok(groups)
}

/// The zones of two tracked states that cost 10, with all choices.
fn two_zones(alloc: Global) -> Result<Vec<Zone>, AllocError>
    ensures { IfOk result (λ zones. sources_differ zones.items ≡ true) }
{
    let mut zones = Vec::new(alloc);
    zones.push(Zone::new(alloc, 0, Cost(10), &[0b111, 0b11])?)?;
    zones.push(Zone::new(alloc, 1, Cost(10), &[0b111, 0b11])?)?;
    Ok(zones)
}

/// All candidates of two tracked states that cost 10, of which three of different targets are to be listed.
fn distinct_search(alloc: Global) -> Result<Search<Guide>, AllocError>
    ensures { IfOk result (λ search. trials_of search.standing ≡ 0) }
{
    let groups = small_groups(alloc)?;
    let grid = small_grid(alloc)?;
    let zones = two_zones(alloc)?;
    Search::new_distinct(alloc, Guide::new(alloc, grid, zones)?, 3, groups)
}

/// Goes on with a trial that every candidate suits.
fn go_on(search: &mut Search<Guide>, trial: &mut Avoids, more: u64) -> Result<Outcome, AllocError>
    requires { trials_of search.old.standing + more < 2 ^ 64 }
    ensures { IfOk result (λ _. trials_of search.new.standing ≤ trials_of search.old.standing + more) }
{
    search.run(trial, more)
}

/// What a run of a search has come to. Each row ends with the first place that is to be empty.
#[derive(Clone, Copy)]
struct Reached {
    outcome: Outcome,
    trials: u64,
    listed: usize,
    conflicts: usize,
    /// Of each listed candidate its cost, and the tracked state that it is of.
    costs_and_sources: [Option<(Cost, u32)>; 4],
}

/// The cost and the source of the rank at this place.
fn cost_and_source_at(ranks: &[Rank], place: usize) -> Option<(Cost, u32)> {
    let rank = ranks.get(place)?;
    Some((rank.cost, rank.source))
}

/// The costs and the sources of the ranks at the first four places.
fn costs_and_sources(ranks: &[Rank]) -> [Option<(Cost, u32)>; 4] {
    [
        cost_and_source_at(ranks, 0),
        cost_and_source_at(ranks, 1),
        cost_and_source_at(ranks, 2),
        cost_and_source_at(ranks, 3),
    ]
}

fn look_at(search: &Search<Guide>, outcome: Outcome) -> Reached {
    Reached {
        outcome,
        trials: search.trials(),
        listed: search.listed().len(),
        conflicts: search.conflicts().len(),
        costs_and_sources: costs_and_sources(search.listed()),
    }
}

/// What the search has come to after a trial at most, and after five more at most.
#[derive(Clone, Copy)]
struct TwoRuns {
    first: Reached,
    second: Reached,
}

fn run_twice(search: &mut Search<Guide>, trial: &mut Avoids) -> Result<TwoRuns, AllocError>
    requires { trials_of search.old.standing ≡ 0 }
{
    let outcome = go_on(search, trial, 1)?;
    let first = look_at(search, outcome);
    let outcome = go_on(search, trial, 5)?;
    let second = look_at(search, outcome);
    Ok(TwoRuns { first, second })
}

fn small_search_run_twice(alloc: Global, pair: Pair) -> Result<TwoRuns, AllocError> {
    let mut search = small_search(alloc)?;
    run_twice(&mut search, &mut Avoids { alloc, pair })
}

fn run_once(
    search: &mut Search<Guide>,
    trial: &mut Avoids,
    most: u64,
) -> Result<Reached, AllocError>
    requires { trials_of search.old.standing + most < 2 ^ 64 }
{
    let outcome = go_on(search, trial, most)?;
    Ok(look_at(search, outcome))
}

fn distinct_search_run(alloc: Global, pair: Pair) -> Result<Reached, AllocError> {
    let mut search = distinct_search(alloc)?;
    run_once(&mut search, &mut Avoids { alloc, pair }, 2)
}

#[test]
fn first_three_without_a_choice(rt: HostRuntime) -> Result<(), Fail> {
    let runs = small_search_run_twice(rt.alloc(), Pair { slot: 0, choice: 1 })?;

    // The candidates in order are 00, 10, 20 and 01. The first fits, and for the second no trial is left.
    assert!(rt; runs.first.outcome == Outcome::Unsettled);
    assert_eq!(rt; runs.first.trials, 1);
    assert_eq!(rt; runs.first.listed, 1);

    // 10 is refused, 20 and 01 are listed.
    assert!(rt; runs.second.outcome == Outcome::Settled);
    assert_eq!(rt; runs.second.trials, 4);
    assert_eq!(rt; runs.second.conflicts, 1);
    let listed = [
        Some((Cost(10), 0)),
        Some((Cost(11), 0)),
        Some((Cost(12), 0)),
        None,
    ];
    assert!(rt; runs.second.costs_and_sources == listed);
    Ok(())
}

#[test]
fn one_of_each_target(rt: HostRuntime) -> Result<(), Fail> {
    let run = distinct_search_run(rt.alloc(), Pair { slot: 1, choice: 2 })?;

    // There are two targets. 00 and 20 of the first state have them, and all others are passed over without a trial.
    assert!(rt; run.outcome == Outcome::Settled);
    assert_eq!(rt; run.trials, 2);
    assert_eq!(rt; run.conflicts, 0);
    let listed = [Some((Cost(10), 0)), Some((Cost(11), 0)), None, None];
    assert!(rt; run.costs_and_sources == listed);
    Ok(())
}
