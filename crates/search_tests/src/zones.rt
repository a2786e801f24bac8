//! With ample memory each call answers. What the zones hold is worked out by hand, and what is found of them is written
//! down as a plain value, which the tests look at alone.

ghost use Rattle.std.specs.Prelude.{◌≡◌, length, IfOk};

use lv_base::Cost;
use lv_boxes::{Grid, Zone, choices_as_conflict, split};
use std::alloc::{AllocError, Global};
use std::test::Fail;

/// Two slots: three choices that cost 3, 1 and 1, and two that cost 0 and 2.
fn small_grid(alloc: Global) -> Result<Grid, AllocError>
    ensures { IfOk result (λ grid. length grid ≡ 2) }
{
    let mut grid = Grid::new(alloc)?;
    grid.push_slot(&[Cost(3), Cost(1), Cost(1)])?;
    grid.push_slot(&[Cost(0), Cost(2)])?;
    Ok(grid)
}

/// What the grid and a zone hold, and the zone's least member. The masks end with a place that is to be empty.
#[derive(Clone, Copy)]
struct Least {
    slots: usize,
    source: u32,
    base: Cost,
    masks: [Option<u64>; 3],
    cost: Option<Cost>,
    member: [u32; 2],
}

fn first_masks(masks: &[u64]) -> [Option<u64>; 3] {
    [
        masks.get(0).copied(),
        masks.get(1).copied(),
        masks.get(2).copied(),
    ]
}

fn look_at_least(alloc: Global) -> Result<Least, AllocError> {
    let grid = small_grid(alloc)?;
    let zone = Zone::new(alloc, 5, Cost(10), &[0b111, 0b11])?;
    let mut member = [9, 9];
    let cost = grid.write_best(&zone, &mut member);
    Ok(Least {
        slots: grid.len(),
        source: zone.source(),
        base: zone.base(),
        masks: first_masks(zone.masks()),
        cost,
        member,
    })
}

#[test]
fn least_member(rt: HostRuntime) -> Result<(), Fail> {
    let least = look_at_least(rt.alloc())?;
    assert_eq!(rt; least.slots, 2);
    assert_eq!(rt; least.source, 5);
    assert_eq!(rt; least.base, Cost(10));
    assert!(rt; least.masks == [Some(0b111), Some(0b11), None]);
    assert_eq!(rt; least.cost, Some(Cost(11)));
    assert_eq!(rt; least.member, [1, 0]);
    Ok(())
}

/// The least cost in a zone that has no choice left at the second slot.
fn best_of_none(alloc: Global) -> Result<Option<Cost>, AllocError> {
    let grid = small_grid(alloc)?;
    let zone = Zone::new(alloc, 0, Cost(10), &[0b111, 0b100])?;
    Ok(grid.best(&zone))
}

#[test]
fn no_choice_left(rt: HostRuntime) -> Result<(), Fail> {
    let best = best_of_none(rt.alloc())?;
    assert_eq!(rt; best, None);
    Ok(())
}

/// How many parts a conflict leaves of a zone, and the least costs of the first two.
#[derive(Clone, Copy)]
struct Parts {
    count: usize,
    costs: [Option<Cost>; 2],
}

fn best_at(grid: &Grid, parts: &[Zone], place: usize) -> Option<Cost> {
    grid.best(parts.get(place)?)
}

fn costs_of_parts(alloc: Global, parts: &[Zone]) -> Result<Parts, AllocError> {
    let grid = small_grid(alloc)?;
    Ok(Parts {
        count: parts.len(),
        costs: [best_at(&grid, parts, 0), best_at(&grid, parts, 1)],
    })
}

fn split_a_zone(alloc: Global) -> Result<Parts, AllocError> {
    let zone = Zone::new(alloc, 0, Cost(10), &[0b111, 0b11])?;
    let conflict = choices_as_conflict(alloc, &[1, 0])?;
    let parts = split(alloc, &zone, &conflict)?;
    costs_of_parts(alloc, parts.as_slice())
}

#[test]
fn parts_by_a_conflict(rt: HostRuntime) -> Result<(), Fail> {
    let parts = split_a_zone(rt.alloc())?;
    assert_eq!(rt; parts.count, 2);
    assert_eq!(rt; parts.costs, [Some(Cost(11)), Some(Cost(13))]);
    Ok(())
}
