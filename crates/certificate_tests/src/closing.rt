//! With ample memory zones are closed, by splits that name what explains their members.

ghost use Rattle.std.specs.Prelude.{◌≡◌, ◌∷◌, [], IfOk};
ghost use Rattle.certificate_tests.specs.Small.{small_slots, small_zone, ranked_at, second_of_first, first_three};

use lv_base::{Conflict, Cost, Pair, Rank, Seq};
use lv_boxes::{Grid, Zone};
use lv_cert::{Evidence, Question};
use lv_cert_writing::{Explanations, Split, close, last_if_full};
use std::alloc::{AllocError, Global};
use std::test::Fail;

/// Two slots: three choices that cost 0, 1 and 1, and two that cost 0 and 2.
fn small_grid(alloc: Global) -> Result<Grid, AllocError>
    ensures { IfOk result (λ grid. grid ≡ small_slots) }
{
    let mut grid = Grid::new(alloc)?;
    grid.push_slot(&[Cost(0), Cost(1), Cost(1)])?;
    grid.push_slot(&[Cost(0), Cost(2)])?;
    Ok(grid)
}

/// All candidates of one tracked state that costs 10.
fn small_zones(alloc: Global) -> Result<Vec<Zone>, AllocError>
    ensures { IfOk result (λ zones. zones.items ≡ small_zone ∷ []) }
{
    let mut zones = Vec::new(alloc);
    zones.push(Zone::new(alloc, 0, Cost(10), &[0b111, 0b11])?)?;
    Ok(zones)
}

/// That the first slot has its second choice.
fn one_excluded(alloc: Global) -> Result<Vec<Conflict>, AllocError>
    ensures { IfOk result (λ excluded. excluded.items ≡ (second_of_first ∷ []) ∷ []) }
{
    let mut excluded = Vec::new(alloc);
    excluded.push(Conflict::from_pairs(alloc, &[Pair { slot: 0, choice: 1 }])?)?;
    Ok(excluded)
}

fn rank_at(alloc: Global, cost: u64, choices: &[u32]) -> Result<Rank, AllocError>
    ensures { IfOk result (λ rank. rank ≡ ranked_at cost choices.now) }
{
    Ok(Rank {
        cost: Cost(cost),
        source: 0,
        choices: Seq::from_slice(alloc, choices)?,
    })
}

/// The first three candidates that haven't it.
fn three_listed(alloc: Global) -> Result<Vec<Rank>, AllocError>
    ensures { IfOk result (λ listed. listed.items ≡ first_three) }
{
    let mut listed = Vec::new(alloc);
    listed.push(rank_at(alloc, 10, &[0, 0])?)?;
    listed.push(rank_at(alloc, 11, &[2, 0])?)?;
    listed.push(rank_at(alloc, 12, &[0, 1])?)?;
    Ok(listed)
}

/// The splits that show that these are the first three.
fn three_shown(alloc: Global) -> Result<Vec<Split>, AllocError> {
    let excluded = one_excluded(alloc)?;
    let listed = three_listed(alloc)?;
    let last = last_if_full(listed.as_slice(), 3);
    let (grid, zones) = (small_grid(alloc)?, small_zones(alloc)?);
    let why = Explanations {
        question: Question::Diagnosis,
        targets: None,
        excluded: excluded.as_slice(),
        listed: listed.as_slice(),
        last,
    };
    close(alloc, &why, grid, zones)
}

#[test]
fn splits_show_the_first_three(rt: HostRuntime) -> Result<(), Fail> {
    // The zone of all is split by 00 into 2 and 3, zone 2 by the conflict into 4, zone 3, which has 01 alone, into 5 and
    // 6, and zone 4 by 20 into 7 and 8, of which 8 has 21 alone, which ranks behind 01. 5, 6 and 7 are empty.
    let splits = [
        Split {
            zone: 1,
            by: Evidence::Listed(1),
        },
        Split {
            zone: 2,
            by: Evidence::Conflict(1),
        },
        Split {
            zone: 3,
            by: Evidence::Listed(3),
        },
        Split {
            zone: 4,
            by: Evidence::Listed(2),
        },
    ];
    assert!(rt; three_shown(rt.alloc())?.iter().copied().eq(splits));
    Ok(())
}
