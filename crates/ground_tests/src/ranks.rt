//! Each call once with ample memory.

use lv_base::{Candidate, Conflict, Cost, Pair, Rank, Seq, contains};
use std::alloc::{AllocError, Global};

fn rank(alloc: Global, cost: u64, source: u32, choices: &[u32]) -> Result<Rank, AllocError> {
    Ok(Rank {
        cost: Cost(cost),
        source,
        choices: Seq::from_slice(alloc, choices)?,
    })
}

#[test]
fn ranks_by_cost_then_source_then_choices(rt: HostRuntime) -> Result<(), AllocError> {
    let alloc = rt.alloc();
    let least = rank(alloc, 3, 1, &[0, 2])?;
    let dearer = rank(alloc, 4, 0, &[0, 0])?;
    let later = rank(alloc, 3, 2, &[0, 0])?;
    let larger = rank(alloc, 3, 1, &[1, 0])?;
    assert!(rt; least.before(&dearer) && least.before(&later) && least.before(&larger));
    assert!(rt; !dearer.before(&least) && !later.before(&least) && !larger.before(&least));
    assert!(rt; !least.before(&least));
    Ok(())
}

#[test]
fn keeps_lists_and_choices(rt: HostRuntime) -> Result<(), AllocError> {
    let alloc = rt.alloc();
    let mut list = Seq::new(alloc);
    assert!(rt; list.is_empty());
    list.push(7u32)?;
    assert!(rt; list.len() == 1 && list.as_slice()[0] == 7);
    let again = Seq::from_vec(list.into_vec());
    let pairs = [Pair { slot: 0, choice: 7 }, Pair { slot: 2, choice: 9 }];
    let conflict = Conflict::from_pairs(alloc, &pairs)?;
    let candidate = Candidate::new(alloc, 0, &[7, 8, 9])?;
    assert!(rt; contains(candidate.choices.as_slice(), conflict.pairs()));
    assert!(rt; !contains(again.as_slice(), conflict.pairs()));
    Ok(())
}
