//! With ample memory each call answers. The candidates and what they contain are written out by hand. A store has one
//! owner, whose steps take it by reference; what is found in it is written down as a plain value, which the test looks at
//! alone.

ghost use Rattle.std.specs.Prelude.{IsTrue};
ghost use Rattle.lv_base.specs.Choices.{slots_rise};

use lv_base::{Candidate, Conflict, Pair};
use lv_boxes::conflicts::Store;
use std::alloc::{AllocError, Global};
use std::test::Fail;

/// The place of the first conflict inside a candidate while conflicts are added, and what the store holds in the end.
#[derive(Clone, Copy)]
struct Found {
    in_none: Option<usize>,
    in_others: Option<usize>,
    in_all: Option<usize>,
    len: usize,
    other_is_first: bool,
    inside_is_third: bool,
}

const OTHER: [Pair; 2] = [Pair { slot: 0, choice: 1 }, Pair { slot: 2, choice: 1 }];

const BEYOND: [Pair; 1] = [Pair { slot: 3, choice: 0 }];

const INSIDE: [Pair; 2] = [Pair { slot: 1, choice: 0 }, Pair { slot: 2, choice: 2 }];

/// Adds the conflict of these pairs.
fn add(alloc: Global, store: &mut Store, pairs: &[Pair]) -> Result<(), AllocError>
    requires { IsTrue (slots_rise pairs.now) }
{
    store.add(Conflict::from_pairs(alloc, pairs)?)
}

/// Whether the conflict of this number is there and has these pairs.
fn has_at(store: &Store, number: usize, pairs: &[Pair]) -> bool {
    number < store.len() && store.get(number).pairs() == pairs
}

fn found_in(alloc: Global, store: &mut Store, candidate: &Candidate) -> Result<Found, AllocError> {
    let in_none = store.contained_in(candidate);
    add(alloc, store, &OTHER)?;
    add(alloc, store, &BEYOND)?;
    let in_others = store.contained_in(candidate);

    add(alloc, store, &INSIDE)?;
    add(alloc, store, &[])?;
    Ok(Found {
        in_none,
        in_others,
        in_all: store.contained_in(candidate),
        len: store.len(),
        other_is_first: has_at(store, 0, &OTHER),
        inside_is_third: has_at(store, 2, &INSIDE),
    })
}

fn first_inside(alloc: Global) -> Result<Found, AllocError> {
    let candidate = Candidate::new(alloc, 0, &[1, 0, 2])?;
    let mut store = Store::new(alloc)?;
    found_in(alloc, &mut store, &candidate)
}

#[test]
fn first_conflict_inside(rt: HostRuntime) -> Result<(), Fail> {
    let found = first_inside(rt.alloc())?;
    assert_eq!(rt; found.in_none, None);
    assert_eq!(rt; found.in_others, None);
    assert_eq!(rt; found.in_all, Some(2));

    assert_eq!(rt; found.len, 4);
    assert!(rt; found.other_is_first);
    assert!(rt; found.inside_is_third);
    Ok(())
}
