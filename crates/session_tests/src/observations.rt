//! Observations that are put in, looked for and taken out, with ample memory.
use lv_base::{Seq, ValId, VarId};
use lv_meaning::Observation;
use lv_session_request::{Held, Sighting};
use std::alloc::{AllocError, Global};

const FIRST: Observation = Observation {
    var: VarId(3),
    val: ValId(0),
};

const SECOND: Observation = Observation {
    var: VarId(7),
    val: ValId(1),
};

const THIRD: Observation = Observation {
    var: VarId(3),
    val: ValId(1),
};

/// Puts an observation last; whether its name was free.
fn put(alloc: Global, held: &mut Held, name: &[u8], seen: Observation) -> Result<bool, AllocError> {
    if held.has(name) {
        return Ok(false);
    }
    held.push(Sighting {
        name: Seq::from_slice(alloc, name)?,
        var: seen.var,
        val: seen.val,
    })?;
    Ok(true)
}

/// Whether just these are held, in this order.
fn holds(alloc: Global, held: &Held, wanted: &[Observation]) -> Result<bool, AllocError> {
    let all = held.observations(alloc)?;
    Ok(held.len() == wanted.len() && all.as_slice() == wanted)
}

/// Three observations, in the order in which they came.
fn put_three(alloc: Global, held: &mut Held) -> Result<bool, AllocError> {
    Ok(
        holds(alloc, held, &[])?
            && !held.has(b"b")
            && put(alloc, held, b"b", FIRST)?
            && put(alloc, held, b"a", SECOND)?
            && put(alloc, held, b"ab", THIRD)?
            && holds(alloc, held, &[FIRST, SECOND, THIRD])?,
    )
}

/// The one of a name goes, the others stay in their order, and one that comes again is the last.
fn take_one(alloc: Global, held: &mut Held) -> Result<bool, AllocError> {
    held.take_out(b"a");
    Ok(
        holds(alloc, held, &[FIRST, THIRD])?
            && held.has(b"b")
            && !held.has(b"a")
            && held.has(b"ab")
            && put(alloc, held, b"a", SECOND)?
            && holds(alloc, held, &[FIRST, THIRD, SECOND])?,
    )
}

/// A name that none has changes nothing.
fn take_none(alloc: Global, held: &mut Held) -> Result<bool, AllocError> {
    held.take_out(b"c");
    holds(alloc, held, &[FIRST, THIRD, SECOND])
}

/// Puts observations in whose names are bytes, of variables that rise from 0.
fn put_hundred(alloc: Global, held: &mut Held) -> Result<bool, AllocError> {
    let mut right = true;
    for n in 0..100u8 {
        let seen = Observation {
            var: VarId(n as u32),
            val: ValId(0),
        };
        right = put(alloc, held, &[n], seen)? && right;
    }
    Ok(right && held.len() == 100 && held.has(&[0]) && held.has(&[99]) && !held.has(&[100]))
}

/// Takes those out whose names are even; the others stay, in their order.
fn take_fifty(alloc: Global, held: &mut Held) -> Result<bool, AllocError> {
    for n in 0..50u8 {
        held.take_out(&[2 * n]);
    }
    let left = held.observations(alloc)?;
    let are_odd = (0..100u32)
        .filter(|n| *n % 2 == 1)
        .eq(left.as_slice().iter().map(|o| o.var.0));
    Ok(held.len() == 50 && are_odd && held.has(&[99]) && !held.has(&[98]))
}

fn order_is_kept(alloc: Global) -> Result<bool, AllocError> {
    let mut held = Held::new(alloc);
    Ok(put_three(alloc, &mut held)? && take_one(alloc, &mut held)? && take_none(alloc, &mut held)?)
}

fn hundred_are_held(alloc: Global) -> Result<bool, AllocError> {
    let mut held = Held::new(alloc);
    Ok(put_hundred(alloc, &mut held)? && take_fifty(alloc, &mut held)?)
}

#[test]
fn a_name_taken_out(rt: HostRuntime) -> Result<(), AllocError> {
    let right = order_is_kept(rt.alloc())?;
    assert!(rt; right);
    Ok(())
}

#[test]
fn a_hundred_observations(rt: HostRuntime) -> Result<(), AllocError> {
    let right = hundred_are_held(rt.alloc())?;
    assert!(rt; right);
    Ok(())
}
