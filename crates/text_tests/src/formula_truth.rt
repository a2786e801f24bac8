//! A formula of many kinds, and what its variables may range over.

use lv_base::{Condition, Formula, Range, Sort, ValId, VarId};
use std::alloc::{AllocError, Global};

fn is(var: u32, val: u32) -> Formula {
    Formula::Is(VarId(var), ValId(val))
}

/// `x0 = 1 & x1 = 0 | !(x0 = x1) => x2 = 1`, for variables counted from 1.
fn formula(alloc: Global) -> Result<Formula, AllocError> {
    let mut both = Vec::new(alloc);
    both.push(is(0, 1))?;
    both.push(is(1, 0))?;
    let mut either = Vec::new(alloc);
    either.push(Formula::And(both))?;
    either.push(Formula::Not(Box::new(alloc, Formula::Same(VarId(0), VarId(1)))?))?;
    Ok(Formula::Implies(
        Box::new(alloc, Formula::Or(either))?,
        Box::new(alloc, is(2, 1))?,
    ))
}

#[test]
fn fits_what_its_variables_range_over(rt: HostRuntime) -> Result<(), AllocError> {
    let condition = Condition::new(formula(rt.alloc())?);
    let bit = Range {
        sort: Sort::Values(0),
        size: 2,
    };
    let unary = Range {
        sort: Sort::Values(1),
        size: 1,
    };
    let modes = Range {
        sort: Sort::Modes(0),
        size: 2,
    };
    assert!(rt; condition.fits(&[bit, bit, bit]) && condition.fits(&[bit, bit, modes]));
    assert!(rt; !condition.fits(&[bit, bit]) && !condition.fits(&[bit, bit, unary]));
    assert!(rt; !condition.fits(&[bit, modes, bit]));
    Ok(())
}
