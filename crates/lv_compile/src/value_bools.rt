//! The booleans of one copy of the variables. Where each variable's booleans begin is kept, so that a literal is found
//! in one step.
#![tactic(auto)]

ghost use Rattle.std.specs.Prelude.{◌≡◌, ◌+◌, ◌<◌, ◌++◌, ◌^◌, IfOk, length};
ghost use Rattle.std.specs.List.{sum};
ghost use Rattle.lv_compile.specs.Booleans.{literal, value_literal, starts_from};
ghost use Rattle.lv_compile.specs.FormulaClauses.{size_of};

use lv_base::{BoolId, Lit};
use std::alloc::{AllocError, Global};
use std::marker::Model;

/// So many booleans of each variable, one for each of its values, from a first one on.
#[derive(Drop)]
pub struct ValueBools {
    first: u32,
    sizes: Vec<usize>,
    starts: Vec<u32>,
}

impl Model for ValueBools {
    ghost use Rattle.lv_compile.specs.Booleans.{Booleans, AreStarts};

    ghost Value = { Booleans };

    ghost view = { λ b. record { sizes = b.sizes.items; first = b.first } };

    ghost invariant = { λ b. AreStarts b.first b.sizes.items b.starts.items };
}

/// Where the booleans of each variable begin.
fn starts_of(alloc: Global, first: u32, sizes: &[usize]) -> Result<Vec<u32>, AllocError>
    requires { first + sum sizes.now < 2 ^ 32 }
    ensures { IfOk result (λ out. out.items ≡ starts_from first sizes.now) }
{
    let mut out = Vec::new(alloc);
    let mut start = first;
    for size in sizes {
        out.push(start)?;
        start += *size as u32;
    }
    Ok(out)
}

impl ValueBools {
    /// The booleans of variables that have so many values, the first of which has the number `first`.
    pub fn new(alloc: Global, first: u32, sizes: Vec<usize>) -> Result<ValueBools, AllocError>
        requires { first + sum sizes.items < 2 ^ 32 }
        ensures { IfOk result (λ b. b ≡ record { sizes = sizes.items; first = first }) }
    {
        let starts = starts_of(alloc, first, sizes.as_slice())?;
        Ok(ValueBools {
            first,
            sizes,
            starts,
        })
    }

    /// The same booleans once more.
    pub fn copied(&self, alloc: Global) -> Result<ValueBools, AllocError>
        ensures { IfOk result (λ b. b ≡ self.now) }
    {
        let sizes = Vec::from_slice(alloc, self.sizes.as_slice())?;
        let starts = Vec::from_slice(alloc, self.starts.as_slice())?;
        Ok(ValueBools {
            first: self.first,
            sizes,
            starts,
        })
    }

    /// The number of the first boolean.
    pub fn first(&self) -> u32
        ensures { result ≡ self.now.first }
    {
        self.first
    }

    /// How many values each variable has.
    pub fn sizes(&self) -> &[usize]
        ensures sizes { result.now ≡ self.now.sizes }
        ensures fit { self.now.first + sum self.now.sizes < 2 ^ 32 }
    {
        self.sizes.as_slice()
    }

    /// How many values a variable has.
    pub fn size(&self, var: usize) -> u32
        requires { var < length self.now.sizes }
        ensures { result ≡ size_of self.now var }
    {
        self.sizes[var] as u32
    }

    /// The literal that a variable has a value, or that it hasn't. Takes no memory.
    pub fn literal(&self, var: usize, value: u32, sign: bool) -> Lit
        requires { value < size_of self.now var }
        ensures { result ≡ value_literal self.now var value sign }
    {
        Lit {
            var: BoolId(self.starts[var] + value),
            sign,
        }
    }
}
