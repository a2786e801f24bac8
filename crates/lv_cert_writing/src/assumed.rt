//! What a block states by a literal alone: it is assumed, so that a solver need not be given it as a clause.
#![tactic(auto)]

ghost use Rattle.std.specs.Prelude.{◌≡◌, ◌<◌, ◌++◌, ◌∷◌, [], IfOk, OnOk, length, nat_eq, replicate, slice_index, slice_set};

use crate::block_numbers::number_at;
use lv_base::Lit;
use std::alloc::{AllocError, Global};

/// The literals assumed, in order, and at the place of each one's boolean the number of the clause that states it in the
/// block, 0 where none is.
#[derive(Drop)]
pub struct Assumed {
    pub lits: Vec<Lit>,
    pub numbers: Vec<u128>,
}

impl Assumed {
    /// Nothing, over so many booleans.
    pub fn new(alloc: Global, bools: u32) -> Result<Assumed, AllocError>
        ensures lits { IfOk result (λ a. a.lits.items ≡ []) }
        ensures numbers { IfOk result (λ a. a.numbers.items ≡ replicate bools 0) }
    {
        Ok(Assumed {
            lits: Vec::new(alloc),
            numbers: vec![in alloc; 0; bools as usize]?,
        })
    }

    /// Whether nothing is assumed of the literal's boolean.
    pub fn is_free(&self, lit: Lit) -> bool
        ensures { result ≡ nat_eq (slice_index self.now.numbers.items lit.var.0) 0 }
    {
        number_at(self.numbers.as_slice(), lit.var.0 as usize) == 0
    }

    /// Assumes the literal, which the clause of this number states.
    pub fn assume(&mut self, lit: Lit, number: u128) -> Result<(), AllocError>
        requires { lit.var.0 < length self.old.numbers.items }
        ensures lits { OnOk result (self.new.lits.items ≡ self.old.lits.items ++ lit ∷ []) }
        ensures numbers { OnOk result (self.new.numbers.items ≡ slice_set self.old.numbers.items lit.var.0 number) }
    {
        self.lits.push(lit)?;
        self.numbers[lit.var.0 as usize] = number;
        Ok(())
    }
}
