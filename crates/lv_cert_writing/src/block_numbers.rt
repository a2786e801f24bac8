//! The numbers that clauses have in a block, kept in lists by the places at which the clauses stand elsewhere.
#![tactic(auto)]

ghost use Rattle.std.specs.Prelude.{◌≡◌, IfOk, OnOk, slice_index};
ghost use Rattle.lv_cert_writing.specs.BlockNumbers.{AreSystemNumbers, Keeps, KeepsOthers};

use lv_base::ClauseId;
use lv_system::StepSystem;
use std::alloc::{AllocError, Global};

/// The number kept at a place, 0 where none is.
pub fn number_at(numbers: &[u128], place: usize) -> u128
    ensures { result ≡ slice_index numbers.now place }
{
    if place < numbers.len() {
        numbers[place]
    } else {
        0
    }
}

/// Keeps a number at a place.
pub fn keep(numbers: &mut Vec<u128>, place: usize, number: u128) -> Result<(), AllocError>
    ensures kept { OnOk result (Keeps numbers.old.items numbers.new.items place number) }
    ensures others { KeepsOthers numbers.old.items numbers.new.items place }
{
    while numbers.len() <= place {
        numbers.push(0)?;
    }
    numbers[place] = number;
    Ok(())
}

/// The numbers of the clauses of a system, each at its place in the set.
pub fn numbers_of(alloc: Global, system: &StepSystem) -> Result<Vec<u128>, AllocError>
    ensures { IfOk result (λ numbers. AreSystemNumbers system.now system.now.ids numbers.items) }
{
    let mut numbers = Vec::with_capacity(alloc, system.clause_total() as usize)?;
    for n in 0..system.clause_total() {
        let id = system.clause_id(n + 1);
        keep(&mut numbers, id.0, u128::from(n) + 1)?;
    }
    Ok(numbers)
}
