//! Copies of logs.
#![tactic(auto)]

ghost use Rattle.std.specs.Prelude.{◌≡◌, IfOk};

use lv_clauses::Log;
use std::alloc::{AllocError, Global};

/// A log of copies of all steps.
pub fn copy_log(alloc: Global, log: &Log) -> Result<Log, AllocError>
    ensures { IfOk result (λ copy. copy ≡ log.now) }
{
    let mut copy = Log::new(alloc)?;
    for place in 0..log.len() {
        let step = log.step(place);
        copy.push(step.clause.as_slice(), step.hints.as_slice())?;
    }
    Ok(copy)
}
