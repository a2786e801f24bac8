//! Which steps of a log its last one rests on: the last, and with a step those that its hints name.
#![tactic(auto)]

ghost use Rattle.std.specs.Prelude.{◌≡◌, ◌<◌, ◌≤◌, IfOk, length};
ghost use Rattle.lv_cert_writing.specs.Needed as Needed;
ghost use Rattle.lv_cert_writing.specs.Needed.{AreNeeded};

use lv_clauses::{Hint, Log};
use std::alloc::{AllocError, Global};

/// Marks the steps before this place that hints name.
fn mark_named(needed: &mut Vec<bool>, place: usize, hints: &[Hint])
    requires { place ≤ length needed.old.items }
    ensures { needed.new.items ≡ Needed.named_marked place needed.old.items hints.now }
{
    for hint in hints {
        match hint {
            Hint::Given(_) => {}
            Hint::Earlier(earlier) => {
                if *earlier < place {
                    needed[*earlier] = true;
                }
            }
        }
    }
}

/// A mark for each step of a log, made from its last step back.
pub fn needed_steps(alloc: Global, log: &Log) -> Result<Vec<bool>, AllocError>
    requires { 0 < length log.now }
    ensures { IfOk result (λ needed. AreNeeded log.now needed.items 0) }
{
    let mut needed = vec![in alloc; false; log.len()]?;
    needed[log.len() - 1] = true;
    let mut place = log.len();
    while place > 0 {
        place -= 1;
        if needed[place] {
            mark_named(&mut needed, place, log.step(place).hints.as_slice());
        }
    }
    Ok(needed)
}
