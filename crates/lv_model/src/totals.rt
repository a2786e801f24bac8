//! Numbers that are held back at a limit.
#![tactic(auto)]

ghost use Rattle.std.specs.Prelude.{◌≡◌, ◌+◌, min};
ghost use Rattle.lv_model.specs.Counts.{held, limited};

use lv_base::limits;

/// So many more.
pub fn with(total: u32, more: usize) -> u32
    ensures { result ≡ held (total + more) }
{
    (total as usize)
        .saturating_add(more)
        .min(limits::MODEL_CLAUSES as usize + 1) as u32
}

/// A number of values, as far as the limit on them goes.
pub fn limited(values: usize) -> u32
    ensures { result ≡ limited values }
{
    values.min(limits::VALUES as usize) as u32
}
