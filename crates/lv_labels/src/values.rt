//! The booleans of the variables before a step and after it.
#![tactic(auto)]

ghost use Rattle.std.specs.Prelude.{◌≡◌, ◌<◌, nat_lt};
ghost use Rattle.lv_compile.specs.FormulaClauses.{size_of};
ghost use Rattle.lv_labels.specs.Values.{booleans_at, literal_at};

use lv_base::{Lit, ValId, VarId};
use lv_compile::value_bools::ValueBools;
use lv_reply::Moment;

/// Whether a variable of one moment has a value. Takes no memory.
pub fn has_value(bools: &ValueBools, var: VarId, val: ValId) -> bool
    ensures { result ≡ nat_lt val.0 (size_of bools.now var.0) }
{
    let sizes = bools.sizes();
    (var.0 as usize) < sizes.len() && (val.0 as usize) < sizes[var.0 as usize]
}

/// One for each value of each variable, before a step and after it.
#[derive(Drop)]
pub struct Values {
    pub before: ValueBools,
    pub after: ValueBools,
}

impl Values {
    /// Those of one moment.
    pub fn at(&self, moment: Moment) -> &ValueBools
        ensures { result.now ≡ booleans_at self.now moment }
    {
        match moment {
            Moment::Now => &self.before,
            Moment::Next => &self.after,
        }
    }

    /// Whether a variable has a value. Takes no memory.
    pub fn has(&self, moment: Moment, var: VarId, val: ValId) -> bool
        ensures { result ≡ nat_lt val.0 (size_of (booleans_at self.now moment) var.0) }
    {
        has_value(self.at(moment), var, val)
    }

    /// The literal that a variable has a value. Takes no memory.
    pub fn literal(&self, moment: Moment, var: VarId, val: ValId) -> Lit
        requires { val.0 < size_of (booleans_at self.now moment) var.0 }
        ensures { result ≡ literal_at self.now moment var.0 val.0 }
    {
        self.at(moment).literal(var.0 as usize, val.0, true)
    }
}
