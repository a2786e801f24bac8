//! Literals that benches make clauses of, and random ones.
#![tactic(auto)]

ghost use Rattle.std.specs.Prelude.{◌≡◌, ◌<◌, IsTrue, IfSome};
ghost use Rattle.lv_clauses.specs.Literals as Literals;
ghost use Rattle.lv_clauses.specs.Literals.{in_range};

use crate::numbers::Numbers;
use lv_base::{BoolId, Lit};
use lv_clauses::is_clause;

/// How often a clause is drawn until its booleans are distinct.
const DRAWS: u32 = 16;

/// Three random literals that are a clause. None where none were drawn, as where there are less than three booleans.
pub fn random_clause(bools: u32, numbers: &mut Numbers) -> Option<[Lit; 3]>
    ensures { IfSome result (λ lits. IsTrue (Literals.is_clause bools lits)) }
{
    for _draw in 0..DRAWS {
        let lits = [
            random_literal(bools, numbers),
            random_literal(bools, numbers),
            random_literal(bools, numbers),
        ];
        if is_clause(bools, &lits) {
            return Some(lits);
        }
    }
    None
}

/// A literal of a boolean below a bound, or of the boolean 0 where the bound is 0.
pub fn random_literal(bools: u32, numbers: &mut Numbers) -> Lit
    ensures { 0 < bools → IsTrue (in_range bools result) }
{
    let var = numbers.below(u64::from(bools.max(1))) as u32;
    literal(var, numbers.below(2) == 1)
}

/// The literal of a boolean and a sign.
pub fn literal(var: u32, sign: bool) -> Lit
    ensures { result ≡ record { var = record { 0 = var }; sign = sign } }
{
    Lit {
        var: BoolId(var),
        sign,
    }
}
