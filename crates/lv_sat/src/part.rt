//! Whether assumptions hold the core of a refutation.
#![tactic(auto)]

ghost use Rattle.std.specs.Prelude.{◌≡◌, ◌↔◌, true};
ghost use Rattle.lv_sat.specs.Answers.{IsSublist};

use lv_base::Lit;

/// Whether literals are some of these, in their order.
pub fn is_part(part: &[Lit], whole: &[Lit]) -> bool
    ensures { (result ≡ true) ↔ IsSublist part.now whole.now }
{
    let mut met = 0;
    for lit in whole {
        if met < part.len() && part[met] == *lit {
            met += 1;
        }
    }
    met == part.len()
}
