//! What names stand for. Formulas of a component type, laws of the system and goals are written in the same language;
//! they differ in which variables they may name, and how.
#![tactic(auto)]

ghost use Rattle.std.specs.Prelude.{◌≡◌};

use crate::path::Path;
use lv_base::{ValId, VarId};

/// The variables and values that a formula may name. No call takes memory.
pub trait Scope {
    ghost use Rattle.std.specs.Prelude.{ℕ, List, Bool, Option};
    ghost use Rattle.lv_base.specs.declared.ids.VarId.{VarId};
    ghost use Rattle.lv_base.specs.declared.ids.ValId.{ValId};
    ghost use Rattle.lv_formula_text.specs.declared.path.Path.{Path};

    ghost named_variable: { Self → Path → Option VarId };

    ghost named_value: { Self → VarId → List ℕ → Option ValId };

    ghost share_domain: { Self → VarId → VarId → Bool };

    /// The variable that a path names.
    fn variable(&self, path: &Path) -> Option<VarId>
        ensures { result ≡ named_variable self.now path.now };

    /// The value of that name in the domain of a variable.
    fn value(&self, variable: VarId, name: &[u8]) -> Option<ValId>
        ensures { result ≡ named_value self.now variable name.now };

    /// Whether two variables have one domain.
    fn same_domain(&self, left: VarId, right: VarId) -> bool
        ensures { result ≡ share_domain self.now left right };
}
