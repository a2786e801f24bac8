//! The formula that a goal's phrase is: each name in it given what it stands for over the whole plant.
#![tactic(auto)]

ghost use Rattle.std.specs.Prelude.{◌≡◌, IfOk, IfErr, Ok};
ghost use Rattle.lv_formula_text.specs.Resolving.{resolved};
ghost use Rattle.lv_formula_text.specs.ResolveFaults.{Tells};
ghost use Rattle.lv_model_names.specs.Names.{names_over};

use crate::names::{share_domain, value_of, variable_of};
use lv_base::{Condition, Range, ValId, VarId};
use lv_formula_text::{Path, Phrase, ResolveFault, Scope, resolve};
use lv_model::Plant;
use std::alloc::Global;

/// The scope of goals: a plant, and what its variables range over.
#[derive(Clone, Copy)]
struct PlantScope<'a> {
    plant: &'a Plant,
    ranges: &'a [Range],
}

impl<'a> Scope for PlantScope<'a> {
    ghost use Rattle.lv_model_names.specs.Names.{variable_by, value_of as value_named_of, share_domain as do_share};

    ghost named_variable = { λ s path. variable_by s.plant.now path };

    ghost named_value = { λ s x word. value_named_of s.plant.now s.ranges.now x word };

    ghost share_domain = { λ s x y. do_share s.ranges.now x y };

    fn variable(&self, path: &Path) -> Option<VarId> {
        match path {
            Path::Own(_) => None,
            Path::OfPart(part, word) => variable_of(self.plant, part.as_slice(), word.as_slice()),
        }
    }

    fn value(&self, variable: VarId, name: &[u8]) -> Option<ValId> {
        value_of(self.plant, self.ranges, variable, name)
    }

    fn same_domain(&self, left: VarId, right: VarId) -> bool {
        share_domain(self.ranges, left, right)
    }
}

/// The formula that a phrase is as a goal over the plant, whose variables have these ranges.
pub fn goal_formula(
    alloc: Global,
    plant: &Plant,
    ranges: &[Range],
    phrase: &Phrase,
) -> Result<Condition, ResolveFault>
    ensures ok { IfOk result (λ f. resolved (names_over plant.now ranges.now) phrase.now ≡ Ok f) }
    ensures fault { IfErr result (λ fault. Tells fault (resolved (names_over plant.now ranges.now) phrase.now)) }
{
    let formula = resolve(alloc, phrase, &PlantScope { plant, ranges })?;
    Ok(Condition::new(formula))
}
