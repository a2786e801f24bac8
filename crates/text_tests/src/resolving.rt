//! Names given what they stand for, in scopes of a few names.

use lv_base::{Formula, ValId, VarId};
use lv_formula_text::{Path, ResolveFault, Scope, read_phrase, resolve};
use lv_text::TokenLine;
use std::alloc::Global;

/// Every path names the first variable; `on` alone is a value, the second.
#[derive(Drop)]
struct Switch {
    has_variables: bool,
}

impl Scope for Switch {
    ghost use Rattle.std.specs.Prelude.{ℕ, List, Bool, Option, Some, None, if◌then◌else◌, codes, nat_eq};
    ghost use Rattle.lv_base.specs.Names.{is_named};

    ghost named_variable = { λ s _. if s.has_variables then Some (record { 0 = 0 }) else None };

    ghost named_value = { λ _ _ name. if is_named (codes "on") name then Some (record { 0 = 1 }) else None };

    ghost share_domain = { λ _ x y. nat_eq x.0 y.0 };

    fn variable(&self, _path: &Path) -> Option<VarId> {
        if self.has_variables {
            Some(VarId(0))
        } else {
            None
        }
    }

    fn value(&self, _variable: VarId, name: &[u8]) -> Option<ValId> {
        if name == b"on".as_slice() {
            Some(ValId(1))
        } else {
            None
        }
    }

    fn same_domain(&self, left: VarId, right: VarId) -> bool {
        left.0 == right.0
    }
}

fn resolved(alloc: Global, text: &[u8], scope: &Switch) -> Option<Result<Formula, ResolveFault>> {
    let line = TokenLine::read(alloc, text).ok()?;
    let phrase = read_phrase(alloc, &line, 0).ok()?;
    Some(resolve(alloc, &phrase, scope))
}

#[test]
fn resolves_names(rt: HostRuntime) {
    let known = Switch {
        has_variables: true,
    };
    let value = resolved(rt.alloc(), b"x = on", &known);
    assert!(rt; matches!(value, Some(Ok(Formula::Is(VarId(0), ValId(1))))));
    let variable = resolved(rt.alloc(), b"x = y", &known);
    assert!(rt; matches!(variable, Some(Ok(Formula::Same(VarId(0), VarId(0))))));
}

#[test]
fn refuses_unknown_names(rt: HostRuntime) {
    let unknown = Switch {
        has_variables: false,
    };
    let fault = resolved(rt.alloc(), b"true & x = on", &unknown);
    assert!(rt; matches!(fault, Some(Err(ResolveFault::UnknownName))));
}
