//! What literals say of values.
#![tactic(auto)]

ghost use Rattle.std.specs.Prelude.{◌≡◌, not};
ghost use Rattle.std.specs.List.{list_all};
ghost use Rattle.lv_clauses.specs.Literals as Literals;
ghost use Rattle.lv_clauses.specs.Literals.{neg};

use lv_base::Lit;

/// The literal of the same boolean and the other sign.
pub fn negation(lit: Lit) -> Lit
    ensures { result ≡ neg lit }
{
    Lit {
        var: lit.var,
        sign: !lit.sign,
    }
}

/// Whether values, one for each boolean, make a literal true. A boolean past the end of the values is false.
pub fn lit_holds(values: &[bool], lit: Lit) -> bool
    ensures { result ≡ Literals.lit_holds values.now lit }
{
    let index = lit.var.0 as usize;
    let value = index < values.len() && values[index];
    value == lit.sign
}

/// Whether values make a literal of the clause true.
pub fn clause_holds(values: &[bool], clause: &[Lit]) -> bool
    ensures { result ≡ Literals.clause_holds values.now clause.now }
{
    clause.iter().any(|lit| lit_holds(values, *lit))
}

/// Whether values make all literals true.
pub fn all_hold(values: &[bool], lits: &[Lit]) -> bool
    ensures { result ≡ list_all (Literals.lit_holds values.now) lits.now }
{
    lits.iter().all(|lit| lit_holds(values, *lit))
}

/// Whether literals are a clause over so many booleans: each is in range, and no boolean stands twice. It compares each
/// with each.
pub fn is_clause(bools: u32, lits: &[Lit]) -> bool
    ensures { result ≡ Literals.is_clause bools lits.now }
{
    for (at, lit) in lits.iter().enumerate() {
        if lit.var.0 >= bools || !is_apart(*lit, &lits[at + 1..]) {
            return false;
        }
    }
    true
}

/// Whether no literal of the list is of the literal's boolean.
fn is_apart(lit: Lit, lits: &[Lit]) -> bool
    ensures { result ≡ list_all (λ m. not (Literals.same_var lit m)) lits.now }
{
    lits.iter().all(|other| other.var != lit.var)
}
