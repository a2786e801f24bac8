//! What a clause says while some booleans are taken to be true or false: the one look that propagation and the checking
//! of refutations share.
#![tactic(auto)]

ghost use Rattle.std.specs.Prelude.{◌≡◌, None, slice_set};
ghost use Rattle.lv_clauses.specs.Marks as Marks;

use super::literals::negation;
use lv_base::Lit;

/// What a clause says under marks.
#[derive(Clone, Copy, Debug, PartialEq, Eq)]
pub enum Finding {
    /// Each of its literals is false.
    AllFalse,
    /// Each of its literals is false but this one, which is true or unmarked.
    Unit(Lit),
    /// Two of its literals or more aren't false.
    Open,
}

/// Whether a literal is marked as true. A boolean past the end of the marks is unmarked. Takes no memory.
pub fn is_marked(marks: &[Option<bool>], lit: Lit) -> bool
    ensures { result ≡ Marks.is_marked marks.now lit }
{
    let index = lit.var.0 as usize;
    if index < marks.len() {
        match marks[index] {
            Some(value) => value == lit.sign,
            None => false,
        }
    } else {
        false
    }
}

/// Unmarks the boolean of a literal, if it is in range. Takes no memory.
pub fn unmark(marks: &mut Vec<Option<bool>>, lit: Lit)
    ensures { marks.new.items ≡ slice_set marks.old.items lit.var.0 None }
{
    let index = lit.var.0 as usize;
    if index < marks.len() {
        marks[index] = None;
    }
}

/// Looks at a clause's literals until two are found that aren't false. Takes no memory.
pub fn look(marks: &[Option<bool>], clause: &[Lit]) -> Finding
    ensures { result ≡ Marks.look_at marks.now clause.now }
{
    let mut left = None;
    for lit in clause {
        if !is_marked(marks, negation(*lit)) {
            match left {
                Some(_) => return Finding::Open,
                None => left = Some(*lit),
            }
        }
    }
    match left {
        Some(lit) => Finding::Unit(lit),
        None => Finding::AllFalse,
    }
}
