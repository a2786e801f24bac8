//! Names as they are written, and what a variable of that name is for.
#![tactic(auto)]

ghost use Rattle.std.specs.Prelude.{◌≡◌, position};
ghost use Rattle.lv_base.specs.Names.{is_named};

use super::seq::Seq;

/// A name: the bytes of a word of letters, digits and `_`.
pub type Name = Seq<u8>;

/// What a variable of a component type is for: a control is commanded, an observable is observed, the others follow
/// from them.
#[derive(Clone, Copy, Debug, PartialEq, Eq)]
pub enum Class {
    Control,
    Dependent,
    Observable,
}

/// Whether both are the same bytes. Words are so short that going along them is faster than comparing slices.
pub fn is_same_text(one: &[u8], other: &[u8]) -> bool
    ensures { result ≡ is_named other.now one.now }
{
    if one.len() != other.len() {
        return false;
    }
    for at in 0..one.len() {
        if one[at] != other[at] {
            return false;
        }
    }
    true
}

/// Whether a name is this text, byte by byte.
pub fn has_name(name: &Name, text: &[u8]) -> bool
    ensures { result ≡ is_named text.now name.now }
{
    is_same_text(name.as_slice(), text)
}

/// The place of the first name that is this text.
pub fn find_name(names: &[Name], text: &[u8]) -> Option<usize>
    ensures { result ≡ position (is_named text.now) names.now }
{
    names.iter().position(|name| has_name(name, text))
}
