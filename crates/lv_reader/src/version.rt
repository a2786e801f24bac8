//! The version of a model's text.
#![tactic(auto)]

ghost use Rattle.std.specs.Prelude.{◌≡◌, Some};
ghost use Rattle.lv_reader.specs.Statements.{has_form_of};
ghost use Rattle.lv_reader.specs.Versions.{version_of, version_in, known_behind, gives_version};

use crate::statement::Statement;

/// The newest version, in which texts are printed.
pub const NEWEST: u64 = 2;

/// A version of the language of models. A text of the first is one of the second too.
#[derive(Clone, Copy, Debug, PartialEq, Eq)]
pub enum Version {
    One,
    Two,
}

impl Version {
    /// Whether the version has the form of the statement.
    pub fn has_form_of(self, statement: &Statement) -> bool
        ensures { result ≡ has_form_of self statement.now }
    {
        match self {
            Version::Two => true,
            Version::One => match statement {
                Statement::InLine(modes, _) => modes.len() == 1,
                Statement::FaultsLine(_, _, _) | Statement::RepairLine(_, _, _, _, _) => false,
                _ => true,
            },
        }
    }
}

/// The version of a text that begins with this statement.
fn version_of(first: &Statement) -> Version
    ensures { result ≡ version_of first.now }
{
    match first {
        Statement::VersionLine(NEWEST) => Version::Two,
        _ => Version::One,
    }
}

/// The version by which a line is read: before the first statement it is the first.
pub fn version_in(known: Option<Version>) -> Version
    ensures { result ≡ version_in known }
{
    known.unwrap_or(Version::One)
}

/// The version of the text, once this is said too.
pub fn known_behind(known: Option<Version>, said: &Statement) -> Version
    ensures { Some result ≡ known_behind known (Some said.now) }
{
    match known {
        Some(version) => version,
        None => version_of(said),
    }
}

/// Whether the statement says the version of the text.
pub fn gives_version(known: Option<Version>, said: &Statement) -> bool
    ensures { result ≡ gives_version known said.now }
{
    known.is_none() && matches!(said, Statement::VersionLine(_))
}
