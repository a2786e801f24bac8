//! Why a model's text is refused, and the number by which that is told.
#![tactic(auto)]

ghost use Rattle.std.specs.Prelude.{◌≡◌};
ghost use Rattle.lv_reader.specs.Codes.{number_of};

/// Why a model's text is refused. The first six are faults of reading, which come before all others wherever they
/// stand; the rest are faults of what the statements say.
#[derive(Clone, Copy, Debug, PartialEq, Eq)]
pub enum ModelCode {
    /// The text is longer than its limit.
    TextTooLong,
    /// A byte is not allowed.
    BadByte,
    /// A line is longer than its limit.
    LongLine,
    /// The first token of a line is no word that begins a statement.
    UnknownStatement,
    /// The tokens are not of the statement's form, or a reserved word names a part or a variable.
    Form,
    /// A number is outside its limits.
    NumberOutOfRange,
    /// A new name is in use, a value stands twice in its domain, or a value of a control is priced twice.
    NameInUse,
    /// A name is not known.
    UnknownName,
    /// The right side of an equation doesn't fit its left side, or a price its control.
    NoFit,
    /// The statement stands in the wrong place.
    Misplaced,
    /// A type ends without a mode, or the text before a type does.
    NotEnded,
    /// The statement passes a limit of the model.
    LimitPassed,
    /// Parentheses or operators nest too deep.
    TooDeep,
    /// A formula gives too many clauses.
    TooManyClauses,
    /// The text has no part.
    NoPart,
}

impl ModelCode {
    /// The number behind the `M` in the line that tells it.
    pub fn number(self) -> u32
        ensures { result ≡ number_of self }
    {
        match self {
            ModelCode::TextTooLong => 1,
            ModelCode::BadByte => 2,
            ModelCode::LongLine => 3,
            ModelCode::UnknownStatement => 4,
            ModelCode::Form => 5,
            ModelCode::NumberOutOfRange => 6,
            ModelCode::NameInUse => 7,
            ModelCode::UnknownName => 8,
            ModelCode::NoFit => 9,
            ModelCode::Misplaced => 10,
            ModelCode::NotEnded => 11,
            ModelCode::LimitPassed => 12,
            ModelCode::TooDeep => 13,
            ModelCode::TooManyClauses => 14,
            ModelCode::NoPart => 15,
        }
    }
}
