//! Why a line is refused.

/// Why a line is refused. A refused line changes nothing.
#[derive(Clone, Copy, Debug, PartialEq, Eq)]
pub enum PlantFault {
    /// The line has too many bytes.
    LineTooLong,
    /// A byte of the line begins no token.
    ByteNotAllowed,
    /// It has none of the forms.
    NoForm,
    /// There is no such part, or its present mode has no such fault.
    NoFault,
    /// No step of the plant is so.
    NoStep,
    /// The plant is halted, or has made as many steps as it may.
    NoMore,
    /// No recovery is current that is settled and found one.
    NoRecovery,
}
