//! Why a line is refused.

/// Why a line is refused. A refused line changes nothing.
#[derive(Clone, Copy, Debug, PartialEq, Eq)]
pub enum LaneFault {
    /// The line is longer than a line may be, whatever it holds.
    LongLine,
    /// It has neither form.
    NoForm,
    /// There is no lane for it: the name is longer than a name may be, or it would be one lane too many.
    NoLane,
    /// A turn gives at least one trial, and no more than may be asked for at once.
    OutOfLimits,
}
