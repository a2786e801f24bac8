//! How a run comes out where no fault ends it, and how a call of the program ends: one status, with its number.

ghost use Rattle.std.specs.Prelude.{◌≡◌};
ghost use Rattle.lv_run.specs.Statuses.{code_of, status_ended};

/// How a run that no fault ended came out.
#[derive(Clone, Copy, Debug, PartialEq, Eq)]
pub enum Ended {
    /// What the words ask for was done. A certificate that was checked is valid.
    Done,
    /// The certificate that was checked is not valid.
    Invalid,
}

/// How a call of the program ended.
#[derive(Clone, Copy, Debug, PartialEq, Eq)]
pub enum Status {
    /// What the words ask for was done.
    Done,
    /// The words ask for nothing that the program does.
    WordsRefused,
    /// The model's bytes are no model that is accepted.
    ModelRefused,
    /// The model's file could not be opened or read.
    ModelUnread,
    /// The second file, the session's or the certificate's, could not be opened or read.
    SecondUnread,
    /// Standard output or standard error could not be written or flushed.
    OutputFailed,
    /// The session or the certificate is longer than its limit.
    SecondTooLong,
    /// Memory was wanting.
    OutOfMemory,
    /// The certificate is not valid.
    Invalid,
}

impl Ended {
    /// The status that a call ends with.
    pub fn status(self) -> Status
        ensures { result ≡ status_ended self }
    {
        match self {
            Ended::Done => Status::Done,
            Ended::Invalid => Status::Invalid,
        }
    }
}

impl Status {
    /// The exit status of the process.
    pub fn code(self) -> u8
        ensures { result ≡ code_of self }
    {
        match self {
            Status::Done => 0,
            Status::WordsRefused => 2,
            Status::ModelRefused => 3,
            Status::ModelUnread => 4,
            Status::SecondUnread => 5,
            Status::OutputFailed => 6,
            Status::SecondTooLong => 7,
            Status::OutOfMemory => 8,
            Status::Invalid => 9,
        }
    }
}
