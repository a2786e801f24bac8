//! What holds of the parts of a call together. The functions do nothing; their clauses are the laws.

ghost use Rattle.lv_run.specs.Drives.{RepliesAreTranscript};
ghost use Rattle.lv_run.specs.Fronts.{CountsAreOfFronts};
ghost use Rattle.lv_run.specs.OfLanes.{RepliesAreWhole};
ghost use Rattle.lv_run.specs.Printed.{PrintedCertificateIsValid};

/// Whatever a session prints as a certificate, a check over the same model calls valid.
pub fn printed_certificate_is_valid()
    ensures { PrintedCertificateIsValid }
{}

/// Whatever a session replies to a line, a certificate too, is empty or ends with a line feed.
pub fn replies_are_whole()
    ensures { RepliesAreWhole }
{}

/// The texts of the replies that are counted, one behind the other, are the session's transcript, where none is a
/// certificate. So they are for each session that a number stands for.
pub fn replies_are_transcript()
    ensures { RepliesAreTranscript }
{}

/// Each count is of the replies whose text begins with its word: `error`, `settled`, `unsettled`; trials are added where the
/// text begins with `conflicts`; and a reply is counted where it is one, which each is that has a text.
pub fn counts_are_of_fronts()
    ensures { CountsAreOfFronts }
{}
