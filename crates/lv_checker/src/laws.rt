//! What holds of every text. The functions do nothing; their clauses are the laws.
#![tactic(auto)]

ghost use Rattle.lv_checker.specs.Verdicts.{VerdictIsOne, ReadingsGiveVerdict, AcceptedIsWellFormed};
ghost use Rattle.lv_checker.specs.VersionOne.{VersionOneIsKept};
ghost use Rattle.lv_checker.specs.Caches.{CountsAreKept};
ghost use Rattle.lv_checker.specs.Laws.{SeriesAreAccepted, VerdictExists};

/// A text has at most one verdict.
pub fn verdict_is_one()
    ensures { VerdictIsOne }
{}

/// Spaces between tokens, comments, how a line ends and whether the last line does change nothing: texts whose lines
/// read alike, line by line, have the same verdict.
pub fn readings_give_verdict()
    ensures { ReadingsGiveVerdict }
{}

/// The plant of an accepted text is well formed: what is asked of each statement leaves nothing to ask of the whole.
pub fn accepted_is_well_formed()
    ensures { AcceptedIsWellFormed }
{}

/// In a text of the first version each line gives one formula or one move, and the number of a step or fault is that of
/// the moves before it that are no stays, and 1.
pub fn version_one_is_kept()
    ensures { VersionOneIsKept }
{}

/// What is kept beside the plant while statements come, its ranges, sizes, shares and clauses, is what is counted of the plant
/// of the statements so far.
pub fn counts_are_kept()
    ensures { CountsAreKept }
{}

/// Every bytes have a verdict as a model's text, and just one (`verdict_is_one`): a plant, or the code and the line of the
/// first fault.
pub fn verdict_exists()
    ensures { VerdictExists }
{}

/// Each model's text that is made for a number is accepted: of the rows of 2 to 32 valves each was judged.
pub fn series_are_accepted()
    ensures { SeriesAreAccepted }
{}
