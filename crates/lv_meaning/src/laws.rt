//! Laws of diagnoses: what the definitions of possible choices, of candidates and of their walk say in the subject's own
//! words.
//!
//! Each function does nothing: its contract is the law, which callers above cite by calling it.
#![tactic(auto)]

ghost use Rattle.lv_meaning.specs.PossibleLaws.{PossibleReads, PossibleParts};
ghost use Rattle.lv_meaning.specs.CandidateLaws.{CandidatesRise, CandidatesAreAll, AnswerIsFirst, AnswerIsOne};
ghost use Rattle.lv_meaning.specs.DiagnosisLaws.{ReasonIsMinimal, DiagnosisWalkIsExact};
ghost use Rattle.lv_meaning.specs.WorkedValve.{ValveExample};

/// A partial choice is possible exactly where there are a value for each variable before the step, one for each
/// after it and a move for each part, all in range, that make a step, meet the facts and have the chosen moves.
pub fn possible_reads()
    ensures { PossibleReads }
{}

/// What is left of a possible partial choice where pairs are left out, in any order, is possible.
pub fn possible_parts()
    ensures { PossibleParts }
{}

/// The candidates are listed in strictly rising order of rank: by cost, then the tracked state's place, then the
/// moves part by part. So none is listed twice.
pub fn candidates_rise()
    ensures { CandidatesRise }
{}

/// Listed are exactly the ranks that have a tracked state at their source's place, one move for each part from the
/// part's mode in that state, and the cost of the state and of the moves together.
pub fn candidates_are_all()
    ensures { CandidatesAreAll }
{}

/// The answer of a diagnosis has at most `k` candidates, all possible, in rising order. Every other possible candidate
/// ranks after all of them, and there is no other where the answer has fewer than `k`.
pub fn answer_is_first()
    ensures { AnswerIsFirst }
{}

/// No other list is such an answer: what `answer_is_first` says determines it.
pub fn answer_is_one()
    ensures { AnswerIsOne }
{}

/// The reason of an impossible candidate isn't possible, is a part of that candidate and of no possible one, and none of
/// its choices can be left out.
pub fn reason_is_minimal()
    ensures { ReasonIsMinimal }
{}

/// A settled walk of a diagnosis lists the first `k` candidates that are possible, or all if fewer are; with the flag,
/// only such of them as lead to a state to which no possible one before them leads. With a trial for each candidate it is
/// settled.
pub fn diagnosis_walk_is_exact()
    ensures { DiagnosisWalkIsExact }
{}

/// A worked example: a closed valve may open at the command to, stay closed without it, or get stuck; a look at its flow
/// tells which of these is possible.
pub fn valve_example()
    ensures { ValveExample }
{}
