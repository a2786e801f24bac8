//! What holds of steps and transcripts. The functions do nothing; their clauses are the laws.
#![tactic(auto)]

ghost use Rattle.lv_session.specs.Laws.{TranscriptIsOne, RefusedLineChangesNothing, NoQuerySurvivesAChange, MoreIsTheSum, SlicesAreTheSum, StatesStayStates, CertificateChangesNothing, EndedIsSilent, NumbersAreListed, OneStepReadsAsADiagnosis};
ghost use Rattle.lv_session.specs.Answers.{SettledAnswersAreFirst};

/// Where no certificate is told, a session has exactly one transcript.
pub fn transcript_is_one()
    ensures { TranscriptIsOne }
{}

/// A refused line leaves the whole state as it was, the current query included.
pub fn refused_line_changes_nothing()
    ensures { RefusedLineChangesNothing }
{}

/// What would change the answer of a query takes the query away.
pub fn no_query_survives_a_change()
    ensures { NoQuerySurvivesAChange }
{}

/// A diagnosis that goes on is the diagnosis with the sum of all its trials.
pub fn more_is_the_sum()
    ensures { MoreIsTheSum }
{}

/// The same of any number of slices: the query is that of the sum of all its trials, and nothing else has changed.
pub fn slices_are_the_sum()
    ensures { SlicesAreTheSum }
{}

/// Whatever lines come, what a session holds are modes and values of its plant, no state costs more than its steps can, and
/// each list and number is within its limits.
pub fn states_stay_states()
    ensures { StatesStayStates }
{}

/// A certificate is told of a settled query alone, and changes nothing.
pub fn certificate_changes_nothing()
    ensures { CertificateChangesNothing }
{}

/// In an ended session a line gets no reply and changes nothing.
pub fn ended_is_silent()
    ensures { EndedIsSilent }
{}

/// Each settled diagnosis of every transcript lists the first k candidates of the tracked states that are possible under
/// the facts, in the order of their ranks, or all if fewer are; each settled recovery is the first command set that takes
/// every tracked state nominally to the goals, and `no recovery` is told exactly where none does; each settled test is the
/// first command set that tests the observable from the tracked states, and `no test` is told exactly where none does;
/// each settled window lists the first k trajectories of its steps that are possible with what is held of their times.
pub fn settled_answers_are_first()
    ensures { SettledAnswersAreFirst }
{}

/// Where a settled diagnosis lists fewer candidates than it might, the number that a probe tells of a value is how many a
/// settled diagnosis lists once an observation of that value is held.
pub fn numbers_are_listed()
    ensures { NumbersAreListed }
{}

/// Where listed candidates may lead to one state, a window of one step replies as a diagnosis does.
pub fn one_step_reads_as_a_diagnosis()
    ensures { OneStepReadsAsADiagnosis }
{}
