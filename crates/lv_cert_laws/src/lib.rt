//! That a valid certificate proves its answer, whoever wrote it, and that its lines stand as the tables of the format have
//! them (`specs/Tables`). The functions do nothing: their contracts are the laws, which callers above cite by calling them.
#![tactic(auto)]

ghost use Rattle.lv_cert_meaning.specs.Laws.{ValidDiagnosisProvesItsAnswer, ValidRecoveryProvesItsAnswer, ValidCertificateProvesItsAnswer, JudgedIsReadOff, ValidLinesAnswerRight, LeastRankIsOfLeastMember};
ghost use Rattle.lv_cert_laws.specs.Tables.{OrderIsOfTheTables};

/// What a valid certificate of a diagnosis lists are the first candidates that are possible.
pub fn valid_diagnosis_proves_its_answer()
    ensures { ValidDiagnosisProvesItsAnswer }
{}

/// What a valid certificate of a recovery gives is the first command set that recovers, and nothing exactly where none does.
pub fn valid_recovery_proves_its_answer()
    ensures { ValidRecoveryProvesItsAnswer }
{}

/// Both, so what a valid certificate gives is the answer, whoever wrote it.
pub fn valid_certificate_proves_its_answer()
    ensures { ValidCertificateProvesItsAnswer }
{}

/// What was judged of good lines states and answers what can be read off them.
pub fn judged_is_read_off()
    ensures { JudgedIsReadOff }
{}

/// So what a valid certificate proves can be told of its lines alone, and nobody need know how they are judged.
pub fn valid_lines_answer_right()
    ensures { ValidLinesAnswerRight }
{}

/// What has to rank behind the answer at the end of a certificate is the least member of each open zone.
pub fn least_rank_is_of_least_member()
    ensures { LeastRankIsOfLeastMember }
{}

/// Lines in the order of a certificate begin with `certificate` and end with `end`, and between these their rows of the tables rise:
/// no line stands behind one of a later row, and of some rows there is one line at most. Values stand right behind what they show,
/// and clauses behind what they refute, and nowhere else.
pub fn order_is_of_the_tables()
    ensures { OrderIsOfTheTables }
{}
