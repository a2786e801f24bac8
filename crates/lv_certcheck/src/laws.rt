//! What holds of verdicts whatever the bytes. The functions do nothing: their contracts are the laws, which callers above cite by
//! calling them.
#![tactic(auto)]

ghost use Rattle.lv_certcheck.specs.Verdicts.{VerdictExists, VerdictIsOne};

/// Over a model every bytes have a verdict as a certificate: so a check that lacks no memory tells one.
pub fn verdict_exists()
    ensures { VerdictExists }
{}

/// And they have just one.
pub fn verdict_is_one()
    ensures { VerdictIsOne }
{}
