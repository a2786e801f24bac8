//! What holds of formulas that fit. The functions do nothing; their clauses are the laws.
#![tactic(auto)]

ghost use Rattle.lv_base.specs.FitLaws.{FitsReads, FitsWider, FitsFurther, FitsGrown};

/// A formula that fits ranges reads their variables alone, wherever these are counted from.
pub fn fits_reads()
    ensures { FitsReads }
{}

/// A formula that fits ranges fits wider ones: each of the same sort and with at least as many values, and further ones
/// behind them.
pub fn fits_wider()
    ensures { FitsWider }
{}

/// A formula that fits ranges fits them with further ones behind.
pub fn fits_further()
    ensures { FitsFurther }
{}

/// A formula that fits ranges fits them where one of them has more values.
pub fn fits_grown()
    ensures { FitsGrown }
{}
