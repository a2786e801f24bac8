//! What holds of every text. The function does nothing; its clause is the law.
#![tactic(auto)]

ghost use Rattle.lv_reader.specs.Laws.{ReadingIsOne};

/// Bytes read as one text or have one fault, and never both.
pub fn reading_is_one()
    ensures { ReadingIsOne }
{}
