//! What holds of the moves of a well-formed plant. The function does nothing; its clause is the law.
#![tactic(auto)]

ghost use Rattle.lv_model.specs.Laws.{MovesFromAreTheModes};

/// The moves that `Model::moves_from` names are exactly those that go from the mode.
pub fn moves_from_are_the_modes()
    ensures { MovesFromAreTheModes }
{}
