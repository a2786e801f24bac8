//! What is named keeps to what variables range over. The functions do nothing; their clauses are the laws.
#![tactic(auto)]

ghost use Rattle.lv_model_names.specs.Laws.{NamedValueFits, GoalFits, ValueIsBelow, VariableHasValue};

/// A value that a name stands for is one that its variable has.
pub fn named_value_fits()
    ensures { NamedValueFits }
{}

/// A goal whose names stand for something fitting fits the plant's variables.
pub fn goal_fits()
    ensures { GoalFits }
{}

/// A value that a variable has is below the number of its values.
pub fn value_is_below()
    ensures { ValueIsBelow }
{}

/// Each variable of a well-formed plant has a value.
pub fn variable_has_value()
    ensures { VariableHasValue }
{}
