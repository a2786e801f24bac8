//! The laws of recoveries. The functions do nothing; their clauses are the laws, and a caller that needs one calls it.
#![tactic(auto)]

ghost use Rattle.lv_meaning.specs.RecoveryLaws.{CommandSetsAreAll, RecoversReads, ReachesParts, CommandReasonIsSound, RecoveryWalkIsExact};
ghost use Rattle.lv_meaning.specs.WorkedRecovery.{RecoveryExample};

/// Listed as command sets are exactly the ranks that have a value for each control, the sum of their prices and no
/// tracked state, in strictly rising order.
pub fn command_sets_are_all()
    ensures { CommandSetsAreAll }
{}

/// A command set recovers exactly where, from every tracked state, there is a nominal step under it and every such step
/// ends with all goals true.
pub fn recovers_reads()
    ensures { RecoversReads }
{}

/// Values that reach the goals from a state do so where some of them are left free.
pub fn reaches_parts()
    ensures { ReachesParts }
{}

/// The reason of a command set that doesn't recover is a part of it and of none that recovers. Where from its state no
/// step reaches the goals, none of its values can be left free.
pub fn command_reason_is_sound()
    ensures { CommandReasonIsSound }
{}

/// A settled walk of a recovery lists the first command set that recovers, and nothing exactly where none does; with a
/// trial for each command set it is settled.
pub fn recovery_walk_is_exact()
    ensures { RecoveryWalkIsExact }
{}

/// A worked example: a closed valve is commanded to open, and where it may be stuck nothing recovers.
pub fn recovery_example()
    ensures { RecoveryExample }
{}
