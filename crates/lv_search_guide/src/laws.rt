//! Laws of the member that ranks first: they hold of every grid, zone and list of conflicts.
#![tactic(auto)]

ghost use Rattle.lv_search_guide.specs.Free.{LeastFreeIsOne};

/// The member that ranks first among those that contain no conflict is one alone, and there is none only where every
/// member contains some conflict.
pub fn least_free_is_one()
    ensures { LeastFreeIsOne }
{}
