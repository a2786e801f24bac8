//! The laws of tests and windows. The functions do nothing; their clauses are the laws, and a caller that needs one calls it.
#![tactic(auto)]

ghost use Rattle.lv_session_state.specs.TestLaws.{TestsRead, TestWalkIsExact};
ghost use Rattle.lv_session_state.specs.WindowLaws.{WindowWalkIsExact, WindowsAreAsLong};

/// A command set tests a variable exactly where, from every tracked state, there is a nominal step under it, and after
/// such steps from two different tracked states the variable never has one value.
pub fn tests_read()
    ensures { TestsRead }
{}

/// A settled walk of a test lists the first command set that tests the variable, and nothing exactly where none does; with
/// a trial for each command set it is settled.
pub fn test_walk_is_exact()
    ensures { TestWalkIsExact }
{}

/// A settled window lists the first trajectories of its steps that are possible. Where listed candidates may lead to one
/// state, a window of one step comes to what a diagnosis comes to.
pub fn window_walk_is_exact()
    ensures { WindowWalkIsExact }
{}

/// As many steps as a line can ask for are kept, and as many are compiled.
pub fn windows_are_as_long()
    ensures { WindowsAreAsLong }
{}
