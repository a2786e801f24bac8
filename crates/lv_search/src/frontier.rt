//! What is left to try, as a search sees it: the candidates left in the order of their ranks, of which only the first is
//! ever looked at. All that the search itself is proved by is this contract.
#![tactic(auto)]

ghost use Rattle.std.specs.Prelude.{◌≡◌, ◌≢◌, List, [], drop, slice_get, IfOk, IfSome};
ghost use Rattle.std.specs.Option.{option_copied};
ghost use Rattle.lv_base.specs.declared.rank.Rank.{Rank};
ghost use Rattle.lv_search.specs.Frontier.{FirstContains, Thins, LeavesOut};

use lv_base::{Conflict, Rank};
use lv_boxes::Groups;
use std::alloc::AllocError;

/// The candidates left. After want of memory a frontier is only dropped.
pub trait Frontier {
    ghost left: { Self → List Rank };

    /// The first of what is left. Takes no memory.
    fn first(&self) -> Option<&Rank>
        ensures { option_copied result ≡ slice_get (left self.now) 0 };

    /// Leaves out the first, which was listed.
    fn drop_first(&mut self) -> Result<(), AllocError>
        requires { left self.old ≢ [] }
        ensures { IfOk result (λ _. left self.new ≡ drop 1 (left self.old)) };

    /// Leaves out the first, which contains the kept conflict, and maybe others that contain it.
    fn split_first(&mut self, conflict: &Conflict) -> Result<(), AllocError>
        requires { FirstContains conflict.now (left self.old) }
        ensures { IfOk result (λ _. Thins conflict.now (left self.old) (left self.new)) };

    /// Leaves out the first, which has the target of a listed candidate, and maybe others that have it.
    fn drop_alike(&mut self, groups: &Groups) -> Result<(), AllocError>
        requires { left self.old ≢ [] }
        ensures { IfOk result (λ _. LeavesOut groups.now (left self.old) (left self.new)) };
}
