//! Which calls on an object in memory fail.

ghost use Rattle.std.specs.Prelude.{◌≡◌, nat_eq};
ghost use Rattle.std.specs.List.{list_any};
ghost use Rattle.lv_io.specs.Plan.{after_call, next_fails};

use std::marker::Model;

/// Which calls fail, by their numbers from 1.
#[derive(Drop)]
pub struct FaultPlan {
    calls: u64,
    fails: Vec<u64>,
}

impl Model for FaultPlan {
    ghost use Rattle.lv_io.specs.Plan.{Plan};

    ghost Value = { Plan };

    ghost view = { λ plan. record { calls = plan.calls; fails = plan.fails.items } };
}

impl FaultPlan {
    pub fn new(fails: Vec<u64>) -> FaultPlan
        ensures { result ≡ record { calls = 0; fails = fails.items } }
    {
        FaultPlan { calls: 0, fails }
    }

    /// Counts one more call, and answers whether it is to fail.
    pub fn count_call(&mut self) -> bool
        ensures answer { result ≡ next_fails self.old }
        ensures counted { self.new ≡ after_call self.old }
    {
        self.calls = self.calls.saturating_add(1);
        is_listed(self.fails.as_slice(), self.calls)
    }
}

fn is_listed(numbers: &[u64], number: u64) -> bool
    ensures { result ≡ list_any (λ n. nat_eq n number) numbers.now }
{
    numbers.iter().any(|&n| n == number)
}
