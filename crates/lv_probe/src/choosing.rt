//! The observable that is best looked at: what is seen of it leaves fewer candidates at most than what is seen of another.
#![tactic(auto)]

ghost use Rattle.std.specs.Prelude.{◌≡◌};
ghost use Rattle.std.specs.List.{list_all, find};
ghost use Rattle.std.specs.Option.{option_copied};
ghost use Rattle.lv_reply.specs.declared.probes.Probed.{Probed as ProbedOf};
ghost use Rattle.std.specs.Prelude.{nat_le};
ghost use Rattle.lv_probe.specs.Probing.{largest, is_best, best};

use lv_base::VarId;
use lv_reply::Probed;

/// The largest of the numbers, 0 where there are none.
fn largest(numbers: &[u64]) -> u64
    ensures { result ≡ largest numbers.now }
{
    let mut most = 0;
    for n in numbers {
        if most < *n {
            most = *n;
        }
    }
    most
}

/// Whether at most so many or more are left of each.
fn at_least(most: u64, observables: &[Probed]) -> bool
    ensures { result ≡ list_all (λ (q : ProbedOf). nat_le most (largest q.numbers)) observables.now }
{
    observables
        .iter()
        .all(|other| most <= largest(other.numbers.as_slice()))
}

/// Whether fewer are left than are listed, whatever is seen of the observable, and of none fewer at most.
fn is_best(listed: u64, observables: &[Probed], probed: &Probed) -> bool
    ensures { result ≡ is_best listed observables.now probed.now }
{
    let most = largest(probed.numbers.as_slice());
    most < listed && at_least(most, observables)
}

/// The first observable that is best.
fn first_best(listed: u64, observables: &[Probed]) -> Option<&Probed>
    ensures { option_copied result ≡ find (is_best listed observables.now) observables.now }
{
    observables
        .iter()
        .find(|probed| is_best(listed, observables, probed))
}

/// The observable that is best looked at, where so many candidates are listed: none exactly where of each all of them may be
/// left. Takes no memory.
pub fn best(listed: u64, observables: &[Probed]) -> Option<VarId>
    ensures { result ≡ best listed observables.now }
{
    match first_best(listed, observables) {
        Some(probed) => Some(probed.var),
        None => None,
    }
}
