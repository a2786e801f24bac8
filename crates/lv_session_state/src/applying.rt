//! The values that the current recovery gives the controls, and the controls commanded to values.
#![tactic(auto)]

ghost use Rattle.std.specs.Prelude.{◌≡◌, IfOk, map};
ghost use Rattle.std.specs.Option.{option_copied};
ghost use Rattle.lv_meaning.specs.Possible.{value};
ghost use Rattle.lv_session_state.specs.Applying.{first_values, values_found, recovery_values};
ghost use Rattle.lv_session_state.specs.Current.{kept_walk, IsCurrent};
ghost use Rattle.lv_session_state.specs.declared.query.Query.TheVariants.{Absent};

use crate::query::Query;
use crate::running::Running;
use crate::state::State;
use lv_base::{Rank, ValId};
use lv_boxes::Outcome;
use lv_model::Model;
use std::alloc::{AllocError, Global};

/// The values of the first command set listed, if there is one.
fn first_values(listed: &[Rank]) -> Option<&[u32]>
    ensures { option_copied result ≡ first_values listed.now }
{
    Some(listed.first()?.choices.as_slice())
}

/// The values that a recovery that has run gives the controls, if it is settled and found some.
fn values_found<'r>(run: &'r Running<'_>) -> Option<&'r [u32]>
    ensures { option_copied result ≡ values_found (kept_walk run.now) }
{
    match run.outcome() {
        Outcome::Settled => first_values(run.listed()),
        Outcome::Unsettled => None,
    }
}

/// Values of these numbers.
pub fn values_of(alloc: Global, numbers: &[u32]) -> Result<Vec<ValId>, AllocError>
    ensures { IfOk result (λ values. values.items ≡ map value numbers.now) }
{
    numbers.iter().map(|number| ValId(*number)).collect(alloc)
}

impl State {
    /// The values that the current recovery gives the controls, if one is current that is settled and found some.
    pub fn recovery_values<'r>(&self, model: &Model, running: &'r Running<'_>) -> Option<&'r [u32]>
        requires { IsCurrent model.now self.now running.now }
        ensures { option_copied result ≡ recovery_values self.now.query model.now self.now }
    {
        match self.query {
            Query::Recovery(_) => values_found(running),
            Query::Absent => None,
            Query::Diagnosis(_) => None,
            Query::Test(_, _) => None,
            Query::Window(_, _) => None,
        }
    }

    /// Commands the controls to these values; no query is current any more.
    pub fn command_all(&mut self, values: Vec<ValId>)
        ensures { self.new ≡ record self.old { controls = values.items; query = Absent } }
    {
        self.controls = values;
        self.query = Query::Absent;
    }
}
