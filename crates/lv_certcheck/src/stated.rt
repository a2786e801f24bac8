//! What a certificate states so far.
#![tactic(auto)]

ghost use Rattle.std.specs.Prelude.{◌≡◌, ◌++◌, OnOk};
ghost use Rattle.lv_certcheck.specs.Stating.{observed};
ghost use Rattle.lv_cert_laws.specs.lv_cert_meaning.Stated as Stating;

use lv_base::{Condition, Lit, Seq, ValId};
use lv_cert::Moment;
use lv_meaning::{Facts, Observation};
use lv_model::TrackedState;
use std::alloc::{AllocError, Global};
use std::marker::Model;

/// The limit of a diagnosis, and whether it asks for distinct targets; the tracked states, what was commanded and seen, the
/// same as literals in the order in which it is stated, and the goals of a recovery.
#[derive(Drop)]
pub struct Stated {
    pub k: u32,
    pub distinct: bool,
    pub tracked: Vec<TrackedState>,
    pub facts: Facts,
    pub literals: Vec<Lit>,
    pub goals: Vec<Condition>,
}

impl Model for Stated {
    ghost use Rattle.lv_cert_laws.specs.lv_cert_meaning.Stated.{Stated};
    ghost use Rattle.std.specs.Coded.{codes};
    ghost use Rattle.lv_base.specs.contracts.formula.Condition as condition;

    ghost Value = { Stated };

    ghost coded = { Prim.hlevel (codes, condition.the_row.coded) };

    ghost view = { λ s. record { k = s.k; distinct = s.distinct; tracked = s.tracked.items; facts = s.facts; literals = s.literals.items; goals = s.goals.items } };
}

impl Stated {
    /// Nothing but a limit.
    pub fn new(alloc: Global, k: u32) -> Stated
        ensures { result ≡ Stating.nothing_stated k }
    {
        Stated {
            k,
            distinct: false,
            tracked: Vec::new(alloc),
            facts: Facts {
                controls: Seq::new(alloc),
                present: Seq::new(alloc),
                next: Seq::new(alloc),
            },
            literals: Vec::new(alloc),
            goals: Vec::new(alloc),
        }
    }

    pub fn push_state(&mut self, state: TrackedState) -> Result<(), AllocError>
        ensures { OnOk result (self.new ≡ Stating.with_state self.old state) }
    {
        self.tracked.push(state)?;
        Ok(())
    }

    pub fn push_goal(&mut self, goal: Condition) -> Result<(), AllocError>
        ensures { OnOk result (self.new ≡ Stating.with_goal self.old goal) }
    {
        self.goals.push(goal)?;
        Ok(())
    }

    /// States the values of the controls, which these literals say.
    pub fn set_controls(&mut self, values: Vec<ValId>, lits: &[Lit]) -> Result<(), AllocError>
        ensures { OnOk result (self.new ≡ record self.old { facts = record self.old.facts { controls = values.items }; literals = self.old.literals ++ lits.now }) }
    {
        self.literals.extend_from_slice(lits)?;
        self.facts.controls = Seq::from_vec(values);
        Ok(())
    }

    /// States an observation, which this literal says.
    pub fn push_observation(
        &mut self,
        moment: Moment,
        o: Observation,
        lit: Lit,
    ) -> Result<(), AllocError>
        ensures { OnOk result (self.new ≡ observed moment self.old o lit) }
    {
        match moment {
            Moment::Now => self.facts.present.push(o)?,
            Moment::Next => self.facts.next.push(o)?,
        }
        self.literals.push(lit)?;
        Ok(())
    }
}
