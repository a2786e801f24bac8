//! The model: a plant that is well formed, which its type keeps.
#![tactic(auto)]

ghost use Rattle.std.specs.Prelude.{◌≡◌, IsTrue, All, length, ◌≤◌};
ghost use Rattle.lv_base.specs.declared.limits.TheConstants.{PARTS, VARIABLES};
ghost use Rattle.lv_model.specs.WellFormed.{is_well_formed, Reads, PartReads, PartEnds, TypeIsSmall};
ghost use Rattle.lv_model.specs.Lists.{variable_count};

use crate::plant::Plant;
use std::marker;

/// A plant that is well formed, seen by clauses as the plant.
#[derive(Debug, Drop)]
pub struct Model {
    plant: Plant,
}

impl marker::Model for Model {
    ghost use Rattle.std.specs.Prelude.{IsTrue};
    ghost use Rattle.lv_model.specs.declared.plant.Plant.{Plant};
    ghost use Rattle.lv_model.specs.WellFormed.{is_well_formed};
    ghost use Rattle.std.specs.Coded.{codes};
    ghost use Rattle.lv_base.specs.contracts.formula.Condition as condition;

    ghost Value = { Plant };

    ghost coded = { Prim.hlevel (codes, condition.the_row.coded) };

    ghost view = { λ m. m.plant };

    ghost invariant = { λ m. IsTrue (is_well_formed m.plant) };
}

impl Model {
    /// The model of a plant that is known to be well formed.
    pub fn of_well_formed(plant: Plant) -> Model
        requires { IsTrue (is_well_formed plant) }
        ensures { result ≡ plant }
    {
        Model { plant }
    }

    /// The plant's lists.
    pub fn plant(&self) -> &Plant
        ensures plant { result.now ≡ self.now }
        ensures well_formed { IsTrue (is_well_formed result.now) }
        ensures parts { All (PartReads (variable_count result.now) result.now.types) result.now.parts }
        ensures types { All TypeIsSmall result.now.types }
        ensures count { length result.now.parts ≤ PARTS }
        ensures ends { All (PartEnds (variable_count result.now) result.now.types) result.now.parts }
        ensures few { variable_count result.now ≤ VARIABLES }
        ensures laws { All (Reads (variable_count result.now) 0) result.now.laws }
    {
        &self.plant
    }
}
