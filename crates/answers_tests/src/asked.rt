//! What is asked of a model. For all tests the model has one owner and its system has another, each with one exit, and a test
//! hears no more than whether the answer is right.
ghost use Rattle.lv_system.specs.System.{IsSystemOf};

use crate::diagnoses::{Diagnosis, Runs, Told, has_right_moves, is_diagnosed};
use crate::labels::{Row, are_right};
use crate::recoveries::{Recovery, recovers};
use lv_checker::model_of;
use lv_model::Model;
use lv_system::{StepSystem, compile};
use std::alloc::{AllocError, Global};

/// What is wanted of a model.
pub enum Asked {
    /// That what is told is diagnosed so.
    Diagnosis(Told, Runs, Diagnosis),
    /// That moves tried alone are possible or not.
    Moves(Told),
    /// That one row after the other is right, of the model without facts.
    Labels(&'static [Row]),
    /// That it is recovered so.
    Recovery(Recovery),
}

fn system_answers(
    alloc: Global,
    model: &Model,
    system: &StepSystem,
    asked: &Asked,
) -> Result<bool, AllocError>
    requires { IsSystemOf model.now system.now }
{
    match asked {
        Asked::Diagnosis(told, runs, wanted) => {
            is_diagnosed(alloc, model, system, told, runs, wanted)
        }
        Asked::Moves(told) => has_right_moves(alloc, model, system, told),
        Asked::Labels(rows) => are_right(alloc, model, system, *rows),
        Asked::Recovery(wanted) => recovers(alloc, model, system, wanted),
    }
}

fn model_answers(alloc: Global, model: &Model, asked: &Asked) -> Result<bool, AllocError> {
    let system = compile(alloc, model)?;
    let right = system_answers(alloc, model, &system, asked);
    drop(system);
    right
}

/// Whether the model of the text answers as it is to.
pub fn answers(alloc: Global, text: &[u8], asked: &Asked) -> Result<bool, AllocError> {
    match model_of(alloc, text) {
        Ok(model) => {
            let right = model_answers(alloc, &model, asked);
            drop(model);
            right
        }
        Err(_) => Ok(false),
    }
}
