//! A model's clauses, printed or counted.
#![tactic(auto)]

use lv_base::Lit;
use lv_model::Model;
use lv_system::{StepSystem, compile};
use std::alloc::{AllocError, Global};
use std::fmt::{self, Formatter, Write};

/// The literals of a clause as numbers from 1 on, each behind a space.
#[derive(Drop)]
struct Signed<'a> {
    lits: &'a [Lit],
}

impl<'a> fmt::Display for Signed<'a> {
    fn fmt<W: Write>(&self, f: &mut Formatter<W>) -> fmt::Result {
        for lit in self.lits {
            let number = i64::from(lit.var.0) + 1;
            write!(f, " {}", if lit.sign { number } else { -number })?;
        }
        Ok(())
    }
}

/// The clauses of a model, each behind its number.
pub fn list(alloc: Global, model: &Option<Model>) -> Result<String, AllocError> {
    match model {
        Some(model) => {
            let system = compile(alloc, model)?;
            list_system(alloc, &system)
        }
        None => String::from_str(alloc, "no model\n"),
    }
}

fn list_system(alloc: Global, system: &StepSystem) -> Result<String, AllocError> {
    let mut text = String::new(alloc);
    for n in 0..system.clause_total() {
        let lits = system.clauses().get(system.clause_id(n + 1));
        let line = format!(in alloc; "{}:{}\n", n + 1, Signed { lits })?;
        text.push_str(line.as_str())?;
    }
    Ok(text)
}

/// How many booleans, clauses and literals a model has, compiled in so many rounds.
pub fn tally_of(alloc: Global, model: &Option<Model>, rounds: u32) -> Result<String, AllocError> {
    match model {
        Some(model) if 0 < rounds => {
            for _round in 1..rounds {
                compile(alloc, model)?;
            }
            let system = compile(alloc, model)?;
            tally_system(alloc, &system)
        }
        Some(_) => String::from_str(alloc, "not compiled\n"),
        None => String::from_str(alloc, "no model\n"),
    }
}

fn tally_system(alloc: Global, system: &StepSystem) -> Result<String, AllocError> {
    let bools = system.clauses().bools();
    let clauses = system.clause_total();
    let literals = literals_of(system);
    format!(in alloc; "{bools} booleans, {clauses} clauses, {literals} literals\n")
}

/// How many literals the clauses have together.
fn literals_of(system: &StepSystem) -> u64 {
    let mut literals = 0u64;
    for n in 0..system.clause_total() {
        let lits = system.clauses().get(system.clause_id(n + 1));
        literals = literals.wrapping_add(lits.len() as u64);
    }
    literals
}

/// So many systems of a model held at once.
pub fn hold(alloc: Global, model: &Option<Model>, count: u32) -> Result<String, AllocError> {
    match model {
        Some(model) => hold_systems(alloc, model, count),
        None => String::from_str(alloc, "no model\n"),
    }
}

fn hold_systems(alloc: Global, model: &Model, count: u32) -> Result<String, AllocError> {
    let mut systems = Vec::new(alloc);
    add_systems(alloc, model, count, &mut systems)?;
    format!(in alloc; "{} systems\n", systems.len())
}

fn add_systems(
    alloc: Global,
    model: &Model,
    count: u32,
    systems: &mut Vec<StepSystem>,
) -> Result<(), AllocError> {
    for _system in 0..count {
        systems.push(compile(alloc, model)?)?;
    }
    Ok(())
}
