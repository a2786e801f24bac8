//! A series of valves, solved with a random move assumed of each part.
#![tactic(auto)]

use super::setting::add;
use crate::literals::literal;
use crate::numbers::Numbers;
use lv_base::Lit;
use lv_checker::model_of;
use lv_clauses::ClauseSet;
use lv_compile::plant_clauses::{copies_of, model_clauses};
use lv_gen::make_model;
use lv_model::{Model, Plant};
use lv_sat::Solver;
use std::alloc::{AllocError, Global};

/// The seed of the moves.
const MOVE_SEED: u64 = 2;

/// The clauses of a model, the boolean of the first part's first move, and how many moves each part has.
#[derive(Drop)]
pub struct Valves {
    pub solver: Solver,
    first_choice: u32,
    moves: Vec<u32>,
    numbers: Numbers,
}

impl Valves {
    /// The model of valves of this number; None where its text is no model.
    pub fn new(alloc: Global, n: u32) -> Result<Option<Valves>, AllocError> {
        let text = make_model(alloc, n)?;
        match model_of(alloc, text.as_slice()) {
            Ok(model) => Ok(Some(of_model(alloc, &model)?)),
            Err(_) => Ok(None),
        }
    }

    /// A random move of each part.
    pub fn draw(&mut self, alloc: Global) -> Result<Vec<Lit>, AllocError> {
        let mut lits = Vec::new(alloc);
        let mut start = self.first_choice;
        for count in &self.moves {
            let choice = self.numbers.below(u64::from((*count).max(1))) as u32;
            lits.push(literal(start.wrapping_add(choice), true))?;
            start = start.wrapping_add(*count);
        }
        Ok(lits)
    }

    /// Keeps the moves of the first parts, up to a random one, and draws those behind them anew.
    pub fn turn(&mut self, alloc: Global, lits: &mut Vec<Lit>) -> Result<(), AllocError> {
        let drawn = self.draw(alloc)?;
        lits.truncate(self.numbers.below((drawn.len() as u64).max(1)) as usize);
        for at in lits.len()..drawn.len() {
            lits.push(drawn[at])?;
        }
        Ok(())
    }
}

fn of_model(alloc: Global, model: &Model) -> Result<Valves, AllocError> {
    let first_choice = copies_of(alloc, model.plant())?.first_choice;
    let moves = moves_of(alloc, model.plant())?;
    let mut bools = first_choice;
    for count in &moves {
        bools = bools.saturating_add(*count);
    }
    let mut set = ClauseSet::new(alloc, bools)?;
    for clause in &model_clauses(alloc, model)? {
        add(&mut set, clause.as_slice())?;
    }
    Ok(Valves {
        solver: Solver::new(alloc, &set)?,
        first_choice,
        moves,
        numbers: Numbers::new(MOVE_SEED),
    })
}

/// How many moves each part has.
fn moves_of(alloc: Global, plant: &Plant) -> Result<Vec<u32>, AllocError> {
    let mut moves = Vec::new(alloc);
    for part in plant.parts.as_slice() {
        let count = match plant.types.as_slice().get(part.kind as usize) {
            Some(kind) => kind.moves.as_slice().len(),
            None => 0,
        };
        moves.push(u32::try_from(count).unwrap_or(0))?;
    }
    Ok(moves)
}
