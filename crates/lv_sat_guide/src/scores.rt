//! A score for each boolean, which rises with each conflict that rests on it and counts the less the longer that was ago,
//! and a heap in which the boolean with the highest score comes first.
#![tactic(auto)]

use super::queue::is_free;
use lv_base::BoolId;
use std::alloc::{AllocError, Global};

/// What a conflict adds to a score at first.
const FIRST_STEP: u64 = 1 << 10;

/// A score above this makes all scores smaller, by as many bits as stand here.
const HIGHEST_SCORE: u64 = 1 << 60;

const BITS_LESS: u32 = 40;

/// With each conflict the step grows by this share of it.
const SHARE: u64 = 20;

/// No path through the heap is longer than a number has bits.
const DEPTH: u32 = 64;

/// A boolean's score, and its place in the heap if it is there.
#[derive(Clone, Copy, Debug)]
struct Standing {
    score: u64,
    place: Option<u32>,
}

/// Before any conflict there are no scores.
const UNSCORED: Standing = Standing {
    score: 0,
    place: None,
};

/// In the heap none has a higher score than the one above it, whose place is half of its own.
#[derive(Drop)]
pub struct Scores {
    bools: u32,
    standings: Vec<Standing>,
    heap: Vec<BoolId>,
    step: u64,
}

impl Scores {
    /// Of so many booleans, none of them in the heap.
    pub fn new(alloc: Global, bools: u32) -> Scores {
        Scores {
            bools,
            standings: Vec::new(alloc),
            heap: Vec::new(alloc),
            step: FIRST_STEP,
        }
    }

    /// Has a score for each boolean, as far as memory suffices.
    fn prepare(&mut self) {
        if self.standings.is_empty() {
            match self.standings.resize(self.bools as usize, UNSCORED) {
                Ok(()) | Err(_) => {}
            }
        }
    }

    /// Has all booleans in the heap.
    pub fn fill(&mut self) {
        self.prepare();
        for var in 0..self.bools {
            self.put_back(BoolId(var));
        }
    }

    /// Takes all booleans out of the heap.
    pub fn clear(&mut self) {
        for _ in 0..self.heap.len() {
            if let Some(var) = self.heap.pop() {
                self.set_place(var, None);
            }
        }
    }

    /// Takes the first booleans out until one isn't marked; None where none is.
    pub fn next(&mut self, marks: &[Option<bool>]) -> Option<BoolId> {
        for _ in 0..self.heap.len() {
            let var = self.take_first()?;
            if is_free(marks, var) {
                return Some(var);
            }
        }
        None
    }

    /// Has a boolean in the heap.
    pub fn put_back(&mut self, var: BoolId) {
        if let Some(standing) = self.standing(var)
            && standing.place.is_none()
        {
            self.insert(var);
        }
    }

    /// Raises a boolean's score.
    pub fn touch(&mut self, var: BoolId) {
        self.prepare();
        let step = self.step;
        if let Some(standing) = self.standings.get_mut(var.0 as usize) {
            standing.score = standing.score.wrapping_add(step);
            let (score, place) = (standing.score, standing.place);
            if let Some(place) = place {
                self.rise(var, place as usize);
            }
            if score > HIGHEST_SCORE {
                self.lower_all();
            }
        }
    }

    /// Lets what was touched so far count less.
    pub fn age(&mut self) {
        self.step = self.step.wrapping_add(self.step / SHARE);
        if self.step > HIGHEST_SCORE {
            self.lower_all();
        }
    }

    fn lower_all(&mut self) {
        for standing in &mut self.standings {
            standing.score >>= BITS_LESS;
        }
        self.step = (self.step >> BITS_LESS).max(1);
    }

    fn standing(&self, var: BoolId) -> Option<Standing> {
        self.standings.get(var.0 as usize).copied()
    }

    fn score_of(&self, var: BoolId) -> u64 {
        match self.standing(var) {
            Some(standing) => standing.score,
            None => 0,
        }
    }

    /// Puts a boolean at a place of the heap.
    fn put(&mut self, var: BoolId, place: usize) {
        if let Some(slot) = self.heap.get_mut(place) {
            *slot = var;
        }
        self.set_place(var, Some(place));
    }

    fn set_place(&mut self, var: BoolId, place: Option<usize>) {
        if let Some(standing) = self.standings.get_mut(var.0 as usize) {
            standing.place = place.and_then(|place| u32::try_from(place).ok());
        }
    }

    fn insert(&mut self, var: BoolId) {
        let place = self.heap.len();
        if self.heap.push(var).is_ok() {
            self.rise(var, place);
        }
    }

    /// Takes out the boolean at the top.
    fn take_first(&mut self) -> Option<BoolId> {
        let last = self.heap.pop()?;
        let first = self.heap.first().copied().unwrap_or(last);
        if first != last {
            self.sink(last);
        }
        self.set_place(first, None);
        Some(first)
    }

    /// Moves a boolean up from a place, past those with lower scores.
    fn rise(&mut self, var: BoolId, place: usize) {
        let score = self.score_of(var);
        let mut at = place;
        for _ in 0..DEPTH {
            if at == 0 {
                break;
            }
            let above = (at - 1) / 2;
            match self.heap.get(above).copied() {
                Some(other) if self.score_of(other) < score => {
                    self.put(other, at);
                    at = above;
                }
                _ => break,
            }
        }
        self.put(var, at);
    }

    /// Moves a boolean down from the top, past those with higher scores.
    fn sink(&mut self, var: BoolId) {
        let score = self.score_of(var);
        let mut at = 0;
        for _ in 0..DEPTH {
            match self.higher_below(at) {
                Some((place, other)) if self.score_of(other) > score => {
                    self.put(other, at);
                    at = place;
                }
                _ => break,
            }
        }
        self.put(var, at);
    }

    /// Of the two booleans below a place the one with the higher score.
    fn higher_below(&self, at: usize) -> Option<(usize, BoolId)> {
        let left = at.saturating_mul(2).saturating_add(1);
        let right = left.saturating_add(1);
        let first = self.heap.get(left).copied()?;
        match self.heap.get(right).copied() {
            Some(second) if self.score_of(second) > self.score_of(first) => Some((right, second)),
            _ => Some((left, first)),
        }
    }
}
