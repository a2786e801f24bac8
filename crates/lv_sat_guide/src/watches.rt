//! Which clauses to look at when a literal became false: each clause of two literals or more watches two of them, and is
//! looked at only when one of the two became false. It is a help and no more: whatever it leaves out, the search still
//! judges by all clauses in the end, and each clause is looked at before it is used.
#![tactic(auto)]

use super::arena::{Arena, Turn};
use lv_base::{BoolId, ClauseId, Lit};
use lv_clauses::{ClauseSet, Hint, is_marked};
use std::alloc::{AllocError, Global};
use std::mem;

/// Where a clause stands.
#[derive(Clone, Copy, Debug, PartialEq, Eq)]
pub enum Kind {
    Given,
    Learned,
}

/// A clause that watches a literal, by its number in the arena of its kind, and another of its literals, by its boolean and
/// its sign: while that one is true, the clause needs no look. Watches are most of what propagation reads, so that none is
/// wider than it has to be.
#[derive(Clone, Copy, Debug)]
pub struct Watch {
    number: u32,
    var: BoolId,
    sign: bool,
    kind: Kind,
    /// It has no third literal.
    is_pair: bool,
}

impl Watch {
    /// The other literal.
    #[inline(always)]
    fn other(self) -> Lit {
        Lit {
            var: self.var,
            sign: self.sign,
        }
    }

    /// The same watch beside another literal.
    fn beside(self, other: Lit) -> Watch {
        Watch {
            var: other.var,
            sign: other.sign,
            ..self
        }
    }
}

/// What becomes of a watch whose literal is false.
pub enum Fate {
    /// The clause is true.
    Stays(Watch),
    /// The clause watches another literal now, or is gone.
    Leaves,
    /// The clause has to be looked at.
    Asks(Hint),
}

#[derive(Drop)]
struct Row {
    watches: Vec<Watch>,
}

/// For each literal the clauses that watch it, the literals of each clause, the two that it watches first, and apart from
/// these the clauses given of at most one literal.
#[derive(Drop)]
pub struct Watches {
    alloc: Global,
    of_true: Vec<Row>,
    of_false: Vec<Row>,
    given: Arena,
    learned: Arena,
    /// The steps of the clauses learned, by their numbers.
    steps: Vec<usize>,
    short: Vec<Hint>,
}

impl Watches {
    /// The watches of all clauses present.
    pub fn new(alloc: Global, set: &ClauseSet) -> Result<Watches, AllocError> {
        let counts = Counts::of(alloc, set)?;
        let mut watches = Watches {
            alloc,
            of_true: rows_for(alloc, counts.of_true.as_slice())?,
            of_false: rows_for(alloc, counts.of_false.as_slice())?,
            given: Arena::with_room(alloc, with_more(set.bound()), with_more(counts.lits))?,
            learned: Arena::new(alloc),
            steps: Vec::new(alloc),
            short: Vec::new(alloc),
        };
        for key in 0..set.bound() {
            let id = ClauseId(key);
            if let Some(lits) = set.find(id) {
                watches.add_given(lits, id)?;
            }
        }
        Ok(watches)
    }

    /// Adds a clause that is present.
    pub fn add_given(&mut self, lits: &[Lit], id: ClauseId) -> Result<(), AllocError> {
        if lits.len() < 2 {
            self.short.push(Hint::Given(id))?;
            return Ok(());
        }
        self.given.put(lits, id.0)?;
        self.watch_both(lits, Kind::Given, id.0)
    }

    /// Adds the clause of the last step of the log, which is at this place. The last literal of it is to become true, and the
    /// one before it became false last: these two are watched.
    pub fn add_learned(&mut self, lits: &[Lit], place: usize) -> Result<(), AllocError> {
        let mut backwards = Vec::from_slice(self.alloc, lits)?;
        backwards.reverse();
        self.put_learned(backwards.as_slice(), place)
    }

    fn put_learned(&mut self, lits: &[Lit], place: usize) -> Result<(), AllocError> {
        if lits.len() < 2 {
            return Ok(());
        }
        let number = self.steps.len();
        self.learned.put(lits, number)?;
        self.steps.push(place)?;
        self.watch_both(lits, Kind::Learned, number)
    }

    /// Takes a clause out that is no longer present. Takes no memory.
    pub fn remove_given(&mut self, id: ClauseId) {
        match self.given.watched(id.0) {
            Some((first, second)) => {
                self.unwatch(first, Kind::Given, id.0);
                self.unwatch(second, Kind::Given, id.0);
                self.given.remove(id.0);
            }
            None => self.short.retain(|hint| *hint != Hint::Given(id)),
        }
    }

    /// Takes all learned clauses out. Takes no memory.
    pub fn clear_learned(&mut self) {
        for number in 0..self.steps.len() {
            if let Some((first, second)) = self.learned.watched(number) {
                self.unwatch(first, Kind::Learned, number);
                self.unwatch(second, Kind::Learned, number);
            }
        }
        self.learned.clear();
        self.steps.clear();
    }

    /// How many learned clauses there are.
    pub fn learned(&self) -> usize {
        self.steps.len()
    }

    /// Lets go of half of the learned clauses: the longest, of these the oldest.
    pub fn reduce(&mut self) -> Result<(), AllocError> {
        let kept = self.learned.shorter_half(self.alloc)?;
        let alloc = self.alloc;
        let old = mem::replace(&mut self.learned, Arena::new(alloc));
        let steps = mem::replace(&mut self.steps, Vec::new(alloc));
        self.unwatch_learned();
        for (number, is_kept) in kept.iter().enumerate() {
            if *is_kept && number < steps.len() {
                self.put_learned(old.lits(number), steps[number])?;
            }
        }
        Ok(())
    }

    /// The clauses given of at most one literal.
    pub fn short(&self) -> &[Hint] {
        self.short.as_slice()
    }

    /// What becomes of a watch of a literal that is false: where the clause isn't true, it watches another literal that isn't
    /// false, if there is one.
    #[inline(always)]
    pub fn meet(
        &mut self,
        marks: &[Option<bool>],
        watch: Watch,
        turned: Lit,
    ) -> Result<Fate, AllocError> {
        if is_marked(marks, watch.other()) {
            return Ok(Fate::Stays(watch));
        }
        self.move_on(marks, watch, turned)
    }

    /// The same, where the other literal isn't true.
    fn move_on(
        &mut self,
        marks: &[Option<bool>],
        watch: Watch,
        turned: Lit,
    ) -> Result<Fate, AllocError> {
        if watch.is_pair {
            return Ok(self.asks(watch));
        }
        let number = watch.number as usize;
        let turn = match watch.kind {
            Kind::Given => self.given.turn(marks, number, turned),
            Kind::Learned => self.learned.turn(marks, number, turned),
        };
        match turn {
            Turn::Absent => Ok(Fate::Leaves),
            Turn::Holds(other) => Ok(Fate::Stays(watch.beside(other))),
            Turn::Stuck => Ok(self.asks(watch)),
            Turn::Moves { kept, new } => {
                self.watch(new, watch.beside(kept))?;
                Ok(Fate::Leaves)
            }
        }
    }

    fn asks(&self, watch: Watch) -> Fate {
        let number = watch.number as usize;
        match watch.kind {
            Kind::Given => Fate::Asks(Hint::Given(ClauseId(number))),
            Kind::Learned => match self.steps.get(number).copied() {
                Some(step) => Fate::Asks(Hint::Earlier(step)),
                None => Fate::Leaves,
            },
        }
    }

    /// The watches of a literal, which are to be put back.
    pub fn take_row(&mut self, lit: Lit) -> Vec<Watch> {
        let alloc = self.alloc;
        match self.rows(lit.sign).get_mut(lit.var.0 as usize) {
            Some(row) => mem::replace(&mut row.watches, Vec::new(alloc)),
            None => Vec::new(alloc),
        }
    }

    pub fn put_row(&mut self, lit: Lit, watches: Vec<Watch>) {
        if let Some(row) = self.rows(lit.sign).get_mut(lit.var.0 as usize) {
            row.watches = watches;
        }
    }

    fn rows(&mut self, sign: bool) -> &mut Vec<Row> {
        if sign {
            &mut self.of_true
        } else {
            &mut self.of_false
        }
    }

    /// Lets a clause watch its first two literals.
    fn watch_both(&mut self, lits: &[Lit], kind: Kind, number: usize) -> Result<(), AllocError> {
        let [first, second, others @ ..] = lits else {
            return Ok(());
        };
        let Ok(number) = u32::try_from(number) else {
            return Ok(());
        };
        let watch = Watch {
            number,
            var: second.var,
            sign: second.sign,
            kind,
            is_pair: others.is_empty(),
        };
        self.watch(*first, watch)?;
        self.watch(*second, watch.beside(*first))
    }

    fn watch(&mut self, lit: Lit, watch: Watch) -> Result<(), AllocError> {
        if let Some(row) = self.rows(lit.sign).get_mut(lit.var.0 as usize) {
            row.watches.push(watch)?;
        }
        Ok(())
    }

    fn unwatch(&mut self, lit: Lit, kind: Kind, number: usize) {
        if let Some(row) = self.rows(lit.sign).get_mut(lit.var.0 as usize)
            && let Some(place) = row.watches.iter().position(|watch| watch.kind == kind
                && watch.number as usize == number)
        {
            row.watches.swap_remove(place);
        }
    }

    /// Takes the watches of learned clauses out of all rows.
    fn unwatch_learned(&mut self) {
        keep_given(&mut self.of_true);
        keep_given(&mut self.of_false);
    }
}

fn keep_given(rows: &mut Vec<Row>) {
    for row in rows {
        row.watches.retain(|watch| watch.kind == Kind::Given);
    }
}

/// So many and a quarter more: clauses that come later need not make all of it move, and room that isn't used costs nothing.
fn with_more(count: usize) -> usize {
    count.saturating_add(count / 4)
}

/// How many clauses watch each literal, true and false, and how many literals these clauses have in all.
#[derive(Drop)]
struct Counts {
    lits: usize,
    of_true: Vec<usize>,
    of_false: Vec<usize>,
}

impl Counts {
    /// Of all clauses present.
    fn of(alloc: Global, set: &ClauseSet) -> Result<Counts, AllocError> {
        let mut counts = Counts {
            lits: 0,
            of_true: vec![in alloc; 0; set.bools() as usize]?,
            of_false: vec![in alloc; 0; set.bools() as usize]?,
        };
        for key in 0..set.bound() {
            if let Some(lits) = set.find(ClauseId(key))
                && let [first, second, ..] = lits
            {
                counts.lits = counts.lits.wrapping_add(lits.len());
                counts.raise(*first);
                counts.raise(*second);
            }
        }
        Ok(counts)
    }

    fn of_sign(&mut self, sign: bool) -> &mut Vec<usize> {
        if sign {
            &mut self.of_true
        } else {
            &mut self.of_false
        }
    }

    fn raise(&mut self, lit: Lit) {
        if let Some(count) = self.of_sign(lit.sign).get_mut(lit.var.0 as usize) {
            *count = count.wrapping_add(1);
        }
    }
}

/// Rows with room for so many watches each.
fn rows_for(alloc: Global, counts: &[usize]) -> Result<Vec<Row>, AllocError> {
    let mut rows = Vec::with_capacity(alloc, counts.len())?;
    for count in counts {
        rows.push(Row {
            watches: Vec::with_capacity(alloc, *count)?,
        })?;
    }
    Ok(rows)
}
