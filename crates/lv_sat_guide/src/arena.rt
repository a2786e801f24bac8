//! The literals of all clauses of a kind, one behind the other, so that looking for another literal to watch leads to no
//! other place in memory.
#![tactic(auto)]

use lv_base::Lit;
use lv_clauses::{is_marked, negation};
use std::alloc::{AllocError, Global};

/// Clauses longer than this count as of this length where half of them are let go of.
const LONGEST: usize = 255;

/// Where the literals of a clause begin, and how many they are; none where no clause is.
#[derive(Clone, Copy, Debug)]
struct Span {
    start: u32,
    len: u32,
}

const ABSENT: Span = Span { start: 0, len: 0 };

impl Span {
    /// Of so many literals from a place on; none where a number of 32 bits can't say it.
    fn of(start: usize, len: usize) -> Span {
        match (u32::try_from(start), u32::try_from(len)) {
            (Ok(start), Ok(len)) => Span { start, len },
            _ => ABSENT,
        }
    }
}

/// What becomes of a clause of which a watched literal is false.
pub enum Turn {
    /// It doesn't watch the literal.
    Absent,
    /// The other literal that it watches is true.
    Holds(Lit),
    /// It watches a new literal beside the one that it kept.
    Moves { kept: Lit, new: Lit },
    /// All its literals are false but perhaps the other one that it watches.
    Stuck,
}

/// Clauses by numbers.
#[derive(Drop)]
pub struct Arena {
    alloc: Global,
    lits: Vec<Lit>,
    spans: Vec<Span>,
    /// How many literals are of clauses that are gone.
    lost: usize,
}

impl Arena {
    pub fn new(alloc: Global) -> Arena {
        Arena {
            alloc,
            lits: Vec::new(alloc),
            spans: Vec::new(alloc),
            lost: 0,
        }
    }

    /// With room for clauses of numbers below this one, of so many literals in all.
    pub fn with_room(alloc: Global, bound: usize, lits: usize) -> Result<Arena, AllocError> {
        Ok(Arena {
            alloc,
            lits: Vec::with_capacity(alloc, lits)?,
            spans: Vec::with_capacity(alloc, bound)?,
            lost: 0,
        })
    }

    /// Puts a clause at a number at which none is.
    pub fn put(&mut self, lits: &[Lit], number: usize) -> Result<(), AllocError> {
        if self.lost > self.lits.len() / 2 {
            self.pack()?;
        }
        for _ in self.spans.len()..=number {
            self.spans.push(ABSENT)?;
        }
        let span = Span::of(self.lits.len(), lits.len());
        self.lits.extend_from_slice(lits)?;
        if let Some(place) = self.spans.get_mut(number) {
            *place = span;
        }
        Ok(())
    }

    /// Moves the literals to where none are lost.
    fn pack(&mut self) -> Result<(), AllocError> {
        let mut packed = Vec::with_capacity(self.alloc, self.lits.len())?;
        for span in &mut self.spans {
            let lits = part(self.lits.as_slice(), *span);
            let moved = Span::of(packed.len(), lits.len());
            packed.extend_from_slice(lits)?;
            *span = moved;
        }
        self.lits = packed;
        self.lost = 0;
        Ok(())
    }

    pub fn remove(&mut self, number: usize) {
        if let Some(span) = self.spans.get_mut(number) {
            self.lost = self.lost.wrapping_add(span.len as usize);
            *span = ABSENT;
        }
    }

    pub fn clear(&mut self) {
        self.lits.clear();
        self.spans.clear();
        self.lost = 0;
    }

    /// The literals of a clause; none where there is no such clause.
    pub fn lits(&self, number: usize) -> &[Lit] {
        part(self.lits.as_slice(), self.span(number))
    }

    /// The two literals that a clause watches.
    pub fn watched(&self, number: usize) -> Option<(Lit, Lit)> {
        match self.lits(number) {
            [first, second, ..] => Some((*first, *second)),
            _ => None,
        }
    }

    /// Looks for another literal to watch in the place of one that is false.
    pub fn turn(&mut self, marks: &[Option<bool>], number: usize, turned: Lit) -> Turn {
        let span = self.span(number);
        turn_in(&mut self.lits, span, marks, turned)
    }

    fn span(&self, number: usize) -> Span {
        match self.spans.get(number) {
            Some(span) => *span,
            None => ABSENT,
        }
    }

    /// For each clause whether it is kept where half of them are let go of: the longest, of these the oldest.
    pub fn shorter_half(&self, alloc: Global) -> Result<Vec<bool>, AllocError> {
        let len = self.spans.len();
        let mut kept = vec![in alloc; false; len]?;
        let (limit, room) = self.limit(alloc, len / 2)?;
        let mut room = room;
        for at in 0..len {
            let newer = len - 1 - at;
            let size = (self.span(newer).len as usize).min(LONGEST);
            if size < limit || size == limit && room > 0 {
                room = room.saturating_sub((size == limit) as usize);
                kept[newer] = true;
            }
        }
        Ok(kept)
    }

    /// A length so that at most so many clauses are shorter, and how many more may be of this length.
    fn limit(&self, alloc: Global, most: usize) -> Result<(usize, usize), AllocError> {
        let mut counts = vec![in alloc; 0; LONGEST + 1]?;
        for span in &self.spans {
            if let Some(count) = counts.get_mut((span.len as usize).min(LONGEST)) {
                *count = usize::wrapping_add(*count, 1);
            }
        }
        let mut room = most;
        for (size, count) in counts.iter().enumerate() {
            if *count > room {
                return Ok((size, room));
            }
            room -= *count;
        }
        Ok((LONGEST, room))
    }
}

/// The literals of a span; none where it ends past the last one.
fn part(lits: &[Lit], span: Span) -> &[Lit] {
    let start = span.start as usize;
    let len = span.len as usize;
    if start <= lits.len() && len <= lits.len() - start {
        &lits[start..start + len]
    } else {
        &[]
    }
}

/// Looks for another literal to watch in the place of the one that is false, which is then the second.
fn turn_in(lits: &mut Vec<Lit>, span: Span, marks: &[Option<bool>], turned: Lit) -> Turn {
    let start = span.start as usize;
    let len = span.len as usize;
    if len < 2 || start > lits.len() || lits.len() - start < len {
        return Turn::Absent;
    }
    if lits[start] == turned {
        lits.swap(start, start + 1);
    }
    if lits[start + 1] != turned {
        return Turn::Absent;
    }
    let kept = lits[start];
    if is_marked(marks, kept) {
        return Turn::Holds(kept);
    }
    for at in start + 2..start + len {
        let new = lits[at];
        if !is_marked(marks, negation(new)) {
            lits.swap(start + 1, at);
            return Turn::Moves { kept, new };
        }
    }
    Turn::Stuck
}
