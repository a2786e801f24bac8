//! The booleans in a queue, in which those that were touched last come first. Taking the next free one and putting one back
//! take no longer than a few steps each.
#![tactic(auto)]

use lv_base::{BoolId, Lit};
use std::alloc::{AllocError, Global};

/// A boolean's place in the queue. It was moved to the front later than others with smaller stamps.
#[derive(Clone, Copy, Debug)]
struct Link {
    before: Option<BoolId>,
    behind: Option<BoolId>,
    stamp: u32,
    sign: bool,
}

/// The queue, and the boolean at which the next look for a free one begins: all before it are marked. Each boolean has the
/// sign that it had last.
#[derive(Drop)]
pub struct Queue {
    links: Vec<Link>,
    first: Option<BoolId>,
    from: Option<BoolId>,
    /// The stamp of that boolean.
    from_stamp: u32,
    stamps: u32,
}

impl Queue {
    /// All booleans by their numbers, to be chosen as false.
    pub fn new(alloc: Global, bools: u32) -> Result<Queue, AllocError> {
        let mut links = Vec::with_capacity(alloc, bools as usize)?;
        for var in 0..bools {
            links.push(Link {
                before: number(0 < var, var.saturating_sub(1)),
                behind: number(var < bools - 1, var.saturating_add(1)),
                stamp: bools - var,
                sign: false,
            })?;
        }
        let first = number(0 < bools, 0);
        Ok(Queue {
            links,
            first,
            from: first,
            from_stamp: bools,
            stamps: bools,
        })
    }

    /// The first boolean in the queue that isn't marked, if there is one.
    pub fn next(&mut self, marks: &[Option<bool>]) -> Option<BoolId> {
        for _ in 0..self.links.len() {
            let var = self.from?;
            if is_free(marks, var) {
                return Some(var);
            }
            self.from = self.link(var)?.behind;
            self.from_stamp = self.stamp_of(self.from);
        }
        None
    }

    /// Notes that a literal is no longer taken as true.
    pub fn put_back(&mut self, lit: Lit) {
        if let Some(link) = self.links.get_mut(lit.var.0 as usize) {
            link.sign = lit.sign;
            if link.stamp > self.from_stamp {
                self.from_stamp = link.stamp;
                self.from = Some(lit.var);
            }
        }
    }

    /// Moves a boolean to the front.
    pub fn touch(&mut self, var: BoolId) {
        if let Some(link) = self.link(var) {
            self.join(link.before, link.behind);
            let first = self.first;
            self.join(Some(var), first);
            self.join(None, Some(var));
            self.stamps = self.stamps.wrapping_add(1);
            let stamp = self.stamps;
            if let Some(link) = self.links.get_mut(var.0 as usize) {
                link.stamp = stamp;
            }
            if self.from == Some(var) {
                self.from_stamp = stamp;
            }
        }
    }

    /// The sign that a boolean had last.
    pub fn sign(&self, var: BoolId) -> bool {
        match self.link(var) {
            Some(link) => link.sign,
            None => false,
        }
    }

    fn link(&self, var: BoolId) -> Option<Link> {
        self.links.get(var.0 as usize).copied()
    }

    fn stamp_of(&self, var: Option<BoolId>) -> u32 {
        match var.and_then(|var| self.link(var)) {
            Some(link) => link.stamp,
            None => 0,
        }
    }

    /// Puts one boolean right before the other; none before it where it is the first.
    fn join(&mut self, before: Option<BoolId>, behind: Option<BoolId>) {
        match before {
            Some(var) => {
                if let Some(link) = self.links.get_mut(var.0 as usize) {
                    link.behind = behind;
                }
            }
            None => self.first = behind,
        }
        if let Some(var) = behind
            && let Some(link) = self.links.get_mut(var.0 as usize)
        {
            link.before = before;
        }
    }
}

/// Whether a boolean has no mark.
pub fn is_free(marks: &[Option<bool>], var: BoolId) -> bool {
    matches!(marks.get(var.0 as usize), Some(None))
}

/// The boolean of this number, if it is one.
fn number(exists: bool, var: u32) -> Option<BoolId> {
    if exists { Some(BoolId(var)) } else { None }
}
