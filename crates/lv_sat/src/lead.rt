//! What the last values say of the next choice. With the marks in place of theirs they are a guess. Where it leaves a
//! clause false, a literal of that clause is chosen, and where it leaves none false, nothing need be chosen any more: so
//! a question near the last one is answered by what it touches, and not by a choice for each boolean. It is a help and no
//! more: any literal that isn't marked may be chosen, and a guess is judged.
#![tactic(auto)]

use lv_base::{ClauseId, Lit};
use lv_clauses::{ClauseSet, lit_holds, negation};
use lv_last_values::{LastValues, Occurrences, open_lit};
use lv_trail::Trail;

/// What to choose next, and how far that was looked at.
#[derive(Clone, Copy, Debug)]
pub struct Lead {
    /// A literal that isn't marked, of a clause that the guess leaves false.
    pub lit: Option<Lit>,
    /// Whether it leaves none false.
    pub is_met: bool,
    /// Of the entries before this place each clause is true by the guess that lost a true literal by them.
    pub place: usize,
}

/// What the last values say by the entries of the trail from a place on.
pub fn next_lead(set: &ClauseSet, trail: &Trail, last: &LastValues, place: usize) -> Lead {
    match (&last.values, &last.occurrences) {
        (Some(values), Some(occurrences)) => {
            lead_by(set, trail, values.as_slice(), occurrences, place)
        }
        _ => no_lead(place),
    }
}

/// Where they say nothing.
pub fn no_lead(place: usize) -> Lead {
    Lead {
        lit: None,
        is_met: false,
        place,
    }
}

/// As `next_lead`, by these values and the clauses that hold each literal.
fn lead_by(
    set: &ClauseSet,
    trail: &Trail,
    values: &[bool],
    occurrences: &Occurrences,
    place: usize,
) -> Lead {
    let entries = trail.entries();
    for at in place..entries.len() {
        let turned = negation(entries[at].lit);
        if lit_holds(values, turned)
            && let Some(id) = first_unmet(set, occurrences, trail.marks(), values, turned)
        {
            return Lead {
                lit: open_lit(set, trail.marks(), id, 0),
                is_met: false,
                place: at,
            };
        }
    }
    Lead {
        lit: None,
        is_met: true,
        place: entries.len(),
    }
}

/// A clause of the literal's row that the guess leaves false.
fn first_unmet(
    set: &ClauseSet,
    occurrences: &Occurrences,
    marks: &[Option<bool>],
    values: &[bool],
    lit: Lit,
) -> Option<ClauseId> {
    let mut place = occurrences.head(lit);
    while place > 0 {
        let link = occurrences.link(place);
        if is_unmet(set, marks, values, link.id()) {
            return Some(link.id());
        }
        place = link.next();
    }
    None
}

/// Whether a clause of this number is present and the guess leaves it false.
fn is_unmet(set: &ClauseSet, marks: &[Option<bool>], values: &[bool], id: ClauseId) -> bool {
    match set.find(id) {
        Some(clause) => !clause.iter().any(|lit| is_guessed(marks, values, *lit)),
        None => false,
    }
}

/// Whether the guess makes a literal true.
fn is_guessed(marks: &[Option<bool>], values: &[bool], lit: Lit) -> bool {
    match marks.get(lit.var.0 as usize) {
        Some(Some(sign)) => *sign == lit.sign,
        _ => lit_holds(values, lit),
    }
}

/// How far leads, or guesses, are trusted: they cost more than they save where questions are hard, or far from each other.
#[derive(Clone, Copy, Debug)]
pub struct Trust {
    credit: u32,
    /// How many questions went without since it was lost.
    without: u32,
    /// Whether this question was led, and whether a guess answered it.
    is_led: bool,
    is_met: bool,
}

/// The most that leads are trusted, what a guess that answered a question gives, and after how many questions without they
/// are tried again.
const MOST_CREDIT: u32 = 16;

const GAIN: u32 = 2;

const WITHOUT: u32 = 32;

impl Trust {
    pub fn new() -> Trust {
        Trust {
            credit: MOST_CREDIT,
            without: 0,
            is_led: false,
            is_met: false,
        }
    }

    /// Whether a question is to be led.
    pub fn is_given(&self) -> bool {
        self.credit > 0
    }

    /// Whether a guess answered this question.
    pub fn is_met(&self) -> bool {
        self.is_met
    }

    /// With this question led.
    pub fn led(self) -> Trust {
        Trust {
            is_led: true,
            ..self
        }
    }

    /// With this question answered by a guess.
    pub fn met(self) -> Trust {
        Trust {
            is_met: true,
            ..self
        }
    }

    /// For the next question.
    pub fn renewed(self) -> Trust {
        let without = if self.credit > 0 {
            0
        } else {
            self.without.saturating_add(1)
        };
        let credit = if self.is_met {
            self.credit.saturating_add(GAIN).min(MOST_CREDIT)
        } else if self.is_led {
            self.credit.saturating_sub(1)
        } else if without >= WITHOUT {
            1
        } else {
            self.credit
        };
        Trust {
            credit,
            without,
            is_led: false,
            is_met: false,
        }
    }
}
