//! A split, and what it is by.
#![tactic(auto)]

/// By what a zone is split: the conflict of this place, or by the groups of this place the target of the member of that place.
#[derive(Clone, Copy, Debug, PartialEq, Eq)]
pub enum By {
    Conflict(usize),
    Target(usize, usize),
}

/// A split: the place of the zone that is split, the place of the first of its parts, and by what.
#[derive(Clone, Copy, Debug, PartialEq, Eq)]
pub struct Split {
    pub zone: usize,
    pub first: usize,
    pub by: By,
}

/// One part of what is split: by what, and which of the parts.
#[derive(Clone, Copy, Debug, PartialEq, Eq)]
pub struct Step {
    pub by: By,
    pub part: usize,
}
