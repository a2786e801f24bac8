//! Parts of a box. Conflicts that a box leaves join the slots that they speak of. Slots that are joined, and to which no
//! other is, are a box of their own, with a grid and conflicts of its own, in which they are numbered anew: what is first
//! there is what the first member of the whole has at these slots.
//!
//! | file | what it holds |
//! |---|---|
//! | `live` | what a box leaves of conflicts |
//! | `marks` | slots that are marked |
//! | `labels` | which slots conflicts join: a label for each, one for those that are joined |
//! | `part` | the smaller box of slots that are marked |
#![tactic(auto)]

pub mod labels;
pub mod live;
pub mod marks;
pub mod part;
