//! The member of a zone that ranks first among those that contain none of the conflicts kept, found without splitting
//! the zone by each conflict. A search for the first candidates that fit asks for it again and again, with more
//! conflicts each time.
//!
//! Conflicts that are alike but for the choice at one slot are drawn together into bans. Choices are taken out first that the
//! member can't have: those that only members have which contain a conflict, and those that rank after one which stands in
//! no conflict. If the first member of what is left contains no conflict, that is it.
//!
//! Else the slots that conflicts join to one that it contains are a part of the box, which is settled apart.
//!
//! In a part it goes in two steps, since ranks compare costs first. A cheapest member is looked for in boxes, smaller and smaller
//! ones, of which each is given up as soon as nothing in it can be cheaper than what was found. Then, slot by slot, it
//! is asked whether some member as cheap has a lower choice there.
//!
//! | file | what it holds |
//! |---|---|
//! | `least_free` | the member that ranks first |
//! | `problem` | what is asked of a box, and what a search goes by |
//! | `parts` | the same part by part of a box |
//! | `cheapest` | a cheapest member, by a stack of boxes |
//! | `look` | what is to be done with one box |
//! | `counts` | how many choices a pair stands against |
//! | `loose` | choices that stand in no conflict |
//! | `behind` | choices that rank after a loose one |
//! | `lowest` | of the cheapest members the first in the order of slots |
//! | `dear` | choices that are too dear |
//! | `laws` | that there is one answer |
#![tactic(auto)]

mod behind;
mod cheapest;
mod counts;
mod dear;
pub mod laws;
pub mod least_free;
pub mod look;
mod loose;
mod lowest;
mod parts;
mod problem;

pub use laws::least_free_is_one;
