//! Conflicts drawn together, and what they tell of a box of choices: which choices they leave it, and what its members cost at
//! least that contain none of them.
//!
//! Conflicts that are alike but for the choice at one slot are drawn together into bans, which have a set of choices at each
//! of their slots: a few bans stand for many conflicts. A ban of which all sets but one hold all that their slots have left
//! takes the choices of that one out of the box. A member has, at some slot of each ban, another choice than the ban's, which
//! has its price.
//!
//! | file | what it holds |
//! |---|---|
//! | `masks` | a box: of each slot the choices left |
//! | `bans` | conflicts drawn together |
//! | `alike` | where bans of the same slots stand |
//! | `order` | in which order a search goes through them |
//! | `conflicts` | conflicts with the bans that they come to |
//! | `narrow` | what bans leave of a box |
//! | `prices` | what a member of a box costs at least |
#![tactic(auto)]

mod alike;
pub mod bans;
pub mod conflicts;
pub mod masks;
pub mod narrow;
mod order;
pub mod prices;
