//! What is asked of a box: what the choices of its slots cost, and conflicts that its members must not contain. And what a
//! search for it goes by and works in.
#![tactic(auto)]

use lv_base::Conflict;
use lv_boxes::Grid;
use lv_search_bans::conflicts::Conflicts;
use lv_search_bans::prices::Row;
use std::alloc::Global;

/// What the choices of each slot cost, and conflicts, each of pairs that can't stand together.
#[derive(Clone, Copy)]
pub(crate) struct Problem<'a> {
    pub(crate) grid: &'a Grid,
    pub(crate) conflicts: &'a [Conflict],
}

/// The same, with the bans that the conflicts come to: what a search goes by from its first box to its last.
#[derive(Clone, Copy)]
pub(crate) struct Search<'a> {
    pub(crate) grid: &'a Grid,
    pub(crate) conflicts: &'a Conflicts,
}

/// What a search works in: where lists are made, rows of prices, which are filled anew for each box, and slots at which a
/// box lost choices.
#[derive(Debug, Drop)]
pub(crate) struct Room {
    pub(crate) alloc: Global,
    pub(crate) rows: Vec<Row>,
    pub(crate) changed: Vec<u32>,
}

impl Room {
    /// Room for a search.
    pub(crate) fn new(alloc: Global) -> Room {
        Room {
            alloc,
            rows: Vec::new(alloc),
            changed: Vec::new(alloc),
        }
    }
}
