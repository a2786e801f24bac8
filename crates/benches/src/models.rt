//! The models that benches read.
#![tactic(auto)]

use lv_base::limits::MODEL_BYTES;
use lv_checker::model_of;
use lv_io::{Role, Shelf, read_file};
use lv_model::Model;
use std::alloc::Global;

/// The model of a text; None where it is no model's.
fn of_text(alloc: Global, text: &[u8]) -> Option<Model> {
    model_of(alloc, text).ok()
}

/// The model in a file; None where there is none.
pub fn in_file<F: Shelf>(alloc: Global, shelf: &mut F, name: &str) -> Option<Model> {
    match read_file(alloc, shelf, Role::Model, name, MODEL_BYTES) {
        Ok(text) => of_text(alloc, text.as_slice()),
        Err(_) => None,
    }
}
