//! What a certificate is judged by: the model, its clauses, and how many things of a kind it has.
#![tactic(auto)]

use lv_boxes::Groups;
use lv_cert_meaning::Counts;
use lv_model::Model;
use lv_model_names::Lists;
use lv_system::StepSystem;

/// A model with what is made of it once.
#[derive(Clone, Copy)]
pub struct Setting<'a> {
    pub model: &'a Model,
    pub system: &'a StepSystem,
    pub lists: &'a Lists,
    pub counts: &'a Counts,
    pub targets: &'a Groups,
}
