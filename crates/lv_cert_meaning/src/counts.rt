//! How many things of a kind a model has, by which the numbers of a certificate are judged.
#![tactic(auto)]

ghost use Rattle.std.specs.Prelude.{◌≡◌, map, slice_index_or, IfOk};
ghost use Rattle.lv_base.specs.declared.ids.VarId.{VarId as VarOf};
ghost use Rattle.lv_model.specs.declared.plant.Part.{Part as PartOf};
ghost use Rattle.lv_cert_meaning.specs.Counts.{IsCountsOf};

use lv_base::VarId;
use lv_model::{Model, Part};
use std::alloc::{AllocError, Global};

/// How many values each variable has, how many modes each part, how many values each control, and how many moves each
/// part; and the controls.
#[derive(Debug, Drop)]
pub struct Counts {
    pub values: Vec<usize>,
    pub modes: Vec<usize>,
    pub controlled: Vec<usize>,
    pub moves: Vec<usize>,
    pub controls: Vec<VarId>,
}

/// How many values the variable has; none where there is no such variable.
fn size_at(sizes: &[usize], var: VarId) -> usize
    ensures { result ≡ slice_index_or sizes.now var.0 0 }
{
    let place = var.0 as usize;
    if place < sizes.len() { sizes[place] } else { 0 }
}

/// How many modes each part has.
fn modes(alloc: Global, sizes: &[usize], parts: &[Part]) -> Result<Vec<usize>, AllocError>
    ensures { IfOk result (λ out. out.items ≡ map (λ (p : PartOf). slice_index_or sizes.now p.first.0 0) parts.now) }
{
    parts.iter().map(|p| size_at(sizes, p.first)).collect(alloc)
}

/// How many values each control has.
fn controlled(alloc: Global, sizes: &[usize], vars: &[VarId]) -> Result<Vec<usize>, AllocError>
    ensures { IfOk result (λ out. out.items ≡ map (λ (c : VarOf). slice_index_or sizes.now c.0 0) vars.now) }
{
    vars.iter().map(|c| size_at(sizes, *c)).collect(alloc)
}

impl Counts {
    /// Of this model.
    pub fn of(alloc: Global, model: &Model) -> Result<Counts, AllocError>
        ensures { IfOk result (λ counts. IsCountsOf model.now counts) }
    {
        let values = model.sizes(alloc)?;
        let controls = model.controls(alloc)?;
        let modes = modes(alloc, values.as_slice(), model.plant().parts.as_slice())?;
        let controlled = controlled(alloc, values.as_slice(), controls.as_slice())?;
        let moves = model.move_counts(alloc)?;
        Ok(Counts {
            values,
            modes,
            controlled,
            moves,
            controls,
        })
    }
}
