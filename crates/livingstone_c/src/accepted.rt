//! A model that was accepted, compiled.
#![tactic(auto)]

ghost use Rattle.std.specs.Prelude.{◌≡◌, IfOk, IfErr};
ghost use Rattle.lv_checker.specs.Verdicts.{IsVerdict, accepted, Tells};

use lv_checker::model_of;
use lv_model::Model;
use lv_reader::ModelFault;
use lv_session::CompiledModel;
use std::alloc::{AllocError, Global};

/// A model that was accepted, and what all sessions over it share. Both lie in memory that this library never gives back,
/// so that a session may outlast whoever holds this.
#[derive(Drop)]
pub struct Accepted {
    pub model: &'static Model,
    pub compiled: &'static CompiledModel<'static>,
}

impl Accepted {
    /// The model that the bytes give.
    pub fn of(alloc: Global, bytes: &[u8]) -> Result<Box<Accepted>, ModelFault>
        ensures ok { IfOk result (λ a. IsVerdict bytes.now (accepted a.value.model.now)) }
        ensures compiled { IfOk result (λ a. a.value.compiled.now ≡ a.value.model.now) }
        ensures fault { IfErr result (λ fault. Tells fault bytes.now) }
    {
        let model = lasting_model(alloc, bytes)?;
        let compiled = lasting_compiled(alloc, model)?;
        Ok(Box::new(alloc, Accepted { model, compiled })?)
    }
}

/// The model that the bytes give, in memory that is never given back.
fn lasting_model(alloc: Global, bytes: &[u8]) -> Result<&'static Model, ModelFault>
    ensures ok { IfOk result (λ model. IsVerdict bytes.now (accepted model.now)) }
    ensures fault { IfErr result (λ fault. Tells fault bytes.now) }
{
    let model = boxed_model(alloc, bytes)?;
    Ok(Box::leak(model))
}

/// The model that the bytes give, in a box.
fn boxed_model(alloc: Global, bytes: &[u8]) -> Result<Box<Model>, ModelFault>
    ensures ok { IfOk result (λ model. IsVerdict bytes.now (accepted model.value)) }
    ensures fault { IfErr result (λ fault. Tells fault bytes.now) }
{
    let model = model_of(alloc, bytes)?;
    Ok(Box::new(alloc, model)?)
}

/// A model compiled, in memory that is never given back.
fn lasting_compiled(
    alloc: Global,
    model: &'static Model,
) -> Result<&'static CompiledModel<'static>, AllocError>
    ensures { IfOk result (λ compiled. compiled.now ≡ model.now) }
{
    let compiled = boxed_compiled(alloc, model)?;
    Ok(Box::leak(compiled))
}

/// A model compiled, in a box.
fn boxed_compiled(
    alloc: Global,
    model: &'static Model,
) -> Result<Box<CompiledModel<'static>>, AllocError>
    ensures { IfOk result (λ compiled. compiled.value ≡ model.now) }
{
    let compiled = CompiledModel::new(alloc, model)?;
    Ok(Box::new(alloc, compiled)?)
}
