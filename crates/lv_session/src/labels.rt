//! What propagation finds in the state as it is.
#![tactic(auto)]

ghost use Rattle.std.specs.Prelude.{◌≡◌, ◌-◌, ◌++◌, None, IfOk, slice_get};
ghost use Rattle.std.specs.Option.{option_copied};
ghost use Rattle.lv_labels.specs.Literals.{fact_literals, state_literals};
ghost use Rattle.lv_labels.specs.Finding.{labelling};
ghost use Rattle.lv_labels.specs.Holding.{HasOwnModes};
ghost use Rattle.lv_session_state.specs.State.{facts_of};
ghost use Rattle.lv_session.specs.Session.{labels_reply, labelled, labelled_from};
ghost use Rattle.lv_session_state.specs.States.{IsStateOf};
ghost use Rattle.lv_session.specs.Kept.{IsLabellerOf};

use crate::compiled::CompiledModel;
use lv_labels::{Labeller, Labelling};
use lv_model::{Model, State as Modes, TrackedState};
use lv_reply::{Refusal, Reply};
use lv_session_state::State;
use std::alloc::{AllocError, Global};

/// What propagation finds, as a reply.
fn labels_reply(labelling: Labelling) -> Reply
    ensures { result ≡ labels_reply labelling }
{
    match labelling {
        Labelling::Contradiction => Reply::Contradiction,
        Labelling::Labels(labels) => Reply::Labels(labels),
    }
}

/// The labeller that is held, or where none is a new one.
fn taken<'a>(
    alloc: Global,
    compiled: &'a CompiledModel<'a>,
    held: &mut Option<Labeller<'a>>,
) -> Result<Labeller<'a>, AllocError>
    requires held { IsLabellerOf compiled.now held.old }
    ensures labeller { IfOk result (λ labeller. labeller ≡ compiled.now) }
    ensures held { IsLabellerOf compiled.now held.new }
{
    match held.take() {
        Some(labeller) => Ok(labeller),
        None => Labeller::new(alloc, compiled.model(), compiled.system()),
    }
}

/// The tracked state of this number, counted from 1.
fn numbered(tracked: &[TrackedState], n: u32) -> Option<&TrackedState>
    ensures { option_copied result ≡ slice_get tracked.now (n - 1) }
{
    tracked.get((n as usize).saturating_sub(1))
}

/// What propagation finds under the facts and, if a state is given, its modes.
fn told(
    state: &State,
    alloc: Global,
    model: &Model,
    labeller: &mut Labeller<'_>,
    of: Option<&Modes>,
) -> Result<Labelling, AllocError>
    requires state { IsStateOf model.now state.now }
    requires labeller { labeller.old ≡ model.now }
    requires modes { HasOwnModes model.now (option_copied of) }
    ensures found { IfOk result (λ told. told ≡ labelling model.now (fact_literals model.now (facts_of state.now) ++ state_literals model.now (option_copied of.entry))) }
    ensures labeller { labeller.new ≡ model.now }
{
    let _plant = model.plant();
    let facts = state.facts(alloc)?;
    labeller.tell(&facts, of)
}

/// The same as a reply, asked of the labeller that is held from line to line.
fn labelled<'a>(
    state: &State,
    alloc: Global,
    compiled: &'a CompiledModel<'a>,
    held: &mut Option<Labeller<'a>>,
    of: Option<&Modes>,
) -> Result<Reply, AllocError>
    requires state { IsStateOf compiled.now state.now }
    requires held { IsLabellerOf compiled.now held.old }
    requires modes { HasOwnModes compiled.now (option_copied of) }
    ensures reply { IfOk result (λ reply. record { state = state.now; reply = reply } ≡ labelled compiled.now state.now (option_copied of.entry)) }
    ensures held { IsLabellerOf compiled.now held.new }
{
    let mut labeller = taken(alloc, compiled, held)?;
    let told = told(state, alloc, compiled.model(), &mut labeller, of);
    *held = Some(labeller);
    Ok(labels_reply(told?))
}

/// `labels`
pub(crate) fn labels<'a>(
    state: &State,
    alloc: Global,
    compiled: &'a CompiledModel<'a>,
    held: &mut Option<Labeller<'a>>,
) -> Result<Reply, AllocError>
    requires state { IsStateOf compiled.now state.now }
    requires held { IsLabellerOf compiled.now held.old }
    ensures reply { IfOk result (λ reply. record { state = state.now; reply = reply } ≡ labelled compiled.now state.now None) }
    ensures held { IsLabellerOf compiled.now held.new }
{
    labelled(state, alloc, compiled, held, None)
}

/// `labels I`: with the modes of the tracked state of this number, counted from 1.
pub(crate) fn labels_from<'a>(
    state: &State,
    alloc: Global,
    compiled: &'a CompiledModel<'a>,
    held: &mut Option<Labeller<'a>>,
    n: u32,
) -> Result<Reply, AllocError>
    requires state { IsStateOf compiled.now state.now }
    requires held { IsLabellerOf compiled.now held.old }
    ensures reply { IfOk result (λ reply. record { state = state.now; reply = reply } ≡ labelled_from compiled.now state.now n) }
    ensures held { IsLabellerOf compiled.now held.new }
{
    match numbered(state.tracked().as_slice(), n) {
        Some(s) => labelled(state, alloc, compiled, held, Some(&s.state)),
        None => Ok(Reply::Refused(Refusal::OutOfLimits)),
    }
}
