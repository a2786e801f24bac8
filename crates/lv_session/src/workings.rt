//! What a session keeps beside its state, and what a line does to both.
#![tactic(auto)]

ghost use Rattle.std.specs.Prelude.{◌≡◌, IfOk, None, OnOk, OnErr};
ghost use Rattle.lv_session_state.specs.lv_session_request.Requests.{IsRequestOf};
ghost use Rattle.lv_session.specs.Session.{stepped};
ghost use Rattle.lv_session.specs.Applying.{performed};
ghost use Rattle.lv_session_state.specs.States.{IsStateOf};
ghost use Rattle.lv_session_state.specs.declared.running.Running.TheVariants.{Nothing};
ghost use Rattle.lv_session_state.specs.Current.{IsWorking};
ghost use Rattle.lv_session.specs.Kept.{IsLabellerOf, IsReady};

use crate::compiled::CompiledModel;
use crate::requests::carry_out;
use lv_labels::Labeller;
use lv_reply::Reply;
use lv_session_state::{Request, Running, State, Unread, request_of};
use lv_text::Token;
use std::alloc::{AllocError, Global};

/// The room of a line's tokens; what the current query has come to; and once labels were asked for, what answers that.
#[derive(Drop)]
pub struct Workings<'a> {
    pub(crate) room: Vec<Token>,
    pub(crate) running: Running<'a>,
    pub(crate) labeller: Option<Labeller<'a>>,
}

impl<'a> Workings<'a> {
    /// What is kept where no line was served yet. Takes no memory.
    pub(crate) fn new(alloc: Global) -> Workings<'a>
        ensures labeller { result.labeller ≡ None }
        ensures running { result.running ≡ Nothing }
    {
        Workings {
            room: Vec::new(alloc),
            running: Running::Nothing,
            labeller: None,
        }
    }

    /// The same in a box, since letting go of it where it lies is slow to check.
    pub(crate) fn boxed(alloc: Global) -> Result<Box<Workings<'a>>, AllocError>
        ensures labeller { IfOk result (λ w. w.value.labeller ≡ None) }
        ensures running { IfOk result (λ w. w.value.running ≡ Nothing) }
    {
        Ok(Box::new(alloc, Workings::new(alloc))?)
    }
}

/// Does what a line asks for, which is given without its end, and answers the reply. After want of memory the state is
/// as it was, and what is kept of the current query may be lost.
#[tactic(auto, unfolding(crate::specs::Session::stepped))]
pub(crate) fn answer<'a>(
    alloc: Global,
    compiled: &'a CompiledModel<'a>,
    workings: &mut Workings<'a>,
    state: &mut State,
    line: &[u8],
) -> Result<Reply, AllocError>
    requires { IsReady compiled.now state.old workings.old }
    ensures ok { IfOk result (λ reply. record { state = state.new; reply = reply } ≡ stepped compiled.now state.old line.now) }
    ensures err { OnErr result (state.new ≡ state.old) }
    ensures kept { IsStateOf compiled.now state.new }
    ensures running { OnOk result (IsWorking compiled.now state.new workings.new.running) }
    ensures labeller { IsLabellerOf compiled.now workings.new.labeller }
{
    if state.is_ended() {
        return Ok(Reply::Nothing);
    }
    let model = compiled.model;
    match request_of(alloc, model, &compiled.lists, &mut workings.room, line) {
        Ok(request) => {
            let _plant = compiled.model().plant();
            carry_out(alloc, compiled, workings, state, request)
        }
        Err(Unread::Refused(refusal)) => Ok(Reply::Refused(refusal)),
        Err(Unread::Memory) => Err(AllocError),
    }
}

/// Does what is asked for, as a line that asks for it does, and answers the reply. After want of memory the state is as it
/// was, and what is kept of the current query may be lost.
pub(crate) fn perform<'a>(
    alloc: Global,
    compiled: &'a CompiledModel<'a>,
    workings: &mut Workings<'a>,
    state: &mut State,
    request: Request,
) -> Result<Reply, AllocError>
    requires ready { IsReady compiled.now state.old workings.old }
    requires request { IsRequestOf compiled.now request }
    ensures ok { IfOk result (λ reply. record { state = state.new; reply = reply } ≡ performed compiled.now state.old request) }
    ensures err { OnErr result (state.new ≡ state.old) }
    ensures kept { IsStateOf compiled.now state.new }
    ensures running { OnOk result (IsWorking compiled.now state.new workings.new.running) }
    ensures labeller { IsLabellerOf compiled.now workings.new.labeller }
{
    if state.is_ended() {
        return Ok(Reply::Nothing);
    }
    let _plant = compiled.model().plant();
    carry_out(alloc, compiled, workings, state, request)
}
