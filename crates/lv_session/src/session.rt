//! A session over a model: its state, and what each line does.
#![tactic(auto)]

ghost use Rattle.std.specs.Prelude.{◌≡◌, All, IfOk, IfSome, OnOk, OnErr, IsErr, is_some, true, false};
ghost use Rattle.std.specs.Option.{option_copied};
ghost use Rattle.lv_session_state.specs.lv_meaning.Facts.{FactsFit, FactsInRange};
ghost use Rattle.lv_session_state.specs.lv_meaning.Ranges.{StateFits};
ghost use Rattle.lv_session_state.specs.lv_session_request.Goals.{IsGoalIn};
ghost use Rattle.lv_session_state.specs.lv_session_request.Requests.{IsRequestOf};
ghost use Rattle.lv_session.specs.Session.{stepped, is_certifiable};
ghost use Rattle.lv_session_state.specs.State.{facts_of};
ghost use Rattle.lv_session.specs.Applying.{recovery_at, performed};
ghost use Rattle.lv_session_state.specs.Applying.{applied};
ghost use Rattle.lv_session.specs.Answering.{begun, next_at, SaysAt, is_open};
ghost use Rattle.lv_session.specs.Kept.{IsSession};
ghost use Rattle.lv_session.specs.Certificates.{Certifies, IsTextOf, IsDue};

use crate::certificates::certificate_text;
use crate::compiled::CompiledModel;
use crate::workings::{Workings, answer, perform};
use lv_base::ValId;
use lv_lanes::Lane;
use lv_model::TrackedState;
use lv_reply::{Reply, write_reply};
use lv_serve::Responder;
use lv_session_state::{Facts, Goal, Held, QueryEffort, Request, State, values_of};
use std::alloc::{AllocError, Global};
use std::marker;

/// A session over a model. What it keeps lies apart from it, so that whoever holds one holds little.
#[derive(Drop)]
pub struct Session<'a> {
    compiled: &'a CompiledModel<'a>,
    alloc: Global,
    workings: Box<Workings<'a>>,
    state: Box<State>,
    is_out_of_memory: bool,
}

impl<'a> marker::Model for Session<'a> {
    ghost use Rattle.lv_session.specs.Session.{RunningSession};
    ghost use Rattle.lv_session.specs.Kept.{IsSession};
    ghost use Rattle.std.specs.Coded.{codes};
    ghost use Rattle.lv_base.specs.contracts.formula.Condition as condition;

    ghost Value = { RunningSession };

    ghost coded = { Prim.hlevel (codes, condition.the_row.coded) };

    ghost view = { λ s. record { plant = s.compiled.now; state = s.state.value; is_out_of_memory = s.is_out_of_memory } };

    ghost invariant = { λ s. IsSession s.compiled.now s.workings.value s.state.value s.is_out_of_memory };
}

/// A session of what it keeps.
fn of_kept<'a>(
    alloc: Global,
    compiled: &'a CompiledModel<'a>,
    workings: Box<Workings<'a>>,
    state: Box<State>,
) -> Session<'a>
    requires { IsSession compiled.now workings.value state.value false }
    ensures { result ≡ record { plant = compiled.now; state = state.value; is_out_of_memory = false } }
{
    Session {
        compiled,
        alloc,
        workings,
        state,
        is_out_of_memory: false,
    }
}

impl<'a> Session<'a> {
    /// A session at its start.
    pub fn new(alloc: Global, compiled: &'a CompiledModel<'a>) -> Result<Session<'a>, AllocError>
        ensures { IfOk result (λ session. session ≡ begun compiled.now) }
    {
        let _plant = compiled.model.plant();
        let state = State::boxed(alloc, compiled.model)?;
        let workings = Workings::boxed(alloc)?;
        Ok(of_kept(alloc, compiled, workings, state))
    }

    /// Does what a line asks for, which is given without its end, and answers the reply. Once memory was wanting, each
    /// later call answers so too.
    pub fn step(&mut self, line: &[u8]) -> Result<Reply, AllocError>
        ensures reply { IfOk result (λ reply. reply ≡ (stepped self.old.plant self.old.state line.now).reply) }
        ensures state { OnOk result (self.new ≡ record self.old { state = (stepped self.old.plant self.old.state line.now).state }) }
        ensures due { IfOk result (IsDue self.new.plant self.new.state) }
        ensures err { OnErr result (self.new ≡ record self.old { is_out_of_memory = true }) }
        ensures stays { self.old.is_out_of_memory ≡ true → IsErr result }
    {
        if self.is_out_of_memory {
            return Err(AllocError);
        }
        let reply = answer(
            self.alloc,
            self.compiled,
            &mut self.workings,
            &mut self.state,
            line,
        );
        self.is_out_of_memory = reply.is_err();
        reply
    }

    /// Does what a line asks for, and writes a text of the reply in place of what stands in `text`.
    pub fn answer_into(&mut self, line: &[u8], text: &mut Vec<u8>) -> Result<(), AllocError>
        ensures state { OnOk result (self.new ≡ next_at self.old line.now) }
        ensures text { OnOk result (SaysAt self.old line.now text.new.items) }
    {
        let reply = self.step(line)?;
        self.write_text(&reply, text)
    }

    /// Whether the session has ended: exactly where a `quit` was accepted. Takes no memory.
    pub fn ended(&self) -> bool
        ensures { result ≡ self.now.state.is_ended }
    {
        self.state.is_ended()
    }

    /// Whether a query is current that `more` goes on with. Once memory was wanting, nothing is known of the query. Takes
    /// no memory.
    pub fn is_unsettled(&self) -> bool
        ensures { result ≡ is_open self.now }
    {
        let compiled = self.compiled;
        !self.is_out_of_memory
            && self
                .state
                .is_unsettled(compiled.model, &self.workings.running)
    }

    /// The tracked states. Takes no memory.
    pub fn tracked(&self) -> &[TrackedState]
        ensures tracked { result.now ≡ self.now.state.tracked }
        ensures fit { All (StateFits self.now.plant) result.now }
    {
        self.state.tracked().as_slice()
    }

    /// The values that the controls are commanded to, in written order. Takes no memory.
    pub fn controls(&self) -> &[ValId]
        ensures { result.now ≡ self.now.state.controls }
    {
        self.state.controls()
    }

    /// What is observed now, by its names. Takes no memory.
    pub fn present(&self) -> &Held
        ensures { result.now ≡ self.now.state.present }
    {
        self.state.present()
    }

    /// The goals. Takes no memory.
    pub fn goals(&self) -> &[Goal]
        ensures goals { result.now ≡ self.now.state.goals }
        ensures fit { All (IsGoalIn self.now.plant) result.now }
    {
        self.state.goals()
    }

    /// The facts of a diagnosis of the state as it is.
    pub fn facts(&self) -> Result<Facts, AllocError>
        ensures facts { IfOk result (λ facts. facts ≡ facts_of self.now.state) }
        ensures fit { IfOk result (FactsFit self.now.plant) }
        ensures in_range { IfOk result (FactsInRange self.now.plant) }
    {
        self.state.facts(self.alloc)
    }

    /// The values that the current recovery gives the controls: none exactly where no recovery is current that is settled
    /// and found some. Once memory was wanting, nothing is known of the query. Takes no memory.
    pub fn recovery(&self) -> Option<&[u32]>
        ensures { option_copied result ≡ recovery_at self.now }
    {
        if self.is_out_of_memory {
            return None;
        }
        let compiled = self.compiled;
        self.state
            .recovery_values(compiled.model, &self.workings.running)
    }

    /// Commands the controls as in the current recovery, those that rest released; no query is current any more.
    pub fn apply(&mut self) -> Result<(), AllocError>
        requires { is_some (recovery_at self.old) ≡ true }
        ensures ok { OnOk result (IfSome (recovery_at self.old) (λ values. self.new ≡ record self.old { state = applied self.old.state values })) }
        ensures err { OnErr result (self.new ≡ record self.old { is_out_of_memory = true }) }
    {
        let Some(numbers) = self.recovery() else {
            return Ok(());
        };
        match values_of(self.alloc, numbers) {
            Ok(values) => {
                self.state.command_all(values);
                Ok(())
            }
            Err(error) => {
                self.is_out_of_memory = true;
                Err(error)
            }
        }
    }

    /// Does what is asked for, as a line that asks for it does, and answers the reply. Once memory was wanting, each later
    /// call answers so too.
    pub fn perform(&mut self, request: Request) -> Result<Reply, AllocError>
        requires { IsRequestOf self.old.plant request }
        ensures reply { IfOk result (λ reply. reply ≡ (performed self.old.plant self.old.state request).reply) }
        ensures state { OnOk result (self.new ≡ record self.old { state = (performed self.old.plant self.old.state request).state }) }
        ensures err { OnErr result (self.new ≡ record self.old { is_out_of_memory = true }) }
        ensures stays { self.old.is_out_of_memory ≡ true → IsErr result }
    {
        if self.is_out_of_memory {
            return Err(AllocError);
        }
        let reply = perform(
            self.alloc,
            self.compiled,
            &mut self.workings,
            &mut self.state,
            request,
        );
        self.is_out_of_memory = reply.is_err();
        reply
    }

    /// What the last diagnosis did, in counts that no clause speaks of: for measuring. None where no diagnosis is kept. Takes
    /// no memory.
    pub fn effort(&self) -> Option<QueryEffort> {
        self.workings.running.effort()
    }

    /// Writes the text of the last reply of this session, or of any other that is no certificate, in place of what stands
    /// in `text`. A certificate is made here, of the current query.
    pub fn write_text(&self, reply: &Reply, text: &mut Vec<u8>) -> Result<(), AllocError>
        requires { IsDue self.now.plant self.now.state reply.now }
        ensures { OnOk result (IsTextOf self.now.plant self.now.state reply.now text.new.items) }
    {
        let compiled = self.compiled;
        match reply {
            Reply::Certificate => {
                *text = self.certificate_text()?;
                Ok(())
            }
            _ => write_reply(text, self.alloc, compiled.model, reply),
        }
    }

    /// The text of a certificate of the current query, which is settled and no test. Once memory was wanting, nothing is known of the
    /// query.
    fn certificate_text(&self) -> Result<Vec<u8>, AllocError>
        requires { is_certifiable self.now.state.query self.now.plant self.now.state ≡ true }
        ensures { IfOk result (λ text. Certifies self.now.state.query self.now.plant self.now.state text.items) }
    {
        if self.is_out_of_memory {
            return Err(AllocError);
        }
        let compiled = self.compiled;
        certificate_text(
            &self.state,
            self.alloc,
            compiled.model,
            &compiled.system,
            &self.workings.running,
        )
    }
}

impl Responder for Session<'_> {
    ghost use Rattle.lv_session.specs.Answering.{next_at, SaysAt, has_quit};
    ghost use Rattle.lv_session.specs.LongLines.{long_next, long_says, quit_stays, quit_silent};

    ghost next = { next_at };

    ghost says = { SaysAt };

    ghost has_ended = { has_quit };

    ghost long_goes = { long_next };

    ghost long_says = { long_says };

    ghost ended_stays = { quit_stays };

    ghost ended_silent = { quit_silent };

    fn answer(&mut self, line: &[u8], text: &mut Vec<u8>) -> Result<(), AllocError> {
        self.answer_into(line, text)
    }

    fn is_ended(&self) -> bool {
        self.ended()
    }
}

impl<'a> Lane for Session<'a> {
    ghost use Rattle.lv_session.specs.Answering.{begun_again, is_open};

    ghost start = { begun_again };

    ghost is_open = { is_open };

    fn fresh(&self) -> Result<Session<'a>, AllocError> {
        Session::new(self.alloc, self.compiled)
    }

    fn is_unsettled(&self) -> bool {
        Session::is_unsettled(self)
    }
}
