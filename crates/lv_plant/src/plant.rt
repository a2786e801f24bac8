//! The plant, and what each line does.
#![tactic(auto)]

ghost use Rattle.std.specs.Prelude.{◌≡◌, ◌<◌, ◌%◌, All, IfOk, OnOk, OnErr, IsErr, IfSome, None, true, nat_eq, length, replicate};
ghost use Rattle.lv_plant_step.specs.PlantSteps.{AskedFits, plant_step};
ghost use Rattle.lv_session.specs.lv_session_request.Requests.{IsSightingIn};
ghost use Rattle.lv_plant.specs.Plants.{EndsIn};
ghost use Rattle.lv_plant.specs.Naming.{NamesMove};
ghost use Rattle.lv_plant.specs.Seeing.{seen};
ghost use Rattle.lv_plant.specs.Findings.{goals_among};
ghost use Rattle.lv_plant.specs.Forms as forms;
ghost use Rattle.lv_plant.specs.Replies.{plant_text};
ghost use Rattle.lv_plant.specs.Answering.{next_at, SaysAt};
ghost use Rattle.lv_plant.specs.Standing.{at_start, with_session, with_fault, asked_of, moved, observed_by, told_by, diagnosed_by, lists_some, commit_at, committed_by, told_of, taken, named, handed_on, step, apply, done};

use crate::fault::PlantFault;
use crate::findings::{goals_told, is_held};
use crate::form::{PlantLine, asked_by};
use crate::naming::{NamedFault, fault_named};
use crate::reply::{GoalsTold, PlantReply, StepTold, plant_text};
use crate::seeing::{modes_in, seen, start_modes};
use lv_base::{MoveId, Seq, ValId};
use lv_model::Part;
use lv_plant_step::{Asked, PlantStep, PlantStepper};
use lv_reply::Reply;
use lv_serve::Responder;
use lv_session::{CompiledModel, Request, Session, Sighting};
use std::alloc::{AllocError, Global};
use std::marker;

/// How many steps the plant makes at most.
pub const STEPS: u64 = 1_000_000;

/// Whether a diagnosis is settled and lists something.
fn lists_some(diagnosis: &Reply) -> bool
    ensures { result ≡ lists_some diagnosis.now }
{
    match diagnosis {
        Reply::Settled(listed) => !listed.is_empty(),
        _ => false,
    }
}

/// That no fault is named of any part.
fn no_faults(alloc: Global, parts: &[Part]) -> Result<Vec<Option<MoveId>>, AllocError>
    ensures { IfOk result (λ out. out.items ≡ replicate (length parts.now) None) }
{
    vec![in alloc; None; parts.len()]
}

/// What finds the plant's steps. It lies apart from the plant, so that whoever holds one holds little.
fn stepper_of<'a>(
    alloc: Global,
    compiled: &'a CompiledModel<'a>,
) -> Result<Box<PlantStepper<'a>>, AllocError>
    ensures { IfOk result (λ stepper. stepper.value ≡ compiled.now) }
{
    let stepper = PlantStepper::new(alloc, compiled.model(), compiled.system())?;
    Ok(Box::new(alloc, stepper)?)
}

/// A plant and the session that is told what is observed of it.
#[derive(Drop)]
pub struct Plant<'a> {
    alloc: Global,
    compiled: &'a CompiledModel<'a>,
    session: Session<'a>,
    stepper: Box<PlantStepper<'a>>,
    modes: Vec<ValId>,
    faults: Vec<Option<MoveId>>,
    time: u64,
    is_halted: bool,
    is_out_of_memory: bool,
}

impl<'a> marker::Model for Plant<'a> {
    ghost use Rattle.lv_plant.specs.Standing.{Standing};
    ghost use Rattle.lv_plant.specs.Plants.{IsPlant};
    ghost use Rattle.std.specs.Coded.{codes};
    ghost use Rattle.lv_model.specs.lv_base.contracts.formula.Condition as condition;

    ghost Value = { Standing };

    ghost coded = { Prim.hlevel (codes, condition.the_row.coded) };

    ghost view = { λ p. record { session = p.session; modes = p.modes.items; faults = p.faults.items; time = p.time; is_halted = p.is_halted; is_out_of_memory = p.is_out_of_memory } };

    ghost invariant = { λ p. IsPlant p.compiled.now p.session p.stepper.value p.modes.items p.faults.items };
}

impl<'a> Plant<'a> {
    /// A plant at its start: its parts in their starting modes, and a session at its own.
    pub fn new(alloc: Global, compiled: &'a CompiledModel<'a>) -> Result<Plant<'a>, AllocError>
        ensures { IfOk result (λ plant. plant ≡ at_start compiled.now) }
    {
        let plant = compiled.model().plant();
        let modes = start_modes(alloc, plant.parts.as_slice())?;
        let faults = no_faults(alloc, plant.parts.as_slice())?;
        let stepper = stepper_of(alloc, compiled)?;
        let session = Session::new(alloc, compiled)?;
        Ok(Plant {
            alloc,
            compiled,
            session,
            stepper,
            modes,
            faults,
            time: 0,
            is_halted: false,
            is_out_of_memory: false,
        })
    }

    /// The move is named, for the next step.
    fn put(&mut self, named: NamedFault)
        requires { NamesMove self.old.session.plant named }
        ensures { self.new ≡ with_fault self.old named }
    {
        self.faults[named.part] = Some(named.mv);
    }

    /// `fault P N`
    fn name(&mut self, part: &[u8], tag: Option<u128>) -> PlantReply
        ensures { record { next = self.new; reply = result } ≡ named self.old.session.plant self.old part.now tag }
    {
        match fault_named(self.compiled.model(), self.modes.as_slice(), part, tag) {
            Some(named) => {
                self.put(named);
                PlantReply::Accepted
            }
            None => PlantReply::Refused(PlantFault::NoFault),
        }
    }

    /// What is asked of the next step.
    fn asked(&self) -> Result<Asked, AllocError>
        ensures asked { IfOk result (λ asked. asked ≡ asked_of self.now) }
        ensures fits { IfOk result (AskedFits self.now.session.plant) }
    {
        Ok(Asked {
            modes: Seq::from_slice(self.alloc, self.modes.as_slice())?,
            facts: self.session.facts()?,
            faults: Seq::from_slice(self.alloc, self.faults.as_slice())?,
        })
    }

    /// The step that the plant takes next, if there is one.
    fn next_step(&mut self) -> Result<Option<PlantStep>, AllocError>
        ensures step { IfOk result (λ step. step ≡ plant_step self.old.session.plant (asked_of self.old)) }
        ensures ends { IfOk result (λ step. IfSome step (EndsIn self.old.session.plant)) }
        ensures kept { self.new ≡ self.old }
    {
        let asked = self.asked()?;
        self.stepper.first_step(&asked)
    }

    /// The plant is where the step ends, and the named faults are forgotten.
    fn go_to(&mut self, step: &PlantStep) -> Result<(), AllocError>
        requires ends { EndsIn self.old.session.plant step.now }
        requires few { self.old.time < STEPS }
        ensures { OnOk result (self.new ≡ moved self.old.session.plant self.old step.now) }
    {
        let plant = self.compiled.model().plant();
        let modes = modes_in(self.alloc, plant.parts.as_slice(), step.after.as_slice())?;
        let faults = no_faults(self.alloc, plant.parts.as_slice())?;
        self.modes = modes;
        self.faults = faults;
        self.time += 1;
        Ok(())
    }

    /// Tells the session of an observation.
    fn observe(&mut self, sighting: Sighting) -> Result<(), AllocError>
        requires { IsSightingIn self.old.session.plant sighting }
        ensures { OnOk result (self.new ≡ with_session self.old (observed_by self.old sighting).state) }
    {
        self.session.perform(Request::Observe(sighting))?;
        Ok(())
    }

    /// What is observed of the step.
    fn seen(&self, step: &PlantStep) -> Result<Vec<Sighting>, AllocError>
        requires { EndsIn self.now.session.plant step.now }
        ensures seen { IfOk result (λ out. out.items ≡ seen self.now.session.plant (nat_eq (self.now.time % 2) 1) step.now.after) }
        ensures fit { IfOk result (λ out. All (IsSightingIn self.now.session.plant) out.items) }
    {
        let odd = self.time % 2 == 1;
        let b = step.after.as_slice();
        seen(self.alloc, self.compiled.model(), odd, b)
    }

    /// Tells the session what is observed.
    #[tactic(auto, unfolding(crate::specs::Standing::told_by))]
    fn tell(&mut self, step: &PlantStep) -> Result<(), AllocError>
        requires { EndsIn self.old.session.plant step.now }
        ensures { OnOk result (self.new ≡ told_by self.old step.now) }
    {
        let seen = self.seen(step)?;
        for sighting in seen {
            self.observe(sighting)?;
        }
        Ok(())
    }

    /// Has the session diagnose.
    fn diagnose(&mut self) -> Result<Reply, AllocError>
        ensures reply { IfOk result (λ reply. reply ≡ (diagnosed_by self.old).reply) }
        ensures state { OnOk result (self.new ≡ with_session self.old (diagnosed_by self.old).state) }
    {
        self.session.perform(Request::Diagnose)
    }

    /// Has the session commit.
    fn commit(&mut self) -> Result<Reply, AllocError>
        ensures reply { IfOk result (λ reply. reply ≡ (commit_at self.old).reply) }
        ensures state { OnOk result (self.new ≡ with_session self.old (commit_at self.old).state) }
    {
        self.session.perform(Request::Commit)
    }

    fn halt(&mut self)
        ensures { self.new ≡ record self.old { is_halted = true } }
    {
        self.is_halted = true;
    }

    /// Commits a settled diagnosis that lists something; behind any other the plant is halted.
    #[tactic(auto, unfolding(crate::specs::Standing::committed_by))]
    fn commit_or_halt(&mut self, diagnosis: &Reply) -> Result<Option<Reply>, AllocError>
        ensures { IfOk result (λ commit. record { next = self.new; commit = commit } ≡ committed_by self.old diagnosis.now) }
    {
        if lists_some(diagnosis) {
            Ok(Some(self.commit()?))
        } else {
            self.halt();
            Ok(None)
        }
    }

    /// Whether the goals are met behind a step.
    fn goals_after(&self, step: &PlantStep) -> GoalsTold
        requires { EndsIn self.now.session.plant step.now }
        ensures { result ≡ goals_among step.now.after self.now.session.state.goals }
    {
        goals_told(step.after.as_slice(), self.session.goals())
    }

    /// What is told of a step.
    fn told_of(
        &self,
        step: &PlantStep,
        diagnosis: Reply,
        commit: Option<Reply>,
    ) -> Result<StepTold, AllocError>
        requires { EndsIn self.now.session.plant step.now }
        ensures { IfOk result (λ told. told ≡ told_of self.now step.now diagnosis commit) }
    {
        let modes = self.modes.as_slice();
        Ok(StepTold {
            time: self.time,
            is_held: is_held(modes, self.session.tracked()),
            goals: self.goals_after(step),
            modes: Seq::from_slice(self.alloc, modes)?,
            diagnosis,
            commit,
        })
    }

    /// Takes a step, tells the session what is observed of it, and has it diagnose.
    fn take(&mut self, step: &PlantStep) -> Result<PlantReply, AllocError>
        requires ends { EndsIn self.old.session.plant step.now }
        requires few { self.old.time < STEPS }
        ensures { IfOk result (λ reply. record { next = self.new; reply = reply } ≡ taken self.old.session.plant self.old step.now) }
    {
        self.go_to(step)?;
        self.tell(step)?;
        let diagnosis = self.diagnose()?;
        let commit = self.commit_or_halt(&diagnosis)?;
        Ok(PlantReply::Moved(self.told_of(step, diagnosis, commit)?))
    }

    /// `step`
    fn go_on(&mut self) -> Result<PlantReply, AllocError>
        ensures { IfOk result (λ reply. record { next = self.new; reply = reply } ≡ step self.old.session.plant self.old) }
    {
        if self.is_halted || self.time >= STEPS {
            return Ok(PlantReply::Refused(PlantFault::NoMore));
        }
        match self.next_step()? {
            Some(step) => self.take(&step),
            None => Ok(PlantReply::Refused(PlantFault::NoStep)),
        }
    }

    /// `apply`
    fn apply(&mut self) -> Result<PlantReply, AllocError>
        ensures { IfOk result (λ reply. record { next = self.new; reply = reply } ≡ apply self.old) }
    {
        if self.session.recovery().is_none() {
            return Ok(PlantReply::Refused(PlantFault::NoRecovery));
        }
        self.session.apply()?;
        Ok(PlantReply::Accepted)
    }

    /// Hands on a line that is the session's.
    fn hand_on(&mut self, line: &[u8]) -> Result<PlantReply, AllocError>
        requires { forms.asked_by line.now ≡ forms.for_session }
        ensures { IfOk result (λ reply. record { next = self.new; reply = reply } ≡ handed_on self.old.session.plant self.old line.now) }
    {
        Ok(PlantReply::Told(self.session.step(line)?))
    }

    /// Does what a line asks for.
    fn answered(&mut self, line: &[u8]) -> Result<PlantReply, AllocError>
        ensures { IfOk result (λ reply. record { next = self.new; reply = reply } ≡ done self.old line.now) }
    {
        match asked_by(self.alloc, line)? {
            PlantLine::Nothing => Ok(PlantReply::Silence),
            PlantLine::Refused(fault) => Ok(PlantReply::Refused(fault)),
            PlantLine::ForSession => self.hand_on(line),
            PlantLine::Name { part, tag } => Ok(self.name(part, tag)),
            PlantLine::Step => self.go_on(),
            PlantLine::Apply => self.apply(),
        }
    }

    /// Does what a line asks for, which is given without its end, and answers the reply. Once memory was wanting, each
    /// later call answers so too.
    pub fn step(&mut self, line: &[u8]) -> Result<PlantReply, AllocError>
        ensures done { IfOk result (λ reply. record { next = self.new; reply = reply } ≡ done self.old line.now) }
        ensures err { OnErr result (self.new.is_out_of_memory ≡ true) }
        ensures stays { self.old.is_out_of_memory ≡ true → IsErr result }
    {
        if self.is_out_of_memory {
            return Err(AllocError);
        }
        match self.answered(line) {
            Ok(reply) => Ok(reply),
            Err(error) => {
                self.is_out_of_memory = true;
                Err(error)
            }
        }
    }

    /// The text of a reply.
    fn text_of(&self, reply: &PlantReply) -> Result<Vec<u8>, AllocError>
        ensures { IfOk result (λ text. text.items ≡ plant_text self.now.session.plant reply.now) }
    {
        plant_text(self.alloc, self.compiled.model(), reply)
    }

    /// Does what a line asks for, and writes the text of the reply in place of what stands in `text`.
    pub fn answer_into(&mut self, line: &[u8], text: &mut Vec<u8>) -> Result<(), AllocError>
        ensures state { OnOk result (self.new ≡ next_at self.old line.now) }
        ensures text { OnOk result (SaysAt self.old line.now text.new.items) }
    {
        let reply = self.step(line)?;
        let made = self.text_of(&reply);
        drop(reply);
        *text = made?;
        Ok(())
    }
}

/// A plant answers lines one by one. No line ends it.
impl Responder for Plant<'_> {
    ghost use Rattle.std.specs.Prelude.{false};
    ghost use Rattle.lv_plant.specs.Answering.{next_at, SaysAt};
    ghost use Rattle.lv_plant.specs.LongLines.{long_next, long_says};

    ghost next = { next_at };

    ghost says = { SaysAt };

    ghost has_ended = { λ _. false };

    fn answer(&mut self, line: &[u8], text: &mut Vec<u8>) -> Result<(), AllocError> {
        self.answer_into(line, text)
    }

    fn is_ended(&self) -> bool {
        false
    }

    ghost long_goes = { long_next };

    ghost long_says = { long_says };

    ghost ended_stays = { λ s line ended. absurd (cc ended) };

    ghost ended_silent = { λ s line ended. absurd (cc ended) };
}
