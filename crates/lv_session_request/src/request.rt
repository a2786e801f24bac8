//! What a line of a session asks for.
//!
//! A line is read by the form of its word alone, and the names and numbers in it are looked at afterwards, from left to
//! right: the first that is wrong is told. What depends on the state of the session is not judged here.
#![tactic(auto)]

ghost use Rattle.std.specs.Prelude.{◌≡◌, ◌≢◌, false, None, IfOk, IfErr, Ok};
ghost use Rattle.lv_text.specs.Lexemes.{line_reading, word_at};
ghost use Rattle.lv_model.specs.declared.plant.Plant.{Plant};
ghost use Rattle.lv_model_names.specs.declared.lists.Lists.{Lists as ListsOf};
ghost use Rattle.lv_model_names.specs.Lists.{lists_of};
ghost use Rattle.lv_formula_text.specs.Nesting.{is_too_deep};
ghost use Rattle.lv_session_request.specs.Goals.{AreRead};
ghost use Rattle.lv_session_request.specs.Names.{AreNames};
ghost use Rattle.lv_session_request.specs.declared.words.Word.TheVariants.{Command as CommandWord, Release as ReleaseWord, Observe as ObserveWord, Goal as GoalWord, Test as TestWord};
ghost use Rattle.lv_session_request.specs.Requests.{alone_by, track_of, budget_of, more_of, command_to, command_of, release_of, seen_as, tested_of, sighting_of, retracted_of, retraction_of, retract_of, labels_of, drop_of, window_of, request_by, asked, asked_by, request_of, Explains, IsSightingIn, IsCommandIn, IsObservableOf, IsRequestOf};

use crate::apart::Apart;
use crate::forms::{
    has_at_form, has_command_signs, has_distinct_form, has_observe_signs, has_release_signs,
    limited, name_at, number_to,
};
use crate::goals::{Goal, goal_of};
use crate::names::{Names, control_of, observable_of, value_in};
use crate::unread::Unread;
use crate::words::{Word, first_word};
use lv_base::limits::{BUDGET, TRACKED};
use lv_base::{Name, Seq, ValId, VarId};
use lv_formula_text::is_too_deep;
use lv_model::Model;
use lv_model_names::Lists;
use lv_reply::Refusal;
use lv_text::lexer::Token;
use lv_text::{TextFault, TokenLine};
use std::alloc::Global;

/// How many steps a window has at most.
pub const WINDOW: u32 = 4;

/// A control, by its place among the controls in written order, and the value that it is commanded to.
#[derive(Clone, Copy, Debug, PartialEq, Eq)]
pub struct Command {
    pub place: usize,
    pub value: ValId,
}

/// An observation by its name: the variable, and the value that it was seen to have.
#[derive(Debug, Drop)]
pub struct Sighting {
    pub name: Name,
    pub var: VarId,
    pub val: ValId,
}

/// An observation by its name, and the time of which it is held.
#[derive(Debug, Drop)]
pub struct Retraction {
    pub name: Name,
    pub time: u128,
}

/// What a line asks for. What is large of it lies apart, since a request is handed on by value, and most are small.
#[derive(Debug, Drop)]
pub enum Request {
    /// It has no tokens.
    Nothing,
    /// That diagnoses list so many candidates.
    Track(u32),
    /// The same, and that no two of them lead to one state.
    TrackDistinct(u32),
    /// That queries have so many trials.
    SetBudget(u64),
    SetControl(Command),
    /// That the control of this place rests.
    Release(usize),
    Observe(Sighting),
    /// That the observation of this name is taken out.
    Retract(Name),
    /// The same of the observation that is held of this time.
    RetractAt(Apart<Retraction>),
    SetGoal(Apart<Goal>),
    /// That the goal of this name is taken out.
    DropGoal(Name),
    Diagnose,
    Recover,
    /// That the current query goes on with so many more trials.
    More(u64),
    Commit,
    Conflicts,
    /// A certificate of the current query.
    Certificate,
    /// What propagation finds under the facts.
    Labels,
    /// The same from the tracked state of this number, counted from 1.
    LabelsFrom(u32),
    States,
    Reset,
    Quit,
    /// What one observation more would leave of the current diagnosis.
    Probe,
    /// A command set after which this observable tells the tracked states apart.
    Test(VarId),
    /// The trajectories of the last so many steps.
    Window(u32),
}

/// The request of a line that is its word alone.
fn alone(word: Word, line: &TokenLine<'_>) -> Result<Request, Unread>
    ensures ok { IfOk result (λ request. alone_by word line.now ≡ Ok request) }
    ensures fault { IfErr result (λ fault. Explains fault (alone_by word line.now)) }
    ensures within { (plant : Plant) → IfOk result (IsRequestOf plant) }
{
    if line.len() != 1 {
        return Err(Unread::Refused(Refusal::Form));
    }
    match word {
        Word::Diagnose => Ok(Request::Diagnose),
        Word::Recover => Ok(Request::Recover),
        Word::Commit => Ok(Request::Commit),
        Word::Conflicts => Ok(Request::Conflicts),
        Word::Certificate => Ok(Request::Certificate),
        Word::States => Ok(Request::States),
        Word::Reset => Ok(Request::Reset),
        Word::Quit => Ok(Request::Quit),
        Word::Probe => Ok(Request::Probe),
        _ => Err(Unread::Refused(Refusal::Form)),
    }
}

/// `track K`, or `track K distinct`.
fn track_of(line: &TokenLine<'_>) -> Result<Request, Unread>
    ensures ok { IfOk result (λ request. track_of line.now ≡ Ok request) }
    ensures fault { IfErr result (λ fault. Explains fault (track_of line.now)) }
    ensures within { (plant : Plant) → IfOk result (IsRequestOf plant) }
{
    if has_distinct_form(line) {
        return Ok(Request::TrackDistinct(limited(TRACKED as u64, line)? as u32));
    }
    Ok(Request::Track(number_to(TRACKED as u64, line)? as u32))
}

/// `budget B`
fn budget_of(line: &TokenLine<'_>) -> Result<Request, Unread>
    ensures ok { IfOk result (λ request. budget_of line.now ≡ Ok request) }
    ensures fault { IfErr result (λ fault. Explains fault (budget_of line.now)) }
    ensures within { (plant : Plant) → IfOk result (IsRequestOf plant) }
{
    Ok(Request::SetBudget(number_to(BUDGET, line)?))
}

/// `more B`
fn more_of(line: &TokenLine<'_>) -> Result<Request, Unread>
    ensures ok { IfOk result (λ request. more_of line.now ≡ Ok request) }
    ensures fault { IfErr result (λ fault. Explains fault (more_of line.now)) }
    ensures within { (plant : Plant) → IfOk result (IsRequestOf plant) }
{
    Ok(Request::More(number_to(BUDGET, line)?))
}

/// The command of a control, by its names, to a value of its domain.
#[tactic(auto, using(crate::proofs::RequestLaws::command_fits))]
fn command_to(names: Names, part: &[u8], name: &[u8], value: &[u8]) -> Result<Command, Refusal>
    requires { AreNames names }
    ensures command { result ≡ command_to names.entry.plant.now names.entry.lists.now part.now name.now value.now }
    ensures within { IfOk result (IsCommandIn names.entry.plant.now) }
{
    let control = control_of(names, part, name)?;
    let value = value_in(names, control.var, value)?;
    Ok(Command {
        place: control.place,
        value,
    })
}

/// `command P.C = V`
#[tactic(auto, unfolding(crate::specs::Requests::command_of))]
fn command_of(names: Names, line: &TokenLine<'_>) -> Result<Command, Refusal>
    requires { AreNames names }
    ensures command { result ≡ command_of names.entry.plant.now names.entry.lists.now line.now }
    ensures within { IfOk result (IsCommandIn names.entry.plant.now) }
{
    if !has_command_signs(line) {
        return Err(Refusal::Form);
    }
    let part = line.word(1).ok_or(Refusal::Form)?;
    let name = line.word(3).ok_or(Refusal::Form)?;
    let value = line.word(5).ok_or(Refusal::Form)?;
    command_to(names, part, name, value)
}

/// `release P.C`: the control's place.
#[tactic(auto, unfolding(crate::specs::Requests::release_of))]
fn release_of(names: Names, line: &TokenLine<'_>) -> Result<usize, Refusal>
    ensures { result ≡ release_of names.entry.plant.now names.entry.lists.now line.now }
{
    if !has_release_signs(line) {
        return Err(Refusal::Form);
    }
    let part = line.word(1).ok_or(Refusal::Form)?;
    let name = line.word(3).ok_or(Refusal::Form)?;
    Ok(control_of(names, part, name)?.place)
}

/// `test P.O`: the observable.
#[tactic(auto, unfolding(crate::specs::Requests::tested_of))]
fn tested_of(names: Names, line: &TokenLine<'_>) -> Result<VarId, Refusal>
    requires { AreNames names }
    ensures var { result ≡ tested_of names.entry.plant.now names.entry.lists.now line.now }
    ensures within { IfOk result (IsObservableOf names.entry.plant.now) }
{
    if !has_release_signs(line) {
        return Err(Refusal::Form);
    }
    let part = line.word(1).ok_or(Refusal::Form)?;
    let name = line.word(3).ok_or(Refusal::Form)?;
    observable_of(names, part, name)
}

/// An observable, by its names, seen to have a value of its domain, under a name.
#[tactic(auto, using(crate::proofs::RequestLaws::sighting_fits))]
fn seen_as(
    alloc: Global,
    names: Names,
    name: &[u8],
    part: &[u8],
    variable: &[u8],
    value: &[u8],
) -> Result<Sighting, Unread>
    requires { AreNames names }
    ensures ok { IfOk result (λ s. seen_as names.entry.plant.now names.entry.lists.now name.now part.now variable.now value.now ≡ Ok s) }
    ensures fault { IfErr result (λ fault. Explains fault (seen_as names.entry.plant.now names.entry.lists.now name.now part.now variable.now value.now)) }
    ensures within { IfOk result (IsSightingIn names.entry.plant.now) }
{
    let var = observable_of(names, part, variable)?;
    let val = value_in(names, var, value)?;
    Ok(Sighting {
        name: Seq::from_slice(alloc, name)?,
        var,
        val,
    })
}

/// `observe NAME P.O = V`
#[tactic(auto, unfolding(crate::specs::Requests::sighting_of))]
fn sighting_of(alloc: Global, names: Names, line: &TokenLine<'_>) -> Result<Sighting, Unread>
    requires { AreNames names }
    ensures ok { IfOk result (λ s. sighting_of names.entry.plant.now names.entry.lists.now line.now ≡ Ok s) }
    ensures fault { IfErr result (λ fault. Explains fault (sighting_of names.entry.plant.now names.entry.lists.now line.now)) }
    ensures within { IfOk result (IsSightingIn names.entry.plant.now) }
{
    if !has_observe_signs(line) {
        return Err(Unread::Refused(Refusal::Form));
    }
    let name = name_at(line, 1).ok_or(Refusal::Form)?;
    let part = line.word(2).ok_or(Refusal::Form)?;
    let variable = line.word(4).ok_or(Refusal::Form)?;
    let value = line.word(6).ok_or(Refusal::Form)?;
    seen_as(alloc, names, name, part, variable, value)
}

/// `retract NAME`, and `drop NAME`.
#[tactic(auto, unfolding(crate::specs::Requests::retracted_of))]
fn retracted_of(alloc: Global, line: &TokenLine<'_>) -> Result<Name, Unread>
    ensures ok { IfOk result (λ name. retracted_of line.now ≡ Ok name) }
    ensures fault { IfErr result (λ fault. Explains fault (retracted_of line.now)) }
{
    if line.len() != 2 {
        return Err(Unread::Refused(Refusal::Form));
    }
    let name = name_at(line, 1).ok_or(Refusal::Form)?;
    Ok(Seq::from_slice(alloc, name)?)
}

/// `retract NAME at S`.
#[tactic(auto, unfolding(crate::specs::Requests::retraction_of))]
fn retraction_of(alloc: Global, line: &TokenLine<'_>) -> Result<Retraction, Unread>
    ensures ok { IfOk result (λ r. retraction_of line.now ≡ Ok r) }
    ensures fault { IfErr result (λ fault. Explains fault (retraction_of line.now)) }
{
    let name = name_at(line, 1).ok_or(Refusal::Form)?;
    let time = line.number(3).ok_or(Refusal::OutOfLimits)?;
    Ok(Retraction {
        name: Seq::from_slice(alloc, name)?,
        time,
    })
}

/// `retract NAME`, or `retract NAME at S`.
fn retract_of(alloc: Global, line: &TokenLine<'_>) -> Result<Request, Unread>
    ensures ok { IfOk result (λ request. retract_of line.now ≡ Ok request) }
    ensures fault { IfErr result (λ fault. Explains fault (retract_of line.now)) }
    ensures within { (plant : Plant) → IfOk result (IsRequestOf plant) }
{
    if has_at_form(line) {
        let retraction = retraction_of(alloc, line)?;
        return Ok(Request::RetractAt(Apart::new(alloc, retraction)?));
    }
    Ok(Request::Retract(retracted_of(alloc, line)?))
}

/// `window W`.
fn window_of(line: &TokenLine<'_>) -> Result<Request, Unread>
    ensures ok { IfOk result (λ request. window_of line.now ≡ Ok request) }
    ensures fault { IfErr result (λ fault. Explains fault (window_of line.now)) }
    ensures within { (plant : Plant) → IfOk result (IsRequestOf plant) }
{
    Ok(Request::Window(number_to(WINDOW as u64, line)? as u32))
}

/// `labels`, or `labels I`.
fn labels_of(line: &TokenLine<'_>) -> Result<Request, Unread>
    ensures ok { IfOk result (λ request. labels_of line.now ≡ Ok request) }
    ensures fault { IfErr result (λ fault. Explains fault (labels_of line.now)) }
    ensures within { (plant : Plant) → IfOk result (IsRequestOf plant) }
{
    if line.len() == 1 {
        return Ok(Request::Labels);
    }
    Ok(Request::LabelsFrom(number_to(TRACKED as u64, line)? as u32))
}

/// The request of a `command` line.
fn commanding(names: Names, line: &TokenLine<'_>) -> Result<Request, Unread>
    requires names { AreNames names }
    ensures ok { IfOk result (λ request. request_by names.entry.plant.now names.entry.lists.now CommandWord line.now ≡ Ok request) }
    ensures fault { IfErr result (λ fault. Explains fault (request_by names.entry.plant.now names.entry.lists.now CommandWord line.now)) }
    ensures within { IfOk result (IsRequestOf names.entry.plant.now) }
{
    Ok(Request::SetControl(command_of(names, line)?))
}

/// The request of a `release` line.
fn releasing(names: Names, line: &TokenLine<'_>) -> Result<Request, Unread>
    requires names { AreNames names }
    ensures ok { IfOk result (λ request. request_by names.entry.plant.now names.entry.lists.now ReleaseWord line.now ≡ Ok request) }
    ensures fault { IfErr result (λ fault. Explains fault (request_by names.entry.plant.now names.entry.lists.now ReleaseWord line.now)) }
    ensures within { IfOk result (IsRequestOf names.entry.plant.now) }
{
    Ok(Request::Release(release_of(names, line)?))
}

/// The request of an `observe` line.
fn observing(alloc: Global, names: Names, line: &TokenLine<'_>) -> Result<Request, Unread>
    requires names { AreNames names }
    ensures ok { IfOk result (λ request. request_by names.entry.plant.now names.entry.lists.now ObserveWord line.now ≡ Ok request) }
    ensures fault { IfErr result (λ fault. Explains fault (request_by names.entry.plant.now names.entry.lists.now ObserveWord line.now)) }
    ensures within { IfOk result (IsRequestOf names.entry.plant.now) }
{
    Ok(Request::Observe(sighting_of(alloc, names, line)?))
}

/// The request of a `goal` line.
fn wanting(alloc: Global, names: Names, line: &TokenLine<'_>) -> Result<Request, Unread>
    requires names { AreNames names }
    requires shallow { is_too_deep line.now ≡ false }
    requires read { AreRead line.now }
    requires word { word_at line.now 0 ≢ None }
    ensures ok { IfOk result (λ request. request_by names.entry.plant.now names.entry.lists.now GoalWord line.now ≡ Ok request) }
    ensures fault { IfErr result (λ fault. Explains fault (request_by names.entry.plant.now names.entry.lists.now GoalWord line.now)) }
    ensures within { IfOk result (IsRequestOf names.entry.plant.now) }
{
    let goal = goal_of(alloc, names, line)?;
    Ok(Request::SetGoal(Apart::new(alloc, goal)?))
}

/// The request of a `drop` line.
fn dropping(alloc: Global, line: &TokenLine<'_>) -> Result<Request, Unread>
    ensures ok { IfOk result (λ request. drop_of line.now ≡ Ok request) }
    ensures fault { IfErr result (λ fault. Explains fault (drop_of line.now)) }
    ensures within { (plant : Plant) → IfOk result (IsRequestOf plant) }
{
    Ok(Request::DropGoal(retracted_of(alloc, line)?))
}

/// The request of a `test` line.
fn testing(names: Names, line: &TokenLine<'_>) -> Result<Request, Unread>
    requires names { AreNames names }
    ensures ok { IfOk result (λ request. request_by names.entry.plant.now names.entry.lists.now TestWord line.now ≡ Ok request) }
    ensures fault { IfErr result (λ fault. Explains fault (request_by names.entry.plant.now names.entry.lists.now TestWord line.now)) }
    ensures within { IfOk result (IsRequestOf names.entry.plant.now) }
{
    Ok(Request::Test(tested_of(names, line)?))
}

/// What a line that begins with this word asks for. Each arm hands on what it is answered, so that a line pays for the
/// room of its own request alone.
fn request_by(
    alloc: Global,
    names: Names,
    word: Word,
    line: &TokenLine<'_>,
) -> Result<Request, Unread>
    requires names { AreNames names }
    requires shallow { is_too_deep line.now ≡ false }
    requires read { AreRead line.now }
    requires word { word_at line.now 0 ≢ None }
    ensures ok { IfOk result (λ request. request_by names.entry.plant.now names.entry.lists.now word line.now ≡ Ok request) }
    ensures fault { IfErr result (λ fault. Explains fault (request_by names.entry.plant.now names.entry.lists.now word line.now)) }
    ensures within { IfOk result (IsRequestOf names.entry.plant.now) }
{
    match word {
        Word::Track => track_of(line),
        Word::Budget => budget_of(line),
        Word::Command => commanding(names, line),
        Word::Release => releasing(names, line),
        Word::Observe => observing(alloc, names, line),
        Word::Retract => retract_of(alloc, line),
        Word::Goal => wanting(alloc, names, line),
        Word::Drop => dropping(alloc, line),
        Word::Diagnose => alone(word, line),
        Word::Recover => alone(word, line),
        Word::More => more_of(line),
        Word::Commit => alone(word, line),
        Word::Conflicts => alone(word, line),
        Word::Certificate => alone(word, line),
        Word::Labels => labels_of(line),
        Word::States => alone(word, line),
        Word::Reset => alone(word, line),
        Word::Quit => alone(word, line),
        Word::Probe => alone(word, line),
        Word::Test => testing(names, line),
        Word::Window => window_of(line),
    }
}

/// What the tokens of a line ask for.
fn asked(alloc: Global, names: Names, line: &TokenLine<'_>) -> Result<Request, Unread>
    requires names { AreNames names }
    requires read { AreRead line.now }
    ensures ok { IfOk result (λ request. asked names.entry.plant.now names.entry.lists.now line.now ≡ Ok request) }
    ensures fault { IfErr result (λ fault. Explains fault (asked names.entry.plant.now names.entry.lists.now line.now)) }
    ensures within { IfOk result (IsRequestOf names.entry.plant.now) }
{
    if line.is_empty() {
        return Ok(Request::Nothing);
    }
    let Some(word) = first_word(line) else {
        return Err(Unread::Refused(Refusal::UnknownWord));
    };
    if is_too_deep(line) {
        return Err(Unread::Refused(Refusal::TooComplex));
    }
    request_by(alloc, names, word, line)
}

/// The tokens of a line, in the room that is given.
fn tokens_in<'a>(
    alloc: Global,
    room: &mut Vec<Token>,
    line: &'a [u8],
) -> Result<TokenLine<'a>, Unread>
    ensures ok { (plant : Plant) (lists : ListsOf) → IfOk result (λ found. asked_by plant lists (line_reading line.now) ≡ asked plant lists found) }
    ensures fault { (plant : Plant) (lists : ListsOf) → IfErr result (λ fault. Explains fault (asked_by plant lists (line_reading line.now))) }
    ensures read { IfOk result (λ found. AreRead found) }
{
    match TokenLine::read_into(alloc, room, line) {
        Ok(found) => Ok(found),
        Err(TextFault::LongLine) => Err(Unread::Refused(Refusal::LineTooLong)),
        Err(TextFault::BadByte(_)) => Err(Unread::Refused(Refusal::ByteNotAllowed)),
        Err(TextFault::Memory) => Err(Unread::Memory),
    }
}

/// What a line, which is given without its end, asks for, where these are the lists kept with the model. The tokens are
/// read into the room that is given, which can be used again.
#[tactic(auto, unfolding(crate::specs::Requests::request_of))]
pub fn request_of(
    alloc: Global,
    model: &Model,
    lists: &Lists,
    room: &mut Vec<Token>,
    line: &[u8],
) -> Result<Request, Unread>
    requires { lists.now ≡ lists_of model.now }
    ensures ok { IfOk result (λ request. request_of model.now line.now ≡ Ok request) }
    ensures fault { IfErr result (λ fault. Explains fault (request_of model.now line.now)) }
    ensures within { IfOk result (IsRequestOf model.now) }
{
    let found = tokens_in(alloc, room, line)?;
    let names = Names {
        plant: model.plant(),
        lists,
    };
    let request = asked(alloc, names, &found);
    *room = found.into_room();
    request
}
