//! What the names in a line stand for: a control, an observable, a value. Which of them is unknown, or fits not, is told
//! by the refusal that is due.
#![tactic(auto)]

ghost use Rattle.std.specs.Prelude.{◌≡◌, position};
ghost use Rattle.lv_model.specs.Lists.{is_variable};
ghost use Rattle.lv_session_request.specs.Names.{variable_named, control_among, observable_among, control_of, observable_of, value_in};

use lv_base::{ValId, VarId};
use lv_model::Plant;
use lv_model_names::Lists;
use lv_model_names::names::{is_observable, value_of, variable_of};
use lv_reply::Refusal;

/// A plant and the lists that are made of it, by which names are looked up.
#[derive(Clone, Copy)]
pub struct Names<'a> {
    pub plant: &'a Plant,
    pub lists: &'a Lists,
}

/// A control by its place among the controls in written order, and its variable.
#[derive(Clone, Copy, Debug, PartialEq, Eq)]
pub struct Controlled {
    pub place: usize,
    pub var: VarId,
}

/// What the names of a part and of its variable stand for; both have to be known.
fn variable_named(plant: &Plant, part: &[u8], name: &[u8]) -> Result<VarId, Refusal>
    ensures { result ≡ variable_named plant.now part.now name.now }
{
    variable_of(plant, part, name).ok_or(Refusal::UnknownName)
}

/// The place of a variable among the controls.
fn control_place(controls: &[VarId], number: u32) -> Option<usize>
    ensures { result ≡ position (is_variable number) controls.now }
{
    controls.iter().position(|c| c.0 == number)
}

/// A variable has to be a control.
fn control_among(controls: &[VarId], var: VarId) -> Result<Controlled, Refusal>
    ensures { result ≡ control_among controls.now var }
{
    match control_place(controls, var.0) {
        Some(place) => Ok(Controlled { place, var }),
        None => Err(Refusal::NoControl),
    }
}

/// A variable has to be an observable.
fn observable_among(lists: &Lists, var: VarId) -> Result<VarId, Refusal>
    ensures { result ≡ observable_among lists.now var }
{
    if is_observable(lists.classes.as_slice(), var) {
        Ok(var)
    } else {
        Err(Refusal::NoObservable)
    }
}

/// The control of these names.
pub fn control_of(names: Names, part: &[u8], name: &[u8]) -> Result<Controlled, Refusal>
    ensures { result ≡ control_of names.entry.plant.now names.entry.lists.now part.now name.now }
{
    control_among(
        names.lists.controls.as_slice(),
        variable_named(names.plant, part, name)?,
    )
}

/// The observable of these names.
pub fn observable_of(names: Names, part: &[u8], name: &[u8]) -> Result<VarId, Refusal>
    ensures { result ≡ observable_of names.entry.plant.now names.entry.lists.now part.now name.now }
{
    observable_among(names.lists, variable_named(names.plant, part, name)?)
}

/// The value of this name, which the variable has to have.
pub fn value_in(names: Names, var: VarId, name: &[u8]) -> Result<ValId, Refusal>
    ensures { result ≡ value_in names.entry.plant.now names.entry.lists.now var name.now }
{
    value_of(names.plant, names.lists.ranges.as_slice(), var, name).ok_or(Refusal::NoValue)
}
