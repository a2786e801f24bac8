//! What a statement adds to the statements before it, or why its place or its names are refused.
#![tactic(auto)]

ghost use Rattle.std.specs.Prelude.{◌≡◌, [], ◌∷◌, IfOk, IfErr, Ok, Some, None, false, length, map};
ghost use Rattle.std.specs.Option.{option_copied, option_map_or};
ghost use Rattle.lv_reader.specs.declared.code.ModelCode.TheVariants.{UnknownName};
ghost use Rattle.lv_reader.specs.declared.statement.Statement.TheVariants.{LawLine};
ghost use Rattle.lv_model_entries.specs.Entries.{variable_entry, mode_entry, mode_places, law_in, mode_laws_entry, line_number, fault_of, step_of, step_entry, guard_in, fault_entry, faults_to, is_short, faults_entry, repair_in, repair_entry, end_entry, inside_entry, name_entry, part_entry, own_variable, type_formula, is_control_of, has_control, priced_entry, price_entry, outside_entry, entry_of, TellsEntry, TellsFound};
ghost use Rattle.lv_model_entries.specs.Places.{mode_place};
ghost use Rattle.lv_model_entries.specs.declared.draft.CheckFault.TheVariants.{Refused};
ghost use Rattle.lv_model_entries.specs.declared.draft.Entry.TheVariants.{NewMoves};
ghost use Rattle.lv_model.specs.Lists.{is_control};
ghost use Rattle.lv_model.specs.declared.plant.Variable.{Variable};

use crate::copies::guard_copied;
use crate::draft::{CheckFault, Draft, Entry, TypeDraft};
use crate::places::{
    domain_place, mode_of_type, mode_place, part_of_name, placed, type_place, variable_numbered,
    variable_of_kind, variable_place,
};
use crate::scope::{
    own_value, own_variable_named, system_formula, type_formula, value_of_system, variable_of_part,
};
use lv_base::{Class, Condition, Cost, Formula, Name, Seq, ValId, VarId};
use lv_formula_text::Phrase;
use lv_model::{ComponentType, Domain, ModeFormula, Move, MoveKind, Part, Price, Variable};
use lv_model_draft::{NamedPlant, NamedType};
use lv_reader::{ModelCode, Repair, Statement};
use std::alloc::{AllocError, Global};

const UNKNOWN: CheckFault = CheckFault::Refused(ModelCode::UnknownName);

const NO_FIT: CheckFault = CheckFault::Refused(ModelCode::NoFit);

const MISPLACED: CheckFault = CheckFault::Refused(ModelCode::Misplaced);

const PASSED: CheckFault = CheckFault::Refused(ModelCode::LimitPassed);

fn copied(alloc: Global, name: &Name) -> Result<Name, AllocError>
    ensures { IfOk result (λ copy. copy ≡ name.now) }
{
    Seq::from_slice(alloc, name.as_slice())
}

fn all_copied(alloc: Global, names: &[Name]) -> Result<Seq<Name>, AllocError>
    ensures { IfOk result (λ copies. copies ≡ names.now) }
{
    let mut copies = Vec::new(alloc);
    for name in names {
        copies.push(copied(alloc, name)?)?;
    }
    Ok(Seq::from_vec(copies))
}

fn variable_entry(
    alloc: Global,
    plant: &NamedPlant,
    class: Class,
    name: &Name,
    domain: &Name,
) -> Result<Entry, CheckFault>
    ensures ok { IfOk result (λ e. variable_entry plant.now.domains class name.now domain.now ≡ Ok e) }
    ensures fault { IfErr result (λ fault. TellsEntry fault (variable_entry plant.now.domains class name.now domain.now)) }
{
    let domain = domain_place(plant, domain.as_slice()).ok_or(UNKNOWN)?;
    let name = copied(alloc, name)?;
    Ok(Entry::NewVariable(Variable {
        name,
        class,
        domain,
    }))
}

fn mode_entry(alloc: Global, of: &ComponentType, name: &Name) -> Result<Entry, CheckFault>
    ensures ok { IfOk result (λ e. mode_entry of.now name.now ≡ Ok e) }
    ensures fault { IfErr result (λ fault. TellsEntry fault (mode_entry of.now name.now)) }
{
    let number = placed(of.modes.len()).ok_or(PASSED)?;
    Ok(Entry::NewMode(copied(alloc, name)?, number))
}

/// The modes of these names.
#[tactic(auto, using(crate::proofs::PlaceLists::place_taken, crate::proofs::PlaceLists::place_missing, crate::proofs::PlaceLists::joined_none, crate::proofs::PlaceLists::left_at, crate::proofs::PlaceLists::places_taken))]
fn mode_places(alloc: Global, of: &ComponentType, names: &[Name]) -> Result<Vec<ValId>, CheckFault>
    ensures ok { IfOk result (λ modes. mode_places of.now names.now ≡ Ok modes.items) }
    ensures fault { IfErr result (λ fault. TellsFound fault (mode_places of.now names.now)) }
{
    let mut modes = Vec::new(alloc);
    'names: for name in names {
        let mode = mode_place(of, name.as_slice()).ok_or(UNKNOWN)?;
        modes.push(mode)?;
    }
    Ok(modes)
}

/// The formula once for each mode.
fn laws_in(alloc: Global, law: &Condition, modes: &[ValId]) -> Result<Seq<ModeFormula>, AllocError>
    ensures { IfOk result (λ laws. laws ≡ map (law_in law.now) modes.now) }
{
    let mut laws = Vec::new(alloc);
    'modes: for mode in modes {
        let condition = law.copied(alloc)?;
        laws.push(ModeFormula {
            mode: *mode,
            condition,
        })?;
    }
    Ok(Seq::from_vec(laws))
}

/// The number of the next step or fault line of a type, from 1.
fn line_number(of: &TypeDraft) -> Option<u32>
    ensures { result ≡ line_number of.now }
{
    of.lines.checked_add(1)
}

/// A step.
fn step_of(source: ValId, target: ValId, guard: Condition, line: u32) -> Move
    ensures { result ≡ step_of source target guard line }
{
    Move {
        kind: MoveKind::Step,
        source,
        target,
        guard: Some(guard),
        cost: Cost(0),
        line,
    }
}

/// A fault.
fn fault_of(source: ValId, target: ValId, cost: u64, guard: Option<Condition>, line: u32) -> Move
    ensures { result ≡ fault_of source target cost guard line }
{
    Move {
        kind: MoveKind::Fault,
        source,
        target,
        guard,
        cost: Cost(cost),
        line,
    }
}

/// The fault's target is reached by a fault like it from each other one of so many modes.
#[tactic(auto, using(crate::proofs::FaultLists::mode_passed_over, crate::proofs::FaultLists::mode_gives))]
fn faults_like(alloc: Global, fault: &Move, modes: u32) -> Result<Seq<Move>, AllocError>
    ensures { IfOk result (λ faults. faults ≡ faults_to fault.now.target fault.now.cost.0 fault.now.guard fault.now.line modes) }
{
    let mut faults = Vec::new(alloc);
    'modes: for mode in 0..modes {
        if mode != fault.target.0 {
            let guard = guard_copied(alloc, &fault.guard)?;
            faults.push(fault_of(ValId(mode), fault.target, fault.cost.0, guard, fault.line))?;
        }
    }
    Ok(Seq::from_vec(faults))
}

/// Whether the guard gives few enough clauses.
fn is_short(of: &TypeDraft, guard: &Option<Condition>) -> bool
    ensures { result ≡ is_short of.now guard.now }
{
    match guard {
        Some(guard) => guard.clause_count(true, of.sizes.as_slice()).is_some(),
        None => true,
    }
}

/// The variable at a place of a type, counted from its mode.
fn own_variable(variables: &[Variable], place: usize) -> Option<&Variable>
    ensures { option_copied result ≡ own_variable variables.now place }
{
    if place == 0 {
        return None;
    }
    variables.get(place - 1)
}

/// Whether the variable at a place of a type is a control, counted from its mode.
fn is_control_at(of: &ComponentType, place: usize) -> bool
    ensures { result ≡ option_map_or (λ (v : Variable). is_control v.class) (own_variable of.now.variables place) false }
{
    match own_variable(of.variables.as_slice(), place) {
        Some(variable) => variable.class == Class::Control,
        None => false,
    }
}

/// Whether the word names a control of the type.
fn is_control_of(of: &NamedType, word: &[u8]) -> bool
    ensures { result ≡ is_control_of of.now word.now }
{
    match variable_place(of, word) {
        Some(place) => is_control_at(of.as_type(), place),
        None => false,
    }
}

/// The equation by which a repair leads back.
fn repair_in(domains: &[Domain], of: &NamedType, repair: &Repair) -> Result<Condition, CheckFault>
    ensures ok { IfOk result (λ g. repair_in domains.now of.now repair.now ≡ Ok g) }
    ensures fault { IfErr result (λ fault. TellsFound fault (repair_in domains.now of.now repair.now)) }
{
    let variable = own_variable_named(of, repair.control.as_slice()).ok_or(UNKNOWN)?;
    if !is_control_of(of, repair.control.as_slice()) {
        return Err(NO_FIT);
    }
    let value = own_value(domains, of, variable, repair.value.as_slice()).ok_or(NO_FIT)?;
    Ok(Condition::new(Formula::Is(variable, value)))
}

/// What a line of this number adds that gives two moves.
fn two_moves(alloc: Global, line: u32, first: Move, second: Move) -> Result<Entry, AllocError>
    ensures { IfOk result (λ e. e ≡ NewMoves line (first ∷ second ∷ [])) }
{
    let mut moves = Seq::new(alloc);
    moves.push(first)?;
    moves.push(second)?;
    Ok(Entry::NewMoves(line, moves))
}

fn end_entry(of: &ComponentType) -> Result<Entry, CheckFault>
    ensures ok { IfOk result (λ e. end_entry of.now ≡ Ok e) }
    ensures fault { IfErr result (λ fault. TellsEntry fault (end_entry of.now)) }
{
    if of.modes.is_empty() {
        return Err(CheckFault::Refused(ModelCode::NotEnded));
    }
    Ok(Entry::TypeEnds)
}

/// A type that has begun, with the domains so far, by which the formulas and the modes of its lines are found.
#[derive(Drop)]
struct Inside<'a> {
    alloc: Global,
    domains: &'a [Domain],
    of: &'a TypeDraft,
}

impl Inside<'_> {
    #[tactic(auto, unfolding(crate::specs::Entries::inside_entry))]
    fn law(&self, phrase: &Phrase) -> Result<Entry, CheckFault>
        ensures ok { IfOk result (λ e. inside_entry self.now.domains.now self.now.of.now (LawLine phrase.now) ≡ Ok e) }
        ensures fault { IfErr result (λ fault. TellsEntry fault (inside_entry self.now.domains.now self.now.of.now (LawLine phrase.now))) }
    {
        Ok(Entry::TypeLaw(self.formula(phrase)?))
    }

    fn mode_laws(&self, names: &[Name], phrase: &Phrase) -> Result<Entry, CheckFault>
        ensures ok { IfOk result (λ e. mode_laws_entry self.now.domains.now self.now.of.now.lists names.now phrase.now ≡ Ok e) }
        ensures fault { IfErr result (λ fault. TellsEntry fault (mode_laws_entry self.now.domains.now self.now.of.now.lists names.now phrase.now)) }
    {
        let modes = mode_places(self.alloc, self.of.lists.as_type(), names)?;
        let law = self.formula(phrase)?;
        Ok(Entry::ModeLaws(laws_in(self.alloc, &law, modes.as_slice())?))
    }

    fn step(&self, source: &Name, target: &Name, guard: &Phrase) -> Result<Entry, CheckFault>
        ensures ok { IfOk result (λ e. step_entry self.now.domains.now self.now.of.now source.now target.now guard.now ≡ Ok e) }
        ensures fault { IfErr result (λ fault. TellsEntry fault (step_entry self.now.domains.now self.now.of.now source.now target.now guard.now)) }
    {
        let source = self.mode(source)?;
        let target = self.mode(target)?;
        let guard = self.formula(guard)?;
        let line = line_number(self.of).ok_or(PASSED)?;
        Ok(Entry::NewMove(line, step_of(source, target, guard, line)))
    }

    fn fault(
        &self,
        source: &Name,
        target: &Name,
        cost: u64,
        guard: &Option<Phrase>,
    ) -> Result<Entry, CheckFault>
        ensures ok { IfOk result (λ e. fault_entry self.now.domains.now self.now.of.now source.now target.now cost guard.now ≡ Ok e) }
        ensures fault { IfErr result (λ fault. TellsEntry fault (fault_entry self.now.domains.now self.now.of.now source.now target.now cost guard.now)) }
    {
        let source = self.mode(source)?;
        let target = self.mode(target)?;
        let guard = self.guard(guard)?;
        let line = line_number(self.of).ok_or(PASSED)?;
        let fault = fault_of(source, target, cost, guard, line);
        Ok(Entry::NewMove(line, fault))
    }

    fn faults(&self, target: &Name, cost: u64, guard: &Option<Phrase>) -> Result<Entry, CheckFault>
        ensures ok { IfOk result (λ e. faults_entry self.now.domains.now self.now.of.now target.now cost guard.now ≡ Ok e) }
        ensures fault { IfErr result (λ fault. TellsEntry fault (faults_entry self.now.domains.now self.now.of.now target.now cost guard.now)) }
    {
        let target = self.mode(target)?;
        let guard = self.guard(guard)?;
        if !is_short(self.of, &guard) {
            drop(guard);
            return Err(CheckFault::Refused(ModelCode::TooManyClauses));
        }
        let line = line_number(self.of).ok_or(PASSED)?;
        let modes = placed(self.of.lists.as_type().modes.len()).ok_or(PASSED)?;
        let fault = fault_of(target, target, cost, guard, line);
        let faults = faults_like(self.alloc, &fault, modes)?;
        Ok(Entry::NewMoves(line, faults))
    }

    fn repair(
        &self,
        ends: (&Name, &Name),
        cost: u64,
        repair: &Repair,
        guard: &Option<Phrase>,
    ) -> Result<Entry, CheckFault>
        ensures ok { IfOk result (λ e. repair_entry self.now.domains.now self.now.of.now ends.entry.0.now ends.entry.1.now cost repair.now guard.now ≡ Ok e) }
        ensures fault { IfErr result (λ fault. TellsEntry fault (repair_entry self.now.domains.now self.now.of.now ends.entry.0.now ends.entry.1.now cost repair.now guard.now)) }
    {
        let source = self.mode(ends.0)?;
        let target = self.mode(ends.1)?;
        let way_back = repair_in(self.domains, &self.of.lists, repair)?;
        let guard = self.guard(guard)?;
        let line = line_number(self.of).ok_or(PASSED)?;
        let fault = fault_of(source, target, cost, guard, line);
        let step = step_of(target, source, way_back, line);
        Ok(two_moves(self.alloc, line, fault, step)?)
    }

    /// The mode of a name.
    fn mode(&self, name: &Name) -> Result<ValId, CheckFault>
        ensures ok { IfOk result (λ mode. mode_place self.now.of.now.lists name.now ≡ Some mode) }
        ensures fault { IfErr result (λ fault. (mode_place self.now.of.now.lists name.now ≡ None) × (fault ≡ Refused UnknownName)) }
    {
        mode_place(self.of.lists.as_type(), name.as_slice()).ok_or(UNKNOWN)
    }

    /// A formula over the type's own variables.
    fn formula(&self, phrase: &Phrase) -> Result<Condition, CheckFault>
        ensures ok { IfOk result (λ f. type_formula self.now.domains.now self.now.of.now.lists phrase.now ≡ Ok f) }
        ensures fault { IfErr result (λ fault. TellsFound fault (type_formula self.now.domains.now self.now.of.now.lists phrase.now)) }
    {
        type_formula(self.alloc, self.domains, &self.of.lists, phrase)
    }

    /// The guard of a fault, if it has one.
    fn guard(&self, guard: &Option<Phrase>) -> Result<Option<Condition>, CheckFault>
        ensures ok { IfOk result (λ g. guard_in self.now.domains.now self.now.of.now.lists guard.now ≡ Ok g) }
        ensures fault { IfErr result (λ fault. TellsFound fault (guard_in self.now.domains.now self.now.of.now.lists guard.now)) }
    {
        match guard {
            Some(guard) => Ok(Some(self.formula(guard)?)),
            None => Ok(None),
        }
    }
}

/// What a statement adds in a type that has not ended.
#[tactic(auto, unfolding(crate::specs::Entries::inside_entry))]
fn inside_entry(
    alloc: Global,
    plant: &NamedPlant,
    of: &TypeDraft,
    statement: &Statement,
) -> Result<Entry, CheckFault>
    ensures ok { IfOk result (λ e. inside_entry plant.now.domains of.now statement.now ≡ Ok e) }
    ensures fault { IfErr result (λ fault. TellsEntry fault (inside_entry plant.now.domains of.now statement.now)) }
{
    let inside = Inside {
        alloc,
        domains: plant.as_plant().domains.as_slice(),
        of,
    };
    match statement {
        Statement::VariableLine(class, name, domain) => {
            variable_entry(alloc, plant, *class, name, domain)
        }
        Statement::ModeLine(name) => mode_entry(alloc, of.lists.as_type(), name),
        Statement::LawLine(phrase) => inside.law(phrase),
        Statement::InLine(modes, phrase) => inside.mode_laws(modes.as_slice(), phrase),
        Statement::StepLine(source, target, guard) => inside.step(source, target, guard),
        Statement::FaultLine(source, target, cost, guard) => {
            inside.fault(source, target, *cost, guard)
        }
        Statement::FaultsLine(target, cost, guard) => inside.faults(target, *cost, guard),
        Statement::RepairLine(source, target, cost, repair, guard) => {
            inside.repair((source, target), *cost, repair, guard)
        }
        Statement::EndLine => end_entry(of.lists.as_type()),
        _ => Err(MISPLACED),
    }
}

fn name_entry(alloc: Global, draft: &Draft, name: &Name) -> Result<Entry, CheckFault>
    ensures ok { IfOk result (λ e. name_entry draft.now name.now ≡ Ok e) }
    ensures fault { IfErr result (λ fault. TellsEntry fault (name_entry draft.now name.now)) }
{
    if draft.has_begun {
        return Err(MISPLACED);
    }
    Ok(Entry::Named(copied(alloc, name)?))
}

fn part_entry(
    alloc: Global,
    draft: &Draft,
    name: &Name,
    kind: &Name,
    start: &Name,
) -> Result<Entry, CheckFault>
    ensures ok { IfOk result (λ e. part_entry draft.now name.now kind.now start.now ≡ Ok e) }
    ensures fault { IfErr result (λ fault. TellsEntry fault (part_entry draft.now name.now kind.now start.now)) }
{
    let types = draft.plant.as_plant().types.as_slice();
    let kind = type_place(&draft.plant, kind.as_slice()).ok_or(UNKNOWN)?;
    let start = mode_of_type(types, kind as usize, start.as_slice()).ok_or(UNKNOWN)?;
    let first = variable_numbered(draft.ranges.len()).ok_or(PASSED)?;
    let name = copied(alloc, name)?;
    Ok(Entry::NewPart(Part {
        name,
        kind,
        start,
        first,
    }))
}

/// Whether the word names a control of the part.
fn has_control(plant: &NamedPlant, word: &[u8], part: &Part) -> bool
    ensures { result ≡ has_control plant.now.types word.now part.now }
{
    let Some(of) = plant.as_plant().types.as_slice().get(part.kind as usize) else {
        return false;
    };
    match variable_of_kind(plant, part.kind as usize, word) {
        Some(place) => is_control_at(of, place),
        None => false,
    }
}

fn priced_entry(value: ValId, control: VarId, cost: u64) -> Result<Entry, CheckFault>
    ensures ok { IfOk result (λ e. priced_entry value control cost ≡ Ok e) }
    ensures fault { IfErr result (λ fault. TellsEntry fault (priced_entry value control cost)) }
{
    if value.0 == 0 {
        return Err(NO_FIT);
    }
    Ok(Entry::NewPrice(Price {
        control,
        value,
        cost: Cost(cost),
    }))
}

fn price_entry(
    draft: &Draft,
    part: &Name,
    control: &Name,
    value: &Name,
    cost: u64,
) -> Result<Entry, CheckFault>
    ensures ok { IfOk result (λ e. price_entry draft.now part.now control.now value.now cost ≡ Ok e) }
    ensures fault { IfErr result (λ fault. TellsEntry fault (price_entry draft.now part.now control.now value.now cost)) }
{
    let plant = &draft.plant;
    let part = part_of_name(plant, part.as_slice()).ok_or(UNKNOWN)?;
    let variable = variable_of_part(plant, control.as_slice(), part).ok_or(UNKNOWN)?;
    if !has_control(plant, control.as_slice(), part) {
        return Err(NO_FIT);
    }
    let value = value_of_system(draft, variable, value.as_slice()).ok_or(NO_FIT)?;
    priced_entry(value, variable, cost)
}

/// What a statement adds outside types.
#[tactic(auto, unfolding(crate::specs::Entries::outside_entry))]
fn outside_entry(alloc: Global, draft: &Draft, statement: &Statement) -> Result<Entry, CheckFault>
    ensures ok { IfOk result (λ e. outside_entry draft.now statement.now ≡ Ok e) }
    ensures fault { IfErr result (λ fault. TellsEntry fault (outside_entry draft.now statement.now)) }
{
    match statement {
        Statement::ModelLine(name) => name_entry(alloc, draft, name),
        Statement::DomainLine(name, values) => Ok(Entry::NewDomain(Domain {
            name: copied(alloc, name)?,
            values: all_copied(alloc, values.as_slice())?,
        })),
        Statement::TypeLine(name) => Ok(Entry::TypeBegins(copied(alloc, name)?)),
        Statement::LawLine(phrase) => {
            Ok(Entry::SystemLaw(system_formula(alloc, draft, phrase)?))
        }
        Statement::PartLine(name, kind, start) => part_entry(alloc, draft, name, kind, start),
        Statement::PriceLine(part, control, value, cost) => {
            price_entry(draft, part, control, value, *cost)
        }
        _ => Err(MISPLACED),
    }
}

/// What a statement adds to those before it.
pub fn entry_of(alloc: Global, draft: &Draft, statement: &Statement) -> Result<Entry, CheckFault>
    ensures ok { IfOk result (λ e. entry_of draft.now statement.now ≡ Ok e) }
    ensures fault { IfErr result (λ fault. TellsEntry fault (entry_of draft.now statement.now)) }
{
    match &draft.current {
        Some(current) => inside_entry(alloc, &draft.plant, current, statement),
        None => outside_entry(alloc, draft, statement),
    }
}
