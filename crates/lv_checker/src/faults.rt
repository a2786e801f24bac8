//! Why a statement is refused whose place and names are right: a new name is in use, a formula gives too many clauses, a
//! limit is passed.
#![tactic(auto)]

ghost use Rattle.lv_base.specs.declared.limits.TheConstants.{VALUES as MOST_VALUES, VARIABLES as MOST_VARIABLES};
ghost use Rattle.std.specs.Prelude.{◌≡◌, ◌+◌, ◌||◌, nat_lt, length, None, IfOk, IfErr, Ok, Err};
ghost use Rattle.std.specs.List.{list_all, list_any};
ghost use Rattle.std.specs.Option.{option_map_or};
ghost use Rattle.lv_reader.specs.declared.code.ModelCode.{ModelCode};
ghost use Rattle.lv_base.specs.Tree.{Tree};
ghost use Rattle.lv_model.specs.Counts.{has_count, mode_formula_has_count, guard_has_counts};
ghost use Rattle.lv_model.specs.Lists.{part_width};
ghost use Rattle.lv_checker.specs.Faults.{are_distinct, is_law_in, are_of_distinct_modes, in_use_inside, is_too_long_inside, is_long_name, passes_inside, share_of, passes_outside, first_of, fault_where, fault_of_entry, unless_faulty, judged};
ghost use Rattle.lv_model_entries.specs.Entries.{TellsEntry};
ghost use Rattle.lv_model_entries.specs.declared.draft.Entry.TheVariants.{NewPart, SystemLaw};

use lv_base::{Condition, Name, ValId, find_name, limits};
use lv_model::lookup::type_of;
use lv_model::{ComponentType, Domain, ModeFormula, Move, MoveKind, Part};
use lv_model_entries::{CheckFault, Draft, Entry, TypeDraft, entry_of};
use lv_reader::{ModelCode, Statement};
use std::alloc::Global;

/// Whether no name stands twice.
fn are_distinct(names: &[Name]) -> bool
    ensures { result ≡ are_distinct names.now }
{
    let mut rest = names;
    while let Some((name, more)) = rest.split_first() {
        if find_name(more, name.as_slice()).is_some() {
            return false;
        }
        rest = more;
    }
    true
}

fn is_long_name(name: &Name) -> bool
    ensures { result ≡ is_long_name name.now }
{
    name.len() > limits::NAME_BYTES
}

fn has_long_name(names: &[Name]) -> bool
    ensures { result ≡ list_any is_long_name names.now }
{
    names.iter().any(|name| is_long_name(name))
}

fn has_law_in(laws: &[ModeFormula], mode: ValId) -> bool
    ensures { result ≡ list_any (is_law_in mode.0) laws.now }
{
    laws.iter().any(|law| law.mode.0 == mode.0)
}

/// Whether no mode stands twice.
fn are_of_distinct_modes(laws: &[ModeFormula]) -> bool
    ensures { result ≡ are_of_distinct_modes laws.now }
{
    let mut rest = laws;
    while let Some((law, more)) = rest.split_first() {
        if has_law_in(more, law.mode) {
            return false;
        }
        rest = more;
    }
    true
}

/// Whether a variable's or a mode's name is in use in the type, or a mode stands twice in its line.
fn is_in_use_inside(current: &TypeDraft, entry: &Entry) -> bool
    ensures { result ≡ in_use_inside current.now entry.now }
{
    let of = &current.lists;
    match entry {
        Entry::NewVariable(v) => of.find_variable(v.name.as_slice()).is_some(),
        Entry::NewMode(name, _) => {
            find_name(of.as_type().modes.as_slice(), name.as_slice()).is_some()
        }
        Entry::ModeLaws(laws) => !are_of_distinct_modes(laws.as_slice()),
        _ => false,
    }
}

/// Whether the condition gives few enough clauses in the sign.
fn has_count(condition: &Condition, sign: bool, sizes: &[u32]) -> bool
    ensures { result ≡ has_count sizes.now sign condition.now }
{
    condition.clause_count(sign, sizes).is_some()
}

/// Whether a guard does: that of a step is also denied.
fn guard_has_counts(m: &Move, sizes: &[u32]) -> bool
    ensures { result ≡ guard_has_counts sizes.now m.now }
{
    match &m.guard {
        Some(guard) => {
            has_count(guard, true, sizes)
                && (m.kind != MoveKind::Step || has_count(guard, false, sizes))
        }
        None => true,
    }
}

fn have_counts(laws: &[ModeFormula], sizes: &[u32]) -> bool
    ensures { result ≡ list_all (mode_formula_has_count sizes.now) laws.now }
{
    laws.iter()
        .all(|law| has_count(&law.condition, true, sizes))
}

fn guards_have_counts(moves: &[Move], sizes: &[u32]) -> bool
    ensures { result ≡ list_all (guard_has_counts sizes.now) moves.now }
{
    moves.iter().all(|m| guard_has_counts(m, sizes))
}

fn is_too_long_inside(current: &TypeDraft, entry: &Entry) -> bool
    ensures { result ≡ is_too_long_inside current.now entry.now }
{
    let sizes = current.sizes.as_slice();
    match entry {
        Entry::TypeLaw(f) => !has_count(f, true, sizes),
        Entry::ModeLaws(laws) => !have_counts(laws.as_slice(), sizes),
        Entry::NewMove(_, m) => !guard_has_counts(m, sizes),
        Entry::NewMoves(_, moves) => !guards_have_counts(moves.as_slice(), sizes),
        _ => false,
    }
}

/// Whether a type would have too many modes or moves, or a name is too long. A mode brings its stay.
fn passes_inside(current: &TypeDraft, entry: &Entry) -> bool
    ensures { result ≡ passes_inside current.now entry.now }
{
    let of = current.lists.as_type();
    match entry {
        Entry::NewVariable(v) => is_long_name(&v.name),
        Entry::NewMode(name, _) => {
            of.modes.len() >= limits::MODES as usize
                || of.moves.len() >= limits::MOVES as usize
                || is_long_name(name)
        }
        Entry::NewMove(..) => of.moves.len() >= limits::MOVES as usize,
        Entry::NewMoves(_, moves) => {
            of.moves.len().saturating_add(moves.len()) > limits::MOVES as usize
        }
        _ => false,
    }
}

/// The share of a part in the clauses of the model.
pub fn share_of(draft: &Draft, part: &Part) -> u32
    ensures { result ≡ share_of draft.now part.now }
{
    match draft.shares.as_slice().get(part.kind as usize) {
        Some(share) => *share,
        None => 0,
    }
}

/// Whether the part's variables, behind so many others, are too many.
fn are_many_variables(types: &[ComponentType], part: &Part, others: usize) -> bool
    ensures { result ≡ nat_lt MOST_VARIABLES (others + part_width types.now part.now) }
{
    match type_of(types, part) {
        Some(of) => others.saturating_add(of.variables.len()) >= limits::VARIABLES as usize,
        None => others > limits::VARIABLES as usize,
    }
}

fn part_passes(draft: &Draft, part: &Part) -> bool
    ensures { result ≡ passes_outside draft.now (NewPart part.now) }
{
    let plant = draft.plant.as_plant();
    plant.parts.len() >= limits::PARTS as usize
        || are_many_variables(plant.types.as_slice(), part, draft.ranges.len())
        || u64::from(draft.clauses) + u64::from(share_of(draft, part))
            > u64::from(limits::MODEL_CLAUSES)
        || is_long_name(&part.name)
}

/// Whether a domain has too many values, or a name that is too long.
fn domain_passes(x: &Domain) -> bool
    ensures { result ≡ (nat_lt MOST_VALUES (length x.now.values) || (is_long_name x.now.name || list_any is_long_name x.now.values)) }
{
    x.values.len() > limits::VALUES as usize
        || is_long_name(&x.name)
        || has_long_name(x.values.as_slice())
}

/// Why a law is refused, if it is. Its clauses are counted once.
fn fault_of_law(draft: &Draft, law: &Condition) -> Option<ModelCode>
    ensures { result ≡ fault_where draft.now None (SystemLaw law.now) }
{
    let Some(count) = law.clause_count(true, draft.sizes.as_slice()) else {
        return Some(ModelCode::TooManyClauses);
    };
    if u64::from(draft.clauses) + 2 * u64::from(count) > u64::from(limits::MODEL_CLAUSES) {
        return Some(ModelCode::LimitPassed);
    }
    None
}

/// The first of the three, if one is true.
fn first_of(in_use: bool, too_long: bool, passes: bool) -> Option<ModelCode>
    ensures { result ≡ first_of in_use too_long passes }
{
    if in_use {
        Some(ModelCode::NameInUse)
    } else if too_long {
        Some(ModelCode::TooManyClauses)
    } else if passes {
        Some(ModelCode::LimitPassed)
    } else {
        None
    }
}

/// Why an entry outside types is refused, if it is: a name of the model is in use, a value stands twice in its domain or
/// is priced twice, a law gives too many clauses, or a limit is passed.
fn fault_outside(draft: &Draft, entry: &Entry) -> Option<ModelCode>
    ensures { result ≡ fault_where draft.now None entry.now }
{
    let plant = &draft.plant;
    match entry {
        Entry::Named(name) => first_of(false, false, is_long_name(name)),
        Entry::NewDomain(x) => first_of(
            plant.find_domain(x.name.as_slice()).is_some() || !are_distinct(x.values.as_slice()),
            false,
            domain_passes(x),
        ),
        Entry::TypeBegins(name) => first_of(
            plant.find_type(name.as_slice()).is_some(),
            false,
            is_long_name(name),
        ),
        Entry::NewPart(p) => first_of(
            plant.find_part(p.name.as_slice()).is_some(),
            false,
            part_passes(draft, p),
        ),
        Entry::SystemLaw(law) => fault_of_law(draft, law),
        Entry::NewPrice(p) => first_of(plant.is_priced(p.control, p.value), false, false),
        _ => None,
    }
}

/// Why the entry is refused, if it is.
#[tactic(auto, unfolding(crate::specs::Faults::fault_of_entry))]
fn fault_of_entry(draft: &Draft, entry: &Entry) -> Option<ModelCode>
    ensures { result ≡ fault_of_entry draft.now entry.now }
{
    match &draft.current {
        Some(current) => first_of(
            is_in_use_inside(current, entry),
            is_too_long_inside(current, entry),
            passes_inside(current, entry),
        ),
        None => fault_outside(draft, entry),
    }
}

/// The entry, unless there is a code for which it is refused.
fn unless_refused(code: Option<ModelCode>, entry: Entry) -> Result<Entry, CheckFault>
    ensures ok { IfOk result (λ e. option_map_or (λ (c : ModelCode). Err c) code (Ok entry) ≡ Ok e) }
    ensures fault { IfErr result (λ fault. TellsEntry fault (option_map_or (λ (c : ModelCode). Err c) code (Ok entry))) }
{
    match code {
        Some(code) => Err(CheckFault::Refused(code)),
        None => Ok(entry),
    }
}

/// What a statement adds, or the first code for which it is refused.
pub fn judged(alloc: Global, draft: &Draft, statement: &Statement) -> Result<Entry, CheckFault>
    ensures ok { IfOk result (λ e. judged draft.now statement.now ≡ Ok e) }
    ensures fault { IfErr result (λ fault. TellsEntry fault (judged draft.now statement.now)) }
{
    let entry = entry_of(alloc, draft, statement)?;
    let code = fault_of_entry(draft, &entry);
    unless_refused(code, entry)
}
