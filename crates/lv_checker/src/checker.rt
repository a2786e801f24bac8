//! The model that statements give, or the first of them that is refused.
#![tactic(auto)]

ghost use Rattle.std.specs.Prelude.{◌≡◌, ◌+◌, [], ◌∷◌, ◌++◌, IfOk, IfErr, IsTrue, OnOk, false, map, None};
ghost use Rattle.lv_model.specs.Ranges.{part_ranges};
ghost use Rattle.lv_model.specs.Counts.{held, type_count};
ghost use Rattle.lv_model.specs.WellFormed.{is_well_formed};
ghost use Rattle.lv_model_entries.specs.declared.draft.Entry.TheVariants.{Named, NewDomain, TypeBegins, NewPrice, TypeEnds};
ghost use Rattle.lv_model_entries.specs.Entries.{TellsEntry};
ghost use Rattle.lv_checker.specs.Faults.{fault_of_entry, judged};
ghost use Rattle.lv_checker.specs.Drafts.{bare, empty, limited_size, is_end, with_type, with_part, with_law, with_outside, with_where, with_entry};
ghost use Rattle.lv_checker.specs.Checking.{fine, one_added, ending_code, Finds};

use crate::faults::{judged, share_of};
use crate::types::{add_inside, begun};
use lv_base::{Condition, Name, Range, Seq};
use lv_model::counts::{law_count, type_count};
use lv_model::ranges::push_part;
use lv_model::totals::{limited, with};
use lv_model::{Domain, Model, Part, Plant, Price};
use lv_model_draft::{NamedPlant, NamedType};
use lv_model_entries::{CheckFault, Draft, Entry, TypeDraft};
use lv_reader::{ModelCode, ModelFault, NumberedStatement, Statement};
use std::alloc::{AllocError, Global};

/// A plant before any statement; the model's name is `model` until a statement gives one.
fn bare(alloc: Global) -> Result<NamedPlant, AllocError>
    ensures { IfOk result (λ plant. plant ≡ bare) }
{
    let name = Seq::from_slice(alloc, b"model")?;
    Ok(NamedPlant::new(alloc, name))
}

pub(crate) fn empty(alloc: Global) -> Result<Draft, AllocError>
    ensures { IfOk result (λ draft. draft ≡ empty) }
{
    Ok(Draft {
        plant: bare(alloc)?,
        ranges: Seq::new(alloc),
        sizes: Seq::new(alloc),
        shares: Seq::new(alloc),
        clauses: 0,
        current: None,
        has_begun: false,
    })
}

/// How many clauses a part of a type adds that ends here.
fn share_of_type(alloc: Global, draft: &Draft, ended: &TypeDraft) -> Result<u32, AllocError>
    ensures { IfOk result (λ share. share ≡ held (type_count draft.now.plant.domains ended.now.lists)) }
{
    type_count(
        alloc,
        draft.plant.as_plant().domains.as_slice(),
        ended.lists.as_type(),
    )
}

/// One more type behind the others, with its share.
fn add_shared(alloc: Global, draft: &mut Draft, of: NamedType, share: u32) -> Result<(), AllocError>
    ensures { OnOk result (draft.new ≡ record draft.old { plant = record (draft.old.plant) { types = draft.old.plant.types ++ of ∷ [] }; shares = draft.old.shares ++ share ∷ [] }) }
{
    draft.plant.add_type(alloc, of)?;
    draft.shares.push(share)
}

/// A type that has ended, behind those before it, with the share of a part of it.
fn add_type(alloc: Global, draft: &mut Draft, ended: TypeDraft) -> Result<(), AllocError>
    requires { draft.old.current ≡ None }
    ensures { OnOk result (draft.new ≡ with_type draft.old ended) }
{
    let share = share_of_type(alloc, draft, &ended)?;
    add_shared(alloc, draft, ended.lists, share)
}

/// Ends the type that has begun, if one has.
fn end_type(alloc: Global, draft: &mut Draft) -> Result<(), AllocError>
    ensures { OnOk result (draft.new ≡ with_where draft.old draft.old.current TypeEnds) }
{
    match draft.current.take() {
        Some(ended) => add_type(alloc, draft, ended),
        None => Ok(()),
    }
}

fn is_end(entry: &Entry) -> bool
    ensures { result ≡ is_end entry.now }
{
    matches!(entry, Entry::TypeEnds)
}

/// What the variables of a part range over.
fn ranges_of(alloc: Global, plant: &Plant, part: &Part) -> Result<Vec<Range>, AllocError>
    ensures { IfOk result (λ out. out.items ≡ part_ranges plant.now.domains plant.now.types part.now) }
{
    let mut out = Vec::new(alloc);
    push_part(
        &mut out,
        plant.domains.as_slice(),
        plant.types.as_slice(),
        part,
    )?;
    Ok(out)
}

/// Adds how many values the variables have, where clauses are counted.
fn push_sizes(sizes: &mut Seq<u32>, ranges: &[Range]) -> Result<(), AllocError>
    ensures { OnOk result (sizes.new ≡ sizes.old ++ map limited_size ranges.now) }
{
    for range in ranges {
        sizes.push(limited(range.size))?;
    }
    Ok(())
}

fn push_ranges(all: &mut Seq<Range>, ranges: &[Range]) -> Result<(), AllocError>
    ensures { OnOk result (all.new ≡ all.old ++ ranges.now) }
{
    for range in ranges {
        all.push(*range)?;
    }
    Ok(())
}

/// Adds the ranges of a part's variables, and its share of clauses.
fn add_ranges(draft: &mut Draft, ranges: &[Range], share: u32) -> Result<(), AllocError>
    ensures { OnOk result (draft.new ≡ record draft.old { ranges = draft.old.ranges ++ ranges.now; sizes = draft.old.sizes ++ map limited_size ranges.now; clauses = held (draft.old.clauses + share) }) }
{
    draft.clauses = with(draft.clauses, share as usize);
    push_sizes(&mut draft.sizes, ranges)?;
    push_ranges(&mut draft.ranges, ranges)
}

/// One more part behind the others, whose variables have these ranges, with its share of clauses.
fn add_ranged_part(
    alloc: Global,
    draft: &mut Draft,
    part: Part,
    ranges: &[Range],
    share: u32,
) -> Result<(), AllocError>
    ensures { OnOk result (draft.new ≡ record draft.old { plant = record (draft.old.plant) { parts = draft.old.plant.parts ++ part ∷ [] }; ranges = draft.old.ranges ++ ranges.now; sizes = draft.old.sizes ++ map limited_size ranges.now; clauses = held (draft.old.clauses + share) }) }
{
    draft.plant.add_part(alloc, part)?;
    add_ranges(draft, ranges, share)
}

/// A part with its variables and its share of clauses.
fn add_part(alloc: Global, draft: &mut Draft, part: Part) -> Result<(), AllocError>
    ensures { OnOk result (draft.new ≡ with_part draft.old part) }
{
    let ranges = ranges_of(alloc, draft.plant.as_plant(), &part)?;
    let share = share_of(draft, &part);
    add_ranged_part(alloc, draft, part, ranges.as_slice(), share)
}

fn add_law(draft: &mut Draft, law: Condition) -> Result<(), AllocError>
    ensures { OnOk result (draft.new ≡ with_law draft.old law) }
{
    draft.clauses = with(
        draft.clauses,
        law_count(&law, draft.sizes.as_slice()) as usize,
    );
    draft.plant.push_law(law)
}

fn add_domain(alloc: Global, draft: &mut Draft, domain: Domain) -> Result<(), AllocError>
    ensures { OnOk result (draft.new ≡ with_outside draft.old (NewDomain domain)) }
{
    draft.plant.add_domain(alloc, domain)
}

fn add_price(alloc: Global, draft: &mut Draft, price: Price) -> Result<(), AllocError>
    ensures { OnOk result (draft.new ≡ with_outside draft.old (NewPrice price)) }
{
    draft.plant.add_price(alloc, price)
}

fn set_name(draft: &mut Draft, name: Name)
    ensures { draft.new ≡ with_outside draft.old (Named name) }
{
    draft.plant.set_name(name);
}

/// Begins a type.
fn begin_type(alloc: Global, draft: &mut Draft, name: Name) -> Result<(), AllocError>
    ensures { OnOk result (draft.new ≡ with_outside draft.old (TypeBegins name)) }
{
    let current = begun(alloc, name)?;
    draft.current = Some(current);
    Ok(())
}

/// Adds an entry outside types.
fn add_outside(alloc: Global, draft: &mut Draft, entry: Entry) -> Result<(), AllocError>
    ensures { OnOk result (draft.new ≡ with_outside draft.old entry) }
{
    match entry {
        Entry::Named(name) => {
            set_name(draft, name);
            Ok(())
        }
        Entry::NewDomain(domain) => add_domain(alloc, draft, domain),
        Entry::TypeBegins(name) => begin_type(alloc, draft, name),
        Entry::NewPart(part) => add_part(alloc, draft, part),
        Entry::SystemLaw(law) => add_law(draft, law),
        Entry::NewPrice(price) => add_price(alloc, draft, price),
        _ => Ok(()),
    }
}

/// Adds an entry to the type that has begun, which goes on, or outside types.
fn add_going_on(alloc: Global, draft: &mut Draft, entry: Entry) -> Result<(), AllocError>
    requires { is_end entry ≡ false }
    ensures { OnOk result (draft.new ≡ with_where draft.old draft.old.current entry) }
{
    match &mut draft.current {
        Some(current) => {
            add_inside(
                alloc,
                current,
                draft.plant.as_plant().domains.as_slice(),
                entry,
            )
        }
        None => add_outside(alloc, draft, entry),
    }
}

/// Adds an entry where its place is.
fn add_where(alloc: Global, draft: &mut Draft, entry: Entry) -> Result<(), AllocError>
    ensures { OnOk result (draft.new ≡ with_where draft.old draft.old.current entry) }
{
    if is_end(&entry) {
        return end_type(alloc, draft);
    }
    add_going_on(alloc, draft, entry)
}

/// Adds an entry, against which nothing speaks.
fn add_entry(alloc: Global, draft: &mut Draft, entry: Entry) -> Result<(), AllocError>
    ensures { OnOk result (draft.new ≡ with_entry draft.old entry) }
{
    draft.has_begun = true;
    add_where(alloc, draft, entry)
}

/// Adds what one more statement adds.
pub(crate) fn add_one(
    alloc: Global,
    draft: &mut Draft,
    numbered: &NumberedStatement,
) -> Result<(), ModelFault>
    ensures ok { OnOk result (one_added draft.old numbered.now ≡ fine draft.new) }
    ensures fault { IfErr result (λ fault. Finds fault (one_added draft.old numbered.now)) }
{
    match judged(alloc, draft, &numbered.statement) {
        Ok(entry) => {
            add_entry(alloc, draft, entry)?;
            Ok(())
        }
        Err(CheckFault::Refused(code)) => Err(ModelFault::At {
            code,
            line: numbered.line,
        }),
        Err(CheckFault::Memory) => Err(ModelFault::Memory),
    }
}

/// Why a text may not end there, if it may not.
pub(crate) fn ending_code(draft: &Draft) -> Option<ModelCode>
    ensures { result ≡ ending_code draft.now }
{
    if draft.current.is_some() {
        return Some(ModelCode::NotEnded);
    }
    if draft.plant.as_plant().parts.is_empty() {
        return Some(ModelCode::NoPart);
    }
    None
}

/// The model of a draft with which a text may end.
pub(crate) fn model_of_draft(draft: Draft) -> Model
    requires { IsTrue (is_well_formed draft.plant) }
    ensures { result ≡ draft.plant }
{
    Model::of_well_formed(draft.plant.into_plant())
}
