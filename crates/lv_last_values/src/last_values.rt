//! The values of the last satisfiable answer. They satisfy all clauses, so that of new values only what turned has to be
//! judged: each clause that holds a literal that was true and is false.
#![tactic(auto)]

ghost use Rattle.std.specs.Prelude.{◌≡◌, ℕ, [], true, false, length, not, None, Some, IfOk, OnOk, IfSome, IfNone, option_map};
ghost use Rattle.lv_clauses.specs.ClauseMap.{ClauseMap, Puts, satisfies};
ghost use Rattle.lv_last_values.specs.Values.{IsModel};
ghost use Rattle.lv_last_values.specs.Occurrences as Occurring;
ghost use Rattle.lv_last_values.specs.Occurrences.{AreTurned, IsSettled, IsUpToDate, NamesAll, RowHolds};
ghost use Rattle.lv_last_values.specs.Values.{IsFalsified, KeepMarks, TellsFalse};

use super::occurrences::Occurrences;
use lv_base::{BoolId, ClauseId, Lit, Seq};
use lv_clauses::{ClauseSet, clause_holds, lit_holds};
use std::alloc::{AllocError, Global};

/// After so many clauses taken away the occurrences are found anew, without them.
const MOST_GONE: u32 = 1000;

/// Values to be judged, and the booleans at which they differ from the last ones.
#[derive(Drop)]
pub struct Guess {
    pub values: Seq<bool>,
    pub turned: Vec<BoolId>,
}

/// Values that satisfy the clauses present, and which clauses hold each literal; none of either where it isn't known.
#[derive(Drop)]
pub struct LastValues {
    pub values: Option<Seq<bool>>,
    pub occurrences: Option<Occurrences>,
    /// How many clauses were taken away that the occurrences may still name.
    gone: u32,
}

impl LastValues {
    /// Where there was no answer yet.
    pub fn new() -> LastValues
        ensures { (set : ClauseMap) → IsUpToDate set result.values result.occurrences }
    {
        LastValues {
            values: None,
            occurrences: None,
            gone: 0,
        }
    }

    /// The values themselves, one for each boolean, where there are any.
    pub fn as_slice(&self) -> Option<&[bool]>
        ensures { option_map (λ bools. bools.now) result ≡ self.now.values }
    {
        match &self.values {
            Some(values) => Some(values.as_slice()),
            None => None,
        }
    }

    /// Keeps values, as far as memory suffices. Only behind other values the occurrences are found, since for a single
    /// answer they would cost more than they save.
    pub fn keep(&mut self, alloc: Global, set: &ClauseSet, values: &[bool])
        requires kept { IsUpToDate set.now self.old.values self.old.occurrences }
        requires model { IsModel set.now [] values.now }
        ensures { IsUpToDate set.now self.new.values self.new.occurrences }
    {
        if self.values.is_some() {
            fill(alloc, &mut self.occurrences, set);
        }
        self.values = copied(alloc, values);
    }

    /// Takes a clause in that was added.
    pub fn add(&mut self, lits: &[Lit], id: ClauseId)
        ensures { (old new : ClauseMap) → IsUpToDate old self.old.values self.old.occurrences → Puts old new id.0 (Some lits.now)
            → IsUpToDate new self.new.values self.new.occurrences }
    {
        judge_by(&mut self.values, lits);
        enter(&mut self.occurrences, lits, id);
    }

    /// Takes note that a clause was taken away.
    pub fn remove(&mut self)
        ensures { (old new : ClauseMap) (id : ℕ) → IsUpToDate old self.old.values self.old.occurrences → Puts old new id None
            → IsUpToDate new self.new.values self.new.occurrences }
    {
        if self.gone < MOST_GONE {
            self.gone += 1;
            return;
        }
        self.gone = 0;
        self.occurrences = None;
    }

    /// The last values with these marks in place of theirs; false where there is neither.
    pub fn guess(
        &self,
        alloc: Global,
        set: &ClauseSet,
        marks: &[Option<bool>],
    ) -> Result<Guess, AllocError>
        requires kept { IsUpToDate set.now self.now.values self.now.occurrences }
        requires len { length marks.now ≡ set.now.bools }
        ensures keep { IfOk result (λ guess. KeepMarks marks.now guess.values) }
        ensures turned { IfOk result (λ guess. IfSome self.now.values (λ last. AreTurned last guess.values guess.turned.items)) }
    {
        let mut values = self.copied_for(alloc, set)?;
        let turned = write_marks(alloc, marks, set.bools(), &mut values)?;
        Ok(Guess {
            values: Seq::from_vec(values),
            turned,
        })
    }

    /// The last values with these literals made false.
    pub(crate) fn turn(
        &self,
        alloc: Global,
        set: &ClauseSet,
        lits: &[Lit],
    ) -> Result<Guess, AllocError>
        requires kept { IsUpToDate set.now self.now.values self.now.occurrences }
        ensures len { IfOk result (λ guess. length guess.values ≡ set.now.bools) }
        ensures turned { IfOk result (λ guess. IfSome self.now.values (λ last. AreTurned last guess.values guess.turned.items)) }
    {
        let mut values = self.copied_for(alloc, set)?;
        let turned = make_false(alloc, lits, &mut values)?;
        Ok(Guess {
            values: Seq::from_vec(values),
            turned,
        })
    }

    /// A copy of the values; as many that are false, where there are none.
    fn copied_for(&self, alloc: Global, set: &ClauseSet) -> Result<Vec<bool>, AllocError>
        requires { IsUpToDate set.now self.now.values self.now.occurrences }
        ensures len { IfOk result (λ copy. length copy.items ≡ set.now.bools) }
        ensures same { IfOk result (λ copy. IfSome self.now.values (λ last. copy.items ≡ last)) }
    {
        match &self.values {
            Some(values) => Ok(Vec::from_slice(alloc, values.as_slice())?),
            None => Ok(vec![in alloc; false; set.bools() as usize]?),
        }
    }

    /// A clause that a guess makes false; None exactly where it satisfies all.
    pub fn first_false(&self, set: &ClauseSet, guess: &Guess) -> Option<ClauseId>
        requires kept { IsUpToDate set.now self.now.values self.now.occurrences }
        requires len { length guess.now.values ≡ set.now.bools }
        requires turned { IfSome self.now.values (λ last. AreTurned last guess.now.values guess.now.turned.items) }
        ensures some { IfSome result (λ id. IsFalsified set.now guess.now.values id.0) }
        ensures none { IfNone result (satisfies guess.now.values set.now.slots ≡ true) }
    {
        let values = guess.values.as_slice();
        match (&self.values, &self.occurrences) {
            (Some(last), Some(occurrences)) => first_turned(
                set,
                occurrences,
                last.as_slice(),
                values,
                guess.turned.as_slice(),
            ),
            _ => first_of_all(set, values),
        }
    }
}

/// Writes the marks of so many booleans in place of their values. Answers those that turn by that.
fn write_marks(
    alloc: Global,
    marks: &[Option<bool>],
    bools: u32,
    values: &mut [bool],
) -> Result<Vec<BoolId>, AllocError>
    requires marks { length marks.now ≡ bools }
    requires values { length values.old ≡ bools }
    ensures keep { OnOk result (KeepMarks marks.now values.new) }
    ensures turned { IfOk result (λ turned. AreTurned values.old values.new turned.items) }
{
    let mut turned = Vec::new(alloc);
    for var in 0..bools {
        let at = var as usize;
        if turns(marks[at], values[at]) {
            values[at] = !values[at];
            turned.push(BoolId(var))?;
        }
    }
    Ok(turned)
}

/// Makes the literals false. Answers their booleans.
fn make_false(alloc: Global, lits: &[Lit], values: &mut [bool]) -> Result<Vec<BoolId>, AllocError>
    ensures len { OnOk result (length values.new ≡ length values.old) }
    ensures turned { IfOk result (λ turned. AreTurned values.old values.new turned.items) }
{
    let mut turned = Vec::with_capacity(alloc, lits.len())?;
    for lit in lits {
        let index = lit.var.0 as usize;
        if index < values.len() {
            values[index] = !lit.sign;
            turned.push(lit.var)?;
        }
    }
    Ok(turned)
}

/// Whether a boolean of this value is marked with the other one.
#[inline(always)]
fn turns(mark: Option<bool>, value: bool) -> bool
    ensures yes { result ≡ true → mark ≡ Some (not value) }
    ensures no { result ≡ false → IfSome mark (λ marked. value ≡ marked) }
{
    match mark {
        Some(marked) => marked != value,
        None => false,
    }
}

/// Finds the occurrences where they aren't known, if memory suffices.
fn fill(alloc: Global, occurrences: &mut Option<Occurrences>, set: &ClauseSet)
    requires { IfSome occurrences.old (NamesAll set.now.slots) }
    ensures { IfSome occurrences.new (NamesAll set.now.slots) }
{
    if occurrences.is_none() {
        *occurrences = Occurrences::of(alloc, set).ok();
    }
}

/// A copy, if memory suffices.
fn copied(alloc: Global, values: &[bool]) -> Option<Seq<bool>>
    ensures { IfSome result (λ copy. copy ≡ values.now) }
{
    Seq::from_slice(alloc, values).ok()
}

/// Lets go of values that make a clause false that was added.
fn judge_by(values: &mut Option<Seq<bool>>, lits: &[Lit])
    ensures { (old new : ClauseMap) (id : ℕ) → Puts old new id (Some lits.now) → IfSome values.old (IsModel old []) → IfSome values.new (IsModel new []) }
{
    let Some(kept) = values else {
        return;
    };
    if !clause_holds(kept.as_slice(), lits) {
        *values = None;
    }
}

/// Enters a clause that was added, or lets go of the occurrences where memory is wanting.
fn enter(occurrences: &mut Option<Occurrences>, lits: &[Lit], id: ClauseId)
    ensures { (old new : ClauseMap) → Puts old new id.0 (Some lits.now) → IfSome occurrences.old (NamesAll old.slots) → IfSome occurrences.new (NamesAll new.slots) }
{
    let Some(rows) = occurrences else {
        return;
    };
    if rows.add(lits, id).is_err() {
        *occurrences = None;
    }
}

/// A clause that the values make false, found from the last ones, which satisfied all; None where there is none.
fn first_turned(
    set: &ClauseSet,
    occurrences: &Occurrences,
    last: &[bool],
    values: &[bool],
    turned: &[BoolId],
) -> Option<ClauseId>
    requires names { NamesAll set.now.slots occurrences.now }
    requires last { IsModel set.now [] last.now }
    requires len { length values.now ≡ set.now.bools }
    requires turned { AreTurned last.now values.now turned.now }
    ensures some { IfSome result (λ id. IsFalsified set.now values.now id.0) }
    ensures none { IfNone result (satisfies values.now set.now.slots ≡ true) }
{
    for at in 0..turned.len() {
        if let Some(id) = first_at(set, occurrences, last, values, turned[at]) {
            return Some(id);
        }
    }
    None
}

/// A clause that became false with a boolean's literal.
fn first_at(
    set: &ClauseSet,
    occurrences: &Occurrences,
    last: &[bool],
    values: &[bool],
    var: BoolId,
) -> Option<ClauseId>
    ensures some { IfSome result (λ id. IsFalsified set.now values.now id.0) }
    ensures none { IfNone result (IsSettled set.now.slots occurrences.now last.now values.now var.0) }
{
    let lit = true_lit(last, var);
    if lit_holds(values, lit) {
        return None;
    }
    first_in(set, occurrences, lit, values)
}

/// The literal of the boolean that the values make true.
fn true_lit(values: &[bool], var: BoolId) -> Lit
    ensures { result ≡ Occurring.true_lit values.now var.0 }
{
    let index = var.0 as usize;
    Lit {
        var,
        sign: index < values.len() && values[index],
    }
}

/// A clause of the literal's row that the values make false.
pub(crate) fn first_in(
    set: &ClauseSet,
    occurrences: &Occurrences,
    lit: Lit,
    values: &[bool],
) -> Option<ClauseId>
    ensures some { IfSome result (λ id. IsFalsified set.now values.now id.0) }
    ensures none { IfNone result (RowHolds set.now.slots occurrences.now values.now lit) }
{
    let mut place = occurrences.head(lit);
    while place > 0 {
        let link = occurrences.link(place);
        if is_false(set, values, link.id()) {
            return Some(link.id());
        }
        place = link.next();
    }
    None
}

/// A clause of all that the values make false.
fn first_of_all(set: &ClauseSet, values: &[bool]) -> Option<ClauseId>
    ensures some { IfSome result (λ id. IsFalsified set.now values.now id.0) }
    ensures none { IfNone result (satisfies values.now set.now.slots ≡ true) }
{
    for key in 0..set.bound() {
        if is_false(set, values, ClauseId(key)) {
            return Some(ClauseId(key));
        }
    }
    None
}

/// Whether a clause of this number is present and the values make it false.
fn is_false(set: &ClauseSet, values: &[bool], id: ClauseId) -> bool
    ensures { TellsFalse set.now values.now id.0 result }
{
    match set.find(id) {
        Some(clause) => !clause_holds(values, clause),
        None => false,
    }
}
