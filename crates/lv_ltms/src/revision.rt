//! Taking labels away. Where an assumption or a clause went, one pass along the trail takes away the labels whose
//! support is gone. Then an assumption or a clause of one literal may support a boolean that lost its label; and where a
//! clause watched a label that fell beside a literal that is false still, the trail is looked at anew from that literal
//! on. This is the well-known way of truth maintenance systems: a label lives as long as one support of it does.
#![tactic(auto)]

ghost use Rattle.std.specs.Prelude.{◌≡◌, ◌≢◌, ℕ, ◌<◌, ◌≤◌, ◌&&◌, [], List, true, false, length, not, vec_capacity, IsTrue, IfSome, IfNone, Bool};
ghost use Rattle.std.specs.List.{list_all};
ghost use Rattle.lv_base.specs.declared.ids.ClauseId.{ClauseId};
ghost use Rattle.lv_clauses.specs.Literals.{neg, in_range};
ghost use Rattle.lv_clauses.specs.ClauseMap.{Slots, clause_at};
ghost use Rattle.lv_clauses.specs.Marks.{Marks, is_marked};
ghost use Rattle.lv_clauses.specs.Marks as OfMarks;
ghost use Rattle.lv_ltms.specs.Labelled.{Agrees, AreLabels, Grows};
ghost use Rattle.lv_ltms.specs.Standing.{true_before};
ghost use Rattle.lv_ltms.specs.Watching.{lit_at, has_lit, IsThreaded, AreRows, InRow, AllInRow, AreGuarded, AreSettled};
ghost use Rattle.lv_ltms.specs.Revising.{IsShaken, IsSwept, AreUpright, NoneOpposed, TurnedToo, AreMarked, AreMarkedOrWait, NoneAgainst, IsOneSided, GetsSupport, GivesReason, is_wanted_by, derives_lit, is_other_or_false, reason_stands};
ghost use Rattle.lv_ltms.specs.Reaching.{IsWithout, StaysOn};
ghost use Rattle.lv_ltms.specs.Pairs.{AreWatched};
ghost use Rattle.lv_ltms.specs.Trail.{IsDerivation};

use super::arena::Arena;
use super::labels::{Labels, Link, Reason};
use super::watchers::Watchers;
use lv_base::{ClauseId, Lit};
use lv_clauses::{is_marked, negation};

/// What labels rest on: the assumptions, and the clauses, each with the two literals that it watches.
#[derive(Clone, Copy)]
pub struct Grounds<'a> {
    pub assumed: &'a [Option<bool>],
    pub arena: &'a Arena,
    pub near: &'a Watchers,
    pub far: &'a Watchers,
}

/// Goes along the trail from a place on: what still stands closes up, what doesn't loses its mark and is written down.
/// Answers how many are kept of the links before the place up to which the trail was looked at.
pub fn sweep(
    from: usize,
    done: usize,
    grounds: Grounds,
    labels: &mut Labels,
    fallen: &mut Vec<Lit>,
) -> usize
    requires labels { AreLabels (length labels.old.marks) labels.old }
    requires place { from ≤ length labels.old.trail }
    requires shaken { IsShaken (is_marked grounds.assumed.now) grounds.arena.now labels.old.trail from }
    requires room { length labels.old.marks ≤ vec_capacity fallen.old }
    requires empty { fallen.old.items ≡ [] }
    requires pairs { AreWatched grounds.arena.now grounds.near.now grounds.far.now }
    ensures labels { AreLabels (length labels.old.marks) labels.new }
    ensures range { IsTrue (list_all (in_range (length labels.old.marks)) fallen.new.items) }
    ensures swept { IsSwept (is_marked grounds.entry.assumed.now) grounds.entry.arena.now labels.old labels.new fallen.new.items }
    ensures stays { (l : Lit) → IsWithout (is_marked grounds.entry.assumed.now) grounds.entry.arena.now labels.old.trail l
        → StaysOn grounds.entry.arena.now labels.old.trail l labels.old.trail labels.new.trail }
    ensures within { result ≤ length labels.new.trail }
    ensures looked { (l : Lit) → true_before result labels.new.trail l ≡ true → true_before done labels.old.trail l ≡ true }
    ensures room { vec_capacity fallen.new ≡ vec_capacity fallen.old }
{
    let mut kept = from;
    let mut looked = from.min(done);
    for at in from..labels.trail().len() {
        let link = labels.trail()[at];
        if stands(link, grounds, labels.marks()) {
            labels.put(kept, link);
            kept += 1;
            if at < done {
                looked = kept;
            }
        } else {
            labels.unmark(link.lit);
            fallen.push_reserved(link.lit);
        }
    }
    labels.cut(kept);
    looked
}

/// Whether a label's reason still supports it: the assumption is present, or the clause is and its other literals are
/// false. An assumption of the negation takes the label away.
fn stands(link: Link, grounds: Grounds, marks: &[Option<bool>]) -> bool
    requires pairs { AreWatched grounds.arena.now grounds.near.now grounds.far.now }
    ensures { result ≡ (not (is_marked grounds.entry.assumed.now (neg link.lit)) && reason_stands (is_marked grounds.entry.assumed.now) grounds.entry.arena.now (is_marked marks.now) link.lit link.reason) }
{
    !is_marked(grounds.assumed, negation(link.lit))
        && match link.reason {
            Reason::Assumed => is_marked(grounds.assumed, link.lit),
            Reason::Clause(id) => derives(id, link.lit, grounds, marks),
        }
}

/// Whether a clause is there whose literals but this one are false.
fn derives(id: ClauseId, lit: Lit, grounds: Grounds, marks: &[Option<bool>]) -> bool
    requires pairs { AreWatched grounds.arena.now grounds.near.now grounds.far.now }
    ensures { result ≡ derives_lit (is_marked marks.now) lit (clause_at grounds.entry.arena.now id.0) }
{
    if grounds.arena.is_pair(id) {
        return are_both_false_but(grounds.near.lit(id), grounds.far.lit(id), lit, marks);
    }
    match grounds.arena.find(id) {
        Some(lits) => are_false_but(lits, lit, marks),
        None => false,
    }
}

/// Whether of two literals each is this one or is false.
fn are_both_false_but(one: Lit, two: Lit, lit: Lit, marks: &[Option<bool>]) -> bool
    ensures { result ≡ (is_other_or_false (is_marked marks.now) lit one && is_other_or_false (is_marked marks.now) lit two) }
{
    is_false_but(one, lit, marks) && is_false_but(two, lit, marks)
}

/// Whether all literals but this one are false.
fn are_false_but(lits: &[Lit], lit: Lit, marks: &[Option<bool>]) -> bool
    ensures { result ≡ list_all (is_other_or_false (is_marked marks.now) lit) lits.now }
{
    lits.iter().all(|other| is_false_but(*other, lit, marks))
}

/// Whether a literal is this one or is false.
fn is_false_but(other: Lit, lit: Lit, marks: &[Option<bool>]) -> bool
    ensures { result ≡ is_other_or_false (is_marked marks.now) lit other }
{
    other == lit || is_marked(marks, negation(other))
}

/// Gives each boolean that lost its label that of an assumption or of a clause of one literal, if there is one. The
/// negations of the literals that fell are looked at only where this says so.
pub fn support_all(fallen: &[Lit], both: bool, grounds: Grounds, labels: &mut Labels)
    requires rows { AreRows grounds.near.now grounds.far.now }
    requires labels { AreLabels (length labels.old.marks) labels.old }
    requires range { IsTrue (list_all (in_range (length labels.old.marks)) fallen.now) }
    requires one_sided { IsOneSided (is_marked grounds.assumed.now) }
    requires against { NoneAgainst (is_marked grounds.assumed.now) (is_marked labels.old.marks) }
    requires marked { AreMarkedOrWait (is_marked grounds.assumed.now) labels.old fallen.now }
    requires upright { both ≡ false → AreUpright (is_marked grounds.assumed.now) fallen.now }
    ensures grows { Grows labels.old labels.new }
    ensures marked { AreMarked (is_marked grounds.entry.assumed.now) labels.new }
    ensures derivation { (slots : Slots) (bools : ℕ) (truth : Lit → Bool) (marks : Marks) → IsThreaded grounds.entry.near.now slots bools → AreGuarded slots (lit_at grounds.entry.near.now) (lit_at grounds.entry.far.now) truth marks fallen.now
        → IsDerivation slots (is_marked grounds.entry.assumed.now) labels.old.trail → IsDerivation slots (is_marked grounds.entry.assumed.now) labels.new.trail }
    ensures settled { (slots : Slots) (bools : ℕ) → IsThreaded grounds.entry.near.now slots bools → (both ≡ false → NoneOpposed slots (lit_at grounds.entry.near.now) (lit_at grounds.entry.far.now) fallen.now) → AreSettled slots (lit_at grounds.entry.near.now) (lit_at grounds.entry.far.now) labels.old.marks fallen.now
        → AreSettled slots (lit_at grounds.entry.near.now) (lit_at grounds.entry.far.now) labels.new.marks [] }
{
    for lit in fallen {
        support(*lit, grounds, labels);
        support_negation(*lit, both, grounds, labels);
    }
}

/// Marks the negation of a literal in the same way, where both are looked at.
fn support_negation(lit: Lit, both: bool, grounds: Grounds, labels: &mut Labels)
    requires rows { AreRows grounds.near.now grounds.far.now }
    requires labels { AreLabels (length labels.old.marks) labels.old }
    requires range { lit.var.0 < length labels.old.marks }
    requires one_sided { IsOneSided (is_marked grounds.assumed.now) }
    requires against { NoneAgainst (is_marked grounds.assumed.now) (is_marked labels.old.marks) }
    ensures { (all : List Lit) → (both ≡ false → AreUpright (is_marked grounds.entry.assumed.now) all) → has_lit all lit ≡ true
        → TurnedToo (is_marked grounds.entry.assumed.now) grounds.entry.near.now grounds.entry.far.now both all labels.old labels.new lit }
{
    if !both {
        return;
    }
    support(negation(lit), grounds, labels);
}

/// Marks a literal where it is assumed, or a clause has no other; unless its boolean is marked, or its negation is
/// assumed.
#[inline(always)]
fn support(lit: Lit, grounds: Grounds, labels: &mut Labels)
    requires rows { AreRows grounds.near.now grounds.far.now }
    requires labels { AreLabels (length labels.old.marks) labels.old }
    requires range { lit.var.0 < length labels.old.marks }
    requires one_sided { IsOneSided (is_marked grounds.assumed.now) }
    requires against { NoneAgainst (is_marked grounds.assumed.now) (is_marked labels.old.marks) }
    ensures { GetsSupport (is_marked grounds.entry.assumed.now) grounds.entry.near.now grounds.entry.far.now labels.old labels.new lit }
{
    if !is_wanted(lit, grounds.assumed, labels.marks()) {
        return;
    }
    if let Some(reason) = reason_for(lit, grounds) {
        labels.push(Link { lit, reason });
    }
}

/// Whether the literal's boolean is unmarked, and its negation isn't assumed.
fn is_wanted(lit: Lit, assumed: &[Option<bool>], marks: &[Option<bool>]) -> bool
    ensures { result ≡ is_wanted_by (is_marked assumed.now) (is_marked marks.now) lit }
{
    is_free(marks, lit) && !is_marked(assumed, negation(lit))
}

/// Whether neither a literal nor its negation is marked.
fn is_free(marks: &[Option<bool>], lit: Lit) -> bool
    ensures { result ≡ OfMarks.is_free marks.now lit }
{
    let index = lit.var.0 as usize;
    index >= marks.len() || marks[index].is_none()
}

/// An assumption or a clause of one literal that gives a literal its label.
fn reason_for(lit: Lit, grounds: Grounds) -> Option<Reason>
    requires { AreRows grounds.near.now grounds.far.now }
    ensures { GivesReason (is_marked grounds.entry.assumed.now) grounds.entry.near.now grounds.entry.far.now lit result }
{
    if is_marked(grounds.assumed, lit) {
        return Some(Reason::Assumed);
    }
    match find_unit(lit, grounds.near, grounds.far) {
        Some(id) => Some(Reason::Clause(id)),
        None => None,
    }
}

/// A clause that watches the literal on both sides: it has no other.
fn find_unit(lit: Lit, near: &Watchers, far: &Watchers) -> Option<ClauseId>
    requires { AreRows near.now far.now }
    ensures some { IfSome result (λ id. InRow near.now lit id) }
    ensures unit { IfSome result (λ id. lit_at far.now id.0 ≡ lit) }
    ensures none { IfNone result (AllInRow near.now lit (λ id. lit_at far.now id.0 ≢ lit)) }
{
    let mut at = near.first(lit);
    for _ in 0..near.room() {
        let Some(id) = at else {
            return None;
        };
        if far.is_watch(id, lit) {
            return Some(id);
        }
        at = near.next(id);
    }
    None
}

/// How many first links of the trail, at most so many, leave no clause in which a literal that fell is watched with one
/// that is false.
pub fn lower_all(
    fallen: &[Lit],
    near: &Watchers,
    far: &Watchers,
    labels: &Labels,
    done: usize,
) -> usize
    requires near { AreRows near.now far.now }
    requires far { AreRows far.now near.now }
    requires agrees { Agrees labels.now.marks labels.now.supports labels.now.trail }
    ensures within { result ≤ done }
    ensures near { (f : Lit) → has_lit fallen.now f ≡ true → AllInRow near.now f (λ id. true_before result labels.now.trail (neg (lit_at far.now id.0)) ≡ false) }
    ensures far { (f : Lit) → has_lit fallen.now f ≡ true → AllInRow far.now f (λ id. true_before result labels.now.trail (neg (lit_at near.now id.0)) ≡ false) }
{
    let mut looked = done;
    for lit in fallen {
        if looked == 0 {
            return 0;
        }
        let near_done = lower(*lit, near, far, labels, looked);
        looked = lower(*lit, far, near, labels, near_done);
    }
    looked
}

/// The same for the clauses that watch one literal on one side.
fn lower(lit: Lit, near: &Watchers, far: &Watchers, labels: &Labels, done: usize) -> usize
    requires rows { AreRows near.now far.now }
    requires agrees { Agrees labels.now.marks labels.now.supports labels.now.trail }
    ensures within { result ≤ done }
    ensures clear { AllInRow near.now lit (λ id. true_before result labels.now.trail (neg (lit_at far.now id.0)) ≡ false) }
{
    let mut looked = done;
    let mut at = near.first(lit);
    for _ in 0..near.room() {
        let Some(id) = at else {
            return looked;
        };
        let other = far.lit(id);
        looked = labels.before_false(other, looked);
        at = near.next(id);
    }
    looked
}
