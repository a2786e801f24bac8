//! Unit propagation with two watched literals: where a literal became false, each clause that watches it comes to watch
//! another one that isn't false, or else derives the other literal that it watches, or is false. No other clause is
//! touched. It stops at a clause that is false.
#![tactic(auto)]

ghost use Rattle.std.specs.Prelude.{◌≡◌, ◌<◌, ◌+◌, ◌||◌, [], true, length, not, find, IsSome, IfSome, IfNone, Contains};
ghost use Rattle.lv_clauses.specs.Literals.{neg};
ghost use Rattle.lv_clauses.specs.ClauseMap.{clause_at, AreClauses};
ghost use Rattle.lv_clauses.specs.Marks.{is_marked};
ghost use Rattle.lv_ltms.specs.Watching.{lit_at, AreMembers};
ghost use Rattle.lv_ltms.specs.Labelled.{AreLabels, GoesOn};
ghost use Rattle.lv_ltms.specs.Trail.{same_lit};
ghost use Rattle.lv_ltms.specs.Standing.{IsNetwork, IsLooked, IsFalsified, Stops, Meets, IsNear, Picks, Settles};
ghost use Rattle.lv_ltms.specs.Visiting.{Visits, is_open_but, is_open};
ghost use Rattle.lv_ltms.specs.Pairs.{HasBoth, AreWatched};
ghost use Rattle.lv_ltms.specs.Following.{Passes, Follows};

use super::arena::Arena;
use super::labels::{Labels, Link, Reason};
use super::watchers::Watchers;
use lv_base::{ClauseId, Lit};
use lv_clauses::{is_marked, negation};

/// How many links of the trail were looked at, and a clause that is false, if one was found.
#[derive(Clone, Copy, Debug)]
pub struct Progress {
    pub done: usize,
    pub conflict: Option<ClauseId>,
}

/// What a clause comes to of which one watched literal is false.
#[derive(Clone, Copy, Debug)]
pub enum Meeting {
    /// The other literal that it watches is true.
    Holds,
    /// It watches this one now.
    Moves(Lit),
    /// It is false.
    Fails,
}

/// What a clause comes to of which one watched literal is false, as far as no other is watched.
#[derive(Clone, Copy, Debug)]
pub enum Passing {
    /// The other literal that it watches is true.
    Holds,
    /// It has more than two literals, and may come to watch another one.
    Stops,
    /// It is false.
    Fails,
}

/// What clauses come to that watch a literal which is false, as far as none comes to watch another one.
#[derive(Clone, Copy, Debug)]
pub enum Course {
    /// Of each the other literal that it watches is true.
    Holds,
    /// One of them may come to watch another one.
    Stops,
    /// This one is false.
    Fails(ClauseId),
}

/// The two literals that a clause watches.
#[derive(Clone, Copy, Debug)]
pub struct Pair {
    pub near: Lit,
    pub far: Lit,
}

/// Looks at the links of the trail from a place on, and marks all that follows.
pub fn propagate(
    from: usize,
    arena: &Arena,
    near: &mut Watchers,
    far: &mut Watchers,
    labels: &mut Labels,
) -> Progress
    requires network { IsNetwork (length labels.old.marks) arena.now near.old far.old labels.old }
    requires looked { IsLooked arena.now near.old far.old labels.old from }
    ensures network { IsNetwork (length labels.old.marks) arena.now near.new far.new labels.new }
    ensures looked { IsLooked arena.now near.new far.new labels.new result.done }
    ensures stops { Stops arena.now labels.new result.done result.conflict }
    ensures goes_on { GoesOn arena.now labels.old labels.new }
{
    let mut at = from;
    while at < labels.trail().len() {
        if let Some(id) = falsify(at, arena, near, far, labels) {
            return Progress {
                done: at,
                conflict: Some(id),
            };
        }
        at += 1;
    }
    Progress {
        done: at,
        conflict: None,
    }
}

/// Looks at the link at a place: its negation became false. Answers a clause that is false, if there is one.
fn falsify(
    at: usize,
    arena: &Arena,
    near: &mut Watchers,
    far: &mut Watchers,
    labels: &mut Labels,
) -> Option<ClauseId>
    requires network { IsNetwork (length labels.old.marks) arena.now near.old far.old labels.old }
    requires looked { IsLooked arena.now near.old far.old labels.old at }
    requires place { at < length labels.old.trail }
    ensures network { IsNetwork (length labels.old.marks) arena.now near.new far.new labels.new }
    ensures looked { IsLooked arena.now near.new far.new labels.new at }
    ensures more { IfNone result (IsLooked arena.now near.new far.new labels.new (at + 1)) }
    ensures found { IfSome result (λ id. IsFalsified arena.now labels.new.marks id.0) }
    ensures goes_on { GoesOn arena.now labels.old labels.new }
{
    let lit = negation(labels.trail()[at].lit);
    match visit(lit, arena, near, far, labels) {
        Some(id) => Some(id),
        None => visit(lit, arena, far, near, labels),
    }
}

/// Goes along the clauses that watch a literal that is false on one side. Answers one that is false, if there is one.
#[inline(always)]
fn visit(
    lit: Lit,
    arena: &Arena,
    near: &mut Watchers,
    far: &Watchers,
    labels: &mut Labels,
) -> Option<ClauseId>
    requires network { IsNetwork (length labels.old.marks) arena.now near.old far.now labels.old }
    requires turned { is_marked labels.old.marks (neg lit) ≡ true }
    requires members { AreMembers arena.now (lit_at far.now) }
    requires pairs { AreWatched arena.now near.old far.now }
    ensures network { IsNetwork (length labels.old.marks) arena.now near.new far.now labels.new }
    ensures goes_on { GoesOn arena.now labels.old labels.new }
    ensures visits { Visits arena.now (lit_at near.old) (lit_at near.new) (lit_at far.now) labels.old labels.new lit result }
    ensures found { IfSome result (λ id. IsFalsified arena.now labels.new.marks id.0) }
{
    match follow(lit, arena, near, far, labels) {
        Course::Holds => None,
        Course::Stops => rewatch(lit, arena, near, far, labels),
        Course::Fails(id) => Some(id),
    }
}

/// Goes along them up to one that may come to watch another literal, or that is false.
#[inline(always)]
fn follow(lit: Lit, arena: &Arena, near: &Watchers, far: &Watchers, labels: &mut Labels) -> Course
    requires network { IsNetwork (length labels.old.marks) arena.now near.now far.now labels.old }
    requires turned { is_marked labels.old.marks (neg lit) ≡ true }
    requires pairs { AreWatched arena.now near.now far.now }
    ensures goes_on { GoesOn arena.now labels.old labels.new }
    ensures follows { Follows arena.now near.now far.now labels.new.marks lit result }
{
    let mut at = near.first(lit);
    for _ in 0..near.room() {
        let Some(id) = at else {
            return Course::Holds;
        };
        match pass(id, lit, far.lit(id), arena, labels) {
            Passing::Holds => at = near.next(id),
            Passing::Stops => return Course::Stops,
            Passing::Fails => return Course::Fails(id),
        }
    }
    Course::Holds
}

/// Looks at a clause that watches a literal which is false, and this other one. Marks the other one of a clause of two.
fn pass(id: ClauseId, lit: Lit, other: Lit, arena: &Arena, labels: &mut Labels) -> Passing
    requires turned { is_marked labels.old.marks (neg lit) ≡ true }
    requires clauses { AreClauses (length labels.old.marks) arena.now }
    requires labels { AreLabels (length labels.old.marks) labels.old }
    requires pair { HasBoth (clause_at arena.now id.0) lit other }
    ensures passes { Passes arena.now labels.new.marks id other result }
    ensures goes_on { GoesOn arena.now labels.old labels.new }
{
    if is_marked(labels.marks(), other) {
        return Passing::Holds;
    }
    if !arena.is_pair(id) {
        return Passing::Stops;
    }
    if is_marked(labels.marks(), negation(other)) {
        return Passing::Fails;
    }
    labels.push(Link {
        lit: other,
        reason: Reason::Clause(id),
    });
    Passing::Holds
}

/// Goes along them and lets those watch another literal that have one which isn't false.
#[inline(never)]
fn rewatch(
    lit: Lit,
    arena: &Arena,
    near: &mut Watchers,
    far: &Watchers,
    labels: &mut Labels,
) -> Option<ClauseId>
    requires network { IsNetwork (length labels.old.marks) arena.now near.old far.now labels.old }
    requires turned { is_marked labels.old.marks (neg lit) ≡ true }
    requires members { AreMembers arena.now (lit_at far.now) }
    ensures network { IsNetwork (length labels.old.marks) arena.now near.new far.now labels.new }
    ensures goes_on { GoesOn arena.now labels.old labels.new }
    ensures visits { Visits arena.now (lit_at near.old) (lit_at near.new) (lit_at far.now) labels.old labels.new lit result }
    ensures found { IfSome result (λ id. IsFalsified arena.now labels.new.marks id.0) }
{
    let mut found = None;
    let mut at = near.take(lit);
    for _ in 0..near.room() {
        let Some(id) = at else {
            return found;
        };
        at = near.next(id);
        match meet(id, far.lit(id), arena, labels) {
            Meeting::Holds => near.put(id, lit),
            Meeting::Moves(other) => near.put(id, other),
            Meeting::Fails => {
                near.put(id, lit);
                found = Some(id);
            }
        }
    }
    found
}

/// Looks at a clause of which a watched literal is false; this is the other one. Marks that where all others are false.
fn meet(id: ClauseId, other: Lit, arena: &Arena, labels: &mut Labels) -> Meeting
    requires present { IsSome (clause_at arena.now id.0) }
    requires member { IfSome (clause_at arena.now id.0) (λ c. Contains c other) }
    requires clauses { AreClauses (length labels.old.marks) arena.now }
    requires labels { AreLabels (length labels.old.marks) labels.old }
    ensures meets { IfSome (clause_at arena.now id.0) (λ c. Meets c other labels.old.marks labels.new.marks result) }
    ensures goes_on { GoesOn arena.now labels.old labels.new }
{
    if is_marked(labels.marks(), other) {
        return Meeting::Holds;
    }
    if let Some(open) = find_open_but(arena.get(id), other, labels.marks()) {
        return Meeting::Moves(open);
    }
    if is_marked(labels.marks(), negation(other)) {
        return Meeting::Fails;
    }
    labels.push(Link {
        lit: other,
        reason: Reason::Clause(id),
    });
    Meeting::Holds
}

/// The first literal that isn't this one and isn't false.
fn find_open_but(lits: &[Lit], but: Lit, marks: &[Option<bool>]) -> Option<Lit>
    ensures { result ≡ find (is_open_but but marks.now) lits.now }
{
    lits.iter()
        .copied()
        .find(|lit| *lit != but && !is_marked(marks, negation(*lit)))
}

/// The first literal that isn't false.
fn find_open(lits: &[Lit], marks: &[Option<bool>]) -> Option<Lit>
    ensures { result ≡ find (is_open marks.now) lits.now }
{
    lits.iter()
        .copied()
        .find(|lit| !is_marked(marks, negation(*lit)))
}

/// Two literals for a clause to watch: such as aren't false, if there are; None where it has no literal.
pub fn pick(lits: &[Lit], marks: &[Option<bool>]) -> Option<Pair>
    ensures some { IfSome result (λ pair. Picks lits.now marks.now pair) }
    ensures none { IfNone result (lits.now ≡ []) }
{
    if lits.len() == 0 {
        return None;
    }
    let near = pick_near(lits, lits[0], marks);
    let far = pick_far(lits, near, marks);
    Some(Pair { near, far })
}

/// A literal that isn't false, the first one where all are.
fn pick_near(lits: &[Lit], first: Lit, marks: &[Option<bool>]) -> Lit
    requires { Contains lits.now first }
    ensures { IsNear lits.now marks.now result }
{
    find_open(lits, marks).unwrap_or(first)
}

/// Another literal, if there is one, that isn't false, if there is such a one.
fn pick_far(lits: &[Lit], near: Lit, marks: &[Option<bool>]) -> Lit
    requires { IsNear lits.now marks.now near }
    ensures { Picks lits.now marks.now (record { near = near; far = result }) }
{
    if let Some(lit) = find_open_but(lits, near, marks) {
        return lit;
    }
    other_than(lits, near).unwrap_or(near)
}

/// Marks the first literal that a clause watches where no other is left. Where all are false, the whole trail is to be
/// looked at anew.
pub fn settle(id: ClauseId, pair: Pair, labels: &mut Labels, progress: Progress) -> Progress
    requires labels { AreLabels (length labels.old.marks) labels.old }
    requires range { pair.near.var.0 < length labels.old.marks }
    ensures { Settles id pair labels.old labels.new progress result }
{
    if is_marked(labels.marks(), negation(pair.near)) {
        return Progress {
            done: 0,
            conflict: Some(id),
        };
    }
    if is_marked(labels.marks(), pair.near) {
        return progress;
    }
    if !is_last(pair, labels.marks()) {
        return progress;
    }
    labels.push(Link {
        lit: pair.near,
        reason: Reason::Clause(id),
    });
    progress
}

/// Whether a pair has no second literal that isn't false.
fn is_last(pair: Pair, marks: &[Option<bool>]) -> bool
    ensures { result ≡ (same_lit pair.near pair.far || is_marked marks.now (neg pair.far)) }
{
    pair.near == pair.far || is_marked(marks, negation(pair.far))
}

/// The first literal that isn't this one.
fn other_than(lits: &[Lit], but: Lit) -> Option<Lit>
    ensures { result ≡ find (λ l. not (same_lit l but)) lits.now }
{
    lits.iter().copied().find(|lit| *lit != but)
}
