//! The order of a certificate's lines, as an automaton: a place says which lines may come, and each line leads to the
//! next place. A certificate is whole where its lines lead from the start to the end.
#![tactic(auto)]

ghost use Rattle.std.specs.Prelude.{◌≡◌, ◌<◌, length, nat_eq};
ghost use Rattle.std.specs.Cmp.Lexicographic.{pointwise};
ghost use Rattle.lv_cert.specs.Order.{has_pairs, splits, after_splits, after_blocks, after_clauses, after_start, after_named, after_asked, after_states, after_facts, after_listing, after_known, after_known_facts, after_goals, after_good, after_proof, after_refuted, after_refuting, after_stage, after_first_clause, after_now, after_witness, after_next, place_after};

use crate::line::{Evidence, Head, Line, Moment, Question};

/// Tracked states of a certificate, at most.
pub const STATES: u64 = 64;

/// Facts of a certificate, at most.
pub const FACTS: u64 = 1_024;

/// Goals of a certificate, at most.
pub const GOALS: u64 = 64;

/// How many candidates may be listed, and how many are so far.
#[derive(Clone, Copy, Debug, PartialEq, Eq)]
pub struct Listing {
    pub most: u128,
    pub listed: u128,
}

/// What a recovery has to reach: its goals, from each of its states.
#[derive(Clone, Copy, Debug, PartialEq, Eq)]
pub struct Task {
    pub states: u64,
    pub goals: u64,
}

/// The goal, of the state, of the task that is due.
#[derive(Clone, Copy, Debug, PartialEq, Eq)]
pub struct Stage {
    pub task: Task,
    pub state: u64,
    pub goal: u64,
}

/// What a pair of lines with the values before and after a transition belongs to.
#[derive(Clone, Copy, Debug, PartialEq, Eq)]
pub enum Witness {
    /// A listed candidate, of those so far.
    OfListed(Listing),
    /// A good state; the stage is that of its first goal.
    OfGood(Stage),
    /// A counterexample.
    OfCounter,
}

/// A place in a certificate: what came so far, as far as it says what may come.
#[derive(Clone, Copy, Debug, PartialEq, Eq)]
pub enum Place {
    /// Nothing came.
    Start,
    /// The question came; the model is due.
    Named(Question),
    /// A diagnosis: its limit is due.
    Asked,
    /// A diagnosis with this limit: so many states came.
    States(u128, u64),
    /// A diagnosis with this limit: the controls came, and so many facts.
    Facts(u128, u64),
    /// A diagnosis: listed candidates came.
    Listings(Listing),
    /// A recovery: so many states came.
    Known(u64),
    /// A recovery of so many states: so many facts came.
    KnownFacts(u64, u64),
    /// A recovery: goals came.
    Goals(Task),
    /// The head of this stage's state is due.
    Good(Stage),
    /// The head of this stage's goal is due.
    Proof(Stage),
    /// The first clause for this stage is due.
    Refuted(Stage),
    /// Clauses for this stage came.
    Refuting(Stage),
    /// The values before a transition are due.
    Now(Witness),
    /// The values after a transition are due.
    Next(Witness),
    /// The first clause of a conflict is due.
    Clauses(Question),
    /// Clauses of a conflict came.
    MoreClauses(Question),
    /// Conflicts and counterexamples came.
    Blocks(Question),
    /// Splits came.
    Splits(Question),
    /// The last line came.
    Done,
}

/// Whether numbers are those.
fn are(numbers: &[u128], wanted: &[u128]) -> bool
    ensures { result ≡ pointwise nat_eq numbers.now wanted.now }
{
    numbers == wanted
}

/// Whether the numbers of a conflict are pairs: in a recovery behind the number of a state.
fn has_pairs(question: Question, numbers: &[u128]) -> bool
    ensures { result ≡ has_pairs question (length numbers.now) }
{
    match question {
        Question::Diagnosis => numbers.len() % 2 == 0,
        Question::Recovery => numbers.len() % 2 == 1,
    }
}

/// Whether an answer's zones are split by this.
fn splits(question: Question, evidence: Evidence) -> bool
    ensures { result ≡ splits question evidence }
{
    match evidence {
        Evidence::Conflict(_) => true,
        Evidence::Listed(_) | Evidence::Target(_) => question == Question::Diagnosis,
        Evidence::Recovery => question == Question::Recovery,
    }
}

fn after_splits(question: Question, line: &Line) -> Option<Place>
    ensures { result ≡ after_splits question line.now }
{
    match line {
        Line::Split(_, evidence) => {
            if splits(question, *evidence) {
                Some(Place::Splits(question))
            } else {
                None
            }
        }
        Line::End => Some(Place::Done),
        _ => None,
    }
}

fn after_blocks(question: Question, line: &Line) -> Option<Place>
    ensures { result ≡ after_blocks question line.now }
{
    match line {
        Line::Numbers(Head::Conflict, numbers) => {
            if has_pairs(question, numbers.as_slice()) {
                Some(Place::Clauses(question))
            } else {
                None
            }
        }
        Line::Numbers(Head::Counter, _) => match question {
            Question::Diagnosis => None,
            Question::Recovery => Some(Place::Now(Witness::OfCounter)),
        },
        _ => after_splits(question, line),
    }
}

fn after_clauses(question: Question, line: &Line) -> Option<Place>
    ensures { result ≡ after_clauses question line.now }
{
    match line {
        Line::Clause(_, _) => Some(Place::MoreClauses(question)),
        _ => after_blocks(question, line),
    }
}

fn after_start(line: &Line) -> Option<Place>
    ensures { result ≡ after_start line.now }
{
    match line {
        Line::Certificate(question) => Some(Place::Named(*question)),
        _ => None,
    }
}

fn after_named(question: Question, line: &Line) -> Option<Place>
    ensures { result ≡ after_named question line.now }
{
    match line {
        Line::Model(_) => match question {
            Question::Diagnosis => Some(Place::Asked),
            Question::Recovery => Some(Place::Known(0)),
        },
        _ => None,
    }
}

fn after_asked(line: &Line) -> Option<Place>
    ensures { result ≡ after_asked line.now }
{
    match line {
        Line::Numbers(Head::Limit, numbers) => match numbers.as_slice() {
            [limit] => Some(Place::States(*limit, 0)),
            _ => None,
        },
        Line::Distinct(limit) => Some(Place::States(*limit, 0)),
        _ => None,
    }
}

fn after_states(limit: u128, states: u64, line: &Line) -> Option<Place>
    ensures { result ≡ after_states limit states line.now }
{
    match line {
        Line::Numbers(Head::State, _) => {
            if states < STATES {
                Some(Place::States(limit, states + 1))
            } else {
                None
            }
        }
        Line::Numbers(Head::Control, _) => {
            if states > 0 {
                Some(Place::Facts(limit, 0))
            } else {
                None
            }
        }
        _ => None,
    }
}

fn after_facts(limit: u128, facts: u64, line: &Line) -> Option<Place>
    ensures { result ≡ after_facts limit facts line.now }
{
    match line {
        Line::Fact(_, _, _) => {
            if facts < FACTS {
                Some(Place::Facts(limit, facts + 1))
            } else {
                None
            }
        }
        _ => after_listing(
            Listing {
                most: limit,
                listed: 0,
            },
            line,
        ),
    }
}

fn after_listing(listing: Listing, line: &Line) -> Option<Place>
    ensures { result ≡ after_listing listing line.now }
{
    match line {
        Line::Numbers(Head::Listed, _) => {
            if listing.listed < listing.most {
                Some(Place::Now(Witness::OfListed(Listing {
                    most: listing.most,
                    listed: listing.listed + 1,
                })))
            } else {
                None
            }
        }
        _ => after_blocks(Question::Diagnosis, line),
    }
}

fn after_known(states: u64, line: &Line) -> Option<Place>
    ensures { result ≡ after_known states line.now }
{
    match line {
        Line::Numbers(Head::State, _) => {
            if states < STATES {
                Some(Place::Known(states + 1))
            } else {
                None
            }
        }
        _ => {
            if states > 0 {
                after_known_facts(states, 0, line)
            } else {
                None
            }
        }
    }
}

fn after_known_facts(states: u64, facts: u64, line: &Line) -> Option<Place>
    ensures { result ≡ after_known_facts states facts line.now }
{
    match line {
        Line::Fact(Moment::Now, _, _) => {
            if facts < FACTS {
                Some(Place::KnownFacts(states, facts + 1))
            } else {
                None
            }
        }
        Line::Goal(_) => Some(Place::Goals(Task { states, goals: 1 })),
        _ => None,
    }
}

fn after_goals(task: Task, line: &Line) -> Option<Place>
    ensures { result ≡ after_goals task line.now }
{
    match line {
        Line::Goal(_) => {
            if task.goals < GOALS {
                Some(Place::Goals(Task {
                    states: task.states,
                    goals: task.goals + 1,
                }))
            } else {
                None
            }
        }
        Line::Numbers(Head::Recovery, _) => Some(Place::Good(Stage {
            task,
            state: 1,
            goal: 1,
        })),
        _ => after_blocks(Question::Recovery, line),
    }
}

fn after_good(stage: Stage, line: &Line) -> Option<Place>
    ensures { result ≡ after_good stage line.now }
{
    match line {
        Line::Numbers(Head::Good, numbers) => {
            if are(numbers.as_slice(), &[u128::from(stage.state)]) {
                Some(Place::Now(Witness::OfGood(stage)))
            } else {
                None
            }
        }
        _ => None,
    }
}

fn after_proof(stage: Stage, line: &Line) -> Option<Place>
    ensures { result ≡ after_proof stage line.now }
{
    match line {
        Line::Numbers(Head::Proof, numbers) => {
            let wanted = [u128::from(stage.state), u128::from(stage.goal)];
            if are(numbers.as_slice(), &wanted) {
                Some(Place::Refuted(stage))
            } else {
                None
            }
        }
        _ => None,
    }
}

fn after_refuted(stage: Stage, line: &Line) -> Option<Place>
    ensures { result ≡ after_refuted stage line.now }
{
    match line {
        Line::Clause(_, _) => Some(Place::Refuting(stage)),
        _ => None,
    }
}

fn after_refuting(stage: Stage, line: &Line) -> Option<Place>
    ensures { result ≡ after_refuting stage line.now }
{
    match line {
        Line::Clause(_, _) => Some(Place::Refuting(stage)),
        _ => after_stage(stage, line),
    }
}

/// Behind a stage the next goal is due, or the next state's first, or conflicts.
fn after_stage(stage: Stage, line: &Line) -> Option<Place>
    ensures { result ≡ after_stage stage line.now }
{
    if stage.goal < stage.task.goals {
        let goal = stage.goal + 1;
        after_proof(Stage { goal, ..stage }, line)
    } else if stage.state < stage.task.states {
        let state = stage.state + 1;
        after_good(
            Stage {
                task: stage.task,
                state,
                goal: 1,
            },
            line,
        )
    } else {
        after_blocks(Question::Recovery, line)
    }
}

fn after_now(witness: Witness, line: &Line) -> Option<Place>
    ensures { result ≡ after_now witness line.now }
{
    match line {
        Line::Numbers(Head::Now, _) => Some(Place::Next(witness)),
        _ => None,
    }
}

fn after_next(witness: Witness, line: &Line) -> Option<Place>
    ensures { result ≡ after_next witness line.now }
{
    match line {
        Line::Numbers(Head::Next, _) => Some(after_witness(witness)),
        _ => None,
    }
}

fn after_witness(witness: Witness) -> Place
    ensures { result ≡ after_witness witness }
{
    match witness {
        Witness::OfListed(listing) => Place::Listings(listing),
        Witness::OfGood(stage) => Place::Proof(stage),
        Witness::OfCounter => Place::Blocks(Question::Recovery),
    }
}

fn after_first_clause(question: Question, line: &Line) -> Option<Place>
    ensures { result ≡ after_first_clause question line.now }
{
    match line {
        Line::Clause(_, _) => Some(Place::MoreClauses(question)),
        _ => None,
    }
}

/// The place behind a line; none where the line can't come at this place.
pub fn place_after(place: Place, line: &Line) -> Option<Place>
    ensures { result ≡ place_after place line.now }
{
    match place {
        Place::Start => after_start(line),
        Place::Named(question) => after_named(question, line),
        Place::Asked => after_asked(line),
        Place::States(limit, states) => after_states(limit, states, line),
        Place::Facts(limit, facts) => after_facts(limit, facts, line),
        Place::Listings(listing) => after_listing(listing, line),
        Place::Known(states) => after_known(states, line),
        Place::KnownFacts(states, facts) => after_known_facts(states, facts, line),
        Place::Goals(task) => after_goals(task, line),
        Place::Good(stage) => after_good(stage, line),
        Place::Proof(stage) => after_proof(stage, line),
        Place::Refuted(stage) => after_refuted(stage, line),
        Place::Refuting(stage) => after_refuting(stage, line),
        Place::Now(witness) => after_now(witness, line),
        Place::Next(witness) => after_next(witness, line),
        Place::Clauses(question) => after_first_clause(question, line),
        Place::MoreClauses(question) => after_clauses(question, line),
        Place::Blocks(question) => after_blocks(question, line),
        Place::Splits(question) => after_splits(question, line),
        Place::Done => None,
    }
}
