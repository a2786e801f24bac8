//! A type, line by line.
#![tactic(auto)]

ghost use Rattle.std.specs.Prelude.{◌≡◌, ◌<◌, ◌≤◌, ◌++◌, [], ◌∷◌, OnOk, IfOk, IfSome, length, position};
ghost use Rattle.lv_model.specs.WellFormed.{kind_place};
ghost use Rattle.lv_checker.specs.Drafts.{begun, stay_in, stands_before, place_among, with_move_in_place, with_moves_in_place, with_variable, with_mode, with_type_law, with_mode_laws, with_moves, type_with};

use lv_base::{Condition, Cost, Name, Seq, ValId, limits};
use lv_model::counts::variable_size;
use lv_model::{Domain, ModeFormula, Move, MoveKind, Variable};
use lv_model_draft::NamedType;
use lv_model_entries::{Entry, TypeDraft};
use std::alloc::{AllocError, Global};

/// A type that has only its name. In its formulas the mode counts with as many values as a type may have modes.
pub fn begun(alloc: Global, name: Name) -> Result<TypeDraft, AllocError>
    ensures { IfOk result (λ t. t ≡ begun name) }
{
    let sizes = Seq::from_slice(alloc, &[limits::MODES])?;
    Ok(TypeDraft {
        lists: NamedType::new(alloc, name),
        sizes,
        lines: 0,
    })
}

/// The move that stays in a mode.
fn stay_in(mode: u32) -> Move
    ensures { result ≡ stay_in mode }
{
    Move {
        kind: MoveKind::Stay,
        source: ValId(mode),
        target: ValId(mode),
        guard: None,
        cost: Cost(0),
        line: 0,
    }
}

fn kind_place(kind: MoveKind) -> u32
    ensures { result ≡ kind_place kind }
{
    match kind {
        MoveKind::Step => 0,
        MoveKind::Stay => 1,
        MoveKind::Fault => 2,
    }
}

/// Whether a move stands before another: one of an earlier mode, or of the same mode a step before the stay, and this
/// before a fault.
fn stands_before(m: &Move, x: &Move) -> bool
    ensures { result ≡ stands_before m.now x.now }
{
    m.source.0 < x.source.0 || (m.source.0 == x.source.0 && kind_place(m.kind) < kind_place(x.kind))
}

/// The first move that a new one stands before.
fn first_behind(m: &Move, moves: &[Move]) -> Option<usize>
    ensures place { result ≡ position (stands_before m.now) moves.now }
    ensures within { IfSome result (λ place. place < length moves.now) }
{
    moves.iter().position(|x| stands_before(m, x))
}

/// How many moves stand before the place of a new one.
fn place_among(m: &Move, moves: &[Move]) -> usize
    ensures place { result ≡ place_among m.now moves.now }
    ensures within { result ≤ length moves.now }
{
    match first_behind(m, moves) {
        Some(place) => place,
        None => moves.len(),
    }
}

fn add_variable(
    alloc: Global,
    draft: &mut TypeDraft,
    domains: &[Domain],
    variable: Variable,
) -> Result<(), AllocError>
    ensures { OnOk result (draft.new ≡ with_variable domains.now draft.old variable) }
{
    let size = variable_size(domains, &variable);
    draft.lists.add_variable(alloc, variable)?;
    draft.sizes.push(size)
}

/// Adds a move in its place.
fn add_lists_move(alloc: Global, lists: &mut NamedType, m: Move) -> Result<(), AllocError>
    ensures { OnOk result (lists.new ≡ record lists.old { moves = with_move_in_place m lists.old.moves }) }
{
    let place = place_among(&m, lists.as_type().moves.as_slice());
    lists.add_move(alloc, place, m)
}

/// Adds a mode with its stay.
fn add_mode(alloc: Global, draft: &mut TypeDraft, name: Name, mode: u32) -> Result<(), AllocError>
    ensures { OnOk result (draft.new ≡ with_mode draft.old name mode) }
{
    draft.lists.push_mode(name)?;
    add_lists_move(alloc, &mut draft.lists, stay_in(mode))
}

fn add_type_law(draft: &mut TypeDraft, law: Condition) -> Result<(), AllocError>
    ensures { OnOk result (draft.new ≡ with_type_law draft.old law) }
{
    draft.lists.push_law(law)
}

fn add_lists_laws(lists: &mut NamedType, laws: Seq<ModeFormula>) -> Result<(), AllocError>
    ensures { OnOk result (lists.new ≡ record lists.old { formulas = lists.old.formulas ++ laws }) }
{
    'laws: for law in laws.into_vec() {
        lists.push_formula(law)?;
    }
    Ok(())
}

fn add_mode_laws(draft: &mut TypeDraft, laws: Seq<ModeFormula>) -> Result<(), AllocError>
    ensures { OnOk result (draft.new ≡ with_mode_laws draft.old laws) }
{
    add_lists_laws(&mut draft.lists, laws)
}

/// Adds moves in their places, one after the other.
fn add_lists_moves(alloc: Global, lists: &mut NamedType, moves: Seq<Move>) -> Result<(), AllocError>
    ensures { OnOk result (lists.new ≡ record lists.old { moves = with_moves_in_place moves lists.old.moves }) }
{
    'moves: for m in moves.into_vec() {
        add_lists_move(alloc, lists, m)?;
    }
    Ok(())
}

/// Adds the moves of the line of this number.
fn add_moves(
    alloc: Global,
    draft: &mut TypeDraft,
    line: u32,
    moves: Seq<Move>,
) -> Result<(), AllocError>
    ensures { OnOk result (draft.new ≡ with_moves draft.old line moves) }
{
    draft.lines = line;
    add_lists_moves(alloc, &mut draft.lists, moves)
}

/// Adds the one move of the line of this number.
fn add_move(alloc: Global, draft: &mut TypeDraft, line: u32, m: Move) -> Result<(), AllocError>
    ensures { OnOk result (draft.new ≡ with_moves draft.old line (m ∷ [])) }
{
    draft.lines = line;
    add_lists_move(alloc, &mut draft.lists, m)
}

/// Adds an entry to a type that goes on.
pub fn add_inside(
    alloc: Global,
    draft: &mut TypeDraft,
    domains: &[Domain],
    entry: Entry,
) -> Result<(), AllocError>
    ensures { OnOk result (draft.new ≡ type_with domains.now draft.old entry) }
{
    match entry {
        Entry::NewVariable(variable) => add_variable(alloc, draft, domains, variable),
        Entry::NewMode(name, mode) => add_mode(alloc, draft, name, mode),
        Entry::TypeLaw(law) => add_type_law(draft, law),
        Entry::ModeLaws(laws) => add_mode_laws(draft, laws),
        Entry::NewMove(line, m) => add_move(alloc, draft, line, m),
        Entry::NewMoves(line, moves) => add_moves(alloc, draft, line, moves),
        _ => Ok(()),
    }
}
