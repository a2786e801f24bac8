//! What the plant of a model does in an assignment, which gives each variable a value: which assignments are feasible,
//! which moves a part takes, what a step of the system is. All of it takes no memory.
#![tactic(auto)]

ghost use Rattle.std.specs.Prelude.{◌≡◌, ◌+◌, ◌<◌, ◌&&◌, IsTrue, true, false, length, slice_get, Some, None, OnSome, take, All, ◌≤◌};
ghost use Rattle.std.specs.List.{list_all, list_any};
ghost use Rattle.std.specs.Option.{option_map, option_copied};
ghost use Rattle.lv_base.specs.Tree.{truth_of, reads_below, number_of};
ghost use Rattle.lv_base.specs.declared.ids.ValId.{ValId};
ghost use Rattle.lv_base.specs.declared.limits.TheConstants.{MOVES};
ghost use Rattle.lv_model.specs.Lists.{variable_count};
ghost use Rattle.lv_model.specs.WellFormed.{Reads, FormulaReads, TypeReads, GuardReads, PartReads, is_well_formed};
ghost use Rattle.lv_model.specs.Moves.{first_move, move_count, moves_of};
ghost use Rattle.lv_model.specs.Meaning.{mode_formula_holds, part_is_feasible, is_feasible, is_open, is_open_step, goes, type_takes, part_takes, takes, target_of, part_steps, parts_step, is_step, is_no_fault, part_is_nominal, parts_are_nominal, is_nominal};

use crate::lookup::{move_of, move_of_part, part_of, type_of};
use crate::model::Model;
use crate::plant::{ComponentType, ModeFormula, Move, MoveKind, Part, Plant};
use lv_base::{Condition, MoveId, PartId, ValId, VarId};

/// Whether each of the conditions is true.
fn all_hold(conditions: &[Condition], a: &[ValId], base: VarId) -> bool
    requires { All (Reads (length a.now) base.0) conditions.now }
    ensures { result ≡ list_all (truth_of a.now base.0) conditions.now }
{
    conditions.iter().all(|c| c.holds(a, base.0))
}

/// Whether the formula is true, or an instance of the type is in another mode.
fn mode_formula_holds(f: &ModeFormula, a: &[ValId], base: VarId) -> bool
    requires first { base.0 < length a.now }
    requires reads { FormulaReads (length a.now) base.0 f.now }
    ensures { result ≡ mode_formula_holds a.now base.0 f.now }
{
    f.mode.0 != a[base.0 as usize].0 || f.condition.holds(a, base.0)
}

/// Whether the formulas of the mode that an instance of the type is in are true.
fn mode_is_kept(formulas: &[ModeFormula], a: &[ValId], base: VarId) -> bool
    requires first { base.0 < length a.now }
    requires reads { All (FormulaReads (length a.now) base.0) formulas.now }
    ensures { result ≡ list_all (mode_formula_holds a.now base.0) formulas.now }
{
    formulas.iter().all(|f| mode_formula_holds(f, a, base))
}

/// Whether the laws of the type and the formulas of its present mode are true of an instance.
fn type_is_kept(t: &ComponentType, a: &[ValId], base: VarId) -> bool
    requires { TypeReads (length a.now) base.0 t.now }
    ensures { result ≡ (list_all (truth_of a.now base.0) t.now.laws && list_all (mode_formula_holds a.now base.0) t.now.formulas) }
{
    all_hold(t.laws.as_slice(), a, base) && mode_is_kept(t.formulas.as_slice(), a, base)
}

/// Whether the part's laws and the formulas of its present mode are true.
fn part_is_kept(types: &[ComponentType], a: &[ValId], part: &Part) -> bool
    requires { PartReads (length a.now) types.now part.now }
    ensures { result ≡ part_is_feasible types.now a.now part.now }
{
    match type_of(types, part) {
        Some(t) => type_is_kept(t, a, part.first),
        None => false,
    }
}

/// Whether every part is kept so.
fn parts_are_kept(types: &[ComponentType], a: &[ValId], parts: &[Part]) -> bool
    requires { All (PartReads (length a.now) types.now) parts.now }
    ensures { result ≡ list_all (part_is_feasible types.now a.now) parts.now }
{
    parts.iter().all(|part| part_is_kept(types, a, part))
}

/// Whether the move's guard is true, or it has none.
fn guard_opens(m: &Move, a: &[ValId], base: VarId) -> bool
    requires { GuardReads (length a.now) base.0 m.now }
    ensures { result ≡ is_open a.now base.0 m.now }
{
    match &m.guard {
        Some(guard) => guard.holds(a, base.0),
        None => true,
    }
}

/// Whether the move is a step from this mode with a true guard.
fn step_opens(m: &Move, a: &[ValId], base: VarId, mode: ValId) -> bool
    requires { GuardReads (length a.now) base.0 m.now }
    ensures { result ≡ is_open_step a.now base.0 mode.0 m.now }
{
    match m.kind {
        MoveKind::Step => m.source.0 == mode.0 && guard_opens(m, a, base),
        MoveKind::Stay => false,
        MoveKind::Fault => false,
    }
}

/// Whether some step from this mode among the moves has a true guard.
fn some_step_opens(moves: &[Move], a: &[ValId], base: VarId, mode: ValId) -> bool
    requires { All (GuardReads (length a.now) base.0) moves.now }
    ensures { result ≡ list_any (is_open_step a.now base.0 mode.0) moves.now }
{
    moves.iter().any(|m| step_opens(m, a, base, mode))
}

/// Whether the move, the n-th of these, may go on in the assignment.
fn may_go(moves: &[Move], n: usize, m: &Move, a: &[ValId], base: VarId) -> bool
    requires guards { All (GuardReads (length a.now) base.0) moves.now }
    requires guard { GuardReads (length a.now) base.0 m.now }
    requires within { n ≤ length moves.now }
    ensures { result ≡ goes m.now.kind a.now base.0 moves.now n m.now }
{
    match m.kind {
        MoveKind::Step => guard_opens(m, a, base)
            && !some_step_opens(&moves[..n], a, base, m.source),
        MoveKind::Stay => !some_step_opens(moves, a, base, m.source),
        MoveKind::Fault => guard_opens(m, a, base),
    }
}

/// Whether an instance of the type takes the move of this number.
fn type_takes_move(t: &ComponentType, mv: MoveId, a: &[ValId], base: VarId) -> bool
    requires { TypeReads (length a.now) base.0 t.now }
    ensures { result ≡ type_takes a.now base.0 t.now.moves mv.0 }
{
    let moves = t.moves.as_slice();
    match move_of(moves, mv) {
        Some(m) => a[base.0 as usize].0 == m.source.0 && may_go(moves, mv.0 as usize, m, a, base),
        None => false,
    }
}

/// Whether the part takes the move of this number.
fn part_takes_move(types: &[ComponentType], part: &Part, mv: MoveId, a: &[ValId]) -> bool
    requires { PartReads (length a.now) types.now part.now }
    ensures { result ≡ part_takes types.now a.now part.now mv.0 }
{
    match type_of(types, part) {
        Some(t) => type_takes_move(t, mv, a, part.first),
        None => false,
    }
}

/// The target of the part's move of this number, if there is one.
pub fn target_mode(types: &[ComponentType], part: &Part, mv: MoveId) -> Option<ValId>
    ensures { option_map (λ (v : ValId). v.0) result ≡ target_of types.now part.now mv.0 }
{
    match move_of_part(types, part, mv) {
        Some(m) => Some(m.target),
        None => None,
    }
}

/// Whether the part takes its move in `a` and has the move's target mode in `b`.
fn part_goes(types: &[ComponentType], part: &Part, mv: MoveId, a: &[ValId], b: &[ValId]) -> bool
    requires reads_now { PartReads (length a.now) types.now part.now }
    requires reads_next { length b.now ≡ length a.now }
    ensures { result ≡ part_steps types.now a.now b.now part.now mv.0 }
{
    if !part_takes_move(types, part, mv, a) {
        return false;
    }
    match target_mode(types, part, mv) {
        Some(mode) => b[part.first.0 as usize].0 == mode.0,
        None => false,
    }
}

/// Whether each part goes so by its move.
fn parts_go(
    types: &[ComponentType],
    parts: &[Part],
    moves: &[MoveId],
    a: &[ValId],
    b: &[ValId],
) -> bool
    requires reads_now { All (PartReads (length a.now) types.now) parts.now }
    requires reads_next { length b.now ≡ length a.now }
    requires moves { length moves.now ≡ length parts.now }
    ensures { result ≡ parts_step types.now a.now b.now parts.now moves.now }
{
    for (i, part) in parts.iter().enumerate() {
        if !part_goes(types, part, moves[i], a, b) {
            return false;
        }
    }
    true
}

/// The moves of the part's type; none where there is no such part.
fn part_moves_of(plant: &Plant, part: PartId) -> &[Move]
    requires { IsTrue (is_well_formed plant.now) }
    ensures moves { result.now ≡ moves_of plant.now part.0 }
    ensures few { length result.now ≤ MOVES }
{
    match part_of(plant.parts.as_slice(), part) {
        Some(p) => match type_of(plant.types.as_slice(), p) {
            Some(t) => t.moves.as_slice(),
            None => &[],
        },
        None => &[],
    }
}

/// How many moves are from modes before this one.
fn moves_before(moves: &[Move], mode: ValId) -> u32
    requires { length moves.now ≤ MOVES }
    ensures { result ≡ first_move moves.now mode.0 }
{
    moves.iter().filter(|m| m.source.0 < mode.0).count() as u32
}

/// How many moves are from this mode.
fn moves_with(moves: &[Move], mode: ValId) -> u32
    requires { length moves.now ≤ MOVES }
    ensures { result ≡ move_count moves.now mode.0 }
{
    moves.iter().filter(|m| m.source.0 == mode.0).count() as u32
}

fn is_step_or_stay(kind: MoveKind) -> bool
    ensures { result ≡ is_no_fault kind }
{
    match kind {
        MoveKind::Step | MoveKind::Stay => true,
        MoveKind::Fault => false,
    }
}

/// Whether the part's type has the move, and it is no fault.
fn has_no_fault(types: &[ComponentType], part: &Part, mv: MoveId) -> bool
    ensures { result ≡ part_is_nominal types.now part.now mv.0 }
{
    match move_of_part(types, part, mv) {
        Some(m) => is_step_or_stay(m.kind),
        None => false,
    }
}

/// Whether no part's move is a fault.
fn have_no_fault(types: &[ComponentType], parts: &[Part], moves: &[MoveId]) -> bool
    requires { length moves.now ≡ length parts.now }
    ensures { result ≡ parts_are_nominal types.now parts.now moves.now }
{
    for (i, part) in parts.iter().enumerate() {
        if !has_no_fault(types, part, moves[i]) {
            return false;
        }
    }
    true
}

impl Model {
    /// Whether every law of the system is true, and every law and every formula of the present mode of each part.
    pub fn is_feasible(&self, a: &[ValId]) -> bool
        requires { length a.now ≡ variable_count self.now }
        ensures { result ≡ is_feasible self.now a.now }
    {
        let plant = self.plant();
        all_hold(plant.laws.as_slice(), a, VarId(0))
            && parts_are_kept(plant.types.as_slice(), a, plant.parts.as_slice())
    }

    /// Whether the part is in its move's source and the move may go on: a step where its guard is true and no earlier
    /// step of its mode has a true guard, a stay where no step of the mode has one, a fault where it has no guard or a
    /// true one.
    pub fn takes(&self, part: PartId, mv: MoveId, a: &[ValId]) -> bool
        requires { length a.now ≡ variable_count self.now }
        ensures { result ≡ takes self.now part.0 mv.0 a.now }
    {
        let plant = self.plant();
        match part_of(plant.parts.as_slice(), part) {
            Some(p) => part_takes_move(plant.types.as_slice(), p, mv, a),
            None => false,
        }
    }

    /// Whether both assignments are feasible, each part takes its move in `a`, and has its target mode in `b`.
    pub fn is_step(&self, a: &[ValId], b: &[ValId], moves: &[MoveId]) -> bool
        requires now { length a.now ≡ variable_count self.now }
        requires next { length b.now ≡ variable_count self.now }
        requires moves { length moves.now ≡ length self.now.parts }
        ensures { result ≡ is_step self.now a.now b.now moves.now }
    {
        let plant = self.plant();
        self.is_feasible(a)
            && self.is_feasible(b)
            && parts_go(plant.types.as_slice(), plant.parts.as_slice(), moves, a, b)
    }

    /// Whether each part takes its move in `a` and has its target mode in `b`, and there is one move for each part.
    pub fn parts_step(&self, a: &[ValId], b: &[ValId], moves: &[MoveId]) -> bool
        requires now { length a.now ≡ variable_count self.now }
        requires next { length b.now ≡ variable_count self.now }
        requires moves { length moves.now ≡ length self.now.parts }
        ensures { result ≡ parts_step self.now.types a.now b.now self.now.parts moves.now }
    {
        let plant = self.plant();
        parts_go(plant.types.as_slice(), plant.parts.as_slice(), moves, a, b)
    }

    /// The moves of a mode of the part, which stand together among those of its type: the first's number and how many
    /// they are; none where there is no such part.
    pub fn moves_from(&self, part: PartId, mode: ValId) -> (MoveId, u32)
        ensures first { result.0.0 ≡ first_move (moves_of self.now part.0) mode.0 }
        ensures count { result.1 ≡ move_count (moves_of self.now part.0) mode.0 }
    {
        let plant = self.plant();
        let moves = part_moves_of(plant, part);
        (MoveId(moves_before(moves, mode)), moves_with(moves, mode))
    }

    /// Whether the full choice gives each part a move of its type, and none of them is a fault. Takes no memory.
    pub fn is_nominal(&self, moves: &[MoveId]) -> bool
        requires { length moves.now ≡ length self.now.parts }
        ensures { result ≡ is_nominal self.now moves.now }
    {
        let plant = self.plant();
        have_no_fault(plant.types.as_slice(), plant.parts.as_slice(), moves)
    }
}
