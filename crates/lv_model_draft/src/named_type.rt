//! A component type that is being put together, with its variables found by name.
#![tactic(auto)]

ghost use Rattle.std.specs.Prelude.{◌≡◌, ◌-◌, ◌<◌, ◌≤◌, ◌^◌, [], ◌∷◌, ◌++◌, IfSome, OnOk, insert, length, position};
ghost use Rattle.lv_model.specs.Names.{variable_named};
ghost use Rattle.lv_model_draft.specs.Places.{noted};
ghost use Rattle.lv_model_draft.specs.Names.{variable_places};

use crate::FirstPlaces;
use lv_base::{Condition, Name, Seq};
use lv_model::{ComponentType, ModeFormula, Move, Variable};
use std::alloc::{AllocError, Global};
use std::marker::Model;
use std::mem;

/// A component type, seen by contracts as the type.
#[derive(Debug, Drop)]
pub struct NamedType {
    lists: ComponentType,
    variables: FirstPlaces,
}

impl Model for NamedType {
    ghost use Rattle.std.specs.Prelude.{◌≡◌};
    ghost use Rattle.lv_model.specs.declared.plant.ComponentType.{ComponentType as Lists};
    ghost use Rattle.lv_model_draft.specs.Names.{variable_places};
    ghost use Rattle.std.specs.Coded.{codes};
    ghost use Rattle.lv_base.specs.contracts.formula.Condition as condition;

    ghost Value = { Lists };

    ghost coded = { Prim.hlevel (codes, condition.the_row.coded) };

    ghost view = { λ t. t.lists };

    ghost invariant = { λ t. t.variables ≡ variable_places t.lists.variables };
}

impl NamedType {
    /// A type that has only its name.
    pub fn new(alloc: Global, name: Name) -> NamedType
        ensures { result ≡ record { name = name; variables = []; modes = []; laws = []; formulas = []; moves = [] } }
    {
        NamedType {
            lists: ComponentType {
                name,
                variables: Seq::new(alloc),
                modes: Seq::new(alloc),
                laws: Seq::new(alloc),
                formulas: Seq::new(alloc),
                moves: Seq::new(alloc),
            },
            variables: FirstPlaces::new(alloc),
        }
    }

    pub fn as_type(&self) -> &ComponentType
        ensures { result.now ≡ self.now }
    {
        &self.lists
    }

    /// The type, and the first places of its variables' names.
    pub fn into_parts(self) -> (ComponentType, FirstPlaces)
        ensures lists { result.0 ≡ self }
        ensures names { result.1 ≡ variable_places self.variables }
    {
        (self.lists, self.variables)
    }

    /// The place of the first variable of this name. Takes no memory.
    pub fn find_variable(&self, word: &[u8]) -> Option<usize>
        ensures place { result ≡ position (variable_named word.now) self.now.variables }
        ensures within { IfSome result (λ n. n < 2 ^ 64 - 1) }
    {
        let _count = self.lists.variables.len();
        self.variables.find(word)
    }

    /// Adds a variable to a list and to what is found in it.
    fn note_variable(
        list: &mut Seq<Variable>,
        places: &mut FirstPlaces,
        variable: Variable,
    ) -> Result<(), AllocError>
        ensures list { OnOk result (list.new ≡ list.old ++ variable ∷ []) }
        ensures places { OnOk result (places.new ≡ noted places.old variable.name (length list.old)) }
    {
        let place = list.len();
        places.note(variable.name.as_slice(), place)?;
        list.push(variable)
    }

    /// Empties a list and what is found in it, where one has grown without the other.
    fn clear(alloc: Global, list: &mut Seq<Variable>, places: &mut FirstPlaces)
        ensures { places.new ≡ variable_places list.new }
    {
        *list = Seq::new(alloc);
        *places = FirstPlaces::new(alloc);
    }

    /// Adds a variable. After want of memory the type has no variables.
    pub fn add_variable(&mut self, alloc: Global, variable: Variable) -> Result<(), AllocError>
        ensures { OnOk result (self.new ≡ record self.old { variables = self.old.variables ++ variable ∷ [] }) }
    {
        match NamedType::note_variable(&mut self.lists.variables, &mut self.variables, variable) {
            Ok(()) => Ok(()),
            Err(failed) => {
                NamedType::clear(alloc, &mut self.lists.variables, &mut self.variables);
                Err(failed)
            }
        }
    }

    /// Adds a mode's name.
    pub fn push_mode(&mut self, name: Name) -> Result<(), AllocError>
        ensures { OnOk result (self.new ≡ record self.old { modes = self.old.modes ++ name ∷ [] }) }
    {
        self.lists.modes.push(name)
    }

    pub fn push_law(&mut self, law: Condition) -> Result<(), AllocError>
        ensures { OnOk result (self.new ≡ record self.old { laws = self.old.laws ++ law ∷ [] }) }
    {
        self.lists.laws.push(law)
    }

    /// Adds what holds in a mode.
    pub fn push_formula(&mut self, formula: ModeFormula) -> Result<(), AllocError>
        ensures { OnOk result (self.new ≡ record self.old { formulas = self.old.formulas ++ formula ∷ [] }) }
    {
        self.lists.formulas.push(formula)
    }

    /// Adds a move at this place, before those from there on. After want of memory the type has no moves.
    pub fn add_move(&mut self, alloc: Global, place: usize, m: Move) -> Result<(), AllocError>
        requires { place ≤ length self.old.moves }
        ensures { OnOk result (self.new ≡ record self.old { moves = insert self.old.moves place m }) }
    {
        let mut moves = mem::replace(&mut self.lists.moves, Seq::new(alloc)).into_vec();
        moves.insert(place, m)?;
        self.lists.moves = Seq::from_vec(moves);
        Ok(())
    }
}
