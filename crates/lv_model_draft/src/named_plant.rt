//! A plant that is being put together, with its domains, types, parts and their variables found by name.
#![tactic(auto)]

ghost use Rattle.std.specs.Prelude.{◌≡◌, ◌-◌, ◌<◌, ◌^◌, [], ◌∷◌, ◌++◌, IfSome, OnOk, length, position};
ghost use Rattle.std.specs.List.{list_any};
ghost use Rattle.lv_model.specs.Prices.{is_price_of};
ghost use Rattle.lv_model.specs.Names.{domain_named, type_named, part_named};
ghost use Rattle.lv_model_draft.specs.Places.{noted};
ghost use Rattle.lv_model_draft.specs.Names.{names_of, variable_at, variable_places};
ghost use Rattle.lv_model_draft.specs.Priced.{with_pair};

use crate::directory::Directory;
use crate::named_type::NamedType;
use lv_base::{Condition, Name, Seq, ValId, VarId};
use lv_model::{Domain, Part, Plant, Price};
use std::alloc::{AllocError, Global};
use std::marker::Model;

/// A plant, seen by contracts as the plant.
#[derive(Debug, Drop)]
pub struct NamedPlant {
    plant: Plant,
    names: Directory,
}

impl Model for NamedPlant {
    ghost use Rattle.std.specs.Prelude.{◌≡◌};
    ghost use Rattle.lv_model.specs.declared.plant.Plant.{Plant as Lists};
    ghost use Rattle.lv_model_draft.specs.Names.{names_of};
    ghost use Rattle.std.specs.Coded.{codes};
    ghost use Rattle.lv_base.specs.contracts.formula.Condition as condition;

    ghost Value = { Lists };

    ghost coded = { Prim.hlevel (codes, condition.the_row.coded) };

    ghost view = { λ p. p.plant };

    ghost invariant = { λ p. p.names ≡ names_of p.plant };
}

impl NamedPlant {
    /// A plant that has only its name.
    pub fn new(alloc: Global, name: Name) -> NamedPlant
        ensures { result ≡ record { name = name; domains = []; types = []; parts = []; laws = []; prices = [] } }
    {
        NamedPlant {
            plant: NamedPlant::unlisted(alloc, name),
            names: Directory::new(alloc),
        }
    }

    fn unlisted(alloc: Global, name: Name) -> Plant
        ensures { result ≡ record { name = name; domains = []; types = []; parts = []; laws = []; prices = [] } }
    {
        Plant {
            name,
            domains: Seq::new(alloc),
            types: Seq::new(alloc),
            parts: Seq::new(alloc),
            laws: Seq::new(alloc),
            prices: Seq::new(alloc),
        }
    }

    /// Empties a plant and what is found in it, where one has grown without the other.
    fn clear(alloc: Global, plant: &mut Plant, names: &mut Directory)
        ensures { names.new ≡ names_of plant.new }
    {
        *plant = NamedPlant::unlisted(alloc, Seq::new(alloc));
        *names = Directory::new(alloc);
    }

    pub fn as_plant(&self) -> &Plant
        ensures { result.now ≡ self.now }
    {
        &self.plant
    }

    pub fn into_plant(self) -> Plant
        ensures { result ≡ self }
    {
        self.plant
    }

    /// The place of the first domain of this name. Takes no memory.
    pub fn find_domain(&self, word: &[u8]) -> Option<usize>
        ensures { result ≡ position (domain_named word.now) self.now.domains }
    {
        self.names.domains.find(word)
    }

    /// The place of the first type of this name. Takes no memory.
    pub fn find_type(&self, word: &[u8]) -> Option<usize>
        ensures { result ≡ position (type_named word.now) self.now.types }
    {
        self.names.types.find(word)
    }

    /// The place of the first part of this name. Takes no memory.
    pub fn find_part(&self, word: &[u8]) -> Option<usize>
        ensures { result ≡ position (part_named word.now) self.now.parts }
    {
        self.names.parts.find(word)
    }

    /// The place of the first variable of this name among those of the type at a place, as a part has it. Takes no memory.
    pub fn find_variable(&self, kind: usize, word: &[u8]) -> Option<usize>
        ensures place { result ≡ variable_at self.now.types kind word.now }
        ensures within { IfSome result (λ n. n < 2 ^ 64 - 1) }
    {
        let of = self.plant.types.as_slice().get(kind)?;
        let _count = of.variables.len();
        let places = self.names.variables.as_slice().get(kind)?;
        places.find(word)
    }

    pub fn set_name(&mut self, name: Name)
        ensures { self.new ≡ record self.old { name = name } }
    {
        self.plant.name = name;
    }

    /// Adds a domain to the lists of a plant and to what is found in them.
    fn note_domain(
        plant: &mut Plant,
        names: &mut Directory,
        domain: Domain,
    ) -> Result<(), AllocError>
        ensures plant { OnOk result (plant.new ≡ record plant.old { domains = plant.old.domains ++ domain ∷ [] }) }
        ensures names { OnOk result (names.new ≡ record names.old { domains = noted names.old.domains domain.name (length plant.old.domains) }) }
    {
        let place = plant.domains.len();
        names.domains.note(domain.name.as_slice(), place)?;
        plant.domains.push(domain)
    }

    /// Adds a domain. After want of memory the plant has no name and no lists.
    pub fn add_domain(&mut self, alloc: Global, domain: Domain) -> Result<(), AllocError>
        ensures { OnOk result (self.new ≡ record self.old { domains = self.old.domains ++ domain ∷ [] }) }
    {
        match NamedPlant::note_domain(&mut self.plant, &mut self.names, domain) {
            Ok(()) => Ok(()),
            Err(failed) => {
                NamedPlant::clear(alloc, &mut self.plant, &mut self.names);
                Err(failed)
            }
        }
    }

    /// Adds a type to the lists of a plant and to what is found in them.
    fn note_type(plant: &mut Plant, names: &mut Directory, of: NamedType) -> Result<(), AllocError>
        ensures plant { OnOk result (plant.new ≡ record plant.old { types = plant.old.types ++ of ∷ [] }) }
        ensures names { OnOk result (names.new ≡ record names.old { types = noted names.old.types of.name (length plant.old.types); variables = names.old.variables ++ variable_places of.variables ∷ [] }) }
    {
        let (lists, variables) = of.into_parts();
        names.variables.push(variables)?;
        let place = plant.types.len();
        names.types.note(lists.name.as_slice(), place)?;
        plant.types.push(lists)
    }

    /// Adds a type. After want of memory the plant has no name and no lists.
    pub fn add_type(&mut self, alloc: Global, of: NamedType) -> Result<(), AllocError>
        ensures { OnOk result (self.new ≡ record self.old { types = self.old.types ++ of ∷ [] }) }
    {
        match NamedPlant::note_type(&mut self.plant, &mut self.names, of) {
            Ok(()) => Ok(()),
            Err(failed) => {
                NamedPlant::clear(alloc, &mut self.plant, &mut self.names);
                Err(failed)
            }
        }
    }

    /// Adds a part to the lists of a plant and to what is found in them.
    fn note_part(plant: &mut Plant, names: &mut Directory, part: Part) -> Result<(), AllocError>
        ensures plant { OnOk result (plant.new ≡ record plant.old { parts = plant.old.parts ++ part ∷ [] }) }
        ensures names { OnOk result (names.new ≡ record names.old { parts = noted names.old.parts part.name (length plant.old.parts) }) }
    {
        let place = plant.parts.len();
        names.parts.note(part.name.as_slice(), place)?;
        plant.parts.push(part)
    }

    /// Adds a part. After want of memory the plant has no name and no lists.
    pub fn add_part(&mut self, alloc: Global, part: Part) -> Result<(), AllocError>
        ensures { OnOk result (self.new ≡ record self.old { parts = self.old.parts ++ part ∷ [] }) }
    {
        match NamedPlant::note_part(&mut self.plant, &mut self.names, part) {
            Ok(()) => Ok(()),
            Err(failed) => {
                NamedPlant::clear(alloc, &mut self.plant, &mut self.names);
                Err(failed)
            }
        }
    }

    pub fn push_law(&mut self, law: Condition) -> Result<(), AllocError>
        ensures { OnOk result (self.new ≡ record self.old { laws = self.old.laws ++ law ∷ [] }) }
    {
        self.plant.laws.push(law)
    }

    /// Whether this value of this control has a price. Takes no memory.
    pub fn is_priced(&self, control: VarId, value: ValId) -> bool
        ensures { result ≡ list_any (is_price_of control.0 value.0) self.now.prices }
    {
        self.names.prices.contains(control, value)
    }

    /// Adds a price to the lists of a plant and to what is found in them.
    fn note_price(plant: &mut Plant, names: &mut Directory, price: Price) -> Result<(), AllocError>
        ensures plant { OnOk result (plant.new ≡ record plant.old { prices = plant.old.prices ++ price ∷ [] }) }
        ensures names { OnOk result (names.new ≡ record names.old { prices = with_pair names.old.prices price.control.0 price.value.0 }) }
    {
        names.prices.insert(price.control, price.value)?;
        plant.prices.push(price)
    }

    /// Adds a price. After want of memory the plant has no name and no lists.
    pub fn add_price(&mut self, alloc: Global, price: Price) -> Result<(), AllocError>
        ensures { OnOk result (self.new ≡ record self.old { prices = self.old.prices ++ price ∷ [] }) }
    {
        match NamedPlant::note_price(&mut self.plant, &mut self.names, price) {
            Ok(()) => Ok(()),
            Err(failed) => {
                NamedPlant::clear(alloc, &mut self.plant, &mut self.names);
                Err(failed)
            }
        }
    }
}
