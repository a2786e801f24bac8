//! The names of a plant's lists, each list's in a table, and what its prices are of.
#![tactic(auto)]

ghost use Rattle.std.specs.Prelude.{◌≡◌, []};

use crate::FirstPlaces;
use crate::priced::PricedValues;
use lv_base::Seq;
use std::alloc::Global;

/// The first places of the names of a plant's lists, and the values of controls that are priced.
#[derive(Debug, Drop)]
pub struct Directory {
    pub domains: FirstPlaces,
    pub types: FirstPlaces,
    pub parts: FirstPlaces,
    /// The names of each type's variables, in the order of the types.
    pub variables: Seq<FirstPlaces>,
    pub prices: PricedValues,
}

impl Directory {
    /// What empty lists have.
    pub fn new(alloc: Global) -> Directory
        ensures { result ≡ record { domains = []; types = []; parts = []; variables = []; prices = [] } }
    {
        Directory {
            domains: FirstPlaces::new(alloc),
            types: FirstPlaces::new(alloc),
            parts: FirstPlaces::new(alloc),
            variables: Seq::new(alloc),
            prices: PricedValues::new(alloc),
        }
    }
}
