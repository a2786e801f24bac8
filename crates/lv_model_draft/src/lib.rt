//! Types and plants that are being put together, with what they have found by name in a time that doesn't grow with their
//! lists.
//!
//! | file | what it holds |
//! |---|---|
//! | `first_places` | `FirstPlaces`: the first place of each name, found by hashing |
//! | `priced` | `PricedValues`: which values of which controls have a price |
//! | `directory` | `Directory`: a table of names for each list of a plant that has names, and what is priced |
//! | `named_type` | `NamedType`: a component type, its variables found by name |
//! | `named_plant` | `NamedPlant`: a plant, its domains, types, parts and their variables found by name |
#![tactic(auto)]

pub mod directory;
pub mod first_places;
pub mod named_plant;
pub mod named_type;
pub mod priced;

pub use directory::Directory;
pub use first_places::FirstPlaces;
pub use named_plant::NamedPlant;
pub use named_type::NamedType;
pub use priced::PricedValues;
