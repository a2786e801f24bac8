//! The observations that a session holds, found by their names in a time that doesn't grow with how many there are.
//!
//! | call | answer |
//! |---|---|
//! | `Held::new` | no observations |
//! | `len` | how many there are |
//! | `has` | whether there is one of a name |
//! | `push` | puts one last, whose name no other has |
//! | `take_out` | takes out the one of a name |
//! | `observations` | what was observed, without the names |
//! | `facts` | control values and what was observed, as facts |
#![tactic(auto)]

ghost use Rattle.std.specs.Prelude.{◌≡◌, ◌^◌, ◌<◌, false, [], ◌∷◌, ◌++◌, length, map, filter, IfOk, OnOk, OnErr};
ghost use Rattle.std.specs.List.{list_any};
ghost use Rattle.lv_session_request.specs.Held.{observation_of, has_name, lacks_name};

use crate::Sighting;
use indexmap::IndexMap;
use lv_base::{Seq, ValId};
use lv_meaning::{Facts, Observation};
use std::alloc::{AllocError, Global};
use std::marker::Model;

/// Observations by their names. No two have one name. Contracts see the list of them, in the order in which they came.
#[derive(Debug, Drop)]
pub struct Held {
    table: IndexMap<Vec<u8>, Observation>,
}

impl Model for Held {
    ghost use Rattle.std.specs.Prelude.{List, map, nat_eq};
    ghost use Rattle.std.specs.Cmp.Lexicographic.{pointwise};
    ghost use Rattle.indexmap.specs.IndexMap.{IsUnique};
    ghost use Rattle.lv_session_request.specs.declared.request.Sighting.{Sighting};
    ghost use Rattle.lv_session_request.specs.Held.{sighting_of};

    ghost Value = { List Sighting };

    ghost view = { λ h. map (λ e. sighting_of e.0.items e.1) h.table.entries };

    ghost invariant = { λ h. IsUnique (λ j k. pointwise nat_eq j.items k.items) h.table };
}

impl Held {
    /// No observations. It takes its memory as it grows.
    pub fn new(alloc: Global) -> Held
        ensures { result ≡ [] }
    {
        Held {
            table: IndexMap::new(alloc),
        }
    }

    pub fn len(&self) -> usize
        ensures len { result ≡ length self.now }
        ensures fits { result < 2 ^ 63 }
    {
        self.table.len()
    }

    /// Whether one of the observations has this name. Takes no memory.
    pub fn has(&self, name: &[u8]) -> bool
        ensures { result ≡ list_any (has_name name.now) self.now }
    {
        self.table.contains_key(name)
    }

    /// Puts one more observation last. After want of memory nothing has changed.
    pub fn push(&mut self, sighting: Sighting) -> Result<(), AllocError>
        requires { list_any (has_name sighting.name) self.old ≡ false }
        ensures ok { OnOk result (self.new ≡ self.old ++ sighting ∷ []) }
        ensures err { OnErr result (self.new ≡ self.old) }
    {
        let observation = Observation {
            var: sighting.var,
            val: sighting.val,
        };
        self.table.insert(sighting.name.into_vec(), observation)?;
        Ok(())
    }

    /// Takes out what has this name; the others stay, in their order. Takes no memory; those that came later move up.
    pub fn take_out(&mut self, name: &[u8])
        ensures { self.new ≡ filter (lacks_name name.now) self.old }
    {
        self.table.shift_remove(name);
    }

    /// What was observed, without the names.
    pub fn observations(&self, alloc: Global) -> Result<Vec<Observation>, AllocError>
        ensures { IfOk result (λ out. out.items ≡ map observation_of self.now) }
    {
        self.table.values().copied().collect(alloc)
    }
}

/// The facts that the values of the controls and what was observed are, before a step and after it.
pub fn facts(
    alloc: Global,
    controls: &[ValId],
    present: &Held,
    next: &Held,
) -> Result<Facts, AllocError>
    ensures { IfOk result (λ facts. facts ≡ record { controls = controls.now; present = map observation_of present.now; next = map observation_of next.now }) }
{
    Ok(Facts {
        controls: Seq::from_slice(alloc, controls)?,
        present: Seq::from_vec(present.observations(alloc)?),
        next: Seq::from_vec(next.observations(alloc)?),
    })
}
