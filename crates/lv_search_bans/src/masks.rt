//! A box: of each slot the choices left, as a mask in which bit `c` is 1 where choice `c` is left.
#![tactic(auto)]

ghost use Rattle.std.specs.Prelude.{◌≡◌, slice_index, slice_set, IfOk};
ghost use Rattle.lv_boxes.specs.Parts.{masks_with, masks_without};
ghost use Rattle.lv_search_bans.specs.Bans.{masks_less};
ghost use Rattle.lv_search_bans.specs.Boxes.{has_left};

use super::bans::{Choices, without_these};
use lv_base::Pair;
use lv_boxes::mask;
use std::alloc::{AllocError, Global};
use std::marker::Model;

/// The masks of a box. Contracts see the list of them.
#[derive(Debug, Drop)]
pub struct Masks {
    words: Vec<u64>,
}

impl Model for Masks {
    ghost use Rattle.std.specs.Prelude.{List, ℕ};

    ghost Value = { List ℕ };

    ghost view = { λ m. m.words.items };
}

impl Masks {
    /// The box with these masks, in memory of its own.
    pub fn from_slice(alloc: Global, words: &[u64]) -> Result<Masks, AllocError>
        ensures { IfOk result (λ masks. masks ≡ words.now) }
    {
        Ok(Masks {
            words: Vec::from_slice(alloc, words)?,
        })
    }

    /// The box with these masks, in their own memory.
    pub fn from_vec(words: Vec<u64>) -> Masks
        ensures { result ≡ words.items }
    {
        Masks { words }
    }

    pub fn as_slice(&self) -> &[u64]
        ensures { result.now ≡ self.now }
    {
        self.words.as_slice()
    }

    /// The choices left of a slot, none where the box hasn't the slot.
    pub fn at(&self, slot: usize) -> u64
        ensures { result ≡ slice_index self.now slot }
    {
        if slot < self.words.len() {
            self.words[slot]
        } else {
            0
        }
    }

    /// Leaves these choices of a slot. A slot that the box hasn't is passed over.
    pub fn replace(&mut self, slot: usize, mask: u64)
        ensures { self.new ≡ slice_set self.old slot mask }
    {
        if slot < self.words.len() {
            self.words[slot] = mask;
        }
    }

    /// Whether the box has the pair's choice at its slot.
    pub fn has(&self, pair: Pair) -> bool
        ensures { result ≡ has_left self.now pair }
    {
        let slot = pair.slot as usize;
        slot < self.words.len() && mask::has(self.words[slot], pair.choice as usize)
    }

    /// The box of the members that have the pair's choice at its slot. A slot that the box hasn't is passed over.
    pub fn with(&self, alloc: Global, pair: Pair) -> Result<Masks, AllocError>
        ensures { IfOk result (λ masks. masks ≡ masks_with self.now pair) }
    {
        let mut masks = Masks::from_slice(alloc, self.as_slice())?;
        masks.fix(pair);
        Ok(masks)
    }

    /// The box of the members that haven't the pair's choice at its slot. A slot that the box hasn't is passed over.
    pub fn without(&self, alloc: Global, pair: Pair) -> Result<Masks, AllocError>
        ensures { IfOk result (λ masks. masks ≡ masks_without self.now pair) }
    {
        let mut masks = Masks::from_slice(alloc, self.as_slice())?;
        masks.exclude(pair);
        Ok(masks)
    }

    /// Leaves the members that have the pair's choice at its slot. A slot that the box hasn't is passed over.
    pub fn fix(&mut self, pair: Pair)
        ensures { self.new ≡ masks_with self.old pair }
    {
        let slot = pair.slot as usize;
        if slot < self.words.len() {
            self.words[slot] = mask::only(self.words[slot], pair.choice);
        }
    }

    /// Leaves the members that haven't the pair's choice at its slot. A slot that the box hasn't is passed over.
    pub fn exclude(&mut self, pair: Pair)
        ensures { self.new ≡ masks_without self.old pair }
    {
        let slot = pair.slot as usize;
        if slot < self.words.len() {
            self.words[slot] = mask::without(self.words[slot], pair.choice);
        }
    }

    /// Leaves the members that have none of these choices at their slot. A slot that the box hasn't is passed over.
    pub(crate) fn exclude_all(&mut self, set: Choices)
        ensures { self.new ≡ masks_less self.old set }
    {
        let slot = set.slot as usize;
        if slot < self.words.len() {
            self.words[slot] = without_these(self.words[slot], set.mask);
        }
    }
}

/// Whether a mask has two choices or more.
#[inline(always)]
pub fn has_several(mask: u64) -> bool {
    mask & mask.wrapping_sub(1) != 0
}
