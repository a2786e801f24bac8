//! Which slots conflicts join. Each slot has a label, and two slots that conflicts join have one.
#![tactic(auto)]

ghost use Rattle.std.specs.Prelude.{◌≡◌, ℕ, true, List, map, IfOk, IfSome};
ghost use Rattle.std.specs.List.{list_all};
ghost use Rattle.lv_base.specs.declared.search.Pair.{Pair};
ghost use Rattle.lv_search_parts.specs.Labels.{label_at, first_label, label_marks, is_listed, has_one_label, AreLabels};
ghost use Rattle.lv_search_parts.specs.Slots.{is_marked, is_inside};
ghost use Rattle.lv_search_parts.specs.Parts.{IsPartWith};

use super::marks::is_inside;
use lv_base::{Conflict, Pair};
use std::alloc::{AllocError, Global};

/// Of so many slots a label each, one for those that conflicts join; `None` where a conflict speaks of a slot that there
/// isn't.
pub fn labels_of(
    alloc: Global,
    conflicts: &[Conflict],
    slots: usize,
) -> Result<Option<Vec<usize>>, AllocError>
    ensures { IfOk result (λ found. IfSome found (λ labels. AreLabels conflicts.now slots labels.items)) }
{
    let mut labels = own_labels(alloc, slots)?;
    for conflict in conflicts {
        join(conflict.pairs(), &mut labels);
    }
    if are_labels(conflicts, slots, &labels) {
        Ok(Some(labels))
    } else {
        Ok(None)
    }
}

/// Whether there are so many labels, and each conflict has all its slots under one.
pub fn are_labels(conflicts: &[Conflict], slots: usize, labels: &[usize]) -> bool
    ensures { result ≡ true → AreLabels conflicts.now slots labels.now }
{
    labels.len() == slots && are_one_each(conflicts, labels)
}

/// Each slot's own number.
fn own_labels(alloc: Global, slots: usize) -> Result<Vec<usize>, AllocError> {
    let mut labels = Vec::new(alloc);
    for slot in 0..slots {
        labels.push(slot)?;
    }
    Ok(labels)
}

/// Gives the slots of these pairs, and all that have their labels, one label.
pub fn join(pairs: &[Pair], labels: &mut [usize]) {
    for pair in pairs {
        let old = label_at(labels, *pair);
        let new = first_label(labels, pairs);
        relabel(labels, old, new);
    }
}

/// Gives the slots with a label another one.
fn relabel(labels: &mut [usize], old: usize, new: usize) {
    if old == new {
        return;
    }
    for slot in 0..labels.len() {
        relabel_at(labels, slot, old, new);
    }
}

/// Gives a slot another label, if it has this one.
fn relabel_at(labels: &mut [usize], slot: usize, old: usize, new: usize) {
    if slot < labels.len() && labels[slot] == old {
        labels[slot] = new;
    }
}

/// The label of the pair's slot; 0, where there isn't that slot.
fn label_at(labels: &[usize], pair: Pair) -> usize
    ensures { result ≡ label_at labels.now pair.slot }
{
    match labels.get(pair.slot as usize) {
        Some(label) => *label,
        None => 0,
    }
}

/// The label of the first pair's slot; 0, where there isn't that slot or no pair.
fn first_label(labels: &[usize], pairs: &[Pair]) -> usize
    ensures { result ≡ first_label labels.now pairs.now }
{
    match pairs.first() {
        Some(pair) => label_at(labels, *pair),
        None => 0,
    }
}

/// Whether each conflict has all its slots under one label.
fn are_one_each(conflicts: &[Conflict], labels: &[usize]) -> bool
    ensures { result ≡ list_all (has_one_label labels.now) conflicts.now }
{
    conflicts
        .iter()
        .all(|conflict| has_one_label(labels, conflict.pairs()))
}

/// Whether the slots of all pairs have one label.
fn has_one_label(labels: &[usize], pairs: &[Pair]) -> bool
    ensures { result ≡ has_one_label labels.now pairs.now }
{
    have_label(labels, first_label(labels, pairs), pairs)
}

/// Whether the slots of all pairs have this label.
fn have_label(labels: &[usize], label: usize, pairs: &[Pair]) -> bool
    ensures { result ≡ is_inside (label_marks labels.now label) pairs.now }
{
    pairs.iter().all(|pair| has_label(labels, label, *pair))
}

/// Whether there is the pair's slot and it has this label.
fn has_label(labels: &[usize], label: usize, pair: Pair) -> bool
    ensures { result ≡ is_marked (label_marks labels.now label) pair.slot }
{
    let slot = pair.slot as usize;
    slot < labels.len() && labels[slot] == label
}

/// The slots that conflicts join to these pairs', and no others; `None` where a conflict or a pair speaks of a slot that
/// there isn't.
pub fn joined_with(
    alloc: Global,
    conflicts: &[Conflict],
    slots: usize,
    pairs: &[Pair],
) -> Result<Option<Vec<bool>>, AllocError>
    ensures { IfOk result (λ part. IfSome part (λ marks. IsPartWith conflicts.now slots pairs.now marks.items)) }
{
    match labels_of(alloc, conflicts, slots)? {
        Some(labels) => part_with(alloc, &labels, pairs),
        None => Ok(None),
    }
}

/// The slots whose labels these pairs' slots have; `None` where a pair speaks of a slot that there isn't.
pub fn part_with(
    alloc: Global,
    labels: &[usize],
    pairs: &[Pair],
) -> Result<Option<Vec<bool>>, AllocError>
    ensures { (conflicts : List (List Pair)) (slots : ℕ) → AreLabels conflicts slots labels.now → IfOk result (λ part. IfSome part (λ marks. IsPartWith conflicts slots pairs.now marks.items)) }
{
    let listed = listed_in(alloc, labels, pairs)?;
    let marks = marks_by(alloc, labels, listed.as_slice())?;
    if is_inside(&marks, pairs) {
        Ok(Some(marks))
    } else {
        Ok(None)
    }
}

/// Of each label whether some of these pairs' slots has it.
fn listed_in(alloc: Global, labels: &[usize], pairs: &[Pair]) -> Result<Vec<bool>, AllocError> {
    let mut listed = vec![in alloc; false; labels.len()]?;
    for pair in pairs {
        list(label_at(labels, *pair), &mut listed);
    }
    Ok(listed)
}

/// Lists a label, if there may be such a one.
fn list(label: usize, listed: &mut [bool]) {
    if label < listed.len() {
        listed[label] = true;
    }
}

/// Which slots have a label that is listed.
fn marks_by(alloc: Global, labels: &[usize], listed: &[bool]) -> Result<Vec<bool>, AllocError>
    ensures { IfOk result (λ marks. marks.items ≡ map (is_listed listed.now) labels.now) }
{
    let mut marks = Vec::new(alloc);
    for label in labels {
        marks.push(is_listed(listed, *label))?;
    }
    Ok(marks)
}

/// Whether a label is listed.
fn is_listed(listed: &[bool], label: usize) -> bool
    ensures { result ≡ is_listed listed.now label }
{
    match listed.get(label) {
        Some(is) => *is,
        None => false,
    }
}
