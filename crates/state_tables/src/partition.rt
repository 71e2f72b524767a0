//! The classes of the states of a table.

ghost use Rattle.state_tables.specs.Partition.{HasWeights, partition_branch, partition_digest, partition_root};
ghost use Rattle.state_tables.specs.Weights.{weighted};
ghost use Rattle.std.specs.Int.{bit_at};
ghost use Rattle.std.specs.Prelude.{◌≡◌, ◌↔◌, ℕ, ◌/◌, ◌%◌, ◌^◌, ◌<◌, ◌⊎◌, List, [], get_or, length, map, IfOk, IfSome, IsTrue};

use crate::digest::{WEIGHT, sum_digest};
use crate::places::Places;
use distinct_items::Digested;
use span_types::NoMemory;
use std::alloc::Global;
use std::marker::Model;
use std::ops::Deref;
use std::sync::Arc;

/// The class of each state, with the weight of each class, and a digest by which equal partitions are found. The weight of
/// a class is the sum of the weights of its states, modulo 2^64, so that sums over the states are sums over the classes.
#[derive(Drop)]
pub(crate) struct Partition {
    classes: Vec<u16>,
    // The weight of each class, or nothing if the classes are many.
    weights: Vec<u64>,
    digest: u128,
}

impl Model for Partition {
    ghost use Rattle.std.specs.Prelude.{◌≡◌, ◌⊎◌, ℕ, List, []};
    ghost use Rattle.state_tables.specs.Partition.{HasWeights, partition_digest};

    ghost Value = { List ℕ };

    ghost view = { λ p. p.classes.items };

    ghost invariant = { λ p. ((p.weights.items ≡ []) ⊎ HasWeights p.classes.items p.weights.items) × p.digest ≡ partition_digest p.classes.items };
}

impl Partition {
    /// The partition with these classes, which have these weights.
    fn new(alloc: Global, classes: Vec<u16>, weights: Vec<u64>) -> Partition
        requires { HasWeights classes.items weights.items }
        ensures { result ≡ classes.items }
    {
        let digest = sum_digest(class_sum(&weights));
        let weights = if_few(alloc, weights, classes.len());
        Partition {
            classes,
            weights,
            digest,
        }
    }
}

// The weights of more classes than a quarter of the states take more memory than the classes, and save little time.
const STATES_PER_CLASS: usize = 4;

// The weights, or nothing if the classes are many.
fn if_few(alloc: Global, weights: Vec<u64>, states: usize) -> Vec<u64>
    ensures { (result.items ≡ []) ⊎ (result.items ≡ weights.items) }
{
    if weights.len() <= states / STATES_PER_CLASS {
        weights
    } else {
        Vec::new(alloc)
    }
}

// One more than the greatest of these classes, or 0 if there is none.
fn class_count(classes: &[u16]) -> usize
    ensures { (p : ℕ) → p < length classes.now → get_or classes.now p 0 < result }
{
    let mut count = 0;
    for class in classes {
        let end = *class as usize + 1;
        if count < end {
            count = end;
        }
    }
    count
}

// The weight of each class, from the classes of the states.
fn class_weights(alloc: Global, classes: &[u16]) -> Result<Vec<u64>, NoMemory>
    ensures { IfOk result (λ weights. HasWeights classes.now weights.items) }
{
    let mut weights = vec![in alloc; 0u64; class_count(classes)]?;
    let mut weight: u64 = 1;
    for class in classes {
        let class = *class as usize;
        weights[class] = weights[class].wrapping_add(weight);
        weight = weight.wrapping_mul(WEIGHT);
    }
    Ok(weights)
}

// The weight of each new class, to which the old ones go.
fn merged_weights(alloc: Global, weights: &[u64], places: &[u16]) -> Result<Vec<u64>, NoMemory>
    ensures { IfOk result (λ merged. (classes : List ℕ) → HasWeights classes weights.now
        → ((p : ℕ) → p < length classes → get_or classes p 0 < length places.now)
        → HasWeights (map (λ c. get_or places.now c 0) classes) merged.items) }
{
    let mut merged = vec![in alloc; 0u64; class_count(places)]?;
    for class in 0..weights.len().min(places.len()) {
        let new = places[class] as usize;
        merged[new] = merged[new].wrapping_add(weights[class]);
    }
    Ok(merged)
}

// The sum over the states of the weight of each times its class, modulo 2^64.
fn class_sum(weights: &[u64]) -> u64
    ensures { (classes : List ℕ) → HasWeights classes weights.now
        → result ≡ weighted (λ c. c) 0 classes % 2 ^ 64 }
{
    let mut sum: u64 = 0;
    for class in 0..weights.len() {
        sum = sum.wrapping_add(weights[class].wrapping_mul(class as u64));
    }
    sum
}

// The new class of each state, from that of its class.
fn through(alloc: Global, classes: &[u16], places: &[u16]) -> Result<Vec<u16>, NoMemory>
    requires { (p : ℕ) → p < length classes.now → get_or classes.now p 0 < length places.now }
    ensures { IfOk result (λ v. v.items ≡ map (λ c. get_or places.now c 0) classes.now) }
{
    let mut result = vec![in alloc; 0; classes.len()]?;
    for p in 0..classes.len() {
        result[p] = places[classes[p] as usize];
    }
    Ok(result)
}

/// A partition of the states that several tables may have.
#[derive(Drop)]
pub(crate) struct SharedPartition {
    partition: Arc<Partition, Global>,
}

impl Model for SharedPartition {
    ghost use Rattle.std.specs.Prelude.{ℕ, List};
    ghost use Rattle.std.specs.Arc.{arc_value};

    ghost Value = { List ℕ };

    ghost view = { λ s. arc_value s.partition };
}

impl SharedPartition {
    /// The partition with these classes.
    ///
    /// # Errors
    ///
    /// `NoMemory` if allocation fails.
    pub(crate) fn new(alloc: Global, classes: Vec<u16>) -> Result<SharedPartition, NoMemory>
        ensures { IfOk result (λ s. s ≡ classes.items) }
    {
        let weights = class_weights(alloc, &classes)?;
        let partition = Arc::new(alloc, Partition::new(alloc, classes, weights))?;
        Ok(SharedPartition { partition })
    }

    /// The same partition once more. Nothing is copied.
    ///
    /// # Errors
    ///
    /// `NoMemory` if there are too many owners, 2^63.
    pub(crate) fn share(&self) -> Result<SharedPartition, NoMemory>
        ensures { IfOk result (λ s. s ≡ self.now) }
    {
        let partition = Arc::try_clone(&self.partition)?;
        Ok(SharedPartition { partition })
    }

    /// The class of each state.
    pub(crate) fn classes(&self) -> &[u16]
        ensures { result.now ≡ self.now }
    {
        &Deref::deref(&self.partition).classes
    }

    /// Whether each state has the same class in the other partition.
    pub(crate) fn has_classes_of(&self, other: &SharedPartition) -> bool
        ensures { IsTrue result ↔ self.now ≡ other.now }
    {
        are_same(self.classes(), other.classes())
    }

    /// The partition in which each class goes to a new one.
    ///
    /// # Errors
    ///
    /// `NoMemory` if allocation fails.
    pub(crate) fn merged(&self, alloc: Global, places: &Places) -> Result<SharedPartition, NoMemory>
        requires { (p : ℕ) → p < length self.now → get_or self.now p 0 < length places.now }
        ensures { IfOk result (λ s. s ≡ map (λ c. get_or places.now c 0) self.now) }
    {
        if places.are_kept() {
            return self.share();
        }
        let places = places.list(alloc)?;
        let classes = through(alloc, self.classes(), &places)?;
        let weights = match self.weights() {
            Some(weights) => merged_weights(alloc, weights, &places)?,
            None => class_weights(alloc, &classes)?,
        };
        let partition = Arc::new(alloc, Partition::new(alloc, classes, weights))?;
        Ok(SharedPartition { partition })
    }

    /// The weight of each class, unless the classes are many.
    pub(crate) fn weights(&self) -> Option<&[u64]>
        ensures { IfSome result (λ weights. HasWeights self.now weights.now) }
    {
        let weights = &Deref::deref(&self.partition).weights;
        if weights.is_empty() {
            None
        } else {
            Some(weights)
        }
    }

    // The digest of the classes.
    fn digest(&self) -> u128
        ensures { result ≡ partition_digest self.now }
    {
        Deref::deref(&self.partition).digest
    }
}

// Whether the classes are the same. It reads all of them, so that several are compared at once.
fn are_same(classes: &[u16], others: &[u16]) -> bool
    ensures { IsTrue result ↔ classes.now ≡ others.now }
{
    if classes.len() != others.len() {
        return false;
    }
    let mut different: u16 = 0;
    for index in 0..classes.len() {
        different |= classes[index] ^ others[index];
    }
    different == 0
}

// A class has 16 bits.
const CLASS_BITS: usize = 16;

// A bit of the concatenated classes, or 0 past the end.
fn class_bit(classes: &[u16], index: usize) -> usize
    ensures { result ≡ bit_at (get_or classes.now (index / 16) 0) (index % 16) }
{
    match classes.get(index / CLASS_BITS) {
        Some(class) => (*class >> (index % CLASS_BITS) as u16 & 1) as usize,
        None => 0,
    }
}

impl Digested for SharedPartition {
    ghost root = { partition_root };

    ghost branch = { partition_branch };

    fn root(&self, roots: usize) -> usize {
        (self.digest() & (roots - 1) as u128) as usize
    }

    fn branch(&self, depth: usize) -> usize {
        if depth < 64 {
            (self.digest() >> (127 - depth) & 1) as usize
        } else {
            class_bit(self.classes(), depth - 64)
        }
    }

    fn is_same(&self, other: &SharedPartition) -> bool {
        self.digest() == other.digest() && self.has_classes_of(other)
    }
}
