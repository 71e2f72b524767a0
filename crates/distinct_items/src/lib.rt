//! Distinct items, each kept once under a number.
//!
//! ```text
//! let number = items.insert(item)?;        // that of an equal item, or that of the new one, which is added last
//! let same = items.at(number);
//! let found = items.find(same);            // the number again
//! items.keep_used(&mut numbers);           // the items whose numbers aren't among these go, and the numbers follow
//! ```
//!
//! It is a hash table whose buckets are digital search trees (D. E. Knuth, *The Art of Computer Programming*, volume 3,
//! section 6.3). An item says in which bucket it belongs, and has a bit at each depth. There are one to two buckets for
//! each item. In a bucket each item has two links, and the bit at each depth chooses between them. So a lookup takes
//! expected constant time if the buckets and the bits are those of a good digest. If any two items differ in one of
//! their first n bits, a lookup compares at most n items that aren't equal. The links take 12 to 24 bytes for each item.
//! A lookup allocates nothing.
//!
//! Proved: Each item is kept once, and a number stays that of its item until `keep_used` (`insert`, `at`). Unused items
//! go, and the others stay in their order (`keep_used`). A lookup finds an equal item if there is one (`find`).
#![tactic(auto)]

ghost use Rattle.distinct_items.specs.Renumbering.{kept_items, used_of};
ghost use Rattle.distinct_items.specs.Search.{IsAbsent, IsEnd, IsOpen, IsSearchTree, TakesIn, bits_of};
ghost use Rattle.slp_model.specs.Thin.{rank};
ghost use Rattle.std.specs.Prelude.{◌≡◌, ℕ, ◌-◌, ◌*◌, ◌^◌, ◌<◌, ◌≤◌, ◌↔◌, [], All, length, map, slice_get, vec_capacity, IfNone, IfOk, IfSome, IsTrue, OnErr, OnOk, Some};

mod renumbering;
#[cfg(test)]
mod tests;

use renumbering::{clear, close_up, follow, mark_used};
use span_types::NoMemory;
use std::alloc::Global;
use std::marker::Model;

/// A value that is found by bits of a digest.
pub trait Digested: Drop {
    // The bucket of a value, for this number of buckets.
    ghost root: { ℕ → Self → ℕ };

    // The bit of a value at this depth.
    ghost branch: { Self → ℕ → ℕ };

    /// The bucket of the value, for this number of buckets. A good digest uses each bucket equally often.
    fn root(&self, roots: usize) -> usize
        requires { 0 < roots }
        ensures value { result ≡ root roots self.now }
        ensures within { result < roots };

    /// The bit of the value at this depth. Values that differ should differ in one of the first bits.
    fn branch(&self, depth: usize) -> usize
        ensures value { result ≡ branch self.now depth }
        ensures bit { result < 2 };

    /// Whether the values are the same.
    fn is_same(&self, other: &Self) -> bool
        ensures { IsTrue result ↔ self.now ≡ other.now };
}

/// Distinct items in the order in which they were inserted.
#[derive(Drop)]
pub struct DistinctItems<T: Digested> {
    items: Vec<T>,
    // The number of buckets.
    roots: usize,
    // One slot for each bucket, and then two for each item. A slot has one more than the index of the item below it, or 0.
    links: Vec<u32>,
}

impl<T: Digested> Model for DistinctItems<T> {
    ghost use Rattle.std.specs.Prelude.{List, length};
    ghost use Rattle.distinct_items.specs.Search.{IsSearchTree, bits_of};

    ghost Value = { List T };

    ghost view = { λ s. s.items.items };

    ghost invariant = { λ s. IsSearchTree (bits_of T.root T.branch) s.roots s.items.items (length s.items.items) s.links.items };
}

/// The end of a lookup: the index of an equal item, or the empty slot where the item belongs.
pub(crate) enum End {
    At(usize),
    Open(usize),
}

const FIRST_ROOTS: usize = 16;

impl<T: Digested> DistinctItems<T> {
    /// No items. Allocates nothing.
    pub fn new(alloc: Global) -> DistinctItems<T>
        ensures { result ≡ [] }
    {
        DistinctItems {
            items: Vec::new(alloc),
            roots: 0,
            links: Vec::new(alloc),
        }
    }

    /// The number of items.
    pub fn len(&self) -> usize
        ensures { result ≡ length self.now }
    {
        self.items.len()
    }

    /// The item with this number.
    pub fn at(&self, number: usize) -> &T
        requires { number < length self.now }
        ensures { slice_get self.now number ≡ Some result.now }
    {
        &self.items[number]
    }

    /// The number of an equal item, if there is one.
    pub fn find(&self, item: &T) -> Option<usize>
        ensures found { IfSome result (λ n. slice_get self.now n ≡ Some item.now) }
        ensures absent { IfNone result (IsAbsent self.now item.now) }
    {
        if self.roots == 0 {
            return None;
        }
        match end_of(&self.items, self.roots, &self.links, item) {
            End::At(index) => Some(index),
            End::Open(_) => None,
        }
    }

    /// The number of the item, which is added last if no equal one is there.
    ///
    /// # Errors
    ///
    /// `NoMemory` if allocation fails; the items are then unchanged.
    pub fn insert(&mut self, item: T) -> Result<usize, NoMemory>
        requires { length self.old < 2 ^ 32 - 1 }
        ensures index { IfOk result (λ n. slice_get self.new n ≡ Some item) }
        ensures taken { OnOk result (TakesIn self.old self.new item) }
        ensures err { OnErr result (self.new ≡ self.old) }
    {
        self.roots = roots_for_more(&self.items, self.roots, &mut self.links)?;
        match end_of(&self.items, self.roots, &self.links, &item) {
            End::At(index) => Ok(index),
            End::Open(slot) => {
                let index = self.items.len();
                self.items.reserve(1)?;
                self.links[slot] = index as u32 + 1;
                self.items.push_reserved(item);
                Ok(index)
            }
        }
    }

    /// Removes the items whose numbers are not among these, and replaces each number by the new one. The order is
    /// unchanged. It allocates nothing, and takes time linear in the items and the numbers.
    pub fn keep_used(&mut self, numbers: &mut Vec<u32>)
        requires within { All (λ n. n < length self.old) numbers.old.items }
        requires low { length self.old < 2 ^ 32 }
        ensures items { self.new ≡ kept_items self.old (used_of numbers.old.items (length self.old)) }
        ensures numbers { numbers.new.items ≡ map (rank (used_of numbers.old.items (length self.old))) numbers.old.items }
        ensures capacity { vec_capacity numbers.new ≡ vec_capacity numbers.old }
    {
        mark_used(&mut self.links, numbers.as_slice());
        close_up(&mut self.items, &mut self.links);
        follow(numbers, &self.links);
        link_all(&self.items, self.roots, &mut self.links);
    }
}

// Finds the item.
fn end_of<T: Digested>(items: &[T], roots: usize, links: &[u32], item: &T) -> End
    requires tree { IsSearchTree (bits_of T.root T.branch) roots items.now (length items.now) links.now }
    requires some { 0 < roots }
    ensures { IsEnd (bits_of T.root T.branch) roots items.now links.now item.now result }
{
    let mut depth = 0;
    let mut slot = item.root(roots);
    'way: loop {
        let link = links[slot];
        if link == 0 {
            return End::Open(slot);
        }
        let index = (link - 1) as usize;
        if items[index].is_same(item) {
            return End::At(index);
        }
        slot = roots + 2 * index + item.branch(depth);
        depth += 1;
    }
}

// The slot where the item at this index belongs, if the links lead to those before it.
fn open_of<T: Digested>(items: &[T], index: usize, roots: usize, links: &[u32]) -> usize
    requires tree { IsSearchTree (bits_of T.root T.branch) roots items.now index links.now }
    requires within { index < length items.now }
    requires some { 0 < roots }
    ensures { (x : T) → slice_get items.now index ≡ Some x → IsOpen (bits_of T.root T.branch) roots x index links.now result }
{
    let item = &items[index];
    let mut depth = 0;
    let mut slot = item.root(roots);
    'way: loop {
        let link = links[slot];
        if link == 0 {
            return slot;
        }
        slot = roots + 2 * (link - 1) as usize + item.branch(depth);
        depth += 1;
    }
}

// Writes the links to all items again.
fn link_all<T: Digested>(items: &[T], roots: usize, links: &mut [u32])
    requires long { length links.old ≡ 3 * roots }
    requires few { length items.now ≤ roots }
    requires low { length items.now < 2 ^ 32 }
    ensures { IsSearchTree (bits_of T.root T.branch) roots items.now (length items.now) links.new }
{
    clear(links);
    for index in 0..items.len() {
        let slot = open_of(items, index, roots, links);
        links[slot] = index as u32 + 1;
    }
}

// Doubles the buckets if there are none for one more item, and returns their number.
fn roots_for_more<T: Digested>(
    items: &[T],
    roots: usize,
    links: &mut Vec<u32>,
) -> Result<usize, NoMemory>
    requires tree { IsSearchTree (bits_of T.root T.branch) roots items.now (length items.now) links.old.items }
    requires low { length items.now < 2 ^ 32 - 1 }
    ensures more { IfOk result (λ r. (length items.now < r) × IsSearchTree (bits_of T.root T.branch) r items.now (length items.now) links.new.items) }
    ensures err { OnErr result (links.new.items ≡ links.old.items) }
{
    if items.len() < roots {
        return Ok(roots);
    }
    let more = FIRST_ROOTS.max(2 * items.len());
    links.resize(3 * more, 0)?;
    link_all(items, more, links);
    Ok(more)
}
