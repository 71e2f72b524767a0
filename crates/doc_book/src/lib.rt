//! Documents by name, each with the root of its text, in the order in which their names were added.
//!
//! ```text
//! let mut docs = Docs::new(alloc);
//! docs.set(alloc, name, root)?;                            // `name` is called "d"
//! assert_eq!(docs.get(b"d"), Ok(root));
//! let copy = docs.copy(alloc)?;                            // the same names and roots
//! docs.take_out(b"d")?;
//! assert_eq!(docs.get(b"d"), Err(Missing::NoSuchDocument));
//! ```
//!
//! A document is a name and a root. It uses memory for these two only: its text is in the node store. `Docs` is a map
//! of the crate `name_map`, which keeps that order and determines the costs:
//!
//! - `set`, `get` and `take_out` take amortised O(log n) time for n documents.
//! - `copy` takes O(n log n) time.
//! - `at` and `set_root` take constant time after `settle`, until the next `take_out`. Otherwise they take up to linear
//!   time, so a caller that visits all documents calls `settle` first.
//!
//! Proved: An ordered list of distinct names (`Docs`).
//!
//! Tested: Error texts.
#![tactic(auto)]

ghost use Rattle.doc_book.specs.Docs.{AreDistinctNames, put, root_of, taken_out, with_root};
ghost use Rattle.std.specs.Prelude.{◌≡◌, ◌<◌, ◌≤◌, [], length, slice_get, ok_or, Some, None, IsSome, IfOk, OnOk, OnErr};

use name_map::NameMap;
use slp_model::NodeId;
use span_types::{Name, NoMemory};
use std::alloc::Global;
use std::marker::Model;
use thiserror::Error;

/// Why a document is not found.
#[derive(Clone, Copy, Debug, PartialEq, Eq, Drop, Error)]
pub enum Missing {
    /// No document has the name.
    #[error("no document has this name")]
    NoSuchDocument,
}

/// A document.
#[derive(Drop)]
pub struct Doc {
    /// Its name.
    pub name: Name,
    /// The node that derives its text, or `None` for the empty text.
    pub root: Option<NodeId>,
}

/// Documents with distinct names, in the order in which the names were added. Contracts see them as a list. A lookup by
/// name takes time logarithmic in their number.
#[derive(Drop)]
pub struct Docs {
    by_name: NameMap<Option<NodeId>>,
}

impl Model for Docs {
    ghost use Rattle.std.specs.Prelude.{List};
    ghost use Rattle.doc_book.specs.declared.Doc.{Doc};
    ghost use Rattle.doc_book.specs.Named.{docs_of};

    ghost Value = { List Doc };

    ghost view = { λ d. docs_of d.by_name };
}

impl Docs {
    /// No documents.
    pub fn new(alloc: Global) -> Docs
        ensures { result ≡ [] }
    {
        Docs {
            by_name: NameMap::new(alloc),
        }
    }

    /// Sets the root of the document with this name. An existing name keeps its index, and a new name goes last. Takes
    /// amortised O(log n) time for n documents.
    ///
    /// # Errors
    ///
    /// `NoMemory` if allocation fails; the documents are then unchanged.
    pub fn set(&mut self, alloc: Global, name: Name, root: Option<NodeId>) -> Result<(), NoMemory>
        ensures ok { OnOk result (self.new ≡ put self.old name root) }
        ensures err { OnErr result (self.new ≡ self.old) }
    {
        self.by_name.set(alloc, name, root)?;
        Ok(())
    }

    /// The root of the document with this name. Takes time logarithmic in the number of documents.
    ///
    /// # Errors
    ///
    /// `NoSuchDocument` exactly if no document has the name.
    pub fn get(&self, name: &[u8]) -> Result<Option<NodeId>, Missing>
        ensures { result ≡ ok_or (root_of self.now name.now) Missing.NoSuchDocument }
    {
        match self.by_name.get(name) {
            Some(root) => Ok(*root),
            None => Err(Missing::NoSuchDocument),
        }
    }

    /// Removes the document with this name. Each later document moves down by one index. Takes amortised
    /// O(log n) time for n documents.
    ///
    /// # Errors
    ///
    /// `NoSuchDocument` exactly if no document has the name; the documents are then unchanged.
    pub fn take_out(&mut self, name: &[u8]) -> Result<(), Missing>
        ensures ok { OnOk result (IsSome (root_of self.old name.now)) }
        ensures rest { self.new ≡ taken_out self.old name.now }
        ensures err { OnErr result (root_of self.old name.now ≡ None) }
        ensures same { OnErr result (self.new ≡ self.old) }
    {
        match self.by_name.take_out(name) {
            Some(_) => Ok(()),
            None => Err(Missing::NoSuchDocument),
        }
    }

    /// Makes `at` and `set_root` take constant time until the next `take_out`. The documents and their indices are
    /// unchanged. Allocates nothing. Takes constant time if nothing was taken out since the last call, and otherwise
    /// O(n log n) time for n documents.
    pub fn settle(&mut self)
        ensures { self.new ≡ self.old }
    {
        self.by_name.settle();
    }

    /// The number of documents.
    pub fn count(&self) -> usize
        ensures count { result ≡ length self.now }
        ensures distinct { AreDistinctNames self.now }
    {
        self.by_name.count()
    }

    /// The name and the root of the document at index `index`, counted from 0. Takes constant time after `settle`, and
    /// otherwise up to linear time.
    pub fn at(&self, index: usize) -> (&Name, Option<NodeId>)
        requires { index < length self.now }
        ensures { slice_get self.now index ≡ Some (record { name = result.0.now; root = result.1 }) }
    {
        let (name, root) = self.by_name.at(index);
        (name, *root)
    }

    /// Sets the root of the document at index `index`. Allocates nothing. Takes constant time after `settle`, and
    /// otherwise up to linear time.
    pub fn set_root(&mut self, index: usize, root: Option<NodeId>)
        requires { index < length self.old }
        ensures { self.new ≡ with_root self.old index root }
    {
        *self.by_name.value_mut(index) = root;
    }

    /// A copy with the same names and roots in the same order. Takes O(n log n) time and linear memory for n documents.
    ///
    /// # Errors
    ///
    /// `NoMemory` if allocation fails.
    pub fn copy(&self, alloc: Global) -> Result<Docs, NoMemory>
        ensures { IfOk result (λ copy. copy ≡ self.now) }
    {
        Ok(Docs {
            by_name: self.by_name.copy(alloc)?,
        })
    }
}
