//! Named versions of the documents: a version keeps the documents as they were when it was marked.
//!
//! ```text
//! let mut versions = Versions::new(alloc);
//! versions.mark(alloc, name, &docs)?;         // `name` is called "v"
//! docs.set(alloc, other, root)?;
//! docs = versions.back(alloc, b"v")?;         // the documents as they were
//! versions.unmark(b"v")?;
//! ```
//!
//! A version is a list of names and roots. It uses memory linear in the number of documents, and none for their texts:
//! nodes never change, and a version shares them with the documents. Costs:
//!
//! - `mark` and `back` copy the list, in O(n log n) time for n documents.
//! - `unmark` and a lookup by name take time logarithmic in the number of versions, amortised for `unmark`.
//! - `at` and `set_root` take constant time after `settle`, until the next `unmark`, and otherwise up to linear time.
//!
//! Texts shared in this way are *persistent* data structures, kept by copying their roots (Driscoll, Sarnak, Sleator
//! and Tarjan, "Making data structures persistent", 1989).
//!
//! Proved: An ordered list of versions with distinct names. `back` returns the documents that were marked last, or a
//! rejection exactly if the version is missing (`Versions`).
//!
//! Tested: Error texts.
#![tactic(auto)]

ghost use Rattle.doc_versions.specs.Versions.{docs_at, with_version_root};
ghost use Rattle.name_map.specs.Named.{AreDistinctNames, is_same, put, taken_out, value_of};
ghost use Rattle.std.specs.Option.{option_map};
ghost use Rattle.std.specs.Prelude.{◌≡◌, ◌↔◌, ◌<◌, ℕ, List, [], false, length, slice_get, Some, None, IfOk, OnOk, OnErr, IsErrOf, ok_or};

use doc_book::Docs;
use name_map::NameMap;
use slp_model::NodeId;
use span_types::{Name, NoMemory};
use std::alloc::Global;
use std::marker::Model;
use thiserror::Error;

/// Why a call on versions failed.
#[derive(Clone, Copy, Debug, PartialEq, Eq, Drop, Error)]
pub enum VersionRefusal {
    /// No version has the name.
    #[error("no version has this name")]
    NoSuchVersion,

    /// Allocation failed.
    #[error("no memory")]
    NoMemory,
}

impl From<NoMemory> for VersionRefusal {
    ghost use Rattle.doc_versions.specs.declared.VersionRefusal.TheVariants.{NoMemory};

    ghost from_gives = { λ _ refusal. refusal ≡ NoMemory };

    fn from(_: NoMemory) -> VersionRefusal {
        VersionRefusal::NoMemory
    }
}

/// Versions with distinct names, in the order in which the names were added. Contracts see them as a list of pairs of a
/// name's bytes and the documents.
#[derive(Drop)]
pub struct Versions {
    by_name: NameMap<Docs>,
}

impl Model for Versions {
    ghost use Rattle.std.specs.Prelude.{List};
    ghost use Rattle.doc_book.specs.declared.Doc.{Doc};
    ghost use Rattle.name_map.specs.Named.{Named};

    ghost Value = { Named (List Doc) };

    ghost view = { λ v. v.by_name };
}

impl Versions {
    /// No versions.
    pub fn new(alloc: Global) -> Versions
        ensures { result ≡ [] }
    {
        Versions {
            by_name: NameMap::new(alloc),
        }
    }

    /// Keeps a copy of the documents under this name. An existing name keeps its index, and its old documents are
    /// dropped. A new name goes last. Takes O(n log n) time for n documents.
    ///
    /// # Errors
    ///
    /// `NoMemory` if allocation fails; the versions are then unchanged.
    pub fn mark(&mut self, alloc: Global, name: Name, docs: &Docs) -> Result<(), NoMemory>
        ensures ok { OnOk result (self.new ≡ put self.old name docs.now) }
        ensures kept { OnOk result (value_of self.new name ≡ Some docs.now) }
        ensures others { OnOk result ((other : List ℕ) → is_same other name ≡ false → value_of self.new other ≡ value_of self.old other) }
        ensures err { OnErr result (self.new ≡ self.old) }
    {
        let copy = docs.copy(alloc)?;
        self.by_name.set(alloc, name, copy)
    }

    /// A copy of the documents that the version with this name keeps. Takes O(n log n) time for n documents.
    ///
    /// # Errors
    ///
    /// `NoSuchVersion` exactly if no version has the name, or `NoMemory` if allocation fails.
    pub fn back(&self, alloc: Global, name: &[u8]) -> Result<Docs, VersionRefusal>
        ensures ok { IfOk result (λ docs. value_of self.now name.now ≡ Some docs) }
        ensures missing { IsErrOf result VersionRefusal.NoSuchVersion ↔ (value_of self.now name.now ≡ None) }
    {
        match self.by_name.get(name) {
            Some(docs) => Ok(docs.copy(alloc)?),
            None => Err(VersionRefusal::NoSuchVersion),
        }
    }

    /// Removes the version with this name. Each later version moves down by one index. Takes amortised
    /// O(log n) time for n versions.
    ///
    /// # Errors
    ///
    /// `NoSuchVersion` exactly if no version has the name; the versions are then unchanged.
    pub fn unmark(&mut self, name: &[u8]) -> Result<(), VersionRefusal>
        ensures result { result ≡ ok_or (option_map (λ _. tt) (value_of self.old name.now)) VersionRefusal.NoSuchVersion }
        ensures rest { self.new ≡ taken_out self.old name.now }
        ensures err { OnErr result (self.new ≡ self.old) }
    {
        match self.by_name.take_out(name) {
            Some(_) => Ok(()),
            None => Err(VersionRefusal::NoSuchVersion),
        }
    }

    /// Makes `at` and `set_root` take constant time until the next `unmark`. The versions and their indices are
    /// unchanged. Allocates nothing. Takes constant time if nothing was unmarked since the last call, and otherwise
    /// O(n log n) time for n versions.
    pub fn settle(&mut self)
        ensures { self.new ≡ self.old }
    {
        self.by_name.settle();
    }

    /// The number of versions.
    pub fn count(&self) -> usize
        ensures count { result ≡ length self.now }
        ensures distinct { AreDistinctNames self.now }
    {
        self.by_name.count()
    }

    /// The name and the documents of the version at index `index`, counted from 0. Takes constant time after `settle`,
    /// and otherwise up to linear time.
    pub fn at(&self, index: usize) -> (&Name, &Docs)
        requires { index < length self.now }
        ensures { slice_get self.now index ≡ Some (result.0.now, result.1.now) }
    {
        self.by_name.at(index)
    }

    /// Sets the root of the document at index `doc` in the version at index `index`. Allocates nothing. Takes constant
    /// time after `settle`, and otherwise up to linear time.
    pub fn set_root(&mut self, index: usize, doc: usize, root: Option<NodeId>)
        requires index { index < length self.old }
        requires doc { doc < length (docs_at self.old index) }
        ensures { self.new ≡ with_version_root self.old index doc root }
    {
        self.by_name.value_mut(index).set_root(doc, root);
    }
}
