//! Compacts the node store of documents and their versions: drops the nodes that no document or version reaches. Every
//! text is unchanged.
//!
//! ```text
//! let moves = compact(alloc, &mut store, &mut docs, &mut versions)?;
//! ```
//!
//! It is mark and sweep (McCarthy, "Recursive functions of symbolic expressions and their computation by machine, part
//! I", 1960). A plan marks the nodes that the roots reach, the compacted store is built from the marked nodes, and each
//! root gets its node's new number. All memory is allocated before anything changes, so an error changes nothing. The
//! time is linear in the number of nodes and in the number of documents of all versions. The memory is that of the
//! compacted store, and a few bytes for each node of the old store.
//!
//! Proved: After `compact` a store has exactly what its documents and versions reach, and each text is unchanged. After
//! a failed allocation everything is unchanged.
//!
//! Neither: Time.
#![tactic(auto)]

ghost use Rattle.doc_book.specs.Docs.{roots_of};
ghost use Rattle.doc_book.specs.Texts.{AreLive};
ghost use Rattle.doc_compact.specs.Compacted.{AreKeptRoots, AreKeptVersions, IsCompacted, moved_docs, moved_versions};
ghost use Rattle.doc_versions.specs.Texts.{AreKept, version_roots};
ghost use Rattle.doc_versions.specs.Versions.{docs_at};
ghost use Rattle.name_map.specs.Named.{with_value};
ghost use Rattle.slp_model.specs.Kept.{AddsExactly, IsPlanOf, Keeps, IsKeptRoot};
ghost use Rattle.slp_model.specs.Thin.{AnyReaches, moved};
ghost use Rattle.std.specs.Prelude.{◌≡◌, ◌↔◌, ◌++◌, ◌<◌, ℕ, length, OnErr, OnOk, IfOk};

use doc_book::Docs;
use doc_versions::Versions;
use node_store::{Moves, NodeId, Store};
use span_types::NoMemory;
use std::alloc::Global;
use store_compact::Plan;

/// Marks the nodes that the documents reach.
fn keep_docs(plan: &mut Plan, store: &Store, docs: &Docs) -> Result<(), NoMemory>
    requires plan { IsPlanOf store.now plan.old }
    requires live { AreLive store.now docs.now }
    ensures kept { OnOk result (AddsExactly plan.old plan.new (AnyReaches store.now (roots_of docs.now))) }
    ensures plan { OnOk result (IsPlanOf store.now plan.new) }
{
    for index in 0..docs.count() {
        let (_, root) = docs.at(index);
        plan.keep_root(store, root)?;
    }
    Ok(())
}

/// Marks the nodes that the documents of the versions reach.
fn keep_versions(plan: &mut Plan, store: &Store, versions: &Versions) -> Result<(), NoMemory>
    requires plan { IsPlanOf store.now plan.old }
    requires kept { AreKept store.now versions.now }
    ensures kept { OnOk result (AddsExactly plan.old plan.new (AnyReaches store.now (version_roots versions.now))) }
    ensures plan { OnOk result (IsPlanOf store.now plan.new) }
{
    for index in 0..versions.count() {
        let (_, docs) = versions.at(index);
        keep_docs(plan, store, docs)?;
    }
    Ok(())
}

/// The plan that keeps exactly the nodes that documents and versions reach.
fn plan_of(alloc: Global, store: &Store, docs: &Docs, versions: &Versions) -> Result<Plan, NoMemory>
    requires live { AreLive store.now docs.now }
    requires kept { AreKept store.now versions.now }
    ensures kept { IfOk result (λ plan. (i : ℕ) → Keeps plan i ↔ AnyReaches store.now (roots_of docs.now ++ version_roots versions.now) i) }
    ensures plan { IfOk result (IsPlanOf store.now) }
{
    let mut plan = Plan::new(alloc, store)?;
    keep_docs(&mut plan, store, docs)?;
    keep_versions(&mut plan, store, versions)?;
    Ok(plan)
}

/// The root with its node's new number.
fn moved_root(moves: &Moves, root: Option<NodeId>) -> Option<NodeId>
    requires { IsKeptRoot moves.now root }
    ensures { result ≡ moved moves.now root }
{
    match root {
        Some(id) => Some(moves.moved(id)),
        None => None,
    }
}

/// Moves the documents' roots to the new node numbers.
fn move_docs(docs: &mut Docs, moves: &Moves)
    requires { AreKeptRoots moves.now docs.old }
    ensures { docs.new ≡ moved_docs moves.now docs.old }
{
    for index in 0..docs.count() {
        let (_, root) = docs.at(index);
        docs.set_root(index, moved_root(moves, root));
    }
}

/// Moves the roots of the version at this index to the new node numbers.
fn move_version(versions: &mut Versions, index: usize, moves: &Moves)
    requires index { index < length versions.old }
    requires kept { AreKeptRoots moves.now (docs_at versions.old index) }
    ensures { versions.new ≡ with_value versions.old index (moved_docs moves.now (docs_at versions.old index)) }
{
    for doc in 0..versions.at(index).1.count() {
        let (_, root) = versions.at(index).1.at(doc);
        versions.set_root(index, doc, moved_root(moves, root));
    }
}

/// Moves the roots of all versions to the new node numbers.
fn move_versions(versions: &mut Versions, moves: &Moves)
    requires { AreKeptVersions moves.now versions.old }
    ensures { versions.new ≡ moved_versions moves.now versions.old }
{
    for index in 0..versions.count() {
        move_version(versions, index, moves);
    }
}

/// Compacts the store: drops the nodes that neither a document nor a document of a version reaches, and renumbers the
/// rest. Returns the new numbers. The text of each document is unchanged, also in each version. Takes time linear in
/// the number of nodes and in the number of documents of all versions.
///
/// # Errors
///
/// `NoMemory` if allocation fails. The store, the documents and the versions are then unchanged.
pub fn compact(
    alloc: Global,
    store: &mut Store,
    docs: &mut Docs,
    versions: &mut Versions,
) -> Result<Moves, NoMemory>
    requires live { AreLive store.old docs.old }
    requires kept { AreKept store.old versions.old }
    ensures compacted { IfOk result (λ moves. IsCompacted store.old docs.old versions.old moves store.new docs.new versions.new) }
    ensures store { OnErr result (store.new ≡ store.old) }
    ensures docs { OnErr result (docs.new ≡ docs.old) }
    ensures versions { OnErr result (versions.new ≡ versions.old) }
{
    let plan = plan_of(alloc, store, docs, versions)?;
    let (thin, moves) = plan.build(alloc, store)?;
    move_docs(docs, &moves);
    move_versions(versions, &moves);
    *store = thin;
    Ok(moves)
}
