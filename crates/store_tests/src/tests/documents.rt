//! Tests of documents and versions by name.
use crate::tests::tried::says;
use doc_book::{Docs, Missing};
use doc_versions::{VersionRefusal, Versions};
use slp_model::NodeId;
use span_types::{Name, NoMemory};
use std::alloc::Global;
use std::test::Fail;

fn named(alloc: Global, name: &[u8]) -> Result<Name, NoMemory> {
    Name::new(alloc, name).map_err(|_| NoMemory)
}

/// Sets documents with these names and the roots with these numbers, in this order.
fn set_all(alloc: Global, docs: &mut Docs, rows: &[(&[u8], usize)]) -> Result<(), NoMemory> {
    for (name, index) in rows {
        docs.set(alloc, named(alloc, name)?, Some(NodeId { index: *index }))?;
    }
    Ok(())
}

fn docs_of(alloc: Global, rows: &[(&[u8], usize)]) -> Result<Docs, NoMemory> {
    let mut docs = Docs::new(alloc);
    set_all(alloc, &mut docs, rows)?;
    Ok(docs)
}

/// The number of a document's root, or `None` if there is no such document.
fn root_of(docs: &Docs, name: &[u8]) -> Option<Option<usize>> {
    match docs.get(name) {
        Ok(Some(id)) => Some(Some(id.index)),
        Ok(None) => Some(None),
        Err(_) => None,
    }
}

fn is_at(docs: &Docs, index: usize, name: &[u8]) -> bool {
    index < docs.count() && docs.at(index).0.bytes() == name
}

fn empty_first(docs: &mut Docs) {
    if docs.count() > 0 {
        docs.set_root(0, None);
    }
}

fn has_two(docs: &Docs) -> bool {
    docs.count() == 2
        && is_at(docs, 0, b"a")
        && is_at(docs, 1, b"b")
        && root_of(docs, b"a") == Some(Some(2))
}

/// Whether `a` can be taken out once, and `b` stays.
fn loses_a(docs: &mut Docs) -> bool {
    let first = docs.take_out(b"a");
    let second = docs.take_out(b"a");
    first == Ok(())
        && second == Err(Missing::NoSuchDocument)
        && root_of(docs, b"a") == None
        && root_of(docs, b"b") == Some(Some(1))
}

/// The results for documents, for a copy that loses one, and for the copy without a text.
fn documents(alloc: Global) -> Result<[bool; 3], NoMemory> {
    let docs = docs_of(alloc, &[(b"a", 0), (b"b", 1), (b"a", 2)])?;
    let mut rest = docs.copy(alloc)?;
    let lost = loses_a(&mut rest);
    empty_first(&mut rest);
    let is_empty = root_of(&rest, b"b") == Some(None);
    Ok([has_two(&docs), lost, is_empty])
}

#[test]
fn documents_by_name(rt: HostRuntime) {
    assert!(rt; documents(rt.alloc()) == Ok([true; 3]));
}

/// Marks a version with this name and a document `d` whose root has this number.
fn mark(alloc: Global, versions: &mut Versions, name: &[u8], index: usize) -> Result<(), NoMemory> {
    let docs = docs_of(alloc, &[(b"d", index)])?;
    versions.mark(alloc, named(alloc, name)?, &docs)
}

/// Versions with these names, marked in this order.
fn versions_of(alloc: Global, rows: &[(&[u8], usize)]) -> Result<Versions, NoMemory> {
    let mut versions = Versions::new(alloc);
    for (name, index) in rows {
        mark(alloc, &mut versions, name, *index)?;
    }
    Ok(versions)
}

/// The number of the root of the document `d` in a version, or `None` if one of them doesn't exist.
fn root_in(alloc: Global, versions: &Versions, version: &[u8]) -> Option<Option<usize>> {
    match versions.back(alloc, version) {
        Ok(docs) => root_of(&docs, b"d"),
        Err(_) => None,
    }
}

fn empty_first_of_first(versions: &mut Versions) {
    if versions.count() > 0 && versions.at(0).1.count() > 0 {
        versions.set_root(0, 0, None);
    }
}

/// Whether `v` can be unmarked once.
fn loses_v(versions: &mut Versions) -> bool {
    let first = versions.unmark(b"v");
    let second = versions.unmark(b"v");
    first == Ok(()) && second == Err(VersionRefusal::NoSuchVersion) && versions.count() == 1
}

/// The results for versions, for the same without a text, and for the same without `v`.
fn marked(alloc: Global) -> Result<[bool; 3], NoMemory> {
    let mut versions = versions_of(alloc, &[(b"v", 0), (b"w", 1), (b"v", 2)])?;
    let has_two = versions.count() == 2 && root_in(alloc, &versions, b"v") == Some(Some(2));
    empty_first_of_first(&mut versions);
    let is_empty = root_in(alloc, &versions, b"v") == Some(None);
    Ok([has_two, is_empty, loses_v(&mut versions)])
}

#[test]
fn versions_by_name(rt: HostRuntime) {
    assert!(rt; marked(rt.alloc()) == Ok([true; 3]));
}

#[test]
fn texts_of_refusals(rt: HostRuntime) -> Result<(), Fail> {
    let alloc = rt.alloc();
    assert!(rt; says(alloc, Missing::NoSuchDocument, "no document has this name")?);
    assert!(rt;
        says(
            alloc,
            VersionRefusal::NoSuchVersion,
            "no version has this name"
        )?
    );
    Ok(())
}
