//! Tests of compaction.
use doc_book::Docs;
use doc_compact::compact;
use doc_versions::Versions;
use node_store::Store;
use span_types::NoMemory;
use std::alloc::Global;
use store_compact::Plan;

/// The numbers of nodes before and after a compaction without documents.
fn counts(alloc: Global, store: &mut Store) -> Result<(usize, usize), NoMemory> {
    store.byte(b'a')?;
    store.byte(b'b')?;
    let before = store.count();
    compact(
        alloc,
        store,
        &mut Docs::new(alloc),
        &mut Versions::new(alloc),
    )?;
    Ok((before, store.count()))
}

#[test]
fn nodes_that_nothing_reaches_go(rt: HostRuntime) {
    let mut store = Store::new(rt.alloc());
    assert!(rt; counts(rt.alloc(), &mut store) == Ok((2, 0)));
}

/// The number of nodes left of two bytes when the second is kept, and whether the first and the second are left.
fn second_of_two(alloc: Global, store: &mut Store) -> Result<(usize, bool, bool), NoMemory> {
    let first = store.byte(b'a')?;
    let second = store.byte(b'b')?;
    let mut plan = Plan::new(alloc, store)?;
    plan.keep_root(store, None)?;
    plan.keep_root(store, Some(second))?;
    let (thin, moves) = plan.build(alloc, store)?;
    Ok((thin.count(), moves.kept(first), moves.kept(second)))
}

#[test]
fn second_byte_is_kept(rt: HostRuntime) {
    let mut store = Store::new(rt.alloc());
    assert!(rt; second_of_two(rt.alloc(), &mut store) == Ok((1, false, true)));
}
