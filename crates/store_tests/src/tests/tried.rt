//! Calls whose preconditions are checked at run time, so that tests need no contracts. A violated precondition is
//! reported as an allocation failure.
ghost use Rattle.std.specs.Prelude.{◌≡◌, ◌<◌, [], IfOk, length};

use node_store::{NodeId, Store};
use slp_concat::join;
use slp_split::{extract, split};
use span_types::{NoMemory, Steps};
use std::alloc::{AllocError, Global};
use std::fmt::Display;
use std::sync::ledger::{Blank, Ledger};

/// A store, without nodes at first, and the number of its calls to `pair`.
#[derive(Drop)]
pub struct Scratch<L: Ledger> {
    pub alloc: Global,
    pub store: Store,
    pub pairs: Steps<L>,
}

impl<L: Ledger> Scratch<L> {
    pub fn new(alloc: Global, blank: Blank) -> Scratch<L>
        requires { (blank.name ≡ L.name) × (blank.parts ≡ L.parts) × (0 < L.parts) }
        ensures { result.store ≡ [] }
    {
        Scratch {
            alloc,
            store: Store::new(alloc),
            pairs: Steps::new(blank),
        }
    }
}

/// The length of a node's text, or 0 if there is no such node.
pub fn len(store: &Store, id: NodeId) -> u64 {
    if id.index < store.count() {
        store.len(id)
    } else {
        0
    }
}

/// The concatenation of two short texts.
pub fn joined<L: Ledger>(
    scratch: &mut Scratch<L>,
    left: NodeId,
    right: NodeId,
) -> Result<NodeId, NoMemory>
    ensures { IfOk result (λ id. id.index < length scratch.new.store) }
{
    let store = &mut scratch.store;
    if left.index >= store.count() || right.index >= store.count() {
        return Err(NoMemory);
    }
    if store.len(left) > 100 || store.len(right) > 100 {
        return Err(NoMemory);
    }
    join(store, left, right, &mut scratch.pairs)
}

/// The two parts of a text that is split.
pub fn parts<L: Ledger>(
    scratch: &mut Scratch<L>,
    id: NodeId,
    at: u64,
) -> Result<(Option<NodeId>, Option<NodeId>), NoMemory> {
    let store = &mut scratch.store;
    if id.index >= store.count() || at < 1 || at > store.len(id) {
        return Err(NoMemory);
    }
    split(store, Some(id), at, &mut scratch.pairs)
}

/// A range of a text.
pub fn part<L: Ledger>(
    scratch: &mut Scratch<L>,
    id: NodeId,
    from: u64,
    to: u64,
) -> Result<Option<NodeId>, NoMemory> {
    let store = &mut scratch.store;
    if id.index >= store.count() || from < 1 || from > to || to > store.len(id) + 1 {
        return Err(NoMemory);
    }
    extract(store, Some(id), from, to, &mut scratch.pairs)
}

/// Whether an error is printed as this text.
pub fn says<D: Display + Drop>(alloc: Global, why: D, text: &str) -> Result<bool, AllocError> {
    Ok(why.to_string(alloc)?.as_str() == text)
}
