//! Tests of concatenation and splitting.
ghost use Rattle.std.specs.Prelude.{◌≡◌, ◌<◌};

use crate::tests::tried::{Scratch, joined, len, part, parts};
use node_store::{Node, NodeId, Store};
use slp_concat::concat;
use span_types::NoMemory;
use std::alloc::Global;
use std::marker::Brand;
use std::sync::ledger::{Blank, Ledger};

/// The results for the text `aa`: lengths, its node, a second concatenation, and its parts.
fn twice<L: Ledger>(scratch: &mut Scratch<L>) -> Result<[bool; 5], NoMemory> {
    let a = scratch.store.byte(b'a')?;
    let len_before = len(&scratch.store, a);
    let twice = joined(scratch, a, a)?;
    let again = concatenated(scratch, a, a)?;
    let both = parts(scratch, twice, 2)?;
    let last = part(scratch, twice, 2, 3)?;
    let store = &scratch.store;
    Ok([
        len_before == 1 && len(store, a) == 1 && len(store, twice) == 2,
        is_pair(store, twice, a),
        again == Some(twice),
        both == (Some(a), Some(a)),
        last == Some(a),
    ])
}

fn is_pair(store: &Store, id: NodeId, child: NodeId) -> bool {
    id.index < store.count() && store.node(id) == Node::Pair(child, child)
}

/// The concatenation of two short roots.
fn concatenated<L: Ledger>(
    scratch: &mut Scratch<L>,
    left: NodeId,
    right: NodeId,
) -> Result<Option<NodeId>, NoMemory> {
    let store = &mut scratch.store;
    if left.index >= store.count() || right.index >= store.count() {
        return Err(NoMemory);
    }
    if store.len(left) > 100 || store.len(right) > 100 {
        return Err(NoMemory);
    }
    concat(store, Some(left), Some(right), &mut scratch.pairs)
}

fn tried<L: Ledger>(alloc: Global, blank: Blank) -> Result<[bool; 5], NoMemory>
    requires { (blank.name ≡ L.name) × (blank.parts ≡ L.parts) × (0 < L.parts) }
{
    let mut scratch = Scratch::<L>::new(alloc, blank);
    twice(&mut scratch)
}

#[test]
fn two_bytes(rt: HostRuntime) {
    assert!(rt; tried::<Brand>(rt.alloc(), Blank::new(1)) == Ok([true; 5]));
}
