//! Tests of reading ranges of a text.
ghost use Rattle.slp_model.specs.Nodes.{IsLive};
ghost use Rattle.std.specs.Prelude.{◌≡◌, ◌<◌};

use crate::tests::tried::Scratch;
use node_store::{NodeId, Store};
use pair_loader::load;
use range_read::RangeBytes;
use span_types::NoMemory;
use std::alloc::Global;
use std::marker::Brand;
use std::sync::ledger::{Blank, Ledger};

/// The start and the end of a range of `abcde`, and its bytes.
const RANGES: &[(u64, u64, &[u8])] = &[
    (1, 6, b"abcde"),
    (1, 5, b"abcd"),
    (2, 5, b"bcd"),
    (3, 4, b"c"),
    (5, 6, b"e"),
    (6, 6, b""),
];

/// The bytes of a range, which must be in the text.
fn range_in(
    alloc: Global,
    store: &Store,
    root: Option<NodeId>,
    from: u64,
    to: u64,
) -> Result<Vec<u8>, NoMemory>
    requires { IsLive store.now root }
{
    let len = match root {
        Some(id) => store.len(id),
        None => 0,
    };
    if from < 1 || from > to || to > len + 1 {
        return Err(NoMemory);
    }
    let bytes = RangeBytes::new(alloc, store, root, from, to)?;
    Ok(bytes.collect(alloc)?)
}

fn range_of<L: Ledger>(alloc: Global, from: u64, to: u64, blank: Blank) -> Result<Vec<u8>, NoMemory>
    requires { (blank.name ≡ L.name) × (blank.parts ≡ L.parts) × (0 < L.parts) }
{
    let mut scratch = Scratch::<L>::new(alloc, blank);
    range_of_loaded(&mut scratch, from, to)
}

fn range_of_loaded<L: Ledger>(
    scratch: &mut Scratch<L>,
    from: u64,
    to: u64,
) -> Result<Vec<u8>, NoMemory> {
    let (alloc, store) = (scratch.alloc, &mut scratch.store);
    let root = load(alloc, store, b"abcde", &mut scratch.pairs)?;
    range_in(alloc, store, root, from, to)
}

fn is_range(alloc: Global, from: u64, to: u64, want: &[u8]) -> Result<bool, NoMemory> {
    let bytes = range_of::<Brand>(alloc, from, to, Blank::new(1))?;
    Ok(bytes.as_slice() == want)
}

#[test]
fn ranges(rt: HostRuntime) {
    for (from, to, want) in RANGES {
        assert!(rt;
            is_range(rt.alloc(), *from, *to, want) == Ok(true),
            "from {from} to {to}"
        );
    }
}

fn is_empty(alloc: Global, store: &Store) -> Result<bool, NoMemory> {
    Ok(range_in(alloc, store, None, 1, 1)?.is_empty())
}

/// The range of the empty text.
#[test]
fn no_bytes(rt: HostRuntime) {
    let store = Store::new(rt.alloc());
    assert!(rt; is_empty(rt.alloc(), &store) == Ok(true));
}
