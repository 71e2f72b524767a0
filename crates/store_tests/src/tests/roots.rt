//! Tests of the trees of records, as they are read.
ghost use Rattle.std.specs.Prelude.{◌≡◌, ◌<◌, []};

use crate::tests::tried::Scratch;
use slp_rebalance::Roots;
use span_types::NoMemory;
use std::alloc::Global;
use std::marker::Brand;
use std::sync::ledger::{Blank, Ledger};

/// The numbers of records and of nodes, for two bytes, their pair, and the second byte three times.
fn two_bytes<L: Ledger>(alloc: Global, blank: Blank) -> Result<(usize, usize), NoMemory>
    requires { (blank.name ≡ L.name) × (blank.parts ≡ L.parts) × (0 < L.parts) }
{
    let mut scratch = Scratch::<L>::new(alloc, blank);
    counts(&mut scratch, &mut Roots::new(alloc))
}

fn counts<L: Ledger>(
    scratch: &mut Scratch<L>,
    roots: &mut Roots,
) -> Result<(usize, usize), NoMemory>
    requires { roots.old ≡ [] }
{
    let (store, pairs) = (&mut scratch.store, &mut scratch.pairs);
    roots.byte(store, b'a')?;
    roots.byte(store, b'b')?;
    roots.pair(store, 0, 1, pairs)?;
    roots.repeat(store, 1, 3, pairs)?;
    Ok((roots.count(), store.count()))
}

#[test]
fn a_byte_three_times(rt: HostRuntime) {
    assert!(rt; two_bytes::<Brand>(rt.alloc(), Blank::new(1)) == Ok((4, 5)));
}
