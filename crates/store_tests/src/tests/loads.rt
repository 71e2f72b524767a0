//! Tests of the loader's trees of short texts.
ghost use Rattle.pair_loader.specs.Pending.{IsLoader};
ghost use Rattle.std.specs.Prelude.{◌≡◌, ◌<◌, [], Some};

use crate::tests::tried::Scratch;
use node_store::{Node, NodeId, Store};
use pair_loader::{Loader, load};
use span_types::NoMemory;
use std::alloc::Global;
use std::marker::Brand;
use std::sync::ledger::{Blank, Ledger};

/// A text's length and its root's height, both 0 without a root, and the number of nodes.
type Shape = (u64, u8, usize);

/// The shape of a loaded text of at most 2^20 bytes.
fn loaded<L: Ledger>(alloc: Global, text: &[u8], blank: Blank) -> Result<Shape, NoMemory>
    requires { (blank.name ≡ L.name) × (blank.parts ≡ L.parts) × (0 < L.parts) }
{
    let mut scratch = Scratch::<L>::new(alloc, blank);
    shape_in(&mut scratch, text)
}

fn shape_in<L: Ledger>(scratch: &mut Scratch<L>, text: &[u8]) -> Result<Shape, NoMemory> {
    if text.len() > 1 << 20 {
        return Err(NoMemory);
    }
    let store = &mut scratch.store;
    match load(scratch.alloc, store, text, &mut scratch.pairs)? {
        Some(id) => Ok((store.len(id), store.height(id), store.count())),
        None => Ok((0, 0, store.count())),
    }
}

fn shape(alloc: Global, text: &[u8]) -> Result<Shape, NoMemory> {
    loaded::<Brand>(alloc, text, Blank::new(1))
}

/// The length and the height of 20,000 bytes. All their words except the first are found in the store's table.
fn long(alloc: Global) -> Result<(u64, u8), NoMemory> {
    let text = vec![in alloc; b'a'; 20_000]?;
    let (len, height, _) = shape(alloc, &text)?;
    Ok((len, height))
}

#[test]
fn trees_of_texts(rt: HostRuntime) {
    assert!(rt; shape(rt.alloc(), b"") == Ok((0, 0, 0)));
    assert!(rt; shape(rt.alloc(), b"abracadabra") == Ok((11, 4, 15)));
    assert!(rt; long(rt.alloc()) == Ok((20_000, 15)));
}

/// The ends of the pieces of `abcde`, and the number of nodes after each piece.
type Pieces = (&'static [usize], &'static [usize]);

const PIECES: &[Pieces] = &[
    (&[1, 2, 3, 4, 5], &[1, 3, 4, 7, 8]),
    (&[5], &[8]),
    (&[2, 2, 5], &[3, 3, 8]),
];

/// Whether loading `abcde` in these pieces makes these numbers of nodes, and its tree at the end.
fn loads<L: Ledger>(alloc: Global, pieces: Pieces, blank: Blank) -> Result<bool, NoMemory>
    requires { (blank.name ≡ L.name) × (blank.parts ≡ L.parts) × (0 < L.parts) }
{
    let mut scratch = Scratch::<L>::new(alloc, blank);
    makes_abcde(&mut scratch, pieces)
}

fn makes_abcde<L: Ledger>(scratch: &mut Scratch<L>, pieces: Pieces) -> Result<bool, NoMemory> {
    let mut loader = Loader::new(scratch.alloc)?;
    if !feeds(scratch, &mut loader, pieces)? {
        return Ok(false);
    }
    let root = loader.finish(&mut scratch.store, &mut scratch.pairs)?;
    Ok(root == Some(NodeId { index: 9 }) && has_abcde(&scratch.store))
}

/// Whether the loader makes these numbers of nodes.
fn feeds<L: Ledger>(
    scratch: &mut Scratch<L>,
    loader: &mut Loader,
    pieces: Pieces,
) -> Result<bool, NoMemory>
    requires { loader.old ≡ Some [] }
    ensures { IsLoader scratch.new.store loader.new }
{
    let text: &[u8] = b"abcde";
    let mut start = 0;
    for (&end, &count) in pieces.0.iter().zip(pieces.1) {
        if start > end || end > text.len() {
            return Ok(false);
        }
        loader.feed(&mut scratch.store, &text[start..end], &mut scratch.pairs)?;
        if scratch.store.count() != count {
            return Ok(false);
        }
        start = end;
    }
    Ok(true)
}

/// Five pieces, one, and two with an empty one between.
#[test]
fn trees_of_pieces(rt: HostRuntime) {
    for pieces in PIECES {
        assert!(rt;
            loads::<Brand>(rt.alloc(), *pieces, Blank::new(1)) == Ok(true),
            "{pieces:?}"
        );
    }
}

/// The nodes of `abcde`: `Pair(Pair(a, b), Pair(Pair(c, d), e))`, and the block of `abcd`.
const ABCDE: [Node; 10] = [
    Node::Byte(b'a'),
    Node::Byte(b'b'),
    Node::Pair(NodeId { index: 0 }, NodeId { index: 1 }),
    Node::Byte(b'c'),
    Node::Byte(b'd'),
    Node::Pair(NodeId { index: 3 }, NodeId { index: 4 }),
    Node::Pair(NodeId { index: 2 }, NodeId { index: 5 }),
    Node::Byte(b'e'),
    Node::Pair(NodeId { index: 5 }, NodeId { index: 7 }),
    Node::Pair(NodeId { index: 2 }, NodeId { index: 8 }),
];

fn has_abcde(store: &Store) -> bool {
    let mut all = store.count() == 10;
    for index in 0..10 {
        let id = NodeId { index };
        all = all && index < store.count() && store.node(id) == ABCDE[index];
    }
    all
}
