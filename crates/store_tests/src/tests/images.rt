//! Tests of images.
ghost use Rattle.doc_book.specs.Texts.{AreLive};
ghost use Rattle.std.specs.Prelude.{◌≡◌, ◌<◌, IfOk};

use crate::tests::tried::{Scratch, says};
use doc_book::Docs;
use node_store::{Node, NodeId, Store};
use slp_image::{Image, ImageRefusal, read, write};
use std::alloc::{AllocError, Global};
use std::marker::Brand;
use std::sync::ledger::{Blank, Ledger};
use std::test::Fail;

/// The image of one document `d` with the text `ab`.
const SMALL: [u8; 52] =
    *b"SLPI\x01\0\0\0\0\0\0\0\x03\0a\0b\x01\0\0\0\0\0\0\0\0\0\0\0\0\0\0\0\x01\0\0\0\0\0\0\0\x01\x01d\0\0\0\0\0\0\0\x02";

/// The image of one document `d` with 2^47 copies of the text `ab`.
const RUN: [u8; 69] =
    *b"SLPI\x02\0\0\0\0\0\0\0\x04\0a\0b\x01\0\0\0\0\0\0\0\0\0\0\0\0\0\0\0\x01\x02\0\0\0\0\0\0\0\x02\0\0\x80\0\0\0\0\0\0\0\0\0\0\0\0\x01\x01d\0\0\0\0\0\0\0\x03";

/// The length of the document `d`, or the number of the error's kind, or 0 without either.
fn outcome(alloc: Global, bytes: &[u8]) -> Result<u64, u8> {
    measured::<Brand>(alloc, bytes, Blank::new(1))
}

fn measured<L: Ledger>(alloc: Global, bytes: &[u8], blank: Blank) -> Result<u64, u8>
    requires { (blank.name ≡ L.name) × (blank.parts ≡ L.parts) × (0 < L.parts) }
{
    let mut scratch = Scratch::<L>::new(alloc, blank);
    match read_into(&mut scratch, bytes) {
        Ok(docs) => len_of(&docs, &scratch.store),
        Err(why) => Err(why.kind().unwrap_or(0)),
    }
}

/// The documents of an image.
fn read_into<L: Ledger>(scratch: &mut Scratch<L>, bytes: &[u8]) -> Result<Docs, ImageRefusal>
    ensures { IfOk result (AreLive scratch.new.store) }
{
    let docs = read(scratch.alloc, bytes, &mut scratch.store, &mut scratch.pairs)?;
    Ok(docs)
}

fn len_of(docs: &Docs, store: &Store) -> Result<u64, u8> {
    match docs.get(b"d") {
        Ok(None) => Ok(0),
        Ok(Some(id)) if id.index < store.count() => Ok(store.len(id)),
        _ => Err(0),
    }
}

/// The outcome with another byte at index `index`, and more bytes at the end.
fn changed(alloc: Global, bytes: &[u8], index: usize, byte: u8, more: &[u8]) -> Result<u64, u8> {
    let Ok(mut copy) = bytes.to_vec(alloc) else {
        return Err(0);
    };
    if let Some(cell) = copy.get_mut(index) {
        *cell = byte;
    }
    if copy.extend_from_slice(more).is_err() {
        return Err(0);
    }
    outcome(alloc, &copy)
}

/// Appends a number as eight bytes, big-endian.
fn push_number(out: &mut Vec<u8>, number: u64) -> Result<(), AllocError> {
    out.extend_from_slice(&number.to_be_bytes())
}

/// Appends a record.
fn push_record(out: &mut Vec<u8>, node: Node) -> Result<(), AllocError> {
    match node {
        Node::Byte(byte) => out.extend_from_slice(&[0, byte]),
        Node::Pair(left, right) => {
            out.push(1)?;
            push_number(out, left.index as u64)?;
            push_number(out, right.index as u64)
        }
    }
}

/// An image of these records, whose document `d` is the last record.
fn image_of(alloc: Global, version: u8, nodes: &[Node]) -> Result<Vec<u8>, AllocError> {
    let count = nodes.len() as u64;
    let mut out = b"SLPI".to_vec(alloc)?;
    out.push(version)?;
    push_number(&mut out, count)?;
    for node in nodes {
        push_record(&mut out, *node)?;
    }
    push_number(&mut out, 1)?;
    out.extend_from_slice(b"\x01d")?;
    push_number(&mut out, count.saturating_sub(1))?;
    Ok(out)
}

/// A byte, and `times` pairs, each of the record before it with itself.
fn doublings(alloc: Global, times: usize) -> Result<Vec<Node>, AllocError> {
    let mut nodes = vec![in alloc; Node::Byte(b'a')]?;
    for index in 0..times {
        let half = NodeId { index };
        nodes.push(Node::Pair(half, half))?;
    }
    Ok(nodes)
}

/// 1,024 copies of `ab`, with one record for each height.
fn copies_of_ab(alloc: Global) -> Result<Vec<Node>, AllocError> {
    let pair = Node::Pair(NodeId { index: 0 }, NodeId { index: 1 });
    let mut nodes = vec![in alloc; Node::Byte(b'a'), Node::Byte(b'b'), pair]?;
    for index in 2..12 {
        let half = NodeId { index };
        nodes.push(Node::Pair(half, half))?;
    }
    Ok(nodes)
}

/// A byte, and pairs, each of the record before it with the byte.
fn stair(alloc: Global) -> Result<Vec<Node>, AllocError> {
    let first = NodeId { index: 0 };
    let mut nodes = vec![in alloc; Node::Byte(b'a')]?;
    for index in 0..5 {
        nodes.push(Node::Pair(NodeId { index }, first))?;
    }
    Ok(nodes)
}

#[test]
fn changed_images(rt: HostRuntime) {
    for (index, byte, answer) in [
        (4, 1, Ok(2)),
        (0, 0x54, Err(1)),
        (4, 2, Ok(2)),
        (4, 3, Err(2)),
        (13, 7, Err(4)),
        (33, 2, Err(5)),
        (51, 3, Err(8)),
        (43, 0x39, Err(9)),
    ] {
        assert!(rt; changed(rt.alloc(), &SMALL, index, byte, b"") == answer);
    }
    let again = SMALL.split_at(42).1;
    assert!(rt; changed(rt.alloc(), &SMALL, 41, 2, again) == Err(10));
    assert!(rt; changed(rt.alloc(), &SMALL, 4, 1, b"\0") == Err(11));
}

#[test]
fn changed_runs(rt: HostRuntime) {
    for (index, byte, answer) in [
        (4, 2, Ok(1 << 48)),
        (4, 1, Err(4)),
        (42, 3, Err(5)),
        (45, 0, Err(12)),
        (50, 1, Err(7)),
    ] {
        assert!(rt; changed(rt.alloc(), &RUN, index, byte, b"") == answer);
    }
}

#[test]
fn cut_images(rt: HostRuntime) {
    for len in 0..52 {
        assert!(rt; outcome(rt.alloc(), SMALL.split_at(len).0) == Err(3));
    }
}

/// The outcome of an image of these records.
fn outcome_of(alloc: Global, version: u8, nodes: Result<Vec<Node>, AllocError>) -> Result<u64, u8> {
    let Ok(nodes) = nodes else {
        return Err(0);
    };
    match image_of(alloc, version, &nodes) {
        Ok(bytes) => outcome(alloc, &bytes),
        Err(_) => Err(0),
    }
}

#[test]
fn heights_and_lengths(rt: HostRuntime) {
    let alloc = rt.alloc();
    assert!(rt; outcome_of(alloc, 1, doublings(alloc, 49)) == Err(7));
    assert!(rt; outcome_of(alloc, 2, stair(alloc)) == Ok(6));
    assert!(rt; outcome_of(alloc, 1, stair(alloc)) == Err(6));
}

/// The image that is written after these bytes were read.
fn saved<L: Ledger>(alloc: Global, bytes: &[u8], blank: Blank) -> Result<Image, ImageRefusal>
    requires { (blank.name ≡ L.name) × (blank.parts ≡ L.parts) × (0 < L.parts) }
{
    let mut scratch = Scratch::<L>::new(alloc, blank);
    rewritten(&mut scratch, bytes)
}

fn rewritten<L: Ledger>(scratch: &mut Scratch<L>, bytes: &[u8]) -> Result<Image, ImageRefusal> {
    let docs = read_into(scratch, bytes)?;
    Ok(write(scratch.alloc, &docs, &scratch.store)?)
}

fn image_of_copies(alloc: Global) -> Result<Vec<u8>, AllocError> {
    image_of(alloc, 2, &copies_of_ab(alloc)?)
}

/// The image of copies of `ab`, read and saved again.
fn saved_copies(alloc: Global) -> Result<Image, ImageRefusal> {
    match image_of_copies(alloc) {
        Ok(bytes) => saved::<Brand>(alloc, &bytes, Blank::new(1)),
        Err(_) => Err(ImageRefusal::NoMemory),
    }
}

/// The image's numbers of nodes and bytes, and the outcome.
fn seen(alloc: Global, image: &Image) -> (u64, usize, Result<u64, u8>) {
    (image.nodes, image.bytes.len(), outcome(alloc, &image.bytes))
}

#[test]
fn save_and_cut(rt: HostRuntime) -> Result<(), Fail> {
    let mut image = saved_copies(rt.alloc())?;
    assert!(rt; seen(rt.alloc(), &image) == (13, 222, Ok(2048)));
    assert!(rt; image.bytes.pop() == Some(12));
    assert!(rt; seen(rt.alloc(), &image) == (13, 221, Err(3)));
    Ok(())
}

const TEXTS: [(ImageRefusal, &str); 13] = [
    (ImageRefusal::Magic, "not an image"),
    (ImageRefusal::Version, "no known version"),
    (ImageRefusal::Cut, "the image is cut"),
    (ImageRefusal::Kind, "no known kind of record"),
    (
        ImageRefusal::Child,
        "a child that does not come before its record",
    ),
    (ImageRefusal::Balance, "a pair that is not balanced"),
    (ImageRefusal::Length, "a text that is too long"),
    (ImageRefusal::Root, "a root that is no record"),
    (ImageRefusal::Name, "a document whose name is no name"),
    (ImageRefusal::RepeatName, "a name that comes twice"),
    (ImageRefusal::Rest, "bytes after the last document"),
    (ImageRefusal::Count, "a run of no copies"),
    (ImageRefusal::NoMemory, "no memory"),
];

#[test]
fn texts_of_refusals(rt: HostRuntime) -> Result<(), Fail> {
    for (why, text) in TEXTS {
        assert!(rt; says(rt.alloc(), why, text)?);
    }
    Ok(())
}
