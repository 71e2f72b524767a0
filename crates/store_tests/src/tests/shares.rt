//! Tests of texts that are loaded so that equal parts share nodes.
ghost use Rattle.std.specs.Prelude.{◌≡◌, ◌<◌};

use crate::tests::tried::Scratch;
use node_store::NodeId;
use share_loader::{Sharer, share};
use span_types::NoMemory;
use std::alloc::Global;
use std::marker::Brand;
use std::sync::ledger::{Blank, Ledger};
use std::test::Fail;

/// Letters of a linear congruential generator (D. E. Knuth, *The Art of Computer Programming*, volume 2, section 3.2.1).
fn random_letters(alloc: Global, count: usize) -> Result<Vec<u8>, NoMemory> {
    let mut letters = Vec::with_capacity(alloc, count)?;
    let mut state: u32 = 1;
    for _ in 0..count {
        state = state.wrapping_mul(1_664_525).wrapping_add(1_013_904_223);
        letters.push(b'a' + (state >> 24) as u8 % 26)?;
    }
    Ok(letters)
}

/// The numbers of nodes of a text, and of this text and another one.
fn counts<L: Ledger>(
    alloc: Global,
    texts: (&[u8], &[u8]),
    blank: Blank,
) -> Result<(usize, usize), NoMemory>
    requires { (blank.name ≡ L.name) × (blank.parts ≡ L.parts) × (0 < L.parts) }
{
    let mut scratch = Scratch::<L>::new(alloc, blank);
    let one = shared(&mut scratch, texts.0)?.1;
    Ok((one, shared(&mut scratch, texts.1)?.1))
}

/// The root of a text, and the number of nodes that the store then has.
fn shared<L: Ledger>(
    scratch: &mut Scratch<L>,
    text: &[u8],
) -> Result<(Option<NodeId>, usize), NoMemory> {
    if text.len() > 1 << 20 {
        return Err(NoMemory);
    }
    let store = &mut scratch.store;
    let root = share(scratch.alloc, store, text, &mut scratch.pairs)?;
    Ok((root, store.count()))
}

/// The numbers for a text and for the same text with one more byte in the middle, which shifts its second half.
fn counts_with_inserted(alloc: Global) -> Result<(usize, usize), NoMemory> {
    let text = random_letters(alloc, 20_000)?;
    let mut other = text.clone()?;
    if other.len() != 20_000 {
        return Err(NoMemory);
    }
    other.insert(10_000, b'-')?;
    counts::<Brand>(alloc, (&text, &other), Blank::new(1))
}

#[test]
fn texts_with_an_inserted_byte(rt: HostRuntime) -> Result<(), Fail> {
    let (one, both) = counts_with_inserted(rt.alloc())?;
    assert!(rt;
        one > 10_000 && both >= one && both - one < 200,
        "{one} {both}"
    );
    Ok(())
}

/// Whether a text in two pieces has the root that it has at once.
fn is_same<L: Ledger>(
    alloc: Global,
    text: &[u8],
    end: usize,
    blank: Blank,
) -> Result<bool, NoMemory>
    requires { (blank.name ≡ L.name) × (blank.parts ≡ L.parts) × (0 < L.parts) }
{
    let mut scratch = Scratch::<L>::new(alloc, blank);
    Ok(shared(&mut scratch, text)? == shared_pieces(&mut scratch, text, end)?)
}

/// The root of a text in two pieces, and the number of nodes that the store then has.
fn shared_pieces<L: Ledger>(
    scratch: &mut Scratch<L>,
    text: &[u8],
    end: usize,
) -> Result<(Option<NodeId>, usize), NoMemory> {
    if text.len() > 1 << 20 || end > text.len() {
        return Err(NoMemory);
    }
    let mut sharer = Sharer::new(scratch.alloc)?;
    let (store, pairs) = (&mut scratch.store, &mut scratch.pairs);
    sharer.feed(store, &text[..end], pairs)?;
    sharer.feed(store, &text[end..], pairs)?;
    let root = sharer.finish(store, pairs)?;
    Ok((root, store.count()))
}

#[test]
fn texts_in_pieces(rt: HostRuntime) {
    for end in [0, 1, 5, 11] {
        assert!(rt;
            is_same::<Brand>(rt.alloc(), b"abracadabra", end, Blank::new(1)) == Ok(true),
            "{end}"
        );
    }
}
