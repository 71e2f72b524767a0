//! Records: bytes and balanced pairs in version 1, and bytes, pairs and runs in version 2, which are balanced while they
//! are read.
ghost use Rattle.slp_image.specs.Image.{node_pair, node_at, text_pair, text_run, text_at, records_onto};
ghost use Rattle.slp_image.specs.Reads.{AreTexts, HaveThese, Kept, ReadsByte, ReadsRecord, ReadsRecords, Show, cost_of, record_at};
ghost use Rattle.slp_model.specs.Join.{is_near};
ghost use Rattle.slp_model.specs.Nodes.{tree, trees, Grows, AreLiveIds};
ghost use Rattle.slp_model.specs.Tree.{Leaf, leaves, height, text};
ghost use Rattle.slp_model.specs.declared.Node.{Node};
ghost use Rattle.slp_rebalance.specs.Entries.{entry_trees};
ghost use Rattle.std.specs.Prelude.{◌≡◌, ℕ, ◌+◌, ◌*◌, ◌^◌, ◌<◌, ◌≤◌, true, IsTrue, List, [], length, map, get_or, nat_le};

use crate::fields::{byte, child, children, number};
use crate::refusal::ImageRefusal;
use node_store::{NodeId, Store};
use slp_rebalance::Roots;
use span_types::Steps;
use std::sync::ledger::Ledger;

/// What an image has for each of its records.
#[derive(Clone, Copy)]
pub(crate) enum Format {
    /// Version 1: a node.
    Nodes,
    /// Version 2: a text.
    Texts,
}

// Whether the heights of two entries differ by at most one.
fn are_near(roots: &Roots, store: &Store, left: usize, right: usize) -> bool
    requires live { AreLiveIds store.now roots.now }
    requires left { left < length roots.now }
    requires right { right < length roots.now }
    ensures { result ≡ is_near (height (get_or (entry_trees store.now roots.now) left (Leaf 0))) (height (get_or (entry_trees store.now roots.now) right (Leaf 0))) }
{
    let g = store.height(roots.root(left));
    let h = store.height(roots.root(right));
    g <= h + 1 && h <= g + 1
}

// Whether the heights of two nodes imply that they have at most 2^48 bytes together: a node of height h has at most 2^h
// bytes.
#[tactic(auto, using(crate::proofs::NodeLemmas::low_short))]
fn are_low(store: &Store, a: NodeId, b: NodeId) -> bool
    requires a { a.index < length store.now }
    requires b { b.index < length store.now }
    ensures { IsTrue result → nat_le (leaves (tree store.now a.index) + leaves (tree store.now b.index)) (2 ^ 48) ≡ true }
{
    store.height(a) < 48 && store.height(b) < 48
}

// Whether the lengths of two entries sum to at most 2^48. The heights are tested first: they are fast to read and
// usually decide it.
fn are_short(roots: &Roots, store: &Store, left: usize, right: usize) -> bool
    requires live { AreLiveIds store.now roots.now }
    requires left { left < length roots.now }
    requires right { right < length roots.now }
    ensures { result ≡ nat_le (leaves (get_or (entry_trees store.now roots.now) left (Leaf 0)) + leaves (get_or (entry_trees store.now roots.now) right (Leaf 0))) (2 ^ 48) }
{
    let a = roots.root(left);
    let b = roots.root(right);
    if are_low(store, a, b) {
        return true;
    }
    store.len(a) + store.len(b) <= 1 << 48
}

// Reads a byte's record, after its kind, and adds its node.
#[tactic(auto, using(crate::proofs::StepLemmas::none_grows))]
fn byte_entry<'a>(
    bytes: &'a [u8],
    roots: &mut Roots,
    store: &mut Store,
) -> Result<&'a [u8], ImageRefusal>
    requires live { AreLiveIds store.old roots.old }
    ensures grows { Grows store.old store.new 0 0 }
    ensures live { AreLiveIds store.new roots.new }
    ensures read { ReadsByte (λ rest. rest.now) bytes.now (entry_trees store.old roots.old) (entry_trees store.new roots.new) result }
{
    let (b, rest) = byte(bytes)?;
    roots.byte(store, b)?;
    Ok(rest)
}

// Reads a pair's record of version 1, after its kind, and adds its node.
#[tactic(auto, using(crate::proofs::StepLemmas::none_grows))]
fn pair_entry<'a, L: Ledger>(
    bytes: &'a [u8],
    roots: &mut Roots,
    store: &mut Store,
    pairs: &mut Steps<L>,
) -> Result<&'a [u8], ImageRefusal>
    requires live { AreLiveIds store.old roots.old }
    ensures grows { Grows store.old store.new pairs.old pairs.new }
    ensures live { AreLiveIds store.new roots.new }
    ensures read { (ns : List Node) → trees ns ≡ entry_trees store.old roots.old → ReadsRecord HaveThese (λ rest. rest.now) ns (node_pair ns bytes.now) (entry_trees store.new roots.new) result }
    ensures cost { (ns : List Node) → trees ns ≡ entry_trees store.old roots.old → pairs.new ≤ pairs.old + cost_of (node_pair ns bytes.now) }
{
    let own = roots.count();
    let (left, right, rest) = children(bytes, own)?;
    if !are_near(roots, store, left, right) {
        return Err(ImageRefusal::Balance);
    }
    if !are_short(roots, store, left, right) {
        return Err(ImageRefusal::Length);
    }
    roots.pair(store, left, right, pairs)?;
    Ok(rest)
}

// Reads a record of version 1 and adds its node.
#[tactic(auto, using(crate::proofs::StepLemmas::none_grows))]
fn node_entry<'a, L: Ledger>(
    bytes: &'a [u8],
    roots: &mut Roots,
    store: &mut Store,
    pairs: &mut Steps<L>,
) -> Result<&'a [u8], ImageRefusal>
    requires live { AreLiveIds store.old roots.old }
    ensures grows { Grows store.old store.new pairs.old pairs.new }
    ensures live { AreLiveIds store.new roots.new }
    ensures read { (ns : List Node) → trees ns ≡ entry_trees store.old roots.old → ReadsRecord HaveThese (λ rest. rest.now) ns (node_at ns bytes.now) (entry_trees store.new roots.new) result }
    ensures cost { (ns : List Node) → trees ns ≡ entry_trees store.old roots.old → pairs.new ≤ pairs.old + cost_of (node_at ns bytes.now) }
{
    let (kind, rest) = byte(bytes)?;
    if kind == 0 {
        return byte_entry(rest, roots, store);
    }
    if kind == 1 {
        return pair_entry(rest, roots, store, pairs);
    }
    Err(ImageRefusal::Kind)
}

// Reads a pair's record of version 2, after its kind, and adds the concatenation of its children.
#[tactic(auto, using(crate::proofs::StepLemmas::none_grows))]
fn join_entry<'a, L: Ledger>(
    bytes: &'a [u8],
    roots: &mut Roots,
    store: &mut Store,
    pairs: &mut Steps<L>,
) -> Result<&'a [u8], ImageRefusal>
    requires live { AreLiveIds store.old roots.old }
    ensures grows { Grows store.old store.new pairs.old pairs.new }
    ensures live { AreLiveIds store.new roots.new }
    ensures read { (ts : List (List ℕ)) → map text (entry_trees store.old roots.old) ≡ ts → ReadsRecord AreTexts (λ rest. rest.now) ts (text_pair ts bytes.now) (entry_trees store.new roots.new) result }
    ensures cost { (ts : List (List ℕ)) → map text (entry_trees store.old roots.old) ≡ ts → pairs.new ≤ pairs.old + cost_of (text_pair ts bytes.now) }
{
    let own = roots.count();
    let (left, right, rest) = children(bytes, own)?;
    if !are_short(roots, store, left, right) {
        return Err(ImageRefusal::Length);
    }
    roots.pair(store, left, right, pairs)?;
    Ok(rest)
}

// Whether `times` copies of the entry at index `index` have at most 2^48 bytes.
fn is_short_run(roots: &Roots, store: &Store, index: usize, times: u64) -> bool
    requires live { AreLiveIds store.now roots.now }
    requires index { index < length roots.now }
    ensures { result ≡ nat_le (times * leaves (get_or (entry_trees store.now roots.now) index (Leaf 0))) (2 ^ 48) }
{
    match times.checked_mul(store.len(roots.root(index))) {
        Some(len) => len <= 1 << 48,
        None => false,
    }
}

// Reads a run's record, after its kind, and adds the repetition of its child.
#[tactic(auto, using(crate::proofs::StepLemmas::none_grows))]
fn run_entry<'a, L: Ledger>(
    bytes: &'a [u8],
    roots: &mut Roots,
    store: &mut Store,
    pairs: &mut Steps<L>,
) -> Result<&'a [u8], ImageRefusal>
    requires live { AreLiveIds store.old roots.old }
    ensures grows { Grows store.old store.new pairs.old pairs.new }
    ensures live { AreLiveIds store.new roots.new }
    ensures read { (ts : List (List ℕ)) → map text (entry_trees store.old roots.old) ≡ ts → ReadsRecord AreTexts (λ rest. rest.now) ts (text_run ts bytes.now) (entry_trees store.new roots.new) result }
    ensures cost { (ts : List (List ℕ)) → map text (entry_trees store.old roots.old) ≡ ts → pairs.new ≤ pairs.old + cost_of (text_run ts bytes.now) }
{
    let own = roots.count();
    let (index, after) = child(bytes, own)?;
    let (times, rest) = number(after)?;
    if times == 0 {
        return Err(ImageRefusal::Count);
    }
    if !is_short_run(roots, store, index, times) {
        return Err(ImageRefusal::Length);
    }
    roots.repeat(store, index, times, pairs)?;
    Ok(rest)
}

// Reads a record of version 2 and adds its text.
#[tactic(auto, using(crate::proofs::StepLemmas::none_grows))]
fn text_entry<'a, L: Ledger>(
    bytes: &'a [u8],
    roots: &mut Roots,
    store: &mut Store,
    pairs: &mut Steps<L>,
) -> Result<&'a [u8], ImageRefusal>
    requires live { AreLiveIds store.old roots.old }
    ensures grows { Grows store.old store.new pairs.old pairs.new }
    ensures live { AreLiveIds store.new roots.new }
    ensures read { (ts : List (List ℕ)) → map text (entry_trees store.old roots.old) ≡ ts → ReadsRecord AreTexts (λ rest. rest.now) ts (text_at ts bytes.now) (entry_trees store.new roots.new) result }
    ensures cost { (ts : List (List ℕ)) → map text (entry_trees store.old roots.old) ≡ ts → pairs.new ≤ pairs.old + cost_of (text_at ts bytes.now) }
{
    let (kind, rest) = byte(bytes)?;
    if kind == 0 {
        return byte_entry(rest, roots, store);
    }
    if kind == 1 {
        return join_entry(rest, roots, store, pairs);
    }
    if kind == 2 {
        return run_entry(rest, roots, store, pairs);
    }
    Err(ImageRefusal::Kind)
}

// Reads a record and adds its entry.
fn entry<'a, L: Ledger>(
    format: Format,
    bytes: &'a [u8],
    roots: &mut Roots,
    store: &mut Store,
    pairs: &mut Steps<L>,
) -> Result<&'a [u8], ImageRefusal>
    requires live { AreLiveIds store.old roots.old }
    ensures grows { Grows store.old store.new pairs.old pairs.new }
    ensures live { AreLiveIds store.new roots.new }
    ensures read { (ms : List (Kept format)) → Show format ms (entry_trees store.old roots.old) → ReadsRecord (Show format) (λ rest. rest.now) ms (record_at format ms bytes.now) (entry_trees store.new roots.new) result }
    ensures cost { (ms : List (Kept format)) → Show format ms (entry_trees store.old roots.old) → pairs.new ≤ pairs.old + cost_of (record_at format ms bytes.now) }
{
    match format {
        Format::Nodes => node_entry(bytes, roots, store, pairs),
        Format::Texts => text_entry(bytes, roots, store, pairs),
    }
}

/// Reads `count` records and adds their entries. A pair takes one node construction in version 1, and at most 205 in
/// version 2, where a run whose count has d binary digits takes at most 206·(d-1).
pub(crate) fn entries<'a, L: Ledger>(
    format: Format,
    bytes: &'a [u8],
    count: u64,
    roots: &mut Roots,
    store: &mut Store,
    pairs: &mut Steps<L>,
) -> Result<&'a [u8], ImageRefusal>
    requires { roots.old ≡ [] }
    ensures grows { Grows store.old store.new pairs.old pairs.new }
    ensures live { AreLiveIds store.new roots.new }
    ensures read { ReadsRecords (Show format) (λ rest. rest.now) (records_onto (record_at format) count [] 0 bytes.now).answer (entry_trees store.new roots.new) result }
    ensures cost { pairs.new ≤ pairs.old + (records_onto (record_at format) count [] 0 bytes.now).cost }
{
    let mut rest = bytes;
    for _ in 0..count {
        let after = entry(format, rest, roots, store, pairs)?;
        rest = after;
    }
    Ok(rest)
}
