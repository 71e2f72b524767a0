//! A list of nodes of a store, one per rule of a grammar whose pairs and runs need not be balanced. Each entry is
//! balanced when it is added.
//!
//! ```text
//! let mut roots = Roots::new(alloc);
//! roots.byte(&mut store, b'a')?;                           // entry 0: a
//! roots.byte(&mut store, b'b')?;                           // entry 1: b
//! roots.pair(&mut store, 0, 1, &mut pairs)?;               // entry 2: ab
//! roots.repeat(&mut store, 2, 1000, &mut pairs)?;          // entry 3: ab a thousand times
//! ```
//!
//! So a grammar from anywhere, however deep, becomes a store of low trees. A pair makes at most 205 calls to `pair`,
//! and one if the heights of its sides differ by at most one. A run whose count has d binary digits makes at most
//! 206·(d-1). An entry takes the memory of a number.
//!
//! Balancing a grammar by joining height-balanced trees is due to W. Rytter, Theoretical Computer Science 302, 2003.
//!
//! Proved: The trees of records as they arrive: pairs joined and balanced, and runs, with their cost (`Roots`).
#![tactic(auto)]

ghost use Rattle.slp_model.specs.Join.{join, IsJoined};
ghost use Rattle.slp_model.specs.Nodes.{tree, Grows, AreLiveIds};
ghost use Rattle.slp_model.specs.Tree.{Leaf, text, leaves, height, IsNear};
ghost use Rattle.slp_rebalance.specs.Around.{AreAround};
ghost use Rattle.slp_rebalance.specs.Copies.{copies, digits_in, run_cost};
ghost use Rattle.slp_rebalance.specs.Entries.{entry_trees, IsRepeated};
ghost use Rattle.std.specs.Prelude.{◌≡◌, ℕ, ◌+◌, ◌*◌, ◌^◌, ◌<◌, ◌≤◌, [], ◌∷◌, ◌++◌, length, get_or, slice_get, IfOk, OnOk, OnErr, Some};

use node_store::{NodeId, Store};
use slp_concat::join;
use span_types::{NoMemory, Steps};
use std::alloc::Global;
use std::marker::Model;
use std::sync::ledger::Ledger;

/// Nodes of a store in the order in which they were added, each as often as it was added.
///
/// Each call has the store of the calls before, which may have grown. After `NoMemory` the entries are unchanged, and
/// the store may have more nodes.
#[derive(Drop)]
pub struct Roots {
    ids: Vec<NodeId>,
}

impl Model for Roots {
    ghost use Rattle.slp_model.specs.declared.NodeId.{NodeId};
    ghost use Rattle.std.specs.Prelude.{List};

    ghost Value = { List NodeId };

    ghost view = { λ r. r.ids.items };
}

impl Roots {
    /// No entries.
    pub fn new(alloc: Global) -> Roots
        ensures { result ≡ [] }
    {
        Roots {
            ids: Vec::new(alloc),
        }
    }

    /// The number of entries.
    pub fn count(&self) -> usize
        ensures { result ≡ length self.now }
    {
        self.ids.len()
    }

    /// The entry at this index, counted from 0.
    pub fn root(&self, index: usize) -> NodeId
        requires { index < length self.now }
        ensures { slice_get self.now index ≡ Some result }
    {
        self.ids[index]
    }

    /// Appends an entry with this one byte.
    ///
    /// # Errors
    ///
    /// `NoMemory` if allocation fails.
    #[tactic(auto, using(crate::proofs::EntryLemmas::none_grows))]
    pub fn byte(&mut self, store: &mut Store, b: u8) -> Result<(), NoMemory>
        requires live { AreLiveIds store.old self.old }
        ensures grows { Grows store.old store.new 0 0 }
        ensures live { AreLiveIds store.new self.new }
        ensures entries { OnOk result (entry_trees store.new self.new ≡ entry_trees store.old self.old ++ Leaf b ∷ []) }
        ensures err { OnErr result (self.new ≡ self.old) }
    {
        self.ids.reserve(1).map_err(|_| NoMemory)?;
        let id = store.byte(b)?;
        self.ids.push_reserved(id);
        Ok(())
    }

    /// Appends an entry with the texts at the indices `left` and `right` joined, at most 2^48 bytes. At most 205 calls
    /// to `pair` are made, and at most one if the heights differ by at most one.
    ///
    /// # Errors
    ///
    /// `NoMemory` if allocation fails.
    #[tactic(auto, using(crate::proofs::EntryLemmas::none_grows))]
    pub fn pair<L: Ledger>(
        &mut self,
        store: &mut Store,
        left: usize,
        right: usize,
        pairs: &mut Steps<L>,
    ) -> Result<(), NoMemory>
        requires live { AreLiveIds store.old self.old }
        requires left { left < length self.old }
        requires right { right < length self.old }
        requires short { leaves (get_or (entry_trees store.old self.old) left (Leaf 0)) + leaves (get_or (entry_trees store.old self.old) right (Leaf 0)) ≤ 2 ^ 48 }
        ensures grows { Grows store.old store.new pairs.old pairs.new }
        ensures live { AreLiveIds store.new self.new }
        ensures entries { OnOk result (entry_trees store.new self.new ≡ entry_trees store.old self.old ++ join (get_or (entry_trees store.old self.old) left (Leaf 0)) (get_or (entry_trees store.old self.old) right (Leaf 0)) ∷ []) }
        ensures joined { OnOk result (IsJoined (get_or (entry_trees store.old self.old) left (Leaf 0)) (get_or (entry_trees store.old self.old) right (Leaf 0)) (join (get_or (entry_trees store.old self.old) left (Leaf 0)) (get_or (entry_trees store.old self.old) right (Leaf 0)))) }
        ensures err { OnErr result (self.new ≡ self.old) }
        ensures cost { pairs.new ≤ pairs.old + 205 }
        ensures near { IsNear (height (get_or (entry_trees store.old self.old) left (Leaf 0))) (height (get_or (entry_trees store.old self.old) right (Leaf 0))) → pairs.new ≤ pairs.old + 1 }
    {
        let a = self.root(left);
        let b = self.root(right);
        self.ids.reserve(1).map_err(|_| NoMemory)?;
        let id = join(store, a, b, pairs)?;
        self.ids.push_reserved(id);
        Ok(())
    }

    /// Appends an entry with the text at the index `child`, `times` times, at most 2^48 bytes. At most 206·(d-1) calls
    /// to `pair` are made, where d is the number of binary digits of `times`.
    ///
    /// # Errors
    ///
    /// `NoMemory` if allocation fails.
    #[tactic(auto, using(crate::proofs::EntryLemmas::none_grows))]
    pub fn repeat<L: Ledger>(
        &mut self,
        store: &mut Store,
        child: usize,
        times: u64,
        pairs: &mut Steps<L>,
    ) -> Result<(), NoMemory>
        requires live { AreLiveIds store.old self.old }
        requires child { child < length self.old }
        requires some { 1 ≤ times }
        requires short { times * leaves (get_or (entry_trees store.old self.old) child (Leaf 0)) ≤ 2 ^ 48 }
        ensures grows { Grows store.old store.new pairs.old pairs.new }
        ensures live { AreLiveIds store.new self.new }
        ensures entries { OnOk result (IsRepeated (entry_trees store.old self.old) child times (entry_trees store.new self.new)) }
        ensures err { OnErr result (self.new ≡ self.old) }
        ensures cost { (places : ℕ) → times < 2 ^ places → pairs.new ≤ pairs.old + run_cost places times }
    {
        let root = self.root(child);
        self.ids.reserve(1).map_err(|_| NoMemory)?;
        let id = repeated(store, Run { id: root, times }, pairs)?;
        self.ids.push_reserved(id);
        Ok(())
    }
}

// Copies of a node's text, one after the other.
#[derive(Clone, Copy)]
struct Run {
    id: NodeId,
    times: u64,
}

// A node with the text of the run: the pair of two nodes with half as many copies, or, if the number is odd, of one with
// half as many and one with one more. It and `around` call themselves at most 63 times together.
#[tactic(auto, using(crate::proofs::EntryLemmas::none_grows))]
fn repeated<L: Ledger>(
    store: &mut Store,
    run: Run,
    pairs: &mut Steps<L>,
) -> Result<NodeId, NoMemory>
    requires live { run.id.index < length store.old }
    requires some { 1 ≤ run.times }
    requires short { run.times * leaves (tree store.old run.id.index) ≤ 2 ^ 48 }
    ensures grows { Grows store.old store.new pairs.old pairs.new }
    ensures live { IfOk result (λ r. r.index < length store.new) }
    ensures text { IfOk result (λ r. text (tree store.new r.index) ≡ copies run.times (text (tree store.old run.id.index))) }
    ensures cost { (places : ℕ) → run.times < 2 ^ places → pairs.new ≤ pairs.old + run_cost places run.times }
{
    let Run { id, times } = run;
    let half = Run {
        id,
        times: times / 2,
    };
    if times == 1 {
        return Ok(id);
    }
    if times % 2 == 0 {
        let one = repeated(store, half, pairs)?;
        return store.pair(one, one, pairs);
    }
    let (fewer, more) = around(store, half, pairs)?;
    store.pair(more, fewer, pairs)
}

// A node with the text of the run, and one with one copy more. Their heights differ by at most one. So each is a pair of
// two such nodes for half the number, and no join descends: a number takes at most two nodes for each of its binary
// digits.
fn around<L: Ledger>(
    store: &mut Store,
    run: Run,
    pairs: &mut Steps<L>,
) -> Result<(NodeId, NodeId), NoMemory>
    requires live { run.id.index < length store.old }
    requires some { 1 ≤ run.times }
    requires short { (run.times + 1) * leaves (tree store.old run.id.index) ≤ 2 ^ 48 }
    ensures grows { Grows store.old store.new pairs.old pairs.new }
    ensures around { IfOk result (λ r. AreAround store.new (text (tree store.old run.id.index)) run.times r.0.index r.1.index) }
    ensures cost { (places : ℕ) → run.times < 2 ^ places → pairs.new + 1 ≤ pairs.old + 2 * digits_in places run.times }
{
    let Run { id, times } = run;
    let half = Run {
        id,
        times: times / 2,
    };
    if times == 1 {
        let twice = store.pair(id, id, pairs)?;
        return Ok((id, twice));
    }
    let (fewer, more) = around(store, half, pairs)?;
    let between = store.pair(more, fewer, pairs)?;
    if times % 2 == 0 {
        let twice = store.pair(fewer, fewer, pairs)?;
        return Ok((twice, between));
    }
    let twice = store.pair(more, more, pairs)?;
    Ok((between, twice))
}
