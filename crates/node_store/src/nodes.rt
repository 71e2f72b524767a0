//! The nodes, and how a node is found by its children.
ghost use Rattle.node_store.specs.Firsts.{IsIndexed, IsRightWay, IsWay};
ghost use Rattle.node_store.specs.Narrow.{AreUnique, IsPair, hash_of, wide};
ghost use Rattle.node_store.specs.NodeTable.{IsFree, home_of};
ghost use Rattle.node_store.specs.Others.{IsAdded};
ghost use Rattle.node_store.specs.SearchTree.{IsAbsent};
ghost use Rattle.node_store.specs.Stored.{IsNew};
ghost use Rattle.slp_model.specs.Distinct.{IsOfByte};
ghost use Rattle.slp_model.specs.Nodes.{IsBelow};
ghost use Rattle.std.specs.Prelude.{◌≡◌, ℕ, suc, ◌+◌, ◌^◌, ◌<◌, ◌++◌, ◌∷◌, [], length, map, get_or, set, slice_get, IfOk, IfSome, IsFalse, IsTrue, OnErr, OnOk, Some};

use crate::narrow::Narrow;
use crate::node_table::Search;
use crate::others::Others;
use crate::room::reserve_one;
use slp_model::{Node, NodeId};
use span_types::NoMemory;
use std::alloc::Global;
use std::marker::Model;

/// Nodes in the order in which they were added, each once.
///
/// Each node has two links. The first leads to the first pair that has the node on the left; without it there is no
/// such pair. The second leads to the first of the other pairs that has the node on the right, in the same way. So most
/// nodes are found or added without a hash and without a lookup in an index, which costs most because of the wait for
/// memory. In a new text, children are also next to each other in memory. The other pairs, and the bytes, are found by
/// their hashes. A node takes 8 bytes and 4 for each link, if the vectors are full, and one found by its hash takes 11 to
/// 21 more.
#[derive(Drop)]
pub(crate) struct Nodes {
    all: Vec<Narrow>,
    // For each node one more than the index of the first pair that has it on the left, or 0 for none.
    firsts: Vec<u32>,
    // The same for the first pair that has it on the right and isn't the first one with its left child.
    seconds: Vec<u32>,
    others: Others,
}

impl Model for Nodes {
    ghost use Rattle.std.specs.Prelude.{List, map};
    ghost use Rattle.slp_model.specs.declared.Node.{Node};
    ghost use Rattle.node_store.specs.Narrow.{wide};
    ghost use Rattle.node_store.specs.Firsts.{IsIndexed};

    ghost Value = { List Node };

    ghost view = { λ s. map wide s.all.items };

    ghost invariant = { λ s. IsIndexed s.all.items s.firsts.items s.seconds.items s.others };
}

/// How a node is found: at this index; not at all, since the link that would lead to it is empty; or among the others,
/// if anywhere.
pub(crate) enum Way {
    Known(usize),
    First(usize),
    Second(usize),
    Other,
}

impl Nodes {
    /// No nodes. Allocates nothing.
    pub(crate) fn new(alloc: Global) -> Nodes
        ensures { result ≡ [] }
    {
        Nodes {
            all: Vec::new(alloc),
            firsts: Vec::new(alloc),
            seconds: Vec::new(alloc),
            others: Others::new(alloc),
        }
    }

    /// No nodes, and room for this many, except in the index of the others.
    pub(crate) fn with_capacity(alloc: Global, count: usize) -> Result<Nodes, NoMemory>
        ensures { IfOk result (λ nodes. nodes ≡ []) }
    {
        Ok(Nodes {
            all: Vec::with_capacity(alloc, count)?,
            firsts: Vec::with_capacity(alloc, count)?,
            seconds: Vec::with_capacity(alloc, count)?,
            others: Others::new(alloc),
        })
    }

    pub(crate) fn len(&self) -> usize
        ensures len { result ≡ length self.now }
        ensures unique { AreUnique self.now }
    {
        self.all.len()
    }

    /// The node with this index.
    #[inline(always)]
    pub(crate) fn at(&self, index: usize) -> Node
        requires { index < length self.now }
        ensures { slice_get self.now index ≡ Some result }
    {
        self.all[index].widened()
    }

    /// The number of pairs of neighbours that are new, or that aren't found at once.
    pub(crate) fn unknown_pairs(&self, blocks: &[NodeId]) -> usize {
        let mut count: usize = 0;
        for index in 0..blocks.len() / 2 {
            if !self.is_at_hand(blocks[2 * index], blocks[2 * index + 1]) {
                count = count.saturating_add(1);
            }
        }
        count
    }

    // Whether the pair is found at once: by a link, or in the first slot to which its hash leads. It reads what `insert`
    // will read, and no more.
    #[inline(always)]
    fn is_at_hand(&self, left: NodeId, right: NodeId) -> bool {
        let Some(pair) = Narrow::of(Node::Pair(left, right)) else {
            return false;
        };
        let first = link_of(&self.firsts, left);
        if first == 0 || is_at(&self.all, first, pair) {
            return first != 0;
        }
        let second = link_of(&self.seconds, right);
        if second == 0 || is_at(&self.all, second, pair) {
            return second != 0;
        }
        is_at(&self.all, self.others.first_link(pair), pair)
    }

    /// Makes room for this many nodes, as far as memory allows.
    pub(crate) fn make_room(&mut self, count: usize)
        ensures { self.new ≡ self.old }
    {
        let _all = self.all.reserve(count);
        let _firsts = self.firsts.reserve(count);
        let _seconds = self.seconds.reserve(count);
    }

    /// The index of the node, which is added last if it isn't there, and whether it was added. Its children are among
    /// the nodes.
    ///
    /// # Errors
    ///
    /// `NoMemory` if allocation fails, or if there are 2^32 - 1 nodes.
    pub(crate) fn insert(&mut self, node: Node) -> Result<(usize, bool), NoMemory>
        requires { IsBelow (length self.old) node }
        ensures added { IfOk result (λ r. IsTrue r.1 → (self.new ≡ self.old ++ node ∷ []) × IsNew self.old node) }
        ensures there { IfOk result (λ r. IsFalse r.1 → self.new ≡ self.old) }
        ensures node { IfOk result (λ r. slice_get self.new r.0 ≡ Some node) }
        ensures err { OnErr result (self.new ≡ self.old) }
    {
        let Some(narrow) = Narrow::of(node) else {
            return Err(NoMemory);
        };
        let (index, added) = insert_narrow(
            &mut self.all,
            &mut self.firsts,
            &mut self.seconds,
            &mut self.others,
            narrow,
        )?;
        Ok((index, added))
    }
}

// The link of a node, or 0.
#[inline(always)]
fn link_of(links: &[u32], node: NodeId) -> u32 {
    links.get(node.index).copied().unwrap_or(0)
}

// Whether the link leads to the pair.
#[inline(always)]
fn is_at(all: &[Narrow], link: u32, pair: Narrow) -> bool {
    match all.get((link as usize).wrapping_sub(1)) {
        Some(narrow) => *narrow == pair,
        None => false,
    }
}

// The same over the parts.
fn insert_narrow(
    all: &mut Vec<Narrow>,
    firsts: &mut Vec<u32>,
    seconds: &mut Vec<u32>,
    others: &mut Others,
    narrow: Narrow,
) -> Result<(usize, bool), NoMemory>
    requires indexed { IsIndexed all.old.items firsts.old.items seconds.old.items others.old }
    requires below { IsBelow (length all.old.items) (wide narrow) }
    requires byte { IsOfByte (wide narrow) }
    ensures indexed { IsIndexed all.new.items firsts.new.items seconds.new.items others.new }
    ensures added { IfOk result (λ r. IsTrue r.1 → (all.new.items ≡ all.old.items ++ narrow ∷ []) × IsAbsent all.old.items narrow) }
    ensures there { IfOk result (λ r. IsFalse r.1 → all.new.items ≡ all.old.items) }
    ensures node { IfOk result (λ r. slice_get all.new.items r.0 ≡ Some narrow) }
    ensures err { OnErr result (all.new.items ≡ all.old.items) }
{
    match way_of(all, firsts, seconds, narrow) {
        Way::Known(index) => Ok((index, false)),
        Way::First(left) => {
            let index = add_led(all, firsts, seconds, narrow, left)?;
            Ok((index, true))
        }
        Way::Second(right) => {
            let index = add_led(all, seconds, firsts, narrow, right)?;
            Ok((index, true))
        }
        Way::Other => insert_other(all, firsts, seconds, others, narrow),
    }
}

// Adds a pair to which this child's link leads from now on, and returns its index. The links of the new node are empty.
fn add_led(
    all: &mut Vec<Narrow>,
    links: &mut Vec<u32>,
    rest: &mut Vec<u32>,
    narrow: Narrow,
    child: usize,
) -> Result<usize, NoMemory>
    requires { child < length links.old.items }
    ensures index { IfOk result (λ index. index ≡ length all.old.items) }
    ensures all { OnOk result (all.new.items ≡ all.old.items ++ narrow ∷ []) }
    ensures links { OnOk result (links.new.items ≡ set links.old.items child (suc (length all.old.items)) ++ 0 ∷ []) }
    ensures rest { OnOk result (rest.new.items ≡ rest.old.items ++ 0 ∷ []) }
    ensures err { OnErr result ((all.new.items ≡ all.old.items) × (links.new.items ≡ links.old.items) × (rest.new.items ≡ rest.old.items)) }
{
    let index = all.len();
    let link = number_after(index)? + 1;
    reserve_one(all)?;
    reserve_one(links)?;
    reserve_one(rest)?;
    links[child] = link;
    all.push_reserved(narrow);
    links.push_reserved(0);
    rest.push_reserved(0);
    Ok(index)
}

// The index of a node that no link leads to, which is added last if it isn't among the others, and whether it was
// added.
fn insert_other(
    all: &mut Vec<Narrow>,
    firsts: &mut Vec<u32>,
    seconds: &mut Vec<u32>,
    others: &mut Others,
    narrow: Narrow,
) -> Result<(usize, bool), NoMemory>
    requires indexed { IsIndexed all.old.items firsts.old.items seconds.old.items others.old }
    requires byte { IsOfByte (wide narrow) }
    requires other { IsWay all.old.items firsts.old.items seconds.old.items narrow Way.Other }
    ensures indexed { IsIndexed all.new.items firsts.new.items seconds.new.items others.new }
    ensures added { IfOk result (λ r. IsTrue r.1 → (all.new.items ≡ all.old.items ++ narrow ∷ []) × IsAbsent all.old.items narrow) }
    ensures there { IfOk result (λ r. IsFalse r.1 → all.new.items ≡ all.old.items) }
    ensures node { IfOk result (λ r. slice_get all.new.items r.0 ≡ Some narrow) }
    ensures err { OnErr result (all.new.items ≡ all.old.items) }
{
    others.make_room();
    match others.find(all, narrow) {
        Search::At(index) => Ok((index, false)),
        Search::Absent(slot) => {
            let index = add_other(all, firsts, seconds, others, slot, narrow)?;
            Ok((index, true))
        }
    }
}

// Adds a node that no link leads to, and returns its index. The links of the new node are empty.
fn add_other(
    all: &mut Vec<Narrow>,
    firsts: &mut Vec<u32>,
    seconds: &mut Vec<u32>,
    others: &mut Others,
    slot: Option<usize>,
    narrow: Narrow,
) -> Result<usize, NoMemory>
    requires free { IfSome slot (IsFree others.old.slots (home_of (length others.old.slots) (hash_of narrow))) }
    requires absent { IsAbsent others.old.late narrow }
    ensures index { IfOk result (λ index. index ≡ length all.old.items) }
    ensures all { OnOk result (all.new.items ≡ all.old.items ++ narrow ∷ []) }
    ensures firsts { OnOk result (firsts.new.items ≡ firsts.old.items ++ 0 ∷ []) }
    ensures seconds { OnOk result (seconds.new.items ≡ seconds.old.items ++ 0 ∷ []) }
    ensures others { OnOk result (IsAdded others.old slot narrow (length all.old.items) others.new) }
    ensures err { OnErr result ((all.new.items ≡ all.old.items) × (firsts.new.items ≡ firsts.old.items) × (seconds.new.items ≡ seconds.old.items) × (others.new ≡ others.old)) }
{
    let index = all.len();
    let number = number_after(index)?;
    reserve_one(all)?;
    reserve_one(firsts)?;
    reserve_one(seconds)?;
    others.add(slot, narrow, number)?;
    all.push_reserved(narrow);
    firsts.push_reserved(0);
    seconds.push_reserved(0);
    Ok(index)
}

// The index of the next node in 32 bits, if one more than it also fits into them.
fn number_after(len: usize) -> Result<u32, NoMemory>
    ensures number { IfOk result (λ number. number ≡ len) }
    ensures low { OnOk result (len + 1 < 2 ^ 32) }
{
    let number = u32::try_from(len).map_err(|_| NoMemory)?;
    if number == u32::MAX {
        return Err(NoMemory);
    }
    Ok(number)
}

// How the node is found.
fn way_of(all: &[Narrow], firsts: &[u32], seconds: &[u32], narrow: Narrow) -> Way
    requires left { IsPair narrow → narrow.left < length firsts.now }
    requires right { IsPair narrow → narrow.right < length seconds.now }
    requires inside { (l i : ℕ) → get_or firsts.now l 0 ≡ suc i → i < length all.now }
    requires inside_right { (r i : ℕ) → get_or seconds.now r 0 ≡ suc i → i < length all.now }
    ensures { IsWay all.now firsts.now seconds.now narrow result }
{
    if !narrow.is_pair() {
        return Way::Other;
    }
    let left = narrow.left as usize;
    let first = firsts[left];
    if first == 0 {
        return Way::First(left);
    }
    let index = (first - 1) as usize;
    if all[index] == narrow {
        Way::Known(index)
    } else {
        right_way_of(all, seconds, narrow)
    }
}

// How a pair is found that isn't the first one with its left child.
fn right_way_of(all: &[Narrow], seconds: &[u32], pair: Narrow) -> Way
    requires within { pair.right < length seconds.now }
    requires inside { (r i : ℕ) → get_or seconds.now r 0 ≡ suc i → i < length all.now }
    ensures { IsRightWay all.now seconds.now pair result }
{
    let right = pair.right as usize;
    let second = seconds[right];
    if second == 0 {
        return Way::Second(right);
    }
    let index = (second - 1) as usize;
    if all[index] == pair {
        Way::Known(index)
    } else {
        Way::Other
    }
}

#[cfg(test)]
mod tests {
    use super::*;
    use std::process::Abort;
    use std::test::Fail;

    #[test]
    fn alike_nodes_go_to_the_search_tree(rt: HostRuntime) -> Result<(), Fail> {
        let mut nodes = Nodes::new(rt.alloc());
        for byte in 0..=255 {
            nodes.insert(Node::Byte(byte))?;
        }
        let (tried, added) = insert_alike(&mut nodes)?;
        let (_, more) = insert_alike(&mut nodes)?;
        assert!(rt; 7_000 < tried && 6_000 < late_count(&nodes));
        assert_eq!(rt; (added, more), (tried, 0));
        Ok(())
    }

    // Inserts the pairs of the first nodes whose hashes lead to the first eighth of the slots.
    fn insert_alike(nodes: &mut Nodes) -> Result<(usize, usize), NoMemory> {
        let mut tried: usize = 0;
        let mut added: usize = 0;
        for number in 0..65_536usize {
            let (left, right) = (number / 256, number % 256);
            let pair = Node::Pair(NodeId { index: left }, NodeId { index: right });
            if left < nodes.len() && right < nodes.len() && is_alike(pair) {
                let (_, is_new) = nodes.insert(pair)?;
                tried = tried.saturating_add(1);
                added = added.saturating_add(usize::from(is_new));
            }
        }
        Ok((tried, added))
    }

    fn late_count(nodes: &Nodes) -> usize {
        let others = &nodes.others;
        others.late.len()
    }

    fn is_alike(node: Node) -> bool {
        match Narrow::of(node) {
            Some(narrow) => narrow.hash() < 1 << 29,
            None => false,
        }
    }
}
