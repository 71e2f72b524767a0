//! Nodes that are found by the digits of their numbers, in few steps whatever the nodes are.
ghost use Rattle.node_store.specs.SearchTree.{IsSearchTree, IsAbsent, IsFoundAt, IsOpen, IsEnd};
ghost use Rattle.std.specs.Prelude.{◌≡◌, ℕ, ◌+◌, ◌*◌, ◌^◌, ◌<◌, ◌++◌, ◌∷◌, [], length, get_or, IfOk, OnErr, OnOk, Some};

use crate::narrow::Narrow;
use span_types::NoMemory;
use std::alloc::Global;
use std::marker::Model;

// A link has 32 bits.
const MAX_NODES: usize = 0xFFFF_FFFF;

/// Nodes in the order in which they were added, each once.
///
/// It is a digital search tree (D. E. Knuth, *The Art of Computer Programming*, volume 3, section 6.3). Each node has a
/// link for each of the digits 0 to 3, and a node is below those to which its digits lead. No two nodes have the same 32
/// digits, so a lookup passes at most 33 nodes. A node takes 24 bytes if the vectors are full.
#[derive(Drop)]
pub(crate) struct SearchTree {
    nodes: Vec<Narrow>,
    links: Vec<u32>,
}

impl Model for SearchTree {
    ghost use Rattle.std.specs.Prelude.{List};
    ghost use Rattle.node_store.specs.declared.narrow.Narrow.{Narrow};

    ghost Value = { List Narrow };

    ghost use Rattle.node_store.specs.SearchTree.{IsSearchTree};

    ghost view = { λ s. s.nodes.items };

    ghost invariant = { λ s. IsSearchTree s.nodes.items s.links.items };
}

/// Where the search for a node ends: at the node with this index, or at this slot, which has no link.
pub(crate) enum End {
    At(usize),
    Open(usize),
}

impl SearchTree {
    /// No nodes. Allocates nothing.
    pub(crate) fn new(alloc: Global) -> SearchTree
        ensures { result ≡ [] }
    {
        SearchTree {
            nodes: Vec::new(alloc),
            links: Vec::new(alloc),
        }
    }

    pub(crate) fn len(&self) -> usize
        ensures len { result ≡ length self.now }
        ensures small { result < 2 ^ 63 }
    {
        self.nodes.len()
    }

    /// The index of the node, if it is there.
    pub(crate) fn find(&self, narrow: Narrow) -> Option<usize>
        ensures { IsFoundAt self.now narrow result }
    {
        match end_of(&self.nodes, &self.links, narrow) {
            End::At(index) => Some(index),
            End::Open(_) => None,
        }
    }

    /// Adds a node that isn't there.
    ///
    /// # Errors
    ///
    /// `NoMemory` if allocation fails, or if there are 2^32 - 1 nodes.
    pub(crate) fn push(&mut self, narrow: Narrow) -> Result<(), NoMemory>
        requires { IsAbsent self.old narrow }
        ensures added { OnOk result (self.new ≡ self.old ++ narrow ∷ []) }
        ensures err { OnErr result (self.new ≡ self.old) }
    {
        match end_of(&self.nodes, &self.links, narrow) {
            // It isn't there.
            End::At(_) => unreachable!(),
            End::Open(slot) => add(&mut self.nodes, &mut self.links, narrow, slot),
        }
    }
}

// The link of a slot, or 0 past the last slot.
fn link_at(links: &[u32], slot: usize) -> u32
    ensures { result ≡ get_or links.now slot 0 }
{
    match links.get(slot) {
        Some(link) => *link,
        None => 0,
    }
}

// Where the digits of the node lead, the lowest digit first.
fn end_of(nodes: &[Narrow], links: &[u32], narrow: Narrow) -> End
    requires { IsSearchTree nodes.now links.now }
    ensures { IsEnd nodes.now links.now narrow result }
{
    let mut digits = narrow.number();
    let mut slot = 0;
    'way: loop {
        let link = link_at(links, slot);
        if link == 0 {
            return End::Open(slot);
        }
        let index = (link - 1) as usize;
        if nodes[index] == narrow {
            return End::At(index);
        }
        slot = 4 * index + (digits % 4) as usize + 1;
        digits /= 4;
    }
}

// Adds the node and the link to it.
fn add(
    nodes: &mut Vec<Narrow>,
    links: &mut Vec<u32>,
    narrow: Narrow,
    slot: usize,
) -> Result<(), NoMemory>
    requires tree { IsSearchTree nodes.old.items links.old.items }
    requires open { IsOpen nodes.old.items links.old.items narrow slot }
    ensures tree { IsSearchTree nodes.new.items links.new.items }
    ensures added { OnOk result (nodes.new.items ≡ nodes.old.items ++ narrow ∷ []) }
    ensures err { OnErr result (nodes.new.items ≡ nodes.old.items) }
{
    let link = link_to(nodes.len())?;
    nodes.reserve(1)?;
    lengthen(links, slot)?;
    links[slot] = link;
    nodes.push_reserved(narrow);
    Ok(())
}

// The link to the node with this index, if there can be one.
fn link_to(index: usize) -> Result<u32, NoMemory>
    ensures link { IfOk result (λ link. link ≡ index + 1) }
    ensures low { OnOk result (index < 2 ^ 32) }
{
    if index >= MAX_NODES {
        return Err(NoMemory);
    }
    Ok(index as u32 + 1)
}

// Appends empty slots until there is this one.
fn lengthen(links: &mut Vec<u32>, slot: usize) -> Result<(), NoMemory>
    requires { slot < 2 ^ 63 }
    ensures same { (s : ℕ) → get_or links.new.items s 0 ≡ get_or links.old.items s 0 }
    ensures long { OnOk result (slot < length links.new.items) }
{
    if slot >= links.len() {
        links.resize(slot + 1, 0)?;
    }
    Ok(())
}
