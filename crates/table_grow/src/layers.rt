//! Some of the new nodes by height.

ghost use Rattle.std.specs.Prelude.{◌≡◌, ◌≤◌, ◌<◌, ◌++◌, [], ◌∷◌, length, replicate, slice_index_or, slice_set, IfOk, OnOk};
ghost use Rattle.table_grow.specs.Layers.{AreLayers};

use node_store::{NodeId, Store};
use span_types::NoMemory;
use std::alloc::Global;
use std::marker::Model;

/// One more than the greatest height of a node.
pub(crate) const HEIGHTS: u8 = 69;

/// A list of nodes for each height.
#[derive(Drop)]
pub(crate) struct Layers {
    lists: Vec<Vec<NodeId>>,
}

impl Model for Layers {
    ghost use Rattle.std.specs.Prelude.{List, map};
    ghost use Rattle.slp_model.specs.declared.NodeId.{NodeId};

    ghost Value = { List (List NodeId) };

    ghost view = { λ l. map (λ v. v.items) l.lists.items };
}

// The number of nodes of each height from `from` on and before `to`. It only determines how much room is reserved, and
// no result depends on it.
fn counts_of(store: &Store, from: usize, to: usize) -> [usize; 69]
    requires { to ≤ length store.now }
{
    let mut counts = [0usize; HEIGHTS as usize];
    for index in from..to {
        let height = store.height(NodeId { index });
        if let Some(count) = counts.get_mut(height as usize) {
            *count = count.saturating_add(1);
        }
    }
    counts
}

impl Layers {
    // An empty list for each height, with room for this many nodes.
    fn empty(alloc: Global, counts: &[usize; 69]) -> Result<Layers, NoMemory>
        ensures { IfOk result (λ l. l ≡ replicate 69 []) }
    {
        let mut lists = Vec::with_capacity(alloc, HEIGHTS as usize)?;
        for height in 0..HEIGHTS {
            lists.push(Vec::with_capacity(alloc, counts[height as usize])?)?;
        }
        Ok(Layers { lists })
    }

    // Adds a node at the end of the list of this height.
    fn put(&mut self, height: u8, id: NodeId) -> Result<(), NoMemory>
        requires { height < length self.old }
        ensures { OnOk result (self.new ≡ slice_set self.old height (slice_index_or self.old height [] ++ id ∷ [])) }
    {
        self.lists[height as usize].push(id)?;
        Ok(())
    }

    /// The nodes from `from` on and before `to` by height.
    pub(crate) fn new(
        alloc: Global,
        store: &Store,
        from: usize,
        to: usize,
    ) -> Result<Layers, NoMemory>
        requires range { from ≤ to }
        requires live { to ≤ length store.now }
        ensures { IfOk result (AreLayers store.now from to) }
    {
        let mut layers = Layers::empty(alloc, &counts_of(store, from, to))?;
        for index in from..to {
            let id = NodeId { index };
            layers.put(store.height(id), id)?;
        }
        Ok(layers)
    }

    /// The nodes of this height.
    pub(crate) fn of_height(&self, height: u8) -> &[NodeId]
        requires { height < length self.now }
        ensures { result.now ≡ slice_index_or self.now height [] }
    {
        &self.lists[height as usize]
    }
}
