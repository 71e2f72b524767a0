//! Parts of a text, each with its counting table.

ghost use Rattle.count_tables.specs.Dictionary.{count_of};
ghost use Rattle.count_tables.specs.TextIndex.{IsCountInput, IsPart, number_over};
ghost use Rattle.slp_model.specs.Nodes.{tree};
ghost use Rattle.slp_model.specs.Tree.{text};
ghost use Rattle.std.specs.Prelude.{◌≡◌, ℕ, ◌+◌, ◌<◌, ◌≤◌, length, slice_index};

use crate::tables::CountTables;
use marker_dfa::Dfa;
use node_store::{Node, NodeId, Store};
use path_counts::CountTable;
use slp_model::law;
use span_types::Steps;
use std::sync::ledger::Ledger;

/// An automaton, its counting tables, and the nodes that have them.
#[derive(Clone, Copy)]
pub(crate) struct CountInput<'a> {
    pub(crate) tables: &'a CountTables,
    pub(crate) store: &'a Store,
    pub(crate) dfa: &'a Dfa,
}

/// A node of a text, with the position of its first byte, the length of its text in bytes, and its counting table.
#[derive(Clone, Copy)]
pub(crate) struct Part<'a> {
    pub(crate) id: NodeId,
    pub(crate) node: Node,
    pub(crate) at: u64,
    pub(crate) len: u64,
    pub(crate) table: &'a CountTable,
}

/// The node with this id at this position. It counts as one table lookup, and takes constant time.
pub(crate) fn look<'a, L: Ledger>(
    input: &CountInput<'a>,
    id: NodeId,
    at: u64,
    looks: &mut Steps<L>,
) -> Part<'a>
    requires input { IsCountInput input.now }
    requires live { id.index < count_of input.now.tables.now }
    requires positive { 1 ≤ at }
    requires low { at + length (text (tree input.now.store.now id.index)) ≤ 281474976710657 }
    ensures part { IsPart input.now result }
    ensures id { result.id ≡ id }
    ensures at { result.at ≡ at }
    ensures step { looks.new ≡ looks.old + 1 }
{
    law::trees();
    looks.tick();
    Part {
        id,
        node: input.store.node(id),
        at,
        len: input.store.len(id),
        table: input.tables.table(id),
    }
}

/// Writes for each state how many texts go on from it, over the text of the table and then as `after` says.
pub(crate) fn fill_ways(ways: &mut [u64], table: &CountTable, after: &[u64])
    requires long { length ways.old ≡ length table.now }
    requires after { length after.now ≡ length table.now }
    ensures { (q : ℕ) → q < length table.now → slice_index ways.new q ≡ number_over table.now q after.now }
{
    for state in 0..table.states() {
        ways[state as usize] = table.all(state, after);
    }
}
