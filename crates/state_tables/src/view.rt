//! A view of nodes and tables, through which they are looked up one at a time.

ghost use Rattle.state_tables.specs.Dictionary.{IsLook, count_of};
ghost use Rattle.std.specs.Prelude.{◌≡◌, ◌+◌, ◌<◌, length};

use crate::table::Table;
use crate::tables::Tables;
use node_store::{Node, NodeId, Store};
use slp_model::law;
use span_types::Steps;
use std::sync::ledger::Ledger;

/// A view of nodes and their tables, one lookup at a time.
#[derive(Clone, Copy)]
pub struct View<'a> {
    tables: &'a Tables,
    store: &'a Store,
    ghost counted: { count_of tables.now ≡ length store.now },
}

/// The result of a lookup: the node, the length of its text in bytes, and its table.
#[derive(Clone, Copy)]
pub struct Look<'a> {
    pub node: Node,
    pub len: u64,
    pub table: &'a Table,
}

impl<'a> View<'a> {
    pub(crate) fn new(tables: &'a Tables, store: &'a Store) -> View<'a>
        requires { count_of tables.now ≡ length store.now }
        ensures tables { result.tables.now ≡ tables.now }
        ensures store { result.store.now ≡ store.now }
    {
        View { tables, store }
    }

    /// The node with this id, the length of its text and its table. It counts as one table lookup, and takes constant
    /// time.
    pub fn look<L: Ledger>(&self, id: NodeId, looks: &mut Steps<L>) -> Look<'a>
        requires { id.index < length self.now.store.now }
        ensures look { IsLook self.now.store.now self.now.tables.now id.index result.node result.len result.table.now }
        ensures step { looks.new ≡ looks.old + 1 }
    {
        law::trees();
        looks.tick();
        Look {
            node: self.store.node(id),
            len: self.store.len(id),
            table: self.tables.table(id),
        }
    }
}
