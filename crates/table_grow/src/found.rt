//! The table of a new node, from the cache or computed from finished tables.

ghost use Rattle.std.specs.Prelude.{◌≡◌, IfOk};
ghost use Rattle.table_grow.specs.Filling.{IsDue};
ghost use Rattle.table_grow.specs.Pieces.{IsFound};

use crate::filling::Filling;
use node_store::NodeId;
use span_types::NoMemory;
use state_tables::Table;

/// A computed table: that of a byte, or the composition of two kept tables, with their numbers.
#[derive(Drop)]
pub struct Made {
    pub parts: Option<(usize, usize)>,
    pub table: Table,
}

/// The table of a node: that of a cached composition, by its number, or a computed one.
#[derive(Drop)]
pub enum Found {
    Kept(usize),
    New(Made),
}

/// The table of the node, cached or computed.
pub(crate) fn find(filling: &mut Filling, id: NodeId) -> Result<Found, NoMemory>
    requires { IsDue filling.old id }
    ensures found { IfOk result (IsFound filling.new id.index) }
    ensures due { IsDue filling.new id }
    ensures same { filling.new ≡ filling.old }
{
    let parts = filling.finder().parts(id);
    match filling.recall_again(parts) {
        Some(number) => Ok(Found::Kept(number)),
        None => Ok(Found::New(filling.finder().compute(id, parts)?)),
    }
}
