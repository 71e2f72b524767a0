//! A store of the kept nodes alone.
ghost use Rattle.slp_model.specs.Kept.{IsPlanOf};
ghost use Rattle.slp_model.specs.Nodes.{IsBelow};
ghost use Rattle.slp_model.specs.Thin as thinning;
ghost use Rattle.slp_model.specs.Thin.{IsCompactionOf};
ghost use Rattle.std.specs.Prelude.{◌≡◌, length, IfOk};

use crate::{Facts, Moves, NodeId, Store};
use span_types::NoMemory;
use std::alloc::Global;

/// The kept nodes in their order, under their new numbers. `count` is their number.
pub(crate) fn compacted_nodes(
    alloc: Global,
    store: &Store,
    moves: &Moves,
    count: usize,
) -> Result<Store, NoMemory>
    requires { IsPlanOf store.now moves.now }
    ensures store { IfOk result (λ made. made ≡ thinning.thin store.now moves.now) }
    ensures thin { IfOk result (IsCompactionOf store.now moves.now) }
{
    let mut thin = Store::with_room(alloc, count)?;
    for index in 0..store.count() {
        let id = NodeId { index };
        if moves.kept(id) {
            let facts = Facts {
                len: store.len(id),
                height: store.height(id),
            };
            thin.insert(moves.renumbered(store.node(id)), facts)?;
        }
    }
    Ok(thin)
}
