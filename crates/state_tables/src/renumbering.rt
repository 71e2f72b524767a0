//! The numbers of the kept nodes.

ghost use Rattle.distinct_items.specs.Renumbering.{kept_items};
ghost use Rattle.std.specs.Prelude.{◌≡◌, ◌≤◌, length, vec_capacity};

use node_store::{Moves, NodeId};

/// Removes the numbers of the nodes that aren't kept, and moves the others to their nodes' new indices, none of which
/// is greater than the old one. Takes time linear in the numbers, and allocates nothing.
pub fn renumber(numbers: &mut Vec<u32>, moves: &Moves)
    requires { length numbers.old.items ≤ length moves.now }
    ensures numbers { numbers.new.items ≡ kept_items numbers.old.items moves.now }
    ensures capacity { vec_capacity numbers.new ≡ vec_capacity numbers.old }
{
    let mut kept = 0;
    for index in 0..numbers.len() {
        if moves.kept(NodeId { index }) {
            numbers[kept] = numbers[index];
            kept += 1;
        }
    }
    numbers.truncate(kept);
}
