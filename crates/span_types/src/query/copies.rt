//! Copies of query trees.
ghost use Rattle.span_types.specs.Query.{query_of};
ghost use Rattle.std.specs.Prelude.{◌≡◌, IfOk};

use crate::query::QueryTree;
use crate::refusal::NoMemory;
use std::alloc::Global;
use std::boxed::Box;

impl QueryTree {
    /// The same query, in memory of its own, by a recursion as deep as its tree.
    ///
    /// # Errors
    ///
    /// `NoMemory` where memory for it wasn't found.
    #[cycle(trees)]
    pub fn copy(&self, alloc: Global) -> Result<QueryTree, NoMemory>
        ensures { IfOk result (λ copy. query_of copy ≡ query_of self.now) }
    {
        Ok(match self {
            QueryTree::Leaf(formula, names) => QueryTree::Leaf(
                formula.copy(alloc)?,
                names.copy(alloc)?,
            ),
            QueryTree::Union(a, b) => QueryTree::Union(boxed(alloc, a)?, boxed(alloc, b)?),
            QueryTree::Join(a, b) => QueryTree::Join(boxed(alloc, a)?, boxed(alloc, b)?),
            QueryTree::Project(a, names) => QueryTree::Project(
                boxed(alloc, a)?,
                names.copy(alloc)?,
            ),
        })
    }
}

#[cycle(trees)]
fn boxed(alloc: Global, tree: &QueryTree) -> Result<Box<QueryTree>, NoMemory>
    ensures { IfOk result (λ copy. query_of copy.value ≡ query_of tree.now) }
{
    let copy = tree.copy(alloc)?;
    Ok(Box::new(alloc, copy)?)
}
