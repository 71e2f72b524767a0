//! Laws of the definitions.
ghost use Rattle.slp_model.specs.Laws.{TreeLaw, JoinCases, JoinLaw, ShapeLaw, ShapeRows};
ghost use Rattle.slp_model.specs.Thin.{CompactionLaw};

/// A tree of n bytes has n leaves, and a balanced one has height at most H(n).
pub fn trees()
    ensures { TreeLaw }
{}

/// The three cases of a join.
pub fn join_cases()
    ensures { JoinCases }
{}

/// The join of balanced trees is balanced, has their texts one after the other, and is at most one higher than the
/// higher of them.
pub fn joins()
    ensures { JoinLaw }
{}

/// The loader's tree of a text has that text, and its height is at most H of its length.
pub fn shapes()
    ensures { ShapeLaw }
{}

/// The loader's trees of `abc`, `abcde` and `abracadabra`.
pub fn shape_rows()
    ensures { ShapeRows }
{}

/// The kept nodes of a plan, in their order and under new numbers, are a store: each has its tree, and no two are
/// equal. If exactly the nodes that some roots reach are kept, these roots reach each node of the new store.
pub fn compacted_store()
    ensures { CompactionLaw }
{}
