//! Laws of the automata of query trees.
ghost use Rattle.span_algebra.specs.TreeLaws.{CountIsStates, CountsByAny, LeafAutomata, OneAutomaton, TreeRows};

/// A query tree has one automaton, up to the numbers of its states.
pub fn trees()
    ensures { OneAutomaton }
{}

/// The count of an operation is that of any automata of its operands.
pub fn counts()
    ensures { CountsByAny }
{}

/// The count of a tree is the number of its automaton's states.
pub fn states()
    ensures { CountIsStates }
{}

/// What the subset construction makes of a formula's position automaton is an automaton of the leaf.
pub fn leaves()
    ensures { LeafAutomata }
{}

/// The automata of small trees.
pub fn tree_rows()
    ensures { TreeRows }
{}
