//! Compiled queries.
ghost use Rattle.marker_dfa.specs.Refusals.{IfTooMany};
ghost use Rattle.marker_nfa.specs.Occurrences.{IsWithinLimits};
ghost use Rattle.query_book.specs.Combining.{parts_of};
ghost use Rattle.query_book.specs.Compiling.{CannotCompile, IsFormulaAutomaton, IsCompiled, IsCompiledOf, IsQueryAutomaton, IsRead};
ghost use Rattle.query_book.specs.Occurrences.{CountIsAbove};
ghost use Rattle.query_book.specs.Registering.{IsRefused};
ghost use Rattle.span_types.specs.FormulaTree.{tree_of};
ghost use Rattle.span_types.specs.Query.{Leaf, query_of};
ghost use Rattle.span_types.specs.Rel.{names_of};
ghost use Rattle.std.specs.Prelude.{◌≡◌, ◌≤◌, MatchResult, IfOk, IfErr};

use crate::refusal::QueryRefusal;
use formula_syntax::{FormulaRefusal, read};
use marker_dfa::{Dfa, DfaRefusal, determinise_within, merged};
use marker_nfa::of_formula;
use span_types::{Formula, NoMemory, QueryTree, Vars};
use std::alloc::Global;

/// A compiled query: its tree, the number of its leaves and operations, the names of its variables, and two automata.
#[derive(Drop)]
pub struct Compiled {
    pub(crate) tree: QueryTree,
    pub(crate) parts: u64,
    pub(crate) vars: Vars,
    /// The automaton of the tree, whose states are the reached sets.
    pub(crate) full: Dfa,
    /// An automaton that accepts the same with merged states. Tables are computed by it, since it is smaller.
    pub(crate) dfa: Dfa,
}

impl Compiled {
    /// The compiled query of a tree, of which this is the automaton.
    pub(crate) fn with_automaton(
        alloc: Global,
        tree: QueryTree,
        parts: u64,
        vars: Vars,
        full: Dfa,
    ) -> Result<Compiled, NoMemory>
        requires parts { parts ≡ parts_of (query_of tree) }
        requires few_parts { parts ≤ 128 }
        requires names { vars ≡ names_of (query_of tree) }
        requires full { IsQueryAutomaton (query_of tree) full }
        ensures tree { IfOk result (λ c. query_of c.tree ≡ query_of tree) }
        ensures compiled { IfOk result IsCompiled }
    {
        let dfa = merged(alloc, &full)?;
        Ok(Compiled {
            tree,
            parts,
            vars,
            full,
            dfa,
        })
    }

    /// The names of the query's variables, in the order of their numbers.
    pub fn vars(&self) -> &Vars
        requires { IsCompiled self.now }
        ensures { result.now ≡ names_of (query_of self.now.tree) }
    {
        &self.vars
    }
}

/// Compiles the text of a formula, whose automaton may have at most `most` states, from 128 to 1,024.
/// `QueryBook::register` registers the result.
///
/// # Errors
///
/// The first error of the text, `TooManyStates` exactly if the formula's automaton would have more than `most` states, or
/// `NoMemory` if allocation fails.
pub fn compile(alloc: Global, text: &[u8], most: u16) -> Result<Compiled, QueryRefusal>
    requires few { 128 ≤ most }
    requires many { most ≤ 1024 }
    ensures { MatchResult result (IsCompiledOf most text.now) (IsRefused most text.now) }
{
    match read(alloc, text) {
        Ok((formula, vars)) => compile_leaf(alloc, formula, vars, most),
        Err(FormulaRefusal::NoMemory) => Err(QueryRefusal::NoMemory),
        Err(why) => Err(QueryRefusal::Formula(why)),
    }
}

/// Compiles a formula with the names of its variables.
fn compile_leaf(
    alloc: Global,
    formula: Formula,
    vars: Vars,
    most: u16,
) -> Result<Compiled, QueryRefusal>
    requires read { IsRead (tree_of formula) vars }
    requires few { 128 ≤ most }
    requires many { most ≤ 1024 }
    ensures leaf { IfOk result (λ c. query_of c.tree ≡ Leaf (tree_of formula) vars) }
    ensures compiled { IfOk result IsCompiled }
    ensures few { IfOk result (λ _. CountIsAbove most (tree_of formula) → ⊥) }
    ensures refused { IfErr result (CannotCompile most (tree_of formula)) }
{
    let full = match automaton_of(alloc, &formula, most) {
        Ok(full) => full,
        Err(DfaRefusal::TooManyStates) => return Err(QueryRefusal::TooManyStates),
        Err(DfaRefusal::NoMemory) => return Err(QueryRefusal::NoMemory),
    };
    let _count = vars.count();
    let names = vars.copy(alloc)?;
    let tree = QueryTree::Leaf(formula, vars);
    Ok(Compiled::with_automaton(alloc, tree, 1, names, full)?)
}

/// The deterministic automaton of a formula.
fn automaton_of(alloc: Global, formula: &Formula, most: u16) -> Result<Dfa, DfaRefusal>
    requires within { IsWithinLimits (tree_of formula.now) }
    requires few { 128 ≤ most }
    requires many { most ≤ 1024 }
    ensures automaton { IfOk result (IsFormulaAutomaton (tree_of formula.now)) }
    ensures few { IfOk result (λ _. CountIsAbove most (tree_of formula.now) → ⊥) }
    ensures many { IfTooMany result (CountIsAbove most (tree_of formula.now)) }
{
    let nfa = of_formula(alloc, formula)?;
    determinise_within(alloc, &nfa, most)
}
