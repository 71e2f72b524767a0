//! Union, join and projection of compiled queries.
ghost use Rattle.line_parts.specs.NameList.{IsNameList};
ghost use Rattle.query_book.specs.Combining.{HasProjection, IsAccepted, IsPast, IsProjectionPast};
ghost use Rattle.query_book.specs.Compiling.{IsCompiled};
ghost use Rattle.span_types.specs.Query.{Join, Union, query_of};
ghost use Rattle.std.specs.Prelude.{◌≡◌, ◌≤◌, IfErr, IfOk};

use crate::compiled::Compiled;
use crate::keeping::kept_names;
use crate::refusal::CombineRefusal;
use span_algebra::{join_within, project_within, union_within};
use span_types::{NoMemory, QueryTree};
use std::alloc::Global;
use std::boxed::Box;

/// The maximum number of leaves and operations of a query.
const MAX_PARTS: u64 = 128;

/// The union of two queries, whose automaton may have at most `most` states, from 128 to 1,024.
///
/// # Errors
///
/// The first limit that the result exceeds, or `NoMemory` if allocation fails.
pub(crate) fn united(
    alloc: Global,
    left: &Compiled,
    right: &Compiled,
    most: u16,
) -> Result<Compiled, CombineRefusal>
    requires left { IsCompiled left.now }
    requires right { IsCompiled right.now }
    requires few { 128 ≤ most }
    requires many { most ≤ 1024 }
    ensures tree { IfOk result (λ c. query_of c.tree ≡ Union (query_of left.now.tree) (query_of right.now.tree)) }
    ensures compiled { IfOk result IsCompiled }
    ensures accepted { IfOk result (λ c. IsAccepted most (query_of c.tree)) }
    ensures past { IfErr result (IsPast most (Union (query_of left.now.tree) (query_of right.now.tree))) }
{
    let parts = 1 + left.parts + right.parts;
    if parts > MAX_PARTS {
        return Err(CombineRefusal::QueryTooLarge { parts });
    }
    let (full, vars) = union_within(
        alloc,
        &left.full,
        &left.vars,
        &right.full,
        &right.vars,
        most,
    )?;
    let _count = vars.count();
    let left = boxed(alloc, &left.tree)?;
    let right = boxed(alloc, &right.tree)?;
    let tree = QueryTree::Union(left, right);
    Ok(Compiled::with_automaton(alloc, tree, parts, vars, full)?)
}

/// The join of two queries, whose automaton may have at most `most` states, from 128 to 1,024.
///
/// # Errors
///
/// The first limit that the result exceeds, or `NoMemory` if allocation fails.
pub(crate) fn joined(
    alloc: Global,
    left: &Compiled,
    right: &Compiled,
    most: u16,
) -> Result<Compiled, CombineRefusal>
    requires left { IsCompiled left.now }
    requires right { IsCompiled right.now }
    requires few { 128 ≤ most }
    requires many { most ≤ 1024 }
    ensures tree { IfOk result (λ c. query_of c.tree ≡ Join (query_of left.now.tree) (query_of right.now.tree)) }
    ensures compiled { IfOk result IsCompiled }
    ensures accepted { IfOk result (λ c. IsAccepted most (query_of c.tree)) }
    ensures past { IfErr result (IsPast most (Join (query_of left.now.tree) (query_of right.now.tree))) }
{
    let parts = 1 + left.parts + right.parts;
    if parts > MAX_PARTS {
        return Err(CombineRefusal::QueryTooLarge { parts });
    }
    let _states = right.full.states();
    let (full, vars) = join_within(
        alloc,
        &left.full,
        &left.vars,
        &right.full,
        &right.vars,
        most,
    )?;
    let _count = vars.count();
    let left = boxed(alloc, &left.tree)?;
    let right = boxed(alloc, &right.tree)?;
    let tree = QueryTree::Join(left, right);
    Ok(Compiled::with_automaton(alloc, tree, parts, vars, full)?)
}

/// The projection of a query to the variables that `keep` lists. Its automaton may have at most `most` states, from 128 to
/// 1,024.
///
/// # Errors
///
/// `QueryTooLarge` if the result would have more than 128 leaves and operations. Otherwise `OtherVariables` exactly if
/// a name isn't a variable or occurs twice. Then `TooManyStates` if the automaton would have more than `most` states.
/// `NoMemory` if allocation fails.
pub(crate) fn projected(
    alloc: Global,
    source: &Compiled,
    keep: &[u8],
    most: u16,
) -> Result<Compiled, CombineRefusal>
    requires source { IsCompiled source.now }
    requires keep { IsNameList keep.now }
    requires few { 128 ≤ most }
    requires many { most ≤ 1024 }
    ensures tree { IfOk result (λ c. HasProjection (query_of source.now.tree) keep.now (λ q. query_of c.tree ≡ q)) }
    ensures compiled { IfOk result IsCompiled }
    ensures accepted { IfOk result (λ c. IsAccepted most (query_of c.tree)) }
    ensures past { IfErr result (IsProjectionPast most (query_of source.now.tree) keep.now) }
{
    let parts = 1 + source.parts;
    if parts > MAX_PARTS {
        return Err(CombineRefusal::QueryTooLarge { parts });
    }
    let vars = kept_names(alloc, &source.vars, keep)?;
    let _count = vars.count();
    let full = project_within(alloc, &source.full, &source.vars, &vars, most)?;
    let names = vars.copy(alloc)?;
    let inner = boxed(alloc, &source.tree)?;
    let tree = QueryTree::Project(inner, names);
    Ok(Compiled::with_automaton(alloc, tree, parts, vars, full)?)
}

/// A copy of a tree.
fn boxed(alloc: Global, tree: &QueryTree) -> Result<Box<QueryTree>, NoMemory>
    ensures { IfOk result (λ copy. query_of copy.value ≡ query_of tree.now) }
{
    let copy = tree.copy(alloc)?;
    Ok(Box::new(alloc, copy)?)
}
