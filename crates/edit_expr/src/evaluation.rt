//! The evaluation of expressions.
ghost use Rattle.doc_book.specs.Texts.{AreLive, plain};
ghost use Rattle.edit_expr.specs.Costs.{edit_cost, total_cost};
ghost use Rattle.edit_expr.specs.Eval as meaning;
ghost use Rattle.edit_expr.specs.Eval.{greatest, named, operations};
ghost use Rattle.edit_expr.specs.Values.{IsValue};
ghost use Rattle.slp_model.specs.Nodes.{Grows};
ghost use Rattle.span_types.specs.Fibonacci.{height_limit};
ghost use Rattle.std.specs.Prelude.{◌≡◌, ◌≤◌, ◌+◌, ◌*◌, ℕ};

use crate::edits::{copy, cut_out, delete, insert, join};
use crate::{EditRefusal, Expr};
use doc_book::Docs;
use node_store::Store;
use slp_model::NodeId;
use span_types::{Name, Steps};
use std::alloc::Global;
use std::sync::ledger::Ledger;

/// Evaluates an expression, and returns the root of its value. A name denotes the text of the document with this name.
///
/// Operands are evaluated from left to right, and before their operation. The first error ends the evaluation.
///
/// An expression of m operations takes at most 48·m·(H(N) + 1) node constructions. N is the length of the longest value
/// that the evaluation meets, operands and results included. H(N) is the greatest height of a balanced tree of N bytes.
/// Memory is allocated for new nodes only, and the recursion is as deep as the nesting of the expression.
///
/// # Errors
///
/// The first of these that the evaluation meets. The store may then have more nodes.
///
/// - `NoSuchDocument` if no document has a name that the expression uses.
/// - `OutOfRange` if a range or a position isn't in its text of n bytes: not 1 ≤ I ≤ J ≤ n + 1, or not 1 ≤ K ≤ n + 1.
///   The error for a position K has the range from K to K. `copy` checks its range before its position.
/// - `TooLong` with the length if a concatenation, an insertion or a copy would have more than 2^48 bytes. An operation
///   checks its ranges and positions first.
/// - `NoMemory` if allocation fails.
pub fn eval<L: Ledger>(
    alloc: Global,
    expr: &Expr,
    docs: &Docs,
    store: &mut Store,
    pairs: &mut Steps<L>,
) -> Result<Option<NodeId>, EditRefusal>
    requires { AreLive store.old docs.now }
    ensures grows { Grows store.old store.new pairs.old pairs.new }
    ensures value { IsValue store.new result (meaning.eval (plain store.old docs.now) expr.now) }
    ensures cost { pairs.new ≤ pairs.old + 48 * operations expr.now * (height_limit (greatest (plain store.old docs.now) expr.now) + 1) }
{
    value(alloc, expr, docs, store, pairs)
}

// Evaluates an expression. The bound on its cost is the sum of the bounds of its operations.
fn value<L: Ledger>(
    alloc: Global,
    expr: &Expr,
    docs: &Docs,
    store: &mut Store,
    pairs: &mut Steps<L>,
) -> Result<Option<NodeId>, EditRefusal>
    requires { AreLive store.old docs.now }
    ensures grows { Grows store.old store.new pairs.old pairs.new }
    ensures value { IsValue store.new result (meaning.eval (plain store.old docs.now) expr.now) }
    ensures cost { (n : ℕ) → greatest (plain store.old docs.now) expr.now ≤ n → pairs.new ≤ pairs.old + total_cost (edit_cost n) expr.now }
{
    match expr {
        Expr::Doc(name) => document(alloc, docs, store, name),
        Expr::Concat(left, right) => {
            let d = value(alloc, left, docs, store, pairs)?;
            let e = value(alloc, right, docs, store, pairs)?;
            join(store, d, e, pairs)
        }
        Expr::Extract(from, i, j) => {
            let d = value(alloc, from, docs, store, pairs)?;
            cut_out(store, d, *i, *j, pairs)
        }
        Expr::Delete(from, i, j) => {
            let d = value(alloc, from, docs, store, pairs)?;
            delete(store, d, *i, *j, pairs)
        }
        Expr::Insert(into, what, k) => {
            let d = value(alloc, into, docs, store, pairs)?;
            let e = value(alloc, what, docs, store, pairs)?;
            insert(store, d, e, *k, pairs)
        }
        Expr::Copy(from, i, j, k) => {
            let d = value(alloc, from, docs, store, pairs)?;
            copy(store, d, *i, *j, *k, pairs)
        }
    }
}

// The root of the document with this name.
fn document(
    alloc: Global,
    docs: &Docs,
    store: &Store,
    name: &Name,
) -> Result<Option<NodeId>, EditRefusal>
    requires { AreLive store.now docs.now }
    ensures { IsValue store.now result (named (plain store.now docs.now) name.now) }
{
    match docs.get(name.bytes()) {
        Ok(root) => Ok(root),
        Err(_) => {
            let name = name.copy(alloc)?;
            Err(EditRefusal::NoSuchDocument { name })
        }
    }
}
