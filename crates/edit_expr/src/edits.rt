//! The editing operations, on roots in a store.
ghost use Rattle.edit_expr.specs.Eval.{copied, deleted, extracted, inserted, joined};
ghost use Rattle.edit_expr.specs.Values.{IsValue};
ghost use Rattle.slp_model.specs.Nodes.{Grows, IsLive, text_of};
ghost use Rattle.span_types.specs.Fibonacci.{height_limit};
ghost use Rattle.std.specs.Prelude.{◌≤◌, ◌+◌, ◌*◌, ℕ, length};

use crate::EditRefusal;
use node_store::Store;
use range_read::{is_within, root_len};
use slp_concat::concat;
use slp_model::NodeId;
use slp_split::{extract, split};
use span_types::Steps;
use std::sync::ledger::Ledger;

/// The maximum length of a text, in bytes.
const LONGEST: u64 = 1 << 48;

/// The first text followed by the second. Returns `TooLong` exactly if the result would have more than 2^48 bytes.
#[tactic(auto, using(crate::proofs::EvalLemmas::none_grows))]
pub(crate) fn join<L: Ledger>(
    store: &mut Store,
    left: Option<NodeId>,
    right: Option<NodeId>,
    pairs: &mut Steps<L>,
) -> Result<Option<NodeId>, EditRefusal>
    requires left { IsLive store.old left }
    requires right { IsLive store.old right }
    ensures grows { Grows store.old store.new pairs.old pairs.new }
    ensures value { IsValue store.new result (joined (text_of store.old left) (text_of store.old right)) }
    ensures cost { (n : ℕ) → length (text_of store.old left) ≤ n → length (text_of store.old right) ≤ n → pairs.new ≤ pairs.old + (3 * height_limit n + 1) }
{
    let first = root_len(store, left);
    let second = root_len(store, right);
    let len = first + second;
    if len > LONGEST {
        return Err(EditRefusal::TooLong { len });
    }
    let root = concat(store, left, right, pairs)?;
    Ok(root)
}

/// Bytes `i` to `j - 1`. Returns `OutOfRange` exactly if this is not a range of the text.
#[tactic(auto, using(crate::proofs::EvalLemmas::none_grows))]
pub(crate) fn cut_out<L: Ledger>(
    store: &mut Store,
    root: Option<NodeId>,
    i: u64,
    j: u64,
    pairs: &mut Steps<L>,
) -> Result<Option<NodeId>, EditRefusal>
    requires { IsLive store.old root }
    ensures grows { Grows store.old store.new pairs.old pairs.new }
    ensures value { IsValue store.new result (extracted (text_of store.old root) i j) }
    ensures cost { (n : ℕ) → length (text_of store.old root) ≤ n → pairs.new ≤ pairs.old + 20 * height_limit n }
{
    let len = root_len(store, root);
    if !is_within(i, j, len) {
        return Err(EditRefusal::OutOfRange {
            first: i,
            last: j,
            len,
        });
    }
    let part = extract(store, root, i, j, pairs)?;
    Ok(part)
}

/// The text without bytes `i` to `j - 1`. Returns `OutOfRange` exactly if this is not a range of the text.
#[tactic(auto, using(crate::proofs::EvalLemmas::none_grows))]
pub(crate) fn delete<L: Ledger>(
    store: &mut Store,
    root: Option<NodeId>,
    i: u64,
    j: u64,
    pairs: &mut Steps<L>,
) -> Result<Option<NodeId>, EditRefusal>
    requires { IsLive store.old root }
    ensures grows { Grows store.old store.new pairs.old pairs.new }
    ensures value { IsValue store.new result (deleted (text_of store.old root) i j) }
    ensures cost { (n : ℕ) → length (text_of store.old root) ≤ n → pairs.new ≤ pairs.old + (23 * height_limit n + 1) }
{
    let len = root_len(store, root);
    if !is_within(i, j, len) {
        return Err(EditRefusal::OutOfRange {
            first: i,
            last: j,
            len,
        });
    }
    let (before, after) = split(store, root, j, pairs)?;
    let (prefix, _) = split(store, before, i, pairs)?;
    let whole = concat(store, prefix, after, pairs)?;
    Ok(whole)
}

/// The first `k - 1` bytes, then the part, then the rest. Returns `OutOfRange` if `k` is not a position of the text,
/// and otherwise `TooLong` if the result would have more than 2^48 bytes.
#[tactic(auto, using(crate::proofs::EvalLemmas::none_grows))]
pub(crate) fn insert<L: Ledger>(
    store: &mut Store,
    root: Option<NodeId>,
    part: Option<NodeId>,
    k: u64,
    pairs: &mut Steps<L>,
) -> Result<Option<NodeId>, EditRefusal>
    requires root { IsLive store.old root }
    requires part { IsLive store.old part }
    ensures grows { Grows store.old store.new pairs.old pairs.new }
    ensures value { IsValue store.new result (inserted (text_of store.old root) (text_of store.old part) k) }
    ensures cost { (n : ℕ) → length (text_of store.old root) ≤ n → length (text_of store.old part) ≤ n → pairs.new ≤ pairs.old + (16 * height_limit n + 5) }
{
    let len = root_len(store, root);
    if !is_within(k, k, len) {
        return Err(EditRefusal::OutOfRange {
            first: k,
            last: k,
            len,
        });
    }
    let more = root_len(store, part);
    let sum = len + more;
    if sum > LONGEST {
        return Err(EditRefusal::TooLong { len: sum });
    }
    let (prefix, back) = split(store, root, k, pairs)?;
    let rest = concat(store, part, back, pairs)?;
    let whole = concat(store, prefix, rest, pairs)?;
    Ok(whole)
}

/// The text with a copy of bytes `i` to `j - 1` inserted before byte `k`. Checks the range first, then the position,
/// then the length.
pub(crate) fn copy<L: Ledger>(
    store: &mut Store,
    root: Option<NodeId>,
    i: u64,
    j: u64,
    k: u64,
    pairs: &mut Steps<L>,
) -> Result<Option<NodeId>, EditRefusal>
    requires { IsLive store.old root }
    ensures grows { Grows store.old store.new pairs.old pairs.new }
    ensures value { IsValue store.new result (copied (text_of store.old root) i j k) }
    ensures cost { (n : ℕ) → length (text_of store.old root) ≤ n → pairs.new ≤ pairs.old + (36 * height_limit n + 5) }
{
    let part = cut_out(store, root, i, j, pairs)?;
    insert(store, root, part, k, pairs)
}
