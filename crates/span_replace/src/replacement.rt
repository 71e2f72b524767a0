//! A text in which spans are replaced.
ghost use Rattle.slp_model.specs.Nodes.{Grows, IsLive, text_of};
ghost use Rattle.span_replace.specs.Outcomes.{IfTooLong, IsReplacement};
ghost use Rattle.span_replace.specs.Replaced as meaning;
ghost use Rattle.span_replace.specs.Replaced.{AreApart};
ghost use Rattle.std.specs.Prelude.{◌≡◌, ℕ, ◌+◌, ◌-◌, ◌*◌, ◌^◌, ◌<◌, ◌≤◌, List, ◌++◌, length, take, drop, IfOk};

use crate::refusal::ReplaceRefusal;
use crate::spans::Chosen;
use node_store::{NodeId, Store};
use range_read::root_len;
use slp_concat::concat;
use slp_split::split;
use span_types::{NoMemory, Span, Steps};
use std::sync::ledger::Ledger;

/// The maximum length of a text, in bytes.
const LONGEST: u64 = 1 << 48;

/// A root of the text with replaced spans: the root's text with each of the spans, from the left, replaced by the text
/// of `by`.
///
/// Both roots are live, the spans lie in the text, and each starts at or past the end of the one before. At most
/// 1,770·(c+1) calls to `pair` are made for c spans. After `NoMemory` the store may have more nodes.
///
/// # Errors
///
/// `TooLong` exactly if the length of the result is over 2^48. It has that length, which is at most 2^63 + 2^48, and is
/// returned before any call to `pair`. `NoMemory` if allocation fails.
pub fn replaced<L: Ledger>(
    store: &mut Store,
    root: Option<NodeId>,
    spans: &Chosen,
    by: Option<NodeId>,
    pairs: &mut Steps<L>,
) -> Result<Option<NodeId>, ReplaceRefusal>
    requires root { IsLive store.old root }
    requires by { IsLive store.old by }
    requires apart { AreApart (length (text_of store.old root)) spans.now }
    ensures grows { Grows store.old store.new pairs.old pairs.new }
    ensures text { IsReplacement store.new (meaning.replaced (text_of store.old root) spans.now (text_of store.old by)) result }
    ensures early { IfTooLong result ((store.new ≡ store.old) × (pairs.new ≡ pairs.old)) }
    ensures cost { pairs.new ≤ pairs.old + 1770 * (length spans.now + 1) }
{
    let spans = spans.spans();
    let len = replaced_len(spans, root_len(store, root), root_len(store, by));
    if len > LONGEST {
        return Err(ReplaceRefusal::TooLong { len });
    }
    let whole = replace_all(store, root, spans, by, pairs)?;
    Ok(whole)
}

/// The length of the result, for a text of `len` bytes and one of `by` bytes in place of each span.
fn replaced_len(spans: &[Span], len: u64, by: u64) -> u64
    requires apart { AreApart len spans.now }
    requires few { length spans.now ≤ 32768 }
    requires len { len ≤ 2 ^ 48 }
    requires by { by ≤ 2 ^ 48 }
    ensures len { (s w : List ℕ) → length s ≡ len → length w ≡ by → result ≡ length (meaning.replaced s spans.now w) }
    ensures most { result ≤ 2 ^ 63 + 2 ^ 48 }
{
    let mut done = 0;
    let mut at = 1;
    for span in spans {
        done += span.start - at + by;
        at = span.end;
    }
    done + (len + 1 - at)
}

/// The progress: the finished start of the result, and the rest of the text from position `at` on.
#[derive(Clone, Copy)]
struct Progress {
    done: Option<NodeId>,
    rest: Option<NodeId>,
    at: u64,
}

/// The result, which isn't too long.
fn replace_all<L: Ledger>(
    store: &mut Store,
    root: Option<NodeId>,
    spans: &[Span],
    by: Option<NodeId>,
    pairs: &mut Steps<L>,
) -> Result<Option<NodeId>, NoMemory>
    requires live { IsLive store.old root × IsLive store.old by }
    requires apart { AreApart (length (text_of store.old root)) spans.now }
    requires short { length (meaning.replaced (text_of store.old root) spans.now (text_of store.old by)) ≤ 2 ^ 48 }
    ensures grows { Grows store.old store.new pairs.old pairs.new }
    ensures live { IfOk result (λ r. IsLive store.new r) }
    ensures text { IfOk result (λ r. text_of store.new r ≡ meaning.replaced (text_of store.old root) spans.now (text_of store.old by)) }
    ensures cost { pairs.new ≤ pairs.old + 1770 * (length spans.now + 1) }
{
    let mut work = Progress {
        done: None,
        rest: root,
        at: 1,
    };
    for span in spans {
        work = replace_next(store, work, *span, by, pairs)?;
    }
    join(store, work.done, work.rest, pairs)
}

/// Replaces the next span of the rest. A short piece is built first, so that the long start of the result is joined
/// only once.
fn replace_next<L: Ledger>(
    store: &mut Store,
    work: Progress,
    span: Span,
    by: Option<NodeId>,
    pairs: &mut Steps<L>,
) -> Result<Progress, NoMemory>
    requires done { IsLive store.old work.done }
    requires rest { IsLive store.old work.rest }
    requires by { IsLive store.old by }
    requires start { work.at ≤ span.start }
    requires order { span.start ≤ span.end }
    requires end { span.end ≤ work.at + length (text_of store.old work.rest) }
    requires short { length (text_of store.old work.done) + (span.start - work.at) + length (text_of store.old by) ≤ 2 ^ 48 }
    ensures grows { Grows store.old store.new pairs.old pairs.new }
    ensures live { IfOk result (λ r. IsLive store.new r.done × IsLive store.new r.rest) }
    ensures done { IfOk result (λ r. text_of store.new r.done ≡ text_of store.old work.done ++ (take (span.start - work.at) (text_of store.old work.rest) ++ text_of store.old by)) }
    ensures rest { IfOk result (λ r. text_of store.new r.rest ≡ drop (span.end - work.at) (text_of store.old work.rest)) }
    ensures at { IfOk result (λ r. r.at ≡ span.end) }
    ensures cost { pairs.new ≤ pairs.old + 1770 }
{
    let (from, to) = (span.start - work.at, span.end - work.at);
    let (prefix, rest) = cut_out(store, work.rest, from, to, pairs)?;
    let piece = join(store, prefix, by, pairs)?;
    let done = join(store, work.done, piece, pairs)?;
    Ok(Progress {
        done,
        rest,
        at: span.end,
    })
}

/// Roots of the first `from` bytes and of those after the first `to`.
fn cut_out<L: Ledger>(
    store: &mut Store,
    root: Option<NodeId>,
    from: u64,
    to: u64,
    pairs: &mut Steps<L>,
) -> Result<(Option<NodeId>, Option<NodeId>), NoMemory>
    requires live { IsLive store.old root }
    requires order { from ≤ to }
    requires to { to ≤ length (text_of store.old root) }
    ensures grows { Grows store.old store.new pairs.old pairs.new }
    ensures live { IfOk result (λ r. IsLive store.new r.0 × IsLive store.new r.1) }
    ensures before { IfOk result (λ r. text_of store.new r.0 ≡ take from (text_of store.old root)) }
    ensures after { IfOk result (λ r. text_of store.new r.1 ≡ drop to (text_of store.old root)) }
    ensures cost { pairs.new ≤ pairs.old + 1360 }
{
    let _len = root_len(store, root);
    let (prefix, tail) = split(store, root, from + 1, pairs)?;
    let _tail_len = root_len(store, tail);
    let (_, rest) = split(store, tail, to - from + 1, pairs)?;
    Ok((prefix, rest))
}

/// A root of one text followed by the other.
fn join<L: Ledger>(
    store: &mut Store,
    left: Option<NodeId>,
    right: Option<NodeId>,
    pairs: &mut Steps<L>,
) -> Result<Option<NodeId>, NoMemory>
    requires live { IsLive store.old left × IsLive store.old right }
    requires short { length (text_of store.old left) + length (text_of store.old right) ≤ 2 ^ 48 }
    ensures grows { Grows store.old store.new pairs.old pairs.new }
    ensures live { IfOk result (λ r. IsLive store.new r) }
    ensures text { IfOk result (λ r. text_of store.new r ≡ text_of store.old left ++ text_of store.old right) }
    ensures cost { pairs.new ≤ pairs.old + 205 }
{
    let _left = root_len(store, left);
    let _right = root_len(store, right);
    concat(store, left, right, pairs)
}
