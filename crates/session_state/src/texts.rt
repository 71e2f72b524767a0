//! Bytes of the texts in a store, and the assignment of a text to a name.
ghost use Rattle.doc_book.specs.Texts.{AreLive, plain};
ghost use Rattle.session_state.specs.DocumentReply.{Sets, IsDocumentReply};
ghost use Rattle.slp_model.specs.Nodes.{IsLive, text_of};
ghost use Rattle.span_types.specs.Ranges.{content};
ghost use Rattle.std.specs.Prelude.{◌≡◌, ◌≤◌, ◌+◌, length, take, IfOk, OnErr};

use crate::replies::Answer;
use doc_book::Docs;
use node_store::Store;
use range_read::{RangeBytes, root_len};
use report_text::doc_line;
use slp_model::NodeId;
use span_types::{Name, NoMemory};
use std::alloc::Global;

/// The number of bytes of a text that a reply shows.
const HEAD: u64 = 32;

/// Bytes i to j-1 of a root's text.
pub fn bytes_between(
    alloc: Global,
    store: &Store,
    root: Option<NodeId>,
    i: u64,
    j: u64,
) -> Result<Vec<u8>, NoMemory>
    requires live { IsLive store.now root }
    requires first { 1 ≤ i }
    requires order { i ≤ j }
    requires last { j ≤ length (text_of store.now root) + 1 }
    ensures { IfOk result (λ bytes. bytes.items ≡ content (text_of store.now root) i j) }
{
    let range = RangeBytes::new(alloc, store, root, i, j)?;
    let bytes = range.collect(alloc)?;
    Ok(bytes)
}

/// The first 32 bytes of a root's text, or all of a shorter one.
pub fn head_of(alloc: Global, store: &Store, root: Option<NodeId>) -> Result<Vec<u8>, NoMemory>
    requires { IsLive store.now root }
    ensures { IfOk result (λ head. head.items ≡ take 32 (text_of store.now root)) }
{
    let end = root_len(store, root).min(HEAD) + 1;
    let head = bytes_between(alloc, store, root, 1, end)?;
    Ok(head)
}

/// The reply with a document's name, and the length and first bytes of its text.
fn document_line(
    alloc: Global,
    store: &Store,
    name: &Name,
    root: Option<NodeId>,
) -> Result<Answer, NoMemory>
    requires { IsLive store.now root }
    ensures { IfOk result (λ answer. IsDocumentReply name.now (text_of store.now root) answer.told answer.line.items) }
{
    let head = head_of(alloc, store, root)?;
    let len = root_len(store, root);
    let mut line = Vec::new(alloc);
    doc_line(alloc, name, len, &head, &mut line)?;
    Ok(Answer::accepted(line))
}

/// Sets the root of the document with this name.
pub fn set_document(
    alloc: Global,
    store: &Store,
    docs: &mut Docs,
    name: Name,
    root: Option<NodeId>,
) -> Result<Answer, NoMemory>
    requires root { IsLive store.now root }
    requires live { AreLive store.now docs.old }
    ensures live { AreLive store.now docs.new }
    ensures ok { IfOk result (λ answer. Sets (plain store.now docs.old) name
        (text_of store.now root) answer.told answer.line.items (plain store.now docs.new)) }
    ensures err { OnErr result (docs.new ≡ docs.old) }
{
    let answer = document_line(alloc, store, &name, root)?;
    docs.set(alloc, name, root)?;
    Ok(answer)
}
