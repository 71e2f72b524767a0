//! The writer of images.
ghost use Rattle.byteorder.specs.Endian.{big_bytes};
ghost use Rattle.doc_book.specs.Docs.{roots_of};
ghost use Rattle.doc_book.specs.Texts.{AreLive, plain};
ghost use Rattle.slp_image.specs.Documents.{HaveTrees};
ghost use Rattle.slp_image.specs.Image.{image};
ghost use Rattle.slp_image.specs.Save.{SaveForm, IsReached, IsCount, root_indices};
ghost use Rattle.slp_model.specs.Kept.{IsPlanOf};
ghost use Rattle.slp_model.specs.Thin.{KeepsExactly};
ghost use Rattle.std.specs.Prelude.{◌≡◌, ◌∷◌, ◌++◌, [], Ok, IfOk, OnOk};

use crate::bytes::{push_documents, push_nodes, push_number};
use doc_book::Docs;
use node_store::Store;
use span_types::NoMemory;
use std::alloc::Global;
use store_compact::Plan;

/// A written image.
#[derive(Drop)]
pub struct Image {
    /// Its bytes.
    pub bytes: Vec<u8>,
    /// The number of its nodes.
    pub nodes: u64,
}

// The magic bytes and the version.
const HEADER: [u8; 5] = *b"SLPI\x01";

// The length of a number, in bytes.
const NUMBER: usize = 8;

// The length of a pair's record, and that of a document whose name has the maximum of 64 bytes.
const MAX_NODE_BYTES: usize = 1 + 2 * NUMBER;

const MAX_DOCUMENT_BYTES: usize = 1 + 64 + NUMBER;

// Appends the magic bytes, the version and the count of nodes.
fn push_header(out: &mut Vec<u8>, nodes: u64) -> Result<(), NoMemory>
    ensures { OnOk result (out.new.items ≡ out.old.items ++ ((83 ∷ (76 ∷ (80 ∷ (73 ∷ (1 ∷ []))))) ++ big_bytes 8 nodes)) }
{
    out.extend_from_slice(&HEADER).map_err(|_| NoMemory)?;
    push_number(out, nodes)
}

// The maximum length of an image of this many nodes and documents, in bytes.
fn most_bytes(nodes: usize, docs: usize) -> usize {
    let records = nodes.saturating_mul(MAX_NODE_BYTES);
    let documents = docs.saturating_mul(MAX_DOCUMENT_BYTES);
    records
        .saturating_add(documents)
        .saturating_add(HEADER.len() + 2 * NUMBER)
}

// The plan that keeps the roots of all documents, and the nodes below them.
fn plan_of(alloc: Global, docs: &Docs, store: &Store) -> Result<Plan, NoMemory>
    requires { AreLive store.now docs.now }
    ensures plan { IfOk result (IsPlanOf store.now) }
    ensures kept { IfOk result (λ plan. KeepsExactly store.now plan (roots_of docs.now)) }
{
    let mut plan = Plan::new(alloc, store)?;
    for index in 0..docs.count() {
        let (_, root) = docs.at(index);
        plan.keep_root(store, root)?;
    }
    Ok(plan)
}

/// Writes the documents, in their order, as an image of version 1. The image has the nodes at and below their roots,
/// each once, in the order of the store. Takes time linear in the number of nodes in the store and of documents.
///
/// # Errors
///
/// `NoMemory` if allocation fails.
pub fn write(alloc: Global, docs: &Docs, store: &Store) -> Result<Image, NoMemory>
    requires { AreLive store.now docs.now }
    ensures form { IfOk result (λ saved. SaveForm saved.bytes.items) }
    ensures documents { IfOk result (λ saved. (image saved.bytes.items).answer ≡ Ok (record { documents = plain store.now docs.now; nodes = saved.nodes })) }
    ensures trees { IfOk result (λ saved. HaveTrees saved.bytes.items store.now docs.now) }
    ensures nodes { IfOk result (λ saved. IsCount (IsReached store.now (root_indices docs.now)) saved.nodes) }
{
    let plan = plan_of(alloc, docs, store)?;
    let (moves, count) = plan.moves(alloc)?;
    let nodes = count as u64;
    let mut bytes = Vec::with_capacity(alloc, most_bytes(count, docs.count()))?;
    push_header(&mut bytes, nodes)?;
    push_nodes(&mut bytes, store, &moves)?;
    push_number(&mut bytes, docs.count() as u64)?;
    push_documents(&mut bytes, docs, &moves)?;
    Ok(Image { bytes, nodes })
}
