//! The reader of images.
ghost use Rattle.slp_image.specs.Documents.{HaveTrees, Reads};
ghost use Rattle.slp_image.specs.Image.{image, contents, is_magic};
ghost use Rattle.slp_image.specs.Reads.{ReadsContents, record_at};
ghost use Rattle.slp_model.specs.Nodes.{Grows};
ghost use Rattle.std.specs.Prelude.{◌≡◌, ◌+◌, ◌++◌, ◌≤◌, ℕ, List, false, length, take, IfOk};

use crate::documents::documents;
use crate::fields::{is_magic, number, version};
use crate::records::{Format, entries};
use crate::refusal::ImageRefusal;
use doc_book::Docs;
use node_store::Store;
use slp_rebalance::Roots;
use span_types::Steps;
use std::alloc::Global;
use std::sync::ledger::Ledger;

// Reads what follows the version.
#[tactic(auto, using(crate::proofs::StepLemmas::none_grows))]
fn read_records<L: Ledger>(
    alloc: Global,
    bytes: &[u8],
    format: Format,
    store: &mut Store,
    pairs: &mut Steps<L>,
) -> Result<Docs, ImageRefusal>
    ensures grows { Grows store.old store.new pairs.old pairs.new }
    ensures read { ReadsContents format store.new (contents (record_at format) bytes.now).answer result }
    ensures cost { pairs.new ≤ pairs.old + (contents (record_at format) bytes.now).cost }
{
    let (count, after) = number(bytes)?;
    let mut roots = Roots::new(alloc);
    let rest = entries(format, after, count, &mut roots, store, pairs)?;
    documents(alloc, rest, &roots)
}

/// Reads the documents of an image of version 1 or 2, and adds its nodes to the store.
///
/// In version 1 each document's tree is that of its root in the image. In version 2 the trees are balanced while they
/// are read. Each pair of version 1 takes one node construction. A pair of version 2 takes at most 205, and a run whose
/// count has d binary digits takes at most 206·(d-1). Memory is allocated as records and documents come, and never
/// because of a count alone.
///
/// # Errors
///
/// The first error in the order of the fields, or `NoMemory` if allocation fails. The store may then have more nodes.
#[tactic(auto, using(crate::proofs::StepLemmas::none_grows))]
pub fn read<L: Ledger>(
    alloc: Global,
    bytes: &[u8],
    store: &mut Store,
    pairs: &mut Steps<L>,
) -> Result<Docs, ImageRefusal>
    ensures grows { Grows store.old store.new pairs.old pairs.new }
    ensures read { Reads store.new (image bytes.now).answer result }
    ensures trees { IfOk result (λ docs. HaveTrees bytes.now store.new docs) }
    ensures cost { pairs.new ≤ pairs.old + (image bytes.now).cost }
{
    let (version, rest) = version(bytes)?;
    if version == 1 {
        return read_records(alloc, rest, Format::Nodes, store, pairs);
    }
    read_records(alloc, rest, Format::Texts, store, pairs)
}

/// Whether the first bytes of a file, at least four, are those of an image. If they are not, the bytes after them don't
/// change what `read` returns, so a caller needn't read them. Takes constant time.
pub fn begins_image(prefix: &[u8]) -> bool
    requires { 4 ≤ length prefix.now }
    ensures value { result ≡ is_magic (take 4 prefix.now) }
    ensures settled { result ≡ false → (rest : List ℕ) → image (prefix.now ++ rest) ≡ image prefix.now }
{
    is_magic(&prefix[..4])
}
