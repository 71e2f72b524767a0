//! The documents of an image, after its records.
ghost use Rattle.slp_image.specs.Image.{name_at, is_among};
ghost use Rattle.slp_image.specs.Reads.{Gives, ReadsRoot, ReadsDocument, ReadsDocuments};
ghost use Rattle.std.specs.Prelude.{◌≡◌, false, map, IfOk};

use crate::fields::{byte, number, slice};
use crate::refusal::ImageRefusal;
use doc_book::Docs;
use node_store::NodeId;
use slp_rebalance::Roots;
use span_types::{Name, NameRefusal};
use std::alloc::Global;

// Whether a document has the name.
fn is_present(docs: &Docs, name: &[u8]) -> bool
    ensures { result ≡ is_among (map (λ d. d.name) docs.now) name.now }
{
    docs.get(name).is_ok()
}

// Reads a name that no earlier document has.
#[tactic(auto, unfolding(crate::specs::Image::name_at))]
fn name<'a>(alloc: Global, bytes: &'a [u8], docs: &Docs) -> Result<(Name, &'a [u8]), ImageRefusal>
    ensures read { Gives (λ x. (x.0, x.1.now)) result (name_at (map (λ d. d.name) docs.now) bytes.now) }
    ensures new { IfOk result (λ x. is_among (map (λ d. d.name) docs.now) x.0 ≡ false) }
{
    let (size, after) = byte(bytes)?;
    let (text, rest) = slice(after, size as usize)?;
    match Name::new(alloc, text) {
        Ok(name) => {
            if is_present(docs, text) {
                return Err(ImageRefusal::RepeatName);
            }
            Ok((name, rest))
        }
        Err(NameRefusal::NotAName) => Err(ImageRefusal::Name),
        Err(NameRefusal::NoMemory) => Err(ImageRefusal::NoMemory),
    }
}

// Reads the root of a document. Eight bytes 0xFF denote the empty text.
fn root<'a>(bytes: &'a [u8], roots: &Roots) -> Result<(Option<NodeId>, &'a [u8]), ImageRefusal>
    ensures { ReadsRoot (λ x. (x.0, x.1.now)) roots.now bytes.now result }
{
    let (index, rest) = number(bytes)?;
    if index == u64::MAX {
        return Ok((None, rest));
    }
    if index >= roots.count() as u64 {
        return Err(ImageRefusal::Root);
    }
    Ok((Some(roots.root(index as usize)), rest))
}

// Reads a document and adds it to those before it.
fn document<'a>(
    alloc: Global,
    bytes: &'a [u8],
    roots: &Roots,
    docs: &mut Docs,
) -> Result<&'a [u8], ImageRefusal>
    ensures { ReadsDocument (λ rest. rest.now) roots.now bytes.now docs.old docs.new result }
{
    let (name, after) = name(alloc, bytes, docs)?;
    let (root, rest) = root(after, roots)?;
    docs.set(alloc, name, root)?;
    Ok(rest)
}

/// Reads all documents. No bytes may be left after the last.
pub(crate) fn documents(alloc: Global, bytes: &[u8], roots: &Roots) -> Result<Docs, ImageRefusal>
    ensures { ReadsDocuments roots.now bytes.now result }
{
    let (count, mut rest) = number(bytes)?;
    let mut docs = Docs::new(alloc);
    for _ in 0..count {
        let after = document(alloc, rest, roots, &mut docs)?;
        rest = after;
    }
    if !rest.is_empty() {
        return Err(ImageRefusal::Rest);
    }
    Ok(docs)
}
