//! Fields, records and documents as bytes.
ghost use Rattle.byteorder.specs.Endian.{big_bytes};
ghost use Rattle.slp_image.specs.Saved.{AreSaved, KeepsRoots};
ghost use Rattle.slp_image.specs.Written.{node_bytes, records_bytes, document_bytes};
ghost use Rattle.slp_model.specs.Distinct.{AreDistinct};
ghost use Rattle.slp_model.specs.Kept.{IsPlanOf, IsKeptRoot};
ghost use Rattle.slp_model.specs.Thin.{rank, thin, IsCompactionOf};
ghost use Rattle.span_types.specs.Names.{is_name};
ghost use Rattle.std.specs.Prelude.{◌≡◌, ◌<◌, ◌^◌, true, [], ◌∷◌, ◌++◌, length, option_map, OnOk};

use byteorder::{BigEndian, ByteOrder};
use doc_book::Docs;
use node_store::{Moves, Node, NodeId, Store};
use span_types::{Name, NoMemory};

// Appends a byte.
fn push_byte(out: &mut Vec<u8>, b: u8) -> Result<(), NoMemory>
    ensures { OnOk result (out.new.items ≡ out.old.items ++ b ∷ []) }
{
    out.push(b).map_err(|_| NoMemory)
}

/// Appends a number as eight bytes, big-endian.
pub(crate) fn push_number(out: &mut Vec<u8>, n: u64) -> Result<(), NoMemory>
    ensures { OnOk result (out.new.items ≡ out.old.items ++ big_bytes 8 n) }
{
    let mut cell = [0u8; 8];
    BigEndian::write_u64(&mut cell, n);
    out.extend_from_slice(&cell).map_err(|_| NoMemory)?;
    Ok(())
}

// Appends a record of version 1.
fn push_node(out: &mut Vec<u8>, node: Node) -> Result<(), NoMemory>
    ensures { OnOk result (out.new.items ≡ out.old.items ++ node_bytes node) }
{
    match node {
        Node::Byte(b) => {
            out.extend_from_slice(&[0, b]).map_err(|_| NoMemory)?;
            Ok(())
        }
        Node::Pair(left, right) => {
            push_byte(out, 1)?;
            push_number(out, left.index as u64)?;
            push_number(out, right.index as u64)?;
            Ok(())
        }
    }
}

/// Appends the records of the store's kept nodes, in their order and with their new numbers.
pub(crate) fn push_nodes(out: &mut Vec<u8>, store: &Store, moves: &Moves) -> Result<(), NoMemory>
    requires plan { IsPlanOf store.now moves.now }
    ensures bytes { OnOk result (out.new.items ≡ out.old.items ++ records_bytes (thin store.now moves.now)) }
    ensures thin { OnOk result (IsCompactionOf store.now moves.now (thin store.now moves.now)) }
    ensures distinct { OnOk result (AreDistinct (thin store.now moves.now)) }
    ensures few { OnOk result (length (thin store.now moves.now) < 2 ^ 64) }
{
    for index in 0..store.count() {
        let id = NodeId { index };
        if moves.kept(id) {
            push_node(out, moves.renumbered(store.node(id)))?;
        }
    }
    Ok(())
}

// Appends a document: the length of its name, the name, and the number of its root. Eight bytes 0xFF denote the empty
// text.
fn push_document(out: &mut Vec<u8>, name: &Name, root: Option<u64>) -> Result<(), NoMemory>
    ensures bytes { OnOk result (out.new.items ≡ out.old.items ++ document_bytes (record { name = name.now; root = root })) }
    ensures named { OnOk result (is_name name.now ≡ true) }
{
    let text = name.bytes();
    push_byte(out, text.len() as u8)?;
    out.extend_from_slice(text).map_err(|_| NoMemory)?;
    push_number(out, root.unwrap_or(u64::MAX))
}

// The new number of a root.
fn number_of(root: Option<NodeId>, moves: &Moves) -> Option<u64>
    requires { IsKeptRoot moves.now root }
    ensures { result ≡ option_map (λ id. rank moves.now id.index) root }
{
    match root {
        Some(id) => Some(moves.moved(id).index as u64),
        None => None,
    }
}

/// Appends all documents, with the new numbers of their roots.
pub(crate) fn push_documents(out: &mut Vec<u8>, docs: &Docs, moves: &Moves) -> Result<(), NoMemory>
    requires { KeepsRoots moves.now docs.now }
    ensures { OnOk result (AreSaved (rank moves.now) docs.now (length docs.now) out.old.items out.new.items) }
{
    for index in 0..docs.count() {
        let (name, root) = docs.at(index);
        push_document(out, name, number_of(root, moves))?;
    }
    Ok(())
}
