//! Tests of editing expressions.
ghost use Rattle.doc_book.specs.Texts.{AreLive};
ghost use Rattle.std.specs.Prelude.{◌≡◌, ◌<◌, IfOk};

use crate::tests::tried::{Scratch, joined, says};
use doc_book::Docs;
use edit_expr::{EditRefusal, ExprRefusal, eval, read};
use node_store::Store;
use slp_model::{Node, NodeId};
use span_types::{Name, NoMemory};
use std::alloc::{AllocError, Global};
use std::marker::Brand;
use std::sync::ledger::{Blank, Ledger};
use std::test::Fail;

const EXPRESSIONS: [&[u8]; 11] = [
    b"a",
    b" a.b-c_9 ",
    b"concat",
    b"concat(a,b)",
    b"  concat  (  a  ,  b  )  ",
    b"concat (a,b)",
    b"concat(concat,copy)",
    b"extract(d,0,18446744073709551615)",
    b"delete(d,1,5)",
    b"insert(d,concat(d,e),3)",
    b"copy( d , 1 , 3 , 5 )",
];

/// Why a text writes no expression, or `None` if it writes one.
fn refusal(alloc: Global, text: &[u8]) -> Option<ExprRefusal> {
    match read(alloc, text) {
        Ok(_) => None,
        Err(why) => Some(why),
    }
}

#[test]
fn texts_that_write_one(rt: HostRuntime) {
    for text in EXPRESSIONS {
        assert!(rt; refusal(rt.alloc(), text) == None, "{text:?}");
    }
}

const OTHERS: [&[u8]; 25] = [
    b"",
    b"  ",
    b"1",
    b"9a",
    b"a b",
    b"a,b",
    b"\ta",
    b"concat(a b)",
    b"concat(a)",
    b"concat(a,b",
    b"concat(a,b))",
    b"concat(a,b)c",
    b"concat(a,b,c)",
    b"concat(,b)",
    b"con cat(a,b)",
    b"Concat(a,b)",
    b"join(a,b)",
    b"(a)",
    b"extract(d,1)",
    b"extract(d,1,02)",
    b"extract(d,1,18446744073709551616)",
    b"delete(1,1,1)",
    b"insert(d,3)",
    b"insert(d,e)",
    b"copy(d,1,3)",
];

#[test]
fn texts_that_write_none(rt: HostRuntime) {
    for text in OTHERS {
        assert!(rt;
            refusal(rt.alloc(), text) == Some(ExprRefusal::Syntax),
            "{text:?}"
        );
    }
}

#[test]
fn nesting(rt: HostRuntime) {
    assert!(rt; refusal_of_nested(rt.alloc(), 64) == Ok(None));
    assert!(rt; refusal_of_nested(rt.alloc(), 65) == Ok(Some(ExprRefusal::Syntax)));
}

fn refusal_of_nested(alloc: Global, depth: u8) -> Result<Option<ExprRefusal>, AllocError> {
    let text = nested(alloc, depth)?;
    Ok(refusal(alloc, &text))
}

/// The text of an expression nested this deep.
fn nested(alloc: Global, depth: u8) -> Result<Vec<u8>, AllocError> {
    let mut text = Vec::new(alloc);
    for _ in 0..depth {
        text.extend_from_slice(b"extract(")?;
    }
    text.push(b'd')?;
    for _ in 0..depth {
        text.extend_from_slice(b",1,1)")?;
    }
    Ok(text)
}

/// Expressions with `d` = `ab`, and their values or errors.
const VALUES: &[(&[u8], Result<&[u8], &str>)] = &[
    (b"d", Ok(b"ab")),
    (b"concat(d,d)", Ok(b"abab")),
    (b"copy(concat(d,d),1,3,5)", Ok(b"ababab")),
    (b"copy(d,2,3,1)", Ok(b"bab")),
    (b"insert(d,concat(d,d),2)", Ok(b"aababb")),
    (b"extract(d,2,3)", Ok(b"b")),
    (b"extract(d,3,3)", Ok(b"")),
    (b"delete(concat(d,d),2,4)", Ok(b"ab")),
    (b"delete(d,1,3)", Ok(b"")),
    (b"nope", Err("no document is named nope")),
    (b"concat(d,nope)", Err("no document is named nope")),
    (
        b"extract(d,3,2)",
        Err("the range 3 to 2 is not within 2 bytes"),
    ),
    (
        b"delete(d,0,1)",
        Err("the range 0 to 1 is not within 2 bytes"),
    ),
    (
        b"copy(d,1,4,9)",
        Err("the range 1 to 4 is not within 2 bytes"),
    ),
    (
        b"copy(d,1,3,4)",
        Err("the range 4 to 4 is not within 2 bytes"),
    ),
    (b"insert(d,nope,9)", Err("no document is named nope")),
];

/// Whether an expression has this value or error.
fn is_value(alloc: Global, text: &[u8], want: Result<&[u8], &str>) -> Result<bool, AllocError> {
    match edited::<Brand>(alloc, text, Blank::new(1)) {
        Ok(bytes) => Ok(want == Ok(bytes.as_slice())),
        Err(why) => match want {
            Ok(_) => Ok(false),
            Err(text) => says(alloc, why, text),
        },
    }
}

#[test]
fn values(rt: HostRuntime) {
    for (text, want) in VALUES {
        assert!(rt; is_value(rt.alloc(), text, *want) == Ok(true), "{text:?}");
    }
}

#[test]
fn texts_of_refusals(rt: HostRuntime) -> Result<(), Fail> {
    let alloc = rt.alloc();
    let long = EditRefusal::TooLong {
        len: 281_474_976_710_657,
    };
    for (refusal, want) in [
        (long, "a text of 281474976710657 bytes is too long"),
        (EditRefusal::NoMemory, "no memory"),
    ] {
        assert!(rt; says(alloc, refusal, want)?);
    }
    for (refusal, want) in [
        (ExprRefusal::Syntax, "not an editing expression"),
        (ExprRefusal::NoMemory, "no memory"),
    ] {
        assert!(rt; says(alloc, refusal, want)?);
    }
    Ok(())
}

/// The document `d`, whose text is `ab`.
fn docs_of_ab<L: Ledger>(scratch: &mut Scratch<L>) -> Result<Docs, NoMemory>
    ensures { IfOk result (AreLive scratch.new.store) }
{
    let a = scratch.store.byte(b'a')?;
    let b = scratch.store.byte(b'b')?;
    let root = joined(scratch, a, b)?;
    let name = Name::new(scratch.alloc, b"d").map_err(|_| NoMemory)?;
    let mut docs = Docs::new(scratch.alloc);
    docs.set(scratch.alloc, name, Some(root))?;
    Ok(docs)
}

/// The value of an expression over these documents.
fn value_of<L: Ledger>(
    scratch: &mut Scratch<L>,
    docs: &Docs,
    text: &[u8],
) -> Result<Option<NodeId>, EditRefusal>
    requires { AreLive scratch.old.store docs.now }
{
    let alloc = scratch.alloc;
    match read(alloc, text) {
        Ok(expr) => eval(alloc, &expr, docs, &mut scratch.store, &mut scratch.pairs),
        Err(_) => Err(EditRefusal::NoMemory),
    }
}

/// The bytes of an expression's value, with the document `d` = `ab`.
fn bytes_of_value<L: Ledger>(
    scratch: &mut Scratch<L>,
    text: &[u8],
) -> Result<Vec<u8>, EditRefusal> {
    let docs = docs_of_ab(scratch)?;
    let root = value_of(scratch, &docs, text)?;
    bytes_of(scratch.alloc, &scratch.store, root).map_err(|_| EditRefusal::NoMemory)
}

fn edited<L: Ledger>(alloc: Global, text: &[u8], blank: Blank) -> Result<Vec<u8>, EditRefusal>
    requires { (blank.name ≡ L.name) × (blank.parts ≡ L.parts) × (0 < L.parts) }
{
    let mut scratch = Scratch::<L>::new(alloc, blank);
    bytes_of_value(&mut scratch, text)
}

/// The bytes of a root's text, which must be short.
fn bytes_of(alloc: Global, store: &Store, root: Option<NodeId>) -> Result<Vec<u8>, AllocError> {
    let mut bytes = Vec::new(alloc);
    let mut open = Vec::new(alloc);
    if let Some(id) = root {
        open.push(id)?;
    }
    for _ in 0..100 {
        let Some(id) = open.pop() else {
            return Ok(bytes);
        };
        if id.index >= store.count() {
            return Ok(bytes);
        }
        match store.node(id) {
            Node::Byte(b) => bytes.push(b)?,
            Node::Pair(left, right) => {
                open.push(right)?;
                open.push(left)?;
            }
        }
    }
    Ok(bytes)
}
