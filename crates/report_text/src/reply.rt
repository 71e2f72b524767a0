// The lines of replies.
ghost use Rattle.report_text.specs.Reply.{doc_text, name_text, number_text, opened_text, query_text, saved_text, shown_text, written_text};
ghost use Rattle.std.specs.Prelude.{◌≡◌, ◌++◌, ◌∷◌, [], IfOk, OnOk, OnErr};

use crate::pieces::{push_counted, push_line, push_number, push_quoted};
use span_types::{Name, NoMemory, Vars};
use std::alloc::Global;

/// Appends `ok NAME LEN "HEAD"` and a newline to `into`. The head's bytes are escaped as in [`shown_line`].
///
/// # Errors
///
/// `NoMemory` if allocation fails; `into` is then unchanged.
pub fn doc_line(
    alloc: Global,
    name: &Name,
    len: u64,
    head: &[u8],
    into: &mut Vec<u8>,
) -> Result<(), NoMemory>
    ensures ok { OnOk result (into.new.items ≡ into.old.items ++ doc_text name.now len head.now) }
    ensures unchanged { OnErr result (into.new.items ≡ into.old.items) }
{
    let mut line = b"ok ".to_vec(alloc)?;
    line.extend_from_slice(name.bytes())?;
    push_counted(b" ", len, &mut line)?;
    line.push(b' ')?;
    push_quoted(head, &mut line)?;
    push_line(line, into)
}

/// Appends `NAME LEN` and a newline to `into`.
///
/// # Errors
///
/// `NoMemory` if allocation fails; `into` is then unchanged.
pub fn name_line(alloc: Global, name: &Name, len: u64, into: &mut Vec<u8>) -> Result<(), NoMemory>
    ensures ok { OnOk result (into.new.items ≡ into.old.items ++ name_text name.now len) }
    ensures unchanged { OnErr result (into.new.items ≡ into.old.items) }
{
    let mut line = name.bytes().to_vec(alloc)?;
    push_counted(b" ", len, &mut line)?;
    push_line(line, into)
}

/// Appends `NUMBER` and a newline to `into`.
///
/// # Errors
///
/// `NoMemory` if allocation fails; `into` is then unchanged.
pub fn number_line(alloc: Global, number: u64, into: &mut Vec<u8>) -> Result<(), NoMemory>
    ensures ok { OnOk result (into.new.items ≡ into.old.items ++ number_text number) }
    ensures unchanged { OnErr result (into.new.items ≡ into.old.items) }
{
    let mut line = Vec::new(alloc);
    push_number(number, &mut line)?;
    push_line(line, into)
}

/// Appends `"BYTES"` and a newline to `into`, in time and memory linear in the bytes. Between the quotes `"` is `\"`,
/// the backslash is `\\`, any other byte from 0x20 to 0x7E stands for itself, and any other is `\x` and two lower-case
/// hexadecimal digits.
///
/// # Errors
///
/// `NoMemory` if allocation fails; `into` is then unchanged.
pub fn shown_line(alloc: Global, bytes: &[u8], into: &mut Vec<u8>) -> Result<(), NoMemory>
    ensures ok { OnOk result (into.new.items ≡ into.old.items ++ shown_text bytes.now) }
    ensures unchanged { OnErr result (into.new.items ≡ into.old.items) }
{
    let mut line = Vec::new(alloc);
    push_quoted(bytes, &mut line)?;
    push_line(line, into)
}

// The line without its newline.
fn query_line_of(alloc: Global, name: &Name, vars: &Vars) -> Result<Vec<u8>, NoMemory>
    ensures { IfOk result (λ line. line.items ++ 10 ∷ [] ≡ query_text name.now vars.now) }
{
    let mut line = Vec::new(alloc);
    line.extend_from_slice(b"ok ")?;
    line.extend_from_slice(name.bytes())?;
    for v in 0..vars.count() {
        line.push(b' ')?;
        line.extend_from_slice(vars.name(v).bytes())?;
    }
    Ok(line)
}

/// Appends `ok NAME`, a space and the name of each variable in number order, and a newline to `into`.
///
/// # Errors
///
/// `NoMemory` if allocation fails; `into` is then unchanged.
pub fn query_line(
    alloc: Global,
    name: &Name,
    vars: &Vars,
    into: &mut Vec<u8>,
) -> Result<(), NoMemory>
    ensures ok { OnOk result (into.new.items ≡ into.old.items ++ query_text name.now vars.now) }
    ensures unchanged { OnErr result (into.new.items ≡ into.old.items) }
{
    let line = query_line_of(alloc, name, vars)?;
    push_line(line, into)
}

/// Appends `ok DOCS NODES` and a newline to `into`.
///
/// # Errors
///
/// `NoMemory` if allocation fails; `into` is then unchanged.
pub fn saved_line(alloc: Global, docs: u64, nodes: u64, into: &mut Vec<u8>) -> Result<(), NoMemory>
    ensures ok { OnOk result (into.new.items ≡ into.old.items ++ saved_text docs nodes) }
    ensures unchanged { OnErr result (into.new.items ≡ into.old.items) }
{
    let mut line = Vec::new(alloc);
    push_counted(b"ok ", docs, &mut line)?;
    push_counted(b" ", nodes, &mut line)?;
    push_line(line, into)
}

// Appends `ok COUNT` and a newline.
fn count_line(alloc: Global, count: u64, into: &mut Vec<u8>) -> Result<(), NoMemory>
    ensures ok { OnOk result (into.new.items ≡ into.old.items ++ opened_text count) }
    ensures unchanged { OnErr result (into.new.items ≡ into.old.items) }
{
    let mut line = Vec::new(alloc);
    push_counted(b"ok ", count, &mut line)?;
    push_line(line, into)
}

/// Appends `ok DOCS` and a newline to `into`.
///
/// # Errors
///
/// `NoMemory` if allocation fails; `into` is then unchanged.
pub fn opened_line(alloc: Global, docs: u64, into: &mut Vec<u8>) -> Result<(), NoMemory>
    ensures ok { OnOk result (into.new.items ≡ into.old.items ++ opened_text docs) }
    ensures unchanged { OnErr result (into.new.items ≡ into.old.items) }
{
    count_line(alloc, docs, into)
}

/// Appends `ok LEN` and a newline to `into`.
///
/// # Errors
///
/// `NoMemory` if allocation fails; `into` is then unchanged.
pub fn written_line(alloc: Global, len: u64, into: &mut Vec<u8>) -> Result<(), NoMemory>
    ensures ok { OnOk result (into.new.items ≡ into.old.items ++ written_text len) }
    ensures unchanged { OnErr result (into.new.items ≡ into.old.items) }
{
    count_line(alloc, len, into)
}
