//! Names of documents, queries, versions and variables.
ghost use Rattle.span_types.specs.Names.{is_name, is_first_byte, is_later_byte};
ghost use Rattle.std.proofs.Common.{rules};
ghost use Rattle.std.specs.Cmp.Lexicographic.{pointwise};
ghost use Rattle.std.specs.Cmp.Rules.{comparing};
ghost use Rattle.std.specs.List.{list_all};
ghost use Rattle.std.specs.Prelude.{nat_eq};
ghost use Rattle.std.specs.Prelude.{◌≡◌, ◌↔◌, true, false, IfOk, IsErrOf};

use crate::refusal::NoMemory;
use std::alloc::Global;
use std::fmt;
use std::marker::Model;
use thiserror::Error;

/// Why bytes weren't made a name.
#[derive(Clone, Copy, Debug, PartialEq, Eq, Error)]
pub enum NameRefusal {
    /// The bytes aren't a name.
    #[error("not a name")]
    NotAName,

    /// Allocation failed.
    #[error("no memory")]
    NoMemory,
}

/// The name of a document, a query, a version or a variable: 1 to 64 bytes, first an ASCII letter or `_`, then ASCII
/// letters, digits, `_`, `.` or `-`. Contracts see it as the list of its bytes.
#[derive(Debug, Drop)]
pub struct Name {
    text: Vec<u8>,
}

impl Model for Name {
    ghost use Rattle.std.specs.Prelude.{◌≡◌, ℕ, List, true};
    ghost use Rattle.span_types.specs.Names.{is_name};

    ghost Value = { List ℕ };

    ghost view = { λ n. n.text.items };

    ghost invariant = { λ n. is_name n.text.items ≡ true };
}

impl PartialEq for Name {
    ghost eq = { pointwise nat_eq };

    ghost laws = { Prim.search (comparing, rules) depth 9 };

    fn eq(&self, other: &Name) -> bool {
        self.text == other.text
    }
}

impl Eq for Name {
    ghost laws = { Prim.search (comparing, rules) depth 9 };
}

/// The bytes as text: a name is ASCII.
impl fmt::Display for Name {
    fn fmt<W: fmt::Write>(&self, f: &mut fmt::Formatter<W>) -> fmt::Result {
        for byte in &self.text {
            f.write_char(char::from(*byte))?;
        }
        Ok(())
    }
}

impl Name {
    /// The name with these bytes.
    ///
    /// # Errors
    ///
    /// `NotAName` exactly if the bytes aren't a name, and `NoMemory` if allocation fails.
    pub fn new(alloc: Global, bytes: &[u8]) -> Result<Name, NameRefusal>
        ensures ok { IfOk result (λ name. name ≡ bytes.now) }
        ensures named { IfOk result (λ name. is_name name ≡ true) }
        ensures not_a_name { IsErrOf result NameRefusal.NotAName ↔ (is_name bytes.now ≡ false) }
    {
        if !is_well_named(bytes) {
            return Err(NameRefusal::NotAName);
        }
        match bytes.to_vec(alloc) {
            Ok(text) => Ok(Name { text }),
            Err(_) => Err(NameRefusal::NoMemory),
        }
    }

    /// The bytes of the name.
    pub fn bytes(&self) -> &[u8]
        ensures value { result.now ≡ self.now }
        ensures named { is_name self.now ≡ true }
    {
        &self.text
    }

    /// A copy of the name.
    ///
    /// # Errors
    ///
    /// `NoMemory` if allocation fails.
    pub fn copy(&self, alloc: Global) -> Result<Name, NoMemory>
        ensures { IfOk result (λ copy. copy ≡ self.now) }
    {
        Ok(Name {
            text: self.text.as_slice().to_vec(alloc)?,
        })
    }
}

/// Whether a byte may be the first of a name.
fn starts_name(b: u8) -> bool
    ensures { result ≡ is_first_byte b }
{
    matches!(b, b'A'..=b'Z' | b'a'..=b'z' | b'_')
}

/// Whether a byte may occur in a name after its first.
fn goes_on_name(b: u8) -> bool
    ensures { result ≡ is_later_byte b }
{
    starts_name(b) || matches!(b, b'0'..=b'9' | b'.' | b'-')
}

/// Whether bytes are a name, in time linear in their number.
pub fn is_well_named(bytes: &[u8]) -> bool
    ensures { result ≡ is_name bytes.now }
{
    let Some(first) = bytes.first() else {
        return false;
    };
    if !starts_name(*first) || bytes.len() > 64 {
        return false;
    }
    all_go_on_name(bytes)
}

fn all_go_on_name(bytes: &[u8]) -> bool
    ensures { result ≡ list_all is_later_byte bytes.now }
{
    bytes.iter().all(|b| goes_on_name(*b))
}
