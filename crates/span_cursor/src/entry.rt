// Entries at the start of a text.
ghost use Rattle.span_cursor.specs.Entries.{Entry, NextEntry};
ghost use Rattle.span_cursor.specs.Tuples.{bounds_text, value_text};
ghost use Rattle.span_types.specs.Places.{IsSpan, IsSpanOr};
ghost use Rattle.span_types.specs.declared.tuple.Span.{Span as OneSpan};
ghost use Rattle.std.specs.Prelude.{◌≡◌, ◌++◌, ◌∷◌, ℕ, List, Option, MatchOption};

use line_parts::{cut_at, is_same, number};
use span_types::{Span, is_well_named};

/// The greatest bound: one past the last byte of a text of 2^48 bytes.
const MAX_BOUND: u64 = (1 << 48) + 1;

/// `NUM,NUM)`, and the rest of the text.
fn span_at(text: &[u8]) -> Option<(Span, &[u8])>
    ensures { MatchOption result
        ((span : OneSpan) (rest : List ℕ) → IsSpan span → text.now ≡ bounds_text span ++ rest → ⊥)
        (λ p. IsSpan p.0 × (text.now ≡ bounds_text p.0 ++ p.1.now)) }
{
    let (first, rest) = cut_at(text, b',')?;
    let (last, rest) = cut_at(rest, b')')?;
    let start = number(first)?;
    let end = number(last)?;
    if start == 0 {
        return None;
    }
    if end < start {
        return None;
    }
    if end > MAX_BOUND {
        return None;
    }
    Some((Span { start, end }, rest))
}

/// `-` or `[NUM,NUM)`, and the rest of the text.
fn value_at(text: &[u8]) -> Option<(Option<Span>, &[u8])>
    ensures { MatchOption result
        ((value : Option OneSpan) (rest : List ℕ) → IsSpanOr value → text.now ≡ value_text value ++ rest → ⊥)
        (λ p. IsSpanOr p.0 × (text.now ≡ value_text p.0 ++ p.1.now)) }
{
    let (first, behind) = text.split_first()?;
    if *first == b'-' {
        return Some((None, behind));
    }
    if *first != b'[' {
        return None;
    }
    let (span, rest) = span_at(behind)?;
    Some((Some(span), rest))
}

/// An entry of any name, and the rest of the text.
pub fn entry_at(text: &[u8]) -> Option<(&[u8], Option<Span>, &[u8])>
    ensures { MatchOption result
        ((name : List ℕ) (value : Option OneSpan) (rest : List ℕ) → Entry text.now name value rest → ⊥)
        (λ p. Entry text.now p.0.now p.1 p.2.now) }
{
    let (name, behind) = cut_at(text, b'=')?;
    if !is_well_named(name) {
        return None;
    }
    let (value, rest) = value_at(behind)?;
    Some((name, value, rest))
}

/// An entry of this name, and the rest of the text.
pub fn entry_of<'a>(text: &'a [u8], name: &[u8]) -> Option<(Option<Span>, &'a [u8])>
    ensures { MatchOption result
        ((value : Option OneSpan) (rest : List ℕ) → Entry text.now name.now value rest → ⊥)
        (λ p. Entry text.now name.now p.0 p.1.now) }
{
    let (found, value, rest) = entry_at(text)?;
    if !is_same(found, name) {
        return None;
    }
    Some((value, rest))
}

/// A comma and an entry of this name, and the rest of the text.
pub fn next_entry_of<'a>(text: &'a [u8], name: &[u8]) -> Option<(Option<Span>, &'a [u8])>
    ensures { MatchOption result
        ((value : Option OneSpan) (rest : List ℕ) → NextEntry text.now name.now value rest → ⊥)
        (λ p. NextEntry text.now name.now p.0 p.1.now) }
{
    let (first, behind) = text.split_first()?;
    if *first != b',' {
        return None;
    }
    entry_of(behind, name)
}
