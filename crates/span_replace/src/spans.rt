//! The spans that are replaced.
ghost use Rattle.std.specs.Prelude.{◌≡◌, ◌≤◌, length};

use span_types::Span;
use std::marker::Model;

/// Spans of a text from the left, at most 32,768 of them. Contracts see it as their list.
#[derive(Drop, Debug)]
pub struct Chosen {
    pub(crate) spans: Vec<Span>,
}

impl Model for Chosen {
    ghost use Rattle.std.specs.Prelude.{List};
    ghost use Rattle.span_types.specs.declared.tuple.Span.{Span};

    ghost Value = { List Span };

    ghost view = { λ c. c.spans.items };

    ghost use Rattle.std.specs.Prelude.{◌≤◌, length};

    ghost invariant = { λ c. length c.spans.items ≤ 32768 };
}

impl Chosen {
    /// The spans, from the left.
    pub fn spans(&self) -> &[Span]
        ensures value { result.now ≡ self.now }
        ensures few { length self.now ≤ 32768 }
    {
        &self.spans
    }
}
