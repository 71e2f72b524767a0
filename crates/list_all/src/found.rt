//! The pages found.
ghost use Rattle.std.specs.Prelude.{◌≡◌, ◌<◌, Some, map, length, slice_get};

use crate::shared::Shared;
use span_types::Tuple;
use std::marker::Model;

/// The first answers of an automaton on a text, and whether there are more. Contracts see a page as these two values.
#[derive(Drop)]
pub struct OnePage {
    pub(crate) tuples: Vec<Tuple>,
    pub(crate) more: bool,
}

impl Model for OnePage {
    ghost use Rattle.list_all.specs.Page.{Page};

    ghost Value = { Page };

    ghost view = { λ p. record { tuples = p.tuples.items; more = p.more } };
}

impl OnePage {
    /// The answers, in mark order.
    pub fn tuples(&self) -> &[Tuple]
        ensures { result.now ≡ self.now.tuples }
    {
        &self.tuples
    }

    /// Whether there are more answers after these.
    pub fn more(&self) -> bool
        ensures { result ≡ self.now.more }
    {
        self.more
    }
}

/// The pages of several documents, in their order. Contracts see them as a list of pages.
#[derive(Drop)]
pub struct Pages {
    pub(crate) shared: Shared,
}

impl Model for Pages {
    ghost use Rattle.std.specs.Prelude.{◌<◌, List, All, length};
    ghost use Rattle.list_all.specs.Page.{Page};
    ghost use Rattle.list_all.specs.Places.{pages_at};

    ghost Value = { List Page };

    ghost view = { λ p. pages_at p.shared.found.items p.shared.places.items };

    ghost invariant = { λ p. All (λ k. k < length p.shared.found.items) p.shared.places.items };
}

impl Pages {
    /// The number of pages.
    pub fn count(&self) -> usize
        ensures { result ≡ length self.now }
    {
        self.shared.places.len()
    }

    /// The page at index `index`, counted from 0.
    fn page(&self, index: usize) -> &OnePage
        requires { index < length self.now }
        ensures { slice_get self.now index ≡ Some result.now }
    {
        &self.shared.found[self.shared.places[index]]
    }

    /// The answers of the page at index `index`, in mark order. Indices count from 0.
    pub fn tuples(&self, index: usize) -> &[Tuple]
        requires { index < length self.now }
        ensures { slice_get (map (λ p. p.tuples) self.now) index ≡ Some result.now }
    {
        self.page(index).tuples()
    }

    /// Whether there are more answers after those of the page at index `index`, counted from 0.
    pub fn more(&self, index: usize) -> bool
        requires { index < length self.now }
        ensures { slice_get (map (λ p. p.more) self.now) index ≡ Some result }
    {
        self.page(index).more()
    }
}
