//! A query in hand: found once by its name, and evaluated without further lookups of it.
ghost use Rattle.marker_dfa.specs.Deterministic.{IsDeterministic};
ghost use Rattle.query_book.specs.Answers.{Defines, HasAnswer, HasList, IsAnswer, IsListingOf};
ghost use Rattle.query_book.specs.Book.{IsMissing, queries_of};
ghost use Rattle.query_book.specs.InHand.{HasAnswersIn};
ghost use Rattle.query_book.specs.Named.{value_of};
ghost use Rattle.query_book.specs.Parts.{HasAnswersOf};
ghost use Rattle.query_book.specs.Serving.{CoversQuery, HasCounts};
ghost use Rattle.slp_model.specs.Nodes.{IsLive, text_of};
ghost use Rattle.span_enum.specs.Listing.{IsReady};
ghost use Rattle.span_types.specs.Fibonacci.{looks_limit};
ghost use Rattle.span_types.specs.Query.{query_of};
ghost use Rattle.span_types.specs.Rel.{names_of};
ghost use Rattle.state_tables.specs.Dictionary.{AreTables};
ghost use Rattle.std.specs.Prelude.{◌≡◌, ◌↔◌, ℕ, ◌+◌, ◌*◌, ◌<◌, ◌≤◌, None, Some, All, length, IfOk, IfErr, IsTrue};

use crate::book::QueryBook;
use crate::entry::TabledQuery;
use crate::refusal::BookRefusal;
use marker_dfa::Dfa;
use node_store::{NodeId, Store};
use span_enum::{Answers, has, nonempty};
use span_types::{NoMemory, Steps, Tuple, Vars};
use state_tables::View;
use std::alloc::Global;
use std::marker::Model;
use std::sync::ledger::Ledger;

/// A query of a registry, with its tables for all nodes of a store. Contracts see it as the query's tree, its automaton,
/// the nodes, and the number of nodes with counting tables.
#[derive(Drop)]
pub struct Ready<'a> {
    pub(crate) tabled: &'a TabledQuery,
    pub(crate) store: &'a Store,
}

impl<'a> Model for Ready<'a> {
    ghost use Rattle.query_book.specs.InHand.{HasAllTables, ReadyQuery};
    ghost use Rattle.query_book.specs.Counting.{counts_in};
    ghost use Rattle.span_types.specs.contracts.query.QueryTree as query_tree;
    ghost use Rattle.std.specs.Coded.{codes};

    ghost Value = { ReadyQuery };

    ghost coded = { Prim.hlevel (codes, query_tree.the_row.coded) };

    ghost view = { λ r. record { tree = r.tabled.now.query.tree; automaton = r.tabled.now.query.dfa; nodes = r.store.now; counted = counts_in r.tabled.now } };

    ghost invariant = { λ r. HasAllTables r.store.now r.tabled.now };
}

impl QueryBook {
    /// The query with this name, for evaluation on the texts of the store. Each node of the store must have its table
    /// in this query. Allocates nothing. Takes time logarithmic in the number of queries, and the calls on the result
    /// need no further lookup of the name.
    ///
    /// # Errors
    ///
    /// `NoSuchQuery` exactly if no query has the name.
    pub fn ready<'a>(&'a self, name: &[u8], store: &'a Store) -> Result<Ready<'a>, BookRefusal>
        requires { CoversQuery store.now self.now name.now }
        ensures query { IfOk result (λ r. value_of (queries_of self.now) name.now ≡ Some (query_of r.tree)) }
        ensures store { IfOk result (λ r. r.nodes ≡ store.now) }
        ensures counted { IfOk result (λ r. (n : ℕ) → HasCounts n self.now name.now → r.counted ≡ Some n) }
        ensures missing { IfErr result (IsMissing (queries_of self.now) name.now) }
    {
        let _nodes = store.count();
        let tabled = self.tabled(name)?;
        Ok(Ready { tabled, store })
    }
}

impl<'a> Ready<'a> {
    /// The names of the query's variables, in the order of their numbers.
    pub fn vars(&self) -> &'a Vars
        ensures { result.now ≡ names_of (query_of self.now.tree) }
    {
        &self.tabled.query.vars
    }

    /// The view of the store's nodes with their tables of the query's automaton.
    pub fn view(&self) -> View<'a>
        ensures store { result.store.now ≡ self.now.nodes }
        ensures tables { AreTables self.now.automaton self.now.nodes result.tables.now }
    {
        self.tabled.tables.view(self.store)
    }

    /// The query's automaton. It has the query's variables. On each text of the store it has the query's answers, as on
    /// each other text of at most 2^48 bytes.
    pub fn dfa(&self) -> &'a Dfa
        ensures dfa { result.now ≡ self.now.automaton }
        ensures automaton { IsDeterministic result.now }
        ensures query { HasAnswersOf result.now (query_of self.now.tree) }
        ensures texts { HasAnswersIn self.now.nodes result.now (query_of self.now.tree) }
    {
        let _states = self.tabled.query.dfa.states();
        &self.tabled.query.dfa
    }

    /// An iterator over the query's answers on the root's text, before the first one. The root is one of the nodes or
    /// `None`. For k variables and a text of n bytes it takes at most B(k, n) table lookups, which `looks` counts.
    ///
    /// # Errors
    ///
    /// `NoMemory` if allocation fails.
    pub fn start<L: Ledger>(
        &self,
        alloc: Global,
        root: Option<NodeId>,
        looks: &mut Steps<L>,
    ) -> Result<Answers<'a>, NoMemory>
        requires { IsLive self.now.nodes root }
        ensures listing { IfOk result (λ a. IsListingOf (text_of self.now.nodes root) None a (query_of self.now.tree)) }
        ensures list { HasList (text_of self.now.nodes root) None (query_of self.now.tree) }
        ensures cost { looks.new ≤ looks.old + looks_limit (length (names_of (query_of self.now.tree))) (length (text_of self.now.nodes root)) }
    {
        let (view, dfa) = self.input(root);
        Answers::start(alloc, view, dfa, root, looks)
    }

    /// An iterator over the query's answers on the root's text, before the first one that comes strictly after the
    /// tuple. The tuple needn't be an answer, and its spans may lie beyond the text. It must have as many variables as
    /// the query, and the root is one of the nodes or `None`. For k variables and a text of n bytes it takes at most
    /// 2·B(k, n) table lookups, which `looks` counts.
    ///
    /// # Errors
    ///
    /// `NoMemory` if allocation fails.
    pub fn seek<L: Ledger>(
        &self,
        alloc: Global,
        root: Option<NodeId>,
        after: &Tuple,
        looks: &mut Steps<L>,
    ) -> Result<Answers<'a>, NoMemory>
        requires live { IsLive self.now.nodes root }
        requires tuple { length after.now ≡ length (names_of (query_of self.now.tree)) }
        ensures listing { IfOk result (λ a. IsListingOf (text_of self.now.nodes root) (Some after.now) a (query_of self.now.tree)) }
        ensures list { HasList (text_of self.now.nodes root) (Some after.now) (query_of self.now.tree) }
        ensures cost { looks.new ≤ looks.old + 2 * looks_limit (length (names_of (query_of self.now.tree))) (length (text_of self.now.nodes root)) }
    {
        let _count = after.count();
        let (view, dfa) = self.input(root);
        Answers::seek(alloc, view, dfa, root, after, looks)
    }

    /// Whether the query has an answer on the root's text. The root is one of the nodes or `None`. Allocates nothing.
    /// For k variables and a text of n bytes it takes at most B(k, n) table lookups, which `looks` counts.
    pub fn test<L: Ledger>(&self, root: Option<NodeId>, looks: &mut Steps<L>) -> bool
        requires { IsLive self.now.nodes root }
        ensures answer { IsTrue result ↔ HasAnswer (query_of self.now.tree) (text_of self.now.nodes root) }
        ensures cost { looks.new ≤ looks.old + looks_limit (length (names_of (query_of self.now.tree))) (length (text_of self.now.nodes root)) }
    {
        let (view, dfa) = self.input(root);
        nonempty(view, dfa, root, looks)
    }

    /// Whether the tuple is an answer of the query on the root's text. The tuple must have as many variables as the
    /// query, and the root is one of the nodes or `None`. Allocates nothing. For k variables and a text of n bytes it
    /// takes at most B(k, n) table lookups, which `looks` counts.
    pub fn has<L: Ledger>(&self, root: Option<NodeId>, tuple: &Tuple, looks: &mut Steps<L>) -> bool
        requires live { IsLive self.now.nodes root }
        requires tuple { length tuple.now ≡ length (names_of (query_of self.now.tree)) }
        ensures answer { IsTrue result ↔ IsAnswer (query_of self.now.tree) (text_of self.now.nodes root) tuple.now }
        ensures cost { looks.new ≤ looks.old + looks_limit (length (names_of (query_of self.now.tree))) (length (text_of self.now.nodes root)) }
    {
        let (view, dfa) = self.input(root);
        has(view, dfa, root, tuple, looks)
    }

    /// The view and the automaton, for an evaluation on the root's text. Reads no node and no table.
    fn input(&self, root: Option<NodeId>) -> (View<'a>, &'a Dfa)
        requires { IsLive self.now.nodes root }
        ensures ready { IsReady result.1.now result.0.store.now result.0.tables.now root }
        ensures store { result.0.store.now ≡ self.now.nodes }
        ensures query { Defines (query_of self.now.tree) result.1.now }
        ensures automaton { IsDeterministic result.1.now }
        ensures bytes { All (λ b. b < 256) (text_of self.now.nodes root) }
        ensures short { length (text_of self.now.nodes root) ≤ 281474976710656 }
    {
        let _states = self.tabled.query.dfa.states();
        (self.tabled.tables.view(self.store), &self.tabled.query.dfa)
    }
}
