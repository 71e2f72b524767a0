//! Numbers of answers, and the answers from a position on.
ghost use Rattle.count_tables.specs.Number.{IsCounted};
ghost use Rattle.query_book.specs.Answers.{HasList, HasVariablesOf, IfNamed, IsNamed, most_looks};
ghost use Rattle.query_book.specs.Book.{IsMissing, queries_of};
ghost use Rattle.query_book.specs.InHand.{HasAllCounts};
ghost use Rattle.query_book.specs.Named.{value_of};
ghost use Rattle.query_book.specs.Numbers.{IsCursorAt, IsListingAt, IsNumberOf, IsRankOf, IsSaturated};
ghost use Rattle.query_book.specs.Serving.{Covers, HasCounts, Serves};
ghost use Rattle.slp_model.specs.Nodes.{IsLive, text_of};
ghost use Rattle.span_types.specs.Fibonacci.{looks_limit};
ghost use Rattle.span_types.specs.Query.{query_of};
ghost use Rattle.span_types.specs.Rel.{names_of};
ghost use Rattle.std.specs.Prelude.{◌≡◌, ◌↔◌, ◌-◌, ◌+◌, ◌*◌, ◌^◌, ◌≤◌, IfErr, IfOk, IsErrOf, None, Some, length};

use crate::book::QueryBook;
use crate::entry::TabledQuery;
use crate::in_hand::Ready;
use crate::refusal::BookRefusal;
use count_tables::CountTables;
use node_store::{NodeId, Store};
use span_enum::Answers;
use span_types::{NoMemory, Steps, Tuple};
use std::alloc::Global;
use std::sync::ledger::Ledger;

/// The counting tables of a query that has some.
fn counts_of<'a>(tabled: &'a TabledQuery, store: &Store, root: Option<NodeId>) -> &'a CountTables
    requires counts { HasAllCounts store.now tabled.now }
    requires live { IsLive store.now root }
    ensures { IsCounted tabled.now.query.dfa store.now result.now root }
{
    // Each node has its counting table.
    tabled.counts.as_ref().unwrap()
}

/// How many answers the query has on the root's text.
fn number_of(tabled: &TabledQuery, store: &Store, root: Option<NodeId>) -> u64
    requires counts { HasAllCounts store.now tabled.now }
    requires live { IsLive store.now root }
    ensures { IsSaturated (IsNumberOf (query_of tabled.now.query.tree) (text_of store.now root)) result }
{
    let (_nodes, _states) = (store.count(), tabled.query.dfa.states());
    counts_of(tabled, store, root).number(store, &tabled.query.dfa, root)
}

/// How many answers of the query on the root's text come before the tuple.
fn rank_of<L: Ledger>(
    alloc: Global,
    tabled: &TabledQuery,
    store: &Store,
    root: Option<NodeId>,
    tuple: &Tuple,
    looks: &mut Steps<L>,
) -> Result<u64, NoMemory>
    requires counts { HasAllCounts store.now tabled.now }
    requires live { IsLive store.now root }
    requires tuple { length tuple.now ≡ length (names_of (query_of tabled.now.query.tree)) }
    ensures rank { IfOk result (IsSaturated (IsRankOf (query_of tabled.now.query.tree) (text_of store.now root) tuple.now)) }
    ensures list { HasList (text_of store.now root) None (query_of tabled.now.query.tree) }
    ensures cost { looks.new ≤ looks.old + looks_limit (length (names_of (query_of tabled.now.query.tree))) (length (text_of store.now root)) }
{
    let (_nodes, _states) = (store.count(), tabled.query.dfa.states());
    let counts = counts_of(tabled, store, root);
    counts.rank(alloc, store, &tabled.query.dfa, root, tuple, looks)
}

/// A cursor before the answer at position `m`, counted from 1. It is past all answers if there are fewer.
fn cursor_at<L: Ledger>(
    alloc: Global,
    tabled: &TabledQuery,
    store: &Store,
    root: Option<NodeId>,
    m: u64,
    looks: &mut Steps<L>,
) -> Result<Option<Tuple>, NoMemory>
    requires counts { HasAllCounts store.now tabled.now }
    requires live { IsLive store.now root }
    requires first { 1 ≤ m }
    requires last { m ≤ 2 ^ 64 - 2 }
    ensures cursor { IfOk result (IsCursorAt (text_of store.now root) m (query_of tabled.now.query.tree)) }
    ensures list { HasList (text_of store.now root) None (query_of tabled.now.query.tree) }
    ensures cost { looks.new ≤ looks.old + looks_limit (length (names_of (query_of tabled.now.query.tree))) (length (text_of store.now root)) }
{
    let dfa = &tabled.query.dfa;
    let (_nodes, variables) = (store.count(), dfa.variables());
    let counts = counts_of(tabled, store, root);
    if m == 1 {
        return Ok(None);
    }
    match counts.nth(alloc, store, dfa, root, m - 1, looks)? {
        Some(answer) => Ok(Some(answer)),
        // It has no marks, so each other tuple comes before it.
        None => Ok(Some(Tuple::none(variables))),
    }
}

impl<'a> Ready<'a> {
    /// How many answers the query has on the root's text. `u64::MAX` stands for itself and for every greater number. The
    /// root is one of the nodes or `None`, and each node must have its counting table. Reads the table of the root alone,
    /// and allocates nothing. Takes time linear in the number of states.
    pub fn count(&self, root: Option<NodeId>) -> u64
        requires live { IsLive self.now.nodes root }
        requires counted { self.now.counted ≡ Some (length self.now.nodes) }
        ensures { IsSaturated (IsNumberOf (query_of self.now.tree) (text_of self.now.nodes root)) result }
    {
        number_of(self.tabled, self.store, root)
    }

    /// How many answers of the query on the root's text come before the tuple in mark order. `u64::MAX` stands for itself
    /// and for every greater number. The tuple needn't be an answer, and its spans may lie beyond the text. It must have
    /// as many variables as the query. The root is one of the nodes or `None`, and each node must have its counting
    /// table. For k variables and a text of n bytes it takes at most B(k, n) table lookups, which `looks` counts.
    ///
    /// # Errors
    ///
    /// `NoMemory` if allocation fails.
    pub fn rank<L: Ledger>(
        &self,
        alloc: Global,
        root: Option<NodeId>,
        tuple: &Tuple,
        looks: &mut Steps<L>,
    ) -> Result<u64, NoMemory>
        requires live { IsLive self.now.nodes root }
        requires counted { self.now.counted ≡ Some (length self.now.nodes) }
        requires tuple { length tuple.now ≡ length (names_of (query_of self.now.tree)) }
        ensures rank { IfOk result (IsSaturated (IsRankOf (query_of self.now.tree) (text_of self.now.nodes root) tuple.now)) }
        ensures list { HasList (text_of self.now.nodes root) None (query_of self.now.tree) }
        ensures cost { looks.new ≤ looks.old + looks_limit (length (names_of (query_of self.now.tree))) (length (text_of self.now.nodes root)) }
    {
        rank_of(alloc, self.tabled, self.store, root, tuple, looks)
    }

    /// An iterator over the query's answers on the root's text from the one at position `m` on, counted from 1. It
    /// returns nothing if there are fewer answers. The position is below `u64::MAX`. The root is one of the nodes or
    /// `None`, and each node must have its counting table. For k variables and a text of n bytes it takes at most
    /// 3·B(k, n) table lookups, which `looks` counts.
    ///
    /// # Errors
    ///
    /// `NoMemory` if allocation fails.
    pub fn start_at<L: Ledger>(
        &self,
        alloc: Global,
        root: Option<NodeId>,
        m: u64,
        looks: &mut Steps<L>,
    ) -> Result<Answers<'a>, NoMemory>
        requires live { IsLive self.now.nodes root }
        requires counted { self.now.counted ≡ Some (length self.now.nodes) }
        requires first { 1 ≤ m }
        requires last { m ≤ 2 ^ 64 - 2 }
        ensures listing { IfOk result (λ a. IsListingAt (text_of self.now.nodes root) m a (query_of self.now.tree)) }
        ensures list { HasList (text_of self.now.nodes root) None (query_of self.now.tree) }
        ensures cost { looks.new ≤ looks.old + 3 * looks_limit (length (names_of (query_of self.now.tree))) (length (text_of self.now.nodes root)) }
    {
        let Some(before) = cursor_at(alloc, self.tabled, self.store, root, m, looks)? else {
            return self.start(alloc, root, looks);
        };
        self.seek(alloc, root, &before, looks)
    }
}

impl QueryBook {
    /// How many answers the query with this name has on the root's text. `u64::MAX` stands for itself and for every
    /// greater number.
    ///
    /// Each node of the store must have its counting table in the query, and the root is one of the nodes or `None`.
    /// Allocates nothing.
    ///
    /// # Errors
    ///
    /// `NoSuchQuery` exactly if no query has the name.
    pub fn count(
        &self,
        name: &[u8],
        store: &Store,
        root: Option<NodeId>,
    ) -> Result<u64, BookRefusal>
        requires serves { Serves store.now self.now }
        requires counted { HasCounts (length store.now) self.now name.now }
        requires live { IsLive store.now root }
        ensures number { IfOk result (λ n. IsNamed (queries_of self.now) name.now (λ q. IsSaturated (IsNumberOf q (text_of store.now root)) n)) }
        ensures missing { IfErr result (IsMissing (queries_of self.now) name.now) }
    {
        Ok(number_of(self.counted(name, store)?, store, root))
    }

    /// How many answers of the query with this name on the root's text come before the tuple in mark order. `u64::MAX`
    /// stands for itself and for every greater number. The tuple needn't be an answer, and its spans may lie beyond the
    /// text.
    ///
    /// Each node of the store must have its counting table in the query, and the root is one of the nodes or `None`. The
    /// tuple must have as many variables as the query. For k variables and a text of n bytes it takes at most B(k, n)
    /// table lookups, which `looks` counts.
    ///
    /// # Errors
    ///
    /// `NoSuchQuery` exactly if no query has the name, or `NoMemory` if allocation fails.
    pub fn rank<L: Ledger>(
        &self,
        alloc: Global,
        name: &[u8],
        store: &Store,
        root: Option<NodeId>,
        tuple: &Tuple,
        looks: &mut Steps<L>,
    ) -> Result<u64, BookRefusal>
        requires serves { Serves store.now self.now }
        requires counted { HasCounts (length store.now) self.now name.now }
        requires live { IsLive store.now root }
        requires tuple { HasVariablesOf (queries_of self.now) name.now tuple.now }
        ensures rank { IfOk result (λ n. IsNamed (queries_of self.now) name.now (λ q. IsSaturated (IsRankOf q (text_of store.now root) tuple.now) n)) }
        ensures list { IfNamed (queries_of self.now) name.now (HasList (text_of store.now root) None) }
        ensures missing { IsErrOf result BookRefusal.NoSuchQuery ↔ (value_of (queries_of self.now) name.now ≡ None) }
        ensures cost { looks.new ≤ looks.old + most_looks (value_of (queries_of self.now) name.now) (text_of store.now root) }
    {
        let tabled = self.counted(name, store)?;
        Ok(rank_of(alloc, tabled, store, root, tuple, looks)?)
    }

    /// An iterator over the answers of the query with this name on the root's text from the one at position `m` on,
    /// counted from 1. It returns nothing if there are fewer answers. The position is below `u64::MAX`.
    ///
    /// Each node of the store must have its table, and its counting table in the query. The root is one of the nodes or
    /// `None`. For k variables and a text of n bytes it takes at most 3·B(k, n) table lookups, which `looks` counts.
    ///
    /// # Errors
    ///
    /// `NoSuchQuery` exactly if no query has the name, or `NoMemory` if allocation fails.
    pub fn start_at<'a, L: Ledger>(
        &'a self,
        alloc: Global,
        name: &[u8],
        store: &'a Store,
        root: Option<NodeId>,
        m: u64,
        looks: &mut Steps<L>,
    ) -> Result<Answers<'a>, BookRefusal>
        requires covers { Covers store.now self.now }
        requires counted { HasCounts (length store.now) self.now name.now }
        requires live { IsLive store.now root }
        requires first { 1 ≤ m }
        requires last { m ≤ 2 ^ 64 - 2 }
        ensures listing { IfOk result (λ a. IsNamed (queries_of self.now) name.now (IsListingAt (text_of store.now root) m a)) }
        ensures list { IfNamed (queries_of self.now) name.now (HasList (text_of store.now root) None) }
        ensures missing { IsErrOf result BookRefusal.NoSuchQuery ↔ (value_of (queries_of self.now) name.now ≡ None) }
        ensures cost { looks.new ≤ looks.old + 3 * most_looks (value_of (queries_of self.now) name.now) (text_of store.now root) }
    {
        let ready = self.ready(name, store)?;
        Ok(ready.start_at(alloc, root, m, looks)?)
    }

    /// The query with this name, in which each node of the store has its counting table.
    fn counted(&self, name: &[u8], store: &Store) -> Result<&TabledQuery, BookRefusal>
        requires serves { Serves store.now self.now }
        requires counted { HasCounts (length store.now) self.now name.now }
        ensures query { IfOk result (λ t. value_of (queries_of self.now) name.now ≡ Some (query_of t.now.query.tree)) }
        ensures counts { IfOk result (λ t. HasAllCounts store.now t.now) }
        ensures missing { IfErr result (IsMissing (queries_of self.now) name.now) }
    {
        let tabled = self.tabled(name)?;
        Ok(tabled)
    }
}
