//! Evaluation of registered queries.
ghost use Rattle.query_book.specs.Answers.{HasAnswer, HasList, HasVariablesOf, IfNamed, IsAnswer, IsListingOf, IsNamed, most_looks};
ghost use Rattle.query_book.specs.Book.{IsMissing, queries_of};
ghost use Rattle.query_book.specs.Named.{value_of};
ghost use Rattle.query_book.specs.Serving.{Covers};
ghost use Rattle.slp_model.specs.Nodes.{IsLive, text_of};
ghost use Rattle.std.specs.Prelude.{◌≡◌, ◌↔◌, ◌+◌, ◌*◌, ◌≤◌, None, Some, IfOk, IfErr, IsTrue, IsErrOf};

use crate::book::QueryBook;
use crate::refusal::BookRefusal;
use node_store::{NodeId, Store};
use span_enum::Answers;
use span_types::{Steps, Tuple};
use std::alloc::Global;
use std::sync::ledger::Ledger;

impl QueryBook {
    /// An iterator over the answers of the query with this name on the root's text, before the first one.
    ///
    /// Each node of the store must have its table, and the root is one of the nodes or `None`. For k variables and a
    /// text of n bytes it takes at most B(k, n) table lookups, which `looks` counts.
    ///
    /// # Errors
    ///
    /// `NoSuchQuery` exactly if no query has the name, or `NoMemory` if allocation fails.
    pub fn start<'a, L: Ledger>(
        &'a self,
        alloc: Global,
        name: &[u8],
        store: &'a Store,
        root: Option<NodeId>,
        looks: &mut Steps<L>,
    ) -> Result<Answers<'a>, BookRefusal>
        requires covers { Covers store.now self.now }
        requires live { IsLive store.now root }
        ensures listing { IfOk result (λ a. IsNamed (queries_of self.now) name.now (IsListingOf (text_of store.now root) None a)) }
        ensures list { IfNamed (queries_of self.now) name.now (HasList (text_of store.now root) None) }
        ensures missing { IsErrOf result BookRefusal.NoSuchQuery ↔ (value_of (queries_of self.now) name.now ≡ None) }
        ensures cost { looks.new ≤ looks.old + most_looks (value_of (queries_of self.now) name.now) (text_of store.now root) }
    {
        let ready = self.ready(name, store)?;
        Ok(ready.start(alloc, root, looks)?)
    }

    /// An iterator over the answers of the query with this name on the root's text, before the first one that comes
    /// strictly after the tuple. The tuple needn't be an answer, and its spans may lie beyond the text.
    ///
    /// Each node of the store must have its table, and the root is one of the nodes or `None`. The tuple must have as
    /// many variables as the query. For k variables and a text of n bytes it takes at most 2·B(k, n) table lookups,
    /// which `looks` counts.
    ///
    /// # Errors
    ///
    /// `NoSuchQuery` exactly if no query has the name, or `NoMemory` if allocation fails.
    pub fn seek<'a, L: Ledger>(
        &'a self,
        alloc: Global,
        name: &[u8],
        store: &'a Store,
        root: Option<NodeId>,
        after: &Tuple,
        looks: &mut Steps<L>,
    ) -> Result<Answers<'a>, BookRefusal>
        requires covers { Covers store.now self.now }
        requires live { IsLive store.now root }
        requires tuple { HasVariablesOf (queries_of self.now) name.now after.now }
        ensures listing { IfOk result (λ a. IsNamed (queries_of self.now) name.now (IsListingOf (text_of store.now root) (Some after.now) a)) }
        ensures list { IfNamed (queries_of self.now) name.now (HasList (text_of store.now root) (Some after.now)) }
        ensures missing { IsErrOf result BookRefusal.NoSuchQuery ↔ (value_of (queries_of self.now) name.now ≡ None) }
        ensures cost { looks.new ≤ looks.old + 2 * most_looks (value_of (queries_of self.now) name.now) (text_of store.now root) }
    {
        let ready = self.ready(name, store)?;
        Ok(ready.seek(alloc, root, after, looks)?)
    }

    /// Whether the query with this name has an answer on the root's text. Allocates nothing.
    ///
    /// Each node of the store must have its table, and the root is one of the nodes or `None`. For k variables and a
    /// text of n bytes it takes at most B(k, n) table lookups, which `looks` counts.
    ///
    /// # Errors
    ///
    /// `NoSuchQuery` exactly if no query has the name.
    pub fn test<L: Ledger>(
        &self,
        name: &[u8],
        store: &Store,
        root: Option<NodeId>,
        looks: &mut Steps<L>,
    ) -> Result<bool, BookRefusal>
        requires covers { Covers store.now self.now }
        requires live { IsLive store.now root }
        ensures answer { IfOk result (λ yes. IsNamed (queries_of self.now) name.now (λ q. IsTrue yes ↔ HasAnswer q (text_of store.now root))) }
        ensures missing { IfErr result (IsMissing (queries_of self.now) name.now) }
        ensures cost { looks.new ≤ looks.old + most_looks (value_of (queries_of self.now) name.now) (text_of store.now root) }
    {
        let ready = self.ready(name, store)?;
        Ok(ready.test(root, looks))
    }

    /// Whether the tuple is an answer of the query with this name on the root's text. Allocates nothing.
    ///
    /// Each node of the store must have its table, and the root is one of the nodes or `None`. The tuple must have as
    /// many variables as the query. For k variables and a text of n bytes it takes at most B(k, n) table lookups, which
    /// `looks` counts.
    ///
    /// # Errors
    ///
    /// `NoSuchQuery` exactly if no query has the name.
    pub fn has<L: Ledger>(
        &self,
        name: &[u8],
        store: &Store,
        root: Option<NodeId>,
        tuple: &Tuple,
        looks: &mut Steps<L>,
    ) -> Result<bool, BookRefusal>
        requires covers { Covers store.now self.now }
        requires live { IsLive store.now root }
        requires tuple { HasVariablesOf (queries_of self.now) name.now tuple.now }
        ensures answer { IfOk result (λ yes. IsNamed (queries_of self.now) name.now (λ q. IsTrue yes ↔ IsAnswer q (text_of store.now root) tuple.now)) }
        ensures missing { IfErr result (IsMissing (queries_of self.now) name.now) }
        ensures cost { looks.new ≤ looks.old + most_looks (value_of (queries_of self.now) name.now) (text_of store.now root) }
    {
        let ready = self.ready(name, store)?;
        Ok(ready.has(root, tuple, looks))
    }
}
