//! The registry of queries.
ghost use Rattle.query_book.specs.Book.{IsMissing, book_of, queries_of, tabled_of, with_entry, without_entry};
ghost use Rattle.query_book.specs.Compiling.{IsCompiled};
ghost use Rattle.query_book.specs.Kept.{IsSound};
ghost use Rattle.query_book.specs.Named.{AreDistinctNames, put, taken_out, value_of};
ghost use Rattle.query_book.specs.Registering.{IsQueryOf, IsRefused};
ghost use Rattle.query_book.specs.Renumbering.{IsPlanFor, UseEachTable, ranked};
ghost use Rattle.query_book.specs.Serving.{ArePartlyAt, Covers, CoversQuery, HasCounts, Serves, all_at, counted_of, covered_of, sum_of};
ghost use Rattle.slp_model.specs.Thin.{IsCompactionOf};
ghost use Rattle.slp_model.specs.declared.Node.{Node};
ghost use Rattle.span_types.specs.Query.{Query, query_of};
ghost use Rattle.span_types.specs.Rel.{names_of};
ghost use Rattle.std.specs.Option.{option_map};
ghost use Rattle.std.specs.Prelude.{◌≡◌, ◌+◌, ◌≤◌, ℕ, List, [], length, OnOk, OnErr, IfOk, IfErr, IsErrOf, IsSome, None, Some, MatchResult, ◌↔◌};

use crate::compiled::{Compiled, compile};
use crate::counting::count_named;
use crate::entry::{Entry, Lent, TabledQuery, fresh_entry};
use crate::growing::{grow_entries, grow_named};
use crate::refusal::{BookRefusal, QueryRefusal};
use crate::renumbering::renumber_entries;
use name_map::NameMap;
use node_store::{Moves, Store};
use span_types::{Name, NoMemory, Steps, Vars};
use std::alloc::Global;
use std::marker::Model;
use std::sync::ledger::Ledger;
use std::thread::Threads;
use work_gate::Gate;

/// The number of states that each registry allows.
const LEAST_STATES: u16 = 128;

/// A registry of queries with distinct names, in the order in which the names were added. A lookup by name takes
/// time logarithmic in their number.
///
/// `add`, `union`, `join` and `project` accept a query only if its automaton has at most `states` states, from 128 to 1,024.
/// `with_states` sets this number, and no other call changes it.
pub struct QueryBook {
    by_name: NameMap<TabledQuery>,
    states: u16,
}

// Written out, so that no crate above proves anew how each part is dropped.
impl Drop for QueryBook {
    fn drop(self) {
        let QueryBook {
            by_name: _by_name,
            states: _states,
        } = self;
    }
}

impl Model for QueryBook {
    ghost use Rattle.query_book.specs.Book.{Book, book_of};
    ghost use Rattle.query_book.specs.Kept.{IsRegistry};
    ghost use Rattle.span_types.specs.contracts.query.QueryTree as query_tree;
    ghost use Rattle.std.specs.Coded.{codes};

    ghost Value = { Book };

    ghost coded = { Prim.hlevel (codes, query_tree.the_row.coded) };

    ghost view = { λ b. book_of b.states b.by_name };

    ghost invariant = { λ b. IsRegistry b.states b.by_name };
}

impl QueryBook {
    /// No queries. The automaton of a query may have at most 128 states.
    pub fn new(alloc: Global) -> QueryBook
        ensures empty { result ≡ book_of 128 [] }
        ensures serves { (ns : List Node) → Serves ns result }
    {
        QueryBook::with_states(alloc, LEAST_STATES)
    }

    /// No queries. The automaton of a query may have at most `states` states, from 128 to 1,024.
    pub fn with_states(alloc: Global, states: u16) -> QueryBook
        requires few { 128 ≤ states }
        requires many { states ≤ 1024 }
        ensures empty { result ≡ book_of states [] }
        ensures serves { (ns : List Node) → Serves ns result }
    {
        QueryBook {
            by_name: NameMap::new(alloc),
            states,
        }
    }

    /// How many states the automaton of a query may have, from 128 to 1,024.
    pub fn states(&self) -> u16
        ensures states { result ≡ self.now.states }
        ensures few { 128 ≤ result }
        ensures many { result ≤ 1024 }
    {
        self.states
    }

    /// Compiles a formula and registers it as a query under this name. An existing name keeps its index and gets the
    /// new query, and a new name goes last. The query has no tables yet. After an error the registry is unchanged.
    ///
    /// # Errors
    ///
    /// The first error of the text, `TooManyStates` exactly if the formula's automaton would have more states than the
    /// registry allows, or `NoMemory` if allocation fails.
    pub fn add(&mut self, alloc: Global, name: Name, text: &[u8]) -> Result<(), QueryRefusal>
        ensures ok { OnOk result ((q : Query) × IsQueryOf self.old.states text.now q × (queries_of self.new ≡ put (queries_of self.old) name q)) }
        ensures covered { OnOk result (covered_of self.new ≡ put (covered_of self.old) name 0) }
        ensures counted { OnOk result (counted_of self.new ≡ put (counted_of self.old) name 0) }
        ensures serves { (ns : List Node) → Serves ns self.old → Serves ns self.new }
        ensures distinct { OnOk result (AreDistinctNames (queries_of self.new)) }
        ensures refused { IfErr result (IsRefused self.old.states text.now) }
        ensures err { OnErr result (self.new ≡ self.old) }
        ensures states { self.new.states ≡ self.old.states }
    {
        let query = compile(alloc, text, self.states())?;
        self.register(alloc, name, query)?;
        Ok(())
    }

    /// Registers a compiled query under this name. An existing name keeps its index and gets the new query, and a new
    /// name goes last. The query has no tables yet. After an error the registry is unchanged.
    ///
    /// # Errors
    ///
    /// `NoMemory` if allocation fails.
    pub fn register(&mut self, alloc: Global, name: Name, query: Compiled) -> Result<(), NoMemory>
        requires { IsCompiled query }
        ensures ok { OnOk result (queries_of self.new ≡ put (queries_of self.old) name (query_of query.tree)) }
        ensures covered { OnOk result (covered_of self.new ≡ put (covered_of self.old) name 0) }
        ensures counted { OnOk result (counted_of self.new ≡ put (counted_of self.old) name 0) }
        ensures serves { (ns : List Node) → Serves ns self.old → Serves ns self.new }
        ensures distinct { OnOk result (AreDistinctNames (queries_of self.new)) }
        ensures err { OnErr result (self.new ≡ self.old) }
        ensures states { self.new.states ≡ self.old.states }
    {
        let entry = fresh_entry(alloc, name, query)?;
        self.put(alloc, entry)?;
        Ok(())
    }

    /// Removes the query with this name. Each later query moves down by one index. Takes amortised
    /// O(log n) time for n queries.
    ///
    /// # Errors
    ///
    /// `NoSuchQuery` exactly if no query has the name; the registry is then unchanged.
    pub fn remove(&mut self, name: &[u8]) -> Result<(), BookRefusal>
        ensures ok { OnOk result (IsSome (value_of (queries_of self.old) name.now)) }
        ensures rest { queries_of self.new ≡ taken_out (queries_of self.old) name.now }
        ensures covered { covered_of self.new ≡ taken_out (covered_of self.old) name.now }
        ensures counted { counted_of self.new ≡ taken_out (counted_of self.old) name.now }
        ensures serves { (ns : List Node) → Serves ns self.old → Serves ns self.new }
        ensures distinct { AreDistinctNames (queries_of self.new) }
        ensures missing { IfErr result (IsMissing (queries_of self.old) name.now) }
        ensures err { OnErr result (self.new ≡ self.old) }
        ensures states { self.new.states ≡ self.old.states }
    {
        self.take(name)
    }

    /// The names of the query's variables, in the order of their numbers.
    ///
    /// # Errors
    ///
    /// `NoSuchQuery` exactly if no query has the name.
    pub fn vars(&self, name: &[u8]) -> Result<&Vars, BookRefusal>
        ensures { MatchResult result (λ vars. option_map names_of (value_of (queries_of self.now) name.now) ≡ Some vars.now) (IsMissing (queries_of self.now) name.now) }
    {
        Ok(&self.tabled(name)?.query.vars)
    }

    /// Computes the missing tables, so that each node of the store has a table in each query. The store must be the one
    /// that was used before, possibly with more nodes. `places` counts the computed tables. The work on the nodes of
    /// one height runs in at most `workers` pieces at once, 1 to 64.
    ///
    /// # Errors
    ///
    /// `NoMemory` if allocation fails. Some queries may then have all tables, and the others have those that they had.
    pub fn grow_all<R: Threads + Sync, G: Gate, L: Ledger>(
        &mut self,
        rt: &R,
        alloc: Global,
        store: &Store,
        workers: u8,
        gate: &G,
        places: &mut Steps<L>,
    ) -> Result<(), NoMemory>
        requires least { 1 ≤ workers }
        requires most { workers ≤ 64 }
        requires serves { Serves store.now self.old }
        ensures all { OnOk result (Covers store.now self.new) }
        ensures serves { Serves store.now self.new }
        ensures queries { queries_of self.new ≡ queries_of self.old }
        ensures counted { counted_of self.new ≡ counted_of self.old }
        ensures done { OnOk result (covered_of self.new ≡ all_at (length store.now) (covered_of self.old)) }
        ensures some { ArePartlyAt (length store.now) (covered_of self.old) (covered_of self.new) }
        ensures steps { places.new + sum_of (covered_of self.old) ≡ places.old + sum_of (covered_of self.new) }
        ensures states { self.new.states ≡ self.old.states }
    {
        self.by_name.settle();
        let lent = Lent {
            rt,
            alloc,
            store,
            workers,
            gate,
        };
        grow_entries(lent, &mut self.by_name, places)
    }

    /// Computes the missing tables of the query with this name, so that each node of the store has one. The other queries
    /// keep their tables. The store must be the one that was used before, possibly with more nodes. `places` counts the
    /// computed tables. The work on the nodes of one height runs in at most `workers` pieces at once, 1 to 64. The query
    /// is found in time linear in the number of queries.
    ///
    /// # Errors
    ///
    /// `NoSuchQuery` exactly if no query has the name; the registry is then unchanged. `NoMemory` if allocation fails; the
    /// query then has the tables of the same nodes as before.
    pub fn grow_one<R: Threads + Sync, G: Gate, L: Ledger>(
        &mut self,
        rt: &R,
        alloc: Global,
        name: &[u8],
        store: &Store,
        workers: u8,
        gate: &G,
        places: &mut Steps<L>,
    ) -> Result<(), BookRefusal>
        requires least { 1 ≤ workers }
        requires most { workers ≤ 64 }
        requires serves { Serves store.now self.old }
        ensures all { OnOk result (CoversQuery store.now self.new name.now) }
        ensures done { OnOk result (covered_of self.new ≡ put (covered_of self.old) name.now (length store.now)) }
        ensures err { OnErr result (covered_of self.new ≡ covered_of self.old) }
        ensures missing { IsErrOf result BookRefusal.NoSuchQuery ↔ (value_of (queries_of self.old) name.now ≡ None) }
        ensures unchanged { IsErrOf result BookRefusal.NoSuchQuery → self.new ≡ self.old }
        ensures queries { queries_of self.new ≡ queries_of self.old }
        ensures counted { counted_of self.new ≡ counted_of self.old }
        ensures serves { Serves store.now self.new }
        ensures some { ArePartlyAt (length store.now) (covered_of self.old) (covered_of self.new) }
        ensures steps { places.new + sum_of (covered_of self.old) ≡ places.old + sum_of (covered_of self.new) }
        ensures states { self.new.states ≡ self.old.states }
    {
        self.by_name.settle();
        let lent = Lent {
            rt,
            alloc,
            store,
            workers,
            gate,
        };
        grow_named(lent, &mut self.by_name, name, places)
    }

    /// Computes the missing counting tables of the query with this name, so that each node of the store has one. The store
    /// must be the one that was used before, possibly with more nodes. `places` counts the computed counting tables. The
    /// work on the nodes of one height runs in at most `workers` pieces at once, 1 to 64. The query is found in time
    /// linear in the number of queries.
    ///
    /// # Errors
    ///
    /// `NoSuchQuery` exactly if no query has the name; the registry is then unchanged. `NoMemory` if allocation fails; the
    /// query then has the counting tables of the same nodes as before.
    pub fn grow_counts<R: Threads + Sync, G: Gate, L: Ledger>(
        &mut self,
        rt: &R,
        alloc: Global,
        name: &[u8],
        store: &Store,
        workers: u8,
        gate: &G,
        places: &mut Steps<L>,
    ) -> Result<(), BookRefusal>
        requires least { 1 ≤ workers }
        requires most { workers ≤ 64 }
        requires serves { Serves store.now self.old }
        ensures all { OnOk result (HasCounts (length store.now) self.new name.now) }
        ensures done { OnOk result (counted_of self.new ≡ put (counted_of self.old) name.now (length store.now)) }
        ensures err { OnErr result (counted_of self.new ≡ counted_of self.old) }
        ensures missing { IsErrOf result BookRefusal.NoSuchQuery ↔ (value_of (queries_of self.old) name.now ≡ None) }
        ensures unchanged { IsErrOf result BookRefusal.NoSuchQuery → self.new ≡ self.old }
        ensures queries { queries_of self.new ≡ queries_of self.old }
        ensures covered { covered_of self.new ≡ covered_of self.old }
        ensures serves { Serves store.now self.new }
        ensures covers { Covers store.now self.old → Covers store.now self.new }
        ensures covers_query { (other : List ℕ) → CoversQuery store.now self.old other → CoversQuery store.now self.new other }
        ensures some { ArePartlyAt (length store.now) (counted_of self.old) (counted_of self.new) }
        ensures steps { places.new + sum_of (counted_of self.old) ≡ places.old + sum_of (counted_of self.new) }
        ensures states { self.new.states ≡ self.old.states }
    {
        self.by_name.settle();
        let lent = Lent {
            rt,
            alloc,
            store,
            workers,
            gate,
        };
        count_named(lent, &mut self.by_name, name, places)
    }

    /// Renumbers the tables and counting tables when the store is compacted: each query keeps exactly those of the kept
    /// nodes, under the nodes' new ids. The old store must be the one that was used before, possibly with more nodes. The cache of
    /// compositions is cleared. Allocates nothing. Takes time linear in the number of tables.
    pub fn renumber(&mut self, moves: &Moves)
        requires { IsPlanFor moves.now self.old }
        ensures queries { queries_of self.new ≡ queries_of self.old }
        ensures covered { covered_of self.new ≡ ranked moves.now (covered_of self.old) }
        ensures counted { counted_of self.new ≡ ranked moves.now (counted_of self.old) }
        ensures used { UseEachTable self.new }
        ensures serves { (ns ms : List Node) → IsCompactionOf ns moves.now ms → Serves ns self.old → Serves ms self.new }
        ensures states { self.new.states ≡ self.old.states }
    {
        self.by_name.settle();
        renumber_entries(&mut self.by_name, moves);
    }

    /// The query with this name and its tables.
    pub(crate) fn tabled(&self, name: &[u8]) -> Result<&TabledQuery, BookRefusal>
        ensures found { IfOk result (λ t. tabled_of self.now name.now ≡ Some t.now) }
        ensures sound { IfOk result (λ t. IsSound t.now) }
        ensures missing { IfErr result (IsMissing (queries_of self.now) name.now) }
    {
        match self.by_name.get(name) {
            Some(tabled) => Ok(tabled),
            None => Err(BookRefusal::NoSuchQuery),
        }
    }

    /// Removes the entry with this name.
    fn take(&mut self, name: &[u8]) -> Result<(), BookRefusal>
        ensures ok { OnOk result (IsSome (tabled_of self.old name.now)) }
        ensures rest { self.new.entries ≡ without_entry self.old.entries name.now }
        ensures distinct { AreDistinctNames (queries_of self.new) }
        ensures missing { IfErr result (IsMissing (queries_of self.old) name.now) }
        ensures err { OnErr result (self.new ≡ self.old) }
        ensures states { self.new.states ≡ self.old.states }
    {
        let taken = self.by_name.take_out(name);
        let _count = self.by_name.count();
        match taken {
            Some(_) => Ok(()),
            None => Err(BookRefusal::NoSuchQuery),
        }
    }

    /// Sets the entry under its name.
    fn put(&mut self, alloc: Global, entry: Entry) -> Result<(), NoMemory>
        requires { IsSound entry.tabled }
        ensures ok { OnOk result (self.new.entries ≡ with_entry self.old.entries entry) }
        ensures distinct { OnOk result (AreDistinctNames (queries_of self.new)) }
        ensures err { OnErr result (self.new ≡ self.old) }
        ensures states { self.new.states ≡ self.old.states }
    {
        self.by_name.set(alloc, entry.name, entry.tabled)?;
        let _count = self.by_name.count();
        Ok(())
    }
}
