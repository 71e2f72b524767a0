//! The tables of the nodes. Each distinct table is stored once.

ghost use Rattle.distinct_items.specs.Renumbering.{kept_items};
ghost use Rattle.marker_dfa.specs.Deterministic.{DeterministicAutomaton, states_of};
ghost use Rattle.slp_model.specs.Kept.{Keeps};
ghost use Rattle.slp_model.specs.Thin.{IsCompactionOf, rank};
ghost use Rattle.slp_model.specs.declared.Node.{Node};
ghost use Rattle.state_tables.specs.Dictionary.{AreTables, GainsTable, IsDictionary, count_of, distinct_of, kept_of, number_of, table_of};
ghost use Rattle.state_tables.specs.Dropped.{used_by};
ghost use Rattle.std.specs.Prelude.{◌≡◌, ℕ, ◌+◌, ◌<◌, ◌≤◌, ◌-◌, ◌++◌, List, [], ◌∷◌, length, map, IfOk, OnOk, OnErr};

use crate::interner::Interner;
use crate::renumbering::renumber;
use crate::table::Table;
use crate::view::View;
use distinct_items::DistinctItems;
use marker_dfa::Dfa;
use node_store::{Moves, NodeId, Store};
use span_types::{NoMemory, Steps};
use std::alloc::Global;
use std::marker::Model;
use std::sync::ledger::Ledger;

// The maximum number of tables, so that one more than a number takes 32 bits.
const MAX_TABLES: usize = (1 << 32) - 1;

/// Each distinct table once, under a number from 0, and for each node the number of its table.
#[derive(Drop)]
pub struct Tables {
    states: u16,
    kept: DistinctItems<Table>,
    interner: Interner,
    numbers: Vec<u32>,
}

impl Model for Tables {
    ghost use Rattle.state_tables.specs.Dictionary.{Dictionary, IsDictionary};

    ghost Value = { Dictionary };

    ghost use Rattle.state_tables.specs.Kept.{view_of};

    ghost view = { view_of };

    ghost invariant = { λ t. IsDictionary (view_of t) };
}

impl Tables {
    /// Tables of no node.
    pub fn new(alloc: Global, dfa: &Dfa) -> Tables
        ensures { result ≡ record { states = states_of dfa.now; kept = []; numbers = []; room = 0 } }
    {
        Tables {
            states: dfa.states(),
            kept: DistinctItems::new(alloc),
            interner: Interner::new(alloc),
            numbers: Vec::new(alloc),
        }
    }

    /// The number of nodes that have tables: those with the indices 0 to count-1.
    pub fn count(&self) -> usize
        ensures count { result ≡ count_of self.now }
        ensures facts { IsDictionary self.now }
    {
        self.numbers.len()
    }

    /// The number of tables that are kept.
    pub fn distinct(&self) -> usize
        ensures { result ≡ distinct_of self.now }
    {
        self.kept.len()
    }

    /// The number of the node's table.
    pub fn number(&self, id: NodeId) -> usize
        requires { id.index < count_of self.now }
        ensures number { result ≡ number_of self.now id.index }
        ensures kept { result < distinct_of self.now }
    {
        self.numbers[id.index] as usize
    }

    /// The kept table with this number.
    pub fn kept(&self, number: usize) -> &Table
        requires { number < distinct_of self.now }
        ensures { result.now ≡ kept_of self.now number }
    {
        self.kept.at(number)
    }

    /// The table of the node.
    pub fn table(&self, id: NodeId) -> &Table
        requires { id.index < count_of self.now }
        ensures { result.now ≡ table_of self.now id.index }
    {
        self.kept(self.number(id))
    }

    /// The number of an equal kept table. If there is none, the table is added last. It takes time linear in the size of
    /// the table, and expected constant time besides. No node's table changes.
    ///
    /// # Errors
    ///
    /// `NoMemory` if allocation fails; the tables are then unchanged.
    pub fn keep(&mut self, table: Table) -> Result<usize, NoMemory>
        requires { length table ≡ self.old.states }
        ensures number { IfOk result (λ n. (n < distinct_of self.new) × (kept_of self.new n ≡ table)) }
        ensures kept { (n : ℕ) → n < distinct_of self.old → kept_of self.new n ≡ kept_of self.old n }
        ensures more { distinct_of self.old ≤ distinct_of self.new }
        ensures gains { OnOk result (GainsTable self.old.kept self.new.kept table) }
        ensures same { self.new ≡ record self.old { kept = self.new.kept } }
        ensures err { OnErr result (self.new ≡ self.old) }
    {
        let _ = table.states();
        if let Some(number) = self.kept.find(&table) {
            return Ok(number);
        }
        if self.kept.len() >= MAX_TABLES {
            return Err(NoMemory);
        }
        let table = table.interned(&mut self.interner)?;
        self.kept.insert(table)
    }

    /// Makes room for this many further nodes.
    ///
    /// # Errors
    ///
    /// `NoMemory` if allocation fails; the tables are then unchanged.
    pub fn reserve(&mut self, more: usize) -> Result<(), NoMemory>
        ensures ok { OnOk result (more ≤ self.new.room) }
        ensures room { self.old.room ≤ self.new.room }
        ensures same { self.new ≡ record self.old { room = self.new.room } }
    {
        self.numbers.reserve(more)?;
        Ok(())
    }

    /// Makes the kept table with this number that of the next node. It allocates nothing, and counts as one step.
    pub fn push<L: Ledger>(&mut self, number: usize, places: &mut Steps<L>)
        requires kept { number < distinct_of self.old }
        requires room { 0 < self.old.room }
        ensures pushed { self.new ≡ record self.old { numbers = self.old.numbers ++ number ∷ []; room = self.old.room - 1 } }
        ensures step { places.new ≡ places.old + 1 }
    {
        places.tick();
        self.numbers.push_reserved(number as u32);
    }

    /// Removes the nodes that are not kept, as the store does, and each kept table that no kept node has. Every kept
    /// node has its table under its new id. The kept tables stay in their order and get new numbers, so earlier numbers
    /// are stale.
    ///
    /// The tables are those of the store's first nodes, or of all. It allocates nothing, and takes time linear in the
    /// nodes with tables and the kept tables. The room of the removed nodes is reused.
    pub fn renumber(&mut self, moves: &Moves)
        requires { count_of self.old ≤ length moves.now }
        ensures kept { self.new.kept ≡ kept_items self.old.kept (used_by self.old moves.now) }
        ensures numbers { self.new.numbers ≡ map (rank (used_by self.old moves.now)) (kept_items self.old.numbers moves.now) }
        ensures count { count_of self.new ≡ rank moves.now (count_of self.old) }
        ensures each { (i : ℕ) → i < count_of self.old → Keeps moves.now i → table_of self.new (rank moves.now i) ≡ table_of self.old i }
        ensures room { self.new.room + count_of self.new ≡ self.old.room + count_of self.old }
        ensures same { self.new ≡ record self.old { kept = self.new.kept; numbers = self.new.numbers; room = self.new.room } }
        ensures tables { (a : DeterministicAutomaton) (ns ms : List Node) → IsCompactionOf ns moves.now ms → AreTables a ns self.old → AreTables a ms self.new }
    {
        renumber(&mut self.numbers, moves);
        let before = self.kept.len();
        self.kept.keep_used(&mut self.numbers);
        if self.kept.len() < before {
            self.interner.clear();
        }
    }

    /// A view of the nodes of the store, each of which has a table.
    pub fn view<'a>(&'a self, store: &'a Store) -> View<'a>
        requires { count_of self.now ≡ length store.now }
        ensures tables { result.tables.now ≡ self.now }
        ensures store { result.store.now ≡ store.now }
    {
        View::new(self, store)
    }
}
