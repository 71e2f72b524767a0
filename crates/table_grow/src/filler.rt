//! The tables of new nodes, before the nodes get them.

ghost use Rattle.slp_model.specs.Nodes.{tree};
ghost use Rattle.slp_model.specs.Tree.{text};
ghost use Rattle.state_tables.specs.Dictionary.{GainsTable, count_of, distinct_of, kept_of};
ghost use Rattle.state_tables.specs.Meaning.{IsTable};
ghost use Rattle.std.specs.Prelude.{◌≡◌, ℕ, ◌+◌, ◌-◌, ◌<◌, ◌≤◌, length, slice_index_or, Some, None, IsSome, IfOk, OnOk, OnErr};
ghost use Rattle.table_grow.specs.Assignment.{AllAssigned, AreKept, ChildrenAssigned, ChildrenTrue, Fits, IsComposed, AssignsTable, finished, number_in, with_number};

use marker_dfa::Dfa;
use node_store::{Node, NodeId, Store};
use span_types::{NoMemory, Steps};
use state_tables::{Table, Tables, compose, of_byte};
use std::alloc::Global;
use std::marker::Model;
use std::sync::ledger::Ledger;

/// An entry for each node without a table, which is empty or has the number of a kept table. A node is *assigned*
/// once its entry has a number. It has no references: each call receives the same store and tables, and until `finish` no node's
/// table changes.
#[derive(Drop)]
pub struct Filler {
    known: usize,
    // One more than the number of the table, or 0 for an empty entry.
    places: Vec<u32>,
}

impl Model for Filler {
    ghost use Rattle.table_grow.specs.Assignment.{Assignment};

    ghost Value = { Assignment };

    ghost use Rattle.table_grow.specs.FillerView.{view_of};

    ghost view = { view_of };
}

impl Filler {
    /// An empty entry for each node of the store that has no table, and room in `tables` for all of them.
    ///
    /// # Errors
    ///
    /// `NoMemory` if allocation fails. The tables are then unchanged.
    pub fn new(alloc: Global, tables: &mut Tables, store: &Store) -> Result<Filler, NoMemory>
        requires { count_of tables.old ≤ length store.now }
        ensures fits { IfOk result (Fits store.now tables.new) }
        ensures empty { IfOk result (λ f. (i : ℕ) → slice_index_or f.places i None ≡ None) }
        ensures same { tables.new ≡ record tables.old { room = tables.new.room } }
    {
        let known = tables.count();
        let more = store.count() - known;
        tables.reserve(more)?;
        let mut places = Vec::with_capacity(alloc, more)?;
        for _i in 0..more {
            places.push(0)?;
        }
        Ok(Filler { known, places })
    }

    /// The number of nodes that had tables.
    pub(crate) fn known(&self) -> usize
        ensures { result ≡ self.now.known }
    {
        self.known
    }

    /// The number of the table of an old or assigned node.
    pub(crate) fn number(&self, tables: &Tables, store: &Store, id: NodeId) -> usize
        requires fits { Fits store.now tables.now self.now }
        requires live { id.index < length store.now }
        requires placed { IsSome (number_in tables.now self.now id.index) }
        ensures number { number_in tables.now self.now id.index ≡ Some result }
        ensures kept { result < distinct_of tables.now }
    {
        if id.index < self.known {
            return tables.number(id);
        }
        (self.places[id.index - self.known] - 1) as usize
    }

    /// The table of a new node, whose children are old or assigned and have the tables of their texts. It takes at most
    /// as many steps as the square of the automaton's number of states, each over a word for every 64 states, and memory for
    /// the table.
    ///
    /// # Errors
    ///
    /// `NoMemory` if allocation fails.
    pub fn compute(
        &self,
        alloc: Global,
        tables: &Tables,
        store: &Store,
        dfa: &Dfa,
        id: NodeId,
    ) -> Result<Table, NoMemory>
        requires fits { Fits store.now tables.now self.now }
        requires new { self.now.known ≤ id.index }
        requires live { id.index < length store.now }
        requires children { ChildrenAssigned store.now tables.now self.now id.index }
        requires true_children { ChildrenTrue dfa.now store.now tables.now self.now id.index }
        ensures meaning { IfOk result (IsTable dfa.now (text (tree store.now id.index))) }
        ensures composed { IfOk result (IsComposed store.now tables.now self.now id.index) }
    {
        let _ = dfa.states();
        match store.node(id) {
            Node::Byte(byte) => of_byte(alloc, dfa, byte),
            Node::Pair(left, right) => {
                let left = tables.kept(self.number(tables, store, left));
                let right = tables.kept(self.number(tables, store, right));
                compose(alloc, left, right)
            }
        }
    }

    // Writes this number of a kept table to the entry of a new node.
    fn set(&mut self, tables: &Tables, id: NodeId, number: usize)
        requires kept { number < distinct_of tables.now }
        requires new { self.old.known ≤ id.index }
        requires live { id.index < self.old.known + length self.old.places }
        ensures { self.new ≡ with_number self.old id.index number }
    {
        let _ = tables.count();
        let entry = id.index - self.known;
        self.places[entry] = number as u32 + 1;
    }

    /// Assigns the kept table of this number to a new node. The node has none assigned yet, and its children are old or
    /// assigned. Allocates nothing.
    pub fn place_kept(&mut self, tables: &Tables, store: &Store, id: NodeId, number: usize)
        requires fits { Fits store.now tables.now self.old }
        requires new { self.old.known ≤ id.index }
        requires live { id.index < length store.now }
        requires free { number_in tables.now self.old id.index ≡ None }
        requires children { ChildrenAssigned store.now tables.now self.old id.index }
        requires kept { number < distinct_of tables.now }
        ensures { self.new ≡ with_number self.old id.index number }
    {
        self.set(tables, id, number);
    }

    /// Keeps the table of a new node, and assigns it to the node. The node has none assigned yet, and its children are old
    /// or assigned. No node's table changes.
    ///
    /// # Errors
    ///
    /// `NoMemory` if allocation fails; the entries and the tables are then unchanged.
    pub fn place(
        &mut self,
        tables: &mut Tables,
        store: &Store,
        id: NodeId,
        table: Table,
    ) -> Result<(), NoMemory>
        requires fits { Fits store.now tables.old self.old }
        requires new { self.old.known ≤ id.index }
        requires live { id.index < length store.now }
        requires free { number_in tables.old self.old id.index ≡ None }
        requires children { ChildrenAssigned store.now tables.old self.old id.index }
        requires states { length table ≡ tables.old.states }
        ensures placed { OnOk result (AssignsTable tables.new self.old self.new id.index table) }
        ensures err { OnErr result ((self.new ≡ self.old) × (tables.new ≡ tables.old)) }
        ensures kept { AreKept tables.old tables.new }
        ensures gains { OnOk result (GainsTable tables.old.kept tables.new.kept table) }
    {
        let number = tables.keep(table)?;
        self.set(tables, id, number);
        Ok(())
    }

    /// Adds for each new node the table of its entry, in the order of their ids, and counts one step for each. Allocates
    /// nothing.
    pub fn finish<L: Ledger>(self, tables: &mut Tables, places: &mut Steps<L>)
        requires tables_fit { count_of tables.old ≡ self.known }
        requires room_fits { length self.places ≤ tables.old.room }
        requires kept_fit { (i n : ℕ) → slice_index_or self.places i None ≡ Some n → n < distinct_of tables.old }
        requires all_placed { AllAssigned self }
        ensures finished { tables.new ≡ finished tables.old self }
        ensures steps { places.new ≡ places.old + length self.places }
    {
        for entry in &self.places {
            tables.push((*entry - 1) as usize, places);
        }
    }
}
