//! The counting tables of the nodes, each distinct one kept once.

ghost use Rattle.count_tables.specs.Dictionary.{AreCountTables, IsCountDictionary, count_of, distinct_of, kept_of, table_of, used_by};
ghost use Rattle.distinct_items.specs.Renumbering.{kept_items};
ghost use Rattle.marker_dfa.specs.Deterministic.{DeterministicAutomaton, states_of};
ghost use Rattle.slp_model.specs.Kept.{Keeps};
ghost use Rattle.slp_model.specs.Thin.{IsCompactionOf, rank};
ghost use Rattle.slp_model.specs.declared.Node.{Node};
ghost use Rattle.std.specs.Prelude.{◌≡◌, ℕ, ◌+◌, ◌-◌, ◌<◌, ◌≤◌, List, [], length, map, IfOk, OnOk, OnErr};

use crate::growth::{Growth, REMEMBERED, grow};
use distinct_items::DistinctItems;
use marker_dfa::Dfa;
use node_store::{Moves, NodeId, Store};
use pair_memo::PairMemo;
use path_counts::CountTable;
use span_types::{NoMemory, Steps};
use state_tables::renumbering::renumber;
use std::alloc::Global;
use std::marker::Model;
use std::sync::ledger::Ledger;
use std::thread::Threads;
use work_gate::Gate;

/// Distinct counting tables under numbers.
pub(crate) type TableSet = DistinctItems<CountTable>;

/// Each distinct counting table once, under a number from 0, and for each node the number of its table.
#[derive(Drop)]
pub struct CountTables {
    states: u16,
    kept: TableSet,
    numbers: Vec<u32>,
    memo: PairMemo,
}

impl Model for CountTables {
    ghost use Rattle.count_tables.specs.Dictionary.{CountDictionary};

    ghost Value = { CountDictionary };

    ghost use Rattle.count_tables.specs.Kept.{AreTables, view_of};

    ghost view = { view_of };

    ghost invariant = { AreTables };
}

impl CountTables {
    /// Tables of no node.
    ///
    /// # Errors
    ///
    /// `NoMemory` if allocation fails.
    pub fn new(alloc: Global, dfa: &Dfa) -> Result<CountTables, NoMemory>
        ensures { IfOk result (λ t. t ≡ record { states = states_of dfa.now; kept = []; numbers = [] }) }
    {
        Ok(CountTables {
            states: dfa.states(),
            kept: TableSet::new(alloc),
            numbers: Vec::new(alloc),
            memo: PairMemo::new(alloc, REMEMBERED)?,
        })
    }

    /// The number of nodes with tables, which are those numbered 0 to count-1.
    pub fn count(&self) -> usize
        ensures count { result ≡ count_of self.now }
        ensures facts { IsCountDictionary self.now }
    {
        self.numbers.len()
    }

    /// The number of kept tables.
    pub fn distinct(&self) -> usize
        ensures { result ≡ distinct_of self.now }
    {
        self.kept.len()
    }

    /// The counting table of the node.
    pub fn table(&self, id: NodeId) -> &CountTable
        requires { id.index < count_of self.now }
        ensures { result.now ≡ table_of self.now id.index }
    {
        self.kept.at(self.numbers[id.index] as usize)
    }

    /// Computes the missing tables, so that each node of the store has one. The tables must be those of this automaton and
    /// of the first nodes of this store.
    ///
    /// Each new node is one step, which takes expected constant time if the composition is cached. Nothing is done for the
    /// other nodes.
    ///
    /// The new nodes are processed in the order of their ids, some thousands at a time. With two workers or more, in two cases the
    /// missing compositions of the next ones are computed first, by rising height, those of one height in at most `workers` pieces
    /// at once, 1 to 64:
    ///
    /// - many compositions were computed for the nodes before;
    /// - the cache is empty, and the next nodes cost more than the start of a thread or are at most eight.
    ///
    /// `gate.pass` is called once for each new node, before its table is computed or taken from the cache. No node's table depends
    /// on the workers or the gate.
    ///
    /// # Errors
    ///
    /// `NoMemory` if allocation fails. Each node's table is then unchanged, and more tables may be kept.
    pub fn grow<R: Threads + Sync, G: Gate, L: Ledger>(
        &mut self,
        rt: &R,
        alloc: Global,
        store: &Store,
        dfa: &Dfa,
        workers: u8,
        gate: &G,
        places: &mut Steps<L>,
    ) -> Result<(), NoMemory>
        requires some_workers { 1 ≤ workers }
        requires few_workers { workers ≤ 64 }
        requires covered { count_of self.old ≤ length store.now }
        requires states { self.old.states ≡ states_of dfa.now }
        requires true_tables { AreCountTables dfa.now store.now self.old }
        ensures all { OnOk result (count_of self.new ≡ length store.now) }
        ensures meaning { AreCountTables dfa.now store.now self.new }
        ensures old { (id : ℕ) → id < count_of self.old → table_of self.new id ≡ table_of self.old id }
        ensures err { OnErr result (self.new.numbers ≡ self.old.numbers) }
        ensures states { self.new.states ≡ self.old.states }
        ensures steps_ok { OnOk result (places.new ≡ places.old + (length store.now - count_of self.old)) }
        ensures steps_err { OnErr result (places.new ≡ places.old) }
    {
        let growth = Growth {
            rt,
            gate,
            workers,
            alloc,
            store,
            dfa,
        };
        let (kept, memo) = (&mut self.kept, &mut self.memo);
        grow(&growth, kept, memo, &mut self.numbers, places)
    }

    /// Removes the nodes that a compaction of the store drops, and each table that no kept node has. Every kept node has its
    /// table under its new id. The tables keep their order and get new numbers.
    ///
    /// The tables must be those of the store's first nodes, or of all. Allocates nothing. Takes time linear in the nodes with
    /// tables and the kept tables.
    pub fn renumber(&mut self, moves: &Moves)
        requires { count_of self.old ≤ length moves.now }
        ensures kept { self.new.kept ≡ kept_items self.old.kept (used_by self.old moves.now) }
        ensures numbers { self.new.numbers ≡ map (rank (used_by self.old moves.now)) (kept_items self.old.numbers moves.now) }
        ensures count { count_of self.new ≡ rank moves.now (count_of self.old) }
        ensures each { (i : ℕ) → i < count_of self.old → Keeps moves.now i → table_of self.new (rank moves.now i) ≡ table_of self.old i }
        ensures states { self.new.states ≡ self.old.states }
        ensures tables { (a : DeterministicAutomaton) (ns ms : List Node) → IsCompactionOf ns moves.now ms → AreCountTables a ns self.old → AreCountTables a ms self.new }
    {
        renumber(&mut self.numbers, moves);
        self.kept.keep_used(&mut self.numbers);
        self.memo.forget();
    }
}
