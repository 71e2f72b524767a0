//! The tables of new nodes while they are computed.

ghost use Rattle.marker_dfa.specs.Deterministic.{states_of};
ghost use Rattle.state_tables.specs.Dictionary.{AreTables, count_of, distinct_of, kept_of, table_of};
ghost use Rattle.std.specs.Prelude.{◌≡◌, ℕ, ◌+◌, ◌-◌, ◌<◌, ◌≤◌, length, IfOk, IfSome, OnErr, OnOk, Some};
ghost use Rattle.table_grow.specs.Assignment.{AreKept};
ghost use Rattle.table_grow.specs.Pieces.{IsMade};
ghost use Rattle.table_grow.specs.Remembering.{AreTrueEntries, IsTrueEntry};

use crate::filler::Filler;
use crate::found::Made;
use marker_dfa::Dfa;
use node_store::{Node, NodeId, Store};
use pair_memo::PairMemo;
use span_types::{NoMemory, Steps};
use state_tables::Tables;
use std::alloc::Global;
use std::marker::Model;
use std::mem;
use std::sync::ledger::Ledger;

/// What tables are computed for, the nodes of a store and an automaton, and where memory comes from.
#[derive(Clone, Copy)]
pub(crate) struct Growth<'a> {
    pub(crate) alloc: Global,
    pub(crate) store: &'a Store,
    pub(crate) dfa: &'a Dfa,
}

/// A filling that is only read: it finds the tables of new nodes. Threads share it.
#[derive(Drop)]
pub(crate) struct Finder<'a> {
    pub(crate) growth: Growth<'a>,
    pub(crate) filler: &'a Filler,
    pub(crate) tables: &'a Tables,
    pub(crate) memory: &'a PairMemo,
}

impl<'a> Model for Finder<'a> {
    ghost use Rattle.table_grow.specs.Filling.{Filling, IsReady, filling_of};

    ghost Value = { Filling };

    ghost view = { λ f. filling_of f.growth.dfa.now f.growth.store.now f.tables.now f.filler.now f.memory.now };

    ghost invariant = { λ f. IsReady (filling_of f.growth.dfa.now f.growth.store.now f.tables.now f.filler.now f.memory.now) };
}

impl<'a> Growth<'a> {
    ghost use Rattle.table_grow.specs.Filling.{IsReady, filling_of};

    /// The finder of these parts.
    pub(crate) fn finder(
        self,
        filler: &'a Filler,
        tables: &'a Tables,
        memory: &'a PairMemo,
    ) -> Finder<'a>
        requires { IsReady (filling_of self.dfa.now self.store.now tables.now filler.now memory.now) }
        ensures { result ≡ filling_of self.entry.dfa.now self.entry.store.now tables.now filler.now memory.now }
    {
        Finder {
            growth: self,
            filler,
            tables,
            memory,
        }
    }
}

impl<'a> Finder<'a> {
    ghost use Rattle.table_grow.specs.Filling.{AreParts, IsDue, IsReady};
    ghost use Rattle.table_grow.specs.Pieces.{IsFound};
    ghost use Rattle.table_grow.specs.declared.found.Found.TheVariants.{New};

    /// Where memory comes from.
    pub(crate) fn alloc(&self) -> Global {
        self.growth.alloc
    }

    /// The numbers of the tables of a pair's children. A byte has none.
    pub(crate) fn parts(&self, id: NodeId) -> Option<(usize, usize)>
        requires due { IsDue self.now id }
        ensures parts { IfSome result (AreParts self.now id.index) }
        ensures ready { IsReady self.now }
    {
        match self.growth.store.node(id) {
            Node::Byte(_) => None,
            Node::Pair(left, right) => {
                let left = self.filler.number(self.tables, self.growth.store, left);
                let right = self.filler.number(self.tables, self.growth.store, right);
                Some((left, right))
            }
        }
    }

    /// The table of a node, computed from its byte or from the tables of its parts.
    pub(crate) fn compute(
        &self,
        id: NodeId,
        parts: Option<(usize, usize)>,
    ) -> Result<Made, NoMemory>
        requires due { IsDue self.now id }
        requires parts { IfSome parts (AreParts self.now id.index) }
        ensures found { IfOk result (λ x. IsFound self.now id.index (New x)) }
        ensures parts { IfOk result (λ x. x.parts ≡ parts) }
    {
        let Growth { alloc, store, dfa } = self.growth;
        let table = self.filler.compute(alloc, self.tables, store, dfa, id)?;
        Ok(Made { parts, table })
    }

    /// The number of a cached composition.
    pub(crate) fn recall(&self, left: usize, right: usize) -> Option<usize>
        ensures { IfSome result (λ n. IsTrueEntry self.now.tables ((left, right), n)) }
    {
        self.memory.peek(left, right)
    }
}

/// The tables, the new nodes that are assigned, and the cache of compositions. Old and assigned nodes have the tables
/// of their texts, and the cached compositions are true.
#[derive(Drop)]
pub(crate) struct Filling<'a> {
    pub(crate) growth: Growth<'a>,
    filler: Filler,
    tables: Tables,
    memory: PairMemo,
}

impl<'a> Model for Filling<'a> {
    ghost use Rattle.table_grow.specs.Filling.{Filling, IsReady, filling_of};

    ghost Value = { Filling };

    ghost view = { λ f. filling_of f.growth.dfa.now f.growth.store.now f.tables f.filler f.memory };

    ghost invariant = { λ f. IsReady (filling_of f.growth.dfa.now f.growth.store.now f.tables f.filler f.memory) };
}

// Keeps a table that was computed, caches the composition if `caches`, and returns the table's number.
fn keep_one(
    tables: &mut Tables,
    memory: &mut PairMemo,
    one: Made,
    caches: bool,
) -> Result<usize, NoMemory>
    requires entries { AreTrueEntries tables.old memory.old }
    requires made { IsMade tables.old one }
    ensures number { IfOk result (λ n. (n < distinct_of tables.new) × (kept_of tables.new n ≡ one.table)) }
    ensures entries { AreTrueEntries tables.new memory.new }
    ensures kept { AreKept tables.old tables.new }
{
    let Made { parts, table } = one;
    let number = tables.keep(table)?;
    match parts {
        Some((left, right)) if caches => memory.note(left, right, number),
        _ => {}
    }
    Ok(number)
}

impl<'a> Filling<'a> {
    ghost use Rattle.table_grow.specs.Assignment.{finished};
    ghost use Rattle.table_grow.specs.Filling.{AreParts, AssignsOne, Continues, IsDue, IsFilled, IsNumberOf, IsReady, Starts};
    ghost use Rattle.table_grow.specs.Pieces.{IsFound, IsMade};
    ghost use Rattle.table_grow.specs.declared.found.Found.TheVariants.{New};

    /// Takes the tables and the cache, with no new node assigned yet. `close` returns them. If allocation fails, they
    /// stay where they are.
    pub(crate) fn open(
        growth: Growth<'a>,
        tables: &mut Tables,
        memory: &mut PairMemo,
    ) -> Result<Filling<'a>, NoMemory>
        requires covered { count_of tables.old ≤ length growth.store.now }
        requires states { tables.old.states ≡ states_of growth.dfa.now }
        requires true_tables { AreTables growth.dfa.now growth.store.now tables.old }
        requires true_entries { AreTrueEntries tables.old memory.old }
        ensures starts { IfOk result (Starts growth.entry.dfa.now growth.entry.store.now tables.old memory.old) }
        ensures tables { OnErr result (tables.new ≡ record tables.old { room = tables.new.room }) }
        ensures memory { OnErr result (memory.new ≡ memory.old) }
    {
        let _ = growth.dfa.states();
        let _ = growth.store.count();
        let filler = Filler::new(growth.alloc, tables, growth.store)?;
        let spare = PairMemo::new(growth.alloc, 1)?;
        let empty = Tables::new(growth.alloc, growth.dfa);
        Ok(Filling {
            growth,
            filler,
            tables: mem::replace(tables, empty),
            memory: mem::replace(memory, spare),
        })
    }

    /// Puts the tables and the cache back. If all new nodes are assigned, each gets its table, and counts as one step.
    pub(crate) fn close<L: Ledger>(
        self,
        done: Result<(), NoMemory>,
        tables: &mut Tables,
        memory: &mut PairMemo,
        places: &mut Steps<L>,
    ) -> Result<(), NoMemory>
        requires filled { OnOk done (IsFilled self) }
        ensures done { result ≡ done }
        ensures all { OnOk result (count_of tables.new ≡ length self.entry.nodes) }
        ensures meaning { AreTables self.entry.automaton self.entry.nodes tables.new }
        ensures entries { AreTrueEntries tables.new memory.new }
        ensures old { (id : ℕ) → id < count_of self.entry.tables → table_of tables.new id ≡ table_of self.entry.tables id }
        ensures states { tables.new.states ≡ self.entry.tables.states }
        ensures err { OnErr result (tables.new.numbers ≡ self.entry.tables.numbers) }
        ensures steps_ok { OnOk result (places.new ≡ places.old + (length self.entry.nodes - count_of self.entry.tables)) }
        ensures steps_err { OnErr result (places.new ≡ places.old) }
    {
        let Filling {
            growth: _,
            filler,
            tables: filled,
            memory: cached,
        } = self;
        *tables = filled;
        *memory = cached;
        done?;
        filler.finish(tables, places);
        Ok(())
    }

    /// What tables are computed for.
    pub(crate) fn growth(&self) -> Growth<'a>
        ensures store { result.store.now ≡ self.now.nodes }
        ensures ready { IsReady self.now }
    {
        self.growth
    }

    /// The filling, to be read.
    pub(crate) fn finder(&self) -> Finder<'_>
        ensures { result ≡ self.now }
    {
        Finder {
            growth: self.growth,
            filler: &self.filler,
            tables: &self.tables,
            memory: &self.memory,
        }
    }

    /// The number of nodes that had tables.
    pub(crate) fn known(&self) -> usize
        ensures { result ≡ self.now.filler.known }
    {
        self.filler.known()
    }

    /// The number of kept tables.
    pub(crate) fn distinct(&self) -> usize {
        self.tables.distinct()
    }

    /// The number of cached compositions.
    pub(crate) fn cached(&self) -> usize {
        self.memory.len()
    }

    /// The number of a cached composition of these parts, which is found faster the next time.
    pub(crate) fn recall_again(&mut self, parts: Option<(usize, usize)>) -> Option<usize>
        ensures found { IfSome result (λ n. (p : ℕ × ℕ) × (parts ≡ Some p) × IsTrueEntry self.old.tables (p, n)) }
        ensures same { self.new ≡ self.old }
    {
        let (left, right) = parts?;
        self.memory.find(left, right)
    }

    /// Keeps a table that was computed, caches the composition if `caches`, and returns the table's number.
    pub(crate) fn keep(&mut self, one: Made, caches: bool) -> Result<usize, NoMemory>
        requires made { IsMade self.old.tables one }
        ensures number { IfOk result (λ n. (n < distinct_of self.new.tables) × (kept_of self.new.tables n ≡ one.table)) }
        ensures kept { AreKept self.old.tables self.new.tables }
        ensures same { self.new ≡ record self.old { tables = self.new.tables; entries = self.new.entries } }
    {
        let _ = self.tables.count();
        keep_one(&mut self.tables, &mut self.memory, one, caches)
    }

    /// Assigns the kept table of this number to a new node.
    pub(crate) fn assign(&mut self, id: NodeId, number: usize)
        requires due { IsDue self.old id }
        requires number { IsNumberOf self.old id.index number }
        ensures one { AssignsOne self.old self.new id }
        ensures same { self.new ≡ record self.old { filler = self.new.filler } }
    {
        self.filler
            .place_kept(&self.tables, self.growth.store, id, number);
    }
}
