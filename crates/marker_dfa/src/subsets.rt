//! The reached sets of states, found from the start on.

ghost use Rattle.marker_dfa.specs.Bundled.{automaton_in};
ghost use Rattle.marker_dfa.specs.Deterministic.{AreTooMany};
ghost use Rattle.marker_dfa.specs.Making.{AreAllReaders, AreAllRows, AreBySource, AreCells, AreExits, AreFound, AreInOrder, AreReaders, Extends, IsCell, IsRow, bytes_of};
ghost use Rattle.marker_dfa.specs.Reached.{IsReached};
ghost use Rattle.marker_dfa.specs.Refusals.{IfTooMany};
ghost use Rattle.marker_nfa.specs.Automaton.{IsAutomaton, Moves};
ghost use Rattle.std.specs.Prelude.{◌≡◌, ◌<◌, ◌≤◌, ◌++◌, ◌∷◌, [], List, Bool, length, Some, slice_get, vec_len, IfOk};

use crate::bundled::BundledNfa;
use crate::bundles::{Readers, bundles_by_source, readers_by_byte};
use crate::dfa::{Cell, Row};
use crate::exits::{Exits, ends_of_set, exits_of, steps_of};
use crate::found::{Found, found_start, index_of};
use crate::refusal::DfaRefusal;
use span_types::NoMemory;
use std::alloc::Global;

/// What each row is computed with: for each state the bundles with this source, for each byte that is read the bundles
/// that read it, and the greatest number of sets.
#[derive(Drop)]
struct Plan {
    by_source: Vec<Vec<usize>>,
    by_byte: Vec<Readers>,
    most: u16,
}

impl Cell {
    /// Appends a mark and its target.
    fn push(&mut self, mark: u16, target: u16) -> Result<(), NoMemory>
        ensures marks { IfOk result (λ _. self.new.marks.items ≡ self.old.marks.items ++ mark ∷ []) }
        ensures targets { IfOk result (λ _. self.new.targets.items ≡ self.old.targets.items ++ target ∷ []) }
    {
        self.marks.push(mark)?;
        self.targets.push(target)?;
        Ok(())
    }
}

/// The marks with a next state from a set with one byte, and these states.
fn cell_of(
    alloc: Global,
    nfa: &BundledNfa,
    plan: &Plan,
    exits: &Exits,
    readers: &Readers,
    found: &mut Found,
) -> Result<Cell, DfaRefusal>
    requires bundles { AreInOrder (automaton_in nfa.now) nfa.now.bundles.items }
    requires exits { AreExits (automaton_in nfa.now) nfa.now.bundles.items exits.now }
    requires readers { AreReaders nfa.now.bundles.items readers.now }
    requires reached { IsReached nfa.now.states (Moves (automaton_in nfa.now)) exits.now.from }
    requires found { AreFound plan.now.most (automaton_in nfa.now) found.old.sets.items }
    ensures found { IfOk result (λ _. AreFound plan.now.most (automaton_in nfa.now) found.new.sets.items) }
    ensures extends { IfOk result (λ _. Extends found.old.sets.items found.new.sets.items) }
    ensures cell { IfOk result (λ c. IsCell (automaton_in nfa.now) found.new.sets.items exits.now.from readers.now.byte c.marks.items c.targets.items) }
    ensures refused { IfTooMany result (AreTooMany plan.now.most (automaton_in nfa.now)) }
{
    let mut cell = Cell {
        marks: Vec::new(alloc),
        targets: Vec::new(alloc),
    };
    let steps = steps_of(alloc, nfa, &nfa.bundles, exits, readers)?;
    for step in &steps {
        let target = index_of(alloc, found, &step.to, plan.most)?;
        cell.push(step.mark, target)?;
    }
    Ok(cell)
}

/// The cells of a set, one for each of the bytes that are read.
fn cells_of(
    alloc: Global,
    nfa: &BundledNfa,
    plan: &Plan,
    exits: &Exits,
    found: &mut Found,
) -> Result<Vec<Cell>, DfaRefusal>
    requires bundles { AreInOrder (automaton_in nfa.now) nfa.now.bundles.items }
    requires exits { AreExits (automaton_in nfa.now) nfa.now.bundles.items exits.now }
    requires readers { AreAllReaders nfa.now.bundles.items plan.now.by_byte.items }
    requires reached { IsReached nfa.now.states (Moves (automaton_in nfa.now)) exits.now.from }
    requires found { AreFound plan.now.most (automaton_in nfa.now) found.old.sets.items }
    ensures found { IfOk result (λ _. AreFound plan.now.most (automaton_in nfa.now) found.new.sets.items) }
    ensures extends { IfOk result (λ _. Extends found.old.sets.items found.new.sets.items) }
    ensures cells { IfOk result (λ cells. AreCells (automaton_in nfa.now) found.new.sets.items exits.now.from (bytes_of plan.now.by_byte.items) (length plan.now.by_byte.items) cells.items) }
    ensures refused { IfTooMany result (AreTooMany plan.now.most (automaton_in nfa.now)) }
{
    let mut cells = Vec::new(alloc);
    for readers in &plan.by_byte {
        let cell = cell_of(alloc, nfa, plan, exits, readers, found)?;
        cells.push(cell)?;
    }
    Ok(cells)
}

/// The row of the set at an index.
fn row_of(
    alloc: Global,
    nfa: &BundledNfa,
    plan: &Plan,
    index: usize,
    found: &mut Found,
) -> Result<Row, DfaRefusal>
    requires automaton { IsAutomaton (automaton_in nfa.now) }
    requires bundles { AreInOrder (automaton_in nfa.now) nfa.now.bundles.items }
    requires sources { AreBySource (automaton_in nfa.now) nfa.now.bundles.items plan.now.by_source.items }
    requires readers { AreAllReaders nfa.now.bundles.items plan.now.by_byte.items }
    requires index { index < vec_len found.old.sets }
    requires found { AreFound plan.now.most (automaton_in nfa.now) found.old.sets.items }
    ensures found { IfOk result (λ _. AreFound plan.now.most (automaton_in nfa.now) found.new.sets.items) }
    ensures extends { IfOk result (λ _. Extends found.old.sets.items found.new.sets.items) }
    ensures row { IfOk result (λ r. (x : List Bool) → slice_get found.old.sets.items index ≡ Some x → IsRow (automaton_in nfa.now) found.new.sets.items x (bytes_of plan.now.by_byte.items) r) }
    ensures refused { IfTooMany result (AreTooMany plan.now.most (automaton_in nfa.now)) }
{
    let from = found.sets[index].copy(alloc)?;
    let ends = ends_of_set(alloc, nfa, &from)?;
    let exits = exits_of(alloc, nfa, &nfa.bundles, &plan.by_source, from)?;
    let cells = cells_of(alloc, nfa, plan, &exits, found)?;
    Ok(Row { cells, ends })
}

/// The bundles of an automaton with each source, and those that read each of some bytes.
fn plan_of(alloc: Global, nfa: &BundledNfa, bytes: &[u8], most: u16) -> Result<Plan, NoMemory>
    requires { AreInOrder (automaton_in nfa.now) nfa.now.bundles.items }
    ensures sources { IfOk result (λ plan. AreBySource (automaton_in nfa.now) nfa.now.bundles.items plan.by_source.items) }
    ensures readers { IfOk result (λ plan. AreAllReaders nfa.now.bundles.items plan.by_byte.items) }
    ensures bytes { IfOk result (λ plan. bytes_of plan.by_byte.items ≡ bytes.now) }
    ensures most { IfOk result (λ plan. plan.most ≡ most) }
{
    let by_source = bundles_by_source(alloc, nfa, &nfa.bundles)?;
    let by_byte = readers_by_byte(alloc, &nfa.bundles, bytes)?;
    Ok(Plan {
        by_source,
        by_byte,
        most,
    })
}

/// The rows of all reached sets, with a cell for each of the bytes. There are at most `most` sets.
///
/// # Errors
///
/// `TooManyStates` exactly if more than `most` sets are reached, and `NoMemory` if allocation fails.
pub fn rows_of(
    alloc: Global,
    nfa: &BundledNfa,
    bytes: &[u8],
    most: u16,
) -> Result<Vec<Row>, DfaRefusal>
    requires automaton { IsAutomaton (automaton_in nfa.now) }
    requires bundles { AreInOrder (automaton_in nfa.now) nfa.now.bundles.items }
    requires some { 1 ≤ most }
    ensures rows { IfOk result (λ rows. AreAllRows most (automaton_in nfa.now) bytes.now rows.items) }
    ensures refused { IfTooMany result (AreTooMany most (automaton_in nfa.now)) }
{
    let plan = plan_of(alloc, nfa, bytes, most)?;
    let mut found = found_start(alloc, nfa, most)?;
    let mut rows = Vec::new(alloc);
    'rows: while rows.len() < found.sets.len() {
        let row = row_of(alloc, nfa, &plan, rows.len(), &mut found)?;
        rows.push(row)?;
    }
    Ok(rows)
}
