//! Merging of states that accept the same marked texts.

ghost use Rattle.marker_dfa.specs.Deterministic.{next_of, states_of};
ghost use Rattle.marker_dfa.specs.Merging.{AcceptsAlike, AreCellsAlike, AreEquivalent, AreNumbered, AreRepresentatives, AreRowsAlike, AreRowsUnder, AreTargetsAlike, IsCellUnder, IsRowUnder};
ghost use Rattle.std.specs.Prelude.{◌≡◌, ◌≤◌, ◌<◌, ℕ, Some, IsTrue, IfOk, length, map, slice_get, slice_index_or};

use crate::dfa::{Cell, Dfa, Row};
use crate::found::Hints;
use crate::states::HASH_FACTOR;
use span_types::NoMemory;
use std::alloc::Global;

/// Whether two targets have one representative, supposed that the state `merged` is represented by `kept`.
fn are_targets_alike(into: &[u16], merged: u16, kept: u16, left: u16, right: u16) -> bool
    ensures { IsTrue result → AreTargetsAlike into.now merged kept left right }
{
    let target = into.get(right as usize).copied();
    into.get(left as usize).copied() == target || (left == merged && target == Some(kept))
}

/// Whether two cells have the same marks, each with targets that are alike.
fn are_cells_alike(into: &[u16], merged: u16, kept: u16, left: &Cell, right: &Cell) -> bool
    ensures { IsTrue result → AreCellsAlike into.now merged kept left.now right.now }
{
    if left.marks != right.marks || left.targets.len() != right.targets.len() {
        return false;
    }
    for (left, right) in left.targets.iter().zip(&right.targets) {
        if !are_targets_alike(into, merged, kept, *left, *right) {
            return false;
        }
    }
    true
}

/// Whether the rows of two states have the same ends, and cells that are alike.
fn are_rows_alike(into: &[u16], merged: u16, kept: u16, left: &Row, right: &Row) -> bool
    ensures { IsTrue result → AreRowsAlike into.now merged kept left.now right.now }
{
    if left.ends != right.ends || left.cells.len() != right.cells.len() {
        return false;
    }
    for (left, right) in left.cells.iter().zip(&right.cells) {
        if !are_cells_alike(into, merged, kept, left, right) {
            return false;
        }
    }
    true
}

/// Whether a state that represents itself may represent an earlier one.
fn is_mergeable(dfa: &Dfa, into: &[u16], merged: u16, kept: u16) -> bool
    requires merged { merged < states_of dfa.now }
    requires representatives { AreRepresentatives dfa.now into.now }
    ensures { IsTrue result → (merged < kept) × (slice_get into.now kept ≡ Some kept) × AreEquivalent dfa.now merged kept }
{
    let rows = dfa.rows();
    merged < kept
        && into.get(kept as usize).copied() == Some(kept)
        && are_rows_alike(
            into,
            merged,
            kept,
            &rows[merged as usize],
            &rows[kept as usize],
        )
}

/// A number that depends on a row with the representatives of its targets, and is rarely the same for two rows. A target
/// that is the state itself counts as none.
fn hash_of(into: &[u16], state: u16, row: &Row) -> u64 {
    let mut hash: u64 = 0;
    for end in &row.ends {
        hash = with_number(hash, *end);
    }
    for cell in &row.cells {
        hash = hash_with_cell(hash, into, state, cell);
    }
    hash
}

fn hash_with_cell(hash: u64, into: &[u16], state: u16, cell: &Cell) -> u64 {
    let mut hash = with_number(hash, u16::MAX);
    for (mark, target) in cell.marks.iter().zip(&cell.targets) {
        hash = with_number(hash, *mark);
        if *target != state {
            hash = with_number(hash, into.get(*target as usize).copied().unwrap_or(0));
        }
    }
    hash
}

fn with_number(hash: u64, number: u16) -> u64 {
    (hash.rotate_left(5) ^ number as u64).wrapping_mul(HASH_FACTOR)
}

/// The first target of a state, if there is one.
fn first_target(row: &Row) -> Option<u16> {
    row.cells.first()?.targets.first().copied()
}

/// The state that represents a state which is processed, or the state itself. The states that are tested are that of the
/// hint and the representative of the first target, so that a state whose steps all lead to one state may be merged with
/// that.
fn representative(dfa: &Dfa, into: &[u16], hints: &mut Hints, state: u16) -> u16
    requires state { state < states_of dfa.now }
    requires representatives { AreRepresentatives dfa.now into.now }
    requires own { slice_get into.now state ≡ Some state }
    ensures within { state ≤ result }
    ensures own { slice_get into.now result ≡ Some result }
    ensures same { AreEquivalent dfa.now state result }
{
    let row = &dfa.rows()[state as usize];
    let slot = hints.slot(hash_of(into, state, row));
    let hint = hints.get(slot);
    if is_mergeable(dfa, into, state, hint) {
        return hint;
    }
    let target = first_target(row).unwrap_or(state);
    let next = into.get(target as usize).copied().unwrap_or(state);
    if is_mergeable(dfa, into, state, next) {
        return next;
    }
    hints.set(slot, state);
    state
}

/// A representative of each state. States are processed from the last to the first, so that most targets are processed
/// before the states that lead to them.
fn representatives(alloc: Global, dfa: &Dfa) -> Result<Vec<u16>, NoMemory>
    ensures { IfOk result (λ into. AreRepresentatives dfa.now into.items) }
{
    let states = dfa.states();
    let mut into = Vec::with_capacity(alloc, states as usize)?;
    'own: for state in 0..states {
        into.push(state)?;
    }
    let mut hints = Hints::new(alloc, states)?;
    let mut left = states;
    'states: while left > 0 {
        left -= 1;
        let kept = representative(dfa, &into, &mut hints, left);
        into[left as usize] = kept;
    }
    Ok(into)
}

/// The representatives, that of the start first, and for each state the index of its representative.
#[derive(Drop)]
struct Numbering {
    kept: Vec<u16>,
    numbers: Vec<u16>,
}

/// The representatives, that of the start first and none twice, and for each of them its index.
fn kept_of(alloc: Global, into: &[u16]) -> Result<Numbering, NoMemory>
    requires some { 0 < length into.now }
    requires few { length into.now ≤ 1024 }
    requires within { (q r : ℕ) → slice_get into.now q ≡ Some r → r < length into.now }
    requires own { (q r : ℕ) → slice_get into.now q ≡ Some r → slice_get into.now r ≡ Some r }
    ensures size { IfOk result (λ n. length n.numbers.items ≡ length into.now) }
    ensures few { IfOk result (λ n. length n.kept.items ≤ length into.now) }
    ensures start { IfOk result (λ n. slice_get n.kept.items 0 ≡ slice_get into.now 0) }
    ensures number { IfOk result (λ n. (q k : ℕ) → slice_get into.now q ≡ Some q → slice_get n.numbers.items q ≡ Some k → slice_get n.kept.items k ≡ Some q) }
    ensures back { IfOk result (λ n. (k r : ℕ) → slice_get n.kept.items k ≡ Some r → (slice_get into.now r ≡ Some r) × (slice_get n.numbers.items r ≡ Some k)) }
{
    let mut numbers = vec![in alloc; 0; into.len()]?;
    let mut kept = Vec::with_capacity(alloc, into.len())?;
    let start = into[0];
    kept.push(start)?;
    for (state, representative) in into.iter().enumerate() {
        if *representative as usize == state && *representative != start {
            numbers[state] = kept.len() as u16;
            kept.push(*representative)?;
        }
    }
    Ok(Numbering { kept, numbers })
}

/// For each state the index of its representative.
fn numbering_of(alloc: Global, into: &[u16]) -> Result<Numbering, NoMemory>
    requires some { 0 < length into.now }
    requires few { length into.now ≤ 1024 }
    requires within { (q r : ℕ) → slice_get into.now q ≡ Some r → r < length into.now }
    requires own { (q r : ℕ) → slice_get into.now q ≡ Some r → slice_get into.now r ≡ Some r }
    ensures { IfOk result (λ n. AreNumbered into.now n.kept.items n.numbers.items) }
{
    let firsts = kept_of(alloc, into)?;
    let mut numbers = Vec::with_capacity(alloc, into.len())?;
    for representative in into {
        numbers.push(firsts.numbers[*representative as usize])?;
    }
    Ok(Numbering {
        kept: firsts.kept,
        numbers,
    })
}

fn renumbered_cell(alloc: Global, cell: &Cell, numbers: &[u16]) -> Result<Cell, NoMemory>
    ensures { IfOk result (IsCellUnder numbers.now cell.now) }
{
    let mut targets = Vec::with_capacity(alloc, cell.targets.len())?;
    for target in &cell.targets {
        targets.push(numbers.get(*target as usize).copied().unwrap_or(0))?;
    }
    Ok(Cell {
        marks: cell.marks.as_slice().to_vec(alloc)?,
        targets,
    })
}

fn renumbered_row(alloc: Global, row: &Row, numbers: &[u16]) -> Result<Row, NoMemory>
    ensures { IfOk result (IsRowUnder numbers.now row.now) }
{
    let mut cells = Vec::with_capacity(alloc, row.cells.len())?;
    for cell in &row.cells {
        cells.push(renumbered_cell(alloc, cell, numbers)?)?;
    }
    Ok(Row {
        cells,
        ends: row.ends.as_slice().to_vec(alloc)?,
    })
}

/// The rows of the representatives, with the indices of the representatives of their targets.
fn rows_under(alloc: Global, dfa: &Dfa, numbering: &Numbering) -> Result<Vec<Row>, NoMemory>
    requires { (k q : ℕ) → slice_get numbering.now.kept.items k ≡ Some q → q < states_of dfa.now }
    ensures { IfOk result (λ rows. AreRowsUnder numbering.now.kept.items numbering.now.numbers.items dfa.now.rows rows.items) }
{
    let mut rows = Vec::with_capacity(alloc, numbering.kept.len())?;
    for kept in &numbering.kept {
        let row = renumbered_row(alloc, &dfa.rows()[*kept as usize], &numbering.numbers)?;
        rows.push(row)?;
    }
    Ok(rows)
}

/// An automaton that accepts the same marked texts and has at most as many states. From the last state to the first, a
/// state whose row equals that of a later one, with merged targets, is merged with it, as D. Revuz does in *Minimisation
/// of acyclic deterministic automata in linear time*, 1992. A state that leads to itself may be merged with another such
/// state. Equal rows are found by hash values, of which a table keeps one state each, so a few may be missed.
///
/// Takes time linear in the size of the automaton, and memory for the result and 130 bytes for each state.
///
/// # Errors
///
/// `NoMemory` if allocation fails.
pub fn merged(alloc: Global, dfa: &Dfa) -> Result<Dfa, NoMemory>
    ensures accepts { IfOk result (AcceptsAlike dfa.now) }
    ensures few { IfOk result (λ e. states_of e ≤ states_of dfa.now) }
    ensures bytes { IfOk result (λ e. (q m b r : ℕ) → next_of e q m b ≡ Some r → b < 256) }
{
    let variables = dfa.variables();
    let into = representatives(alloc, dfa)?;
    let numbering = numbering_of(alloc, &into)?;
    let rows = rows_under(alloc, dfa, &numbering)?;
    let classes = dfa.classes().to_vec(alloc)?;
    Ok(Dfa::from_rows(variables, classes, rows))
}
