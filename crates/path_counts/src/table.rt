//! The counting table of one text.

ghost use Rattle.marker_dfa.specs.Deterministic.{DeterministicAutomaton, IsDeterministic, marks_of, next_of, states_of};
ghost use Rattle.path_counts.specs.Branch.{branch_of, root_of};
ghost use Rattle.path_counts.specs.Counting.{AreCounts, IsByteRow, IsComposed, IsComposedRow, IsCountTable, IsCountTableOf, any_number_at, counts_at, hits, number_at, number_by_marks, number_from, number_onward, number_through, onward_from, unmarked_at};
ghost use Rattle.path_counts.specs.Paths.{stopped};
ghost use Rattle.path_counts.specs.Pushed.{IsComposedWithin, IsPushed};
ghost use Rattle.std.specs.Prelude.{◌↔◌, IsTrue, ◌≡◌, ℕ, ◌+◌, ◌*◌, ◌<◌, ◌≤◌, ◌^◌, ◌==◌, ◌++◌, [], ◌∷◌, List, length, All, IfSome, IfOk, OnOk, slice_index, if◌then◌else◌};

use crate::count::{Count, add, add_counts, sum_onward};
use crate::row_list::{RowList, digest_of, is_same_rows};
use distinct_items::Digested;
use marker_dfa::Dfa;
use span_types::NoMemory;
use std::alloc::Global;
use std::marker::Model;

/// How many marked texts lead over a text from each state to each state. Contracts see it as a list of rows, one for each state.
#[derive(Drop)]
pub struct CountTable {
    rows: RowList,
    digest: u64,
}

impl Model for CountTable {
    ghost use Rattle.std.specs.Prelude.{List};
    ghost use Rattle.path_counts.specs.Counting.{CountRow};

    ghost Value = { List CountRow };

    ghost view = { λ t. t.rows };

    ghost use Rattle.path_counts.specs.Digest.{IsDigested};

    ghost invariant = { λ t. IsDigested t.rows t.digest };
}

impl CountTable {
    /// The number of states.
    pub fn states(&self) -> u16
        ensures value { result ≡ length self.now }
        ensures shape { IsCountTableOf (length self.now) self.now }
    {
        self.rows.len() as u16
    }

    /// The state reached from `p` over the text with every mark 0.
    pub fn unmarked(&self, p: u16) -> Option<u16>
        requires { p < length self.now }
        ensures value { result ≡ unmarked_at self.now p }
        ensures within { IfSome result (λ q. q < length self.now) }
    {
        self.rows.unmarked(p as usize)
    }

    /// The states reached from `p` over the text with some mark other than 0, in order, each with its number.
    pub fn counts(&self, p: u16) -> &[Count]
        requires { p < length self.now }
        ensures value { result.now ≡ counts_at self.now p }
        ensures counts { AreCounts (length self.now) result.now }
    {
        self.rows.counts(p as usize)
    }

    /// The sum over the marked texts that lead on from `p` with some mark, of what `after` says of the state to which each leads.
    /// It stops at `u64::MAX`.
    pub fn marked(&self, p: u16, after: &[u64]) -> u64
        requires state { p < length self.now }
        requires after { length after.now ≡ length self.now }
        ensures { result ≡ stopped (number_onward (counts_at self.now p) after.now) }
    {
        sum_onward(self.counts(p), after)
    }

    /// The same sum over all marked texts that lead on from `p`, the one without marks among them.
    pub fn all(&self, p: u16, after: &[u64]) -> u64
        requires state { p < length self.now }
        requires after { length after.now ≡ length self.now }
        ensures { result ≡ stopped (number_onward (counts_at self.now p) after.now + onward_from (unmarked_at self.now p) after.now) }
    {
        let marked = self.marked(p, after);
        match self.unmarked(p) {
            Some(q) => marked.saturating_add(after[q as usize]),
            None => marked,
        }
    }
}

// A table is found by its digest, which is computed once.
impl Digested for CountTable {
    ghost root = { root_of };

    ghost branch = { branch_of };

    fn root(&self, roots: usize) -> usize {
        (self.digest % roots as u64) as usize
    }

    fn branch(&self, depth: usize) -> usize {
        (self.digest >> (63 - depth % 64) as u32 & 1) as usize
    }

    // It takes constant time where the digests differ.
    fn is_same(&self, other: &CountTable) -> bool {
        self.digest == other.digest && is_same_rows(&self.rows, &other.rows)
    }
}

// Adds the numbers from a state with any marks, times `times`.
fn add_onward(sums: &mut [u64], table: &CountTable, state: u16, times: u64)
    requires state { state < length table.now }
    requires long { length sums.old ≡ length table.now }
    ensures { (q : ℕ) → q < length sums.old → slice_index sums.new q ≡ stopped (slice_index sums.old q + times * any_number_at table.now state q) }
{
    add_counts(sums, table.counts(state), times);
    if let Some(q) = table.unmarked(state) {
        add(sums, q, times);
    }
}

// Adds each number times those from its state with any marks.
fn add_through(sums: &mut [u64], counts: &[Count], right: &CountTable)
    requires long { length sums.old ≡ length right.now }
    requires within { All (λ c. c.state < length right.now) counts.now }
    ensures { (q : ℕ) → q < length sums.old → slice_index sums.new q ≡ stopped (slice_index sums.old q + number_through right.now counts.now q) }
{
    for count in counts {
        add_onward(sums, right, count.state, count.number);
    }
}

// Adds the numbers from the state, if any, with some mark.
fn add_from(sums: &mut [u64], table: &CountTable, state: Option<u16>)
    requires state { IfSome state (λ q. q < length table.now) }
    requires long { length sums.old ≡ length table.now }
    ensures { (q : ℕ) → q < length sums.old → slice_index sums.new q ≡ stopped (slice_index sums.old q + number_from table.now state q) }
{
    if let Some(q) = state {
        add_counts(sums, table.counts(q), 1);
    }
}

// Appends the row of two texts joined, from that of a left text without counts.
fn push_unmarked(
    rows: &mut RowList,
    unmarked: Option<u16>,
    right: &CountTable,
) -> Result<(), NoMemory>
    requires { IfSome unmarked (λ q. q < length right.now) }
    ensures { OnOk result (IsPushed (IsComposedWithin right.now (record { unmarked = unmarked; counts = [] })) rows.old rows.new) }
{
    match unmarked {
        Some(q) => rows.push(right.unmarked(q), right.counts(q)),
        None => rows.push(None, &[]),
    }
}

// Appends the row of two texts joined, from that of the left text. The sums are a number for each state, all 0.
fn push_by_sums(
    rows: &mut RowList,
    unmarked: Option<u16>,
    counts: &[Count],
    right: &CountTable,
    sums: &mut [u64],
) -> Result<(), NoMemory>
    requires unmarked { IfSome unmarked (λ q. q < length right.now) }
    requires counts { All (λ c. c.state < length right.now) counts.now }
    requires long { length sums.old ≡ length right.now }
    requires few { length right.now < 2 ^ 16 }
    requires clear { All (λ n. n ≡ 0) sums.old }
    ensures row { OnOk result (IsPushed (IsComposedWithin right.now (record { unmarked = unmarked; counts = counts.now })) rows.old rows.new) }
    ensures clear { OnOk result (All (λ n. n ≡ 0) sums.new) }
{
    add_from(sums, right, unmarked);
    add_through(sums, counts, right);
    let next = match unmarked {
        Some(q) => right.unmarked(q),
        None => None,
    };
    rows.push_sums(next, sums)
}

// The same. Most rows have no counts, and are copied.
fn push_composed(
    rows: &mut RowList,
    unmarked: Option<u16>,
    counts: &[Count],
    right: &CountTable,
    sums: &mut [u64],
) -> Result<(), NoMemory>
    requires unmarked { IfSome unmarked (λ q. q < length right.now) }
    requires counts { All (λ c. c.state < length right.now) counts.now }
    requires long { length sums.old ≡ length right.now }
    requires few { length right.now < 2 ^ 16 }
    requires clear { All (λ n. n ≡ 0) sums.old }
    ensures row { OnOk result (IsPushed (IsComposedWithin right.now (record { unmarked = unmarked; counts = counts.now })) rows.old rows.new) }
    ensures clear { OnOk result (All (λ n. n ≡ 0) sums.new) }
{
    if counts.is_empty() {
        push_unmarked(rows, unmarked, right)
    } else {
        push_by_sums(rows, unmarked, counts, right, sums)
    }
}

// The rows of two texts joined. The sums are a number for each state, all 0.
fn composed_rows(
    alloc: Global,
    left: &CountTable,
    right: &CountTable,
    sums: &mut [u64],
) -> Result<RowList, NoMemory>
    requires states { length left.now ≡ length right.now }
    requires long { length sums.old ≡ length right.now }
    requires clear { All (λ n. n ≡ 0) sums.old }
    ensures composed { IfOk result (λ rows. IsComposed left.now right.now rows) }
    ensures shape { IfOk result (λ rows. IsCountTableOf (length right.now) rows) }
{
    let states = right.states();
    let counts = left.rows.all().max(right.rows.all());
    let mut rows = RowList::with_capacity(alloc, states as usize, counts)?;
    for p in 0..states {
        push_composed(&mut rows, left.unmarked(p), left.counts(p), right, sums)?;
    }
    Ok(rows)
}

/// The counting table of two texts joined, from the tables of the two.
///
/// # Errors
///
/// `NoMemory` if an allocation fails.
pub fn compose(alloc: Global, left: &CountTable, right: &CountTable) -> Result<CountTable, NoMemory>
    requires { length left.now ≡ length right.now }
    ensures value { IfOk result (IsComposed left.now right.now) }
    ensures meaning { IfOk result (λ t. (a : DeterministicAutomaton) (s u : List ℕ) → IsDeterministic a
        → IsCountTable a s left.now → IsCountTable a u right.now → IsCountTable a (s ++ u) t) }
{
    let mut sums = Vec::new(alloc);
    sums.resize(right.states() as usize, 0)?;
    let rows = composed_rows(alloc, left, right, &mut sums)?;
    let digest = digest_of(&rows);
    Ok(CountTable { rows, digest })
}

// Adds 1 to the state to which the mark leads, if it isn't 0.
fn add_mark(sums: &mut [u64], dfa: &Dfa, p: u16, byte: u8, mark: u16)
    requires automaton { IsDeterministic dfa.now }
    requires state { p < states_of dfa.now }
    requires long { length sums.old ≡ states_of dfa.now }
    ensures { (q : ℕ) → q < length sums.old → slice_index sums.new q ≡ stopped (slice_index sums.old q + (if mark == 0 then 0 else hits (next_of dfa.now p mark byte) q)) }
{
    if mark != 0 {
        if let Some(q) = dfa.next(p, mark, byte) {
            add(sums, q, 1);
        }
    }
}

// Adds 1 for each mark other than 0 that leads on from `p` over the byte.
fn add_marks(sums: &mut [u64], dfa: &Dfa, p: u16, byte: u8)
    requires automaton { IsDeterministic dfa.now }
    requires state { p < states_of dfa.now }
    requires long { length sums.old ≡ states_of dfa.now }
    ensures { (q : ℕ) → q < length sums.old → slice_index sums.new q ≡ stopped (slice_index sums.old q + number_by_marks dfa.now p byte q (marks_of dfa.now p byte)) }
{
    for mark in dfa.marks(p, byte) {
        add_mark(sums, dfa, p, byte, *mark);
    }
}

// Appends the row of a byte. The sums are a number for each state, all 0.
fn push_byte(
    rows: &mut RowList,
    dfa: &Dfa,
    p: u16,
    byte: u8,
    sums: &mut [u64],
) -> Result<(), NoMemory>
    requires automaton { IsDeterministic dfa.now }
    requires state { p < states_of dfa.now }
    requires long { length sums.old ≡ states_of dfa.now }
    requires clear { All (λ n. n ≡ 0) sums.old }
    ensures row { OnOk result (IsPushed (λ row. IsByteRow dfa.now byte p row × AreCounts (states_of dfa.now) row.counts) rows.old rows.new) }
    ensures clear { OnOk result (All (λ n. n ≡ 0) sums.new) }
{
    add_marks(sums, dfa, p, byte);
    rows.push_sums(dfa.next(p, 0, byte), sums)
}

// The rows of a byte. The sums are a number for each state, all 0.
fn byte_rows(alloc: Global, dfa: &Dfa, byte: u8, sums: &mut [u64]) -> Result<RowList, NoMemory>
    requires long { length sums.old ≡ states_of dfa.now }
    requires clear { All (λ n. n ≡ 0) sums.old }
    ensures { IfOk result (λ rows. IsCountTable dfa.now (byte ∷ []) rows) }
{
    let states = dfa.states();
    let mut rows = RowList::with_capacity(alloc, states as usize, 0)?;
    for p in 0..states {
        push_byte(&mut rows, dfa, p, byte, sums)?;
    }
    Ok(rows)
}

/// The counting table of one byte. It asks for the automaton's next state once for each state and each mark that leads on there.
///
/// # Errors
///
/// `NoMemory` if an allocation fails.
pub fn of_byte(alloc: Global, dfa: &Dfa, byte: u8) -> Result<CountTable, NoMemory>
    ensures { IfOk result (λ t. IsCountTable dfa.now (byte ∷ []) t) }
{
    let mut sums = Vec::new(alloc);
    sums.resize(dfa.states() as usize, 0)?;
    let rows = byte_rows(alloc, dfa, byte, &mut sums)?;
    let digest = digest_of(&rows);
    Ok(CountTable { rows, digest })
}
