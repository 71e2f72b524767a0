//! Bundles of edges: those with one mark, one target and the same letters, as one.

ghost use Rattle.marker_dfa.specs.Bundled.{automaton_in};
ghost use Rattle.marker_dfa.specs.Bundles.{edges_in, sources_of};
ghost use Rattle.marker_dfa.specs.Making.{AreAllReaders, AreBundles, AreBySource, AreInOrder, AreReaders, AreWellmade, GainsIndex, IsLike, bytes_of};
ghost use Rattle.marker_dfa.specs.declared.bundles.Bundle.{Bundle};
ghost use Rattle.marker_nfa.specs.Automaton.{Automaton, IsAutomaton};
ghost use Rattle.marker_nfa.specs.Parts.{Adds};
ghost use Rattle.std.specs.Prelude.{◌≡◌, ◌<◌, ◌↔◌, ◌∷◌, ℕ, [], Contains, IsTrue, IfOk, OnOk, length};

use crate::bundled::BundledNfa;
use marker_nfa::Edge;
use span_types::{ByteSet, NoMemory};
use std::alloc::Global;
use std::marker::Model;

/// Edges that differ only in their sources, as one. The first source may be among the others again.
///
/// The three numbers are next to each other, so that a bundle takes 64 bytes.
#[derive(Drop)]
pub struct Bundle {
    pub first: u16,
    pub mark: u16,
    pub to: u16,
    pub others: Vec<u16>,
    pub letters: ByteSet,
}

/// For a mark and a target, the index of a bundle that may have them. It is only a hint: the bundle at this index is
/// tested.
#[derive(Drop)]
struct Hints {
    by_mark: Vec<Vec<u32>>,
}

impl Hints {
    fn new(alloc: Global) -> Hints {
        Hints {
            by_mark: Vec::new(alloc),
        }
    }

    fn get(&self, edge: &Edge) -> usize {
        match self.by_mark.get(edge.mark as usize) {
            Some(row) => row.get(edge.to as usize).copied().unwrap_or(0) as usize,
            None => 0,
        }
    }

    // Makes room for a mark.
    fn reach(&mut self, alloc: Global, mark: u16) -> Result<(), NoMemory> {
        for next in self.by_mark.len()..=mark as usize {
            self.by_mark.push(Vec::new(alloc))?;
        }
        Ok(())
    }

    fn set(&mut self, alloc: Global, edge: &Edge, index: usize) -> Result<(), NoMemory> {
        let to = edge.to as usize;
        self.reach(alloc, edge.mark)?;
        if let Some(row) = self.by_mark.get_mut(edge.mark as usize) {
            if row.len() <= to {
                row.resize(to + 1, 0)?;
            }
            if let Some(hint) = row.get_mut(to) {
                *hint = u32::try_from(index).unwrap_or(0);
            }
        }
        Ok(())
    }
}

/// Whether an edge has the mark, the target and the letters of a bundle.
fn is_like(bundle: &Bundle, edge: &Edge) -> bool
    ensures { IsTrue result → IsLike bundle.now edge.now }
{
    bundle.mark == edge.mark && bundle.to == edge.to && bundle.letters.is_same(&edge.letters)
}

/// Puts an edge into the bundle at an index if it is like it, and otherwise into a bundle of its own. Returns the
/// bundle's index.
fn put_edge(
    alloc: Global,
    bundles: &mut Vec<Bundle>,
    edge: &Edge,
    hint: usize,
) -> Result<usize, NoMemory>
    ensures { IfOk result (λ _. Adds (edges_in bundles.old.items) (edges_in bundles.new.items) (λ e. e ≡ edge.now)) }
{
    if hint < bundles.len() && is_like(&bundles[hint], edge) {
        bundles[hint].others.push(edge.from)?;
        return Ok(hint);
    }
    let index = bundles.len();
    bundles.push(Bundle {
        first: edge.from,
        mark: edge.mark,
        to: edge.to,
        others: Vec::new(alloc),
        letters: edge.letters,
    })?;
    Ok(index)
}

/// The edges of an automaton that is being constructed, in bundles. A bundle takes 64 bytes, and each of its edges but the
/// first takes 2 bytes.
///
/// Contracts see the edges as a list.
#[derive(Drop)]
pub struct BundledEdges {
    alloc: Global,
    bundles: Vec<Bundle>,
    hints: Hints,
}

impl Model for BundledEdges {
    ghost use Rattle.std.specs.Prelude.{List};
    ghost use Rattle.marker_nfa.specs.declared.nfa.Edge.{Edge};
    ghost use Rattle.marker_dfa.specs.Bundles.{edges_in};

    ghost Value = { List Edge };

    ghost view = { λ e. edges_in e.bundles.items };
}

impl BundledEdges {
    /// No edges.
    pub fn new(alloc: Global) -> BundledEdges
        ensures { result ≡ [] }
    {
        BundledEdges {
            alloc,
            bundles: Vec::new(alloc),
            hints: Hints::new(alloc),
        }
    }

    /// Adds an edge.
    ///
    /// # Errors
    ///
    /// `NoMemory` if allocation fails.
    pub fn push(&mut self, edge: &Edge) -> Result<(), NoMemory>
        ensures { IfOk result (λ _. Adds self.old self.new (λ e. e ≡ edge.now)) }
    {
        let hint = self.hints.get(edge);
        let index = put_edge(self.alloc, &mut self.bundles, edge, hint)?;
        if index != hint {
            self.hints.set(self.alloc, edge, index)?;
        }
        Ok(())
    }

    /// The bundles of these edges.
    pub(crate) fn into_bundles(self) -> Vec<Bundle>
        ensures { edges_in result.items ≡ self }
    {
        self.bundles
    }
}

/// Sorts bundles by their marks, the greatest first. So those with one mark are next to each other.
pub fn put_in_order(bundles: &mut Vec<Bundle>)
    ensures same { (w : Bundle) → Contains bundles.new.items w ↔ Contains bundles.old.items w }
    ensures order { (a : Automaton) → IsAutomaton a → AreBundles a bundles.old.items → AreInOrder a bundles.new.items }
{
    bundles.sort_unstable_by_key(|bundle| u16::MAX - bundle.mark);
}

/// The indices of the bundles that read a byte, ascending.
#[derive(Drop)]
pub struct Readers {
    pub byte: u8,
    pub places: Vec<usize>,
}

fn readers_of(alloc: Global, bundles: &[Bundle], byte: u8) -> Result<Readers, NoMemory>
    ensures readers { IfOk result (AreReaders bundles.now) }
    ensures byte { IfOk result (λ readers. readers.byte ≡ byte) }
{
    let mut places = Vec::new(alloc);
    for (index, bundle) in bundles.iter().enumerate() {
        if bundle.letters.contains(byte) {
            places.push(index)?;
        }
    }
    Ok(Readers { byte, places })
}

/// For each of some bytes, the indices of the bundles that read it.
///
/// # Errors
///
/// `NoMemory` if allocation fails.
pub fn readers_by_byte(
    alloc: Global,
    bundles: &[Bundle],
    bytes: &[u8],
) -> Result<Vec<Readers>, NoMemory>
    ensures readers { IfOk result (λ readers. AreAllReaders bundles.now readers.items) }
    ensures bytes { IfOk result (λ readers. bytes_of readers.items ≡ bytes.now) }
{
    let mut by_byte = Vec::new(alloc);
    for byte in bytes {
        let readers = readers_of(alloc, bundles, *byte)?;
        by_byte.push(readers)?;
    }
    Ok(by_byte)
}

/// An empty list for each state.
fn empty_lists(alloc: Global, nfa: &BundledNfa) -> Result<Vec<Vec<usize>>, NoMemory>
    ensures { IfOk result (λ lists. AreBySource (automaton_in nfa.now) [] lists.items) }
{
    let mut lists = Vec::new(alloc);
    for _state in 0..nfa.states {
        lists.push(Vec::new(alloc))?;
    }
    Ok(lists)
}

/// Appends a bundle's index to the list of a source.
fn put_index_at(by_source: &mut [Vec<usize>], source: u16, index: usize) -> Result<(), NoMemory>
    requires { source < length by_source.old }
    ensures { OnOk result (GainsIndex by_source.old by_source.new (source ∷ []) index) }
{
    by_source[source as usize].push(index)?;
    Ok(())
}

/// Appends a bundle's index to the lists of some sources.
fn put_index(by_source: &mut [Vec<usize>], sources: &[u16], index: usize) -> Result<(), NoMemory>
    requires { (o : ℕ) → Contains sources.now o → o < length by_source.old }
    ensures { OnOk result (GainsIndex by_source.old by_source.new sources.now index) }
{
    for source in sources {
        put_index_at(by_source, *source, index)?;
    }
    Ok(())
}

/// Appends a bundle's index to the lists of all its sources.
fn put_bundle(by_source: &mut [Vec<usize>], bundle: &Bundle, index: usize) -> Result<(), NoMemory>
    requires { (o : ℕ) → Contains (sources_of bundle.now) o → o < length by_source.old }
    ensures { OnOk result (GainsIndex by_source.old by_source.new (sources_of bundle.now) index) }
{
    put_index_at(by_source, bundle.first, index)?;
    put_index(by_source, &bundle.others, index)
}

/// For each state, the indices of the bundles that have it as a source.
///
/// # Errors
///
/// `NoMemory` if allocation fails.
pub fn bundles_by_source(
    alloc: Global,
    nfa: &BundledNfa,
    bundles: &[Bundle],
) -> Result<Vec<Vec<usize>>, NoMemory>
    requires { AreWellmade (automaton_in nfa.now) bundles.now }
    ensures { IfOk result (λ by_source. AreBySource (automaton_in nfa.now) bundles.now by_source.items) }
{
    let mut by_source = empty_lists(alloc, nfa)?;
    for (index, bundle) in bundles.iter().enumerate() {
        put_bundle(&mut by_source, bundle, index)?;
    }
    Ok(by_source)
}
