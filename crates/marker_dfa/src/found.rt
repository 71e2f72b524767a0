//! The sets of states that are found, each with its index.

ghost use Rattle.marker_dfa.specs.Bundled.{automaton_in};
ghost use Rattle.marker_dfa.specs.Making.{HasNoRoom, HasIndex};
ghost use Rattle.marker_dfa.specs.Reached.{start_set};
ghost use Rattle.marker_dfa.specs.Refusals.{IfTooMany};
ghost use Rattle.marker_nfa.specs.Automaton.{IsAutomaton};
ghost use Rattle.std.specs.Prelude.{◌≡◌, ◌≤◌, ◌∷◌, [], Some, slice_get, vec_len, IfOk, IsTrue};

use crate::bundled::BundledNfa;
use crate::refusal::DfaRefusal;
use crate::states::StateSet;
use span_types::NoMemory;
use std::alloc::Global;

/// The number of hints for each state, so that few sets share one.
const HINTS_PER_STATE: usize = 64;

/// For the remainders of hash values, the index of a set or a state that may have this hash value. It is only a hint: what
/// is at this index is compared.
#[derive(Drop)]
pub(crate) struct Hints {
    by_hash: Vec<u16>,
}

impl Hints {
    pub(crate) fn new(alloc: Global, most: u16) -> Result<Hints, NoMemory> {
        Ok(Hints {
            by_hash: vec![in alloc; 0; HINTS_PER_STATE * most as usize]?,
        })
    }

    // The index of a hash value's hint. An odd divisor lets all bits of the hash count. Its last remainder has no hint.
    pub(crate) fn slot(&self, hash: u64) -> usize {
        (hash % (self.by_hash.len() as u64 + 1)) as usize
    }

    pub(crate) fn get(&self, slot: usize) -> u16 {
        self.by_hash.get(slot).copied().unwrap_or(0)
    }

    pub(crate) fn set(&mut self, slot: usize, index: u16) {
        if let Some(hint) = self.by_hash.get_mut(slot) {
            *hint = index;
        }
    }
}

/// The sets that are found, in the order in which they were, and hints where they are.
#[derive(Drop)]
pub struct Found {
    pub sets: Vec<StateSet>,
    hints: Hints,
}

/// The start's set alone, with room for hints of `most` sets.
///
/// # Errors
///
/// `NoMemory` if allocation fails.
pub fn found_start(alloc: Global, nfa: &BundledNfa, most: u16) -> Result<Found, NoMemory>
    requires { IsAutomaton (automaton_in nfa.now) }
    ensures { IfOk result (λ found. found.sets.items ≡ start_set nfa.now.states ∷ []) }
{
    let mut start = StateSet::empty(alloc, nfa.states)?;
    start.insert(0);
    let mut sets = Vec::new(alloc);
    sets.push(start)?;
    let hints = Hints::new(alloc, most)?;
    Ok(Found { sets, hints })
}

/// Whether a set is at an index.
fn is_at(sets: &[StateSet], set: &StateSet, index: u16) -> bool
    ensures { IsTrue result → slice_get sets.now index ≡ Some set.now }
{
    match sets.get(index as usize) {
        Some(other) => other.same(set),
        None => false,
    }
}

/// The index of a set, which is appended if it is new. Each set is compared.
fn index_among(
    alloc: Global,
    sets: &mut Vec<StateSet>,
    set: &StateSet,
    most: u16,
) -> Result<u16, DfaRefusal>
    requires few { vec_len sets.old ≤ most }
    ensures placed { IfOk result (λ q. HasIndex sets.old.items sets.new.items set.now q) }
    ensures few { vec_len sets.new ≤ most }
    ensures refused { IfTooMany result (HasNoRoom most sets.old.items set.now) }
{
    for (index, other) in sets.iter().enumerate() {
        if other.same(set) {
            return Ok(index as u16);
        }
    }
    let index = sets.len();
    if index == most as usize {
        return Err(DfaRefusal::TooManyStates);
    }
    sets.push(set.copy(alloc)?)?;
    Ok(index as u16)
}

/// The index of a set, which is appended if it is new. There are at most `most` sets. The index in the hint is tested
/// first, so a search through all sets is rare.
///
/// # Errors
///
/// `TooManyStates` exactly if the set is new and there are `most`, and `NoMemory` if allocation fails.
pub fn index_of(
    alloc: Global,
    found: &mut Found,
    set: &StateSet,
    most: u16,
) -> Result<u16, DfaRefusal>
    requires few { vec_len found.old.sets ≤ most }
    ensures placed { IfOk result (λ q. HasIndex found.old.sets.items found.new.sets.items set.now q) }
    ensures few { vec_len found.new.sets ≤ most }
    ensures refused { IfTooMany result (HasNoRoom most found.old.sets.items set.now) }
{
    let slot = found.hints.slot(set.hash());
    let hint = found.hints.get(slot);
    if is_at(&found.sets, set, hint) {
        return Ok(hint);
    }
    let index = index_among(alloc, &mut found.sets, set, most)?;
    found.hints.set(slot, index);
    Ok(index)
}
