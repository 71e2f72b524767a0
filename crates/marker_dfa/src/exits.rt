//! The edges that leave a set of states.

ghost use Rattle.marker_dfa.specs.Bundled.{automaton_in};
ghost use Rattle.marker_dfa.specs.Making.{AreBySource, AreEnds, AreExits, AreInOrder, AreReaders, AreSteps, GainsMark, GainsTarget, IsFalling};
ghost use Rattle.marker_dfa.specs.Reached.{IsIn};
ghost use Rattle.marker_dfa.specs.declared.exits.Step.{Step};
ghost use Rattle.marker_nfa.specs.Automaton.{IsAutomaton};
ghost use Rattle.std.specs.Prelude.{◌≡◌, ◌<◌, ◌↔◌, ◌⊎◌, ℕ, slice_get, Some, Contains, length, IfOk, OnOk};

use crate::bundled::BundledNfa;
use crate::bundles::{Bundle, Readers};
use crate::states::StateSet;
use marker_nfa::End;
use span_types::NoMemory;
use std::alloc::Global;

/// A set of states, and for each bundle whether it leaves the set.
#[derive(Drop)]
pub struct Exits {
    pub from: StateSet,
    pub leaving: Vec<bool>,
}

/// Records that the bundles at some indices leave a set.
fn mark_all(leaving: &mut [bool], indices: &[usize])
    requires { (i : ℕ) → Contains indices.now i → i < length leaving.old }
    ensures size { length leaving.new ≡ length leaving.old }
    ensures marked { (i : ℕ) → IsIn leaving.new i ↔ IsIn leaving.old i ⊎ Contains indices.now i }
{
    for index in indices {
        leaving[*index] = true;
    }
}

/// The bundles that leave a set. Only those of its members are visited.
///
/// # Errors
///
/// `NoMemory` if allocation fails.
pub fn exits_of(
    alloc: Global,
    nfa: &BundledNfa,
    bundles: &[Bundle],
    by_source: &[Vec<usize>],
    from: StateSet,
) -> Result<Exits, NoMemory>
    requires sources { AreBySource (automaton_in nfa.now) bundles.now by_source.now }
    requires size { length from ≡ nfa.now.states }
    ensures exits { IfOk result (AreExits (automaton_in nfa.now) bundles.now) }
    ensures from { IfOk result (λ e. e.from ≡ from) }
{
    let mut leaving = vec![in alloc; false; bundles.len()]?;
    let mut next = 0;
    while let Some(state) = from.member_from(next) {
        mark_all(&mut leaving, &by_source[state as usize]);
        next = state as usize + 1;
    }
    Ok(Exits { from, leaving })
}

/// The states to which a mark leads from a set of states with a byte.
#[derive(Drop)]
pub struct Step {
    pub mark: u16,
    pub to: StateSet,
}

/// Adds the target of a bundle to those of the last step if that has its mark, and otherwise to a new step.
fn put_target(
    alloc: Global,
    nfa: &BundledNfa,
    steps: &mut Vec<Step>,
    bundle: &Bundle,
) -> Result<(), NoMemory>
    requires sizes { (k : ℕ) (e : Step) → slice_get steps.old.items k ≡ Some e → length e.to ≡ nfa.now.states }
    requires target { bundle.now.to < nfa.now.states }
    ensures { OnOk result (GainsTarget nfa.now.states steps.old.items steps.new.items bundle.now.mark bundle.now.to) }
{
    let count = steps.len();
    if count > 0 && steps[count - 1].mark == bundle.mark {
        steps[count - 1].to.insert(bundle.to);
        return Ok(());
    }
    let mut to = StateSet::empty(alloc, nfa.states)?;
    to.insert(bundle.to);
    steps.push(Step {
        mark: bundle.mark,
        to,
    })?;
    Ok(())
}

/// The bundle at an index.
fn bundle_at(bundles: &[Bundle], index: usize) -> &Bundle
    requires { index < length bundles.now }
    ensures { slice_get bundles.now index ≡ Some result.now }
{
    &bundles[index]
}

/// The steps from a set with a byte, by descending marks. Bundles with one mark are next to each other, and so are
/// those among them that read the byte.
///
/// # Errors
///
/// `NoMemory` if allocation fails.
pub fn steps_of(
    alloc: Global,
    nfa: &BundledNfa,
    bundles: &[Bundle],
    exits: &Exits,
    readers: &Readers,
) -> Result<Vec<Step>, NoMemory>
    requires bundles { AreInOrder (automaton_in nfa.now) bundles.now }
    requires exits { AreExits (automaton_in nfa.now) bundles.now exits.now }
    requires readers { AreReaders bundles.now readers.now }
    ensures { IfOk result (λ steps. AreSteps (automaton_in nfa.now) exits.now.from readers.now.byte steps.items) }
{
    let mut steps = Vec::new(alloc);
    for index in &readers.places {
        if exits.leaving[*index] {
            put_target(alloc, nfa, &mut steps, bundle_at(bundles, *index))?;
        }
    }
    Ok(steps)
}

/// Appends the mark of an end, if its state is in the set.
fn push_end(marks: &mut Vec<u16>, from: &StateSet, end: End) -> Result<(), NoMemory>
    requires { end.state < length from.now }
    ensures { OnOk result (GainsMark marks.old.items marks.new.items (λ m. IsIn from.now end.state × (end.mark ≡ m))) }
{
    if from.contains(end.state) {
        marks.push(end.mark)?;
    }
    Ok(())
}

/// Sorts marks in descending order and removes duplicates.
fn put_in_order(marks: &mut Vec<u16>)
    ensures same { (m : ℕ) → Contains marks.new.items m ↔ Contains marks.old.items m }
    ensures falling { IsFalling marks.new.items }
{
    marks.sort_unstable();
    marks.dedup();
    marks.reverse();
}

/// The marks with which a text may end in a set, descending.
///
/// # Errors
///
/// `NoMemory` if allocation fails.
pub fn ends_of_set(alloc: Global, nfa: &BundledNfa, from: &StateSet) -> Result<Vec<u16>, NoMemory>
    requires automaton { IsAutomaton (automaton_in nfa.now) }
    requires size { length from.now ≡ nfa.now.states }
    ensures { IfOk result (λ marks. AreEnds (automaton_in nfa.now) from.now marks.items) }
{
    let mut marks = Vec::new(alloc);
    for end in &nfa.ends {
        push_end(&mut marks, from, *end)?;
    }
    put_in_order(&mut marks);
    Ok(marks)
}
