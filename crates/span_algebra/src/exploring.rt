//! The pairs of states that a join reaches, found from the pair of the starts on.

ghost use Rattle.marker_dfa.specs.Reached.{CountIsAbove};
ghost use Rattle.span_algebra.specs.Making.{AreClasses};
ghost use Rattle.span_algebra.specs.Products.{IsExplored};
ghost use Rattle.span_algebra.specs.Refusals.{IsRefused};
ghost use Rattle.span_algebra.specs.Renaming.{both_names};
ghost use Rattle.span_algebra.specs.TreeAutomaton.{JoinStep, join_size};
ghost use Rattle.std.specs.Prelude.{◌≡◌, ◌≤◌, ◌∷◌, [], IfErr, IfOk, length};

use crate::classes::Class;
use crate::hints::Hints;
use crate::joints::meeting_of;
use crate::names::Operand;
use crate::pairs::{Pair, put_numbered, put_targets};
use crate::product::{Sides, steps_of};
use crate::refusal::AlgebraRefusal;
use marker_dfa::BundledEdges;
use span_types::{NoMemory, Vars};
use std::alloc::Global;

/// Pairs of states, and the edges between their indices.
#[derive(Drop)]
pub struct Explored {
    pub pairs: Vec<Pair>,
    pub edges: BundledEdges,
}

/// The pair of the starts, alone in a list.
fn start_pairs(alloc: Global) -> Result<Vec<Pair>, NoMemory>
    ensures { IfOk result (λ pairs. pairs.items ≡ record { left = 0; right = 0 } ∷ []) }
{
    let mut pairs = Vec::new(alloc);
    pairs.push(Pair { left: 0, right: 0 })?;
    Ok(pairs)
}

/// The pairs that are reached and their steps, as edges between the indices of pairs. It ends when there are more than
/// `most` pairs.
pub fn explore(
    alloc: Global,
    left: Operand<'_>,
    right: Operand<'_>,
    names: &Vars,
    classes: &[Class],
    most: u16,
) -> Result<Explored, AlgebraRefusal>
    requires left { length left.names.now ≡ left.dfa.now.variables }
    requires right { length right.names.now ≡ right.dfa.now.variables }
    requires names { names.now ≡ both_names left.names.now right.names.now }
    requires of_left { AreClasses left.dfa.now classes.now }
    requires of_right { AreClasses right.dfa.now classes.now }
    requires some { 1 ≤ most }
    requires many { most ≤ 1024 }
    ensures explored { IfOk result (IsExplored most left.entry.dfa.now left.entry.names.now right.entry.dfa.now right.entry.names.now classes.now) }
    ensures refused { IfErr result (IsRefused 0 (CountIsAbove most (join_size left.entry.dfa.now) (JoinStep left.entry.dfa.now left.entry.names.now right.entry.dfa.now right.entry.names.now))) }
{
    let left_states = left.dfa.states();
    let right_states = right.dfa.states();
    let left_count = left.names.count();
    let right_count = right.names.count();
    let count = names.count();
    let meeting = meeting_of(alloc, left.names, right.names, names)?;
    let sides = Sides {
        left: left.dfa,
        right: right.dfa,
        meeting: &meeting,
    };
    let mut pairs = start_pairs(alloc)?;
    let mut hints = Hints::new(alloc, right_states);
    let mut edges = BundledEdges::new(alloc);
    let mut done = 0;
    'pairs: while done < pairs.len() {
        let found = steps_of(alloc, sides, pairs[done], classes)?;
        put_targets(alloc, &mut pairs, &mut hints, &found, most)?;
        put_numbered(&pairs, &hints, &found, &mut edges)?;
        done += 1;
    }
    Ok(Explored { pairs, edges })
}
