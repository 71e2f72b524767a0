//! The steps and ends of the pairs of states that a join reaches.

ghost use Rattle.marker_dfa.specs.Deterministic.{states_of};
ghost use Rattle.marker_nfa.specs.Parts.{Adds};
ghost use Rattle.marker_nfa.specs.declared.nfa.End.{End};
ghost use Rattle.span_algebra.specs.Joints.{MayMeet};
ghost use Rattle.span_algebra.specs.Products.{AreShortSteps, IsPair, IsPairEnd, IsPairEndBy, IsPairEndOf, IsPairStepAmong, IsPairStepBy, IsPairStepOf};
ghost use Rattle.span_algebra.specs.declared.pairs.Pair.{Pair};
ghost use Rattle.span_algebra.specs.declared.pairs.PairStep.{PairStep};
ghost use Rattle.std.specs.Prelude.{◌<◌, ◌↔◌, ◌≤◌, Contains, IfOk, length};

use crate::classes::Class;
use crate::joints::{Joint, Meeting, joints_of};
use crate::pairs::{Pair, PairStep};
use marker_dfa::Dfa;
use marker_nfa::End;
use span_types::NoMemory;
use std::alloc::Global;

/// The automata of the two sides of a join, and their common variables.
#[derive(Clone, Copy)]
pub struct Sides<'a> {
    pub left: &'a Dfa,
    pub right: &'a Dfa,
    pub meeting: &'a Meeting,
}

/// Appends the step of a pair by a joint mark and the bytes of a class to a list, if both sides have theirs.
fn push_step(
    sides: Sides<'_>,
    pair: Pair,
    class: &Class,
    joint: &Joint,
    steps: &mut Vec<PairStep>,
) -> Result<(), NoMemory>
    requires left { pair.left < states_of sides.left.now }
    requires right { pair.right < states_of sides.right.now }
    ensures { IfOk result (λ _. Adds steps.old.items steps.new.items (IsPairStepBy sides.entry.left.now sides.entry.right.now pair class.now joint.now)) }
{
    if let Some(next_left) = sides.left.next(pair.left, joint.left, class.first) {
        if let Some(next_right) = sides.right.next(pair.right, joint.right, class.first) {
            steps.push(PairStep {
                from: pair,
                mark: joint.mark,
                letters: class.letters,
                to: Pair {
                    left: next_left,
                    right: next_right,
                },
            })?;
        }
    }
    Ok(())
}

/// Appends the steps of a pair by the bytes of a class to a list.
fn push_class(
    alloc: Global,
    sides: Sides<'_>,
    pair: Pair,
    class: &Class,
    steps: &mut Vec<PairStep>,
) -> Result<(), NoMemory>
    requires meeting { MayMeet sides.meeting.now }
    requires short { AreShortSteps sides.left.now sides.meeting.now }
    requires within { IsPair sides.left.now sides.right.now pair }
    ensures { IfOk result (λ _. Adds steps.old.items steps.new.items (IsPairStepOf sides.entry.left.now sides.entry.right.now sides.entry.meeting.now pair class.now)) }
{
    let left_marks = sides.left.marks(pair.left, class.first);
    let right_marks = sides.right.marks(pair.right, class.first);
    let joints = joints_of(alloc, sides.meeting, left_marks, right_marks)?;
    for joint in &joints {
        push_step(sides, pair, class, joint, steps)?;
    }
    Ok(())
}

/// The steps of a pair.
pub fn steps_of(
    alloc: Global,
    sides: Sides<'_>,
    pair: Pair,
    classes: &[Class],
) -> Result<Vec<PairStep>, NoMemory>
    requires meeting { MayMeet sides.meeting.now }
    requires short { AreShortSteps sides.left.now sides.meeting.now }
    requires within { IsPair sides.left.now sides.right.now pair }
    ensures { IfOk result (λ steps. (s : PairStep) → Contains steps.items s ↔ IsPairStepAmong sides.entry.left.now sides.entry.right.now sides.entry.meeting.now pair classes.now s) }
{
    let mut steps = Vec::new(alloc);
    for class in classes {
        push_class(alloc, sides, pair, class, &mut steps)?;
    }
    Ok(steps)
}

/// Appends an end with a joint mark to a list.
fn push_end(index: u16, joint: &Joint, ends: &mut Vec<End>) -> Result<(), NoMemory>
    ensures { IfOk result (λ _. Adds ends.old.items ends.new.items (IsPairEndBy index joint.now)) }
{
    ends.push(End {
        state: index,
        mark: joint.mark,
    })?;
    Ok(())
}

/// Appends the ends of a pair with this index to a list.
fn push_ends(
    alloc: Global,
    sides: Sides<'_>,
    pair: Pair,
    index: u16,
    ends: &mut Vec<End>,
) -> Result<(), NoMemory>
    requires meeting { MayMeet sides.meeting.now }
    requires short { AreShortSteps sides.left.now sides.meeting.now }
    requires within { IsPair sides.left.now sides.right.now pair }
    ensures { IfOk result (λ _. Adds ends.old.items ends.new.items (IsPairEndOf sides.entry.left.now sides.entry.right.now sides.entry.meeting.now pair index)) }
{
    let joints = joints_of(
        alloc,
        sides.meeting,
        sides.left.ends(pair.left),
        sides.right.ends(pair.right),
    )?;
    for joint in &joints {
        push_end(index, joint, ends)?;
    }
    Ok(())
}

/// The ends of pairs, each with the index of its pair.
pub fn ends_of(alloc: Global, sides: Sides<'_>, pairs: &[Pair]) -> Result<Vec<End>, NoMemory>
    requires meeting { MayMeet sides.meeting.now }
    requires short { AreShortSteps sides.left.now sides.meeting.now }
    requires few { length pairs.now ≤ 1024 }
    requires within { (p : Pair) → Contains pairs.now p → IsPair sides.left.now sides.right.now p }
    ensures { IfOk result (λ ends. (e : End) → Contains ends.items e ↔ IsPairEnd sides.entry.left.now sides.entry.right.now sides.entry.meeting.now pairs.now e) }
{
    let mut ends = Vec::new(alloc);
    for (index, pair) in pairs.iter().enumerate() {
        push_ends(alloc, sides, *pair, index as u16, &mut ends)?;
    }
    Ok(ends)
}
