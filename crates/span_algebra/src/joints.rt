//! A mark of each side that agree on the variables of both, as one mark.

ghost use Rattle.marker_nfa.specs.Parts.{Adds};
ghost use Rattle.span_algebra.specs.Joints.{AreShortWith, IsJointAmong, IsJointWith, IsMeeting, MayMeet, RiseByKey, half_by, joint_by};
ghost use Rattle.span_algebra.specs.Renaming.{both_names};
ghost use Rattle.span_algebra.specs.declared.joints.Half.{Half};
ghost use Rattle.span_algebra.specs.declared.joints.Joint.{Joint};
ghost use Rattle.std.specs.Prelude.{◌≡◌, ℕ, ◌+◌, ◌<◌, ◌≤◌, ◌↔◌, Contains, IfOk, length};

use crate::marks::mark_at;
use crate::names::indices_of;
use span_types::{NoMemory, Vars};
use std::alloc::Global;

/// The indices of the left's variables among those of the right, of the right's among those of the left, and of the
/// right's among those of both.
#[derive(Drop)]
pub struct Meeting {
    pub left_in_right: Vec<Option<u8>>,
    pub right_in_left: Vec<Option<u8>>,
    pub right_in_both: Vec<Option<u8>>,
}

/// A mark of the right: its markers of the variables of both sides, and those of its own variables as a mark of both.
#[derive(Clone, Copy)]
pub struct Half {
    pub key: u16,
    pub part: u16,
    pub mark: u16,
}

/// A mark of each side, and their combination.
#[derive(Clone, Copy)]
pub struct Joint {
    pub mark: u16,
    pub left: u16,
    pub right: u16,
}

/// The common variables of two sides.
pub fn meeting_of(
    alloc: Global,
    left_names: &Vars,
    right_names: &Vars,
    names: &Vars,
) -> Result<Meeting, NoMemory>
    requires { names.now ≡ both_names left_names.now right_names.now }
    ensures { IfOk result (IsMeeting left_names.now right_names.now) }
{
    let left_in_right = indices_of(alloc, right_names, left_names)?;
    let right_in_left = indices_of(alloc, left_names, right_names)?;
    let right_in_both = indices_of(alloc, names, right_names)?;
    Ok(Meeting {
        left_in_right,
        right_in_left,
        right_in_both,
    })
}

/// What a mark of the right contributes to a joint.
fn half_of(meeting: &Meeting, mark: u16) -> Half
    requires { MayMeet meeting.now }
    ensures { result ≡ half_by meeting.now mark }
{
    let shared = mark_at(&meeting.right_in_left, mark);
    let whole = mark_at(&meeting.right_in_both, mark);
    Half {
        key: mark_at(&meeting.left_in_right, shared),
        part: whole - shared,
        mark,
    }
}

/// Appends what a mark of the right contributes to a list.
fn push_half(meeting: &Meeting, mark: u16, halves: &mut Vec<Half>) -> Result<(), NoMemory>
    requires { MayMeet meeting.now }
    ensures { IfOk result (λ _. Adds halves.old.items halves.new.items (λ h. h ≡ half_by meeting.now mark)) }
{
    halves.push(half_of(meeting, mark))?;
    Ok(())
}

/// Sorts a list by keys.
fn put_in_order(halves: &mut Vec<Half>)
    ensures same { (h : Half) → Contains halves.new.items h ↔ Contains halves.old.items h }
    ensures rising { RiseByKey halves.new.items }
{
    halves.sort_unstable_by_key(|half| half.key);
}

/// What each of some marks of the right contributes, sorted by keys.
fn halves_of(alloc: Global, meeting: &Meeting, marks: &[u16]) -> Result<Vec<Half>, NoMemory>
    requires { MayMeet meeting.now }
    ensures same { IfOk result (λ halves. (h : Half) → Contains halves.items h ↔ (m : ℕ) × Contains marks.now m × (h ≡ half_by meeting.now m)) }
    ensures rising { IfOk result (λ halves. RiseByKey halves.items) }
{
    let mut halves = Vec::new(alloc);
    for mark in marks {
        push_half(meeting, *mark, &mut halves)?;
    }
    put_in_order(&mut halves);
    Ok(halves)
}

/// Those with a key, found by two binary searches.
fn halves_with(halves: &[Half], key: u16) -> &[Half]
    requires { RiseByKey halves.now }
    ensures { (h : Half) → Contains result.now h ↔ Contains halves.now h × (key ≡ h.key) }
{
    let first = halves.partition_point(|half| half.key < key);
    let end = halves.partition_point(|half| half.key <= key);
    &halves[first..end]
}

/// Appends the joint of a mark of the left and one of the right, which agree, to a list.
fn push_joint(left: u16, half: &Half, joints: &mut Vec<Joint>) -> Result<(), NoMemory>
    requires { left + half.now.part < 65536 }
    ensures { IfOk result (λ _. Adds joints.old.items joints.new.items (λ j. j ≡ joint_by left half.now)) }
{
    joints.push(Joint {
        mark: left + half.part,
        left,
        right: half.mark,
    })?;
    Ok(())
}

/// Appends the joints of a mark of the left to a list.
fn push_joints(
    left: u16,
    key: u16,
    halves: &[Half],
    joints: &mut Vec<Joint>,
) -> Result<(), NoMemory>
    requires rising { RiseByKey halves.now }
    requires short { (h : Half) → Contains halves.now h → left + h.part < 65536 }
    ensures { IfOk result (λ _. Adds joints.old.items joints.new.items (λ j. (h : Half) × Contains halves.now h × IsJointWith left key h j)) }
{
    let found = halves_with(halves, key);
    for half in found {
        push_joint(left, half, joints)?;
    }
    Ok(())
}

/// The joints of some marks of the left and some of the right.
///
/// It sorts those of the right by the markers that they share. Then it finds those for each mark of the left by binary
/// search. It takes O((n + m) log n) steps and one for each joint, with m marks of the left and n of the right.
pub fn joints_of(
    alloc: Global,
    meeting: &Meeting,
    lefts: &[u16],
    rights: &[u16],
) -> Result<Vec<Joint>, NoMemory>
    requires meeting { MayMeet meeting.now }
    requires short { AreShortWith meeting.now lefts.now }
    ensures { IfOk result (λ joints. (j : Joint) → Contains joints.items j ↔ IsJointAmong meeting.now lefts.now rights.now j) }
{
    let halves = halves_of(alloc, meeting, rights)?;
    let mut joints = Vec::new(alloc);
    for left in lefts {
        let key = mark_at(&meeting.left_in_right, *left);
        push_joints(*left, key, &halves, &mut joints)?;
    }
    Ok(joints)
}
