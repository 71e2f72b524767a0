//! What is kept of the last answer: its marks, and the nodes ahead of each.
ghost use Rattle.marker_dfa.specs.Deterministic.{states_of};
ghost use Rattle.span_enum.specs.Next.{NoneAfter};
ghost use Rattle.span_enum.specs.Trail.{IsEnumerationInput, HasRoom, IsLast, IsTrailOf, IsLowered, LowersLast, whole_text};
ghost use Rattle.span_enum.specs.Tuples.{word_over};
ghost use Rattle.span_enum.specs.Words.{IsGreatestMark, IsNoMark};
ghost use Rattle.span_enum.specs.declared.trail.Ahead.{Ahead};
ghost use Rattle.span_enum.specs.declared.trail.Mark.{Mark};
ghost use Rattle.std.specs.Prelude.{◌≡◌, ℕ, Option, ◌<◌, ◌≤◌, [], suc, length, slice_get, Some, IfOk, MatchOption};

use crate::ahead::AheadList;
use crate::input::EnumerationInput;
use crate::states::States;
use crate::walk::{Lowered, greatest_mark};
use node_store::NodeId;
use smallvec::SmallVec;
use span_types::{NoMemory, Tuple};
use state_tables::Look;
use std::alloc::Global;

/// A node ahead of a letter: the right sibling of a node on the path down to it. It has the position of its first
/// letter, its goals, its quiet states, and the node that comes next. The goals are the states after it from which the
/// rest of the text is accepted. The quiet ones, as far as they are known, are those from which it is accepted without
/// marks and only so. The next node is an index in the list, counted from 1, or 0 at the end of the text.
#[derive(Clone, Copy)]
pub(crate) struct Ahead<'a, const N: usize> {
    pub(crate) id: NodeId,
    pub(crate) look: Look<'a>,
    pub(crate) at: u64,
    pub(crate) goals: States<N>,
    pub(crate) quiet: States<N>,
    pub(crate) next: usize,
}

/// A mark of the last answer: its letter, the state before the letter, and the states after it from which the rest is
/// accepted. Also the node that comes next, and how many nodes were kept before the path down to it was added.
#[derive(Clone, Copy, Default)]
pub(crate) struct Mark<const N: usize> {
    pub(crate) at: u64,
    pub(crate) mark: u16,
    pub(crate) byte: u8,
    pub(crate) state: u16,
    pub(crate) goals: States<N>,
    pub(crate) next: usize,
    pub(crate) base: usize,
}

/// The state of the walk between two letters: the automaton's state, the node that comes next, and whether the state is
/// known to be quiet.
#[derive(Clone, Copy)]
pub(crate) struct WalkPosition {
    pub(crate) state: u16,
    pub(crate) next: usize,
    pub(crate) quiet: bool,
}

/// A position of the walk, and that of the letter after it in the text.
#[derive(Clone, Copy)]
pub(crate) struct Position {
    pub(crate) place: WalkPosition,
    pub(crate) at: u64,
}

/// A node on the path down to a letter, the state before the node, and how many nodes were kept before the path was
/// added.
#[derive(Clone, Copy)]
pub(crate) struct Descent<'a, const N: usize> {
    pub(crate) here: Ahead<'a, N>,
    pub(crate) state: u16,
    pub(crate) base: usize,
}

/// The children of a pair, each with its lookup.
#[derive(Clone, Copy)]
pub(crate) struct Children<'a> {
    pub(crate) l: NodeId,
    pub(crate) left: Look<'a>,
    pub(crate) r: NodeId,
    pub(crate) right: Look<'a>,
}

/// The node that comes next after a mark that was lowered, and how many nodes the marks before it need.
#[derive(Clone, Copy)]
pub(crate) struct Resumption {
    pub(crate) next: usize,
    pub(crate) base: usize,
}

/// The marks of the last answer, and the nodes ahead of them.
#[derive(Drop)]
pub(crate) struct Trail<'a, const N: usize> {
    pub(crate) marks: SmallVec<Mark<N>, 0>,
    pub(crate) ahead: AheadList<'a, N>,
}

/// One more than the maximum number of nodes beside the path down in the tallest tree.
const BESIDE: usize = 69;

/// Nothing kept, with room for the answers of this many variables.
pub(crate) fn empty_trail<'a, const N: usize>(
    alloc: Global,
    variables: u8,
) -> Result<Trail<'a, N>, NoMemory>
    requires few { variables ≤ 8 }
    requires narrow { N ≤ 16 }
    ensures marks { IfOk result (λ trail. trail.marks.items ≡ []) }
    ensures ahead { IfOk result (λ trail. trail.ahead.items ≡ []) }
    ensures room { IfOk result (λ trail. HasRoom variables trail.marks.capacity trail.ahead.capacity) }
{
    let most = 2 * variables as usize;
    let mut marks = SmallVec::new(alloc);
    marks.reserve(most)?;
    let ahead = AheadList::with_room(alloc, 1 + BESIDE * most)?;
    Ok(Trail { marks, ahead })
}

/// Removes everything that is kept. The room for it stays.
pub(crate) fn clear<const N: usize>(trail: &mut Trail<'_, N>)
    requires { N ≤ 16 }
    ensures marks { trail.new.marks.items ≡ [] }
    ensures ahead { trail.new.ahead.items ≡ [] }
    ensures marks_room { trail.new.marks.capacity ≡ trail.old.marks.capacity }
    ensures ahead_room { trail.new.ahead.capacity ≡ trail.old.ahead.capacity }
{
    trail.marks.truncate(0);
    trail.ahead.truncate(0);
}

/// The node with this index in the list, counted from 1.
pub(crate) fn ahead_at<'a, const N: usize>(trail: &Trail<'a, N>, place: usize) -> Ahead<'a, N>
    requires { (before : ℕ) × ((h : Ahead N) × (place ≡ suc before) × (slice_get trail.now.ahead.items before ≡ Some (Some h))) }
    ensures { (before : ℕ) → place ≡ suc before → slice_get trail.now.ahead.items before ≡ Some (Some result) }
{
    match trail.ahead.get(place - 1) {
        Some(node) => node,
        // `place` is the index of a node in the list, and every entry has a node.
        None => unreachable!(),
    }
}

/// The last mark.
pub(crate) fn last_of<'t, const N: usize>(trail: &'t Trail<'_, N>) -> &'t Mark<N>
    requires { 0 < length trail.now.marks.items }
    ensures { IsLast trail.now.marks.items result.now }
{
    &trail.marks.as_slice()[trail.marks.len() - 1]
}

/// Removes the last mark and the path down to it.
fn forget_last<const N: usize>(
    input: &EnumerationInput<'_, N>,
    trail: &mut Trail<'_, N>,
    last: Mark<N>,
    t: &Tuple,
)
    requires input { IsEnumerationInput input.now }
    requires trail { IsTrailOf input.now t.now trail.old.marks.items trail.old.ahead.items }
    requires last { IsLast trail.old.marks.items last }
    requires none { (n : ℕ) → IsNoMark input.now.dfa.now last.state last.byte last.goals last.mark n }
    ensures trail { IsTrailOf input.now t.now trail.new.marks.items trail.new.ahead.items }
    ensures less { length trail.new.marks.items < length trail.old.marks.items }
    ensures marks_room { trail.new.marks.capacity ≡ trail.old.marks.capacity }
    ensures ahead_room { trail.new.ahead.capacity ≡ trail.old.ahead.capacity }
{
    trail.ahead.truncate(last.base);
    let count = trail.marks.len();
    trail.marks.truncate(count - 1);
}

/// Where the mark can be lowered, if it can be.
fn lowered<const N: usize>(input: &EnumerationInput<'_, N>, mark: &Mark<N>) -> Option<Lowered>
    requires input { IsEnumerationInput input.now }
    requires state { mark.now.state < states_of input.now.dfa.now }
    ensures { MatchOption result ((n : ℕ) → IsNoMark input.now.dfa.now mark.now.state mark.now.byte mark.now.goals mark.now.mark n)
        (λ l. (l.at ≡ mark.now.at) × IsGreatestMark input.now.dfa.now mark.now.state mark.now.byte mark.now.goals mark.now.mark l.mark l.state) }
{
    match greatest_mark(
        input.dfa,
        mark.state,
        mark.byte,
        &mark.goals,
        mark.mark as u32,
    ) {
        Some(step) => Some(Lowered {
            at: mark.at,
            mark: step.mark,
            state: step.state,
        }),
        None => None,
    }
}

/// The last mark that can be lowered, with the lower one. The marks after it are removed.
pub(crate) fn lower_last<const N: usize>(
    input: &EnumerationInput<'_, N>,
    trail: &mut Trail<'_, N>,
    t: &Tuple,
) -> Option<Lowered>
    requires input { IsEnumerationInput input.now }
    requires trail { IsTrailOf input.now t.now trail.old.marks.items trail.old.ahead.items }
    ensures lowers { MatchOption result (NoneAfter input.now.dfa.now 0 (whole_text input.now) input.now.finals (word_over t.now 1 (whole_text input.now)))
        (LowersLast input.now trail.new.marks.items) }
    ensures trail { IsTrailOf input.now t.now trail.new.marks.items trail.new.ahead.items }
    ensures marks_room { trail.new.marks.capacity ≡ trail.old.marks.capacity }
    ensures ahead_room { trail.new.ahead.capacity ≡ trail.old.ahead.capacity }
{
    while trail.marks.len() > 0 {
        match lowered(input, last_of(&*trail)) {
            Some(lowered) => return Some(lowered),
            None => {
                let last = *last_of(&*trail);
                forget_last(input, trail, last, t);
            }
        }
    }
    None
}

/// Replaces the last mark by the lower one, or removes it if the lower one is none.
pub(crate) fn lower_to<const N: usize>(
    input: &EnumerationInput<'_, N>,
    trail: &mut Trail<'_, N>,
    t: &Tuple,
    lowered: &Lowered,
) -> Resumption
    requires input { IsEnumerationInput input.now }
    requires trail { IsTrailOf input.now t.now trail.old.marks.items trail.old.ahead.items }
    requires last { LowersLast input.now trail.old.marks.items lowered.now }
    ensures turned { IsLowered input.now t.now lowered.now result trail.new.marks.items trail.new.ahead.items }
    ensures marks_room { trail.new.marks.capacity ≡ trail.old.marks.capacity }
    ensures ahead_room { trail.new.ahead.capacity ≡ trail.old.ahead.capacity }
{
    let last = *last_of(&*trail);
    let count = trail.marks.len();
    trail.marks.truncate(count - 1);
    if lowered.mark == 0 {
        return Resumption {
            next: last.next,
            base: last.base,
        };
    }
    trail.marks.push_reserved(Mark {
        mark: lowered.mark,
        ..last
    });
    Resumption {
        next: last.next,
        base: trail.ahead.len(),
    }
}
