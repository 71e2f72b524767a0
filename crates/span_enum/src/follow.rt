//! Following the marks of a given tuple.
ghost use Rattle.span_enum.specs.Trail.{IsEnumerationInput, IsWalkAt, PassesTo, EndsBehind, Dies, text_ahead, whole_text, CanDescend, IsOver, Laid, CanFollow, Followed, HasRoom, height_at};
ghost use Rattle.span_enum.specs.declared.trail.Ahead.{Ahead};
ghost use Rattle.std.specs.Prelude.{◌≡◌, ℕ, ◌<◌, ◌≤◌, ◌+◌, ◌*◌, ◌-◌, List, length, true, false, MatchOption};

use crate::input::EnumerationInput;
use crate::onward::{go_left, go_right, keep_mark};
use crate::sets::goals_between;
use crate::trail::{Children, Descent, Position, Trail, WalkPosition, ahead_at, last_of};
use crate::walk::{first_mark, step};
use node_store::Node;
use span_types::{Steps, Tuple, mark_at};
use std::sync::ledger::Ledger;

/// Passes the nodes ahead without marks, up to the one over this position, or to the end.
fn pass_to<'a, const N: usize>(
    input: &EnumerationInput<'a, N>,
    trail: &Trail<'a, N>,
    from: WalkPosition,
    position: u64,
) -> Option<WalkPosition>
    requires input { IsEnumerationInput input.now }
    requires stands { (at : ℕ) × ((c : List (Ahead N)) × IsWalkAt input.now trail.now.ahead.items at from c × (at ≤ position)
        × (position ≤ at + length (text_ahead input.now c))) }
    ensures { (at : ℕ) (c : List (Ahead N)) → IsWalkAt input.now trail.now.ahead.items at from c → at ≤ position → position ≤ at + length (text_ahead input.now c)
        → MatchOption result (Dies input.now from.state at (text_ahead input.now c) position)
        (λ to. (p : PassesTo input.now trail.now.ahead.items at position from to c) × EndsBehind input.now position p.passes.back) }
{
    let mut place = from;
    while place.next > 0 {
        let node = ahead_at(trail, place.next);
        if position < node.at + node.look.len {
            return Some(place);
        }
        let state = node.look.table.unmarked(place.state)?;
        place = WalkPosition {
            state,
            next: node.next,
            quiet: false,
        };
    }
    Some(place)
}

/// Descends to the letter at this position, and keeps the tuple's mark there with the nodes that are then ahead.
/// `descent` becomes each node on the path in turn. Returns whether a run reaches the letter. If none does, the caller
/// removes the nodes that were put ahead.
fn reach<'a, L: Ledger, const N: usize>(
    input: &EnumerationInput<'a, N>,
    trail: &mut Trail<'a, N>,
    descent: &mut Descent<'a, N>,
    t: &Tuple,
    to: u64,
    looks: &mut Steps<L>,
) -> bool
    requires input { IsEnumerationInput input.now }
    requires down { CanDescend input.now descent.old.here descent.old.state descent.old.base trail.old.marks.items trail.old.marks.capacity
        trail.old.ahead.items trail.old.ahead.capacity }
    requires over { IsOver input.now descent.old.here to }
    ensures laid { Laid input.now t.now descent.old.here descent.old.state to descent.old.base trail.old.marks.items trail.new.marks.items
        trail.old.ahead.items trail.new.ahead.items result }
    ensures cost { looks.new ≤ looks.old + 2 * height_at input.now descent.old.here.id.index }
    ensures room { (trail.new.marks.capacity ≡ trail.old.marks.capacity) × (trail.new.ahead.capacity ≡ trail.old.ahead.capacity) }
{
    match descent.here.look.node {
        Node::Byte(byte) => {
            keep_mark(trail, &*descent, byte, mark_at(t, descent.here.at));
            true
        }
        Node::Pair(l, r) => {
            let left = input.view.look(l, looks);
            let right = input.view.look(r, looks);
            let children = Children { l, left, r, right };
            if to < descent.here.at + left.len {
                let between = goals_between(
                    input.dfa,
                    &descent.here,
                    left.table,
                    right.table,
                    descent.state,
                );
                go_left(trail, &mut descent.here, &children, &between);
                return reach(input, trail, descent, t, to, looks);
            }
            match left.table.unmarked(descent.state) {
                Some(q) => {
                    go_right(&mut descent.here, &children);
                    descent.state = q;
                    reach(input, trail, descent, t, to, looks)
                }
                None => false,
            }
        }
    }
}

/// Keeps the marks of the tuple from a position on, as far as a run follows them. Returns the state at the end of the
/// text, if a run follows all of them.
pub(crate) fn follow<'a, L: Ledger, const N: usize>(
    input: &EnumerationInput<'a, N>,
    trail: &mut Trail<'a, N>,
    from: Position,
    t: &Tuple,
    end: u64,
    looks: &mut Steps<L>,
) -> Option<u16>
    requires input { IsEnumerationInput input.now }
    requires tuple { length t.now ≡ input.now.dfa.now.variables }
    requires end { end ≡ length (whole_text input.now) + 1 }
    requires can { CanFollow input.now t.now trail.old.ahead.items from.at from.place trail.old.marks.items }
    requires room { HasRoom input.now.dfa.now.variables trail.old.marks.capacity trail.old.ahead.capacity }
    ensures followed { Followed input.now t.now trail.old.marks.items trail.new.marks.items trail.new.ahead.items looks.old looks.new result }
    ensures room { (trail.new.marks.capacity ≡ trail.old.marks.capacity) × (trail.new.ahead.capacity ≡ trail.old.ahead.capacity) }
{
    let to = first_mark(t, from.at, end);
    let place = pass_to(input, &*trail, from.place, to)?;
    if place.next == 0 {
        return Some(place.state);
    }
    let base = trail.ahead.len();
    let mut descent = Descent {
        here: ahead_at(&*trail, place.next),
        state: place.state,
        base,
    };
    let comes = reach(input, trail, &mut descent, t, to, looks);
    if !comes {
        trail.ahead.truncate(base);
        return None;
    }
    let last = *last_of(&*trail);
    let state = step(input.dfa, last.state, last.mark, last.byte)?;
    let behind = WalkPosition {
        state,
        next: last.next,
        quiet: false,
    };
    let from = Position {
        place: behind,
        at: to + 1,
    };
    follow(input, trail, from, t, end, looks)
}
