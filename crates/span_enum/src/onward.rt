//! The search for the first marked text after a position of the walk.
ghost use Rattle.marker_dfa.specs.Deterministic.{states_of};
ghost use Rattle.slp_model.specs.Nodes.{IsNodeAt};
ghost use Rattle.slp_model.specs.declared.Node.TheVariants.{Byte, Pair};
ghost use Rattle.span_enum.specs.OverLeft.{IsOverLeft};
ghost use Rattle.span_enum.specs.Sets.{can_reach_of};
ghost use Rattle.span_enum.specs.Trail.{IsEnumerationInput, IsAhead, IsWalkAt, CanEnd, CanContinue, CanFinish, PassesPlain, Turns, CanDescend, mark_over, Descends, Completes, HasRoom, whole_text};
ghost use Rattle.span_enum.specs.WayDown.{ContinuesAt, child, sibling};
ghost use Rattle.span_enum.specs.Words.{IsFork};
ghost use Rattle.span_enum.specs.declared.trail.Ahead.{Ahead};
ghost use Rattle.state_tables.specs.Meaning.{IsTable};
ghost use Rattle.state_tables.specs.Table.{marked_of, unmarked_of};
ghost use Rattle.std.specs.Prelude.{◌≡◌, ℕ, ◌<◌, ◌≤◌, ◌+◌, ◌-◌, ◌++◌, ◌∷◌, [], ◌^◌, true, bit_and, length, max, List, IfSome, MatchOption, Some};

use crate::input::EnumerationInput;
use crate::sets::{Between, goals_between};
use crate::states::States;
use crate::trail::{Ahead, Children, Descent, Mark, Trail, WalkPosition, ahead_at};
use crate::walk::greatest_mark;
use node_store::{Node, NodeId};
use span_types::{Steps, Tuple};
use state_tables::Table;
use std::sync::ledger::Ledger;

/// The state after the text without marks, if there is no run with marks into a goal.
fn plain_into<const N: usize>(table: &Table, q: u16, goals: &States<N>) -> Option<u16>
    requires state { q < length table.now }
    requires can { can_reach_of table.now q goals.now ≡ true }
    ensures plain { MatchOption result (bit_and (marked_of table.now q) goals.now ≡ 0 → ⊥)
        (λ n. (bit_and (marked_of table.now q) goals.now ≡ 0) × (unmarked_of table.now q ≡ Some n)) }
    ensures within { IfSome result (λ n. n < length table.now) }
{
    if goals.meets(table.marked(q)) {
        return None;
    }
    table.unmarked(q)
}

/// The state after the text, if every run over it has no marks.
fn sole_state(table: &Table, p: u16) -> Option<u16>
    requires { p < length table.now }
    ensures sole { IfSome result (λ q. (marked_of table.now p ≡ 0) × (unmarked_of table.now p ≡ Some q)) }
    ensures within { IfSome result (λ q. q < length table.now) }
{
    if table.marked(p).is_empty() {
        table.unmarked(p)
    } else {
        None
    }
}

/// Passes the nodes ahead up to the first one over which a run with marks leads into a goal.
fn pass_plain<'a, const N: usize>(
    input: &EnumerationInput<'a, N>,
    trail: &Trail<'a, N>,
    from: WalkPosition,
) -> WalkPosition
    requires input { IsEnumerationInput input.now }
    requires go { CanContinue input.now trail.now.ahead.items from }
    ensures { (at : ℕ) (c : List (Ahead N)) → IsWalkAt input.now trail.now.ahead.items at from c → CanEnd input.now from.state c
        → (p : PassesPlain input.now trail.now.ahead.items at from result c) × Turns result.state p.passes.back }
{
    let mut place = from;
    while place.next > 0 {
        let node = ahead_at(trail, place.next);
        match plain_into(node.look.table, place.state, &node.goals) {
            Some(state) => place = WalkPosition {
                state,
                next: node.next,
                quiet: false,
            },
            None => return place,
        }
    }
    place
}

/// Moves from a node to its right child.
pub(crate) fn go_right<'a, const N: usize>(here: &mut Ahead<'a, N>, children: &Children<'a>)
    requires { here.old.at + children.now.left.len < 2 ^ 64 }
    ensures { here.new ≡ record {
      id = children.now.r;
      look = children.now.right;
      at = here.old.at + children.now.left.len;
      goals = here.old.goals;
      quiet = here.old.quiet;
      next = here.old.next;
    } }
{
    here.id = children.r;
    here.look = children.right;
    here.at += children.left.len;
}

/// Moves from a node to its left child, and puts the right one ahead.
pub(crate) fn go_left<'a, const N: usize>(
    trail: &mut Trail<'a, N>,
    here: &mut Ahead<'a, N>,
    children: &Children<'a>,
    between: &Between<N>,
)
    requires room { length trail.old.ahead.items < trail.old.ahead.capacity }
    requires low { here.old.at + children.now.left.len < 2 ^ 64 }
    ensures child { here.new ≡ child here.old children.now.l children.now.left between.now (length trail.old.ahead.items + 1) }
    ensures items { trail.new.ahead.items ≡ trail.old.ahead.items ++ Some (sibling here.old children.now.r children.now.left children.now.right) ∷ [] }
    ensures room { trail.new.ahead.capacity ≡ trail.old.ahead.capacity }
    ensures marks { trail.new.marks ≡ trail.old.marks }
{
    trail.ahead.push_reserved(&Ahead {
        id: children.r,
        look: children.right,
        at: here.at + children.left.len,
        goals: here.goals,
        quiet: here.quiet,
        next: here.next,
    });
    here.id = children.l;
    here.look = children.left;
    here.goals = between.goals;
    here.quiet = between.quiet;
    here.next = trail.ahead.len();
}

/// How the first marked text over a pair passes its left child.
enum OverLeft<const N: usize> {
    /// Without marks, into this state.
    Plain(u16),
    /// With marks, into one of these states.
    Marked(Between<N>),
}

/// How the first marked text over a pair passes its left child, if some run over the pair has marks.
fn over_left<const N: usize>(
    input: &EnumerationInput<'_, N>,
    here: &Ahead<'_, N>,
    left: &Table,
    right: &Table,
    p: u16,
) -> OverLeft<N>
    requires input { IsEnumerationInput input.now }
    requires fork { IsFork input.now.dfa.now here.now.look.table.now left.now right.now }
    requires state { p < states_of input.now.dfa.now }
    requires some { bit_and (marked_of here.now.look.table.now p) here.now.goals ≡ 0 → ⊥ }
    ensures over { (s u : List ℕ) → IsTable input.now.dfa.now (s ++ u) here.now.look.table.now → IsTable input.now.dfa.now s left.now
        → IsTable input.now.dfa.now u right.now → IsOverLeft input.now.dfa.now p s u here.now.goals here.now.quiet left.now right.now result }
{
    if let Some(q) = sole_state(left, p) {
        return OverLeft::Plain(q);
    }
    let between = goals_between(input.dfa, here, left, right, p);
    match plain_into(left, p, &between.goals) {
        Some(q) => OverLeft::Plain(q),
        None => OverLeft::Marked(between),
    }
}

/// Keeps a mark at a letter.
pub(crate) fn keep_mark<'a, const N: usize>(
    trail: &mut Trail<'a, N>,
    descent: &Descent<'a, N>,
    byte: u8,
    mark: u16,
)
    requires { length trail.old.marks.items < trail.old.marks.capacity }
    ensures marks { trail.new.marks.items ≡ trail.old.marks.items ++ mark_over descent.now.here byte descent.now.state mark descent.now.base ∷ [] }
    ensures room { trail.new.marks.capacity ≡ trail.old.marks.capacity }
    ensures ahead { trail.new.ahead ≡ trail.old.ahead }
{
    let here = &descent.here;
    trail.marks.push_reserved(Mark {
        at: here.at,
        mark,
        byte,
        state: descent.state,
        goals: here.goals,
        next: here.next,
        base: descent.base,
    });
}

/// Keeps the greatest mark at a letter, and writes it. Returns the walk's position after the letter.
fn place_mark<'a, const N: usize>(
    input: &EnumerationInput<'a, N>,
    trail: &mut Trail<'a, N>,
    descent: &Descent<'a, N>,
    byte: u8,
    out: &mut Tuple,
) -> WalkPosition
    requires input { IsEnumerationInput input.now }
    requires down { CanDescend input.now descent.now.here descent.now.state descent.now.base trail.old.marks.items trail.old.marks.capacity
        trail.old.ahead.items trail.old.ahead.capacity }
    requires byte { IsNodeAt input.now.view.store.now descent.now.here.id.index (Byte byte) }
    requires some { bit_and (marked_of descent.now.here.look.table.now descent.now.state) descent.now.here.goals ≡ 0 → ⊥ }
    ensures descends { (looks : ℕ) → Descends input.now descent.now.here descent.now.state descent.now.base trail.old.marks.items trail.new.marks.items
        trail.old.ahead.items trail.new.ahead.items looks looks out.old out.new result }
    ensures marks_room { trail.new.marks.capacity ≡ trail.old.marks.capacity }
    ensures ahead_room { trail.new.ahead.capacity ≡ trail.old.ahead.capacity }
{
    let here = &descent.here;
    // Some mark over the byte leads from the state into a goal.
    let step = greatest_mark(input.dfa, descent.state, byte, &here.goals, 65536).unwrap();
    keep_mark(trail, descent, byte, step.mark);
    *out = out.with_mark(step.mark, here.at);
    WalkPosition {
        state: step.state,
        next: here.next,
        quiet: here.quiet.holds(step.state),
    }
}

/// Moves from a pair to the child over which the first marked text has its first mark.
fn go_down<'a, L: Ledger, const N: usize>(
    input: &EnumerationInput<'a, N>,
    trail: &mut Trail<'a, N>,
    descent: &mut Descent<'a, N>,
    l: NodeId,
    r: NodeId,
    looks: &mut Steps<L>,
)
    requires input { IsEnumerationInput input.now }
    requires is_ahead { IsAhead input.now descent.old.here }
    requires node { descent.old.here.look.node ≡ Pair l r }
    requires state { descent.old.state < states_of input.now.dfa.now }
    requires room { length trail.old.ahead.items < trail.old.ahead.capacity }
    requires some { bit_and (marked_of descent.old.here.look.table.now descent.old.state) descent.old.here.goals ≡ 0 → ⊥ }
    ensures down { CanDescend input.now descent.old.here descent.old.state descent.old.base trail.old.marks.items trail.old.marks.capacity
        trail.old.ahead.items trail.old.ahead.capacity
        → CanDescend input.now descent.new.here descent.new.state descent.new.base trail.new.marks.items trail.new.marks.capacity
        trail.new.ahead.items trail.new.ahead.capacity }
    ensures some { bit_and (marked_of descent.new.here.look.table.now descent.new.state) descent.new.here.goals ≡ 0 → ⊥ }
    ensures on { ContinuesAt input.now descent.old.here descent.old.state descent.new.here descent.new.state descent.old.base trail.old.marks.items
        trail.old.ahead.items trail.new.ahead.items looks.old looks.new }
    ensures less { descent.new.here.id.index < descent.old.here.id.index }
    ensures base { descent.new.base ≡ descent.old.base }
    ensures marks { trail.new.marks ≡ trail.old.marks }
    ensures room { trail.new.ahead.capacity ≡ trail.old.ahead.capacity }
{
    let left = input.view.look(l, looks);
    let right = input.view.look(r, looks);
    let children = Children { l, left, r, right };
    match over_left(input, &descent.here, left.table, right.table, descent.state) {
        OverLeft::Plain(q) => {
            go_right(&mut descent.here, &children);
            descent.state = q;
        }
        OverLeft::Marked(between) => go_left(trail, &mut descent.here, &children, &between),
    }
}

/// Descends to the first mark of the first marked text over a node, and keeps it with the nodes that are then ahead.
/// `descent` becomes each node on the path in turn.
fn descend<'a, L: Ledger, const N: usize>(
    input: &EnumerationInput<'a, N>,
    trail: &mut Trail<'a, N>,
    descent: &mut Descent<'a, N>,
    out: &mut Tuple,
    looks: &mut Steps<L>,
) -> WalkPosition
    requires input { IsEnumerationInput input.now }
    requires down { CanDescend input.now descent.old.here descent.old.state descent.old.base trail.old.marks.items trail.old.marks.capacity
        trail.old.ahead.items trail.old.ahead.capacity }
    requires some { bit_and (marked_of descent.old.here.look.table.now descent.old.state) descent.old.here.goals ≡ 0 → ⊥ }
    ensures descends { Descends input.now descent.old.here descent.old.state descent.old.base trail.old.marks.items trail.new.marks.items
        trail.old.ahead.items trail.new.ahead.items looks.old looks.new out.old out.new result }
    ensures marks_room { trail.new.marks.capacity ≡ trail.old.marks.capacity }
    ensures ahead_room { trail.new.ahead.capacity ≡ trail.old.ahead.capacity }
{
    'down: loop {
        match descent.here.look.node {
            Node::Byte(b) => return place_mark(input, trail, &*descent, b, out),
            Node::Pair(l, r) => go_down(input, trail, descent, l, r, looks),
        }
    }
}

/// Writes the marks of the first marked text after the walk's position, and keeps them. Of the nodes ahead the first `base`
/// stay. Returns the state at the end, or none if a quiet state came first: then no mark is left, not even at the end.
pub(crate) fn complete<'a, L: Ledger, const N: usize>(
    input: &EnumerationInput<'a, N>,
    trail: &mut Trail<'a, N>,
    from: WalkPosition,
    base: usize,
    out: &mut Tuple,
    looks: &mut Steps<L>,
) -> Option<u16>
    requires input { IsEnumerationInput input.now }
    requires short { length (whole_text input.now) ≤ 281474976710656 }
    requires finish { CanFinish input.now from base trail.old.marks.items trail.old.ahead.items }
    requires room { HasRoom input.now.dfa.now.variables trail.old.marks.capacity trail.old.ahead.capacity }
    ensures completes { Completes input.now from base trail.old.marks.items trail.new.marks.items trail.old.ahead.items trail.new.ahead.items
        looks.old looks.new result out.old out.new }
    ensures within { IfSome result (λ q. q < states_of input.now.dfa.now) }
    ensures marks_room { trail.new.marks.capacity ≡ trail.old.marks.capacity }
    ensures ahead_room { trail.new.ahead.capacity ≡ trail.old.ahead.capacity }
{
    if from.quiet {
        trail.ahead.truncate(base);
        return None;
    }
    let place = pass_plain(input, &*trail, from);
    if place.next == 0 {
        trail.ahead.truncate(base);
        return Some(place.state);
    }
    let mut descent = Descent {
        here: ahead_at(&*trail, place.next),
        state: place.state,
        base,
    };
    trail.ahead.truncate(cut_before(place.next, base));
    let behind = descend(input, trail, &mut descent, out, looks);
    let kept = trail.ahead.len();
    complete(input, trail, behind, kept, out, looks)
}

/// How many nodes stay if the one with this index, counted from 1, is no longer needed: those before it, and at least
/// `base`.
fn cut_before(place: usize, base: usize) -> usize
    requires { 0 < place }
    ensures base { base ≤ result }
    ensures place { place ≤ result + 1 }
    ensures least { result ≡ max base (place - 1) }
{
    if base < place { place - 1 } else { base }
}
