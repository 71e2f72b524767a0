//! The answers of an automaton on a text, with sets of states of any one width.
ghost use Rattle.marker_dfa.specs.Deterministic.{states_of};
ghost use Rattle.slp_model.specs.Nodes.{text_of};
ghost use Rattle.span_enum.specs.Answering.{IsFoundAfter, IsLoweredAtEnd, IsNoneAfter};
ghost use Rattle.span_enum.specs.LastEnd.{HasStart, IsLastEnd};
ghost use Rattle.span_enum.specs.Listing.{IsCursor, IsReady};
ghost use Rattle.span_enum.specs.Members.{IsFirstMember, NoMemberLeft};
ghost use Rattle.span_enum.specs.Sets.{is_final};
ghost use Rattle.span_enum.specs.Trail.{IsEnumerationInput, whole_text, CanFinish, Finishes, HasRoom, IsFresh, IsStateAt, IsTrail, IsTrailOf, NoEndAfter};
ghost use Rattle.span_enum.specs.Words.{CanRun, IsGreatestMark};
ghost use Rattle.span_types.specs.Fibonacci.{looks_limit};
ghost use Rattle.span_types.specs.Writes.{write_mark};
ghost use Rattle.std.specs.Prelude.{◌≡◌, ℕ, ◌+◌, ◌-◌, ◌*◌, ◌<◌, ◌≤◌, [], None, Some, length, true, IsTrue, ◌↔◌, MatchOption, IfOk};

use crate::agreement::last_end_from;
use crate::ends::{end_limit, greatest_end};
use crate::follow::follow;
use crate::input::EnumerationInput;
use crate::onward::complete;
use crate::trail::{
    Ahead, Position, Trail, WalkPosition, ahead_at, clear, empty_trail, lower_last, lower_to,
};
use crate::walk::can_reach;
use marker_dfa::Dfa;
use node_store::NodeId;
use span_types::{NoMemory, Steps, Tuple};
use state_tables::View;
use std::alloc::Global;
use std::marker::Model;
use std::sync::ledger::Ledger;

/// A position in the list of the answers of an automaton on a text, in mark order, with sets of states of N words: that
/// of `start`, of `seek` or of the last answer returned. Contracts see it as the automaton, the text and the cursor.
#[derive(Drop)]
pub(crate) struct Enumeration<'a, const N: usize> {
    input: EnumerationInput<'a, N>,
    last: Option<Tuple>,
    end: u64,
    state: Option<u16>,
    trail: Trail<'a, N>,
}

impl<'a, const N: usize> Model for Enumeration<'a, N> {
    ghost use Rattle.span_enum.specs.Listing.{Listing};

    ghost Value = { Listing };

    ghost use Rattle.span_enum.specs.ListingView.{view_of, IsListing};

    ghost view = { view_of };

    ghost invariant = { IsListing };
}

impl<'a, const N: usize> Enumeration<'a, N> {
    /// Before the first answer, with the memory that `next` will need.
    pub(crate) fn start<L: Ledger>(
        alloc: Global,
        view: View<'a>,
        dfa: &'a Dfa,
        root: Option<NodeId>,
        looks: &mut Steps<L>,
    ) -> Result<Enumeration<'a, N>, NoMemory>
        requires wide { states_of dfa.now ≤ 64 * N }
        requires narrow { N ≤ 16 }
        requires ready { IsReady dfa.now view.store.now view.tables.now root }
        ensures listing { IfOk result (λ a. a ≡ record { automaton = dfa.now; text = text_of view.entry.store.now root; after = None }) }
        ensures look { looks.new ≤ looks.old + 1 }
        ensures cost { looks.new ≤ looks.old + looks_limit dfa.now.variables (length (text_of view.entry.store.now root)) }
    {
        let input = EnumerationInput::new(view, dfa, root);
        let mut trail = empty_trail(alloc, dfa.variables())?;
        let end = put_root(&input, &mut trail, looks);
        Ok(Enumeration {
            input,
            last: None,
            end,
            state: None,
            trail,
        })
    }

    /// Before the first answer that comes strictly after the tuple, with the memory that `next` will need.
    pub(crate) fn seek<L: Ledger>(
        alloc: Global,
        view: View<'a>,
        dfa: &'a Dfa,
        root: Option<NodeId>,
        after: &Tuple,
        looks: &mut Steps<L>,
    ) -> Result<Enumeration<'a, N>, NoMemory>
        requires wide { states_of dfa.now ≤ 64 * N }
        requires narrow { N ≤ 16 }
        requires ready { IsReady dfa.now view.store.now view.tables.now root }
        requires tuple { length after.now ≡ dfa.now.variables }
        ensures listing { IfOk result (λ a. a ≡ record { automaton = dfa.now; text = text_of view.entry.store.now root; after = Some after.now }) }
        ensures cost { looks.new ≤ looks.old + 2 * looks_limit dfa.now.variables (length (text_of view.entry.store.now root)) }
    {
        let input = EnumerationInput::new(view, dfa, root);
        let mut trail = empty_trail(alloc, dfa.variables())?;
        let end = put_root(&input, &mut trail, looks);
        let state = follow_whole(&input, end, &mut trail, after, looks);
        Ok(Enumeration {
            input,
            last: Some(*after),
            end,
            state,
            trail,
        })
    }

    /// Moves to before the first answer that comes strictly after the tuple.
    pub(crate) fn reseek<L: Ledger>(&mut self, after: &Tuple, looks: &mut Steps<L>)
        requires { length after.now ≡ self.old.automaton.variables }
        ensures listing { self.new ≡ record self.old { after = Some after.now } }
        ensures cost { looks.new ≤ looks.old + 2 * looks_limit self.old.automaton.variables (length self.old.text) }
    {
        self.last = Some(*after);
        self.state = follow_anew(&self.input, self.end, &mut self.trail, after, looks);
    }

    /// The last answer returned, else the tuple of `seek`, else none.
    pub(crate) fn cursor(&self) -> Option<Tuple>
        ensures { result ≡ self.now.after }
    {
        self.last
    }

    /// The greatest end of the answers whose span starts at this position, for an automaton of one variable.
    pub(crate) fn last_end<L: Ledger>(&self, start: u64, looks: &mut Steps<L>) -> u64
        requires one { self.now.automaton.variables ≡ 1 }
        requires some { HasStart self.now.automaton self.now.text start }
        ensures end { IsLastEnd self.now.automaton self.now.text start result }
        ensures cost { looks.new ≤ looks.old + looks_limit 1 (length self.now.text) }
    {
        last_end_from(&self.input, self.end, start, looks)
    }

    /// The next answer.
    pub(crate) fn next<L: Ledger>(&mut self, looks: &mut Steps<L>) -> Option<Tuple>
        ensures answer { MatchOption result (NoMemberLeft self.old.automaton self.old.text self.old.after)
            (IsFirstMember self.old.automaton self.old.text self.old.after) }
        ensures listing { MatchOption result (self.new ≡ self.old) (λ u. self.new ≡ record self.old { after = Some u }) }
        ensures cost { looks.new ≤ looks.old + looks_limit self.old.automaton.variables (length self.old.text) }
    {
        let found = found_after(
            &self.input,
            self.end,
            self.state,
            self.last,
            &mut self.trail,
            looks,
        );
        match found {
            Some(found) => {
                self.last = Some(found.tuple);
                self.state = found.state;
                Some(found.tuple)
            }
            None => None,
        }
    }
}

/// An answer, and the state after its marks over the text. The state may be unknown if the answer has no mark at the
/// end.
#[derive(Clone, Copy)]
pub(crate) struct Found {
    pub(crate) tuple: Tuple,
    pub(crate) state: Option<u16>,
}

/// An answer up to a position of the walk: its marks before the position, and how many nodes are kept for them.
#[derive(Clone, Copy)]
struct Prefix {
    place: WalkPosition,
    base: usize,
    marks: Tuple,
}

/// Puts the root ahead of the first letter, and returns the position after the text.
fn put_root<'a, L: Ledger, const N: usize>(
    input: &EnumerationInput<'a, N>,
    trail: &mut Trail<'a, N>,
    looks: &mut Steps<L>,
) -> u64
    requires input { IsEnumerationInput input.now }
    requires ahead { trail.old.ahead.items ≡ [] }
    requires marks { trail.old.marks.items ≡ [] }
    requires room { 0 < trail.old.ahead.capacity }
    ensures fresh { IsFresh input.now trail.new.marks.items trail.new.ahead.items }
    ensures end { result ≡ length (whole_text input.now) + 1 }
    ensures low { result ≤ 281474976710657 }
    ensures cost { looks.new ≤ looks.old + 1 }
    ensures marks_room { trail.new.marks.capacity ≡ trail.old.marks.capacity }
    ensures ahead_room { trail.new.ahead.capacity ≡ trail.old.ahead.capacity }
{
    match input.root {
        None => 1,
        Some(id) => {
            let look = input.view.look(id, looks);
            trail.ahead.push_reserved(&Ahead {
                id,
                look,
                at: 1,
                goals: input.finals,
                quiet: input.quiet,
                next: 0,
            });
            look.len + 1
        }
    }
}

/// Keeps the marks of the tuple from the first letter on, as far as a run follows them. Returns the state at the end of the
/// text, if a run follows all of them.
fn follow_whole<'a, L: Ledger, const N: usize>(
    input: &EnumerationInput<'a, N>,
    end: u64,
    trail: &mut Trail<'a, N>,
    t: &Tuple,
    looks: &mut Steps<L>,
) -> Option<u16>
    requires input { IsEnumerationInput input.now }
    requires end { end ≡ length (whole_text input.now) + 1 }
    requires tuple { length t.now ≡ input.now.dfa.now.variables }
    requires fresh { IsFresh input.now trail.old.marks.items trail.old.ahead.items }
    requires room { HasRoom input.now.dfa.now.variables trail.old.marks.capacity trail.old.ahead.capacity }
    ensures state { IsStateAt input.now (Some t.now) result }
    ensures trail { IsTrailOf input.now t.now trail.new.marks.items trail.new.ahead.items }
    ensures cost { looks.new ≤ looks.old + looks_limit input.now.dfa.now.variables (length (whole_text input.now)) }
    ensures marks_room { trail.new.marks.capacity ≡ trail.old.marks.capacity }
    ensures ahead_room { trail.new.ahead.capacity ≡ trail.old.ahead.capacity }
{
    let first = WalkPosition {
        state: 0,
        next: trail.ahead.len(),
        quiet: false,
    };
    let from = Position {
        place: first,
        at: 1,
    };
    follow(input, trail, from, t, end, looks)
}

/// Keeps the marks of the tuple in place of what is kept. Returns the state at the end of the text, if a run follows all
/// of them.
fn follow_anew<'a, L: Ledger, const N: usize>(
    input: &EnumerationInput<'a, N>,
    end: u64,
    trail: &mut Trail<'a, N>,
    t: &Tuple,
    looks: &mut Steps<L>,
) -> Option<u16>
    requires input { IsEnumerationInput input.now }
    requires end { end ≡ length (whole_text input.now) + 1 }
    requires tuple { length t.now ≡ input.now.dfa.now.variables }
    requires room { HasRoom input.now.dfa.now.variables trail.old.marks.capacity trail.old.ahead.capacity }
    ensures state { IsStateAt input.now (Some t.now) result }
    ensures trail { IsTrailOf input.now t.now trail.new.marks.items trail.new.ahead.items }
    ensures cost { looks.new ≤ looks.old + 2 * looks_limit input.now.dfa.now.variables (length (whole_text input.now)) }
    ensures marks_room { trail.new.marks.capacity ≡ trail.old.marks.capacity }
    ensures ahead_room { trail.new.ahead.capacity ≡ trail.old.ahead.capacity }
{
    clear(trail);
    let _end = put_root(input, trail, looks);
    follow_whole(input, end, trail, t, looks)
}

/// The tuple with the greatest mark with which the text may end in the state.
fn with_end(dfa: &Dfa, q: u16, tuple: Tuple, end: u64) -> Tuple
    requires state { q < states_of dfa.now }
    requires ends { is_final dfa.now q ≡ true }
    requires positive { 1 ≤ end }
    requires short { end ≤ 281474976710657 }
    ensures { (mark : ℕ) × (result ≡ write_mark mark end tuple) × IsGreatestMark dfa.now q 256 1 65536 mark 0 }
{
    let _states = dfa.states();
    // The state is final, so some mark ends the text.
    tuple.with_mark(greatest_end(dfa, q, 65536).unwrap(), end)
}

/// The first answer with this prefix.
fn finish<'a, L: Ledger, const N: usize>(
    input: &EnumerationInput<'a, N>,
    end: u64,
    trail: &mut Trail<'a, N>,
    prefix: &Prefix,
    looks: &mut Steps<L>,
) -> Found
    requires input { IsEnumerationInput input.now }
    requires end { end ≡ length (whole_text input.now) + 1 }
    requires low { end ≤ 281474976710657 }
    requires finish { CanFinish input.now prefix.now.place prefix.now.base trail.old.marks.items trail.old.ahead.items }
    requires room { HasRoom input.now.dfa.now.variables trail.old.marks.capacity trail.old.ahead.capacity }
    ensures finishes { Finishes input.now prefix.now.place prefix.now.base trail.old.marks.items trail.new.marks.items
        trail.old.ahead.items trail.new.ahead.items looks.old looks.new prefix.now.marks end result }
    ensures marks_room { trail.new.marks.capacity ≡ trail.old.marks.capacity }
    ensures ahead_room { trail.new.ahead.capacity ≡ trail.old.ahead.capacity }
{
    let mut out = prefix.marks;
    let state = complete(input, trail, prefix.place, prefix.base, &mut out, looks);
    match state {
        Some(q) => Found {
            tuple: with_end(input.dfa, q, out, end),
            state,
        },
        None => Found { tuple: out, state },
    }
}

/// Whether there is an answer, before anything is read.
fn has_first<const N: usize>(input: &EnumerationInput<'_, N>, trail: &Trail<'_, N>) -> bool
    requires input { IsEnumerationInput input.now }
    requires fresh { IsFresh input.now trail.now.marks.items trail.now.ahead.items }
    ensures { IsTrue result ↔ CanRun input.now.dfa.now 0 (whole_text input.now) input.now.finals }
{
    let count = trail.ahead.len();
    if count == 0 {
        return input.finals.holds(0);
    }
    can_reach(ahead_at(trail, count).look.table, 0, &input.finals)
}

/// The first answer.
fn first_answer<'a, L: Ledger, const N: usize>(
    input: &EnumerationInput<'a, N>,
    end: u64,
    trail: &mut Trail<'a, N>,
    looks: &mut Steps<L>,
) -> Option<Found>
    requires input { IsEnumerationInput input.now }
    requires end { end ≡ length (whole_text input.now) + 1 }
    requires fresh { IsFresh input.now trail.old.marks.items trail.old.ahead.items }
    requires room { HasRoom input.now.dfa.now.variables trail.old.marks.capacity trail.old.ahead.capacity }
    ensures answer { MatchOption result (IsNoneAfter input.now None trail.new.marks.items trail.new.ahead.items)
        (IsFoundAfter input.now None trail.new.marks.items trail.new.ahead.items)
        × (looks.new ≤ looks.old + looks_limit input.now.dfa.now.variables (length (whole_text input.now))) }
    ensures marks_room { trail.new.marks.capacity ≡ trail.old.marks.capacity }
    ensures ahead_room { trail.new.ahead.capacity ≡ trail.old.ahead.capacity }
{
    if !has_first(input, &*trail) {
        return None;
    }
    let count = trail.ahead.len();
    let first = WalkPosition {
        state: 0,
        next: count,
        quiet: false,
    };
    let none = Tuple::none(input.dfa.variables());
    let empty = Prefix {
        place: first,
        base: count,
        marks: none,
    };
    Some(finish(input, end, trail, &empty, looks))
}

/// The first answer strictly after the tuple whose marks are kept. From then on those of the answer are kept.
fn answer_after<'a, L: Ledger, const N: usize>(
    input: &EnumerationInput<'a, N>,
    end: u64,
    state: Option<u16>,
    t: &Tuple,
    trail: &mut Trail<'a, N>,
    looks: &mut Steps<L>,
) -> Option<Found>
    requires input { IsEnumerationInput input.now }
    requires end { end ≡ length (whole_text input.now) + 1 }
    requires low { end ≤ 281474976710657 }
    requires tuple { length t.now ≡ input.now.dfa.now.variables }
    requires state { IsStateAt input.now (Some t.now) state }
    requires trail { IsTrailOf input.now t.now trail.old.marks.items trail.old.ahead.items }
    requires room { HasRoom input.now.dfa.now.variables trail.old.marks.capacity trail.old.ahead.capacity }
    ensures answer { MatchOption result (IsNoneAfter input.now (Some t.now) trail.new.marks.items trail.new.ahead.items)
        (IsFoundAfter input.now (Some t.now) trail.new.marks.items trail.new.ahead.items)
        × (looks.new ≤ looks.old + looks_limit input.now.dfa.now.variables (length (whole_text input.now))) }
    ensures marks_room { trail.new.marks.capacity ≡ trail.old.marks.capacity }
    ensures ahead_room { trail.new.ahead.capacity ≡ trail.old.ahead.capacity }
{
    let _count = t.count();
    if let Some(found) = lowered_at_end(input, end, state, t) {
        return Some(found);
    }
    let lowered = lower_last(input, trail, t)?;
    let turn = lower_to(input, trail, t, &lowered);
    let place = WalkPosition {
        state: lowered.state,
        next: turn.next,
        quiet: false,
    };
    let marks = t.cut_at(lowered.at).with_mark(lowered.mark, lowered.at);
    let prefix = Prefix {
        place,
        base: turn.base,
        marks,
    };
    Some(finish(input, end, trail, &prefix, looks))
}

/// The first answer after the cursor, or the first of all. From then on its marks are kept.
fn found_after<'a, L: Ledger, const N: usize>(
    input: &EnumerationInput<'a, N>,
    end: u64,
    state: Option<u16>,
    cursor: Option<Tuple>,
    trail: &mut Trail<'a, N>,
    looks: &mut Steps<L>,
) -> Option<Found>
    requires input { IsEnumerationInput input.now }
    requires end { end ≡ length (whole_text input.now) + 1 }
    requires low { end ≤ 281474976710657 }
    requires cursor { IsCursor input.now.dfa.now cursor }
    requires state { IsStateAt input.now cursor state }
    requires trail { IsTrail input.now cursor trail.old.marks.items trail.old.ahead.items }
    requires room { HasRoom input.now.dfa.now.variables trail.old.marks.capacity trail.old.ahead.capacity }
    ensures answer { MatchOption result (IsNoneAfter input.now cursor trail.new.marks.items trail.new.ahead.items)
        (IsFoundAfter input.now cursor trail.new.marks.items trail.new.ahead.items)
        × (looks.new ≤ looks.old + looks_limit input.now.dfa.now.variables (length (whole_text input.now))) }
    ensures marks_room { trail.new.marks.capacity ≡ trail.old.marks.capacity }
    ensures ahead_room { trail.new.ahead.capacity ≡ trail.old.ahead.capacity }
{
    match cursor {
        None => first_answer(input, end, trail, looks),
        Some(t) => answer_after(input, end, state, &t, trail, looks),
    }
}

/// The first answer after the tuple, if only its mark at the end is lower.
fn lowered_at_end<const N: usize>(
    input: &EnumerationInput<'_, N>,
    end: u64,
    state: Option<u16>,
    t: &Tuple,
) -> Option<Found>
    requires input { IsEnumerationInput input.now }
    requires end { end ≡ length (whole_text input.now) + 1 }
    requires low { end ≤ 281474976710657 }
    requires tuple { length t.now ≡ input.now.dfa.now.variables }
    requires state { IsStateAt input.now (Some t.now) state }
    ensures { MatchOption result (NoEndAfter input.now t.now end) (IsLoweredAtEnd input.now t.now) }
{
    let _count = t.count();
    let q = state?;
    let mark = greatest_end(input.dfa, q, end_limit(t, end))?;
    Some(Found {
        tuple: t.cut_at(end).with_mark(mark, end),
        state,
    })
}
