//! The spans that are replaced.
ghost use Rattle.slp_model.specs.Nodes.{text_of};
ghost use Rattle.span_enum.specs.Listing.{IsReady};
ghost use Rattle.span_enum.specs.Members.{Tuple as ATuple, AreAnswersOf};
ghost use Rattle.span_replace.specs.Chosen as leftmost;
ghost use Rattle.span_replace.specs.Longest as leftmost_longest;
ghost use Rattle.span_replace.specs.Outcomes.{IsChoice};
ghost use Rattle.span_replace.specs.Replaced.{AreApart};
ghost use Rattle.span_replace.specs.Search.{chosen_by, search_cost};
ghost use Rattle.span_types.specs.Fibonacci.{looks_limit};
ghost use Rattle.std.specs.Prelude.{◌≡◌, ◌+◌, ◌*◌, ◌<◌, ◌≤◌, min, All, List, length, None, IfOk};

use crate::choice::Choice;
use crate::refusal::ReplaceRefusal;
use crate::spans::Chosen;
use marker_dfa::Dfa;
use node_store::NodeId;
use span_enum::Answers;
use span_types::Steps;
use state_tables::View;
use std::alloc::Global;
use std::sync::ledger::Ledger;

/// The maximum number of spans that are chosen.
const MAX_SPANS: usize = 32768;

/// The chosen spans of the root's text: the first answer that is a span, and after each chosen span the first answer
/// that comes later in mark order and starts at or past its end.
///
/// The automaton has one variable, the view's tables are those of the automaton, and the root is one of its nodes or
/// none. It makes at most 3·(c+1)·B(1, n) table lookups, where c is the number of chosen spans, or 32,768 if there are
/// more.
///
/// # Errors
///
/// `TooManyMatches` exactly if there are more than 32,768 chosen spans, and `NoMemory` if allocation fails.
pub fn chosen<L: Ledger>(
    alloc: Global,
    view: View<'_>,
    dfa: &Dfa,
    root: Option<NodeId>,
    looks: &mut Steps<L>,
) -> Result<Chosen, ReplaceRefusal>
    requires ready { IsReady dfa.now view.store.now view.tables.now root }
    requires one { dfa.now.variables ≡ 1 }
    ensures list { (all : List ATuple) × AreAnswersOf dfa.now (text_of view.entry.store.now root) all }
    ensures choice { (all : List ATuple) → AreAnswersOf dfa.now (text_of view.entry.store.now root) all → IsChoice (leftmost.chosen all) result }
    ensures apart { IfOk result (λ spans. AreApart (length (text_of view.entry.store.now root)) spans) }
    ensures cost { (all : List ATuple) → AreAnswersOf dfa.now (text_of view.entry.store.now root) all
        → looks.new ≤ looks.old + 3 * (min (length (leftmost.chosen all)) 32768 + 1) * looks_limit 1 (length (text_of view.entry.store.now root)) }
{
    choose(alloc, Choice::First, view, dfa, root, looks)
}

/// The longest spans of the root's text, from the left: of the answers with the first start the span with the greatest
/// end, and after each span the same of the answers that start at or past its end. Of these the empty span at that end
/// is left out.
///
/// The conditions and errors are those of `chosen`. It makes at most 8·(c+1)·B(1, n) table lookups.
pub fn longest<L: Ledger>(
    alloc: Global,
    view: View<'_>,
    dfa: &Dfa,
    root: Option<NodeId>,
    looks: &mut Steps<L>,
) -> Result<Chosen, ReplaceRefusal>
    requires ready { IsReady dfa.now view.store.now view.tables.now root }
    requires one { dfa.now.variables ≡ 1 }
    ensures list { (all : List ATuple) × AreAnswersOf dfa.now (text_of view.entry.store.now root) all }
    ensures choice { (all : List ATuple) → AreAnswersOf dfa.now (text_of view.entry.store.now root) all → IsChoice (leftmost_longest.longest all) result }
    ensures apart { IfOk result (λ spans. AreApart (length (text_of view.entry.store.now root)) spans) }
    ensures cost { (all : List ATuple) → AreAnswersOf dfa.now (text_of view.entry.store.now root) all
        → looks.new ≤ looks.old + 8 * (min (length (leftmost_longest.longest all)) 32768 + 1) * looks_limit 1 (length (text_of view.entry.store.now root)) }
{
    choose(alloc, Choice::Longest, view, dfa, root, looks)
}

// The chosen spans of the root's text.
fn choose<L: Ledger>(
    alloc: Global,
    choice: Choice,
    view: View<'_>,
    dfa: &Dfa,
    root: Option<NodeId>,
    looks: &mut Steps<L>,
) -> Result<Chosen, ReplaceRefusal>
    requires ready { IsReady dfa.now view.store.now view.tables.now root }
    requires one { dfa.now.variables ≡ 1 }
    ensures list { (all : List ATuple) × AreAnswersOf dfa.now (text_of view.entry.store.now root) all }
    ensures choice { (all : List ATuple) → AreAnswersOf dfa.now (text_of view.entry.store.now root) all → IsChoice (chosen_by choice all) result }
    ensures apart { IfOk result (λ spans. AreApart (length (text_of view.entry.store.now root)) spans) }
    ensures cost { (all : List ATuple) → AreAnswersOf dfa.now (text_of view.entry.store.now root) all
        → looks.new ≤ looks.old + (search_cost choice + 2) * (min (length (chosen_by choice all)) 32768 + 1) * looks_limit 1 (length (text_of view.entry.store.now root)) }
{
    let _states = dfa.states();
    check_text(&view, dfa, root, looks);
    let mut answers = Answers::start(alloc, view, dfa, root, looks)?;
    all_chosen(alloc, choice, &mut answers, looks)
}

// The chosen spans of an iterator that hasn't returned any answer.
fn all_chosen<L: Ledger>(
    alloc: Global,
    choice: Choice,
    answers: &mut Answers<'_>,
    looks: &mut Steps<L>,
) -> Result<Chosen, ReplaceRefusal>
    requires start { answers.old.after ≡ None }
    requires one { answers.old.automaton.variables ≡ 1 }
    requires short { length answers.old.text ≤ 281474976710656 }
    requires list { (all : List ATuple) × AreAnswersOf answers.old.automaton answers.old.text all }
    ensures choice { (all : List ATuple) → AreAnswersOf answers.old.automaton answers.old.text all → IsChoice (chosen_by choice all) result }
    ensures apart { IfOk result (λ spans. AreApart (length answers.old.text) spans) }
    ensures cost { (all : List ATuple) → AreAnswersOf answers.old.automaton answers.old.text all
        → looks.new ≤ looks.old + ((search_cost choice + 2) * min (length (chosen_by choice all)) 32768 + search_cost choice) * looks_limit 1 (length answers.old.text) }
{
    let mut spans = Vec::new(alloc);
    let mut next = choice.next_left(answers, looks);
    while let Some(span) = next {
        if spans.len() == MAX_SPANS {
            return Err(ReplaceRefusal::TooManyMatches);
        }
        spans.push(span)?;
        next = choice.next_after(answers, span, looks);
    }
    Ok(Chosen { spans })
}

// Looks up the root, which shows that its text isn't too long, so that no position is past the greatest one.
fn check_text<L: Ledger>(view: &View<'_>, dfa: &Dfa, root: Option<NodeId>, looks: &mut Steps<L>)
    requires { IsReady dfa.now view.now.store.now view.now.tables.now root }
    ensures short { length (text_of view.now.store.now root) ≤ 281474976710656 }
    ensures bytes { All (λ b. b < 256) (text_of view.now.store.now root) }
    ensures cost { looks.new ≤ looks.old + 1 }
{
    if let Some(id) = root {
        let _look = view.look(id, looks);
    }
}
