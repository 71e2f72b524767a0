//! The page of one text.
ghost use Rattle.list_all.specs.Page.{IsPageOf};
ghost use Rattle.slp_model.specs.Nodes.{text_of};
ghost use Rattle.span_enum.specs.Listing.{IsReady};
ghost use Rattle.span_enum.specs.Members.{Tuple as ATuple, AreAnswersOf};
ghost use Rattle.span_types.specs.Fibonacci.{looks_limit};
ghost use Rattle.std.specs.Prelude.{◌≡◌, ◌≤◌, ◌<◌, ◌+◌, ◌*◌, ◌^◌, ℕ, All, List, None, length, IfOk};

use crate::found::OnePage;
use marker_dfa::Dfa;
use node_store::NodeId;
use span_enum::Answers;
use span_types::{NoMemory, Steps};
use state_tables::View;
use std::alloc::Global;
use std::sync::ledger::Ledger;

/// Finds the first `limit` answers of the automaton on the root's text, and whether there are more.
///
/// The view's tables are those of the automaton, and the root is a node of the view or `None`. A page of `a` answers of
/// k variables on a text of n bytes takes at most (a+2)·B(k, n) table lookups, which `looks` counts. Memory is
/// allocated for these answers only.
///
/// # Errors
///
/// `NoMemory` if allocation fails.
pub fn page<L: Ledger>(
    alloc: Global,
    view: View<'_>,
    dfa: &Dfa,
    root: Option<NodeId>,
    limit: u16,
    looks: &mut Steps<L>,
) -> Result<OnePage, NoMemory>
    requires { IsReady dfa.now view.store.now view.tables.now root }
    ensures page { IfOk result (IsPageOf dfa.now (text_of view.entry.store.now root) limit) }
    ensures cost { IfOk result (λ p. looks.new ≤ looks.old + (length p.tuples + 2) * looks_limit dfa.now.variables (length (text_of view.entry.store.now root))) }
    ensures most { looks.new ≤ looks.old + (limit + 2) * looks_limit dfa.now.variables (length (text_of view.entry.store.now root)) }
{
    let _states = dfa.states();
    check_text(&view, dfa, root, looks);
    let mut answers = Answers::start(alloc, view, dfa, root, looks)?;
    first_answers(alloc, &mut answers, limit, looks)
}

/// A lookup of the root shows that its text isn't longer than the automaton's answers are defined for, so they make a list.
fn check_text<L: Ledger>(view: &View<'_>, dfa: &Dfa, root: Option<NodeId>, looks: &mut Steps<L>)
    requires { IsReady dfa.now view.now.store.now view.now.tables.now root }
    ensures short { length (text_of view.now.store.now root) ≤ 2 ^ 48 }
    ensures bytes { All (λ b. b < 256) (text_of view.now.store.now root) }
    ensures cost { looks.new ≤ looks.old + 1 }
{
    if let Some(id) = root {
        let _look = view.look(id, looks);
    }
}

/// Takes the first `limit` answers of an iterator that hasn't returned any, and tests whether there are more.
fn first_answers<L: Ledger>(
    alloc: Global,
    answers: &mut Answers<'_>,
    limit: u16,
    looks: &mut Steps<L>,
) -> Result<OnePage, NoMemory>
    requires start { answers.old.after ≡ None }
    requires list { (all : List ATuple) × AreAnswersOf answers.old.automaton answers.old.text all }
    ensures page { IfOk result (IsPageOf answers.old.automaton answers.old.text limit) }
    ensures cost { IfOk result (λ p. looks.new ≤ looks.old + (length p.tuples + 1) * looks_limit answers.old.automaton.variables (length answers.old.text)) }
    ensures most { looks.new ≤ looks.old + (limit + 1) * looks_limit answers.old.automaton.variables (length answers.old.text) }
{
    let mut tuples = Vec::new(alloc);
    for _given in 0..limit {
        match answers.next(looks) {
            Some(tuple) => tuples.push(tuple)?,
            None => {
                return Ok(OnePage {
                    tuples,
                    more: false,
                });
            }
        }
    }
    let more = answers.next(looks).is_some();
    Ok(OnePage { tuples, more })
}
