//! The command `replace`: replaces chosen spans of a query's answers.
ghost use Rattle.doc_book.specs.Texts.{AreLive, plain};
ghost use Rattle.edge_io.specs.Files.{Files};
ghost use Rattle.query_commands.specs.Replacing.{AreSources, Chooses, Replaces, unreplaced_reason};
ghost use Rattle.script_syntax.specs.declared.form.Command.TheVariants as form;
ghost use Rattle.session_state.specs.Answers.{Answers, Stays};
ghost use Rattle.session_state.specs.CommandState.{at};
ghost use Rattle.session_state.specs.SessionState.{IsConsistent, state_of};
ghost use Rattle.slp_model.specs.Nodes.{Grows, IsLive, text_of};
ghost use Rattle.span_language.specs.State.{world};
ghost use Rattle.span_language.specs.Step.{IsUnreplaced};
ghost use Rattle.span_replace.specs.Replaced as meaning;
ghost use Rattle.span_replace.specs.Replaced.{AreApart};
ghost use Rattle.span_types.specs.Query.{query_of};
ghost use Rattle.span_types.specs.Rel.{names_of};
ghost use Rattle.std.specs.Prelude.{◌≡◌, ◌≤◌, ◌+◌, ◌*◌, length, IfOk, IfErr, OnErr, Option, ℕ};

use crate::subject::Subject;
use crate::tables::grow;
use doc_book::Missing;
use report_text::Refusal;
use session_state::{Answer, Context, SessionState, reject, set_document};
use slp_model::NodeId;
use span_language::Stop;
use span_replace::{Chosen, ReplaceRefusal, chosen, longest, replaced};
use span_types::{Name, NoMemory, Steps};
use std::sync::ledger::Ledger;
use std::thread::Threads;
use work_gate::Gate;

/// The arguments of a replacement: the document that gets the result, the query, the document whose spans are replaced,
/// the document whose text replaces them, and whether of the spans with the same start the longest is replaced.
#[derive(Drop)]
pub struct Replacing {
    pub name: Name,
    pub query: Name,
    pub source: Name,
    pub by: Name,
    pub longest: bool,
}

/// The texts of a replacement: the root of the text whose spans are replaced, and the root of the text that replaces
/// them.
#[derive(Clone, Copy, Drop)]
pub struct Sources {
    pub root: Option<NodeId>,
    pub other: Option<NodeId>,
}

/// Which document of a replacement doesn't exist.
#[derive(Clone, Copy, Drop)]
pub enum SourceRefusal {
    NoSuchSource,
    NoSuchOther,
}

/// The texts of a replacement, or the first document that doesn't exist.
fn find_sources(session: &SessionState, asked: &Replacing) -> Result<Sources, SourceRefusal>
    requires { IsConsistent session.now }
    ensures ok { IfOk result (AreSources session.now asked.now.source asked.now.by) }
    ensures err { IfErr result (λ why. (files : Option Files) → IsUnreplaced (world (state_of session.now) files) asked.now.query asked.now.source asked.now.by
        (unreplaced_reason why asked.now.source asked.now.by)) }
{
    let root = match session.root_of(&asked.source) {
        Ok(root) => root,
        Err(Missing::NoSuchDocument) => return Err(SourceRefusal::NoSuchSource),
    };
    match session.root_of(&asked.by) {
        Ok(other) => Ok(Sources { root, other }),
        Err(Missing::NoSuchDocument) => Err(SourceRefusal::NoSuchOther),
    }
}

/// The rejection of a replacement, with the name of the document that doesn't exist.
fn unreplaced(why: SourceRefusal, asked: Replacing) -> Refusal
    ensures { result ≡ unreplaced_reason why asked.source asked.by }
{
    match why {
        SourceRefusal::NoSuchSource => Refusal::NoSuchDocument { name: asked.source },
        SourceRefusal::NoSuchOther => Refusal::NoSuchDocument { name: asked.by },
    }
}

/// The spans of a query of one variable on a root's text that are replaced.
fn choose_spans<L: Ledger>(
    subject: Subject<'_, '_>,
    long: bool,
    looks: &mut Steps<L>,
) -> Result<Chosen, ReplaceRefusal>
    requires live { IsLive subject.query.now.nodes subject.root }
    requires one { length (names_of (query_of subject.query.now.tree)) ≡ 1 }
    ensures choice { Chooses long (query_of subject.entry.query.now.tree) (text_of subject.entry.query.now.nodes subject.entry.root)
        result looks.old looks.new }
    ensures apart { IfOk result (λ spans. AreApart (length (text_of subject.entry.query.now.nodes subject.entry.root)) spans) }
{
    let Subject { alloc, query, root } = subject;
    let dfa = query.dfa();
    if long {
        longest(alloc, query.view(), dfa, root, looks)
    } else {
        chosen(alloc, query.view(), dfa, root, looks)
    }
}

/// Sets the document with this name to the text with the spans replaced.
#[tactic(auto, using(crate::proofs::ReplaceLemmas::live_grown, crate::proofs::ReplaceLemmas::plain_grown))]
fn put_replaced<P: Ledger>(
    session: &mut SessionState,
    number: u64,
    name: Name,
    sources: &Sources,
    spans: &Chosen,
    pairs: &mut Steps<P>,
) -> Result<Answer, NoMemory>
    requires live { AreLive session.old.store session.old.docs }
    requires root { IsLive session.old.store sources.now.root }
    requires other { IsLive session.old.store sources.now.other }
    requires apart { AreApart (length (text_of session.old.store sources.now.root)) spans.now }
    ensures others { session.new ≡ record session.old { store = session.new.store; docs = session.new.docs } }
    ensures live { AreLive session.new.store session.new.docs }
    ensures grows { Grows session.old.store session.new.store pairs.old pairs.new }
    ensures ok { IfOk result (λ answer. Replaces (plain session.old.store session.old.docs) number name
        (meaning.replaced (text_of session.old.store sources.now.root) spans.now
        (text_of session.old.store sources.now.other)) answer.told answer.line.items
        (plain session.new.store session.new.docs)) }
    ensures err { OnErr result (plain session.new.store session.new.docs ≡ plain session.old.store session.old.docs) }
    ensures cost { pairs.new ≤ pairs.old + 1770 * (length spans.now + 1) }
{
    let alloc = session.alloc;
    match replaced(
        &mut session.store,
        sources.root,
        spans,
        sources.other,
        pairs,
    ) {
        Ok(root) => {
            let answer = set_document(alloc, &session.store, &mut session.docs, name, root)?;
            Ok(answer)
        }
        Err(ReplaceRefusal::TooLong { len }) => {
            let answer = Answer::refused(alloc, number, &Refusal::TooLong { len })?;
            Ok(answer)
        }
        Err(_) => Err(NoMemory),
    }
}

/// `replace NAME Q DOC BY`, optionally with `longest`
#[tactic(auto, using(crate::proofs::QuestionLemmas::tables_stopped, crate::proofs::ReplaceLemmas::choose_stopped, crate::proofs::ReplaceLemmas::replaced_stopped))]
pub fn replace<R: Threads + Sync, G: Gate, P: Ledger, T: Ledger, L: Ledger>(
    context: Context<'_, R, G>,
    session: &mut SessionState,
    asked: Replacing,
    pairs: &mut Steps<P>,
    places: &mut Steps<T>,
    looks: &mut Steps<L>,
) -> Result<Answer, Stop>
    requires { IsConsistent session.old }
    ensures done { (files : Option Files) (faults : ℕ) → IfOk result
        (Answers (at session.old files faults looks.old pairs.old places.old) context.entry.number
        (form.ReplaceDoc asked.name asked.query asked.source asked.by asked.longest)
        (at session.new files faults looks.new pairs.new places.new)) }
    ensures stopped { (files : Option Files) (faults : ℕ) → IfErr result
        (Stays (at session.old files faults looks.old pairs.old places.old) context.entry.number
        (form.ReplaceDoc asked.name asked.query asked.source asked.by asked.longest)
        (at session.new files faults looks.new pairs.new places.new)) }
{
    let number = context.number;
    match find_sources(session, &asked) {
        Ok(sources) => {
            let query = &asked.query;
            let SessionState { store, book, .. } = session;
            grow(context.lent, session.alloc, query, store, book, places)?;
            let Ok(ready) = session.book.ready(query.bytes(), &session.store) else {
                return reject(session, number, &Refusal::NoSuchQuery { name: asked.query });
            };
            let count = ready.vars().count();
            if count != 1 {
                let answer = Answer::refused(
                    session.alloc,
                    number,
                    &Refusal::NotOneVariable { count },
                )?;
                return Ok(answer);
            }
            let subject = Subject {
                alloc: session.alloc,
                query: &ready,
                root: sources.root,
            };
            match choose_spans(subject, asked.longest, looks) {
                Ok(spans) => {
                    let answer = put_replaced(
                        session, number, asked.name, &sources, &spans, pairs,
                    )?;
                    Ok(answer)
                }
                Err(ReplaceRefusal::TooManyMatches) => {
                    let answer = Answer::refused(session.alloc, number, &Refusal::TooManyMatches)?;
                    Ok(answer)
                }
                Err(_) => Err(Stop::NoMemory),
            }
        }
        Err(why) => reject(session, number, &unreplaced(why, asked)),
    }
}
