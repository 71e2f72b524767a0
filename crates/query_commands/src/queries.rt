//! The commands on queries.
ghost use Rattle.edge_io.specs.Files.{Files};
ghost use Rattle.query_commands.specs.Judged.{IsReplied, IsReplyPaid, question_of};
ghost use Rattle.script_syntax.specs.declared.form.Command.TheVariants as form;
ghost use Rattle.session_state.specs.Answers.{Answers, AnswersFreely, Stays, StaysFreely};
ghost use Rattle.session_state.specs.CommandState.{at};
ghost use Rattle.session_state.specs.SessionState.{IsConsistent};
ghost use Rattle.slp_model.specs.Nodes.{IsLive, text_of};
ghost use Rattle.span_language.specs.Replies.{yes_text, no_text};
ghost use Rattle.span_language.specs.declared.told.Told.TheVariants as told;
ghost use Rattle.span_types.specs.Query.{query_of};
ghost use Rattle.std.specs.Prelude.{◌≡◌, IfOk, IfErr, Option, true, false, ℕ};

use crate::subject::Subject;
use crate::tables::grow;
use crate::words::tuple_of;
use doc_book::Missing;
use report_text::Refusal;
use session_state::{Answer, Context, SessionState, ok_line, reject};
use span_language::Stop;
use span_types::{ByteList, Name, NoMemory, Steps};
use std::alloc::Global;
use std::sync::ledger::Ledger;
use std::thread::Threads;
use work_gate::Gate;

/// `unquery NAME`
#[tactic(auto, using(crate::proofs::Facts::stays_freely))]
pub fn unquery(session: &mut SessionState, number: u64, name: Name) -> Result<Answer, Stop>
    requires { IsConsistent session.old }
    ensures done { AnswersFreely session.old number (form.Unquery name) session.new result }
    ensures stopped { StaysFreely session.old number (form.Unquery name) session.new result }
{
    let line = ok_line(session.alloc)?;
    match session.book.remove(name.bytes()) {
        Ok(()) => Ok(Answer::accepted(line)),
        Err(_) => reject(session, number, &Refusal::NoSuchQuery { name }),
    }
}

/// The line `yes` or `no`.
fn yes_or_no(alloc: Global, yes: bool) -> Result<Answer, NoMemory>
    ensures told { IfOk result (λ answer. answer.told ≡ told.Accepted) }
    ensures yes { IfOk result (λ answer. yes ≡ true → answer.line.items ≡ yes_text) }
    ensures no { IfOk result (λ answer. yes ≡ false → answer.line.items ≡ no_text) }
{
    if yes {
        let line = b"yes\n".to_vec(alloc)?;
        return Ok(Answer::accepted(line));
    }
    let line = b"no\n".to_vec(alloc)?;
    Ok(Answer::accepted(line))
}

/// The reply to a question about a root's text: whether the word is an answer of the query, or without a word, whether
/// the query has an answer.
fn ask_query<L: Ledger>(
    subject: Subject<'_, '_>,
    number: u64,
    word: &Option<ByteList>,
    looks: &mut Steps<L>,
) -> Result<Answer, NoMemory>
    requires { IsLive subject.query.now.nodes subject.root }
    ensures ok { IfOk result (λ answer. IsReplied number (query_of subject.entry.query.now.tree) word.now
        (text_of subject.entry.query.now.nodes subject.entry.root) answer.told answer.line.items) }
    ensures cost { IsReplyPaid (query_of subject.entry.query.now.tree) word.now (text_of subject.entry.query.now.nodes subject.entry.root)
        looks.old looks.new }
{
    let Subject { alloc, query, root } = subject;
    match word {
        None => yes_or_no(alloc, query.test(root, looks)),
        Some(word) => match tuple_of(query.vars(), word) {
            Ok(tuple) => yes_or_no(alloc, query.has(root, &tuple, looks)),
            Err(why) => Answer::refused(alloc, number, &why),
        },
    }
}

/// A question about a query's answers on a document: the query, the document's name, and the tuple as a word, or `None`
/// if the question is whether there is an answer.
#[derive(Drop)]
pub struct Question {
    pub query: Name,
    pub name: Name,
    pub word: Option<ByteList>,
}

/// `has Q NAME TUPLE`, or `test Q NAME` without a tuple.
#[tactic(auto, using(crate::proofs::QuestionLemmas::tables_stopped, crate::proofs::QuestionLemmas::ask_stopped, crate::proofs::QuestionLemmas::ask_answers))]
pub fn ask<R: Threads + Sync, G: Gate, T: Ledger, L: Ledger>(
    context: Context<'_, R, G>,
    session: &mut SessionState,
    question: Question,
    places: &mut Steps<T>,
    looks: &mut Steps<L>,
) -> Result<Answer, Stop>
    requires { IsConsistent session.old }
    ensures done { (files : Option Files) (faults pairs : ℕ) → IfOk result
        (Answers (at session.old files faults looks.old pairs places.old) context.entry.number
        (question_of question.query question.name question.word)
        (at session.new files faults looks.new pairs places.new)) }
    ensures stopped { (files : Option Files) (faults pairs : ℕ) → IfErr result
        (Stays (at session.old files faults looks.old pairs places.old) context.entry.number
        (question_of question.query question.name question.word)
        (at session.new files faults looks.new pairs places.new)) }
{
    let Question { query, name, word } = question;
    match session.root_of(&name) {
        Ok(root) => {
            let SessionState { store, book, .. } = session;
            grow(context.lent, session.alloc, &query, store, book, places)?;
            match session.book.ready(query.bytes(), &session.store) {
                Ok(ready) => {
                    let subject = Subject {
                        alloc: session.alloc,
                        query: &ready,
                        root,
                    };
                    let answer = ask_query(subject, context.number, &word, looks)?;
                    Ok(answer)
                }
                Err(_) => reject(
                    session,
                    context.number,
                    &Refusal::NoSuchQuery { name: query },
                ),
            }
        }
        Err(Missing::NoSuchDocument) => {
            reject(session, context.number, &Refusal::NoSuchDocument { name })
        }
    }
}
