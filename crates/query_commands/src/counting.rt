//! The commands `count` and `rank`, whose replies are numbers of answers.
ghost use Rattle.edge_io.specs.Files.{Files};
ghost use Rattle.query_book.specs.Answers.{IfNamed, IsNamed, most_looks};
ghost use Rattle.query_book.specs.Book.{queries_of};
ghost use Rattle.query_book.specs.Named.{value_of};
ghost use Rattle.query_book.specs.Numbers.{IsRankOf};
ghost use Rattle.query_book.specs.Serving.{HasCounts, Serves};
ghost use Rattle.query_commands.specs.Counting.{IsNumberResult, IsReplyOf};
ghost use Rattle.script_syntax.specs.declared.form.Command.TheVariants as form;
ghost use Rattle.session_state.specs.Answers.{Answers, Stays};
ghost use Rattle.session_state.specs.CommandState.{at};
ghost use Rattle.session_state.specs.SessionState.{IsConsistent};
ghost use Rattle.slp_model.specs.Nodes.{IsLive, text_of};
ghost use Rattle.span_types.specs.Rel.{names_of};
ghost use Rattle.std.specs.Prelude.{◌≡◌, ◌+◌, ◌≤◌, IfErr, IfOk, Option, length, ℕ};

use crate::subject::{find_asked, unasked};
use crate::tables::grow_counts;
use crate::words::tuple_of;
use doc_book::Missing;
use query_book::BookRefusal;
use report_text::{Refusal, number_line};
use session_state::{Answer, Context, SessionState, reject};
use slp_model::NodeId;
use span_language::Stop;
use span_types::{ByteList, Name, NoMemory, Steps, Tuple};
use std::alloc::Global;
use std::sync::ledger::Ledger;
use std::thread::Threads;
use work_gate::Gate;

/// The reply with a number of answers. `u64::MAX` stands for too many.
fn number_reply(alloc: Global, number: u64, count: u64) -> Result<Answer, NoMemory>
    ensures { IfOk result (λ answer. IsNumberResult number count answer.told answer.line.items) }
{
    if count == u64::MAX {
        return Answer::refused(alloc, number, &Refusal::TooManyAnswers);
    }
    let mut line = Vec::new(alloc);
    number_line(alloc, count, &mut line)?;
    Ok(Answer::accepted(line))
}

/// `count Q NAME`
#[tactic(auto, using(crate::proofs::QuestionLemmas::count_stopped, crate::proofs::QuestionLemmas::count_answers))]
pub fn count<R: Threads + Sync, G: Gate, T: Ledger>(
    context: Context<'_, R, G>,
    session: &mut SessionState,
    query: Name,
    name: Name,
    places: &mut Steps<T>,
) -> Result<Answer, Stop>
    requires { IsConsistent session.old }
    ensures done { (files : Option Files) (faults looks pairs : ℕ) → IfOk result
        (Answers (at session.old files faults looks pairs places.old) context.entry.number (form.Count query name)
        (at session.new files faults looks pairs places.new)) }
    ensures stopped { (files : Option Files) (faults looks pairs : ℕ) → IfErr result
        (Stays (at session.old files faults looks pairs places.old) context.entry.number (form.Count query name)
        (at session.new files faults looks pairs places.new)) }
{
    let number = context.number;
    match session.root_of(&name) {
        Ok(root) => {
            let SessionState { store, book, .. } = session;
            grow_counts(context.lent, session.alloc, &query, store, book, places)?;
            match session.book.count(query.bytes(), &session.store, root) {
                Ok(count) => {
                    let answer = number_reply(session.alloc, number, count)?;
                    Ok(answer)
                }
                Err(_) => reject(session, number, &Refusal::NoSuchQuery { name: query }),
            }
        }
        Err(Missing::NoSuchDocument) => {
            reject(session, number, &Refusal::NoSuchDocument { name })
        }
    }
}

/// The reply with the number of answers of the query with this name on a root's text that come before a tuple.
fn rank_root<L: Ledger>(
    session: &SessionState,
    number: u64,
    query: &Name,
    root: Option<NodeId>,
    tuple: &Tuple,
    looks: &mut Steps<L>,
) -> Result<Answer, NoMemory>
    requires serves { Serves session.now.store session.now.book }
    requires counts { HasCounts (length session.now.store) session.now.book query.now }
    requires live { IsLive session.now.store root }
    requires tuple { IsNamed (queries_of session.now.book) query.now (λ q. length tuple.now ≡ length (names_of q)) }
    ensures ok { IfOk result (λ answer. IfNamed (queries_of session.now.book) query.now (λ q. IsReplyOf
        (IsRankOf q (text_of session.now.store root) tuple.now) number answer.told answer.line.items)) }
    ensures cost { looks.new ≤ looks.old + most_looks (value_of (queries_of session.now.book) query.now) (text_of session.now.store root) }
{
    let alloc = session.alloc;
    match session
        .book
        .rank(alloc, query.bytes(), &session.store, root, tuple, looks)
    {
        Ok(rank) => number_reply(alloc, number, rank),
        // There is a query with the name.
        Err(BookRefusal::NoSuchQuery) => unreachable!(),
        Err(BookRefusal::NoMemory) => Err(NoMemory),
    }
}

/// The arguments of `rank`: the query, the document's name, and the tuple as a word.
#[derive(Drop)]
pub struct Ranking {
    pub query: Name,
    pub name: Name,
    pub word: ByteList,
}

/// `rank Q NAME TUPLE`
#[tactic(auto, using(crate::proofs::QuestionLemmas::rank_stopped, crate::proofs::QuestionLemmas::rank_answers))]
pub fn rank<R: Threads + Sync, G: Gate, T: Ledger, L: Ledger>(
    context: Context<'_, R, G>,
    session: &mut SessionState,
    ranking: Ranking,
    places: &mut Steps<T>,
    looks: &mut Steps<L>,
) -> Result<Answer, Stop>
    requires { IsConsistent session.old }
    ensures done { (files : Option Files) (faults pairs : ℕ) → IfOk result
        (Answers (at session.old files faults looks.old pairs places.old) context.entry.number
        (form.Rank ranking.query ranking.name ranking.word)
        (at session.new files faults looks.new pairs places.new)) }
    ensures stopped { (files : Option Files) (faults pairs : ℕ) → IfErr result
        (Stays (at session.old files faults looks.old pairs places.old) context.entry.number
        (form.Rank ranking.query ranking.name ranking.word)
        (at session.new files faults looks.new pairs places.new)) }
{
    let number = context.number;
    let Ranking { query, name, word } = ranking;
    match find_asked(session, &query, &name) {
        Ok(asked) => match tuple_of(asked.vars, &word) {
            Ok(tuple) => {
                let root = asked.root;
                let SessionState { store, book, .. } = session;
                grow_counts(context.lent, session.alloc, &query, store, book, places)?;
                let answer = rank_root(session, number, &query, root, &tuple, looks)?;
                Ok(answer)
            }
            Err(why) => reject(session, number, &why),
        },
        Err(why) => reject(session, number, &unasked(why, query, name)),
    }
}
