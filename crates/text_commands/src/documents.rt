//! The commands on documents.
ghost use Rattle.doc_book.specs.Texts.{AreLive, plain};
ghost use Rattle.edge_io.specs.Files.{Files};
ghost use Rattle.edit_expr.specs.Eval as meaning;
ghost use Rattle.edit_expr.specs.Eval.{greatest, operations};
ghost use Rattle.script_syntax.specs.declared.form.Command.TheVariants as form;
ghost use Rattle.session_state.specs.Answers.{Answers, AnswersFreely, Stays, StaysFreely};
ghost use Rattle.session_state.specs.Carried.{outlet};
ghost use Rattle.session_state.specs.CommandState.{at};
ghost use Rattle.session_state.specs.SessionState.{IsConsistent};
ghost use Rattle.session_state.specs.Written.{Wrote};
ghost use Rattle.slp_model.specs.Nodes.{Grows, IsLive, text_of};
ghost use Rattle.span_language.specs.Allowance.{edit_limit};
ghost use Rattle.span_language.specs.Replies.{entry_text, names_text, shown_range};
ghost use Rattle.std.specs.Prelude.{◌≡◌, ◌≤◌, ◌+◌, ◌^◌, length, IfOk, IfErr, OnErr, Option, ℕ};
ghost use Rattle.text_commands.specs.Shown.{Assigns, IsShown, IsEditRejectionReply};

use doc_book::{Docs, Missing};
use edge_io::Sink;
use edit_expr::{EditRefusal, Expr, ExprRefusal, eval, read};
use node_store::Store;
use pair_loader::load;
use range_read::{is_within, root_len};
use report_text::{Refusal, name_line, shown_line};
use session_state::{
    Answer, SessionState, bytes_between, close, offer, ok_line, reject, set_document,
};
use slp_model::NodeId;
use span_language::{Stop, Told};
use span_types::{ByteList, Name, NoMemory, Steps};
use std::alloc::Global;
use std::sync::ledger::Ledger;

/// The maximum number of bytes that `show` writes.
const MAX_WIDTH: u64 = 4096;

/// `text NAME BYTES` and `bytes NAME QUOTED`, which differ only in how the line has the bytes.
#[tactic(auto, using(crate::proofs::Facts::growing))]
pub fn text<P: Ledger>(
    session: &mut SessionState,
    number: u64,
    name: Name,
    content: ByteList,
    pairs: &mut Steps<P>,
) -> Result<Answer, Stop>
    requires session { IsConsistent session.old }
    requires short { length content ≤ 2 ^ 16 }
    ensures done { (files : Option Files) (faults looks places : ℕ) → IfOk result
        (Answers (at session.old files faults looks pairs.old places) number (form.Text name content)
        (at session.new files faults looks pairs.new places)) }
    ensures stopped { (files : Option Files) (faults looks places : ℕ) → IfErr result
        (Stays (at session.old files faults looks pairs.old places) number (form.Text name content)
        (at session.new files faults looks pairs.new places)) }
    ensures quoted_done { (files : Option Files) (faults looks places : ℕ) → IfOk result
        (Answers (at session.old files faults looks pairs.old places) number (form.QuotedText name content)
        (at session.new files faults looks pairs.new places)) }
    ensures quoted_stopped { (files : Option Files) (faults looks places : ℕ) → IfErr result
        (Stays (at session.old files faults looks pairs.old places) number (form.QuotedText name content)
        (at session.new files faults looks pairs.new places)) }
{
    let root = load(session.alloc, &mut session.store, content.bytes(), pairs)?;
    let answer = set_document(session.alloc, &session.store, &mut session.docs, name, root)?;
    Ok(answer)
}

/// The reply to an expression whose evaluation failed.
fn rejected_edit(alloc: Global, number: u64, why: EditRefusal) -> Result<Answer, NoMemory>
    ensures { IfOk result (λ answer. IsEditRejectionReply number why answer.told answer.line.items) }
{
    let why = match why {
        EditRefusal::NoSuchDocument { name } => Refusal::NoSuchDocument { name },
        EditRefusal::OutOfRange { first, last, len } => Refusal::OutOfRange { first, last, len },
        EditRefusal::TooLong { len } => Refusal::TooLong { len },
        EditRefusal::NoMemory => return Err(NoMemory),
    };
    let answer = Answer::refused(alloc, number, &why)?;
    Ok(answer)
}

/// An assignment: the number of its line, the name of the document, and the expression.
#[derive(Drop)]
struct Assignment<'a> {
    number: u64,
    name: Name,
    expr: &'a Expr,
}

/// Sets the document with this name to the value of an expression.
#[tactic(auto, using(crate::proofs::Facts::growing, crate::proofs::Facts::assigned_refusal))]
fn assign<P: Ledger>(
    alloc: Global,
    store: &mut Store,
    docs: &mut Docs,
    assignment: Assignment<'_>,
    pairs: &mut Steps<P>,
) -> Result<Answer, NoMemory>
    requires { AreLive store.old docs.old }
    ensures live { IfOk result (λ _. AreLive store.new docs.new) }
    ensures grows { Grows store.old store.new pairs.old pairs.new }
    ensures ok { IfOk result (λ answer. Assigns (plain store.old docs.old) assignment.entry.number assignment.entry.name
        (meaning.eval (plain store.old docs.old) assignment.entry.expr.now) answer.told answer.line.items (plain store.new docs.new)) }
    ensures err { OnErr result (docs.new ≡ docs.old) }
    ensures cost { pairs.new ≤ pairs.old + edit_limit (operations assignment.entry.expr.now)
        (greatest (plain store.old docs.old) assignment.entry.expr.now) }
{
    let Assignment { number, name, expr } = assignment;
    match eval(alloc, expr, docs, store, pairs) {
        Ok(root) => {
            let answer = set_document(alloc, store, docs, name, root)?;
            Ok(answer)
        }
        Err(why) => {
            let answer = rejected_edit(alloc, number, why)?;
            Ok(answer)
        }
    }
}

/// `let NAME = EXPR`
pub fn let_document<P: Ledger>(
    session: &mut SessionState,
    number: u64,
    name: Name,
    expr: ByteList,
    pairs: &mut Steps<P>,
) -> Result<Answer, Stop>
    requires { IsConsistent session.old }
    ensures done { (files : Option Files) (faults looks places : ℕ) → IfOk result
        (Answers (at session.old files faults looks pairs.old places) number (form.LetDoc name expr)
        (at session.new files faults looks pairs.new places)) }
    ensures stopped { (files : Option Files) (faults looks places : ℕ) → IfErr result
        (Stays (at session.old files faults looks pairs.old places) number (form.LetDoc name expr)
        (at session.new files faults looks pairs.new places)) }
{
    match read(session.alloc, expr.bytes()) {
        Ok(tree) => {
            let SessionState {
                alloc,
                store,
                docs,
                ..
            } = session;
            let expr = &tree;
            let assignment = Assignment { number, name, expr };
            let answer = assign(*alloc, store, docs, assignment, pairs)?;
            Ok(answer)
        }
        Err(ExprRefusal::Syntax) => reject(session, number, &Refusal::Syntax),
        Err(ExprRefusal::NoMemory) => Err(Stop::NoMemory),
    }
}

/// `drop NAME`
#[tactic(auto, using(crate::proofs::Facts::stays_freely))]
pub fn drop_document(session: &mut SessionState, number: u64, name: Name) -> Result<Answer, Stop>
    requires { IsConsistent session.old }
    ensures done { AnswersFreely session.old number (form.DropDoc name) session.new result }
    ensures stopped { StaysFreely session.old number (form.DropDoc name) session.new result }
{
    let line = ok_line(session.alloc)?;
    match session.docs.take_out(name.bytes()) {
        Ok(()) => Ok(Answer::accepted(line)),
        Err(Missing::NoSuchDocument) => reject(session, number, &Refusal::NoSuchDocument { name }),
    }
}

/// The reply with bytes i to j-1 of a text, or the rejection.
fn show_range(
    alloc: Global,
    store: &Store,
    root: Option<NodeId>,
    number: u64,
    i: u64,
    j: u64,
) -> Result<Answer, NoMemory>
    requires { IsLive store.now root }
    ensures { IfOk result (λ answer. IsShown number (shown_range (text_of store.now root) i j) answer.told answer.line.items) }
{
    let len = root_len(store, root);
    if !is_within(i, j, len) {
        let why = Refusal::OutOfRange {
            first: i,
            last: j,
            len,
        };
        let answer = Answer::refused(alloc, number, &why)?;
        return Ok(answer);
    }
    let width = j - i;
    if width > MAX_WIDTH {
        let answer = Answer::refused(alloc, number, &Refusal::RangeTooWide { width })?;
        return Ok(answer);
    }
    let bytes = bytes_between(alloc, store, root, i, j)?;
    let mut line = Vec::new(alloc);
    shown_line(alloc, &bytes, &mut line)?;
    Ok(Answer::accepted(line))
}

/// `show NAME I J`
#[tactic(auto, using(crate::proofs::Facts::stays_freely))]
pub fn show(
    session: &mut SessionState,
    number: u64,
    name: Name,
    i: u64,
    j: u64,
) -> Result<Answer, Stop>
    requires { IsConsistent session.old }
    ensures done { AnswersFreely session.old number (form.Show name i j) session.new result }
    ensures stopped { StaysFreely session.old number (form.Show name i j) session.new result }
{
    match session.root_of(&name) {
        Ok(root) => {
            let answer = show_range(session.alloc, &session.store, root, number, i, j)?;
            Ok(answer)
        }
        Err(Missing::NoSuchDocument) => reject(session, number, &Refusal::NoSuchDocument { name }),
    }
}

/// A document's line in the reply to `names`.
fn entry_line(
    alloc: Global,
    store: &Store,
    name: &Name,
    root: Option<NodeId>,
) -> Result<Vec<u8>, NoMemory>
    requires { IsLive store.now root }
    ensures { IfOk result (λ line. line.items ≡ entry_text (name.now, text_of store.now root)) }
{
    let mut line = Vec::new(alloc);
    let len = root_len(store, root);
    name_line(alloc, name, len, &mut line)?;
    Ok(line)
}

/// `names`: writes each document's line before the next one is made.
#[tactic(auto, using(crate::proofs::Facts::starts))]
pub fn write_names<K: Sink>(
    alloc: Global,
    store: &Store,
    docs: &Docs,
    out: &mut K,
) -> Result<Told, Stop>
    requires { AreLive store.now docs.now }
    ensures told { IfOk result (λ told. told ≡ Told.Accepted) }
    ensures wrote { Wrote result (outlet (K.written out.old) (K.faults out.old) (K.wants out.old)) (names_text (plain store.now docs.now))
        (outlet (K.written out.new) (K.faults out.new) (K.wants out.new)) }
{
    for index in 0..docs.count() {
        let (name, root) = docs.at(index);
        let line = entry_line(alloc, store, name, root)?;
        offer(out, &line)?;
    }
    close(out, b"end\n")
}
