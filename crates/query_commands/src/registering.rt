//! The commands that register queries.
ghost use Rattle.query_book.specs.Book.{queries_of};
ghost use Rattle.query_book.specs.Named.{value_of};
ghost use Rattle.query_book.specs.Serving.{Serves};
ghost use Rattle.query_commands.specs.Refused.{IsFormulaRefusal, IsTextRefusal};
ghost use Rattle.query_commands.specs.Registering.{IsOutcome, KeepsNames, command_of};
ghost use Rattle.report_text.specs.Reply.{query_text};
ghost use Rattle.session_state.specs.Answers.{AnswersFreely, StaysFreely};
ghost use Rattle.session_state.specs.SessionState.{IsConsistent};
ghost use Rattle.slp_model.specs.declared.Node.{Node};
ghost use Rattle.span_language.specs.Step.{IsCombineRefusal};
ghost use Rattle.span_language.specs.declared.told.Told.TheVariants as told;
ghost use Rattle.span_types.specs.Query.{Query};
ghost use Rattle.span_types.specs.Rel.{names_of};
ghost use Rattle.std.specs.Prelude.{◌≡◌, List, IfOk, IsErr, IsErrAnd, IsOk, IsSome, MatchOption, MatchResult, Some};

use formula_syntax::FormulaRefusal;
use query_book::{CombineRefusal, QueryBook, QueryRefusal};
use report_text::{Refusal, query_line};
use session_state::{Answer, SessionState, reject};
use span_language::Stop;
use span_types::{ByteList, Name, NoMemory};
use std::alloc::Global;

/// How a query is made: from a formula's text, or from other queries.
#[derive(Drop)]
pub enum Recipe {
    Formula { text: ByteList },
    Union { left: Name, right: Name },
    Join { left: Name, right: Name },
    Project { source: Name, keep: ByteList },
}

/// The reply's rejection for a formula's text.
fn formula_refusal(why: FormulaRefusal) -> Result<Refusal, NoMemory>
    ensures { IfOk result (IsFormulaRefusal why) }
{
    match why {
        FormulaRefusal::TooLong { len } => Ok(Refusal::FormulaTooLong { len }),
        FormulaRefusal::BadText => Ok(Refusal::BadFormula),
        FormulaRefusal::TooDeep => Ok(Refusal::TooDeep),
        FormulaRefusal::TooManyPositions => Ok(Refusal::TooManyPositions),
        FormulaRefusal::TooManyVariables => Ok(Refusal::TooManyVariables),
        FormulaRefusal::NotFunctional { name } => Ok(Refusal::NotFunctional { name }),
        FormulaRefusal::NoMemory => Err(NoMemory),
    }
}

/// The reply's rejection for a query's text.
fn text_refusal(why: QueryRefusal) -> Result<Refusal, NoMemory>
    ensures { IfOk result (IsTextRefusal why) }
{
    match why {
        QueryRefusal::Formula(why) => formula_refusal(why),
        QueryRefusal::TooManyStates => Ok(Refusal::TooManyStates),
        QueryRefusal::NoMemory => Err(NoMemory),
    }
}

/// The reply's rejection for an operation on queries.
fn combine_refusal(why: CombineRefusal) -> Result<Refusal, NoMemory>
    ensures { IfOk result (IsCombineRefusal why) }
{
    match why {
        CombineRefusal::NoSuchQuery { name } => Ok(Refusal::NoSuchQuery { name }),
        CombineRefusal::QueryTooLarge { parts } => Ok(Refusal::QueryTooLarge { parts }),
        CombineRefusal::OtherVariables => Ok(Refusal::OtherVariables),
        CombineRefusal::TooManyVariables => Ok(Refusal::TooManyVariables),
        CombineRefusal::TooManyStates => Ok(Refusal::TooManyStates),
        CombineRefusal::NoMemory => Err(NoMemory),
    }
}

/// The outcome of registering a formula: `None` if it was accepted, or the rejection.
fn read_outcome(made: Result<(), QueryRefusal>) -> Result<Option<Refusal>, NoMemory>
    ensures { MatchResult result (λ refused. MatchOption refused (IsOk made) (λ why. IsErrAnd made (λ e. IsTextRefusal e why))) (λ _. IsErr made) }
{
    match made {
        Ok(()) => Ok(None),
        Err(why) => {
            let why = text_refusal(why)?;
            Ok(Some(why))
        }
    }
}

/// The outcome of an operation on queries: `None` if it was accepted, or the rejection.
fn combine_outcome(made: Result<(), CombineRefusal>) -> Result<Option<Refusal>, NoMemory>
    ensures { MatchResult result (λ refused. MatchOption refused (IsOk made) (λ why. IsErrAnd made (λ e. IsCombineRefusal e why))) (λ _. IsErr made) }
{
    match made {
        Ok(()) => Ok(None),
        Err(why) => {
            let why = combine_refusal(why)?;
            Ok(Some(why))
        }
    }
}

/// Makes a query and registers it. Returns `None`, or why it is rejected.
fn make(
    alloc: Global,
    book: &mut QueryBook,
    name: Name,
    recipe: Recipe,
) -> Result<Option<Refusal>, NoMemory>
    requires { KeepsNames recipe }
    ensures serves { (ns : List Node) → Serves ns book.old → Serves ns book.new }
    ensures made { IsOutcome book.old name recipe book.new result }
{
    match recipe {
        Recipe::Formula { text } => read_outcome(book.add(alloc, name, text.bytes())),
        Recipe::Union { left, right } => {
            combine_outcome(book.union(alloc, name, left.bytes(), right.bytes()))
        }
        Recipe::Join { left, right } => {
            combine_outcome(book.join(alloc, name, left.bytes(), right.bytes()))
        }
        Recipe::Project { source, keep } => {
            combine_outcome(book.project(alloc, name, source.bytes(), keep.bytes()))
        }
    }
}

/// The reply with the variables of a registered query.
fn registered(alloc: Global, book: &QueryBook, name: &Name) -> Result<Answer, NoMemory>
    requires { IsSome (value_of (queries_of book.now) name.now) }
    ensures told { IfOk result (λ answer. answer.told ≡ told.Accepted) }
    ensures line { IfOk result (λ answer. (q : Query) → value_of (queries_of book.now) name.now ≡ Some q
        → answer.line.items ≡ query_text name.now (names_of q)) }
{
    match book.vars(name.bytes()) {
        Ok(vars) => {
            let mut line = Vec::new(alloc);
            query_line(alloc, name, vars, &mut line)?;
            Ok(Answer::accepted(line))
        }
        // The query was registered just before.
        Err(_) => unreachable!(),
    }
}

/// `query NAME FORMULA`, `union NAME LEFT RIGHT`, `join NAME LEFT RIGHT` and `project NAME SOURCE VARS`
#[tactic(auto, using(crate::proofs::Facts::stays_freely))]
pub fn register(
    session: &mut SessionState,
    number: u64,
    name: Name,
    recipe: Recipe,
) -> Result<Answer, Stop>
    requires session { IsConsistent session.old }
    requires recipe { KeepsNames recipe }
    ensures done { AnswersFreely session.old number (command_of name recipe) session.new result }
    ensures stopped { StaysFreely session.old number (command_of name recipe) session.new result }
{
    let kept = name.copy(session.alloc)?;
    let refused = make(session.alloc, &mut session.book, name, recipe)?;
    match refused {
        None => {
            let answer = registered(session.alloc, &session.book, &kept)?;
            Ok(answer)
        }
        Some(why) => reject(session, number, &why),
    }
}
