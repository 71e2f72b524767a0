//! The document and the query that a command asks about.
ghost use Rattle.edge_io.specs.Files.{Files};
ghost use Rattle.query_commands.specs.Asking.{IsFound, unasked_reason};
ghost use Rattle.session_state.specs.SessionState.{IsConsistent, state_of};
ghost use Rattle.span_language.specs.State.{world};
ghost use Rattle.span_language.specs.Step.{IsUnasked};
ghost use Rattle.std.specs.Prelude.{◌≡◌, IfErr, IfOk, Option};

use doc_book::Missing;
use query_book::Ready;
use report_text::Refusal;
use session_state::SessionState;
use slp_model::NodeId;
use span_types::{Name, Vars};
use std::alloc::Global;

/// A query with its tables, and the root of the text that it is evaluated on.
#[derive(Clone, Copy)]
pub struct Subject<'q, 'a> {
    pub alloc: Global,
    pub query: &'q Ready<'a>,
    pub root: Option<NodeId>,
}

/// What a question is about: the root of the document's text, and the variables of the query.
#[derive(Clone, Copy)]
pub struct Asked<'a> {
    pub root: Option<NodeId>,
    pub vars: &'a Vars,
}

/// Why a question is rejected: the document doesn't exist, or the query doesn't.
#[derive(Clone, Copy, Drop)]
pub enum AskRefusal {
    NoSuchDocument,
    NoSuchQuery,
}

/// The document and the query of a question, by their names.
pub fn find_asked<'a>(
    session: &'a SessionState,
    query: &Name,
    name: &Name,
) -> Result<Asked<'a>, AskRefusal>
    requires { IsConsistent session.now }
    ensures found { IfOk result (λ asked. IsFound session.now query.now name.now asked.root asked.vars.now) }
    ensures missing { IfErr result (λ why. (files : Option Files) → IsUnasked (world (state_of session.now) files) query.now name.now
        (unasked_reason why query.now name.now)) }
{
    match session.root_of(name) {
        Ok(root) => match session.book.vars(query.bytes()) {
            Ok(vars) => Ok(Asked { root, vars }),
            Err(_) => Err(AskRefusal::NoSuchQuery),
        },
        Err(Missing::NoSuchDocument) => Err(AskRefusal::NoSuchDocument),
    }
}

/// The rejection of a question, with the name that doesn't exist.
pub fn unasked(why: AskRefusal, query: Name, name: Name) -> Refusal
    ensures { result ≡ unasked_reason why query name }
{
    match why {
        AskRefusal::NoSuchDocument => Refusal::NoSuchDocument { name },
        AskRefusal::NoSuchQuery => Refusal::NoSuchQuery { name: query },
    }
}
