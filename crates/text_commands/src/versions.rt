//! The commands on versions of the documents.
ghost use Rattle.script_syntax.specs.declared.form.Command.TheVariants as form;
ghost use Rattle.session_state.specs.Answers.{AnswersFreely, StaysFreely};
ghost use Rattle.session_state.specs.SessionState.{IsConsistent};

use doc_versions::VersionRefusal;
use report_text::Refusal;
use session_state::{Answer, SessionState, ok_line, reject};
use span_language::Stop;
use span_types::Name;

/// `mark V`
#[tactic(auto, using(crate::proofs::Facts::stays_freely))]
pub fn mark(session: &mut SessionState, number: u64, name: Name) -> Result<Answer, Stop>
    requires { IsConsistent session.old }
    ensures done { AnswersFreely session.old number (form.MarkDocs name) session.new result }
    ensures stopped { StaysFreely session.old number (form.MarkDocs name) session.new result }
{
    let line = ok_line(session.alloc)?;
    session.versions.mark(session.alloc, name, &session.docs)?;
    Ok(Answer::accepted(line))
}

/// `back V`
#[tactic(auto, using(crate::proofs::Facts::stays_freely))]
pub fn back(session: &mut SessionState, number: u64, name: Name) -> Result<Answer, Stop>
    requires { IsConsistent session.old }
    ensures done { AnswersFreely session.old number (form.BackDocs name) session.new result }
    ensures stopped { StaysFreely session.old number (form.BackDocs name) session.new result }
{
    let line = ok_line(session.alloc)?;
    match session.versions.back(session.alloc, name.bytes()) {
        Ok(docs) => {
            session.docs = docs;
            Ok(Answer::accepted(line))
        }
        Err(VersionRefusal::NoSuchVersion) => {
            reject(session, number, &Refusal::NoSuchVersion { name })
        }
        Err(VersionRefusal::NoMemory) => Err(Stop::NoMemory),
    }
}

/// `unmark V`
#[tactic(auto, using(crate::proofs::Facts::stays_freely))]
pub fn unmark(session: &mut SessionState, number: u64, name: Name) -> Result<Answer, Stop>
    requires { IsConsistent session.old }
    ensures done { AnswersFreely session.old number (form.UnmarkDocs name) session.new result }
    ensures stopped { StaysFreely session.old number (form.UnmarkDocs name) session.new result }
{
    let line = ok_line(session.alloc)?;
    match session.versions.unmark(name.bytes()) {
        Ok(()) => Ok(Answer::accepted(line)),
        Err(_) => reject(session, number, &Refusal::NoSuchVersion { name }),
    }
}
