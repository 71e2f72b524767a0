//! The command `compact`.
ghost use Rattle.script_syntax.specs.declared.form.Command.TheVariants as form;
ghost use Rattle.session_state.specs.Answers.{AnswersFreely, StaysFreely};
ghost use Rattle.session_state.specs.SessionState.{IsConsistent};

use session_state::{Answer, SessionState, ok_line};
use span_language::Stop;

/// `compact`
#[tactic(auto, using(crate::proofs::Facts::stays_freely))]
pub fn compact(session: &mut SessionState, number: u64) -> Result<Answer, Stop>
    requires { IsConsistent session.old }
    ensures done { AnswersFreely session.old number form.Compact session.new result }
    ensures stopped { StaysFreely session.old number form.Compact session.new result }
{
    let line = ok_line(session.alloc)?;
    // States a property of the store: apart from pairs it has at most 256 nodes, one for each byte.
    let _ = session.store.count();
    let moves = doc_compact::compact(
        session.alloc,
        &mut session.store,
        &mut session.docs,
        &mut session.versions,
    )?;
    session.book.renumber(&moves);
    Ok(Answer::accepted(line))
}
