//! Replies to rejected commands, which change nothing and cost nothing.
ghost use Rattle.session_state.specs.Carried.{outlet};
ghost use Rattle.session_state.specs.Rejecting.{KeepsFreely, RejectsFreely, WritesRejection};

use crate::replies::Answer;
use crate::sending::send_rejection;
use crate::session::SessionState;
use edge_io::Sink;
use report_text::Refusal;
use span_language::{Stop, Told};

/// The reply to a command that is rejected for this reason. The session is unchanged.
pub fn reject(session: &SessionState, number: u64, why: &Refusal) -> Result<Answer, Stop>
    ensures done { RejectsFreely session.now number why.now result }
    ensures stopped { KeepsFreely session.now number result }
{
    let answer = Answer::refused(session.alloc, number, why)?;
    Ok(answer)
}

/// Writes the reply to a command that is rejected for this reason.
pub fn write_rejection<K: Sink>(
    session: &SessionState,
    number: u64,
    why: &Refusal,
    out: &mut K,
) -> Result<Told, Stop>
    ensures { WritesRejection session.now number why.now (outlet (K.written out.old) (K.faults out.old) (K.wants out.old))
        (outlet (K.written out.new) (K.faults out.new) (K.wants out.new)) result }
{
    send_rejection(session.alloc, number, why, out)
}
