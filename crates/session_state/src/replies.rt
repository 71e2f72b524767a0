//! Replies as values.
ghost use Rattle.report_text.specs.Reply.{refusal_text};
ghost use Rattle.span_language.specs.Replies.{ok_text};
ghost use Rattle.std.specs.Prelude.{◌≡◌, IfOk};

use report_text::{Refusal, refusal_line};
use span_language::Told;
use span_types::NoMemory;
use std::alloc::Global;

/// The outcome of a line, and its whole reply.
#[derive(Drop)]
pub struct Answer {
    pub told: Told,
    pub line: Vec<u8>,
}

impl Answer {
    /// The reply of an accepted command.
    pub fn accepted(line: Vec<u8>) -> Answer
        ensures { (result.told ≡ Told.Accepted) × (result.line ≡ line) }
    {
        Answer {
            told: Told::Accepted,
            line,
        }
    }

    /// The reply of a rejected line.
    pub fn refused(alloc: Global, number: u64, why: &Refusal) -> Result<Answer, NoMemory>
        ensures { IfOk result (λ answer. (answer.told ≡ Told.Refused) × (answer.line.items ≡ refusal_text number why.now)) }
    {
        let mut line = Vec::new(alloc);
        refusal_line(alloc, number, why, &mut line)?;
        Ok(Answer {
            told: Told::Refused,
            line,
        })
    }
}

/// The line `ok`.
pub fn ok_line(alloc: Global) -> Result<Vec<u8>, NoMemory>
    ensures { IfOk result (λ line. line.items ≡ ok_text) }
{
    Ok(b"ok\n".to_vec(alloc)?)
}
