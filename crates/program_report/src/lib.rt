//! What the programs share: their command-line arguments, and the report of how a run ended.
//!
//! ```text
//! let words = arguments(&rt)?;                             // the arguments after the program's name
//! report(&rt, status, &words);                             // on standard error, if the run was stopped
//! Ok(ExitCode::from(status.number()))
//! ```
//!
//! Reading the arguments takes time and memory linear in them, and a report takes constant time.
//!
//! Proved: What may be wrong with the arguments (`arguments`).
//!
//! Tested: The reports, by the cases of both programs.
#![tactic(auto)]

ghost use Rattle.std.specs.Prelude.{◌≡◌, ◌⊎◌, IfErr};

use span_run::{Status, usage_text};
use std::env;
use std::io::{ErrorKind, Write};
use std::rt::Env;

/// The arguments after the program's name.
///
/// # Errors
///
/// `Usage` if an argument is not valid text, and `NoMemory` if allocation fails.
pub fn arguments(rt: &(impl Env + AllocGlobal)) -> Result<Vec<String>, Status>
    ensures { IfErr result (λ status. (status ≡ Status.Usage) ⊎ (status ≡ Status.NoMemory)) }
{
    match env::args(rt) {
        Ok(args) => match args.skip(1).collect(rt.alloc()) {
            Ok(words) => Ok(words),
            Err(_) => Err(Status::NoMemory),
        },
        Err(error) if error.kind() == ErrorKind::OutOfMemory => Err(Status::NoMemory),
        Err(_) => Err(Status::Usage),
    }
}

/// Writes the name of a status to standard error, if the run was stopped. A failure of this write is ignored.
pub fn report_status(rt: &HostRuntime, status: Status) {
    if status.number() >= 2 {
        let _ = eprintln!(rt; "spanbase: {status:?}");
    }
}

/// Writes to standard error how a run with these arguments ended, if it was stopped. For rejected arguments it writes
/// why they are rejected. A failure of this write is ignored.
pub fn report(rt: &HostRuntime, status: Status, words: &[String]) {
    if status == Status::Usage {
        if let Ok(text) = usage_text(rt.alloc(), words) {
            let _ = rt.stderr().write_all(text.bytes());
            return;
        }
    }
    report_status(rt, status);
}
