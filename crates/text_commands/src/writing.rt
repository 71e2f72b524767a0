//! The command that writes the text of a document to a file.
ghost use Rattle.edge_io.specs.Causes.{HasPutCause};
ghost use Rattle.edge_io.specs.Files.{IsBegun, IsPutTo};
ghost use Rattle.script_syntax.specs.declared.form.Command.TheVariants as form;
ghost use Rattle.session_state.specs.Answers.{Answers, Stays};
ghost use Rattle.session_state.specs.CommandState.{at};
ghost use Rattle.session_state.specs.SessionState.{IsConsistent};
ghost use Rattle.std.specs.Prelude.{◌≡◌, ◌≢◌, ◌<◌, ◌≤◌, ◌++◌, [], Err, IfErr, IfOk, IsSome, List, None, OnErr, OnOk, length, take, ℕ};
ghost use Rattle.text_commands.specs.Shown.{IsPutReply, IsPutStop};

use doc_book::Missing;
use edge_io::{PutRefusal, Shelf};
use range_read::{RangeBytes, root_len};
use report_text::{Refusal, written_line};
use session_state::{Answer, SessionState, reject};
use span_language::Stop;
use span_types::{ByteList, Name};
use std::alloc::Global;

/// The maximum length of a text for `write`, in bytes.
const MAX_WRITE: u64 = 1 << 32;

/// The number of bytes of a text that are written at once.
const PIECE: usize = 65_536;

/// Moves the next bytes of a text to the start of `piece`, and returns their number, which is 0 only at the end.
fn next_bytes(bytes: &mut RangeBytes<'_>, piece: &mut [u8]) -> usize
    requires { 0 < length piece.old }
    ensures count { result ≤ length piece.new }
    ensures bytes { take result piece.new ++ bytes.new ≡ bytes.old }
    ensures end { result ≡ 0 → bytes.old ≡ [] }
    ensures size { length piece.new ≡ length piece.old }
{
    let mut count = 0;
    while count < piece.len() {
        match bytes.next() {
            Some(byte) => piece[count] = byte,
            None => return count,
        }
        count += 1;
    }
    count
}

/// Appends all these bytes to the put that was begun, piece by piece.
#[inline(never)]
fn append_bytes<F: Shelf>(shelf: &mut F, bytes: &mut RangeBytes<'_>) -> Result<(), PutRefusal>
    requires { IsSome (F.begun shelf.old) }
    ensures kept { F.files shelf.new ≡ F.files shelf.old }
    ensures begun { (name so_far : List ℕ) → IsBegun (F.begun shelf.old) name so_far → OnOk result (IsBegun (F.begun shelf.new) name (so_far ++ bytes.old)) }
    ensures some { OnOk result (IsSome (F.begun shelf.new)) }
    ensures no_denial { result ≢ Err PutRefusal.Denied }
    ensures given_up { OnErr result (F.begun shelf.new ≡ None) }
    ensures cause { HasPutCause (F.faults shelf.old) (F.faults shelf.new) (F.wants shelf.old) (F.wants shelf.new) result }
{
    let mut piece = [0u8; PIECE];
    loop {
        let count = next_bytes(bytes, &mut piece);
        if count == 0 {
            return Ok(());
        }
        shelf.append(&piece[..count])?;
    }
}

/// Makes these bytes the whole content of a file, and leaves no put begun.
///
/// # Errors
///
/// Those of `Shelf::put`. All files are then unchanged.
fn put_bytes<F: Shelf>(
    shelf: &mut F,
    file: &[u8],
    bytes: &mut RangeBytes<'_>,
) -> Result<(), PutRefusal>
    ensures put { IsPutTo (F.files shelf.old) (F.files shelf.new) file.now bytes.old result }
    ensures refused { OnErr result (F.files shelf.new ≡ F.files shelf.old) }
    ensures given_up { F.begun shelf.new ≡ None }
    ensures cause { HasPutCause (F.faults shelf.old) (F.faults shelf.new) (F.wants shelf.old) (F.wants shelf.new) result }
{
    shelf.begin(file)?;
    append_bytes(shelf, bytes)?;
    shelf.end()
}

/// The reply to a command that put a file: this line, or the rejection if the file may not be written.
pub fn put_reply(
    alloc: Global,
    number: u64,
    file: ByteList,
    line: Vec<u8>,
    outcome: Result<(), PutRefusal>,
) -> Result<Answer, Stop>
    ensures ok { IfOk result (λ answer. IsPutReply number file line.items outcome answer.told answer.line.items) }
    ensures stopped { IfErr result (IsPutStop outcome) }
{
    match outcome {
        Ok(()) => Ok(Answer::accepted(line)),
        Err(PutRefusal::Denied) => {
            let answer = Answer::refused(alloc, number, &Refusal::CannotWrite { file })?;
            Ok(answer)
        }
        Err(PutRefusal::Failed) => Err(Stop::ShelfFault),
        Err(PutRefusal::NoMemory) => Err(Stop::NoMemory),
    }
}

/// `write NAME FILE`
///
/// Reads and writes the text in pieces of 65,536 bytes. All of its own memory is allocated before the put begins.
#[tactic(auto, using(crate::proofs::Facts::stays_freely, crate::proofs::Facts::lengths))]
pub fn write_file<F: Shelf>(
    session: &mut SessionState,
    number: u64,
    name: Name,
    file: ByteList,
    shelf: &mut F,
) -> Result<Answer, Stop>
    requires { IsConsistent session.old }
    ensures done { (looks pairs places : ℕ) → IfOk result
        (Answers (at session.old (F.files shelf.old) (F.faults shelf.old) looks pairs places) number (form.WriteFile name file)
        (at session.new (F.files shelf.new) (F.faults shelf.new) looks pairs places)) }
    ensures stopped { (looks pairs places : ℕ) → IfErr result
        (Stays (at session.old (F.files shelf.old) (F.faults shelf.old) looks pairs places) number (form.WriteFile name file)
        (at session.new (F.files shelf.new) (F.faults shelf.new) looks pairs places)) }
{
    let root = match session.root_of(&name) {
        Ok(root) => root,
        Err(Missing::NoSuchDocument) => {
            return reject(session, number, &Refusal::NoSuchDocument { name });
        }
    };
    let len = root_len(&session.store, root);
    if len > MAX_WRITE {
        return reject(session, number, &Refusal::FileTooLong { file });
    }
    let mut line = Vec::new(session.alloc);
    written_line(session.alloc, len, &mut line)?;
    let mut bytes = RangeBytes::new(session.alloc, &session.store, root, 1, len + 1)?;
    let outcome = put_bytes(shelf, file.bytes(), &mut bytes);
    put_reply(session.alloc, number, file, line, outcome)
}
