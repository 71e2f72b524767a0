//! The text for arguments that are rejected.
ghost use Rattle.span_words.specs.Words.{usage_line, ReportsUsage};
ghost use Rattle.std.specs.Io.{StartsWith};
ghost use Rattle.std.specs.Prelude.{IfOk, map, string_bytes};

use crate::command::matches_of;
use crate::words::{WordsRefusal, read_words};
use clap::error::ErrorKind;
use span_types::{ByteList, NoMemory};
use std::alloc::Global;

/// The lines that `clap` writes about arguments: none if it accepts them.
fn advice(alloc: Global, words: &[String]) -> Result<String, NoMemory> {
    match matches_of(alloc, words) {
        Ok(_) => Ok(String::new(alloc)),
        Err(error) => {
            if error.kind() == ErrorKind::OutOfMemory {
                return Err(NoMemory);
            }
            Ok(error.to_string(alloc)?)
        }
    }
}

/// The line `spanbase: Usage`, and a text below it.
fn below_usage(alloc: Global, below: &[u8]) -> Result<ByteList, NoMemory>
    ensures { IfOk result (λ text. StartsWith text usage_line) }
{
    let mut text = b"spanbase: Usage\n".to_vec(alloc)?;
    text.extend_from_slice(below)?;
    ByteList::new(alloc, &text)
}

/// The text that says why the arguments after the program's own name are rejected, and which are accepted: the line
/// `spanbase: Usage`, then the text of `clap`. It has no bytes if the arguments are accepted.
///
/// # Errors
///
/// `NoMemory` if allocation fails.
pub fn usage_text(alloc: Global, words: &[String]) -> Result<ByteList, NoMemory>
    ensures { IfOk result (λ text. ReportsUsage (map string_bytes words.now) text) }
{
    match read_words(alloc, words) {
        Ok(_) => ByteList::new(alloc, b""),
        Err(WordsRefusal::NoMemory) => Err(NoMemory),
        Err(WordsRefusal::Usage) => {
            let advice = advice(alloc, words)?;
            below_usage(alloc, advice.as_bytes())
        }
    }
}
