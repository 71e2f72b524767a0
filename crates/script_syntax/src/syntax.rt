// A line as a command.
ghost use Rattle.script_syntax.specs.Fields.{Fields, fields_of, word_of};
ghost use Rattle.script_syntax.specs.Syntax.{LineText, Reads};
ghost use Rattle.script_syntax.specs.declared.form.Command.{Command};
ghost use Rattle.std.specs.Prelude.{◌≡◌, ◌∷◌, ◌++◌, ◌≤◌, ◌^◌, ◌<◌, IfOk, IfErr, length, slice_get, Some, All, ◌≢◌};

use crate::Command;
use crate::arguments::{
    back_of, bytes_of, count_of, drop_of, has_of, join_of, let_of, load_of, mark_of, open_of,
    project_of, query_of, rank_of, replace_of, save_of, share_of, show_of, test_of, text_of,
    union_of, unmark_of, unquery_of, write_of,
};
use crate::keyword::{Keyword, keyword_of};
use crate::options::{list_of, listall_of};
use line_parts::{cut_word, is_same};
use span_types::NoMemory;
use std::alloc::Global;
use thiserror::Error;

/// The maximum length of a line in bytes, without its newline.
const MAX_LINE: usize = 1 << 16;

/// Why a line is not read.
#[derive(Clone, Copy, Debug, PartialEq, Eq, Drop, Error)]
pub enum LineRefusal {
    /// The line has none of the forms, or more than 65,536 bytes.
    #[error("the line has none of the forms")]
    Syntax,
    /// Allocation failed.
    #[error("no memory")]
    NoMemory,
}

impl From<NoMemory> for LineRefusal {
    ghost use Rattle.std.specs.Prelude.{◌≡◌};
    ghost use Rattle.script_syntax.specs.declared.syntax.LineRefusal.TheVariants as refusal;

    ghost from_gives = { λ _ e. e ≡ refusal.NoMemory };

    fn from(_: NoMemory) -> Self {
        LineRefusal::NoMemory
    }
}

/// The command for a keyword, a space and these bytes.
fn behind_keyword(alloc: Global, keyword: Keyword, args: &[u8]) -> Result<Command, LineRefusal>
    ensures ok { IfOk result (λ command. Reads (word_of keyword ++ 32 ∷ args.now) command) }
    ensures syntax { IfErr result (λ why. why ≡ LineRefusal.Syntax → Fields (fields_of keyword) args.now → ⊥) }
{
    match keyword {
        Keyword::Text => text_of(alloc, args),
        Keyword::Load => load_of(alloc, args),
        Keyword::Share => share_of(alloc, args),
        Keyword::Bytes => bytes_of(alloc, args),
        Keyword::Write => write_of(alloc, args),
        Keyword::Let => let_of(alloc, args),
        Keyword::Drop => drop_of(alloc, args),
        Keyword::Show => show_of(alloc, args),
        Keyword::Query => query_of(alloc, args),
        Keyword::Unquery => unquery_of(alloc, args),
        Keyword::List => list_of(alloc, args),
        Keyword::Count => count_of(alloc, args),
        Keyword::Rank => rank_of(alloc, args),
        Keyword::Test => test_of(alloc, args),
        Keyword::Has => has_of(alloc, args),
        Keyword::Save => save_of(alloc, args),
        Keyword::Open => open_of(alloc, args),
        Keyword::Union => union_of(alloc, args),
        Keyword::Join => join_of(alloc, args),
        Keyword::Project => project_of(alloc, args),
        Keyword::Listall => listall_of(alloc, args),
        Keyword::Replace => replace_of(alloc, args),
        Keyword::Mark => mark_of(alloc, args),
        Keyword::Unmark => unmark_of(alloc, args),
        Keyword::Back => back_of(alloc, args),
        Keyword::Names | Keyword::Compact => Err(LineRefusal::Syntax),
    }
}

/// A command that has no arguments.
fn bare(line: &[u8]) -> Result<Command, LineRefusal>
    requires loud { slice_get line.now 0 ≡ Some 35 → ⊥ }
    requires some { 0 < length line.now }
    requires one { All (λ b. b ≢ 32) line.now }
    ensures ok { IfOk result (λ command. Reads line.now command) }
    ensures syntax { IfErr result (λ why. (why ≡ LineRefusal.Syntax) × ((command : Command) → Reads line.now command → ⊥)) }
{
    if is_same(line, b"names") {
        return Ok(Command::Names);
    }
    if is_same(line, b"compact") {
        return Ok(Command::Compact);
    }
    Err(LineRefusal::Syntax)
}

/// The command of a line. A line of no bytes, and one that begins with `#`, is `Nothing`.
///
/// Expressions, formulas and tuples are any bytes here. It reads each byte a few times, and allocates memory for the
/// parts that the command keeps.
///
/// # Errors
///
/// - `Syntax` exactly if the line has none of the forms or has more than 65,536 bytes, whatever they are.
/// - `NoMemory` if allocation fails.
pub fn command(alloc: Global, line: &[u8]) -> Result<Command, LineRefusal>
    ensures ok { IfOk result (λ command. LineText line.now command) }
    ensures syntax { IfErr result (λ why. why ≡ LineRefusal.Syntax → (command : Command) → LineText line.now command → ⊥) }
{
    if line.len() > MAX_LINE {
        return Err(LineRefusal::Syntax);
    }
    let [first, ..] = line else {
        return Ok(Command::Nothing);
    };
    if *first == b'#' {
        return Ok(Command::Nothing);
    }
    let Some((word, args)) = cut_word(line) else {
        let command = bare(line)?;
        return Ok(command);
    };
    let Some(keyword) = keyword_of(word) else {
        return Err(LineRefusal::Syntax);
    };
    let command = behind_keyword(alloc, keyword, args)?;
    Ok(command)
}
