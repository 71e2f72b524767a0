// Rejections and their lines.
ghost use Rattle.report_text.specs.Reply.{refusal_text, why_text};
ghost use Rattle.std.specs.Fmt.{decimal};
ghost use Rattle.std.specs.Prelude.{◌≡◌, ◌++◌, ◌∷◌, [], OnOk, OnErr};

use crate::pieces::{push_counted, push_line};
use span_types::{ByteList, Name, NoMemory};
use std::alloc::{AllocError, Global};

/// Why a line is rejected, with the values that its reply has after the word. The word is the variant's name.
#[derive(Drop)]
pub enum Refusal {
    /// The line, or its expression, is not in its grammar.
    Syntax,
    /// No document has this name.
    NoSuchDocument { name: Name },
    /// No query has this name.
    NoSuchQuery { name: Name },
    /// Not 1 ≤ `first` ≤ `last` ≤ `len` + 1, for a text of `len` bytes. Positions count from 1.
    OutOfRange { first: u64, last: u64, len: u64 },
    /// The result would have `len` bytes, over 2^48.
    TooLong { len: u64 },
    /// `width` bytes were requested, over 4,096.
    RangeTooWide { width: u64 },
    /// The formula has `len` bytes, over 2,048.
    FormulaTooLong { len: u64 },
    /// The bytes are not a formula.
    BadFormula,
    /// More than 64 groups and captures of the formula are open at once.
    TooDeep,
    /// The formula has more than 512 byte sets.
    TooManyPositions,
    /// The query would have more than 8 variables.
    TooManyVariables,
    /// The formula breaks the rule on variables at this one: it occurs in two parts of a concatenation, under `*` or
    /// `+`, or in its own capture. The rule is syntactic, so it also rejects a formula that fits no text.
    NotFunctional { name: Name },
    /// The query would have more than 128 deterministic states.
    TooManyStates,
    /// The bytes are not a tuple.
    BadTuple,
    /// The names are not those of the query's variables.
    OtherVariables,
    /// There is no such file.
    NoSuchFile { file: ByteList },
    /// The file has more bytes than its limit, or would have.
    FileTooLong { file: ByteList },
    /// The file exists and can't be read: it is a folder or a pipe, or a permission is missing.
    CannotRead { file: ByteList },
    /// The file can't be written: it is a folder, its folder doesn't exist, or a permission is missing.
    CannotWrite { file: ByteList },
    /// The file is not an image. `kind` is 1 to 12.
    BadImage { kind: u8 },
    /// The query would have this many leaves and operations, over 128.
    QueryTooLarge { parts: u64 },
    /// The query of a replacement has `count` variables instead of one.
    NotOneVariable { count: u8 },
    /// A replacement chooses more than 32,768 spans.
    TooManyMatches,
    /// No version has this name.
    NoSuchVersion { name: Name },
    /// The number in the request is over 2^64 - 2.
    TooManyAnswers,
}

/// A word and the bytes of the rejection.
fn push_bytes(word: &[u8], kept: &[u8], into: &mut Vec<u8>) -> Result<(), AllocError>
    ensures { OnOk result (into.new.items ≡ into.old.items ++ (word.now ++ kept.now)) }
{
    into.extend_from_slice(word)?;
    into.extend_from_slice(kept)
}

/// A word and the three numbers of a range.
fn push_range(
    word: &[u8],
    first: u64,
    last: u64,
    len: u64,
    into: &mut Vec<u8>,
) -> Result<(), AllocError>
    ensures { OnOk result (into.new.items ≡ into.old.items ++ (word.now ++ decimal first ++ 32 ∷ decimal last ++ 32 ∷ decimal len)) }
{
    push_counted(word, first, into)?;
    push_counted(b" ", last, into)?;
    push_counted(b" ", len, into)
}

/// The word of a rejection and its values, each after a space.
fn push_why(why: &Refusal, into: &mut Vec<u8>) -> Result<(), AllocError>
    ensures { OnOk result (into.new.items ≡ into.old.items ++ why_text why.now) }
{
    match why {
        Refusal::Syntax => into.extend_from_slice(b"Syntax")?,
        Refusal::NoSuchDocument { name } => push_bytes(b"NoSuchDocument ", name.bytes(), into)?,
        Refusal::NoSuchQuery { name } => push_bytes(b"NoSuchQuery ", name.bytes(), into)?,
        Refusal::OutOfRange { first, last, len } => push_range(
            b"OutOfRange ",
            *first,
            *last,
            *len,
            into,
        )?,
        Refusal::TooLong { len } => push_counted(b"TooLong ", *len, into)?,
        Refusal::RangeTooWide { width } => push_counted(b"RangeTooWide ", *width, into)?,
        Refusal::FormulaTooLong { len } => push_counted(b"FormulaTooLong ", *len, into)?,
        Refusal::BadFormula => into.extend_from_slice(b"BadFormula")?,
        Refusal::TooDeep => into.extend_from_slice(b"TooDeep")?,
        Refusal::TooManyPositions => into.extend_from_slice(b"TooManyPositions")?,
        Refusal::TooManyVariables => into.extend_from_slice(b"TooManyVariables")?,
        Refusal::NotFunctional { name } => push_bytes(b"NotFunctional ", name.bytes(), into)?,
        Refusal::TooManyStates => into.extend_from_slice(b"TooManyStates")?,
        Refusal::BadTuple => into.extend_from_slice(b"BadTuple")?,
        Refusal::OtherVariables => into.extend_from_slice(b"OtherVariables")?,
        Refusal::NoSuchFile { file } => push_bytes(b"NoSuchFile ", file.bytes(), into)?,
        Refusal::FileTooLong { file } => push_bytes(b"FileTooLong ", file.bytes(), into)?,
        Refusal::CannotRead { file } => push_bytes(b"CannotRead ", file.bytes(), into)?,
        Refusal::CannotWrite { file } => push_bytes(b"CannotWrite ", file.bytes(), into)?,
        Refusal::BadImage { kind } => push_counted(b"BadImage ", u64::from(*kind), into)?,
        Refusal::QueryTooLarge { parts } => push_counted(b"QueryTooLarge ", *parts, into)?,
        Refusal::NotOneVariable { count } => push_counted(
            b"NotOneVariable ",
            u64::from(*count),
            into,
        )?,
        Refusal::TooManyMatches => into.extend_from_slice(b"TooManyMatches")?,
        Refusal::NoSuchVersion { name } => push_bytes(b"NoSuchVersion ", name.bytes(), into)?,
        Refusal::TooManyAnswers => into.extend_from_slice(b"TooManyAnswers")?,
    }
    Ok(())
}

/// Appends `line N: WORD`, then each value of the rejection after a space, and a newline to `into`. Takes time and
/// memory linear in the line.
///
/// # Errors
///
/// `NoMemory` if allocation fails; `into` is then unchanged.
pub fn refusal_line(
    alloc: Global,
    number: u64,
    why: &Refusal,
    into: &mut Vec<u8>,
) -> Result<(), NoMemory>
    ensures ok { OnOk result (into.new.items ≡ into.old.items ++ refusal_text number why.now) }
    ensures unchanged { OnErr result (into.new.items ≡ into.old.items) }
{
    let mut line = Vec::new(alloc);
    push_counted(b"line ", number, &mut line)?;
    line.extend_from_slice(b": ")?;
    push_why(why, &mut line)?;
    push_line(line, into)
}
