// The arguments after the keyword of a line.
ghost use Rattle.script_syntax.specs.Fields.{Fields, fields_of};
ghost use Rattle.script_syntax.specs.Syntax.{Reads};
ghost use Rattle.script_syntax.specs.declared.keyword.Keyword.TheVariants as keyword;
ghost use Rattle.std.specs.Prelude.{◌≡◌, ◌∷◌, ◌++◌, IfOk, IfErr, codes};

use crate::groups::{name_and_bytes, name_and_file, three_names, two_names, two_names_and_word};
use crate::options::longest_of;
use crate::parts::{file_of, name_of, names_of, three_words, two_words, vars_of};
use crate::quoted::quoted_of;
use crate::{Command, LineRefusal};
use line_parts::{cut_word, is_same, number};
use span_types::ByteList;
use std::alloc::Global;

/// `NAME BYTES`
pub fn text_of(alloc: Global, args: &[u8]) -> Result<Command, LineRefusal>
    ensures ok { IfOk result (λ command. Reads (codes "text " ++ args.now) command) }
    ensures syntax { IfErr result (λ why. why ≡ LineRefusal.Syntax → Fields (fields_of keyword.Text) args.now → ⊥) }
{
    let (name, bytes) = name_and_bytes(alloc, args)?;
    Ok(Command::Text { name, bytes })
}

/// `NAME FORMULA`
pub fn query_of(alloc: Global, args: &[u8]) -> Result<Command, LineRefusal>
    ensures ok { IfOk result (λ command. Reads (codes "query " ++ args.now) command) }
    ensures syntax { IfErr result (λ why. why ≡ LineRefusal.Syntax → Fields (fields_of keyword.Query) args.now → ⊥) }
{
    let (name, formula) = name_and_bytes(alloc, args)?;
    Ok(Command::Query { name, formula })
}

/// `NAME FILE`
pub fn load_of(alloc: Global, args: &[u8]) -> Result<Command, LineRefusal>
    ensures ok { IfOk result (λ command. Reads (codes "load " ++ args.now) command) }
    ensures syntax { IfErr result (λ why. why ≡ LineRefusal.Syntax → Fields (fields_of keyword.Load) args.now → ⊥) }
{
    let (name, file) = name_and_file(alloc, args)?;
    Ok(Command::LoadFile { name, file })
}

/// `NAME FILE`
pub fn share_of(alloc: Global, args: &[u8]) -> Result<Command, LineRefusal>
    ensures ok { IfOk result (λ command. Reads (codes "share " ++ args.now) command) }
    ensures syntax { IfErr result (λ why. why ≡ LineRefusal.Syntax → Fields (fields_of keyword.Share) args.now → ⊥) }
{
    let (name, file) = name_and_file(alloc, args)?;
    Ok(Command::ShareFile { name, file })
}

/// `NAME QUOTED`
pub fn bytes_of(alloc: Global, args: &[u8]) -> Result<Command, LineRefusal>
    ensures ok { IfOk result (λ command. Reads (codes "bytes " ++ args.now) command) }
    ensures syntax { IfErr result (λ why. why ≡ LineRefusal.Syntax → Fields (fields_of keyword.Bytes) args.now → ⊥) }
{
    let Some((name, quoted)) = two_words(args) else {
        return Err(LineRefusal::Syntax);
    };
    let name = name_of(alloc, name)?;
    let bytes = quoted_of(alloc, quoted)?;
    Ok(Command::QuotedText { name, bytes })
}

/// `NAME FILE`
pub fn write_of(alloc: Global, args: &[u8]) -> Result<Command, LineRefusal>
    ensures ok { IfOk result (λ command. Reads (codes "write " ++ args.now) command) }
    ensures syntax { IfErr result (λ why. why ≡ LineRefusal.Syntax → Fields (fields_of keyword.Write) args.now → ⊥) }
{
    let (name, file) = name_and_file(alloc, args)?;
    Ok(Command::WriteFile { name, file })
}

/// `NAME = EXPR`
pub fn let_of(alloc: Global, args: &[u8]) -> Result<Command, LineRefusal>
    ensures ok { IfOk result (λ command. Reads (codes "let " ++ args.now) command) }
    ensures syntax { IfErr result (λ why. why ≡ LineRefusal.Syntax → Fields (fields_of keyword.Let) args.now → ⊥) }
{
    let Some((name, sign, expr)) = three_words(args) else {
        return Err(LineRefusal::Syntax);
    };
    if !is_same(sign, b"=") {
        return Err(LineRefusal::Syntax);
    }
    let name = name_of(alloc, name)?;
    let expr = ByteList::new(alloc, expr)?;
    Ok(Command::LetDoc { name, expr })
}

/// `NAME NUM NUM`
pub fn show_of(alloc: Global, args: &[u8]) -> Result<Command, LineRefusal>
    ensures ok { IfOk result (λ command. Reads (codes "show " ++ args.now) command) }
    ensures syntax { IfErr result (λ why. why ≡ LineRefusal.Syntax → Fields (fields_of keyword.Show) args.now → ⊥) }
{
    let Some((name, from, to)) = three_words(args) else {
        return Err(LineRefusal::Syntax);
    };
    let Some(from) = number(from) else {
        return Err(LineRefusal::Syntax);
    };
    let Some(to) = number(to) else {
        return Err(LineRefusal::Syntax);
    };
    let name = name_of(alloc, name)?;
    Ok(Command::Show { name, from, to })
}

/// `NAME NAME`
pub fn test_of(alloc: Global, args: &[u8]) -> Result<Command, LineRefusal>
    ensures ok { IfOk result (λ command. Reads (codes "test " ++ args.now) command) }
    ensures syntax { IfErr result (λ why. why ≡ LineRefusal.Syntax → Fields (fields_of keyword.Test) args.now → ⊥) }
{
    let (query, name) = two_names(alloc, args)?;
    Ok(Command::Nonempty { query, name })
}

/// `NAME NAME WORD`
pub fn has_of(alloc: Global, args: &[u8]) -> Result<Command, LineRefusal>
    ensures ok { IfOk result (λ command. Reads (codes "has " ++ args.now) command) }
    ensures syntax { IfErr result (λ why. why ≡ LineRefusal.Syntax → Fields (fields_of keyword.Has) args.now → ⊥) }
{
    let (query, name, tuple) = two_names_and_word(alloc, args)?;
    Ok(Command::Has { query, name, tuple })
}

/// `NAME NAME`
pub fn count_of(alloc: Global, args: &[u8]) -> Result<Command, LineRefusal>
    ensures ok { IfOk result (λ command. Reads (codes "count " ++ args.now) command) }
    ensures syntax { IfErr result (λ why. why ≡ LineRefusal.Syntax → Fields (fields_of keyword.Count) args.now → ⊥) }
{
    let (query, doc) = two_names(alloc, args)?;
    Ok(Command::Count { query, doc })
}

/// `NAME NAME WORD`
pub fn rank_of(alloc: Global, args: &[u8]) -> Result<Command, LineRefusal>
    ensures ok { IfOk result (λ command. Reads (codes "rank " ++ args.now) command) }
    ensures syntax { IfErr result (λ why. why ≡ LineRefusal.Syntax → Fields (fields_of keyword.Rank) args.now → ⊥) }
{
    let (query, doc, tuple) = two_names_and_word(alloc, args)?;
    Ok(Command::Rank { query, doc, tuple })
}

/// `NAME NAME NAME`
pub fn union_of(alloc: Global, args: &[u8]) -> Result<Command, LineRefusal>
    ensures ok { IfOk result (λ command. Reads (codes "union " ++ args.now) command) }
    ensures syntax { IfErr result (λ why. why ≡ LineRefusal.Syntax → Fields (fields_of keyword.Union) args.now → ⊥) }
{
    let (name, left, right) = three_names(alloc, args)?;
    Ok(Command::UnionQuery { name, left, right })
}

/// `NAME NAME NAME`
pub fn join_of(alloc: Global, args: &[u8]) -> Result<Command, LineRefusal>
    ensures ok { IfOk result (λ command. Reads (codes "join " ++ args.now) command) }
    ensures syntax { IfErr result (λ why. why ≡ LineRefusal.Syntax → Fields (fields_of keyword.Join) args.now → ⊥) }
{
    let (name, left, right) = three_names(alloc, args)?;
    Ok(Command::JoinQuery { name, left, right })
}

/// `NAME NAME VARS`
pub fn project_of(alloc: Global, args: &[u8]) -> Result<Command, LineRefusal>
    ensures ok { IfOk result (λ command. Reads (codes "project " ++ args.now) command) }
    ensures syntax { IfErr result (λ why. why ≡ LineRefusal.Syntax → Fields (fields_of keyword.Project) args.now → ⊥) }
{
    let Some((name, source, keep)) = three_words(args) else {
        return Err(LineRefusal::Syntax);
    };
    let (name, source) = names_of(alloc, name, source)?;
    let keep = vars_of(alloc, keep)?;
    Ok(Command::ProjectQuery { name, source, keep })
}

/// `NAME`
pub fn drop_of(alloc: Global, args: &[u8]) -> Result<Command, LineRefusal>
    ensures ok { IfOk result (λ command. Reads (codes "drop " ++ args.now) command) }
    ensures syntax { IfErr result (λ why. why ≡ LineRefusal.Syntax → Fields (fields_of keyword.Drop) args.now → ⊥) }
{
    let name = name_of(alloc, args)?;
    Ok(Command::DropDoc { name })
}

/// `NAME`
pub fn unquery_of(alloc: Global, args: &[u8]) -> Result<Command, LineRefusal>
    ensures ok { IfOk result (λ command. Reads (codes "unquery " ++ args.now) command) }
    ensures syntax { IfErr result (λ why. why ≡ LineRefusal.Syntax → Fields (fields_of keyword.Unquery) args.now → ⊥) }
{
    let name = name_of(alloc, args)?;
    Ok(Command::Unquery { name })
}

/// `NAME`
pub fn mark_of(alloc: Global, args: &[u8]) -> Result<Command, LineRefusal>
    ensures ok { IfOk result (λ command. Reads (codes "mark " ++ args.now) command) }
    ensures syntax { IfErr result (λ why. why ≡ LineRefusal.Syntax → Fields (fields_of keyword.Mark) args.now → ⊥) }
{
    let name = name_of(alloc, args)?;
    Ok(Command::MarkDocs { name })
}

/// `NAME`
pub fn unmark_of(alloc: Global, args: &[u8]) -> Result<Command, LineRefusal>
    ensures ok { IfOk result (λ command. Reads (codes "unmark " ++ args.now) command) }
    ensures syntax { IfErr result (λ why. why ≡ LineRefusal.Syntax → Fields (fields_of keyword.Unmark) args.now → ⊥) }
{
    let name = name_of(alloc, args)?;
    Ok(Command::UnmarkDocs { name })
}

/// `NAME`
pub fn back_of(alloc: Global, args: &[u8]) -> Result<Command, LineRefusal>
    ensures ok { IfOk result (λ command. Reads (codes "back " ++ args.now) command) }
    ensures syntax { IfErr result (λ why. why ≡ LineRefusal.Syntax → Fields (fields_of keyword.Back) args.now → ⊥) }
{
    let name = name_of(alloc, args)?;
    Ok(Command::BackDocs { name })
}

/// `FILE`
pub fn save_of(alloc: Global, args: &[u8]) -> Result<Command, LineRefusal>
    ensures ok { IfOk result (λ command. Reads (codes "save " ++ args.now) command) }
    ensures syntax { IfErr result (λ why. why ≡ LineRefusal.Syntax → Fields (fields_of keyword.Save) args.now → ⊥) }
{
    let file = file_of(alloc, args)?;
    Ok(Command::SaveFile { file })
}

/// `FILE`
pub fn open_of(alloc: Global, args: &[u8]) -> Result<Command, LineRefusal>
    ensures ok { IfOk result (λ command. Reads (codes "open " ++ args.now) command) }
    ensures syntax { IfErr result (λ why. why ≡ LineRefusal.Syntax → Fields (fields_of keyword.Open) args.now → ⊥) }
{
    let file = file_of(alloc, args)?;
    Ok(Command::OpenFile { file })
}

/// `NAME NAME NAME NAME longest`, in which the option may be missing.
pub fn replace_of(alloc: Global, args: &[u8]) -> Result<Command, LineRefusal>
    ensures ok { IfOk result (λ command. Reads (codes "replace " ++ args.now) command) }
    ensures syntax { IfErr result (λ why. why ≡ LineRefusal.Syntax → Fields (fields_of keyword.Replace) args.now → ⊥) }
{
    let Some((name, query, rest)) = three_words(args) else {
        return Err(LineRefusal::Syntax);
    };
    let Some((source, rest)) = cut_word(rest) else {
        return Err(LineRefusal::Syntax);
    };
    let Some((by, longest)) = longest_of(rest) else {
        return Err(LineRefusal::Syntax);
    };
    let name = name_of(alloc, name)?;
    let query = name_of(alloc, query)?;
    let source = name_of(alloc, source)?;
    let by = name_of(alloc, by)?;
    Ok(Command::ReplaceDoc {
        name,
        query,
        source,
        by,
        longest,
    })
}
