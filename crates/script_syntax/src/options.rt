// The options of `list`, `listall` and `replace`.
ghost use Rattle.line_parts.specs.NameList.{IsName};
ghost use Rattle.line_parts.specs.Numbers.{IsNum};
ghost use Rattle.script_syntax.specs.Fields.{Fields, Fits, Limited, Paged, fields_of};
ghost use Rattle.script_syntax.specs.Syntax.{IsLimit, IsStart, Reads, limit_words, longest_words, spaced, start_words};
ghost use Rattle.script_syntax.specs.declared.form.ListStart.{ListStart};
ghost use Rattle.script_syntax.specs.declared.keyword.Keyword.TheVariants as keyword;
ghost use Rattle.std.specs.Fmt.{decimal};
ghost use Rattle.std.specs.Prelude.{◌≡◌, ◌≢◌, ◌∷◌, ◌++◌, ◌≤◌, ◌^◌, ◌-◌, ℕ, Bool, All, IfOk, IfErr, MatchOption, Option, List, [], codes};

use crate::parts::{name_of, two_words, word_of};
use crate::{Command, LineRefusal, ListStart};
use line_parts::{cut_word, is_same, number};
use span_types::Name;
use std::alloc::Global;

const DEFAULT_LIMIT: u16 = 100;

const MAX_LIMIT: u64 = 10_000;

/// `limit NUM`
fn limit_of(options: &[u8]) -> Option<u16>
    ensures { MatchOption result ((n : ℕ) → 1 ≤ n → n ≤ 10000 → options.now ≡ codes "limit " ++ decimal n → ⊥)
        (λ n. (1 ≤ n) × (n ≤ 10000) × (options.now ≡ codes "limit " ++ decimal n)) }
{
    let (word, digits) = cut_word(options)?;
    if !is_same(word, b"limit") {
        return None;
    }
    let limit = number(digits)?;
    if limit == 0 {
        return None;
    }
    if limit > MAX_LIMIT {
        return None;
    }
    Some(limit as u16)
}

/// A word, and `limit NUM` after it if present.
fn limited(text: &[u8]) -> Option<(&[u8], u16)>
    ensures { MatchOption result ((word : List ℕ) (given : Option ℕ) (limit : ℕ) → All (λ b. b ≢ 32) word → IsLimit given limit → text.now ≡ spaced word (limit_words given) → ⊥)
        (λ p. All (λ b. b ≢ 32) p.0.now × (given : Option ℕ) × IsLimit given p.1 × (text.now ≡ spaced p.0.now (limit_words given))) }
{
    let Some((word, options)) = cut_word(text) else {
        return Some((text, DEFAULT_LIMIT));
    };
    let limit = limit_of(options)?;
    Some((word, limit))
}

/// A word, and `longest` after it if present.
pub fn longest_of(text: &[u8]) -> Option<(&[u8], bool)>
    ensures { MatchOption result ((word : List ℕ) (longest : Bool) → All (λ b. b ≢ 32) word → text.now ≡ spaced word (longest_words longest) → ⊥)
        (λ p. All (λ b. b ≢ 32) p.0.now × (text.now ≡ spaced p.0.now (longest_words p.1))) }
{
    let Some((word, option)) = cut_word(text) else {
        return Some((text, false));
    };
    if !is_same(option, b"longest") {
        return None;
    }
    Some((word, true))
}

/// `NAME limit NUM`, in which the option may be missing.
pub fn listall_of(alloc: Global, args: &[u8]) -> Result<Command, LineRefusal>
    ensures ok { IfOk result (λ command. Reads (codes "listall " ++ args.now) command) }
    ensures syntax { IfErr result (λ why. why ≡ LineRefusal.Syntax → Fields (fields_of keyword.Listall) args.now → ⊥) }
{
    let Some((query, limit)) = limited(args) else {
        return Err(LineRefusal::Syntax);
    };
    let query = name_of(alloc, query)?;
    Ok(Command::ListAll { query, limit })
}

/// The number of an answer: 1 to 2^64 - 2.
fn answer_number(text: &[u8]) -> Option<u64>
    ensures { MatchOption result ((n : ℕ) → 1 ≤ n → n ≤ 2 ^ 64 - 2 → text.now ≡ decimal n → ⊥)
        (λ n. (1 ≤ n) × (n ≤ 2 ^ 64 - 2) × (text.now ≡ decimal n)) }
{
    let number = number(text)?;
    if number == 0 {
        return None;
    }
    if number == u64::MAX {
        return None;
    }
    Some(number)
}

/// `after WORD` or `at NUM`, by their two words.
fn start_of(alloc: Global, option: &[u8], value: &[u8]) -> Result<ListStart, LineRefusal>
    ensures ok { IfOk result (λ start. IsStart start × (start_words start ≡ option.now ∷ value.now ∷ [])) }
    ensures syntax { IfErr result (λ why. why ≡ LineRefusal.Syntax → (start : ListStart) → IsStart start → start_words start ≡ option.now ∷ value.now ∷ [] → ⊥) }
{
    if is_same(option, b"after") {
        let tuple = word_of(alloc, value)?;
        return Ok(ListStart::After(tuple));
    }
    if !is_same(option, b"at") {
        return Err(LineRefusal::Syntax);
    }
    match answer_number(value) {
        Some(number) => Ok(ListStart::At(number)),
        None => Err(LineRefusal::Syntax),
    }
}

/// What follows the query of `list`.
#[derive(Drop)]
struct Page {
    name: Name,
    start: ListStart,
    limit: u16,
}

/// `NAME after WORD limit NUM` or `NAME at NUM limit NUM`, in which the options may be missing.
fn page_of(alloc: Global, text: &[u8]) -> Result<Page, LineRefusal>
    ensures ok { IfOk result (λ page. IsName page.name × IsStart page.start × (given : Option ℕ) × IsLimit given page.limit
        × (text.now ≡ spaced page.name (start_words page.start ++ limit_words given))) }
    ensures syntax { IfErr result (λ why. why ≡ LineRefusal.Syntax → Fits Paged text.now → ⊥) }
{
    if let Some((name, limit)) = limited(text) {
        let name = name_of(alloc, name)?;
        return Ok(Page {
            name,
            start: ListStart::First,
            limit,
        });
    }
    let Some((name, options)) = cut_word(text) else {
        return Err(LineRefusal::Syntax);
    };
    let Some((option, more)) = cut_word(options) else {
        return Err(LineRefusal::Syntax);
    };
    let Some((value, limit)) = limited(more) else {
        return Err(LineRefusal::Syntax);
    };
    let name = name_of(alloc, name)?;
    let start = start_of(alloc, option, value)?;
    Ok(Page { name, start, limit })
}

/// `NAME NAME`, then `after WORD` or `at NUM`, then `limit NUM`, in which the options may be missing.
pub fn list_of(alloc: Global, args: &[u8]) -> Result<Command, LineRefusal>
    ensures ok { IfOk result (λ command. Reads (codes "list " ++ args.now) command) }
    ensures syntax { IfErr result (λ why. why ≡ LineRefusal.Syntax → Fields (fields_of keyword.List) args.now → ⊥) }
{
    let Some((query, rest)) = two_words(args) else {
        return Err(LineRefusal::Syntax);
    };
    let query = name_of(alloc, query)?;
    let Page { name, start, limit } = page_of(alloc, rest)?;
    Ok(Command::List {
        query,
        name,
        start,
        limit,
    })
}
