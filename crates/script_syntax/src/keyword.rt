// The words that lines begin with.
ghost use Rattle.script_syntax.specs.Fields.{keyword_named, word_of};
ghost use Rattle.std.specs.Prelude.{◌≡◌};
ghost use Rattle.std.specs.Str.{bytes_eq};

/// The first word of a line.
#[derive(Clone, Copy, Debug, PartialEq, Eq)]
pub enum Keyword {
    Text,
    Load,
    Share,
    Bytes,
    Write,
    Let,
    Drop,
    Names,
    Show,
    Query,
    Unquery,
    List,
    Count,
    Rank,
    Test,
    Has,
    Save,
    Open,
    Union,
    Join,
    Project,
    Listall,
    Replace,
    Mark,
    Unmark,
    Back,
    Compact,
}

const KEYWORDS: [Keyword; 27] = [
    Keyword::Text,
    Keyword::Load,
    Keyword::Share,
    Keyword::Bytes,
    Keyword::Write,
    Keyword::Let,
    Keyword::Drop,
    Keyword::Names,
    Keyword::Show,
    Keyword::Query,
    Keyword::Unquery,
    Keyword::List,
    Keyword::Count,
    Keyword::Rank,
    Keyword::Test,
    Keyword::Has,
    Keyword::Save,
    Keyword::Open,
    Keyword::Union,
    Keyword::Join,
    Keyword::Project,
    Keyword::Listall,
    Keyword::Replace,
    Keyword::Mark,
    Keyword::Unmark,
    Keyword::Back,
    Keyword::Compact,
];

/// The spelling of a keyword.
fn text_of_keyword(keyword: Keyword) -> &'static [u8]
    ensures { result.now ≡ word_of keyword }
{
    match keyword {
        Keyword::Text => b"text",
        Keyword::Load => b"load",
        Keyword::Share => b"share",
        Keyword::Bytes => b"bytes",
        Keyword::Write => b"write",
        Keyword::Let => b"let",
        Keyword::Drop => b"drop",
        Keyword::Names => b"names",
        Keyword::Show => b"show",
        Keyword::Query => b"query",
        Keyword::Unquery => b"unquery",
        Keyword::List => b"list",
        Keyword::Count => b"count",
        Keyword::Rank => b"rank",
        Keyword::Test => b"test",
        Keyword::Has => b"has",
        Keyword::Save => b"save",
        Keyword::Open => b"open",
        Keyword::Union => b"union",
        Keyword::Join => b"join",
        Keyword::Project => b"project",
        Keyword::Listall => b"listall",
        Keyword::Replace => b"replace",
        Keyword::Mark => b"mark",
        Keyword::Unmark => b"unmark",
        Keyword::Back => b"back",
        Keyword::Compact => b"compact",
    }
}

fn is_spelled(keyword: Keyword, word: &[u8]) -> bool
    ensures { result ≡ bytes_eq (word_of keyword) word.now }
{
    text_of_keyword(keyword) == word
}

/// The keyword with this spelling.
pub fn keyword_of(word: &[u8]) -> Option<Keyword>
    ensures { result ≡ keyword_named word.now }
{
    KEYWORDS
        .iter()
        .copied()
        .find(|keyword| is_spelled(*keyword, word))
}
