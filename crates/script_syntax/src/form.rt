// What a line may request.
use span_types::{ByteList, Name};

/// Where a listing starts.
#[derive(Drop)]
pub enum ListStart {
    /// At the first answer.
    First,
    /// At the first answer after this tuple, which need not be an answer. Here it is any word.
    After(ByteList),
    /// At the answer with this number. Answers are numbered from 1, and the number is at most 2^64 - 2.
    At(u64),
}

/// A parsed line of a script. Names and bytes are kept as they are in the line.
#[derive(Drop)]
pub enum Command {
    /// An empty line, or a comment: a line that begins with `#`.
    Nothing,
    /// `text NAME BYTES`: the document gets these bytes.
    Text {
        name: Name,
        bytes: ByteList,
    },
    /// `load NAME FILE`: the document gets the bytes of the file.
    LoadFile {
        name: Name,
        file: ByteList,
    },
    /// `share NAME FILE`: the same, in a tree whose nodes are shared with equal parts of texts at any offset.
    ShareFile {
        name: Name,
        file: ByteList,
    },
    /// `bytes NAME QUOTED`: the document gets the bytes that the quoted text denotes.
    QuotedText {
        name: Name,
        bytes: ByteList,
    },
    /// `write NAME FILE`: the file gets the text of the document.
    WriteFile {
        name: Name,
        file: ByteList,
    },
    /// `let NAME = EXPR`: the document gets the value of the expression. Here the expression is any bytes.
    LetDoc {
        name: Name,
        expr: ByteList,
    },
    /// `drop NAME`: removes the document.
    DropDoc {
        name: Name,
    },
    /// `names`: lists the documents.
    Names,
    /// `show NAME NUM NUM`: the bytes from position `from` up to position `to`, which is not
    /// part of them. Positions count from 1.
    Show {
        name: Name,
        from: u64,
        to: u64,
    },
    /// `query NAME FORMULA`: registers a query.
    Query {
        name: Name,
        formula: ByteList,
    },
    /// `unquery NAME`: removes the query.
    Unquery {
        name: Name,
    },
    /// `list NAME NAME`, then optionally `after WORD` or `at NUM`, then optionally `limit NUM`: answers of a query on a
    /// document from a start on, at most `limit` of them. The limit is 1 to 10,000, and 100 if the line has none.
    List {
        query: Name,
        name: Name,
        start: ListStart,
        limit: u16,
    },
    /// `count NAME NAME`: the number of answers of a query on a document.
    Count {
        query: Name,
        doc: Name,
    },
    /// `rank NAME NAME WORD`: the number of answers of a query on a document that come before a tuple.
    Rank {
        query: Name,
        doc: Name,
        tuple: ByteList,
    },
    /// `test NAME NAME`: whether a query has an answer on a document.
    Nonempty {
        query: Name,
        name: Name,
    },
    /// `has NAME NAME WORD`: whether a query has this answer on a document.
    Has {
        query: Name,
        name: Name,
        tuple: ByteList,
    },
    /// `save FILE`: writes an image of all documents.
    SaveFile {
        file: ByteList,
    },
    /// `open FILE`: reads an image, whose documents replace all documents.
    OpenFile {
        file: ByteList,
    },
    /// `union NAME NAME NAME`: registers the union of two queries.
    UnionQuery {
        name: Name,
        left: Name,
        right: Name,
    },
    /// `join NAME NAME NAME`: registers the natural join of two queries.
    JoinQuery {
        name: Name,
        left: Name,
        right: Name,
    },
    /// `project NAME NAME VARS`: registers a query that keeps some variables of another. `keep`
    /// is `()`, or one or more names with a comma between each two.
    ProjectQuery {
        name: Name,
        source: Name,
        keep: ByteList,
    },
    /// `listall NAME`, then optionally `limit NUM`: the answers of a query on each document, with the limit of `List`.
    ListAll {
        query: Name,
        limit: u16,
    },
    /// `replace NAME NAME NAME NAME`, then optionally `longest`: the document `name` gets the text of `source`, in which
    /// the text of `by` replaces the spans that the query chooses. With `longest` it chooses, among the spans with the
    /// same start, the one with the greatest end.
    ReplaceDoc {
        name: Name,
        query: Name,
        source: Name,
        by: Name,
        longest: bool,
    },
    /// `mark NAME`: keeps the documents as a version.
    MarkDocs {
        name: Name,
    },
    /// `unmark NAME`: removes the version.
    UnmarkDocs {
        name: Name,
    },
    /// `back NAME`: makes the documents those of the version.
    BackDocs {
        name: Name,
    },
    /// `compact`: removes the nodes that no document and no version reaches.
    Compact,
}
