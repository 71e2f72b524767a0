//! Tests of operations on registered queries.
use crate::books::{Queries, book_of, named};
use line_parts::is_name_list;
use query_book::{CombineRefusal, QueryBook};
use span_types::{NoMemory, is_well_named};
use std::alloc::Global;
use std::test::Fail;

/// The names of a query's variables, each followed by a space.
fn names_in(alloc: Global, book: &QueryBook, name: &[u8]) -> Result<String, NoMemory> {
    let mut names = String::new(alloc);
    if let Ok(vars) = book.vars(name) {
        for v in 0..vars.count() {
            write!(names, "{} ", vars.name(v)).map_err(|_| NoMemory)?;
        }
    }
    Ok(names)
}

/// The result of an operation that makes the query `n`: the names of its variables, or the rejection.
fn said(
    alloc: Global,
    book: &QueryBook,
    made: Result<(), CombineRefusal>,
) -> Result<String, NoMemory> {
    match made {
        Ok(()) => names_in(alloc, book, b"n"),
        Err(why) => Ok(why.to_string(alloc)?),
    }
}

/// An operation on a query, and on a second one or the names of variables.
#[derive(Clone, Copy)]
enum Operation {
    Union,
    Join,
    Project,
}

fn combined(
    alloc: Global,
    book: &mut QueryBook,
    how: Operation,
    left: &[u8],
    right: &[u8],
) -> Result<String, NoMemory> {
    if !is_well_named(left) {
        return Err(NoMemory);
    }
    let name = named(alloc, b"n")?;
    let made = match how {
        Operation::Union if is_well_named(right) => book.union(alloc, name, left, right),
        Operation::Join if is_well_named(right) => book.join(alloc, name, left, right),
        Operation::Project if is_name_list(right) => book.project(alloc, name, left, right),
        _ => return Err(NoMemory),
    };
    said(alloc, book, made)
}

/// Whether the operation has this result.
fn is_said(
    alloc: Global,
    book: &mut QueryBook,
    how: Operation,
    left: &[u8],
    right: &[u8],
    want: &str,
) -> Result<bool, NoMemory> {
    Ok(combined(alloc, book, how, left, right)?.as_str() == want)
}

const OPERANDS: Queries = &[
    (b"q", b".*$x{a+}$z{}.*"),
    (b"r", b"$y{.}$x{b*}"),
    (b"eight", b"$a{}$b{}$c{}$d{}$e{}$f{}$g{}$h{}"),
    (b"late", b"[ab]*a[ab][ab][ab][ab][ab]"),
    (b"thirds", b"([ab][ab][ab])*"),
    (b"marked", b"[ab]*$x{a}[ab][ab][ab][ab][ab][ab]"),
];

const BOTH: &[Operation] = &[Operation::Union, Operation::Join];

const PROJECT: &[Operation] = &[Operation::Project];

/// Operations, two names or a name and the variables to keep, and the result of each operation.
type Rows = &'static [(
    &'static [Operation],
    &'static [u8],
    &'static [u8],
    &'static str,
)];

const REFUSALS: Rows = &[
    (BOTH, b"z", b"zz", "no query is named z"),
    (BOTH, b"q", b"zz", "no query is named zz"),
    (BOTH, b"eight", b"r", "too many variables"),
    (BOTH, b"late", b"thirds", "too many states"),
    (PROJECT, b"z", b"x,x", "no query is named z"),
    (PROJECT, b"q", b"x,y", "other variables"),
    (PROJECT, b"q", b"x,z,x", "other variables"),
    (PROJECT, b"marked", b"()", "too many states"),
];

fn are_said(alloc: Global, book: &mut QueryBook, rows: Rows) -> Result<bool, NoMemory> {
    for (operations, left, right, want) in rows {
        for how in *operations {
            if !is_said(alloc, book, *how, left, right, want)? {
                return Ok(false);
            }
        }
    }
    Ok(true)
}

#[test]
fn operations(rt: HostRuntime) -> Result<(), Fail> {
    let mut book = book_of(rt.alloc(), OPERANDS)?;
    let names: Rows = &[
        (BOTH, b"q", b"r", "x z y "),
        (BOTH, b"r", b"q", "y x z "),
        (PROJECT, b"q", b"z,x", "z x "),
        (PROJECT, b"q", b"z", "z "),
        (PROJECT, b"q", b"()", ""),
    ];
    assert!(rt; are_said(rt.alloc(), &mut book, names)?);
    assert!(rt; are_said(rt.alloc(), &mut book, REFUSALS)?);
    Ok(())
}

/// A registry whose query `n` has 127 parts.
fn many_parts(alloc: Global) -> Result<QueryBook, NoMemory> {
    let mut book = book_of(alloc, &[(b"n", b"a")])?;
    for _ in 0..6 {
        let _ = combined(alloc, &mut book, Operation::Union, b"n", b"n")?;
    }
    Ok(book)
}

#[test]
fn most_parts(rt: HostRuntime) -> Result<(), Fail> {
    let alloc = rt.alloc();
    let mut book = many_parts(alloc)?;
    let (join, project) = (Operation::Join, Operation::Project);
    for (how, right, want) in [
        (join, b"n".as_slice(), "a query of 255 parts is too large"),
        (project, b"()", ""),
        (project, b"x", "a query of 129 parts is too large"),
    ] {
        assert!(rt; is_said(alloc, &mut book, how, b"n", right, want)?);
    }
    Ok(())
}
