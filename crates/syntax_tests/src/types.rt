//! Tests of names, tuples and their marks, sets of bytes, and limits.
use span_types::{
    ByteList, ByteSet, Formula, Name, NameRefusal, NoMemory, QueryTree, Span, Tuple, Vars,
    VarsRefusal, compare, height_limit, is_well_named, looks_limit, mark_at,
};
use std::alloc::{AllocError, Global};
use std::cmp::Ordering;
use std::fmt::Display;
use std::test::Fail;

#[test]
fn marks_of_tuples(rt: HostRuntime) {
    let one = Tuple::none(1);
    let two = Tuple::none(2);
    let rows = [
        (one.with_span(0, Some(Span { start: 1, end: 1 })), [3, 0, 0]),
        (one.with_span(0, Some(Span { start: 1, end: 2 })), [1, 2, 0]),
        (
            two.with_span(0, Some(Span { start: 1, end: 2 }))
                .with_span(1, Some(Span { start: 2, end: 3 })),
            [1, 6, 8],
        ),
        (
            two.with_span(0, Some(Span { start: 1, end: 3 }))
                .with_span(1, Some(Span { start: 3, end: 3 })),
            [1, 0, 14],
        ),
    ];
    for (tuple, marks) in &rows {
        assert!(rt; [mark_at(tuple, 1), mark_at(tuple, 2), mark_at(tuple, 3)] == *marks);
    }
}

#[test]
fn tuples_in_mark_order(rt: HostRuntime) {
    // For one variable: start ascending, then end ascending, and no span last.
    let none = Tuple::none(1);
    let empty = none.with_span(0, Some(Span { start: 1, end: 1 }));
    let short = none.with_span(0, Some(Span { start: 1, end: 2 }));
    let long = none.with_span(0, Some(Span { start: 1, end: 4 }));
    let later = none.with_span(0, Some(Span { start: 2, end: 2 }));
    assert!(rt; compare(&empty, &short) == Ordering::Less);
    assert!(rt; compare(&short, &long) == Ordering::Less);
    assert!(rt; compare(&long, &later) == Ordering::Less);
    assert!(rt; compare(&later, &none) == Ordering::Less);
    assert!(rt; compare(&none, &empty) == Ordering::Greater);
    assert!(rt; compare(&later, &later) == Ordering::Equal);
}

#[test]
fn tuples_by_marks(rt: HostRuntime) {
    let tuple = Tuple::none(2).with_mark(1, 1).with_mark(14, 3);
    assert!(rt; tuple.count() == 2);
    assert!(rt; tuple.span(0) == Some(Span { start: 1, end: 3 }));
    assert!(rt; tuple.span(1) == Some(Span { start: 3, end: 3 }));
    let opened = tuple.cut_at(3);
    assert!(rt; opened.span(0) == Some(Span { start: 1, end: 1 }));
    assert!(rt; opened.span(1) == None);
}

#[test]
fn heights_and_looks(rt: HostRuntime) {
    let heights = [
        (0u8, 0),
        (1, 0),
        (2, 1),
        (3, 2),
        (4, 2),
        (5, 3),
        (7, 3),
        (8, 4),
        (11, 4),
        (31, 6),
    ];
    for (n, height) in heights {
        assert!(rt; height_limit(n as u64) == height, "{n} bytes");
    }
    assert!(rt; height_limit(281474976710656) == 68);
    assert!(rt; looks_limit(0, 0) == 12);
    assert!(rt; looks_limit(1, 11) == 84);
    assert!(rt; looks_limit(1, 281474976710656) == 852);
    assert!(rt; looks_limit(8, 281474976710656) == 4828);
}

/// Whether this text is a name, has a copy, and is printed again.
fn is_name(alloc: Global, text: &str) -> bool {
    match Name::new(alloc, text.as_bytes()) {
        Ok(name) => {
            name.bytes() == text.as_bytes()
                && is_copied(alloc, &name)
                && says(alloc, &name, text) == Ok(true)
        }
        Err(_) => false,
    }
}

fn is_copied(alloc: Global, name: &Name) -> bool {
    match name.copy(alloc) {
        Ok(copy) => copy.bytes() == name.bytes(),
        Err(_) => false,
    }
}

/// Names, of which the second is as long as a name can be.
const NAMES: [&str; 2] = [
    "_a.B-9",
    "xxxxxxxxxxxxxxxxxxxxxxxxxxxxxxxxxxxxxxxxxxxxxxxxxxxxxxxxxxxxxxxx",
];

#[test]
fn names(rt: HostRuntime) {
    for text in NAMES {
        assert!(rt; is_name(rt.alloc(), text), "{text}");
    }
}

fn is_no_name(alloc: Global, bytes: &[u8]) -> bool {
    !is_well_named(bytes) && matches!(Name::new(alloc, bytes), Err(NameRefusal::NotAName))
}

/// Bytes that are no names. The last ones are too long.
const NO_NAMES: [&[u8]; 8] = [
    b"",
    b"9a",
    b".a",
    b"-a",
    b"a b",
    b"a/",
    b"\xc3\xa4",
    &[b'x'; 65],
];

#[test]
fn other_bytes(rt: HostRuntime) {
    for bytes in NO_NAMES {
        assert!(rt; is_no_name(rt.alloc(), bytes), "{bytes:?}");
    }
}

#[test]
fn lists_of_bytes(rt: HostRuntime) -> Result<(), Fail> {
    assert!(rt; ByteList::new(rt.alloc(), b"any")?.bytes() == b"any".as_slice());
    Ok(())
}

/// The number of the variable that has this letter as its name.
fn number_of(alloc: Global, vars: &mut Vars, letter: u8) -> Result<u8, VarsRefusal> {
    match Name::new(alloc, &[letter]) {
        Ok(name) => vars.number_of(name),
        Err(_) => Err(VarsRefusal::NoMemory),
    }
}

/// Whether the copy of the variables has eight, of which the last is `h`.
fn has_eight(alloc: Global, vars: &Vars) -> bool {
    match vars.copy(alloc) {
        Ok(copy) => copy.count() == 8 && copy.name(7).bytes() == b"h".as_slice(),
        Err(_) => false,
    }
}

#[test]
fn nine_variables(rt: HostRuntime) {
    let mut vars = Vars::new(rt.alloc());
    for (letter, number) in [
        (b'a', Ok(0)),
        (b'b', Ok(1)),
        (b'c', Ok(2)),
        (b'd', Ok(3)),
        (b'e', Ok(4)),
        (b'f', Ok(5)),
        (b'g', Ok(6)),
        (b'h', Ok(7)),
        (b'c', Ok(2)),
        (b'i', Err(VarsRefusal::Full)),
    ] {
        assert!(rt; number_of(rt.alloc(), &mut vars, letter) == number);
    }
    assert!(rt; has_eight(rt.alloc(), &vars));
}

/// The set of `a`.
fn only_a() -> ByteSet {
    let mut set = ByteSet::empty();
    set.insert(b'a');
    set
}

#[test]
fn sets(rt: HostRuntime) {
    let set = only_a();
    let other = set.complement();
    assert!(rt; !set.is_same(&other) && set.is_same(&other.complement()));
    for b in 0..=255u8 {
        assert!(rt; set.contains(b) == (b == b'a') && other.contains(b) == (b != b'a'));
    }
}

/// The projection of a query with this set.
fn projection(alloc: Global, set: ByteSet) -> Result<QueryTree, AllocError> {
    let leaf = QueryTree::Leaf(Formula::Set(set), Vars::new(alloc));
    Ok(QueryTree::Project(Box::new(alloc, leaf)?, Vars::new(alloc)))
}

/// Whether this is the projection of a query with a set that has `a`.
fn has_a(tree: &QueryTree) -> bool {
    let QueryTree::Project(source, _) = tree else {
        return false;
    };
    match &**source {
        QueryTree::Leaf(Formula::Set(set), _) => set.contains(b'a'),
        _ => false,
    }
}

#[test]
fn copies(rt: HostRuntime) -> Result<(), Fail> {
    let tree = projection(rt.alloc(), only_a())?;
    assert!(rt; has_a(&tree.copy(rt.alloc())?));
    Ok(())
}

#[test]
fn texts_of_refusals(rt: HostRuntime) -> Result<(), Fail> {
    let alloc = rt.alloc();
    assert!(rt; says(alloc, NoMemory, "no memory")?);
    assert!(rt; says(alloc, NameRefusal::NotAName, "not a name")?);
    assert!(rt; says(alloc, NameRefusal::NoMemory, "no memory")?);
    assert!(rt; says(alloc, VarsRefusal::Full, "more than eight variables")?);
    assert!(rt; says(alloc, VarsRefusal::NoMemory, "no memory")?);
    Ok(())
}

/// Whether an error is printed as this text.
pub fn says<D: Display + Drop>(alloc: Global, why: D, text: &str) -> Result<bool, AllocError> {
    Ok(why.to_string(alloc)?.as_str() == text)
}
