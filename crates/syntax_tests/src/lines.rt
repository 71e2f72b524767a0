//! Tests of lines of a script.
use crate::types::says;
use script_syntax::{Command, LineRefusal, ListStart, command};
use std::alloc::Global;
use std::test::Fail;

/// Lines of each form.
const LINES: [&[u8]; 37] = [
    b"",
    b"# note",
    b"text a ",
    b"text a  b ",
    b"load a b/c.txt",
    b"share a b/c.txt",
    b"let a = concat( a , a )",
    b"let a = ",
    b"drop _a.b-9",
    b"names",
    b"show a 0 18446744073709551615",
    b"query q ",
    b"unquery q",
    b"list q d",
    b"list q d limit 10000",
    b"list q d after ()",
    b"list q d after limit limit 1",
    b"list q d after at",
    b"list q d at 1",
    b"list q d at 18446744073709551614 limit 10000",
    b"count q d",
    b"rank q d x=-",
    b"test q d",
    b"has q d x=-",
    b"save f",
    b"open f",
    b"union q l r",
    b"join q l r",
    b"project q s ()",
    b"project q s x,y",
    b"listall q",
    b"listall q limit 7",
    b"replace a q b c",
    b"mark v",
    b"unmark v",
    b"back v",
    b"compact",
];

/// Lines that have nearly a form.
const NEAR_MISSES: [&[u8]; 64] = [
    b" ",
    b" names",
    b"names ",
    b"frob",
    b"text",
    b"text a",
    b"text  a b",
    b"text 9x ab",
    b"load a",
    b"load a ",
    b"load a b c",
    b"share a",
    b"share 1 b",
    b"share a b c",
    b"shared a b",
    b"let a =",
    b"let a  = b",
    b"drop",
    b"drop ",
    b"drop a ",
    b"show a 1",
    b"show a 01 2",
    b"show a 1 18446744073709551616",
    b"show a 1 2 ",
    b"query q",
    b"list q",
    b"list q d ",
    b"list q d limit 0",
    b"list q d limit 10001",
    b"list q d limit 05",
    b"list q d limit 5 after ()",
    b"list q d after",
    b"list q d after ",
    b"list q d after () limit",
    b"list q d at",
    b"list q d at ",
    b"list q d at 0",
    b"list q d at 01",
    b"list q d at 18446744073709551615",
    b"list q d at 18446744073709551616",
    b"list q d at 1 after ()",
    b"list q d after () at 1",
    b"list q d limit 5 at 1",
    b"list q d from 1",
    b"count q",
    b"count q ",
    b"count q d ",
    b"count q d ()",
    b"rank q d",
    b"rank q d ",
    b"rank q d () limit 1",
    b"has q d",
    b"has q d ",
    b"has q d () ",
    b"save",
    b"save a\x7f",
    b"project q s x,",
    b"project q s",
    b"listall q limit 0",
    b"listall q after ()",
    b"replace a q b",
    b"replace a q b c d",
    b"compact v",
    b"TEXT a b",
];

fn is_read(alloc: Global, line: &[u8]) -> bool {
    command(alloc, line).is_ok()
}

fn is_refused(alloc: Global, line: &[u8]) -> bool {
    matches!(command(alloc, line), Err(LineRefusal::Syntax))
}

#[test]
fn forms_and_near_misses(rt: HostRuntime) {
    for line in LINES {
        assert!(rt; is_read(rt.alloc(), line), "{line:?}");
    }
    for line in NEAR_MISSES {
        assert!(rt; is_refused(rt.alloc(), line), "{line:?}");
    }
}

#[test]
fn lengths(rt: HostRuntime) -> Result<(), Fail> {
    let alloc = rt.alloc();
    for (start, filler, len, wanted) in [
        (b"drop ".as_slice(), b'a', 69, true),
        (b"drop ".as_slice(), b'a', 70, false),
        (b"save ".as_slice(), b'~', 260, true),
        (b"save ".as_slice(), b'~', 261, false),
        (b"text a ".as_slice(), b' ', 65_536, true),
        (b"text a ".as_slice(), b' ', 65_537, false),
        (b"#".as_slice(), 0xff, 65_536, true),
        (b"#".as_slice(), 0xff, 65_537, false),
    ] {
        let mut line = start.to_vec(alloc)?;
        line.resize(len, filler)?;
        assert!(rt; is_read(alloc, &line) == wanted);
    }
    Ok(())
}

/// The words of a listing, a count or a rank, the number at which a listing starts, and its limit.
type Parts<'a> = ([&'a [u8]; 3], Option<u64>, u16);

fn parts(read: &Command) -> Option<Parts<'_>> {
    match read {
        Command::List {
            query,
            name,
            start,
            limit,
        } => {
            let (tuple, number) = match start {
                ListStart::First => (b"".as_slice(), None),
                ListStart::After(tuple) => (tuple.bytes(), None),
                ListStart::At(number) => (b"".as_slice(), Some(*number)),
            };
            Some(([query.bytes(), name.bytes(), tuple], number, *limit))
        }
        Command::Count { query, doc } => Some(([query.bytes(), doc.bytes(), b""], None, 0)),
        Command::Rank { query, doc, tuple } => {
            Some(([query.bytes(), doc.bytes(), tuple.bytes()], None, 0))
        }
        _ => None,
    }
}

fn has_parts(alloc: Global, line: &[u8], wanted: Parts<'_>) -> bool {
    match command(alloc, line) {
        Ok(read) => parts(&read) == Some(wanted),
        Err(_) => false,
    }
}

const PARTS: &[(&[u8], Parts<'static>)] = &[
    (b"list q d", ([b"q", b"d", b""], None, 100)),
    (b"list q d limit 3", ([b"q", b"d", b""], None, 3)),
    (b"list q d after x=-", ([b"q", b"d", b"x=-"], None, 100)),
    (
        b"list q d after x=- limit 3",
        ([b"q", b"d", b"x=-"], None, 3),
    ),
    (b"list q d at 3", ([b"q", b"d", b""], Some(3), 100)),
    (
        b"list q d at 18446744073709551614 limit 3",
        ([b"q", b"d", b""], Some(18446744073709551614), 3),
    ),
    (b"count q d", ([b"q", b"d", b""], None, 0)),
    (b"rank q d x=[1,2)", ([b"q", b"d", b"x=[1,2)"], None, 0)),
];

#[test]
fn parts_of_lines(rt: HostRuntime) {
    for (line, wanted) in PARTS {
        assert!(rt; has_parts(rt.alloc(), line, *wanted), "{line:?}");
    }
}

#[test]
fn texts_of_refusals(rt: HostRuntime) -> Result<(), Fail> {
    for (why, text) in [
        (LineRefusal::Syntax, "the line has none of the forms"),
        (LineRefusal::NoMemory, "no memory"),
    ] {
        assert!(rt; says(rt.alloc(), why, text)?);
    }
    Ok(())
}
