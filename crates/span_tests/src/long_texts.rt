//! Tests of long texts, of up to 2^48 bytes, and of long lines and scripts.

use crate::running::{Outcome, Setting, plain, ran};
use span_run::Status;
use std::alloc::{AllocError, Global};
use std::test::Fail;
use std::thread::Threads;

/// A first part, a part that is repeated, its number of repetitions, and a last part.
type Text = (&'static str, &'static str, usize, &'static str);

/// The bytes of a text.
fn bytes_of(alloc: Global, text: Text) -> Result<Vec<u8>, AllocError> {
    let (first, part, times, last) = text;
    let mut bytes = first.as_bytes().to_vec(alloc)?;
    for _ in 0..times {
        bytes.extend_from_slice(part.as_bytes())?;
    }
    bytes.extend_from_slice(last.as_bytes())?;
    Ok(bytes)
}

/// Runs a script with these arguments, and compares its output with an expected end.
fn ran_long<R: Threads + Sync>(
    rt: &R,
    alloc: Global,
    words: &[&str],
    script: Text,
    end: Text,
) -> Result<Outcome, AllocError> {
    let script = bytes_of(alloc, script)?;
    let end = bytes_of(alloc, end)?;
    let setting = Setting {
        words,
        ..plain(&script)
    };
    ran(rt, alloc, setting, &end)
}

const DOUBLING: &str = "let d = concat(d,d)\n";

/// The first page of a query, the last page, and questions about its answers.
const PAGES: &str =
    "query q .*$x{ba}.*\nlist q d limit 2\nlist q d after x=[281474976710652,281474976710654)\nhas q d x=[281474976710654,281474976710656)\ntest q d\n";

const PAGES_END: &str =
    "\nok q x\nx=[2,4)\nx=[4,6)\nmore\nx=[281474976710654,281474976710656)\nend\nyes\nyes\n";

/// Arguments, a script, the status, the length of the output in bytes, and its end.
const ROWS: [(&[&str], Text, Status, usize, &str); 10] = [
    (
        &[],
        ("text d ", "a", 5000, "\nshow d 1 4098\n"),
        Status::SomeRefused,
        71,
        "\nline 2: RangeTooWide 4097\n",
    ),
    (
        &[],
        ("text d ", "a", 65_529, "\n"),
        Status::Done,
        46,
        "ok d 65529 \"aaaaaaaaaaaaaaaaaaaaaaaaaaaaaaaa\"\n",
    ),
    (
        &[],
        ("text d ", "a", 65_530, "\n"),
        Status::SomeRefused,
        15,
        "line 1: Syntax\n",
    ),
    (
        &[],
        ("text d ab\n", DOUBLING, 47, ""),
        Status::Done,
        2249,
        "\nok d 281474976710656 \"abababababababababababababababab\"\n",
    ),
    (
        &[],
        ("text d ab\n", DOUBLING, 48, ""),
        Status::SomeRefused,
        2282,
        "\nline 49: TooLong 562949953421312\n",
    ),
    (
        &[],
        ("text d ab\n", DOUBLING, 12, "show d 1 4098\n"),
        Status::SomeRefused,
        496,
        "\nline 14: RangeTooWide 4097\n",
    ),
    (
        &[],
        ("#", "a", 65_536, "\n"),
        Status::SomeRefused,
        15,
        "line 1: Syntax\n",
    ),
    // One byte too many for a script.
    (
        &[],
        ("#", "################", 1 << 20, ""),
        Status::ScriptTooLong,
        0,
        "",
    ),
    (
        &["--workers=1"],
        ("text d ab\n", DOUBLING, 47, PAGES),
        Status::Done,
        2325,
        PAGES_END,
    ),
    (
        &["--workers=4"],
        ("text d ab\n", DOUBLING, 47, PAGES),
        Status::Done,
        2325,
        PAGES_END,
    ),
];

#[test]
fn lengths_and_widths(rt: HostRuntime) -> Result<(), Fail> {
    let alloc = rt.alloc();
    for (words, script, status, length, end) in ROWS {
        let told = ran_long(&rt, alloc, words, script, ("", "", 0, end))?;
        assert_eq!(rt;
            (told.status, told.length, told.is_suffix),
            (status, length, true)
        );
    }
    // The widest range that is shown.
    let script = ("text d ab\n", DOUBLING, 12, "show d 1 4097\n");
    let told = ran_long(&rt, alloc, &[], script, ("\"", "ab", 2048, "\"\n"))?;
    assert_eq!(rt;
        (told.status, told.length, told.is_suffix),
        (Status::Done, 4568, true)
    );
    Ok(())
}

/// The whole output of `--demo 3`.
const SMALL_DEMO: &str =
    "ok a 2 \"ab\"\nok a 4 \"abab\"\nok a 8 \"abababab\"\nok a 16 \"abababababababab\"\nok b 15 \"aababababababab\"\nok q x\nx=[1,3)\nend\nok c 31 \"aababababababababababababababab\"\nok r x y\nx=[3,4),y=[4,5)\nx=[5,6),y=[6,7)\nmore\nx=[7,8),y=[8,9)\nmore\na 16\nb 15\nc 31\nend\n";

/// The last 15 of the 62 lines of `--demo 46`.
const LARGE_DEMO: &str =
    "ok b 140737488355327 \"aabababababababababababababababa\"\nok q x\nx=[1,3)\nend\nok c 281474976710655 \"aabababababababababababababababa\"\nok r x y\nx=[3,4),y=[4,5)\nx=[5,6),y=[6,7)\nmore\nx=[7,8),y=[8,9)\nmore\na 140737488355328\nb 140737488355327\nc 281474976710655\nend\n";

/// Arguments, the length of their output in bytes, and the end of the output.
const DEMOS: [(&[&str], usize, &str); 3] = [
    (&["--demo", "3"], 244, SMALL_DEMO),
    (&["--demo", "46"], 2449, LARGE_DEMO),
    (&["--workers", "4", "--demo", "46"], 2449, LARGE_DEMO),
];

#[test]
fn demos(rt: HostRuntime) -> Result<(), Fail> {
    for (words, length, end) in DEMOS {
        let setting = Setting {
            words,
            bad_read: 1,
            ..plain(b"")
        };
        let told = ran(&rt, rt.alloc(), setting, end.as_bytes())?;
        assert_eq!(rt;
            (told.status, told.length, told.is_suffix),
            (Status::Done, length, true)
        );
    }
    Ok(())
}
