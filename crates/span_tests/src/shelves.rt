//! Tests of files over file stores in memory: loading, saving, opening, and the result of a failing call.

ghost use Rattle.std.specs.Prelude.{None};

use crate::running::{Outcome, Setting, plain, ran, ran_over, run_over, shelf_of, whole};
use edge_io::{BufferedSink, MemSink, PutRefusal, Shelf, ShelfRefusal};
use span_run::Status;
use std::alloc::{AllocError, Global};
use std::test::Fail;
use std::thread::Threads;
use work_gate::OpenGate;

/// The image of one document `d` with the text `ab`.
const SMALL_IMAGE: &[u8] =
    b"SLPI\x01\0\0\0\0\0\0\0\x03\0a\0b\x01\0\0\0\0\0\0\0\0\0\0\0\0\0\0\0\x01\0\0\0\0\0\0\0\x01\x01d\0\0\0\0\0\0\0\x02";

/// An image whose document `d` is a run of 2^47 copies of `ab`.
const LONG_IMAGE: &[u8] =
    b"SLPI\x02\0\0\0\0\0\0\0\x04\0a\0b\x01\0\0\0\0\0\0\0\0\0\0\0\0\0\0\0\x01\x02\0\0\0\0\0\0\0\x02\0\0\x80\0\0\0\0\0\0\0\0\0\0\0\0\x01\x01d\0\0\0\0\0\0\0\x03";

/// A file's name and bytes, a script over it, and its whole output and status.
type Row = (
    &'static str,
    &'static [u8],
    &'static str,
    &'static str,
    Status,
);

const ROWS: [Row; 6] = [
    (
        "f",
        b"\x22\x5c\x0a\xff",
        "load d f\nload d nofile\n",
        "ok d 4 \"\\\"\\\\\\x0a\\xff\"\nline 2: NoSuchFile nofile\n",
        Status::SomeRefused,
    ),
    (
        "f",
        b"\x22\x5c\x0a\xff",
        "share d f\nshare e nofile\n",
        "ok d 4 \"\\\"\\\\\\x0a\\xff\"\nline 2: NoSuchFile nofile\n",
        Status::SomeRefused,
    ),
    (
        "f",
        b"abcd",
        "load d f\nlet d = concat(d,d)\nwrite d g\nload e g\nwrite d f\nshare d f\nwrite x g\n",
        "ok d 4 \"abcd\"\nok d 8 \"abcdabcd\"\nok 8\nok e 8 \"abcdabcd\"\nok 8\nok d 8 \"abcdabcd\"\nline 7: NoSuchDocument x\n",
        Status::SomeRefused,
    ),
    (
        "log",
        b"GET /a 200\nGET /b 404\n",
        "load d log\nquery q (.*\\n)?GET $p{[^ ]*} $s{[0-9]+}\\n.*\nlist q d\n",
        "ok d 22 \"GET /a 200\\x0aGET /b 404\\x0a\"\nok q p s\np=[5,7),s=[8,11)\np=[16,18),s=[19,22)\nend\n",
        Status::Done,
    ),
    (
        "g",
        SMALL_IMAGE,
        "open g\nnames\nshow d 1 3\n",
        "ok 1\nd 2\nend\n\"ab\"\n",
        Status::Done,
    ),
    (
        "g",
        LONG_IMAGE,
        "open g\nnames\nshow d 1 5\nquery q .*$x{ba}.*\nlist q d after x=[281474976710652,281474976710654)\n",
        "ok 1\nd 281474976710656\nend\n\"abab\"\nok q x\nx=[281474976710654,281474976710656)\nend\n",
        Status::Done,
    ),
];

#[test]
fn files_are_read(rt: HostRuntime) -> Result<(), Fail> {
    for (name, bytes, script, output, status) in ROWS {
        for piece in [1, 65_536] {
            let setting = Setting {
                files: &[(name, bytes)],
                piece,
                ..plain(script.as_bytes())
            };
            let told = ran(&rt, rt.alloc(), setting, output.as_bytes())?;
            assert_eq!(rt; told, whole(status, output.as_bytes()), "{script}");
        }
    }
    Ok(())
}

/// Saves an image of 1,024 copies of `ab`, and opens it without its last byte. Returns both outcomes, and the length of
/// the image.
fn saved_and_cut<R: Threads + Sync>(
    rt: &R,
    alloc: Global,
) -> Result<(Outcome, Outcome, usize), AllocError> {
    let text = "ab".repeat(alloc, 1024)?;
    let setting = Setting {
        files: &[("f", text.as_bytes())],
        ..plain(b"load d f\nsave f\n")
    };
    let mut shelf = shelf_of(alloc, setting)?;
    let saved = ran_over(rt, alloc, setting, b"\"\nok 1 13\n", &mut shelf)?;
    let image = shelf.file(b"f").unwrap_or(&[]);
    let setting = Setting {
        files: &[("f", &image[..image.len().saturating_sub(1)])],
        ..plain(b"open f\n")
    };
    let cut = ran(rt, alloc, setting, b"line 1: BadImage 3\n")?;
    Ok((saved, cut, image.len()))
}

#[test]
fn an_image_is_saved(rt: HostRuntime) -> Result<(), Fail> {
    let (saved, cut, length) = saved_and_cut(&rt, rt.alloc())?;
    assert_eq!(rt;
        (saved.status, saved.is_suffix, length),
        (Status::Done, true, 222)
    );
    assert_eq!(rt; cut, whole(Status::SomeRefused, b"line 1: BadImage 3\n"));
    Ok(())
}

/// A file store whose files have computed bytes, more than `load` accepts, and which drops what is written. Its files are not
/// observable.
#[derive(Drop)]
struct Endless {
    /// Whether a write in pieces was begun.
    begun: bool,
}

impl Shelf for Endless {
    ghost use Rattle.edge_io.specs.Outside.{unexposed_put};

    ghost files = { λ _. None };

    ghost begun = { λ s. unexposed_put s.begun };

    ghost faults = { λ _. 0 };

    ghost wants = { λ _. 0 };

    fn read_at(&mut self, _name: &[u8], from: u64, into: &mut [u8]) -> Result<usize, ShelfRefusal> {
        Ok(if from > 1 << 32 { 0 } else { into.len().min(1) })
    }

    fn put(&mut self, _name: &[u8], _bytes: &[u8]) -> Result<(), PutRefusal> {
        self.begun = false;
        Ok(())
    }

    fn begin(&mut self, _name: &[u8]) -> Result<(), PutRefusal> {
        self.begun = true;
        Ok(())
    }

    fn append(&mut self, _bytes: &[u8]) -> Result<(), PutRefusal> {
        Ok(())
    }

    fn end(&mut self) -> Result<(), PutRefusal> {
        self.begun = false;
        Ok(())
    }
}

#[test]
fn file_too_long(rt: HostRuntime) -> Result<(), Fail> {
    let output = b"line 1: FileTooLong big\n";
    let mut shelf = Endless { begun: false };
    let told = ran_over(&rt, rt.alloc(), plain(b"load d big\n"), output, &mut shelf)?;
    assert_eq!(rt; told, whole(Status::SomeRefused, output));
    Ok(())
}

/// A script over one file, for runs in which one call fails, and objects that move one byte in each call.
#[derive(Clone, Copy)]
struct Faulted {
    name: &'static str,
    bytes: &'static [u8],
    script: &'static str,
    output: &'static str,

    /// The calls of the file store in order: a number of calls, the number of bytes written if one of them fails, and
    /// the length of `f` then. No call has the last number.
    calls: &'static [(u64, usize, usize)],
}

/// The byte after the limit of a file is read first, then each byte, and last its end. A file is written by one call.
const FAULTED: [Faulted; 3] = [
    // `load`, `save` and `open` once, and questions after them.
    Faulted {
        name: "f",
        bytes: b"abab",
        script: "text d a\nload e f\nsave f\nopen f\nquery q .*$x{ab}.*\ntest q e\nhas q e x=[3,5)\n",
        output: "ok d 1 \"a\"\nok e 4 \"abab\"\nok 2 4\nok 2\nok q x\nyes\nyes\n",
        calls: &[(6, 11, 4), (1, 25, 4), (81, 32, 79), (1, 52, 79)],
    },
    // `save` and `open`, and listings.
    Faulted {
        name: "g",
        bytes: b"",
        script: "text d abab\nsave f\nopen f\nquery q .*$x{ab}.*\nlist q d\nlistall q\n",
        output: "ok d 4 \"abab\"\nok 1 4\nok 1\nok q x\nx=[1,3)\nx=[3,5)\nend\ndoc d\nx=[1,3)\nx=[3,5)\nend\ndone\n",
        calls: &[(1, 14, 0), (71, 21, 69), (1, 84, 69)],
    },
    // Every command.
    Faulted {
        name: "h",
        bytes: b"abab",
        script: "text d abab\ntext w X\nquery q .*$x{ab}.*\nquery p $x{a}.*\nunion u q p\njoin j q p\nproject m u ()\ntest m d\nhas q d x=[1,3)\nlist u d limit 2\nlistall m limit 1\nreplace e q d w\nmark v\nlet d = concat(d,e)\nshow d 1 3\nnames\nsave f\nopen f\nload g h\nshare s h\nback v\ndrop w\nunmark v\nunquery j\ncompact\nnames\n",
        output: "ok d 4 \"abab\"\nok w 1 \"X\"\nok q x\nok p x\nok u x\nok j x\nok m\nyes\nyes\nx=[1,2)\nx=[1,3)\nmore\ndoc d\n()\nend\ndoc w\nend\ndone\nok e 2 \"XX\"\nok\nok d 6 \"ababXX\"\n\"ab\"\nd 6\nw 1\ne 2\nend\nok 3 7\nok 3\nok g 4 \"abab\"\nok s 4 \"abab\"\nok\nok\nok\nok\nok\nd 4\ne 2\nend\n",
        calls: &[
            (1, 167, 0),
            (127, 174, 125),
            (6, 179, 125),
            (6, 193, 125),
            (1, 234, 125),
        ],
    },
];

/// The outcome of a run of the script and the length of `f`, if the call of the source, the sink or the file store with
/// this number fails.
fn ran_with<R: Threads + Sync>(
    rt: &R,
    alloc: Global,
    case: &Faulted,
    bad_read: u64,
    bad_write: u64,
    bad_call: u64,
) -> Result<(Outcome, usize), AllocError> {
    let setting = Setting {
        files: &[(case.name, case.bytes)],
        piece: 1,
        bad_read,
        bad_write,
        bad_call,
        ..plain(case.script.as_bytes())
    };
    let mut shelf = shelf_of(alloc, setting)?;
    let told = ran_over(rt, alloc, setting, case.output.as_bytes(), &mut shelf)?;
    Ok((told, shelf.file(b"f").unwrap_or(&[]).len()))
}

/// The source is called for each byte, and once more for the end.
#[test]
fn each_call_of_a_source_fails(rt: HostRuntime) -> Result<(), Fail> {
    for case in &FAULTED {
        let calls = case.script.len() as u64 + 1;
        for read in 1..=calls {
            let told = ran_with(&rt, rt.alloc(), case, read, 0, 0)?.0;
            assert_eq!(rt;
                (told.status, told.length),
                (Status::ScriptFault, 0),
                "{read}"
            );
        }
        let told = ran_with(&rt, rt.alloc(), case, calls + 1, 0, 0)?.0;
        assert_eq!(rt; told, whole(Status::Done, case.output.as_bytes()));
    }
    Ok(())
}

/// The sink is called for each byte.
#[test]
fn each_call_of_a_sink_fails(rt: HostRuntime) -> Result<(), Fail> {
    for case in &FAULTED {
        for written in 0..case.output.len() {
            let told = ran_with(&rt, rt.alloc(), case, 0, written as u64 + 1, 0)?.0;
            assert_eq!(rt;
                (told.status, told.length, told.is_prefix),
                (Status::OutFault, written, true)
            );
        }
    }
    Ok(())
}

#[test]
fn each_call_of_a_shelf_fails(rt: HostRuntime) -> Result<(), Fail> {
    for case in &FAULTED {
        let mut call = 0u64;
        for (count, length, file) in case.calls {
            let status = if *length == case.output.len() {
                Status::Done
            } else {
                Status::ShelfFault
            };
            for _ in 0..*count {
                call = call.saturating_add(1);
                let (told, left) = ran_with(&rt, rt.alloc(), case, 0, 0, call)?;
                assert_eq!(rt;
                    (told.status, told.length, told.is_prefix, left),
                    (status, *length, true, *file),
                    "{call}"
                );
            }
        }
    }
    Ok(())
}

/// A script over a file store in which `closed` can't be read and `shut` can't be written.
const CLOSED: &str =
    "load d closed\nshare d closed\nopen closed\ntext d a\nsave shut\nsave open\nload e missing\nnames\nwrite d shut\n";

const CLOSED_OUTPUT: &str =
    "line 1: CannotRead closed\nline 2: CannotRead closed\nline 3: CannotRead closed\nok d 1 \"a\"\n\
    line 5: CannotWrite shut\nok 1 1\nline 7: NoSuchFile missing\nd 1\nend\nline 9: CannotWrite shut\n";

/// Runs the script over such a file store. Returns the outcome, and whether there is a file `shut` then.
fn ran_closed<R: Threads + Sync>(rt: &R, alloc: Global) -> Result<(Outcome, bool), AllocError> {
    let setting = Setting {
        files: &[("closed", b"abc")],
        ..plain(CLOSED.as_bytes())
    };
    let mut shelf = shelf_of(alloc, setting)?;
    shelf.close(b"closed", true, false)?;
    shelf.close(b"shut", false, true)?;
    let told = ran_over(rt, alloc, setting, CLOSED_OUTPUT.as_bytes(), &mut shelf)?;
    Ok((told, shelf.file(b"shut").is_some()))
}

#[test]
fn names_that_are_closed(rt: HostRuntime) -> Result<(), Fail> {
    let expected = whole(Status::SomeRefused, CLOSED_OUTPUT.as_bytes());
    assert_eq!(rt; ran_closed(&rt, rt.alloc())?, (expected, false));
    Ok(())
}

/// Runs a script over a buffered sink whose first write fails. Returns the status, and whether a file `f` exists then.
fn ran_kept_back<R: Threads + Sync>(
    rt: &R,
    alloc: Global,
    script: &str,
) -> Result<(Status, bool), AllocError> {
    let setting = Setting {
        files: &[("g", b"abc")],
        ..plain(script.as_bytes())
    };
    let mut shelf = shelf_of(alloc, setting)?;
    let inner = MemSink::new(alloc, 1000, vec![in alloc; 1]?);
    let mut sink = BufferedSink::new(alloc, inner)?;
    let status = run_over(rt, alloc, setting, &mut sink, &mut shelf, &OpenGate)?;
    Ok((status, shelf.file(b"f").is_some()))
}

#[test]
fn nothing_is_saved_after_output_that_failed(rt: HostRuntime) -> Result<(), Fail> {
    for script in [
        "query q- a\nsave f\n",
        "text d- x)\nsave f\n",
        "list q d\nsave f\n",
        "names\nsave f\n",
        "load d g\nsave f\n",
        "share d g\nsave f\n",
        "load d g)\nsave f\n",
    ] {
        let told = ran_kept_back(&rt, rt.alloc(), script)?;
        assert_eq!(rt; told, (Status::OutFault, false), "{script}");
    }
    Ok(())
}
