//! Tests of sources, sinks and file stores: in memory, over std and over folders.
ghost use Rattle.std.specs.Prelude.{◌≤◌, ◌<◌, IfOk};

use crate::types::says;
use edge_io::{
    DirShelf, Failed, MemShelf, MemSink, MemSource, PutRefusal, Shelf, ShelfRefusal, Sink, Source,
    StdSink, StdSource, SureShelf, SureSink, SureSource, WriteRefusal,
};
use std::alloc::{AllocError, Global};
use std::io;
use std::io::{ErrorKind, Read, Write};
use std::process::Abort;
use std::test::Fail;

/// A reader and writer that is interrupted some times, and then moves at most `most` bytes per call.
#[derive(Drop)]
struct Interrupted {
    times: u32,
    most: usize,
}

impl Interrupted {
    fn turn(&mut self, room: usize) -> io::Result<usize>
        ensures { IfOk result (λ n. n ≤ room) }
    {
        if self.times > 0 {
            self.times -= 1;
            return Err(io::Error::from(ErrorKind::Interrupted));
        }
        Ok(room.min(self.most))
    }
}

impl Read for Interrupted {
    fn read(&mut self, into: &mut [u8]) -> io::Result<usize> {
        self.turn(into.len())
    }
}

impl Write for Interrupted {
    fn write(&mut self, piece: &[u8]) -> io::Result<usize> {
        self.turn(piece.len())
    }

    fn flush(&mut self) -> io::Result<()> {
        Ok(())
    }
}

// The calls of the objects without their contracts: a test needs none, and so carries none on to the next call.

fn read<S: Source>(source: &mut S, into: &mut [u8; 4]) -> Result<usize, Failed> {
    source.read(into)
}

fn write<K: Sink>(sink: &mut K) -> Result<usize, WriteRefusal> {
    sink.write(b"abc")
}

fn read_at<F: Shelf>(
    shelf: &mut F,
    name: &[u8],
    from: u64,
    into: &mut [u8; 4],
) -> Result<usize, ShelfRefusal> {
    shelf.read_at(name, from, into)
}

fn put<F: Shelf>(shelf: &mut F, name: &[u8], bytes: &[u8]) -> Result<(), PutRefusal> {
    shelf.put(name, bytes)
}

/// The result of each read in turn, and the four bytes that the reads fill.
fn reads<S: Source>(
    rt: &impl Abort,
    source: &mut S,
    wants: &[Result<usize, Failed>],
    bytes: &[u8],
) {
    let mut into = [0; 4];
    for want in wants {
        assert!(rt; read(source, &mut into) == *want);
    }
    assert!(rt; into.as_slice() == bytes);
}

/// The result of each write of `abc` in turn.
fn writes<K: Sink>(rt: &impl Abort, sink: &mut K, wants: &[Result<usize, WriteRefusal>]) {
    for want in wants {
        assert!(rt; write(sink) == *want);
    }
}

/// A file's name, the offset from which its bytes are read, and the result.
type ReadRow = (&'static [u8], u64, Result<usize, ShelfRefusal>);

/// The result of each read in turn, and the four bytes that the reads fill.
fn reads_at<F: Shelf>(rt: &impl Abort, shelf: &mut F, rows: &[ReadRow], bytes: &[u8]) {
    let mut into = [0; 4];
    for (name, from, want) in rows {
        assert!(rt; read_at(shelf, name, *from, &mut into) == *want);
    }
    assert!(rt; into.as_slice() == bytes);
}

/// A file's name, the bytes that are put, and the result.
type PutRow = (&'static [u8], &'static [u8], Result<(), PutRefusal>);

/// The result of each put in turn.
fn puts<F: Shelf>(rt: &impl Abort, shelf: &mut F, rows: &[PutRow]) {
    for (name, bytes, want) in rows {
        assert!(rt; put(shelf, name, bytes) == *want);
    }
}

/// The files `a` and `b`, with the texts `one` and `two`.
fn two_files(alloc: Global) -> Result<Vec<(Vec<u8>, Vec<u8>)>, AllocError> {
    let mut files = Vec::new(alloc);
    files.push((b"a".to_vec(alloc)?, b"one".to_vec(alloc)?))?;
    files.push((b"b".to_vec(alloc)?, b"two".to_vec(alloc)?))?;
    Ok(files)
}

fn source(alloc: Global) -> Result<MemSource, AllocError> {
    Ok(MemSource::new(b"abcde".to_vec(alloc)?, 2, vec![in alloc; 2]?))
}

fn sink(alloc: Global) -> Result<MemSink, AllocError> {
    Ok(MemSink::new(alloc, 2, vec![in alloc; 2]?))
}

fn shelf(alloc: Global) -> Result<MemShelf, AllocError> {
    Ok(MemShelf::new(two_files(alloc)?, 2, vec![in alloc; 2, 4]?))
}

const WRITE_TEXTS: [(WriteRefusal, &str); 2] = [
    (WriteRefusal::Failed, "a write failed"),
    (WriteRefusal::NoMemory, "no memory"),
];

const SHELF_TEXTS: [(ShelfRefusal, &str); 4] = [
    (ShelfRefusal::Failed, "a read failed"),
    (ShelfRefusal::NoMemory, "no memory"),
    (ShelfRefusal::Absent, "no such file"),
    (ShelfRefusal::Denied, "reading is not permitted"),
];

const PUT_TEXTS: [(PutRefusal, &str); 3] = [
    (PutRefusal::Failed, "a write failed"),
    (PutRefusal::NoMemory, "no memory"),
    (PutRefusal::Denied, "writing is not permitted"),
];

#[test]
fn texts(rt: HostRuntime) -> Result<(), Fail> {
    let alloc = rt.alloc();
    assert!(rt; says(alloc, Failed, "a read failed")?);
    for (refusal, want) in WRITE_TEXTS {
        assert!(rt; says(alloc, refusal, want)?);
    }
    for (refusal, want) in PUT_TEXTS {
        assert!(rt; says(alloc, refusal, want)?);
    }
    for (refusal, want) in SHELF_TEXTS {
        assert!(rt; says(alloc, refusal, want)?);
    }
    Ok(())
}

#[test]
fn sources_in_memory(rt: HostRuntime) -> Result<(), Fail> {
    let alloc = rt.alloc();
    let wants = [Ok(2), Err(Failed), Ok(2), Ok(1), Ok(0)];
    reads(&rt, &mut source(alloc)?, &wants, b"ed\0\0");
    let mut source = SureSource::new(b"abcde".to_vec(alloc)?);
    reads(&rt, &mut source, &[Ok(4), Ok(1), Ok(0)], b"ebcd");
    Ok(())
}

#[test]
fn sinks_in_memory(rt: HostRuntime) -> Result<(), Fail> {
    let alloc = rt.alloc();
    let mut sink = sink(alloc)?;
    writes(&rt, &mut sink, &[Ok(2), Err(WriteRefusal::Failed), Ok(2)]);
    assert!(rt; sink.written() == b"abab".as_slice());
    let mut sink = SureSink::new(alloc);
    writes(&rt, &mut sink, &[Ok(3)]);
    assert!(rt; sink.written() == b"abc".as_slice());
    Ok(())
}

/// The second and the fourth call of all fail.
#[test]
fn shelf_in_memory(rt: HostRuntime) -> Result<(), Fail> {
    let mut shelf = shelf(rt.alloc())?;
    reads_at(&rt, &mut shelf, &[(b"b", 1, Ok(2))], b"wo\0\0");
    let failing = [
        (b"b".as_slice(), 1, Err(ShelfRefusal::Failed)),
        (b"c".as_slice(), 0, Err(ShelfRefusal::Absent)),
    ];
    reads_at(&rt, &mut shelf, &failing, b"\0\0\0\0");
    let rows = [
        (b"b".as_slice(), b"2".as_slice(), Err(PutRefusal::Failed)),
        (b"c".as_slice(), b"three".as_slice(), Ok(())),
    ];
    puts(&rt, &mut shelf, &rows);
    reads_at(&rt, &mut shelf, &[(b"b", 3, Ok(0))], b"\0\0\0\0");
    for (name, want) in [(b"a", b"one".as_slice()), (b"b", b"two"), (b"c", b"three")] {
        assert!(rt; shelf.file(name) == Some(want));
    }
    Ok(())
}

#[test]
fn sure_shelf(rt: HostRuntime) -> Result<(), Fail> {
    let mut shelf = SureShelf::new(two_files(rt.alloc())?);
    puts(&rt, &mut shelf, &[(b"a", b"", Ok(()))]);
    reads_at(
        &rt,
        &mut shelf,
        &[(b"a", 0, Ok(0)), (b"b", 0, Ok(3))],
        b"two\0",
    );
    assert!(rt; shelf.file(b"c") == None);
    Ok(())
}

#[test]
fn over_std(rt: HostRuntime) -> Result<(), Fail> {
    let mut into = [0; 4];
    for (times, want) in [(1000, Ok(1)), (1001, Err(Failed))] {
        let mut source = StdSource::new(Interrupted { times, most: 1 });
        assert!(rt; read(&mut source, &mut into) == want);
    }
    for (times, most, want) in [
        (1000, 1, Ok(1)),
        (1001, 1, Err(WriteRefusal::Failed)),
        (0, 0, Err(WriteRefusal::Failed)),
    ] {
        let mut sink = StdSink::new(Interrupted { times, most });
        assert!(rt; write(&mut sink) == want);
    }
    Ok(())
}

/// Files of the system, and the result of a read of each.
const FILES: [(&[u8], Result<usize, ShelfRefusal>); 6] = [
    (b"/dev/null", Ok(0)),
    (b"/dev/zero", Ok(4)),
    (b"no such file", Err(ShelfRefusal::Absent)),
    (b"/dev/null/below", Err(ShelfRefusal::Absent)),
    (b".", Err(ShelfRefusal::Denied)),
    (b"\xff", Err(ShelfRefusal::Denied)),
];

#[test]
fn over_folders(rt: HostRuntime) -> Result<(), Fail> {
    let mut into = [0; 4];
    let mut shelf = DirShelf::new(&rt);
    for (name, want) in FILES {
        assert!(rt; read_at(&mut shelf, name, 0, &mut into) == want);
    }
    let rows = [
        (b"/dev/null".as_slice(), b"abc".as_slice(), Ok(())),
        (b".".as_slice(), b"abc".as_slice(), Err(PutRefusal::Denied)),
    ];
    puts(&rt, &mut shelf, &rows);
    Ok(())
}
