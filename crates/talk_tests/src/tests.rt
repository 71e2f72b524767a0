ghost use Rattle.std.specs.Prelude.{◌≡◌, ◌<◌, None, Some};

use edge_io::{Failed, MemSink, MemSource, Sink, Source, SureShelf, SureSink};
use span_talk::{Client, Listener, Status, talk};
use span_types::Steps;
use std::alloc::{AllocError, Global};
use std::io;
use std::io::Write;
use std::marker::Brand;
use std::sync::ledger::{Blank, Ledger};
use std::test::Fail;
use std::thread::Threads;
use work_gate::OpenGate;

/// The number of newlines.
fn newlines(bytes: &[u8]) -> usize {
    bytes.iter().filter(|byte| **byte == b'\n').count()
}

/// A client that checks the output: after each of its lines, `due` has the number of bytes that must have been written.
#[derive(Drop)]
struct Heedful {
    source: MemSource,
    due: Vec<usize>,
    lines: usize,
    served: bool,
}

impl Client<SureSink> for Heedful {
    ghost left = { λ s. Some s.source.left };

    ghost faults = { λ s. s.source.injection.faults };

    ghost moments = { λ _. None };

    fn hear(&mut self, number: u64, said: &SureSink, into: &mut [u8]) -> Result<usize, Failed> {
        let due = self.due.get(self.lines).copied();
        self.served = self.served && due == Some(said.written().len());
        self.served = self.served && number == self.lines as u64 + 1;
        let count = self.source.read(into)?;
        self.lines = self.lines.saturating_add(newlines(&into[..count]));
        Ok(count)
    }
}

/// A writer for prompts that accepts nothing.
#[derive(Drop)]
struct Closed;

impl Write for Closed {
    fn write(&mut self, _piece: &[u8]) -> io::Result<usize> {
        Ok(0)
    }

    fn flush(&mut self) -> io::Result<()> {
        Ok(())
    }
}

fn counted<R: Threads + Sync, C: Client<K>, K: Sink, P: Ledger, T: Ledger, L: Ledger>(
    rt: &R,
    alloc: Global,
    client: &mut C,
    out: &mut K,
    blanks: (Blank, Blank, Blank),
) -> Status
    requires pairs { (blanks.0.name ≡ P.name) × (blanks.0.parts ≡ P.parts) × (0 < P.parts) }
    requires places { (blanks.1.name ≡ T.name) × (blanks.1.parts ≡ T.parts) × (0 < T.parts) }
    requires looks { (blanks.2.name ≡ L.name) × (blanks.2.parts ≡ L.parts) × (0 < L.parts) }
{
    let mut shelf = SureShelf::new(Vec::new(alloc));
    let mut pairs = Steps::<P>::new(blanks.0);
    let mut places = Steps::<T>::new(blanks.1);
    let mut looks = Steps::<L>::new(blanks.2);
    talk(
        rt,
        alloc,
        client,
        2,
        128,
        out,
        &mut shelf,
        &OpenGate,
        &mut pairs,
        &mut places,
        &mut looks,
    )
}

/// Runs a conversation with a client over files in memory.
fn talked<R: Threads + Sync, C: Client<K>, K: Sink>(
    rt: &R,
    alloc: Global,
    client: &mut C,
    out: &mut K,
) -> Status {
    let blanks = (Blank::new(1), Blank::new(1), Blank::new(1));
    counted::<R, C, K, Brand, Brand, Brand>(rt, alloc, client, out, blanks)
}

/// Runs a conversation with a sender of a script in pieces, where these reads and writes fail. Returns the status and
/// the written bytes.
fn ran<R: Threads + Sync>(
    rt: &R,
    alloc: Global,
    script: &[u8],
    piece: usize,
    bad_read: u64,
    bad_write: u64,
) -> Result<(Status, Vec<u8>), AllocError>
    requires { 0 < piece }
{
    let source = MemSource::new(script.to_vec(alloc)?, piece, vec![in alloc; bad_read]?);
    let mut client = Listener::new(source, Some(Closed));
    let mut out = MemSink::new(alloc, 1000, vec![in alloc; bad_write]?);
    let status = talked(rt, alloc, &mut client, &mut out);
    Ok((status, out.written().to_vec(alloc)?))
}

const SCRIPT: &str = "text d ab\n\n# note\nnames\nshow d 1 2\nfrob\nnames";

const OUTPUT: &str = "ok d 2 \"ab\"\nd 2\nend\n\"a\"\nline 6: Syntax\nd 2\nend\n";

#[test]
fn pieces_of_any_size(rt: HostRuntime) -> Result<(), Fail> {
    let alloc = rt.alloc();
    for (script, output, status) in [
        (SCRIPT, OUTPUT, Status::SomeRefused),
        ("", "", Status::Done),
        ("\n\n", "", Status::Done),
        ("names", "end\n", Status::Done),
        ("names\n", "end\n", Status::Done),
        ("names\r\n", "line 1: Syntax\n", Status::SomeRefused),
    ] {
        for piece in [1, 2, 7, 10_000] {
            let (told, written) = ran(&rt, alloc, script.as_bytes(), piece, 0, 0)?;
            assert_eq!(rt; told, status, "{script}");
            assert_eq!(rt; written.as_slice(), output.as_bytes(), "{script}");
        }
    }
    Ok(())
}

/// The number of the failing read and that of the failing write, or 0 for none, the status, and the written bytes. A
/// read has 10 bytes.
const FAULTS: [(u64, u64, Status, &str); 5] = [
    (1, 0, Status::ScriptFault, ""),
    (2, 0, Status::ScriptFault, "ok d 2 \"ab\"\n"),
    (3, 0, Status::ScriptFault, "ok d 2 \"ab\"\n"),
    (0, 1, Status::OutFault, ""),
    (0, 3, Status::OutFault, "ok d 2 \"ab\"\nd 2\n"),
];

#[test]
fn faults(rt: HostRuntime) -> Result<(), Fail> {
    let alloc = rt.alloc();
    for (bad_read, bad_write, status, output) in FAULTS {
        let (told, written) = ran(&rt, alloc, SCRIPT.as_bytes(), 10, bad_read, bad_write)?;
        assert_eq!(rt; told, status);
        assert_eq!(rt; written.as_slice(), output.as_bytes());
    }
    Ok(())
}

#[test]
fn replies_come_at_once(rt: HostRuntime) -> Result<(), Fail> {
    let alloc = rt.alloc();
    for piece in [1, 3, 10] {
        let mut client = Heedful {
            source: MemSource::new(SCRIPT.as_bytes().to_vec(alloc)?, piece, Vec::new(alloc)),
            due: vec![in alloc; 0, 12, 12, 12, 20, 24, 39]?,
            lines: 0,
            served: true,
        };
        let mut out = SureSink::new(alloc);
        assert_eq!(rt;
            talked(&rt, alloc, &mut client, &mut out),
            Status::SomeRefused
        );
        assert!(rt; client.served);
        assert_eq!(rt; out.written(), OUTPUT.as_bytes());
    }
    Ok(())
}

#[test]
fn long_lines(rt: HostRuntime) -> Result<(), Fail> {
    let alloc = rt.alloc();
    for (length, output, status) in [
        (65_536, "", Status::Done),
        (65_537, "line 1: Syntax\n", Status::SomeRefused),
        (200_000, "line 1: Syntax\n", Status::SomeRefused),
    ] {
        let mut script = vec![in alloc; b'#'; length]?;
        for _ in 0..2 {
            let (told, written) = ran(&rt, alloc, &script, 5000, 0, 0)?;
            assert_eq!(rt; told, status);
            assert_eq!(rt; written.as_slice(), output.as_bytes());
            script.push(b'\n')?;
        }
    }
    Ok(())
}
