// The trusted edge: a source over any reader of std, and a sink over any writer.
ghost use Rattle.edge_io.specs.Causes.{HasCause, HasWriteCause, one_more};
ghost use Rattle.std.specs.Io.KnownBytes.{Keeps, ReadConsumes, WriteAppends};
ghost use Rattle.std.specs.Io.{ReadsAtMost};
ghost use Rattle.std.specs.Prelude.{◌≡◌, ◌<◌, ◌≤◌, length, IfOk, OnErr, OnOk};

use crate::{Failed, Sink, Source, WriteRefusal};
use std::io::{ErrorKind, Read, Write};
use std::marker::Model;

/// The number of times that an interrupted call is repeated before it counts as a fault.
const REPEATS: u32 = 1000;

/// A source over a reader of std, such as standard input. It exposes the bytes that are left if the reader does, which
/// files and pipes don't.
///
/// A read that a signal interrupted is repeated, up to 1,000 times, and is a fault only then. Any other error of the
/// reader is a fault at once, including one that says that no byte is ready yet. The source has no buffer of its own.
#[derive(Drop)]
pub struct StdSource<R: Read> {
    reader: R,
    faults: u64,
}

impl<R: Read> Model for StdSource<R> {
    ghost use Rattle.edge_io.specs.Outside.{ReaderInput};

    ghost Value = { ReaderInput };

    ghost view = { λ s. record { left = R.remaining s.reader; faults = s.faults } };
}

impl<R: Read> StdSource<R> {
    /// A source over this reader, which hasn't failed yet.
    pub fn new(reader: R) -> StdSource<R>
        ensures { result ≡ record { left = R.remaining reader; faults = 0 } }
    {
        StdSource { reader, faults: 0 }
    }
}

impl<R: Read> Source for StdSource<R> {
    ghost left = { λ s. s.left };

    ghost faults = { λ s. s.faults };

    fn read(&mut self, into: &mut [u8]) -> Result<usize, Failed>
        requires { 0 < length into.old }
        ensures bound { ReadsAtMost result into.new }
        ensures bytes { ReadConsumes self.old.left self.new.left result into.new }
        ensures cause { HasCause self.old.faults self.new.faults result }
        ensures failed { OnErr result (self.new.faults ≡ one_more self.old.faults) }
    {
        for _ in 0..=REPEATS {
            match self.reader.read(into) {
                Ok(count) => return Ok(count),
                Err(error) if error.kind() == ErrorKind::Interrupted => {}
                Err(_) => break,
            }
        }
        self.faults = self.faults.saturating_add(1);
        Err(Failed)
    }
}

/// A sink over a writer of std, such as standard output. It exposes the bytes that were written if the writer does,
/// which files and pipes don't. It never returns `NoMemory`.
///
/// A write that a signal interrupted is repeated, up to 1,000 times, and is a fault only then. Any other error of the
/// writer is a fault at once, and so is a writer that takes no byte. A buffer of the writer's own isn't flushed here.
#[derive(Drop)]
pub struct StdSink<W: Write> {
    writer: W,
    faults: u64,
}

impl<W: Write> Model for StdSink<W> {
    ghost use Rattle.edge_io.specs.Outside.{WriterOutput};

    ghost Value = { WriterOutput };

    ghost view = { λ s. record { written = W.contents s.writer; faults = s.faults } };
}

impl<W: Write> StdSink<W> {
    /// A sink over this writer, which hasn't failed yet.
    pub fn new(writer: W) -> StdSink<W>
        ensures { result ≡ record { written = W.contents writer; faults = 0 } }
    {
        StdSink { writer, faults: 0 }
    }
}

impl<W: Write> Sink for StdSink<W> {
    ghost written = { λ s. s.written };

    ghost kept = { λ _. 0 };

    ghost faults = { λ s. s.faults };

    ghost wants = { λ _. 0 };

    fn write(&mut self, piece: &[u8]) -> Result<usize, WriteRefusal>
        requires { 0 < length piece.now }
        ensures some { IfOk result (λ n. 0 < n) }
        ensures bound { IfOk result (λ n. n ≤ length piece.now) }
        ensures bytes { WriteAppends self.old.written self.new.written result piece.now }
        ensures cause { HasWriteCause self.old.faults self.new.faults 0 0 result }
        ensures failed { OnErr result (self.new.faults ≡ one_more self.old.faults) }
    {
        for _ in 0..=REPEATS {
            match self.writer.write(piece) {
                Ok(0) => break,
                Ok(count) => return Ok(count),
                Err(error) if error.kind() == ErrorKind::Interrupted => {}
                Err(_) => break,
            }
        }
        self.faults = self.faults.saturating_add(1);
        Err(WriteRefusal::Failed)
    }

    fn flush(&mut self) -> Result<(), WriteRefusal>
        ensures bytes { Keeps self.old.written self.new.written }
        ensures cause { HasWriteCause self.old.faults self.new.faults 0 0 result }
        ensures failed { OnErr result (self.new.faults ≡ one_more self.old.faults) }
    {
        for _ in 0..=REPEATS {
            match self.writer.flush() {
                Ok(()) => return Ok(()),
                Err(error) if error.kind() == ErrorKind::Interrupted => {}
                Err(_) => break,
            }
        }
        self.faults = self.faults.saturating_add(1);
        Err(WriteRefusal::Failed)
    }
}
