//! A sink and a file store.
ghost use Rattle.std.specs.Prelude.{None};

use edge_io::{PutRefusal, Shelf, ShelfRefusal, Sink, WriteRefusal};
use std::alloc::Global;

/// A sink that keeps the replies and counts their lines.
#[derive(Drop)]
pub struct Replies {
    text: Vec<u8>,
    lines: u64,
    wants: u64,
}

impl Replies {
    /// No replies yet.
    pub fn new(alloc: Global) -> Replies {
        Replies {
            text: Vec::new(alloc),
            lines: 0,
            wants: 0,
        }
    }

    /// The bytes of the replies.
    pub fn text(&self) -> &[u8] {
        &self.text
    }

    /// The number of lines.
    pub fn lines(&self) -> u64 {
        self.lines
    }
}

impl Sink for Replies {
    ghost written = { λ _. None };

    ghost kept = { λ _. 0 };

    ghost faults = { λ _. 0 };

    ghost wants = { λ s. s.wants };

    fn write(&mut self, piece: &[u8]) -> Result<usize, WriteRefusal> {
        if self.text.extend_from_slice(piece).is_err() {
            self.wants = self.wants.saturating_add(1);
            return Err(WriteRefusal::NoMemory);
        }
        let ends = piece.iter().filter(|byte| **byte == b'\n').count();
        self.lines = self.lines.saturating_add(ends as u64);
        Ok(piece.len())
    }

    fn flush(&mut self) -> Result<(), WriteRefusal> {
        Ok(())
    }
}

/// The bytes of a file, which is a constant of the program.
fn file_called(name: &[u8]) -> Option<&'static [u8]> {
    if name == b"motd".as_slice() {
        Some(b"Hello, World.\nMind the gap.\n")
    } else {
        None
    }
}

/// The bytes from an offset on.
fn bytes_from(bytes: &[u8], from: u64) -> &[u8] {
    let from = from as usize;
    if from < bytes.len() {
        &bytes[from..]
    } else {
        &[]
    }
}

/// A file store whose files are constants of the program. It accepts no file: each name is closed for writing, and a write
/// in pieces is rejected at its end.
#[derive(Drop)]
pub struct Shipped {
    /// Whether a write in pieces was begun.
    begun: bool,
}

impl Shipped {
    /// A file store to which no write in pieces was begun.
    pub fn new() -> Shipped {
        Shipped { begun: false }
    }
}

impl Shelf for Shipped {
    ghost use Rattle.edge_io.specs.Outside.{unexposed_put};

    ghost files = { λ _. None };

    ghost begun = { λ s. unexposed_put s.begun };

    ghost faults = { λ _. 0 };

    ghost wants = { λ _. 0 };

    fn read_at(&mut self, name: &[u8], from: u64, into: &mut [u8]) -> Result<usize, ShelfRefusal> {
        let Some(bytes) = file_called(name) else {
            return Err(ShelfRefusal::Absent);
        };
        let rest = bytes_from(bytes, from);
        let count = rest.len().min(into.len());
        into[..count].copy_from_slice(&rest[..count]);
        Ok(count)
    }

    fn put(&mut self, _name: &[u8], _bytes: &[u8]) -> Result<(), PutRefusal> {
        self.begun = false;
        Err(PutRefusal::Denied)
    }

    fn begin(&mut self, _name: &[u8]) -> Result<(), PutRefusal> {
        self.begun = true;
        Ok(())
    }

    fn append(&mut self, _bytes: &[u8]) -> Result<(), PutRefusal> {
        Ok(())
    }

    fn end(&mut self) -> Result<(), PutRefusal> {
        self.begun = false;
        Err(PutRefusal::Denied)
    }
}
