//! The outside as traits: a source of bytes, a sink of bytes and a file store (`Shelf`), in memory and over std.
//!
//! ```text
//! let mut shelf = DirShelf::new(&rt);                      // files named from the current folder
//! match shelf.read_at(b"day.log", 0, &mut piece) {
//!     Ok(0) => done(),                                     // the end of the file
//!     Ok(count) => take(&piece[..count]),                  // some of its bytes, perhaps fewer than there are
//!     Err(ShelfRefusal::Absent | ShelfRefusal::Denied) => tell_the_user(),
//!     Err(ShelfRefusal::Failed | ShelfRefusal::NoMemory) => stop(),
//! }
//! ```
//!
//! A file store also takes a file in pieces: `begin`, `append` and `end`, of which only `end` changes the file. A call
//! that returns an error changes no file, except for a device or a pipe that `DirShelf` writes to.
//!
//! Each trait has an object over std (`StdSource`, `StdSink`, `DirShelf`) and two in memory. One never fails, apart
//! from allocation (`Sure..`). The other is for tests: it moves pieces of a chosen size and fails at chosen calls
//! (`Mem..`). `MemShelf::close` closes a name for reading or writing. [`BufferedSink`] buffers bytes for any sink until
//! it is flushed.
//!
//! Every object counts its faults and its allocation failures. So a contract can say that a caller returns a fault only
//! if the outside had one, and that a call that succeeded had none.
//!
//! Those over std keep no buffer: a call takes a few system calls. Those in memory keep all bytes, and find a file in
//! time linear in the number of files.
//!
//! Proved: Objects in memory: their bytes, their closed names and their failing calls (`Source`, `Sink`, `Shelf`). A
//! buffer in front of a sink loses and reorders nothing (`BufferedSink`). Counts of faults and failed allocations
//! increase exactly with such a result.
//!
//! Tested: Error texts; what `DirShelf` does with files.
//!
//! Neither: That `StdSource`, `StdSink` and `DirShelf` pass the system's bytes through.
#![tactic(auto)]

mod begun;
mod buffered;
mod folder;
mod injection;
mod kept;
mod memory;
mod opened;
mod outside;
mod paths;
mod prefix;
mod repeat;
mod replacement;
mod sure;

ghost use Rattle.edge_io.specs.Causes.{HasCause, HasPutCause, HasShelfCause, HasWriteCause};
ghost use Rattle.edge_io.specs.Files.{AllowsReads, AllowsWrites, DeniesReads, DeniesWrites, Files, HasPiece, Holds, IsBegun, IsPutTo, KeepsOthers, LacksFile};
ghost use Rattle.std.specs.Io.KnownBytes.{Keeps, ReadConsumes, WriteAppends};
ghost use Rattle.std.specs.Io.{ReadsAtMost};
ghost use Rattle.std.specs.Prelude.{◌≡◌, ◌≢◌, ◌<◌, ◌≤◌, ◌++◌, [], List, ℕ, None, length, take, IfOk, IfSome, IsErrOf, IsSome, OnOk, OnErr};
ghost use Rattle.std.specs.declared.option.Option.{Option};

pub use buffered::BufferedSink;
pub use folder::DirShelf;
pub use memory::{MemShelf, MemSink, MemSource};
pub use outside::{StdSink, StdSource};
pub use sure::{SureShelf, SureSink, SureSource};
use thiserror::Error;

/// A fault of a source.
#[derive(Clone, Copy, Debug, PartialEq, Eq, Error)]
#[error("a read failed")]
pub struct Failed;

/// Why a sink took nothing.
#[derive(Clone, Copy, Debug, PartialEq, Eq, Error)]
pub enum WriteRefusal {
    /// A fault.
    #[error("a write failed")]
    Failed,
    /// Allocation failure.
    #[error("no memory")]
    NoMemory,
}

/// Why a file store returned no bytes of a file.
#[derive(Clone, Copy, Debug, PartialEq, Eq, Error)]
pub enum ShelfRefusal {
    /// A fault.
    #[error("a read failed")]
    Failed,
    /// Allocation failure.
    #[error("no memory")]
    NoMemory,
    /// There is no file of this name.
    #[error("no such file")]
    Absent,
    /// The file of this name is closed for reading.
    #[error("reading is not permitted")]
    Denied,
}

/// Why a file store didn't change a file.
#[derive(Clone, Copy, Debug, PartialEq, Eq, Error)]
pub enum PutRefusal {
    /// A fault.
    #[error("a write failed")]
    Failed,
    /// Allocation failure.
    #[error("no memory")]
    NoMemory,
    /// The name is closed for writing.
    #[error("writing is not permitted")]
    Denied,
}

/// A source of bytes, each read once and in order.
///
/// A source counts its faults. A call returns `Failed` only if this count increased in it, and `Ok` only if the count
/// is unchanged.
pub trait Source {
    /// The bytes that are left, if the source exposes them.
    ghost left: { Self → Option (List ℕ) };

    /// The number of faults.
    ghost faults: { Self → ℕ };

    /// Reads the next bytes to the start of `into`, which isn't empty, and returns their number. `Ok(0)` is the end of
    /// input: it is returned exactly if no byte is left.
    ///
    /// # Errors
    ///
    /// `Failed` if the source failed. It has read nothing then, and the call can be repeated.
    fn read(&mut self, into: &mut [u8]) -> Result<usize, Failed>
        requires { 0 < length into.old }
        ensures bound { ReadsAtMost result into.new }
        ensures bytes { ReadConsumes (left self.old) (left self.new) result into.new }
        ensures cause { HasCause (faults self.old) (faults self.new) result };
}

/// A sink of bytes, written in order.
///
/// A sink counts its faults and its allocation failures. A call returns `Failed` or `NoMemory` only if that count
/// increased in it, and `Ok` only if both are unchanged.
pub trait Sink {
    /// The bytes that were written, if the sink exposes them. The last of them are those that it buffers.
    ghost written: { Self → Option (List ℕ) };

    /// The number of written bytes, the last ones, that are buffered and haven't been sent.
    ghost kept: { Self → ℕ };

    /// The number of faults.
    ghost faults: { Self → ℕ };

    /// The number of allocation failures.
    ghost wants: { Self → ℕ };

    /// Appends a prefix of the piece, which isn't empty, and returns its length: at least one byte. The sink may buffer
    /// them until `flush`.
    ///
    /// # Errors
    ///
    /// `Failed` if the sink failed, and `NoMemory` if allocation fails. In both cases nothing was appended.
    fn write(&mut self, piece: &[u8]) -> Result<usize, WriteRefusal>
        requires { 0 < length piece.now }
        ensures some { IfOk result (λ n. 0 < n) }
        ensures bound { IfOk result (λ n. n ≤ length piece.now) }
        ensures bytes { WriteAppends (written self.old) (written self.new) result piece.now }
        ensures cause { HasWriteCause (faults self.old) (faults self.new) (wants self.old) (wants self.new) result };

    /// Sends the buffered bytes. The written bytes are unchanged.
    ///
    /// # Errors
    ///
    /// `Failed` if the sink failed, and `NoMemory` if allocation fails. Bytes that weren't sent are still buffered, and
    /// the call can be repeated.
    fn flush(&mut self) -> Result<(), WriteRefusal>
        ensures bytes { Keeps (written self.old) (written self.new) }
        ensures sent { OnOk result (kept self.new ≡ 0) }
        ensures cause { HasWriteCause (faults self.old) (faults self.new) (wants self.old) (wants self.new) result };
}

/// Files by name.
///
/// A file store counts its faults and its allocation failures. A call returns `Failed` or `NoMemory` only if that count
/// increased in it, and any other result only if both are unchanged.
pub trait Shelf {
    /// The files and the names that are closed, if the file store exposes them.
    ghost files: { Self → Option Files };

    /// The put in pieces that was begun, or none. Its name and its bytes so far are known if the file store exposes
    /// them.
    ghost begun: { Self → Option (Option (List ℕ × List ℕ)) };

    /// The number of faults.
    ghost faults: { Self → ℕ };

    /// The number of allocation failures.
    ghost wants: { Self → ℕ };

    /// Reads bytes of a file from the offset `from` on to the start of `into`, which isn't empty, and returns their
    /// number. The files are unchanged. `Ok(0)` says that no byte is left from there on.
    ///
    /// # Errors
    ///
    /// `Absent` if no file has the name, `Denied` if the file is closed for reading, `Failed` if the file store failed,
    /// and `NoMemory` if allocation fails.
    fn read_at(&mut self, name: &[u8], from: u64, into: &mut [u8]) -> Result<usize, ShelfRefusal>
        requires { 0 < length into.old }
        ensures bound { ReadsAtMost result into.new }
        ensures kept { files self.new ≡ files self.old }
        ensures same_begun { begun self.new ≡ begun self.old }
        ensures bytes { IfOk result (λ n. IfSome (files self.old) (λ all. HasPiece all name.now from (take n into.new))) }
        ensures allowed { OnOk result (AllowsReads (files self.old) name.now) }
        ensures absent { IsErrOf result ShelfRefusal.Absent → LacksFile (files self.old) name.now }
        ensures denied { IsErrOf result ShelfRefusal.Denied → DeniesReads (files self.old) name.now }
        ensures cause { HasShelfCause (faults self.old) (faults self.new) (wants self.old) (wants self.new) result };

    /// Makes these bytes the whole content of the file of this name, which is created if it doesn't exist. The other
    /// files and the closed names are unchanged. A put in pieces that was begun is discarded.
    ///
    /// # Errors
    ///
    /// `Denied` if the name is closed for writing, `Failed` if the file store failed, and `NoMemory` if allocation
    /// fails. All files are then unchanged.
    fn put(&mut self, name: &[u8], bytes: &[u8]) -> Result<(), PutRefusal>
        ensures done { OnOk result (Holds (files self.new) name.now bytes.now) }
        ensures others { KeepsOthers (files self.old) (files self.new) name.now }
        ensures allowed { OnOk result (AllowsWrites (files self.old) name.now) }
        ensures denied { IsErrOf result PutRefusal.Denied → DeniesWrites (files self.old) name.now }
        ensures refused { OnErr result (files self.new ≡ files self.old) }
        ensures given_up { begun self.new ≡ None }
        ensures cause { HasPutCause (faults self.old) (faults self.new) (wants self.old) (wants self.new) result };

    /// Begins a put in pieces to the file of this name, with no bytes yet. The files are unchanged until `end`. A put
    /// in pieces that was begun is discarded.
    ///
    /// # Errors
    ///
    /// Those of `put`. Nothing is begun then.
    fn begin(&mut self, name: &[u8]) -> Result<(), PutRefusal>
        ensures kept { files self.new ≡ files self.old }
        ensures begun { OnOk result (IsBegun (begun self.new) name.now []) }
        ensures allowed { OnOk result (AllowsWrites (files self.old) name.now) }
        ensures denied { IsErrOf result PutRefusal.Denied → DeniesWrites (files self.old) name.now }
        ensures given_up { OnErr result (begun self.new ≡ None) }
        ensures cause { HasPutCause (faults self.old) (faults self.new) (wants self.old) (wants self.new) result };

    /// Appends bytes to what was begun. The files are unchanged until `end`.
    ///
    /// # Errors
    ///
    /// `Failed` if the file store failed, and `NoMemory` if allocation fails. What was begun is then discarded.
    fn append(&mut self, bytes: &[u8]) -> Result<(), PutRefusal>
        requires { IsSome (begun self.old) }
        ensures kept { files self.new ≡ files self.old }
        ensures begun { (name so_far : List ℕ) → IsBegun (begun self.old) name so_far → OnOk result (IsBegun (begun self.new) name (so_far ++ bytes.now)) }
        ensures no_denial { result ≢ Err PutRefusal.Denied }
        ensures given_up { OnErr result (begun self.new ≡ None) }
        ensures cause { HasPutCause (faults self.old) (faults self.new) (wants self.old) (wants self.new) result };

    /// Ends the put that was begun: it does what `put` does with the name and all the bytes. Afterwards no put is
    /// begun.
    ///
    /// # Errors
    ///
    /// Those of `put`. All files are then unchanged.
    fn end(&mut self) -> Result<(), PutRefusal>
        requires { IsSome (begun self.old) }
        ensures done { (name bytes : List ℕ) → IsBegun (begun self.old) name bytes → IsPutTo (files self.old) (files self.new) name bytes result }
        ensures refused { OnErr result (files self.new ≡ files self.old) }
        ensures given_up { begun self.new ≡ None }
        ensures cause { HasPutCause (faults self.old) (faults self.new) (wants self.old) (wants self.new) result };
}
