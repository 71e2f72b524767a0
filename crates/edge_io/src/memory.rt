// A source, a sink and a file store in memory that move at most `piece` bytes in a read or a write, and fail at stated
// calls.
ghost use Rattle.edge_io.specs.Causes.{HasCause, HasPutCause, HasShelfCause, HasWriteCause, one_more};
ghost use Rattle.edge_io.specs.Exposed.{entries_of};
ghost use Rattle.edge_io.specs.Files.{AllowsReads, AllowsWrites, DeniesReads, DeniesWrites, HasPiece, IsPutTo, KeepsOthers, LacksFile, close_file, file_of, open_files, put_file};
ghost use Rattle.edge_io.specs.Injection.{fresh, fails_next, after_call};
ghost use Rattle.std.specs.Io.KnownBytes.{Keeps, ReadConsumes, WriteAppends};
ghost use Rattle.std.specs.Io.{ReadsAtMost};
ghost use Rattle.std.specs.Prelude.{◌≡◌, ◌≤◌, ◌<◌, ◌↔◌, ◌≢◌, ◌++◌, [], Some, None, length, take, option_map, IsTrue, IsErr, IsErrOf, IsOk, IsSome, IfOk, IfSome, OnOk, OnErr};

use crate::begun::Begun;
use crate::injection::FaultPlan;
use crate::kept::KeptFiles;
use crate::prefix::copy_prefix;
use crate::{Failed, PutRefusal, Shelf, ShelfRefusal, Sink, Source, WriteRefusal};
use std::alloc::{AllocError, Global};
use std::marker::Model;

/// A source over bytes in memory. It exposes the bytes that are left.
#[derive(Drop)]
pub struct MemSource {
    bytes: Vec<u8>,
    position: usize,
    piece: usize,
    plan: FaultPlan,
}

impl Model for MemSource {
    ghost use Rattle.std.specs.Prelude.{◌≤◌, ◌<◌, length, drop};
    ghost use Rattle.edge_io.specs.Memory.{MemInput};

    ghost Value = { MemInput };

    ghost view = { λ s. record { left = drop s.position s.bytes.items; piece = s.piece; injection = s.plan } };

    ghost invariant = { λ s. (s.position ≤ length s.bytes.items) × (0 < s.piece) };
}

impl MemSource {
    /// A source that returns at most `piece` bytes per call and fails at the calls with these numbers, counted from 1.
    pub fn new(bytes: Vec<u8>, piece: usize, failing: Vec<u64>) -> MemSource
        requires { 0 < piece }
        ensures { result ≡ record { left = bytes.items; piece = piece; injection = fresh failing.items } }
    {
        MemSource {
            bytes,
            position: 0,
            piece,
            plan: FaultPlan::new(failing),
        }
    }
}

impl Source for MemSource {
    ghost left = { λ s. Some s.left };

    ghost faults = { λ s. s.injection.faults };

    fn read(&mut self, into: &mut [u8]) -> Result<usize, Failed>
        requires { 0 < length into.old }
        ensures bound { ReadsAtMost result into.new }
        ensures bytes { ReadConsumes (Some self.old.left) (Some self.new.left) result into.new }
        ensures cause { HasCause self.old.injection.faults self.new.injection.faults result }
        ensures piece { IfOk result (λ n. n ≤ self.old.piece) }
        ensures failing { IsErr result ↔ IsTrue (fails_next self.old.injection) }
        ensures injection { self.new.injection ≡ after_call self.old.injection }
        ensures same { self.new.piece ≡ self.old.piece }
    {
        if self.plan.next_fails() {
            return Err(Failed);
        }
        let rest = &self.bytes[self.position..];
        let count = copy_prefix(&rest[..rest.len().min(self.piece)], into);
        self.position += count;
        Ok(count)
    }
}

/// A sink into memory. It exposes the bytes that were written.
#[derive(Drop)]
pub struct MemSink {
    bytes: Vec<u8>,
    piece: usize,
    plan: FaultPlan,
    wants: u64,
}

impl Model for MemSink {
    ghost use Rattle.std.specs.Prelude.{◌<◌};
    ghost use Rattle.edge_io.specs.Memory.{MemOutput};

    ghost Value = { MemOutput };

    ghost view = { λ s. record { written = s.bytes.items; piece = s.piece; injection = s.plan; wants = s.wants } };

    ghost invariant = { λ s. 0 < s.piece };
}

impl MemSink {
    /// A sink that takes at most `piece` bytes per call and fails at the calls with these numbers, counted from 1. Only
    /// calls to `write` count.
    pub fn new(alloc: Global, piece: usize, failing: Vec<u64>) -> MemSink
        requires { 0 < piece }
        ensures { result ≡ record { written = []; piece = piece; injection = fresh failing.items; wants = 0 } }
    {
        MemSink {
            bytes: Vec::new(alloc),
            piece,
            plan: FaultPlan::new(failing),
            wants: 0,
        }
    }

    /// The bytes that were written.
    pub fn written(&self) -> &[u8]
        ensures { result.now ≡ self.now.written }
    {
        &self.bytes
    }
}

impl Sink for MemSink {
    ghost written = { λ s. Some s.written };

    ghost kept = { λ _. 0 };

    ghost faults = { λ s. s.injection.faults };

    ghost wants = { λ s. s.wants };

    fn write(&mut self, piece: &[u8]) -> Result<usize, WriteRefusal>
        requires { 0 < length piece.now }
        ensures some { IfOk result (λ n. 0 < n) }
        ensures bound { IfOk result (λ n. n ≤ length piece.now) }
        ensures bytes { WriteAppends (Some self.old.written) (Some self.new.written) result piece.now }
        ensures cause { HasWriteCause self.old.injection.faults self.new.injection.faults self.old.wants self.new.wants result }
        ensures piece { IfOk result (λ n. n ≤ self.old.piece) }
        ensures failing { IsErrOf result WriteRefusal.Failed ↔ IsTrue (fails_next self.old.injection) }
        ensures injection { self.new.injection ≡ after_call self.old.injection }
        ensures wants { OnOk result (self.new.wants ≡ self.old.wants) }
        ensures want { IsErrOf result WriteRefusal.NoMemory → self.new.wants ≡ one_more self.old.wants }
        ensures no_want { IsErrOf result WriteRefusal.Failed → self.new.wants ≡ self.old.wants }
        ensures same { self.new.piece ≡ self.old.piece }
    {
        if self.plan.next_fails() {
            return Err(WriteRefusal::Failed);
        }
        let count = piece.len().min(self.piece);
        if self.bytes.extend_from_slice(&piece[..count]).is_err() {
            self.wants = self.wants.saturating_add(1);
            return Err(WriteRefusal::NoMemory);
        }
        Ok(count)
    }

    fn flush(&mut self) -> Result<(), WriteRefusal>
        ensures sure { IsOk result }
        ensures same { self.new ≡ self.old }
        ensures bytes { Keeps (Some self.old.written) (Some self.new.written) }
        ensures cause { HasWriteCause self.old.injection.faults self.new.injection.faults self.old.wants self.new.wants result }
    {
        Ok(())
    }
}

/// A file store in memory. It exposes its files. If a name occurs twice at first, its first entry counts.
#[derive(Drop)]
pub struct MemShelf {
    files: KeptFiles,
    begun: Begun,
    piece: usize,
    plan: FaultPlan,
    wants: u64,
}

impl Model for MemShelf {
    ghost use Rattle.std.specs.Prelude.{◌<◌};
    ghost use Rattle.edge_io.specs.Memory.{MemFiles};

    ghost Value = { MemFiles };

    ghost view = { λ s. record { files = s.files; begun = s.begun; piece = s.piece; injection = s.plan; wants = s.wants } };

    ghost invariant = { λ s. 0 < s.piece };
}

impl MemShelf {
    /// A file store whose reads return at most `piece` bytes. It fails at the calls with these numbers, counted from 1
    /// over the calls of all its methods that read or write.
    pub fn new(files: Vec<(Vec<u8>, Vec<u8>)>, piece: usize, failing: Vec<u64>) -> MemShelf
        requires { 0 < piece }
        ensures { result ≡ record { files = open_files (entries_of files.items); begun = None; piece = piece; injection = fresh failing.items; wants = 0 } }
    {
        MemShelf {
            files: KeptFiles::new(files),
            begun: Begun::none(),
            piece,
            plan: FaultPlan::new(failing),
            wants: 0,
        }
    }

    /// Closes a name for reading, for writing, or both: such calls return `Denied`. A read still returns `Absent` if no
    /// file has the name.
    ///
    /// # Errors
    ///
    /// `AllocError` if allocation fails; nothing has changed then.
    pub fn close(&mut self, name: &[u8], reads: bool, writes: bool) -> Result<(), AllocError>
        ensures closed { OnOk result (self.new ≡ record self.old { files = close_file self.old.files name.now reads writes }) }
        ensures refused { OnErr result (self.new ≡ self.old) }
    {
        self.files.close(name, reads, writes)
    }

    /// The bytes of the file with this name.
    pub fn file(&self, name: &[u8]) -> Option<&[u8]>
        ensures { option_map (λ bytes. bytes.now) result ≡ file_of self.now.files name.now }
    {
        self.files.file(name)
    }
}

impl Shelf for MemShelf {
    ghost files = { λ s. Some s.files };

    ghost begun = { λ s. option_map (λ put. Some put) s.begun };

    ghost faults = { λ s. s.injection.faults };

    ghost wants = { λ s. s.wants };

    fn read_at(&mut self, name: &[u8], from: u64, into: &mut [u8]) -> Result<usize, ShelfRefusal>
        requires { 0 < length into.old }
        ensures bound { ReadsAtMost result into.new }
        ensures kept { self.new.files ≡ self.old.files }
        ensures same_begun { option_map (λ put. Some put) self.new.begun ≡ option_map (λ put. Some put) self.old.begun }
        ensures bytes { IfOk result (λ n. HasPiece self.old.files name.now from (take n into.new)) }
        ensures allowed { OnOk result (AllowsReads (Some self.old.files) name.now) }
        ensures absent { IsErrOf result ShelfRefusal.Absent → LacksFile (Some self.old.files) name.now }
        ensures denied { IsErrOf result ShelfRefusal.Denied → DeniesReads (Some self.old.files) name.now }
        ensures cause { HasShelfCause self.old.injection.faults self.new.injection.faults self.old.wants self.new.wants result }
        ensures piece { IfOk result (λ n. n ≤ self.old.piece) }
        ensures failing { IsErrOf result ShelfRefusal.Failed ↔ IsTrue (fails_next self.old.injection) }
        ensures injection { self.new.injection ≡ after_call self.old.injection }
        ensures no_want { result ≢ Err ShelfRefusal.NoMemory }
        ensures same { (self.new.piece ≡ self.old.piece) × (self.new.wants ≡ self.old.wants) × (self.new.begun ≡ self.old.begun) }
    {
        if self.plan.next_fails() {
            return Err(ShelfRefusal::Failed);
        }
        self.files.read_at(name, from, self.piece, into)
    }

    fn put(&mut self, name: &[u8], bytes: &[u8]) -> Result<(), PutRefusal>
        ensures done { OnOk result (file_of self.new.files name.now ≡ Some bytes.now) }
        ensures others { KeepsOthers (Some self.old.files) (Some self.new.files) name.now }
        ensures whole { OnOk result (self.new.files ≡ put_file self.old.files name.now bytes.now) }
        ensures allowed { OnOk result (AllowsWrites (Some self.old.files) name.now) }
        ensures denied { IsErrOf result PutRefusal.Denied → DeniesWrites (Some self.old.files) name.now }
        ensures refused { OnErr result (self.new.files ≡ self.old.files) }
        ensures given_up { self.new.begun ≡ None }
        ensures cause { HasPutCause self.old.injection.faults self.new.injection.faults self.old.wants self.new.wants result }
        ensures failing { IsErrOf result PutRefusal.Failed ↔ IsTrue (fails_next self.old.injection) }
        ensures injection { self.new.injection ≡ after_call self.old.injection }
        ensures want { IsErrOf result PutRefusal.NoMemory → self.new.wants ≡ one_more self.old.wants }
        ensures no_want { result ≢ Err PutRefusal.NoMemory → self.new.wants ≡ self.old.wants }
        ensures same { self.new.piece ≡ self.old.piece }
    {
        self.begun = Begun::none();
        if self.plan.next_fails() {
            return Err(PutRefusal::Failed);
        }
        let done = self.files.put(name, bytes);
        if done == Err(PutRefusal::NoMemory) {
            self.wants = self.wants.saturating_add(1);
        }
        done
    }

    fn begin(&mut self, name: &[u8]) -> Result<(), PutRefusal>
        ensures kept { self.new.files ≡ self.old.files }
        ensures begun { OnOk result (self.new.begun ≡ Some (name.now, [])) }
        ensures allowed { OnOk result (AllowsWrites (Some self.old.files) name.now) }
        ensures denied { IsErrOf result PutRefusal.Denied → DeniesWrites (Some self.old.files) name.now }
        ensures given_up { OnErr result (self.new.begun ≡ None) }
        ensures cause { HasPutCause self.old.injection.faults self.new.injection.faults self.old.wants self.new.wants result }
        ensures failing { IsErrOf result PutRefusal.Failed ↔ IsTrue (fails_next self.old.injection) }
        ensures injection { self.new.injection ≡ after_call self.old.injection }
        ensures want { IsErrOf result PutRefusal.NoMemory → self.new.wants ≡ one_more self.old.wants }
        ensures no_want { result ≢ Err PutRefusal.NoMemory → self.new.wants ≡ self.old.wants }
        ensures same { self.new.piece ≡ self.old.piece }
    {
        self.begun = Begun::none();
        if self.plan.next_fails() {
            return Err(PutRefusal::Failed);
        }
        if self.files.denies_writes(name) {
            return Err(PutRefusal::Denied);
        }
        if self.begun.begin(self.files.alloc(), name).is_err() {
            self.wants = self.wants.saturating_add(1);
            return Err(PutRefusal::NoMemory);
        }
        Ok(())
    }

    fn append(&mut self, bytes: &[u8]) -> Result<(), PutRefusal>
        requires { IsSome self.old.begun }
        ensures kept { self.new.files ≡ self.old.files }
        ensures begun { OnOk result (self.new.begun ≡ option_map (λ put. (put.0, put.1 ++ bytes.now)) self.old.begun) }
        ensures no_denial { result ≢ Err PutRefusal.Denied }
        ensures given_up { OnErr result (self.new.begun ≡ None) }
        ensures cause { HasPutCause self.old.injection.faults self.new.injection.faults self.old.wants self.new.wants result }
        ensures failing { IsErrOf result PutRefusal.Failed ↔ IsTrue (fails_next self.old.injection) }
        ensures injection { self.new.injection ≡ after_call self.old.injection }
        ensures want { IsErrOf result PutRefusal.NoMemory → self.new.wants ≡ one_more self.old.wants }
        ensures no_want { result ≢ Err PutRefusal.NoMemory → self.new.wants ≡ self.old.wants }
        ensures same { self.new.piece ≡ self.old.piece }
    {
        if self.plan.next_fails() {
            self.begun = Begun::none();
            return Err(PutRefusal::Failed);
        }
        if self.begun.append(bytes).is_err() {
            self.wants = self.wants.saturating_add(1);
            return Err(PutRefusal::NoMemory);
        }
        Ok(())
    }

    fn end(&mut self) -> Result<(), PutRefusal>
        requires { IsSome self.old.begun }
        ensures done { IfSome self.old.begun (λ put. IsPutTo (Some self.old.files) (Some self.new.files) put.0 put.1 result) }
        ensures whole { IfSome self.old.begun (λ put. OnOk result (self.new.files ≡ put_file self.old.files put.0 put.1)) }
        ensures refused { OnErr result (self.new.files ≡ self.old.files) }
        ensures given_up { self.new.begun ≡ None }
        ensures cause { HasPutCause self.old.injection.faults self.new.injection.faults self.old.wants self.new.wants result }
        ensures failing { IsErrOf result PutRefusal.Failed ↔ IsTrue (fails_next self.old.injection) }
        ensures injection { self.new.injection ≡ after_call self.old.injection }
        ensures want { IsErrOf result PutRefusal.NoMemory → self.new.wants ≡ one_more self.old.wants }
        ensures no_want { result ≢ Err PutRefusal.NoMemory → self.new.wants ≡ self.old.wants }
        ensures same { self.new.piece ≡ self.old.piece }
    {
        let Some((name, bytes)) = self.begun.take() else {
            return Ok(());
        };
        self.put(&name, &bytes)
    }
}
