// A source, a sink and a file store in memory that never fail, apart from allocation.
ghost use Rattle.edge_io.specs.Causes.{HasCause, HasPutCause, HasShelfCause, HasWriteCause, one_more};
ghost use Rattle.edge_io.specs.Exposed.{entries_of};
ghost use Rattle.edge_io.specs.Files.{AllowsReads, AllowsWrites, DeniesReads, DeniesWrites, HasPiece, IsPutTo, KeepsOthers, LacksFile, file_of, open_files, put_file};
ghost use Rattle.std.specs.Io.KnownBytes.{Keeps, ReadConsumes, WriteAppends};
ghost use Rattle.std.specs.Io.{ReadsAtMost};
ghost use Rattle.std.specs.Prelude.{◌≡◌, ◌≢◌, ◌≤◌, ◌<◌, ◌⊎◌, ◌++◌, [], Some, None, length, take, option_map, IsOk, IsSome, IfOk, IfErr, IfSome, OnOk, OnErr, IsErrOf, IsOkUnless};

use crate::begun::Begun;
use crate::kept::KeptFiles;
use crate::prefix::copy_prefix;
use crate::{Failed, PutRefusal, Shelf, ShelfRefusal, Sink, Source, WriteRefusal};
use std::alloc::Global;
use std::marker::Model;

/// A source over bytes in memory that never fails. Contracts see it as the bytes that are left.
#[derive(Drop)]
pub struct SureSource {
    bytes: Vec<u8>,
    position: usize,
}

impl Model for SureSource {
    ghost use Rattle.std.specs.Prelude.{ℕ, ◌≤◌, List, length, drop};

    ghost Value = { List ℕ };

    ghost view = { λ s. drop s.position s.bytes.items };

    ghost invariant = { λ s. s.position ≤ length s.bytes.items };
}

impl SureSource {
    /// A source of these bytes.
    pub fn new(bytes: Vec<u8>) -> SureSource
        ensures { result ≡ bytes.items }
    {
        SureSource { bytes, position: 0 }
    }
}

impl Source for SureSource {
    ghost left = { λ s. Some s };

    ghost faults = { λ _. 0 };

    fn read(&mut self, into: &mut [u8]) -> Result<usize, Failed>
        requires { 0 < length into.old }
        ensures bound { ReadsAtMost result into.new }
        ensures bytes { ReadConsumes (Some self.old) (Some self.new) result into.new }
        ensures cause { HasCause 0 0 result }
        ensures sure { IsOk result }
    {
        let count = copy_prefix(&self.bytes[self.position..], into);
        self.position += count;
        Ok(count)
    }
}

/// A sink into memory whose only error is `NoMemory`. It exposes the bytes that were written.
#[derive(Drop)]
pub struct SureSink {
    bytes: Vec<u8>,
    wants: u64,
}

impl Model for SureSink {
    ghost use Rattle.edge_io.specs.Memory.{SureOutput};

    ghost Value = { SureOutput };

    ghost view = { λ s. record { written = s.bytes.items; wants = s.wants } };
}

impl SureSink {
    /// A sink that has no bytes yet.
    pub fn new(alloc: Global) -> SureSink
        ensures { result ≡ record { written = []; wants = 0 } }
    {
        SureSink {
            bytes: Vec::new(alloc),
            wants: 0,
        }
    }

    /// The bytes that were written.
    pub fn written(&self) -> &[u8]
        ensures { result.now ≡ self.now.written }
    {
        &self.bytes
    }
}

impl Sink for SureSink {
    ghost written = { λ s. Some s.written };

    ghost kept = { λ _. 0 };

    ghost faults = { λ _. 0 };

    ghost wants = { λ s. s.wants };

    fn write(&mut self, piece: &[u8]) -> Result<usize, WriteRefusal>
        requires { 0 < length piece.now }
        ensures some { IfOk result (λ n. 0 < n) }
        ensures bound { IfOk result (λ n. n ≤ length piece.now) }
        ensures bytes { WriteAppends (Some self.old.written) (Some self.new.written) result piece.now }
        ensures cause { HasWriteCause 0 0 self.old.wants self.new.wants result }
        ensures sure { IsOkUnless result WriteRefusal.NoMemory }
        ensures wants { OnOk result (self.new.wants ≡ self.old.wants) }
        ensures want { OnErr result (self.new.wants ≡ one_more self.old.wants) }
        ensures whole { IfOk result (λ n. n ≡ length piece.now) }
    {
        if self.bytes.extend_from_slice(piece).is_err() {
            self.wants = self.wants.saturating_add(1);
            return Err(WriteRefusal::NoMemory);
        }
        Ok(piece.len())
    }

    fn flush(&mut self) -> Result<(), WriteRefusal>
        ensures sure { IsOk result }
        ensures same { self.new ≡ self.old }
        ensures bytes { Keeps (Some self.old.written) (Some self.new.written) }
        ensures cause { HasWriteCause 0 0 self.old.wants self.new.wants result }
    {
        Ok(())
    }
}

/// A file store in memory that never returns `Failed`. It exposes its files. If a name occurs twice at first, its first
/// entry counts.
#[derive(Drop)]
pub struct SureShelf {
    files: KeptFiles,
    begun: Begun,
    wants: u64,
}

impl Model for SureShelf {
    ghost use Rattle.edge_io.specs.Memory.{SureFiles};

    ghost Value = { SureFiles };

    ghost view = { λ s. record { files = s.files; begun = s.begun; wants = s.wants } };
}

impl SureShelf {
    /// A file store with these names and bytes.
    pub fn new(files: Vec<(Vec<u8>, Vec<u8>)>) -> SureShelf
        ensures { result ≡ record { files = open_files (entries_of files.items); begun = None; wants = 0 } }
    {
        SureShelf {
            files: KeptFiles::new(files),
            begun: Begun::none(),
            wants: 0,
        }
    }

    /// The bytes of the file with this name.
    pub fn file(&self, name: &[u8]) -> Option<&[u8]>
        ensures { option_map (λ bytes. bytes.now) result ≡ file_of self.now.files name.now }
    {
        self.files.file(name)
    }
}

impl Shelf for SureShelf {
    ghost files = { λ s. Some s.files };

    ghost begun = { λ s. option_map (λ put. Some put) s.begun };

    ghost faults = { λ _. 0 };

    ghost wants = { λ s. s.wants };

    fn read_at(&mut self, name: &[u8], from: u64, into: &mut [u8]) -> Result<usize, ShelfRefusal>
        requires { 0 < length into.old }
        ensures bound { ReadsAtMost result into.new }
        ensures kept { self.new ≡ self.old }
        ensures bytes { IfOk result (λ n. HasPiece self.old.files name.now from (take n into.new)) }
        ensures allowed { OnOk result (AllowsReads (Some self.old.files) name.now) }
        ensures absent { IsErrOf result ShelfRefusal.Absent → LacksFile (Some self.old.files) name.now }
        ensures denied { IsErrOf result ShelfRefusal.Denied → DeniesReads (Some self.old.files) name.now }
        ensures cause { HasShelfCause 0 0 self.old.wants self.new.wants result }
        ensures sure { IfErr result (λ why. (why ≡ ShelfRefusal.Absent) ⊎ (why ≡ ShelfRefusal.Denied)) }
    {
        self.files.read_at(name, from, usize::MAX, into)
    }

    fn put(&mut self, name: &[u8], bytes: &[u8]) -> Result<(), PutRefusal>
        ensures done { OnOk result (file_of self.new.files name.now ≡ Some bytes.now) }
        ensures others { KeepsOthers (Some self.old.files) (Some self.new.files) name.now }
        ensures whole { OnOk result (self.new.files ≡ put_file self.old.files name.now bytes.now) }
        ensures allowed { OnOk result (AllowsWrites (Some self.old.files) name.now) }
        ensures denied { IsErrOf result PutRefusal.Denied → DeniesWrites (Some self.old.files) name.now }
        ensures refused { OnErr result (self.new.files ≡ self.old.files) }
        ensures given_up { self.new.begun ≡ None }
        ensures cause { HasPutCause 0 0 self.old.wants self.new.wants result }
        ensures sure { result ≢ Err PutRefusal.Failed }
        ensures want { IsErrOf result PutRefusal.NoMemory → self.new.wants ≡ one_more self.old.wants }
        ensures no_want { result ≢ Err PutRefusal.NoMemory → self.new.wants ≡ self.old.wants }
    {
        self.begun = Begun::none();
        let done = self.files.put(name, bytes);
        if done == Err(PutRefusal::NoMemory) {
            self.wants = self.wants.saturating_add(1);
        }
        done
    }

    fn begin(&mut self, name: &[u8]) -> Result<(), PutRefusal>
        ensures kept { self.new.files ≡ self.old.files }
        ensures begun { OnOk result (self.new.begun ≡ Some (name.now, [])) }
        ensures allowed { OnOk result (AllowsWrites (Some self.old.files) name.now) }
        ensures denied { IsErrOf result PutRefusal.Denied → DeniesWrites (Some self.old.files) name.now }
        ensures given_up { OnErr result (self.new.begun ≡ None) }
        ensures cause { HasPutCause 0 0 self.old.wants self.new.wants result }
        ensures sure { result ≢ Err PutRefusal.Failed }
        ensures want { IsErrOf result PutRefusal.NoMemory → self.new.wants ≡ one_more self.old.wants }
        ensures no_want { result ≢ Err PutRefusal.NoMemory → self.new.wants ≡ self.old.wants }
    {
        self.begun = Begun::none();
        if self.files.denies_writes(name) {
            return Err(PutRefusal::Denied);
        }
        if self.begun.begin(self.files.alloc(), name).is_err() {
            self.wants = self.wants.saturating_add(1);
            return Err(PutRefusal::NoMemory);
        }
        Ok(())
    }

    fn append(&mut self, bytes: &[u8]) -> Result<(), PutRefusal>
        requires { IsSome self.old.begun }
        ensures kept { self.new.files ≡ self.old.files }
        ensures begun { OnOk result (self.new.begun ≡ option_map (λ put. (put.0, put.1 ++ bytes.now)) self.old.begun) }
        ensures no_denial { result ≢ Err PutRefusal.Denied }
        ensures given_up { OnErr result (self.new.begun ≡ None) }
        ensures cause { HasPutCause 0 0 self.old.wants self.new.wants result }
        ensures sure { result ≢ Err PutRefusal.Failed }
        ensures want { IsErrOf result PutRefusal.NoMemory → self.new.wants ≡ one_more self.old.wants }
        ensures no_want { result ≢ Err PutRefusal.NoMemory → self.new.wants ≡ self.old.wants }
    {
        if self.begun.append(bytes).is_err() {
            self.wants = self.wants.saturating_add(1);
            return Err(PutRefusal::NoMemory);
        }
        Ok(())
    }

    fn end(&mut self) -> Result<(), PutRefusal>
        requires { IsSome self.old.begun }
        ensures done { IfSome self.old.begun (λ put. IsPutTo (Some self.old.files) (Some self.new.files) put.0 put.1 result) }
        ensures whole { IfSome self.old.begun (λ put. OnOk result (self.new.files ≡ put_file self.old.files put.0 put.1)) }
        ensures refused { OnErr result (self.new.files ≡ self.old.files) }
        ensures given_up { self.new.begun ≡ None }
        ensures cause { HasPutCause 0 0 self.old.wants self.new.wants result }
        ensures sure { result ≢ Err PutRefusal.Failed }
        ensures want { IsErrOf result PutRefusal.NoMemory → self.new.wants ≡ one_more self.old.wants }
        ensures no_want { result ≢ Err PutRefusal.NoMemory → self.new.wants ≡ self.old.wants }
    {
        let Some((name, bytes)) = self.begun.take() else {
            return Ok(());
        };
        self.put(&name, &bytes)
    }
}
