// Files in memory.
ghost use Rattle.edge_io.specs.Exposed.{entries_of, exposed_names};
ghost use Rattle.edge_io.specs.Files.{AllowsReads, AllowsWrites, DeniesReads, DeniesWrites, HasPiece, KeepsOthers, LacksFile, close_file, file_of, open_files, put_entry, put_file, writes_closed};
ghost use Rattle.std.specs.List.{list_any};
ghost use Rattle.std.specs.Prelude.{◌≡◌, ◌≢◌, ◌≤◌, ◌<◌, ◌⊎◌, ◌++◌, ◌∷◌, [], Some, None, length, take, drop, option_map, position, IfErr, IfOk, IsErrOf, OnErr, OnOk};
ghost use Rattle.std.specs.Str.{bytes_eq};

use crate::prefix::copy_prefix;
use crate::{PutRefusal, ShelfRefusal};
use std::alloc::{AllocError, Global};
use std::marker::Model;

/// Files by name, and the names that are closed. If a name occurs twice, its first entry counts.
#[derive(Drop)]
pub struct KeptFiles {
    files: Vec<(Vec<u8>, Vec<u8>)>,
    no_reads: Vec<Vec<u8>>,
    no_writes: Vec<Vec<u8>>,
}

impl Model for KeptFiles {
    ghost use Rattle.edge_io.specs.Files.{Files};
    ghost use Rattle.edge_io.specs.Exposed.{entries_of, exposed_names};

    ghost Value = { Files };

    ghost view = { λ k. record { entries = entries_of k.files.items; no_reads = exposed_names k.no_reads.items; no_writes = exposed_names k.no_writes.items } };
}

fn bytes_from(bytes: &[u8], from: u64) -> &[u8]
    ensures { result.now ≡ drop from bytes.now }
{
    let from = from as usize;
    if from < bytes.len() {
        &bytes[from..]
    } else {
        &[]
    }
}

fn index_of(files: &[(Vec<u8>, Vec<u8>)], name: &[u8]) -> Option<usize>
    ensures { result ≡ position (λ file. bytes_eq file.0.items name.now) files.now }
{
    files.iter().position(|file| file.0.as_slice() == name)
}

fn is_listed(names: &[Vec<u8>], name: &[u8]) -> bool
    ensures { result ≡ list_any (λ other. bytes_eq other.items name.now) names.now }
{
    names.iter().any(|other| other.as_slice() == name)
}

/// Sets the bytes of the entry with this name. A new name goes last.
fn put_bytes(
    files: &mut Vec<(Vec<u8>, Vec<u8>)>,
    name: &[u8],
    bytes: &[u8],
) -> Result<(), AllocError>
    ensures whole { OnOk result (entries_of files.new.items ≡ put_entry (entries_of files.old.items) name.now bytes.now) }
    ensures refused { OnErr result (entries_of files.new.items ≡ entries_of files.old.items) }
{
    let index = index_of(files, name);
    let alloc = *files.allocator();
    let bytes = Vec::from_slice(alloc, bytes)?;
    match index {
        Some(index) => files[index].1 = bytes,
        None => {
            let name = Vec::from_slice(alloc, name)?;
            files.push((name, bytes))?;
        }
    }
    Ok(())
}

impl KeptFiles {
    /// Files with these names and bytes, none of them closed.
    pub fn new(files: Vec<(Vec<u8>, Vec<u8>)>) -> KeptFiles
        ensures { result ≡ open_files (entries_of files.items) }
    {
        let alloc = *files.allocator();
        KeptFiles {
            files,
            no_reads: Vec::new(alloc),
            no_writes: Vec::new(alloc),
        }
    }

    /// The allocator of the files.
    pub fn alloc(&self) -> Global {
        *self.files.allocator()
    }

    /// Whether a name is closed for writing.
    pub fn denies_writes(&self, name: &[u8]) -> bool
        ensures { result ≡ writes_closed self.now name.now }
    {
        is_listed(&self.no_writes, name)
    }

    /// The bytes of the file with this name.
    pub fn file(&self, name: &[u8]) -> Option<&[u8]>
        ensures { option_map (λ bytes. bytes.now) result ≡ file_of self.now name.now }
    {
        match index_of(&self.files, name) {
            Some(index) => Some(&self.files[index].1),
            None => None,
        }
    }

    /// Copies at most `most` bytes of a file from an offset to the start of `into`, and returns their number.
    pub fn read_at(
        &self,
        name: &[u8],
        from: u64,
        most: usize,
        into: &mut [u8],
    ) -> Result<usize, ShelfRefusal>
        requires room { 0 < length into.old }
        requires some { 0 < most }
        ensures bound { IfOk result (λ n. n ≤ length into.new) }
        ensures most { IfOk result (λ n. n ≤ most) }
        ensures bytes { IfOk result (λ n. HasPiece self.now name.now from (take n into.new)) }
        ensures allowed { OnOk result (AllowsReads (Some self.now) name.now) }
        ensures absent { IsErrOf result ShelfRefusal.Absent → LacksFile (Some self.now) name.now }
        ensures denied { IsErrOf result ShelfRefusal.Denied → DeniesReads (Some self.now) name.now }
        ensures others { IfErr result (λ why. (why ≡ ShelfRefusal.Absent) ⊎ (why ≡ ShelfRefusal.Denied)) }
    {
        let Some(bytes) = self.file(name) else {
            return Err(ShelfRefusal::Absent);
        };
        if is_listed(&self.no_reads, name) {
            return Err(ShelfRefusal::Denied);
        }
        let rest = bytes_from(bytes, from);
        Ok(copy_prefix(&rest[..rest.len().min(most)], into))
    }

    /// Sets the bytes of a file. A new name goes last.
    pub fn put(&mut self, name: &[u8], bytes: &[u8]) -> Result<(), PutRefusal>
        ensures done { OnOk result (file_of self.new name.now ≡ Some bytes.now) }
        ensures others { KeepsOthers (Some self.old) (Some self.new) name.now }
        ensures whole { OnOk result (self.new ≡ put_file self.old name.now bytes.now) }
        ensures allowed { OnOk result (AllowsWrites (Some self.old) name.now) }
        ensures denied { IsErrOf result PutRefusal.Denied → DeniesWrites (Some self.old) name.now }
        ensures refused { OnErr result (self.new ≡ self.old) }
        ensures no_fault { result ≢ Err PutRefusal.Failed }
    {
        if is_listed(&self.no_writes, name) {
            return Err(PutRefusal::Denied);
        }
        match put_bytes(&mut self.files, name, bytes) {
            Ok(()) => Ok(()),
            Err(_) => Err(PutRefusal::NoMemory),
        }
    }

    /// Closes a name for reading, for writing, or both.
    pub fn close(&mut self, name: &[u8], reads: bool, writes: bool) -> Result<(), AllocError>
        ensures closed { OnOk result (self.new ≡ close_file self.old name.now reads writes) }
        ensures refused { OnErr result (self.new ≡ self.old) }
    {
        let alloc = *self.files.allocator();
        let unread = Vec::from_slice(alloc, name)?;
        let unwritten = Vec::from_slice(alloc, name)?;
        self.no_reads.reserve(1)?;
        self.no_writes.reserve(1)?;
        if reads {
            self.no_reads.push(unread).unwrap();
        }
        if writes {
            self.no_writes.push(unwritten).unwrap();
        }
        Ok(())
    }
}
