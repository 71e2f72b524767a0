// The trusted edge: files named relative to the current folder.
ghost use Rattle.edge_io.specs.Causes.{HasPutCause, HasShelfCause, one_more};
ghost use Rattle.edge_io.specs.Files.{AllowsReads, AllowsWrites, HasPiece, Holds, IsBegun, IsPutTo};
ghost use Rattle.edge_io.specs.Outside.{untold, unexposed_put};
ghost use Rattle.std.specs.Io.{ReadsAtMost};
ghost use Rattle.std.specs.Prelude.{◌≡◌, ◌≢◌, ◌<◌, ◌++◌, [], List, ℕ, Some, None, false, true, length, take, IfOk, IfSome, IsErrOf, OnErr, OnOk};

use crate::opened::{Opened, read_file};
use crate::replacement::{Replacement, begin};
use crate::{PutRefusal, Shelf, ShelfRefusal};
use std::io::ErrorKind;
use std::marker::Model;
use std::rt::Files;

/// A file store over files named relative to the current folder. Contracts don't see the content of the files. A name
/// with `/` is a path.
///
/// # Reads
///
/// A read at the offset where the last read of the same name ended continues in the file that was opened then: one
/// system call. Every other read tests what kind of file it is, opens it, seeks and reads. The file stays open until
/// the next read at another offset or of another file, the next put, or the end of the file store.
///
/// - `Absent`: the system has no file of this name, no file can have this name, or a part of the path is a plain file.
/// - `Denied`: the name is a folder, a pipe or a socket, can't be sought, is in a cycle of links, or isn't UTF-8; or a
///   permission is missing.
///
/// # Puts
///
/// A put writes the bytes to a new file in the same folder, syncs it to the disk, and renames it over the old file. So
/// a reader, also after a power failure, finds the old bytes or all the new ones. The new file is named `new file N`.
/// It gets the owner, the group and the permissions of the old one as far as the system allows, and is removed if the
/// put fails. A process that is killed during a put leaves it behind. Other names of the old file by hard links keep
/// the old bytes, and its access control lists aren't copied.
///
/// - A link is followed and kept. If it names no file, that file is created.
/// - A device, a pipe and whatever lies below /dev or /proc is written in place, piece by piece. So a put to it that
///   fails may have written some of the bytes.
/// - `Denied`: the name is a folder or a socket, its folder doesn't exist or isn't a folder, the name can't be a file's
///   or isn't UTF-8, or it is in a cycle of links. It is also returned if a permission is missing, the file is busy (as
///   a program that runs), or the file system is read-only. A put needs permission to write the old file and to create
///   files in its folder.
///
/// # Failures
///
/// `NoMemory` is what the system reports as such. Any other error is a fault: a failing device, a full disk, too many
/// open files, and a call that signals interrupted 1,001 times in a row. Three calls are repeated by std without such a
/// limit: opening a file, changing its permissions, and syncing it to the disk.
#[derive(Drop)]
pub struct DirShelf<'a, R: Files + AllocGlobal> {
    rt: &'a R,
    opened: Option<Opened<R>>,
    begun: Option<Replacement<'a, R>>,
    faults: u64,
    wants: u64,
}

impl<'a, R: Files + AllocGlobal> Model for DirShelf<'a, R> {
    ghost use Rattle.std.specs.Prelude.{is_some};
    ghost use Rattle.edge_io.specs.Outside.{FolderState};

    ghost Value = { FolderState };

    ghost view = { λ s. record { begun = is_some s.begun; faults = s.faults; wants = s.wants } };
}

impl<'a, R: Files + AllocGlobal> DirShelf<'a, R> {
    /// The file store of the current folder, which hasn't failed yet.
    pub fn new(rt: &'a R) -> DirShelf<'a, R>
        ensures { result ≡ record { begun = false; faults = 0; wants = 0 } }
    {
        DirShelf {
            rt,
            opened: None,
            begun: None,
            faults: 0,
            wants: 0,
        }
    }
}

/// The error of a read.
fn refusal_of(kind: ErrorKind) -> ShelfRefusal {
    match kind {
        // A path below a plain file names no file either, nor does a name that no file can have.
        ErrorKind::NotFound
        | ErrorKind::NotADirectory
        | ErrorKind::InvalidFilename
        | ErrorKind::InvalidInput => ShelfRefusal::Absent,
        ErrorKind::PermissionDenied
        | ErrorKind::IsADirectory
        | ErrorKind::NotSeekable
        | ErrorKind::FilesystemLoop => ShelfRefusal::Denied,
        ErrorKind::OutOfMemory => ShelfRefusal::NoMemory,
        _ => ShelfRefusal::Failed,
    }
}

/// Counts a failed read, and returns its error.
fn refused(why: ShelfRefusal, faults: &mut u64, wants: &mut u64) -> Result<usize, ShelfRefusal>
    ensures same { result ≡ Err why }
    ensures cause { HasShelfCause faults.old faults.new wants.old wants.new result }
    ensures failed { why ≡ ShelfRefusal.Failed → (faults.new ≡ one_more faults.old) × (wants.new ≡ wants.old) }
    ensures want { why ≡ ShelfRefusal.NoMemory → (faults.new ≡ faults.old) × (wants.new ≡ one_more wants.old) }
{
    match why {
        ShelfRefusal::Failed => *faults = faults.saturating_add(1),
        ShelfRefusal::NoMemory => *wants = wants.saturating_add(1),
        ShelfRefusal::Absent | ShelfRefusal::Denied => {}
    }
    Err(why)
}

/// Counts the result of a put, and returns it.
fn counted(
    done: Result<(), PutRefusal>,
    faults: &mut u64,
    wants: &mut u64,
) -> Result<(), PutRefusal>
    ensures same { result ≡ done }
    ensures cause { HasPutCause faults.old faults.new wants.old wants.new result }
    ensures failed { IsErrOf done PutRefusal.Failed → (faults.new ≡ one_more faults.old) × (wants.new ≡ wants.old) }
    ensures want { IsErrOf done PutRefusal.NoMemory → (faults.new ≡ faults.old) × (wants.new ≡ one_more wants.old) }
{
    match done {
        Err(PutRefusal::Failed) => *faults = faults.saturating_add(1),
        Err(PutRefusal::NoMemory) => *wants = wants.saturating_add(1),
        Err(PutRefusal::Denied) | Ok(()) => {}
    }
    done
}

/// Puts a whole file.
fn put_whole<R: Files + AllocGlobal>(rt: &R, name: &[u8], bytes: &[u8]) -> Result<(), PutRefusal> {
    let mut new = begin(rt, name)?;
    new.append(bytes)?;
    new.end()
}

impl<'a, R: Files + AllocGlobal> Shelf for DirShelf<'a, R> {
    ghost files = { λ _. untold };

    ghost begun = { λ s. unexposed_put s.begun };

    ghost faults = { λ s. s.faults };

    ghost wants = { λ s. s.wants };

    fn read_at(&mut self, name: &[u8], from: u64, into: &mut [u8]) -> Result<usize, ShelfRefusal>
        requires { 0 < length into.old }
        ensures bound { ReadsAtMost result into.new }
        ensures bytes { IfOk result (λ n. IfSome None (λ all. HasPiece all name.now from (take n into.new))) }
        ensures allowed { OnOk result (AllowsReads None name.now) }
        ensures cause { HasShelfCause self.old.faults self.new.faults self.old.wants self.new.wants result }
        ensures begun { self.new.begun ≡ self.old.begun }
        ensures failed { IsErrOf result ShelfRefusal.Failed → self.new ≡ record self.old { faults = one_more self.old.faults } }
        ensures want { IsErrOf result ShelfRefusal.NoMemory → self.new ≡ record self.old { wants = one_more self.old.wants } }
    {
        let why = match read_file(self.rt, &mut self.opened, name, from, into) {
            Ok(count) => return Ok(count),
            Err(error) => refusal_of(error.kind()),
        };
        refused(why, &mut self.faults, &mut self.wants)
    }

    fn put(&mut self, name: &[u8], bytes: &[u8]) -> Result<(), PutRefusal>
        ensures done { OnOk result (Holds None name.now bytes.now) }
        ensures allowed { OnOk result (AllowsWrites None name.now) }
        ensures refused { OnErr result (untold ≡ untold) }
        ensures given_up { self.new.begun ≡ false }
        ensures cause { HasPutCause self.old.faults self.new.faults self.old.wants self.new.wants result }
        ensures failed { IsErrOf result PutRefusal.Failed → self.new ≡ record { begun = false; faults = one_more self.old.faults; wants = self.old.wants } }
        ensures want { IsErrOf result PutRefusal.NoMemory → self.new ≡ record { begun = false; faults = self.old.faults; wants = one_more self.old.wants } }
    {
        self.opened = None;
        self.begun = None;
        let done = put_whole(self.rt, name, bytes);
        counted(done, &mut self.faults, &mut self.wants)
    }

    fn begin(&mut self, name: &[u8]) -> Result<(), PutRefusal> {
        self.opened = None;
        self.begun = None;
        let done = match begin(self.rt, name) {
            Ok(new) => {
                self.begun = Some(new);
                Ok(())
            }
            Err(why) => Err(why),
        };
        counted(done, &mut self.faults, &mut self.wants)
    }

    fn append(&mut self, bytes: &[u8]) -> Result<(), PutRefusal> {
        let Some(mut new) = self.begun.take() else {
            return Ok(());
        };
        let done = new.append(bytes);
        if done.is_ok() {
            self.begun = Some(new);
        }
        counted(done, &mut self.faults, &mut self.wants)
    }

    fn end(&mut self) -> Result<(), PutRefusal> {
        let Some(new) = self.begun.take() else {
            return Ok(());
        };
        let done = new.end();
        counted(done, &mut self.faults, &mut self.wants)
    }
}
