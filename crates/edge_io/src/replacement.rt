// A new file that replaces an old one.
ghost use Rattle.std.specs.Prelude.{◌≢◌, Err};

use crate::PutRefusal;
use crate::paths::{Now, Target, find_target, folder_of, text_of};
use crate::repeat::{repeated, write_whole};
use std::fs::{Metadata, OpenFile, OpenOptions, Permissions};
use std::io::ErrorKind;
use std::os::unix::fs::{MetadataExt, OpenOptionsExt, PermissionsExt, lchown};
use std::path::{Path, PathBuf};
use std::rt::Files;
use std::{fs, io};

/// The maximum number of names that are tried for a new file.
const MAX_NAMES: u32 = 1000;

/// The permissions of a new file that replaces no old one, less those that the system's mask removes.
const NEW_MODE: u32 = 0o666;

/// The permissions of a new file until it gets those of the old one.
const PRIVATE_MODE: u32 = 0o600;

/// The bits of a mode that say who may read, write and execute a file.
const RIGHTS: u32 = 0o777;

/// A file that is being written in the same folder as the one that it replaces at the end. It is removed if it is
/// dropped earlier.
pub struct Replacement<'a, R: Files + AllocGlobal> {
    rt: &'a R,
    file: R::File,
    path: PathBuf,

    // The path of the new file until the end. A file that is written in place has none.
    beside: Option<PathBuf>,
}

impl<'a, R: Files + AllocGlobal> Drop for Replacement<'a, R> {
    fn drop(self) {
        let Replacement {
            rt,
            file: _,
            path: _,
            beside,
        } = self;
        if let Some(beside) = beside {
            let _ = repeated(|| fs::remove_file(rt, beside.as_path()));
        }
    }
}

/// The error if a name can't be reached for writing.
fn out_of_reach(error: io::Error) -> PutRefusal {
    match error.kind() {
        ErrorKind::NotFound
        | ErrorKind::NotADirectory
        | ErrorKind::IsADirectory
        | ErrorKind::PermissionDenied
        | ErrorKind::ReadOnlyFilesystem
        | ErrorKind::FilesystemLoop
        | ErrorKind::InvalidFilename
        | ErrorKind::InvalidInput
        | ErrorKind::InvalidData
        | ErrorKind::ResourceBusy
        | ErrorKind::ExecutableFileBusy => PutRefusal::Denied,
        ErrorKind::OutOfMemory => PutRefusal::NoMemory,
        _ => PutRefusal::Failed,
    }
}

/// The error if a file that was reached doesn't take its bytes.
fn not_written(error: io::Error) -> PutRefusal
    ensures { result ≢ PutRefusal.Denied }
{
    if error.kind() == ErrorKind::OutOfMemory {
        return PutRefusal::NoMemory;
    }
    PutRefusal::Failed
}

/// Fails if the old file may not be written to. Without this test it could be replaced by anyone who may write to its
/// folder.
fn check_rights<R: Files>(rt: &R, path: Path<'_>) -> io::Result<()> {
    let _file = OpenOptions::new().write(true).open(rt, path)?;
    Ok(())
}

/// Creates a new file in the folder of a path, under a name with spaces that no file has.
fn create_beside<R: Files + AllocGlobal>(
    rt: &R,
    path: Path<'_>,
    mode: u32,
) -> io::Result<(R::File, PathBuf)> {
    let mut options = OpenOptions::new();
    options.write(true).create_new(true).mode(mode);
    for number in 1..=MAX_NAMES {
        let name = format!(in rt.alloc(); "new file {number}")?;
        let beside = folder_of(path).join(rt.alloc(), name)?;
        match options.open(rt, beside.as_path()) {
            Ok(file) => return Ok((file, beside)),
            Err(error) if error.kind() == ErrorKind::AlreadyExists => {}
            Err(error) => return Err(error),
        }
    }
    Err(io::Error::from(ErrorKind::AlreadyExists))
}

/// Sets the owner, the group and the permissions of a new file to those of an old one, as far as the system allows.
fn take_rights<R: Files>(rt: &R, file: &R::File, path: Path<'_>, old: &Metadata) {
    let group = Some(old.gid());
    if repeated(|| lchown(rt, path, Some(old.uid()), group)).is_err() {
        let _ = repeated(|| lchown(rt, path, None, group));
    }
    let _ = file.set_permissions(Permissions::from_mode(old.mode() & RIGHTS));
}

/// Opens a file that is written in place.
fn open_device<R: Files + AllocGlobal>(rt: &R, path: PathBuf) -> io::Result<Replacement<'_, R>> {
    let file = fs::create(rt, path.as_path())?;
    Ok(Replacement {
        rt,
        file,
        path,
        beside: None,
    })
}

fn begin_at<R: Files + AllocGlobal>(rt: &R, target: Target) -> io::Result<Replacement<'_, R>> {
    let Target { path, now } = target;
    let old = match now {
        Now::Device => return open_device(rt, path),
        Now::Nothing => None,
        Now::Plain(old) => Some(old),
    };
    let mode = if old.is_some() {
        PRIVATE_MODE
    } else {
        NEW_MODE
    };
    if old.is_some() {
        check_rights(rt, path.as_path())?;
    }
    let (file, beside) = create_beside(rt, path.as_path(), mode)?;
    if let Some(old) = &old {
        take_rights(rt, &file, beside.as_path(), old);
    }
    Ok(Replacement {
        rt,
        file,
        path,
        beside: Some(beside),
    })
}

/// Syncs a file to the disk, if its file system can.
fn sync<F: OpenFile>(file: &F) -> io::Result<()> {
    match file.sync_all() {
        Err(error) if error.kind() == ErrorKind::InvalidInput => Ok(()),
        done => done,
    }
}

/// Syncs the entries of a folder to the disk, if the system can.
fn sync_folder<R: Files>(rt: &R, folder: Path<'_>) {
    if let Ok(folder) = fs::open(rt, folder) {
        let _ = folder.sync_all();
    }
}

/// Begins a put to the file of this name.
pub fn begin<'a, R: Files + AllocGlobal>(
    rt: &'a R,
    name: &[u8],
) -> Result<Replacement<'a, R>, PutRefusal> {
    let text = text_of(name).map_err(out_of_reach)?;
    let target = find_target(rt, text).map_err(out_of_reach)?;
    begin_at(rt, target).map_err(out_of_reach)
}

impl<'a, R: Files + AllocGlobal> Replacement<'a, R> {
    /// Writes more bytes.
    pub fn append(&mut self, bytes: &[u8]) -> Result<(), PutRefusal>
        ensures { result ≢ Err PutRefusal.Denied }
    {
        match write_whole(&mut self.file, bytes) {
            Ok(()) => Ok(()),
            Err(error) => Err(not_written(error)),
        }
    }

    /// Replaces the old file, once the bytes are on the disk.
    pub fn end(mut self) -> Result<(), PutRefusal> {
        let Some(beside) = &self.beside else {
            return Ok(());
        };
        sync(&self.file).map_err(not_written)?;
        repeated(|| fs::rename(self.rt, beside.as_path(), self.path.as_path())).map_err(
            out_of_reach,
        )?;
        self.beside = None;
        sync_folder(self.rt, folder_of(self.path.as_path()));
        Ok(())
    }
}
