// An open file in which reads continue.
ghost use Rattle.std.specs.Io.{ReadsAtMost};
ghost use Rattle.std.specs.Prelude.{◌≡◌, ◌<◌, ◌≤◌, length};

use crate::paths::text_of;
use crate::repeat::{read_some, repeated};
use std::io::{ErrorKind, Seek, SeekFrom};
use std::os::unix::fs::FileTypeExt;
use std::rt::Files;
use std::{fs, io};

/// An open file, the name that it was opened by, and the offset where the last read of it ended.
#[derive(Drop)]
pub struct Opened<R: Files> {
    file: R::File,
    name: Vec<u8>,
    at: u64,
}

/// Fails for what can't be read at an offset. It is called before a file is opened, since opening a pipe waits for a
/// writer.
fn check_kind<R: Files>(rt: &R, path: &str) -> io::Result<()> {
    let kind = repeated(|| fs::metadata(rt, path))?.file_type();
    if kind.is_dir() || kind.is_fifo() || kind.is_socket() {
        return Err(io::Error::from(ErrorKind::PermissionDenied));
    }
    Ok(())
}

/// Seeks to an offset. If the system has no such offset, seeks to the end, since no byte is left there either.
fn go_to<F: Seek>(file: &mut F, from: u64) -> io::Result<()> {
    match repeated(|| file.seek(SeekFrom::Start(from))) {
        Ok(_) => Ok(()),
        Err(error) if error.kind() == ErrorKind::InvalidInput => {
            repeated(|| file.seek(SeekFrom::End(0)))?;
            Ok(())
        }
        Err(error) => Err(error),
    }
}

/// Opens the file of this name at an offset.
fn open_at<R: Files + AllocGlobal>(rt: &R, name: &[u8], from: u64) -> io::Result<Opened<R>> {
    let path = text_of(name)?;
    check_kind(rt, path)?;
    let mut file = fs::open(rt, path)?;
    go_to(&mut file, from)?;
    let name = Vec::from_slice(rt.alloc(), name)?;
    Ok(Opened {
        file,
        name,
        at: from,
    })
}

/// Reads bytes of a file at an offset. If the last read of this name ended there, it continues in the file that was
/// opened then. Otherwise it opens the file.
pub fn read_file<R: Files + AllocGlobal>(
    rt: &R,
    last: &mut Option<Opened<R>>,
    name: &[u8],
    from: u64,
    into: &mut [u8],
) -> io::Result<usize>
    ensures { ReadsAtMost result into.new }
{
    let mut opened = match last.take() {
        Some(opened) => {
            if opened.at == from && opened.name.as_slice() == name {
                opened
            } else {
                open_at(rt, name, from)?
            }
        }
        None => open_at(rt, name, from)?,
    };
    let count = read_some(&mut opened.file, into)?;
    opened.at = from.saturating_add(count as u64);
    *last = Some(opened);
    Ok(count)
}
