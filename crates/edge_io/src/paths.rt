// The path that a put writes to.
use crate::repeat::repeated;
use std::fs::Metadata;
use std::io::ErrorKind;
use std::os::unix::fs::FileTypeExt;
use std::path::{Path, PathBuf};
use std::rt::Files;
use std::{fs, io, str};

/// The maximum number of links that are followed at the end of a path.
const MAX_LINKS: u32 = 40;

/// What a put writes to: a path that is no link, and what is there now.
#[derive(Drop)]
pub struct Target {
    pub path: PathBuf,
    pub now: Now,
}

/// What is at the path of a put.
#[derive(Drop)]
pub enum Now {
    /// No file.
    Nothing,
    /// A plain file.
    Plain(Metadata),
    /// A device, a pipe, or what lies below /dev or /proc: it is written in place.
    Device,
}

/// The name as text. The paths of std are text, so no other name reaches a file.
pub fn text_of(name: &[u8]) -> io::Result<&str> {
    str::from_utf8(name).map_err(|_| io::Error::from(ErrorKind::PermissionDenied))
}

/// The folder that contains the last part of the path.
pub fn folder_of(path: Path<'_>) -> Path<'_> {
    match path.parent() {
        Some(folder) if !folder.as_str().is_empty() => folder,
        _ => Path::new("."),
    }
}

fn is_below_devices(path: Path<'_>) -> bool {
    path.starts_with("/dev") || path.starts_with("/proc")
}

/// Whether the path lies below /dev or /proc. Links in the path of its folder are followed.
fn is_device_path<R: Files + AllocGlobal>(rt: &R, path: Path<'_>) -> io::Result<bool> {
    match repeated(|| fs::canonicalize(rt, folder_of(path))) {
        Ok(folder) => Ok(is_below_devices(folder.as_path())),
        Err(error) if error.kind() == ErrorKind::OutOfMemory => Err(error),
        Err(_) => Ok(is_below_devices(path)),
    }
}

/// What is at a path that is no link. A folder and a socket can't be written to.
fn now_at(found: Metadata) -> io::Result<Now> {
    let kind = found.file_type();
    if kind.is_dir() || kind.is_socket() {
        return Err(io::Error::from(ErrorKind::PermissionDenied));
    }
    if kind.is_file() {
        return Ok(Now::Plain(found));
    }
    Ok(Now::Device)
}

/// Follows the links at the end of a path. The last one may name no file.
pub fn find_target<R: Files + AllocGlobal>(rt: &R, name: &str) -> io::Result<Target> {
    let mut path = PathBuf::from_str(rt.alloc(), name)?;
    for _ in 0..=MAX_LINKS {
        if is_device_path(rt, path.as_path())? {
            return Ok(Target {
                path,
                now: Now::Device,
            });
        }
        let found = match repeated(|| fs::symlink_metadata(rt, path.as_path())) {
            Ok(found) => found,
            Err(error) if error.kind() == ErrorKind::NotFound => {
                return Ok(Target {
                    path,
                    now: Now::Nothing,
                });
            }
            Err(error) => return Err(error),
        };
        if !found.file_type().is_symlink() {
            let now = now_at(found)?;
            return Ok(Target { path, now });
        }
        let link = repeated(|| fs::read_link(rt, path.as_path()))?;
        path = folder_of(path.as_path()).join(rt.alloc(), link)?;
    }
    Err(io::Error::from(ErrorKind::FilesystemLoop))
}
