// System calls that a signal may interrupt.
ghost use Rattle.std.specs.Io.{ReadsAtMost, WritesAtMost};
ghost use Rattle.std.specs.Prelude.{◌≡◌, ◌<◌, ◌≤◌, length};

use std::io;
use std::io::{ErrorKind, Read, Write};

/// The number of times that an interrupted call is repeated before it counts as a fault.
pub const REPEATS: u32 = 1000;

/// Makes a call, and repeats it if a signal interrupted it.
pub fn repeated<T, C: FnMut() -> io::Result<T>>(mut call: C) -> io::Result<T>
    requires { C.IsAlwaysCallable call }
{
    for _ in 0..REPEATS {
        match call() {
            Err(error) if error.kind() == ErrorKind::Interrupted => {}
            done => return done,
        }
    }
    call()
}

/// Reads, and repeats the call if a signal interrupted it.
pub fn read_some<F: Read>(file: &mut F, into: &mut [u8]) -> io::Result<usize>
    ensures { ReadsAtMost result into.new }
{
    for _ in 0..REPEATS {
        match file.read(into) {
            Err(error) if error.kind() == ErrorKind::Interrupted => {}
            done => return done,
        }
    }
    file.read(into)
}

/// Writes, and repeats the call if a signal interrupted it.
fn write_some<F: Write>(file: &mut F, bytes: &[u8]) -> io::Result<usize>
    ensures { WritesAtMost result bytes.now }
{
    for _ in 0..REPEATS {
        match file.write(bytes) {
            Err(error) if error.kind() == ErrorKind::Interrupted => {}
            done => return done,
        }
    }
    file.write(bytes)
}

/// Writes all the bytes. A call that takes none of them is an error.
pub fn write_whole<F: Write>(file: &mut F, bytes: &[u8]) -> io::Result<()> {
    let mut rest = bytes;
    while !rest.is_empty() {
        let count = write_some(file, rest)?;
        if count == 0 {
            return Err(io::Error::from(ErrorKind::WriteZero));
        }
        rest = &rest[count..];
    }
    Ok(())
}
