//! The fields of an image, read from the start of its bytes.
ghost use Rattle.slp_image.specs.Fields.{byte_at, number_at, bytes_at, child_at, children_at};
ghost use Rattle.slp_image.specs.Image.{is_magic, version_of, version_at};
ghost use Rattle.slp_image.specs.Reads.{Gives};
ghost use Rattle.std.specs.Prelude.{◌≡◌, ◌^◌, ◌<◌, IfOk};

use crate::refusal::ImageRefusal;
use byteorder::{BigEndian, ByteOrder};

// Each image begins with these bytes.
const MAGIC: [u8; 4] = *b"SLPI";

/// Reads a byte. Returns it and the bytes after it.
pub(crate) fn byte(bytes: &[u8]) -> Result<(u8, &[u8]), ImageRefusal>
    ensures { Gives (λ x. (x.0, x.1.now)) result (byte_at bytes.now) }
{
    match bytes {
        [] => Err(ImageRefusal::Cut),
        [b, rest @ ..] => Ok((*b, rest)),
    }
}

/// Reads a number of eight bytes, big-endian. Returns it and the bytes after it.
pub(crate) fn number(bytes: &[u8]) -> Result<(u64, &[u8]), ImageRefusal>
    ensures read { Gives (λ x. (x.0, x.1.now)) result (number_at bytes.now) }
    ensures fits { IfOk result (λ x. x.0 < 2 ^ 64) }
{
    if bytes.len() < 8 {
        return Err(ImageRefusal::Cut);
    }
    let (prefix, rest) = bytes.split_at(8);
    Ok((BigEndian::read_u64(prefix), rest))
}

/// Reads `len` bytes. Returns them and the bytes after them.
pub(crate) fn slice(bytes: &[u8], len: usize) -> Result<(&[u8], &[u8]), ImageRefusal>
    ensures { Gives (λ x. (x.0.now, x.1.now)) result (bytes_at len bytes.now) }
{
    if bytes.len() < len {
        return Err(ImageRefusal::Cut);
    }
    Ok(bytes.split_at(len))
}

/// Reads the number of a record before record `own`. Returns it and the bytes after it.
#[tactic(auto, unfolding(crate::specs::Fields::child_at))]
pub(crate) fn child(bytes: &[u8], own: usize) -> Result<(usize, &[u8]), ImageRefusal>
    ensures read { Gives (λ x. (x.0, x.1.now)) result (child_at own bytes.now) }
    ensures below { IfOk result (λ x. x.0 < own) }
{
    let (index, rest) = number(bytes)?;
    if index >= own as u64 {
        return Err(ImageRefusal::Child);
    }
    Ok((index as usize, rest))
}

/// Reads the numbers of two records before record `own`. Returns them and the bytes after them.
#[tactic(auto, unfolding(crate::specs::Fields::children_at))]
pub(crate) fn children(bytes: &[u8], own: usize) -> Result<(usize, usize, &[u8]), ImageRefusal>
    ensures read { Gives (λ x. ((x.0, x.1), x.2.now)) result (children_at own bytes.now) }
    ensures left { IfOk result (λ x. x.0 < own) }
    ensures right { IfOk result (λ x. x.1 < own) }
{
    let (left, after) = child(bytes, own)?;
    let (right, rest) = child(after, own)?;
    Ok((left, right, rest))
}

// Reads the version, which follows the magic bytes.
#[tactic(auto, unfolding(crate::specs::Image::version_of))]
fn version_byte(bytes: &[u8]) -> Result<(u8, &[u8]), ImageRefusal>
    ensures { Gives (λ x. (x.0, x.1.now)) result (version_of bytes.now) }
{
    let (version, rest) = byte(bytes)?;
    if version != 1 && version != 2 {
        return Err(ImageRefusal::Version);
    }
    Ok((version, rest))
}

/// Whether the bytes are the four magic bytes `SLPI`.
pub(crate) fn is_magic(bytes: &[u8]) -> bool
    ensures { result ≡ is_magic bytes.now }
{
    bytes == MAGIC.as_slice()
}

/// Reads the magic bytes and the version, which is 1 or 2.
#[tactic(auto, unfolding(crate::specs::Image::version_at))]
pub(crate) fn version(bytes: &[u8]) -> Result<(u8, &[u8]), ImageRefusal>
    ensures { Gives (λ x. (x.0, x.1.now)) result (version_at bytes.now) }
{
    let (magic, rest) = slice(bytes, 4)?;
    if !is_magic(magic) {
        return Err(ImageRefusal::Magic);
    }
    version_byte(rest)
}
