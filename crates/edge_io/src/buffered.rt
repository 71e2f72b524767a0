// A sink that buffers bytes for another sink until it is flushed.
ghost use Rattle.edge_io.specs.Buffered.{most_kept};
ghost use Rattle.edge_io.specs.Causes.{HasWriteCause};
ghost use Rattle.std.specs.Io.KnownBytes.{Appends, Keeps, WriteAppends, append_known};
ghost use Rattle.std.specs.Prelude.{◌≡◌, ◌<◌, ◌≤◌, ◌+◌, ◌++◌, [], length, take, IfOk, OnErr, OnOk, vec_capacity};

use crate::{Sink, WriteRefusal};
use std::alloc::{AllocError, Global};
use std::marker::Model;

/// The size of the buffer, in bytes.
const BUFFER_SIZE: usize = 16_384;

/// A sink that buffers at most 16,384 bytes for another sink. Its bytes are those of the inner sink, followed by the
/// buffered ones.
///
/// A piece is buffered if the buffer has room for all of it. Otherwise the buffered bytes first go to the inner sink,
/// and a piece larger than the buffer then goes there directly. `new` allocates the buffer, so `write` and `flush`
/// allocate nothing themselves. Faults and allocation failures are those of the inner sink.
#[derive(Drop)]
pub struct BufferedSink<K: Sink> {
    inner: K,
    kept: Vec<u8>,
}

impl<K: Sink> Model for BufferedSink<K> {
    ghost use Rattle.std.specs.Prelude.{◌≤◌, length, vec_capacity};
    ghost use Rattle.edge_io.specs.Buffered.{BufferedOutput, buffered_code, most_kept};

    ghost Value = { BufferedOutput K };

    ghost coded = { buffered_code K.code };

    ghost view = { λ s. record { inner = s.inner; kept = s.kept.items } };

    ghost invariant = { λ s. (length s.kept.items ≤ most_kept) × (most_kept ≤ vec_capacity s.kept) };
}

/// Sends bytes to a sink, and removes the prefix that was sent.
fn send<K: Sink>(sink: &mut K, kept: &mut Vec<u8>) -> Result<(), WriteRefusal>
    ensures all { OnOk result (Appends (K.written sink.old) (K.written sink.new) kept.old.items × (kept.new.items ≡ [])) }
    ensures kept { Keeps (append_known (K.written sink.old) kept.old.items) (append_known (K.written sink.new) kept.new.items) }
    ensures room { vec_capacity kept.old ≤ vec_capacity kept.new }
    ensures size { length kept.new.items ≤ length kept.old.items }
    ensures cause { HasWriteCause (K.faults sink.old) (K.faults sink.new) (K.wants sink.old) (K.wants sink.new) result }
{
    let mut sent = 0;
    let done = send_from(sink, kept, &mut sent);
    kept.rotate_left(sent);
    kept.truncate(kept.len() - sent);
    done
}

/// Sends bytes to a sink from the first on, and counts those that were sent.
fn send_from<K: Sink>(sink: &mut K, bytes: &[u8], sent: &mut usize) -> Result<(), WriteRefusal>
    requires { sent.old ≡ 0 }
    ensures all { OnOk result (sent.new ≡ length bytes.now) }
    ensures bound { sent.new ≤ length bytes.now }
    ensures bytes { Appends (K.written sink.old) (K.written sink.new) (take sent.new bytes.now) }
    ensures cause { HasWriteCause (K.faults sink.old) (K.faults sink.new) (K.wants sink.old) (K.wants sink.new) result }
{
    while *sent < bytes.len() {
        *sent += sink.write(&bytes[*sent..])?;
    }
    Ok(())
}

impl<K: Sink> BufferedSink<K> {
    /// A sink in front of this one, with an empty buffer. Allocates the buffer.
    pub fn new(alloc: Global, inner: K) -> Result<BufferedSink<K>, AllocError>
    where
        K: Drop,
        ensures { IfOk result (λ sink. sink ≡ record { inner = inner; kept = [] }) }
    {
        let kept = Vec::with_capacity(alloc, BUFFER_SIZE)?;
        Ok(BufferedSink { inner, kept })
    }

    /// The inner sink, which has the bytes that were sent.
    pub fn inner(&self) -> &K
        ensures { result.now ≡ self.now.inner }
    {
        &self.inner
    }
}

impl<K: Sink> Sink for BufferedSink<K> {
    ghost use Rattle.std.specs.Prelude.{◌+◌, length};

    ghost written = { λ s. append_known (K.written s.inner) s.kept };

    ghost kept = { λ s. K.kept s.inner + length s.kept };

    ghost faults = { λ s. K.faults s.inner };

    ghost wants = { λ s. K.wants s.inner };

    fn write(&mut self, piece: &[u8]) -> Result<usize, WriteRefusal>
        requires { 0 < length piece.now }
        ensures some { IfOk result (λ n. 0 < n) }
        ensures bound { IfOk result (λ n. n ≤ length piece.now) }
        ensures bytes { WriteAppends (append_known (K.written self.old.inner) self.old.kept) (append_known (K.written self.new.inner) self.new.kept) result piece.now }
        ensures cause { HasWriteCause (K.faults self.old.inner) (K.faults self.new.inner) (K.wants self.old.inner) (K.wants self.new.inner) result }
        ensures room { length self.new.kept ≤ most_kept }
        ensures fits { length self.old.kept + length piece.now ≤ most_kept → (result ≡ Ok (length piece.now)) × (self.new ≡ record self.old { kept = self.old.kept ++ piece.now }) }
        ensures full { most_kept < length self.old.kept + length piece.now → length piece.now ≤ most_kept → IfOk result (λ n. (n ≡ length piece.now) × (self.new.kept ≡ piece.now)) }
        ensures large { most_kept < length piece.now → OnOk result (self.new.kept ≡ []) }
    {
        if piece.len() > BUFFER_SIZE - self.kept.len() {
            send(&mut self.inner, &mut self.kept)?;
        }
        if piece.len() > BUFFER_SIZE {
            return self.inner.write(piece);
        }
        self.kept.extend_from_slice(piece).unwrap();
        Ok(piece.len())
    }

    fn flush(&mut self) -> Result<(), WriteRefusal>
        ensures bytes { Keeps (append_known (K.written self.old.inner) self.old.kept) (append_known (K.written self.new.inner) self.new.kept) }
        ensures sent { OnOk result (K.kept self.new.inner + length self.new.kept ≡ 0) }
        ensures cause { HasWriteCause (K.faults self.old.inner) (K.faults self.new.inner) (K.wants self.old.inner) (K.wants self.new.inner) result }
        ensures room { length self.new.kept ≤ length self.old.kept }
    {
        send(&mut self.inner, &mut self.kept)?;
        self.inner.flush()
    }
}
