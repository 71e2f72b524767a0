//! The other side of a conversation.
ghost use Rattle.edge_io.specs.Causes.{HasCause};
ghost use Rattle.span_talk.specs.Talk.{Moment, Notes, moment};
ghost use Rattle.std.specs.Io.KnownBytes.{ReadConsumes};
ghost use Rattle.std.specs.Io.{ReadsAtMost};
ghost use Rattle.std.specs.Prelude.{◌≡◌, ◌<◌, List, ℕ, None, length};
ghost use Rattle.std.specs.declared.option.Option.{Option};

use edge_io::{Failed, Sink, Source};
use itoa::Buffer;
use std::io::Write;
use std::marker::Model;

/// A client sends lines, and reads their replies from a sink.
///
/// A client counts its failures. A call returns `Failed` only if it increased this count.
pub trait Client<K: Sink> {
    /// The bytes that the client has yet to send, if they are observable.
    ghost left: { Self → Option (List ℕ) };

    /// The number of its failures.
    ghost faults: { Self → ℕ };

    /// For each earlier call to `hear`, if this is observable: the bytes left to send, the bytes written, and the line
    /// number passed.
    ghost moments: { Self → Option (List Moment) };

    /// Waits for the next bytes, writes them to the start of `into`, which isn't empty, and returns their number, like
    /// `Source::read`. `number` is the number of the line that comes next, and `said` is the sink with the replies so
    /// far.
    fn hear(&mut self, number: u64, said: &K, into: &mut [u8]) -> Result<usize, Failed>
        requires { 0 < length into.old }
        ensures bound { ReadsAtMost result into.new }
        ensures bytes { ReadConsumes (left self.old) (left self.new) result into.new }
        ensures cause { HasCause (faults self.old) (faults self.new) result }
        ensures moment { Notes (moments self.old) (moments self.new) (moment (left self.old) (K.written said.now) number) };
}

/// A client whose bytes come from a source. It writes a prompt for each line to `prompts`, if there is one, such as a
/// terminal. A failure to write a prompt is ignored.
#[derive(Drop)]
pub struct Listener<S: Source, W: Write> {
    source: S,
    prompts: Option<W>,
    prompted: u64,
}

impl<S: Source, W: Write> Model for Listener<S, W> {
    ghost use Rattle.edge_io.specs.Outside.{ReaderInput};

    ghost Value = { ReaderInput };

    ghost view = { λ s. record { left = S.left s.source; faults = S.faults s.source } };
}

impl<S: Source, W: Write> Listener<S, W> {
    /// A client whose bytes come from this source, with a writer for prompts or none.
    pub fn new(source: S, prompts: Option<W>) -> Listener<S, W>
        ensures { result ≡ record { left = S.left source; faults = S.faults source } }
    {
        Listener {
            source,
            prompts,
            prompted: 0,
        }
    }
}

/// Writes the prompt for the line with this number, such as `3> `.
fn prompt<W: Write>(prompts: &mut W, number: u64) {
    let mut buffer = Buffer::new();
    let _ = prompts.write_all(buffer.format(number).as_bytes());
    let _ = prompts.write_all(b"> ");
}

impl<S: Source, W: Write, K: Sink> Client<K> for Listener<S, W> {
    ghost left = { λ s. s.left };

    ghost faults = { λ s. s.faults };

    ghost moments = { λ _. None };

    fn hear(&mut self, number: u64, _said: &K, into: &mut [u8]) -> Result<usize, Failed> {
        if let Some(prompts) = &mut self.prompts {
            if self.prompted != number {
                prompt(prompts, number);
                self.prompted = number;
            }
        }
        self.source.read(into)
    }
}
