//! Where a command's line goes.

ghost use Rattle.std.specs.Prelude.{◌≡◌, ◌++◌, ◌∷◌, [], ◌<◌, ℕ, List, None, Option, Result, length};
ghost use Rattle.std.specs.Io.{WritesAtMost};
ghost use Rattle.std.specs.Io.KnownBytes.{WriteAppends};
ghost use Rattle.std.specs.declared.io.Error.{Error};
ghost use Rattle.stamp_cli.specs.KeptResults.{results_in};

use crate::kept_results::KeptResults;
use std::io::Write;
use std::{io, str};

/// Where a command writes its line to.
pub trait Sink {
    // The bytes that went out, where they are known.
    ghost sent: { Self → Option (List ℕ) };

    // The results of the writes so far.
    ghost writes: { Self → List (Result ℕ Error) };

    /// Writes the front of the bytes, and tells how many it took. There is a byte to take, so that
    /// a write that takes none has failed. After an error known bytes are as they were.
    fn write(&mut self, bytes: &[u8]) -> io::Result<usize>
        requires { 0 < length bytes.now }
        ensures kept { writes self.new ≡ writes self.old ++ result ∷ [] }
        ensures bound { WritesAtMost result bytes.now }
        ensures bytes { WriteAppends (sent self.old) (sent self.new) result bytes.now };
}

/// A writer of std as a `Sink`. Tested, not proved: a write is one write of its writer, and returns
/// its result. The results that contracts speak of take no memory.
#[derive(Drop)]
pub struct WriteSink<W> {
    writer: W,
    writes: KeptResults,
}

impl<W: Write> WriteSink<W> {
    /// A sink that has made no write yet.
    pub fn new(writer: W) -> Self
        ensures { result ≡ record { writer = writer; writes = KeptResults.Empty } }
    {
        WriteSink {
            writer,
            writes: KeptResults::Empty,
        }
    }
}

impl<W> WriteSink<W> {
    /// The writer, with what was written to it.
    pub fn into_inner(self) -> W
        ensures { result ≡ self.writer }
    {
        let WriteSink { writer, writes: _ } = self;
        writer
    }
}

impl<W: Write> Sink for WriteSink<W> {
    ghost sent = { λ sink. W.contents sink.writer };

    ghost writes = { λ sink. results_in sink.writes };

    fn write(&mut self, bytes: &[u8]) -> io::Result<usize> {
        let result = self.writer.write(bytes);
        self.writes.push(&result);
        result
    }
}

/// Standard error as a `Sink`. Tested, not proved: a write prints its bytes, if they are text, and else takes none.
#[derive(Drop)]
pub(crate) struct EprintSink<'a, P> {
    to: &'a P,
    writes: KeptResults,
}

impl<'a, P: Eprint> EprintSink<'a, P> {
    /// A sink that has made no write yet.
    pub(crate) fn new(to: &'a P) -> Self {
        EprintSink {
            to,
            writes: KeptResults::Empty,
        }
    }
}

/// Prints the bytes on standard error, if they are text, and tells how many it printed.
fn print_text<P: Eprint>(to: &P, bytes: &[u8]) -> io::Result<usize>
    ensures { WritesAtMost result bytes.now }
{
    let Ok(text) = str::from_utf8(bytes) else {
        return Ok(0);
    };
    to.eprint(text)?;
    Ok(bytes.len())
}

impl<P: Eprint> Sink for EprintSink<'_, P> {
    ghost sent = { λ sink. None };

    ghost writes = { λ sink. results_in sink.writes };

    fn write(&mut self, bytes: &[u8]) -> io::Result<usize> {
        let printed = print_text(self.to, bytes);
        self.writes.push(&printed);
        printed
    }
}
