//! Where a command's input comes from.

ghost use Rattle.std.specs.Prelude.{◌≡◌, ◌++◌, ◌∷◌, [], ℕ, List, Option, Result};
ghost use Rattle.std.specs.Io.{ReadsAtMost};
ghost use Rattle.std.specs.Io.KnownBytes.{ReadConsumes};
ghost use Rattle.std.specs.declared.io.Error.{Error};
ghost use Rattle.stamp_cli.specs.KeptResults.{results_in};

use crate::kept_results::KeptResults;
use std::io;
use std::io::Read;

/// Where a command reads its input from.
pub trait Source {
    // The bytes that reads will give from here on, where they are known.
    ghost left: { Self → Option (List ℕ) };

    // The results of the reads so far.
    ghost reads: { Self → List (Result ℕ Error) };

    /// Reads bytes into the front of the buffer, and tells how many; 0 at the end. Where the bytes
    /// are known, 0 comes only at the end or where there is no room, and an error takes none.
    fn read(&mut self, buffer: &mut [u8]) -> io::Result<usize>
        ensures kept { reads self.new ≡ reads self.old ++ result ∷ [] }
        ensures bound { ReadsAtMost result buffer.new }
        ensures bytes { ReadConsumes (left self.old) (left self.new) result buffer.new };
}

/// A reader of std as a `Source`. Tested, not proved: a read is one read of its reader, and returns
/// its result. The results that contracts speak of take no memory.
#[derive(Drop)]
pub struct ReadSource<R> {
    reader: R,
    reads: KeptResults,
}

impl<R: Read> ReadSource<R> {
    /// A source that has made no read yet.
    pub fn new(reader: R) -> Self
        ensures { result ≡ record { reader = reader; reads = KeptResults.Empty } }
    {
        ReadSource {
            reader,
            reads: KeptResults::Empty,
        }
    }
}

impl<R: Read> Source for ReadSource<R> {
    ghost left = { λ source. R.remaining source.reader };

    ghost reads = { λ source. results_in source.reads };

    fn read(&mut self, buffer: &mut [u8]) -> io::Result<usize> {
        let result = self.reader.read(buffer);
        self.reads.push(&result);
        result
    }
}
