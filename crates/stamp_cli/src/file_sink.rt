//! A file as a sink, made with its first byte.

ghost use Rattle.std.specs.Prelude.{◌≡◌, None};
ghost use Rattle.std.specs.Io.{WritesAtMost};
ghost use Rattle.stamp_cli.specs.KeptResults.{results_in};

use crate::kept_results::KeptResults;
use crate::sinks::Sink;
use std::io::Write;
use std::rt::Files;
use std::{fs, io};

/// A file as a `Sink`, if one is named. Tested, not proved: it is made at the first write, or emptied if it is there,
/// and each write is one write to it. Where none is named a write takes no byte.
#[derive(Drop)]
pub(crate) struct FileSink<'a, R: Files> {
    files: &'a R,
    path: Option<&'a str>,
    file: Option<R::File>,
    /// Whether a write failed or took no byte.
    has_failed: bool,
    writes: KeptResults,
}

/// Whether a write failed or took no byte.
fn takes_none(written: &io::Result<usize>) -> bool {
    match written {
        Ok(taken) => *taken == 0,
        Err(_) => true,
    }
}

impl<'a, R: Files> FileSink<'a, R> {
    /// A sink that has made no write yet.
    pub(crate) fn new(files: &'a R, path: Option<&'a str>) -> Self {
        FileSink {
            files,
            path,
            file: None,
            has_failed: false,
            writes: KeptResults::Empty,
        }
    }

    /// Whether a write failed, or took no byte.
    pub(crate) fn has_failed(&self) -> bool {
        self.has_failed
    }

    /// Makes the file, if it is named and wasn't made yet.
    fn make(&mut self) -> io::Result<()>
        ensures { self.new.writes ≡ self.old.writes }
    {
        if let (None, Some(path)) = (&self.file, self.path) {
            self.file = Some(fs::create(self.files, path)?);
        }
        Ok(())
    }

    /// Writes the front of the bytes, and tells how many.
    fn write_front(&mut self, bytes: &[u8]) -> io::Result<usize>
        ensures bound { WritesAtMost result bytes.now }
        ensures same { self.new.writes ≡ self.old.writes }
    {
        self.make()?;
        match &mut self.file {
            Some(file) => file.write(bytes),
            None => Ok(0),
        }
    }
}

impl<R: Files> Sink for FileSink<'_, R> {
    ghost sent = { λ sink. None };

    ghost writes = { λ sink. results_in sink.writes };

    fn write(&mut self, bytes: &[u8]) -> io::Result<usize> {
        let written = self.write_front(bytes);
        self.has_failed = takes_none(&written);
        self.writes.push(&written);
        written
    }
}
