//! What orders read from and write to, in place of standard input and output. It takes no memory.
use std::io;
use std::io::{Read, Write};

/// What comes once all bytes are given.
#[derive(Clone, Copy)]
pub(crate) enum End {
    Over,
    Fault,
    /// Spaces, with no end.
    Spaces,
}

/// Gives its bytes one at a time, and then its end.
#[derive(Drop)]
pub(crate) struct Input<'a> {
    pub(crate) bytes: &'a [u8],
    pub(crate) end: End,
}

impl Read for Input<'_> {
    fn read(&mut self, buf: &mut [u8]) -> io::Result<usize> {
        if let (Some((first, others)), false) = (self.bytes.split_first(), buf.is_empty()) {
            buf[0] = *first;
            self.bytes = others;
            return Ok(1);
        }
        match self.end {
            End::Over => Ok(0),
            End::Fault => Err(io::Error::from(io::ErrorKind::Interrupted)),
            End::Spaces => {
                buf.fill(b' ');
                Ok(buf.len())
            }
        }
    }
}

/// The bytes that a page has at most.
pub(crate) const LARGE: usize = 512;

/// A page of so many bytes, or one that is shut and takes nothing.
#[derive(Drop)]
pub(crate) struct Page {
    bytes: [u8; LARGE],
    len: usize,
    most: usize,
    is_shut: bool,
}

impl Page {
    pub(crate) fn new(most: usize, is_shut: bool) -> Page {
        Page {
            bytes: [0; LARGE],
            len: 0,
            most,
            is_shut,
        }
    }

    pub(crate) fn written(&self) -> &[u8] {
        &self.bytes[..self.len.min(LARGE)]
    }
}

impl Write for Page {
    fn write(&mut self, buf: &[u8]) -> io::Result<usize> {
        if self.is_shut {
            return Err(io::Error::from(io::ErrorKind::Interrupted));
        }
        let Some(byte) = buf.first() else {
            return Ok(0);
        };
        if self.len >= self.most.min(LARGE) {
            return Ok(0);
        }
        self.bytes[self.len] = *byte;
        self.len += 1;
        Ok(1)
    }

    fn flush(&mut self) -> io::Result<()> {
        Ok(())
    }
}
