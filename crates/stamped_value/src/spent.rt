//! Why a section in write mode has no answer.
use std::error::Error;
use std::fmt;

/// No version is left: as many writers came as the lock's limits have versions, and write mode can't be
/// acquired any more.
#[derive(Clone, Copy, PartialEq, Eq, Debug, Drop)]
pub struct Spent;

impl fmt::Display for Spent {
    fn fmt<W: fmt::Write>(&self, f: &mut fmt::Formatter<W>) -> fmt::Result {
        write!(f, "the lock has no version left to write")
    }
}

impl Error for Spent {}
