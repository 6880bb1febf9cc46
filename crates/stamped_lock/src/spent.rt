//! Why words can't be put any more.
use std::error::Error;
use std::fmt;

/// As many puts were made as the record's limits have versions. Nothing was put, and nothing will be.
#[derive(Clone, Copy, PartialEq, Eq, Debug, Drop)]
pub struct Spent;

impl fmt::Display for Spent {
    fn fmt<W: fmt::Write>(&self, f: &mut fmt::Formatter<W>) -> fmt::Result {
        write!(f, "no version is left to put words")
    }
}

impl Error for Spent {}
