//! A release that was refused.
use std::error::Error;
use std::fmt;

/// The stamp matches no held mode that the call releases (`IllegalMonitorStateException` in Java).
/// The lock is as it was; of a section, what its closure did stands.
#[derive(Clone, Copy, PartialEq, Eq, Debug, Drop)]
pub struct Mismatch;

impl fmt::Display for Mismatch {
    fn fmt<W: fmt::Write>(&self, f: &mut fmt::Formatter<W>) -> fmt::Result {
        write!(f, "the stamp matches no held mode that the call releases")
    }
}

impl Error for Mismatch {}
