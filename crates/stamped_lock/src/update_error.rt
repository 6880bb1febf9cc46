//! Why an update put nothing.
use std::error::Error;
use std::fmt;

/// Why an update that may decline put nothing. The record is as it was.
#[derive(Clone, Copy, PartialEq, Eq, Debug, Drop)]
pub enum UpdateError<T> {
    /// 1: the closure declined this value, which the record held.
    Declined(T),
    /// 2: no version is left to put words.
    Spent,
}

impl<T> fmt::Display for UpdateError<T> {
    fn fmt<W: fmt::Write>(&self, f: &mut fmt::Formatter<W>) -> fmt::Result {
        match self {
            UpdateError::Declined(_) => write!(f, "the update declined the value"),
            UpdateError::Spent => write!(f, "no version is left to put words"),
        }
    }
}

impl<T: fmt::Debug + Drop> Error for UpdateError<T> {}
