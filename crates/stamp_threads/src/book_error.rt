//! Why a book refuses.
ghost use Rattle.std.specs.Prelude.{◌≡◌};

use std::alloc::{AllocError, AllocFailed};
use std::error::Error;
use std::fmt;

/// Why a book refuses a call, or a copy of its history. The book is as before: no entry was made.
/// Of a call they come in this order: 3, 1, 2.
#[derive(Clone, Copy, PartialEq, Eq, Debug, Drop)]
pub enum BookError {
    /// 1: the call can be made, and the book has as many entries as it may have. It stays so: a call
    /// that releases is refused, too.
    Full,
    /// 2: an allocation was refused. The call can be made again.
    Memory,
    /// 3: the call waits for others, whether the book is full or not.
    Waits,
}

impl fmt::Display for BookError {
    fn fmt<W: fmt::Write>(&self, f: &mut fmt::Formatter<W>) -> fmt::Result {
        match self {
            BookError::Full => write!(f, "the book is full"),
            BookError::Memory => write!(f, "out of memory"),
            BookError::Waits => write!(f, "the call would wait"),
        }
    }
}

impl Error for BookError {}

impl From<AllocError> for BookError {
    ghost use Rattle.stamp_threads.specs.declared.book_error.BookError.TheVariants.{Memory};

    ghost from_gives = { λ _ e. e ≡ Memory };

    fn from(_refused: AllocError) -> BookError {
        BookError::Memory
    }
}

impl<T: Drop> From<AllocFailed<T>> for BookError {
    ghost use Rattle.stamp_threads.specs.declared.book_error.BookError.TheVariants.{Memory};

    ghost from_gives = { λ _ e. e ≡ Memory };

    fn from(_refused: AllocFailed<T>) -> BookError {
        BookError::Memory
    }
}
