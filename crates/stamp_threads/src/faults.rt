//! Why a put or a get was refused.
ghost use Rattle.std.specs.Prelude.{◌≡◌};
ghost use Rattle.stamp_threads.specs.RecordCall.{fault_of};

use std::error::Error;
use std::fmt;

/// Why words were not put. The call changed no word, and its pass has made no call more.
#[derive(Clone, Copy, PartialEq, Eq, Debug, Drop)]
pub enum PutFault {
    /// 1: somebody else had write mode. The lock word was this one. Try again later.
    Busy(u64),
    /// 2: the exchange found another lock word than the load. Try again.
    Lost {
        /// The lock word that the load found.
        loaded: u64,
        /// The one that the exchange found in place of that.
        found: u64,
    },
    /// 3: as many puts were made as the limits have versions, and nobody had write mode. The lock
    /// word was this one. To put again is of no use.
    Spent(u64),
}

impl fmt::Display for PutFault {
    fn fmt<W: fmt::Write>(&self, f: &mut fmt::Formatter<W>) -> fmt::Result {
        match self {
            PutFault::Busy(word) => {
                write!(
                    f,
                    "somebody else is putting (lock word {word}): try again later"
                )
            }
            PutFault::Lost { loaded, found } => {
                write!(
                    f,
                    "the lock word changed from {loaded} to {found} meanwhile: try again"
                )
            }
            PutFault::Spent(word) => write!(f, "no version is left (lock word {word})"),
        }
    }
}

impl Error for PutFault {}

impl From<GetFault> for PutFault {
    ghost from_gives = { λ fault e. e ≡ fault_of fault };

    fn from(fault: GetFault) -> PutFault {
        match fault {
            GetFault::Busy(word) => PutFault::Busy(word),
            GetFault::Lost { loaded, found } => PutFault::Lost { loaded, found },
        }
    }
}

/// Why the words were not read. The get changed nothing, and its pass has made no call more. The
/// caller's words, where it gave some, may be any.
#[derive(Clone, Copy, PartialEq, Eq, Debug, Drop)]
pub enum GetFault {
    /// 1: somebody had write mode. The lock word was this one. Try again later.
    Busy(u64),
    /// 2: the second load of the lock word found another one than the first. Try again.
    Lost {
        /// The lock word that the first load found.
        loaded: u64,
        /// The one that the second load found in place of that.
        found: u64,
    },
}

impl fmt::Display for GetFault {
    fn fmt<W: fmt::Write>(&self, f: &mut fmt::Formatter<W>) -> fmt::Result {
        match self {
            GetFault::Busy(word) => {
                write!(f, "somebody is putting (lock word {word}): try again later")
            }
            GetFault::Lost { loaded, found } => {
                write!(
                    f,
                    "the lock word changed from {loaded} to {found} meanwhile: try again"
                )
            }
        }
    }
}

impl Error for GetFault {}
