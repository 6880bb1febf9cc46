//! Why a call was not made by one try.

use std::error::Error;
use std::fmt;

/// Why a call was not made by one try: its exchange lost to another thread. That one had changed
/// the lock after the call's load, and the word that the exchange found doesn't answer the call
/// either: a change is due on it, too. (Where the word found answers the call, the call is made.)
/// The lock had these two words, one after the other. The call changed neither, and can be made
/// again.
#[derive(Clone, Copy, PartialEq, Eq, Debug, Drop)]
pub struct Lost {
    /// The word that the call's load found.
    pub loaded: u64,
    /// The word that its exchange found in place of that.
    pub found: u64,
}

impl fmt::Display for Lost {
    fn fmt<W: fmt::Write>(&self, f: &mut fmt::Formatter<W>) -> fmt::Result {
        let Lost { loaded, found } = self;
        write!(
            f,
            "the lock's word changed from {loaded} to {found} meanwhile: try again"
        )
    }
}

impl Error for Lost {}
