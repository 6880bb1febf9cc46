//! The structs that C passes and gets, and how results are written into them.
ghost use Rattle.std.specs.Prelude.{◌≡◌};
ghost use Rattle.stamped_c.specs.Codes.{reply_number, replied_in_c, unreplied_in_c, made_in_c, error_code, kind_in_c};

use crate::error::CError;
use stamp_core::{LockDecision, LockReply, StampKind};

/// A lock's layout and limits, as C gives them (`struct stamped_limits`).
#[repr(C)]
#[derive(Clone, Copy)]
pub struct CLimits {
    /// The number of the layout: 1 or 2.
    pub layout: u32,
    /// The most readers at a time: 1 to 127, in layout 2 to 65,535.
    pub readers: u32,
    /// The most write acquisitions in all: 0 to 2^55-2, in layout 2 to 2^46-2.
    pub versions: u64,
}

/// What a call does (`struct stamped_decision`).
#[repr(C)]
#[derive(Clone, Copy)]
pub struct CDecision {
    /// The number of the lock's word afterwards; or, below 256, a wait (16) or an error.
    pub word: u64,
    /// The reply as a number; 0 where there is none.
    pub reply: u64,
}

/// What a number is as a stamp (`struct stamped_kind`).
#[repr(C)]
#[derive(Clone, Copy)]
pub struct CKind {
    /// A kind, or an error.
    pub kind: u32,
    /// How many write acquisitions came before it was issued, its own included.
    pub version: u64,
    /// Of a read stamp, the number of readers with the one who got it.
    pub readers: u64,
}

#[inline(always)]
fn reply_number(reply: LockReply) -> u64
    ensures { result ≡ reply_number reply }
{
    match reply {
        LockReply::Stamp(number) | LockReply::Count(number) => number,
        LockReply::Yes | LockReply::Done => 1,
        LockReply::No | LockReply::Mismatch => 0,
    }
}

impl CDecision {
    /// The error of what was given.
    #[cold]
    #[inline(never)]
    pub(crate) fn error(error: CError) -> CDecision
        ensures { result ≡ unreplied_in_c (error_code error) }
    {
        CDecision::unreplied(u64::from(error.code()))
    }

    /// The decision on the word of this number.
    #[inline(always)]
    pub(crate) fn made(word: u64, decision: LockDecision) -> CDecision
        ensures { result ≡ made_in_c word decision }
    {
        match decision {
            LockDecision::Answer(reply) => CDecision::replied(word, reply),
            LockDecision::Change(next, reply) => CDecision::replied(next.bits(), reply),
            LockDecision::Wait => CDecision::unreplied(16),
        }
    }

    #[inline(always)]
    fn replied(word: u64, reply: LockReply) -> CDecision
        ensures { result ≡ replied_in_c word reply }
    {
        CDecision {
            word,
            reply: reply_number(reply),
        }
    }

    fn unreplied(word: u64) -> CDecision
        ensures { result ≡ unreplied_in_c word }
    {
        CDecision { word, reply: 0 }
    }
}

impl CKind {
    /// The kind of a stamp, or the error of what was given.
    pub(crate) fn of(kind: Result<StampKind, CError>) -> CKind
        ensures { result ≡ kind_in_c kind }
    {
        let (kind, version, readers) = match kind {
            Ok(StampKind::Neither) => (16, 0, 0),
            Ok(StampKind::Write(version)) => (17, version, 0),
            Ok(StampKind::Read(version, readers)) => (18, version, readers),
            Ok(StampKind::Optimistic(version)) => (19, version, 0),
            Err(error) => (error.code(), 0, 0),
        };
        CKind {
            kind,
            version,
            readers,
        }
    }
}
