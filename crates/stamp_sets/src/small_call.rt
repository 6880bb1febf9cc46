//! Calls and replies of lock and record in few bytes: each content is told by its number, as one word.
ghost use Rattle.std.specs.Prelude.{◌≡◌, ◌∷◌, [], MatchOption, false};
ghost use Rattle.stamp_core.specs.Call.{is_lock_call};
ghost use Rattle.stamp_runs.specs.OneWord.{has_one_word, is_small_call, is_small_reply};
ghost use Rattle.stamp_sets.specs.SmallCall.{call_of, reply_of};

use stamp_core::{Call, LockCall, LockReply, MOST_WORDS, Reply, Words};

/// A call of the lock, or one of the record.
#[derive(Clone, Copy, Debug, PartialEq, Eq)]
pub enum SmallCall {
    /// A call of the lock.
    OfLock(LockCall),
    /// Reads the content.
    Get,
    /// Leaves the content of this number.
    Put(u64),
    /// Leaves the content of the second number, where the record holds that of the first.
    PutIf(u64, u64),
}

/// A reply without a content, which is one of the lock: `Done`, `Yes` and `No` are the record's, too; or the content
/// of a number.
#[derive(Clone, Copy, Debug, PartialEq, Eq)]
pub enum SmallReply {
    /// A reply without a content.
    OfLock(LockReply),
    /// The content of this number.
    Content(u64),
}

/// The word, if there is one alone.
fn only_word(words: &Words) -> Option<u64>
    ensures { MatchOption result (has_one_word words.now ≡ false) (λ number. number ∷ [] ≡ words.now) }
{
    if words.len() != 1 {
        return None;
    }
    Some(words.as_slice()[0])
}

/// This word alone.
fn one_word(number: u64) -> Words
    ensures { result ≡ number ∷ [] }
{
    let mut row = [0; MOST_WORDS];
    row[0] = number;
    Words::of_row(row, 1)
}

impl SmallCall {
    /// The call in few bytes; nothing where a content of it has more words than one.
    pub fn of(call: &Call) -> Option<SmallCall>
        ensures { MatchOption result (is_small_call call.now ≡ false) (λ found. call_of found ≡ call.now) }
    {
        if let Some(own) = LockCall::of(call) {
            return Some(SmallCall::OfLock(own));
        }
        match call {
            Call::Put(words) => {
                let number = only_word(words)?;
                Some(SmallCall::Put(number))
            }
            Call::PutIf(expected, words) => {
                let first = only_word(expected)?;
                let number = only_word(words)?;
                Some(SmallCall::PutIf(first, number))
            }
            _ => Some(SmallCall::Get),
        }
    }

    /// The same call.
    pub fn as_call(self) -> Call
        ensures { call_of self ≡ result }
    {
        match self {
            SmallCall::OfLock(call) => call.as_call(),
            SmallCall::Get => Call::Get,
            SmallCall::Put(number) => Call::Put(one_word(number)),
            SmallCall::PutIf(expected, number) => Call::PutIf(one_word(expected), one_word(number)),
        }
    }

    /// Whether it is a call of the lock.
    pub fn is_lock_call(self) -> bool
        ensures { result ≡ is_lock_call (call_of self) }
    {
        matches!(self, SmallCall::OfLock(_))
    }
}

impl SmallReply {
    /// The reply in few bytes; nothing for a content of more words than one.
    pub fn of(reply: &Reply) -> Option<SmallReply>
        ensures { MatchOption result (is_small_reply reply.now ≡ false) (λ found. reply_of found ≡ reply.now) }
    {
        match reply {
            Reply::Stamp(stamp) => Some(SmallReply::OfLock(LockReply::Stamp(*stamp))),
            Reply::Yes => Some(SmallReply::OfLock(LockReply::Yes)),
            Reply::No => Some(SmallReply::OfLock(LockReply::No)),
            Reply::Done => Some(SmallReply::OfLock(LockReply::Done)),
            Reply::Mismatch => Some(SmallReply::OfLock(LockReply::Mismatch)),
            Reply::Count(count) => Some(SmallReply::OfLock(LockReply::Count(*count))),
            Reply::Content(words) => {
                let number = only_word(words)?;
                Some(SmallReply::Content(number))
            }
        }
    }

    /// The same reply.
    pub fn as_reply(self) -> Reply
        ensures { reply_of self ≡ result }
    {
        match self {
            SmallReply::OfLock(reply) => reply.as_reply(),
            SmallReply::Content(number) => Reply::Content(one_word(number)),
        }
    }
}
