//! A lock whose calls are made one at a time, each kept as an entry.
ghost use Rattle.std.specs.Prelude.{◌≡◌, ◌<◌, ◌≤◌, [], IfOk, OnErr, IsTrue};
ghost use Rattle.stamp_core.specs.Call.{is_lock_call};
ghost use Rattle.stamp_core.specs.Record.{recorded};
ghost use Rattle.stamp_core.specs.Word.{Represents};
ghost use Rattle.stamp_threads.specs.Book.{booked, entry_made_at, past_of};
ghost use Rattle.stamp_threads.specs.Book.{Acted, IsBook, IsOfBook};

use crate::book_error::BookError;
use stamp_core::{Call, Entry, Limits, Record, Reply, Word, transition};
use std::alloc::Global;
use std::marker::Model;

/// A lock and the history of its calls, at most `most` of them, for one caller at a time. An entry
/// takes 456 bytes, so that 640,000 of them take some 292 MB.
#[derive(Drop)]
pub struct Book {
    limits: Limits,
    most: u64,
    word: Word,
    entries: Vec<Entry>,
}

impl Model for Book {
    ghost use Rattle.stamp_threads.specs.Book.{Booked, booked, HasWord};

    ghost Value = { Booked };

    ghost view = { λ b. booked b.limits b.most b.entries.items };

    ghost invariant = { λ b. HasWord (booked b.limits b.most b.entries.items) b.word };
}

/// The entry of a call that begins, takes effect and ends at this position.
fn entry_at(position: u64, thread: u64, call: &Call, reply: &Reply) -> Entry
    ensures { result ≡ entry_made_at position thread call.now reply.now }
{
    Entry {
        thread,
        call: *call,
        reply: *reply,
        first: position,
        point: position,
        last: position,
    }
}

impl Book {
    /// The book of a new lock, for at most `most` entries; `most` is at most 640,000. It keeps the
    /// allocator and takes no memory.
    pub fn new(alloc: Global, limits: Limits, most: u64) -> Book
        requires { most ≤ 640000 }
        ensures { result ≡ booked limits most [] }
    {
        Book {
            limits,
            most,
            word: Word::opening_in(limits.layout()),
            entries: Vec::new(alloc),
        }
    }

    /// Makes the call, which is a lock call, for this thread, and enters it with its reply. The thread
    /// is the caller's number for whoever calls, below 64, and only stands in the entry. Refuses in
    /// this order: 3 `Waits`, 1 `Full`, 2 `Memory`; the book is as before then.
    pub fn act(&mut self, thread: u64, call: Call) -> Result<Reply, BookError>
        requires lock_call { IsTrue (is_lock_call call) }
        requires thread { thread < 64 }
        ensures { Acted self.old thread call result self.new }
    {
        let Some((word, reply)) = transition(self.limits, self.word, call) else {
            return Err(BookError::Waits);
        };
        let at = self.entries.len() as u64;
        if at == self.most {
            return Err(BookError::Full);
        }
        self.entries.push(entry_at(at, thread, &call, &reply))?;
        self.word = word;
        Ok(reply)
    }

    /// A copy of the history, as a `Record`. It refuses only as 2 `Memory`.
    pub fn record(&self) -> Result<Record, BookError>
        ensures record { IfOk result
            (λ r. r ≡ recorded self.now.limits 0 self.now.entries []) }
        ensures book { IfOk result (λ r. IsOfBook r) }
        ensures memory { OnErr result (result ≡ Err BookError.Memory) }
    {
        let mut entries = Vec::new(*self.entries.allocator());
        entries.extend_from_slice(&self.entries)?;
        Ok(Record::of(self.limits, 0, entries).unwrap())
    }

    /// The limits of its lock.
    pub fn limits(&self) -> Limits
        ensures { result ≡ self.now.limits }
    {
        self.limits
    }

    /// How many entries it may have.
    pub fn most(&self) -> u64
        ensures { result ≡ self.now.most }
    {
        self.most
    }

    /// The lock's word.
    pub fn word(&self) -> Word
        ensures { Represents self.now.limits result (past_of self.now) }
    {
        self.word
    }

    /// The calls so far, the oldest first.
    pub fn entries(&self) -> &[Entry]
        ensures entries { result.now ≡ self.now.entries }
        ensures book { IsBook self.now }
    {
        self.entries.as_slice()
    }
}
