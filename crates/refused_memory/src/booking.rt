//! A book, which asks for memory as calls are made on it, and for a copy of its history.
use crate::outcome::Outcome;
use stamp_check::check;
use stamp_core::{Call, Entry, Limits, Record, Reply};
use stamp_threads::{Book, BookError};
use std::alloc::Global;

/// More calls than a list begins with room for.
pub(crate) const CALLS: u64 = 12;

/// The call of this number, and its reply: reads and gives back.
pub(crate) fn call_at(number: u64) -> (Call, Reply) {
    if number % 2 == 0 {
        (Call::TryRead, Reply::Stamp(257))
    } else {
        (Call::TryUnlockRead, Reply::Yes)
    }
}

/// Makes a call of the lock, and once more where memory was refused and the book is as it was.
fn act_again(book: &mut Book, call: &Call) -> Result<Reply, BookError> {
    if !call.is_lock_call() {
        return Err(BookError::Waits);
    }
    let (word, entries) = (book.word().bits(), book.entries().len());
    let answer = book.act(1, *call);
    let is_same = book.word().bits() == word && book.entries().len() == entries;
    if answer == Err(BookError::Memory) && is_same {
        return book.act(1, *call);
    }
    answer
}

/// Makes calls until the book is full; tells whether each reply was due.
fn is_filled(book: &mut Book) -> bool {
    for number in 0..CALLS {
        let (call, reply) = call_at(number);
        if act_again(book, &call) != Ok(reply) {
            return false;
        }
    }
    true
}

/// The history, asked for once more where memory was refused.
fn record_again(book: &Book) -> Result<Record, BookError> {
    match book.record() {
        Err(BookError::Memory) => book.record(),
        other => other,
    }
}

/// The end is that of a book that was never refused.
pub(crate) fn book_outcome(alloc: Global, limits: Limits) -> Outcome {
    let mut book = Book::new(alloc, limits, CALLS);
    if !is_filled(&mut book) {
        return Outcome::Wrong;
    }
    let Ok(record) = record_again(&book) else {
        return Outcome::Wrong;
    };
    let is_copied = check(&record) == Ok(CALLS) && record.entries() == book.entries();
    let is_full = act_again(&mut book, &Call::TryRead) == Err(BookError::Full);
    Outcome::right_if(is_copied && is_full && book.word().bits() == 256)
}

/// Tries to write, and once more where memory was refused.
fn write_again(book: &mut Book) -> Result<Reply, BookError> {
    match book.act(0, Call::TryWrite) {
        Err(BookError::Memory) => book.act(0, Call::TryWrite),
        other => other,
    }
}

/// A book that is full after its first call; the end is that of one that was never refused.
pub(crate) fn book_of_one_outcome(alloc: Global, limits: Limits) -> Outcome {
    let mut book = Book::new(alloc, limits, 1);
    let is_written = write_again(&mut book) == Ok(Reply::Stamp(384));
    let is_waiting = book.act(1, Call::ReadLock) == Err(BookError::Waits);
    let is_full = book.act(1, Call::TryRead) == Err(BookError::Full);
    let Ok(record) = record_again(&book) else {
        return Outcome::Wrong;
    };
    let entry = Entry {
        thread: 0,
        call: Call::TryWrite,
        reply: Reply::Stamp(384),
        first: 0,
        point: 0,
        last: 0,
    };
    let is_recorded = check(&record) == Ok(1) && record.entries().first() == Some(&entry);
    Outcome::right_if(is_written && is_waiting && is_full && is_recorded)
}

/// A book with an entry, on which a call waits.
pub(crate) fn book_waits_outcome(alloc: Global, limits: Limits) -> Outcome {
    let mut book = Book::new(alloc, limits, 1);
    match book.act(0, Call::TryRead) {
        Ok(_) => {}
        Err(BookError::Memory) => return Outcome::Refused,
        Err(_) => return Outcome::Wrong,
    }
    let is_waiting = book.act(1, Call::WriteLock) == Err(BookError::Waits);
    Outcome::right_if(is_waiting && book.entries().len() == 1)
}
