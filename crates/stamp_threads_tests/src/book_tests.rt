//! The book, by worked rows.
ghost use Rattle.std.specs.Prelude.{◌≤◌, ◌<◌, IsTrue};
ghost use Rattle.stamp_core.specs.Call.{is_lock_call};

use stamp_check::check;
use stamp_core::{Call, Entry, Limits, Reply};
use stamp_threads::{Book, BookError};
use std::alloc::Global;
use std::test::Fail;

/// A book of a lock with at most 127 readers.
pub fn opened(alloc: Global, most: u64) -> Result<Book, Fail>
    requires { most ≤ 640000 }
{
    let limits = Limits::new(127, 1_000_000)?;
    Ok(Book::new(alloc, limits, most))
}

/// Whether a call by this thread is answered so.
pub fn acts(book: &mut Book, thread: u64, call: Call, answer: Result<Reply, BookError>) -> bool
    requires lock_call { IsTrue (is_lock_call call) }
    requires thread { thread < 64 }
{
    book.act(thread, call) == answer
}

/// Whether the book has this word, and this many entries.
fn is_at(book: &Book, word: u64, entries: usize) -> bool {
    book.word().bits() == word && book.entries().len() == entries
}

#[test]
fn a_book_is_that_of_a_new_lock_until_it_is_full(rt: HostRuntime) -> Result<(), Fail> {
    let mut book = opened(rt.alloc(), 3)?;
    assert!(rt; is_at(&book, 256, 0));
    assert!(rt; book.most() == 3);
    assert!(rt; book.limits() == Limits::new(127, 1_000_000)?);
    assert!(rt; check(&book.record()?) == Ok(0));
    assert!(rt; acts(&mut book, 63, Call::TryWrite, Ok(Reply::Stamp(384))));
    assert!(rt; acts(&mut book, 5, Call::Unlock(384), Ok(Reply::Done)));
    assert!(rt; acts(&mut book, 63, Call::WriteLock, Ok(Reply::Stamp(640))));
    assert!(rt; is_at(&book, 640, 3));
    assert!(rt; acts(&mut book, 1, Call::ReadLock, Err(BookError::Waits)));
    assert!(rt; acts(&mut book, 1, Call::Unlock(640), Err(BookError::Full)));
    assert!(rt; is_at(&book, 640, 3));
    let record = book.record()?;
    assert!(rt; check(&record) == Ok(3));
    assert!(rt; record.limits() == book.limits());
    assert!(rt; record.width() == 0);
    let entry = Entry {
        thread: 63,
        call: Call::TryWrite,
        reply: Reply::Stamp(384),
        first: 0,
        point: 0,
        last: 0,
    };
    assert!(rt; record.entries().first() == Some(&entry));
    let mut none = opened(rt.alloc(), 0)?;
    assert!(rt; acts(&mut none, 7, Call::Optimistic, Err(BookError::Full)));
    Ok(())
}

#[test]
fn a_full_book_still_tells_a_call_that_it_waits(rt: HostRuntime) -> Result<(), Fail> {
    let mut book = opened(rt.alloc(), 1)?;
    assert!(rt; acts(&mut book, 0, Call::TryWrite, Ok(Reply::Stamp(384))));
    assert!(rt; acts(&mut book, 1, Call::ReadLock, Err(BookError::Waits)));
    assert!(rt; acts(&mut book, 1, Call::TryRead, Err(BookError::Full)));
    let record = book.record()?;
    assert!(rt; check(&record) == Ok(1));
    let entry = record.entries().first().ok_or("no entry")?;
    assert!(rt; (entry.first, entry.point, entry.last) == (0, 0, 0));
    Ok(())
}

#[test]
fn a_book_of_64_000_calls_is_legal_and_full(rt: HostRuntime) -> Result<(), Fail> {
    let mut book = opened(rt.alloc(), 64_000)?;
    for _ in 0..32_000u64 {
        assert!(rt; acts(&mut book, 0, Call::TryRead, Ok(Reply::Stamp(257))));
        assert!(rt; acts(&mut book, 0, Call::TryUnlockRead, Ok(Reply::Yes)));
    }
    assert!(rt; check(&book.record()?) == Ok(64_000));
    assert!(rt; acts(&mut book, 0, Call::TryRead, Err(BookError::Full)));
    Ok(())
}
