//! A book that threads share.
ghost use Rattle.std.specs.Prelude.{◌≡◌, ◌<◌, IfOk, OnErr, IsTrue};
ghost use Rattle.stamp_core.specs.Call.{is_lock_call};
ghost use Rattle.stamp_threads.specs.Book.{Acted, IsBook, IsBookAnswer, IsOfBook};

use crate::book::Book;
use crate::book_error::BookError;
use stamp_core::{Call, Record, Reply};
use std::sync::{Condvar, Mutex, Wait};

/// A book under a lock: threads make calls on it by reference, one at a time. No contract can say
/// which book it holds. Tested, not proved: that its calls act on the book that it was given, and
/// that one which is refused leaves that as it was.
#[derive(Drop)]
pub struct Shared {
    book: Mutex<Book>,
    /// Waited on by calls that wait, and notified of each change of the word.
    changed: Condvar,
}

impl Shared {
    /// Shares a book: threads make their calls on it from here on. It keeps the book's entries, and
    /// takes no memory.
    pub fn new(book: Book) -> Shared {
        // No clause can say which book it holds: in contracts a lock of std has one value, whatever is
        // in it, and where it is taken only the type of the book is known.
        Shared {
            book: Mutex::new(book),
            changed: Condvar::new(),
        }
    }

    /// Makes the call as `Book::act` does: a lock call, for a thread below 64. It waits while
    /// another thread has the book, and `WriteLock` and `ReadLock` also until they can be made: it
    /// never answers 3 `Waits`, but is tried again whenever others have changed the word. It may
    /// wait for ever, as it does where the book is full by then. Refuses as 1 `Full` and
    /// 2 `Memory`, and has entered nothing then.
    pub fn call<R: Wait>(&self, rt: &R, thread: u64, call: Call) -> Result<Reply, BookError>
        requires lock_call { IsTrue (is_lock_call call) }
        requires thread { thread < 64 }
        ensures { IsBookAnswer call result }
    {
        let mut book = self.book.lock(rt);
        for _ in rt.forever() {
            match self.act_on(&mut book, thread, &call) {
                Err(BookError::Waits) => book = self.changed.wait(rt, book),
                answer => return answer,
            }
        }
        unreachable!()
    }

    /// Makes the call if it needn't wait, and wakes all that wait where it has changed the word.
    fn act_on(&self, book: &mut Book, thread: u64, call: &Call) -> Result<Reply, BookError>
        requires lock_call { IsTrue (is_lock_call call.now) }
        requires thread { thread < 64 }
        ensures acted { Acted book.old thread call.now result book.new }
        ensures book { IsBook book.old }
    {
        let before = book.word();
        // By its contract the prover knows that this is a book.
        let _ = book.entries();
        let answer = book.act(thread, *call);
        if book.word() != before {
            self.changed.notify_all();
        }
        answer
    }

    /// A copy of the history so far, as `Book::record` gives. It waits while another thread has the
    /// book, and refuses only as 2 `Memory`.
    pub fn record<R: Wait>(&self, rt: &R) -> Result<Record, BookError>
        ensures book { IfOk result (λ r. IsOfBook r) }
        ensures memory { OnErr result (result ≡ Err BookError.Memory) }
    {
        self.book.lock(rt).record()
    }
}
