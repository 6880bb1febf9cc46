//! A lock with three modes that threads share: write, read, and optimistic read. It is the lock of
//! `java.util.concurrent.locks.StampedLock`, and each call's doc has Java's name for it.
//!
//! `StampedLock::new` makes the lock. Each thread gets a `LockHandle` by its `enter`, and makes its
//! calls by this handle. A call that acquires a mode answers a `Stamp`, and a call that releases the mode
//! takes it. The lock has no owner: any thread may release by a stamp. It isn't reentrant: while anybody
//! holds it, the caller included, write mode can't be acquired.
//!
//! # How long a call takes
//!
//! - `write` and `read` wait until the mode is free.
//! - `try_optimistic_read`, `validate`, `unlock_write` and the three queries make one load and at most
//!   one exchange, which can't be lost.
//! - Every other call waits for no holder. Where its exchange is lost to another thread, it tries
//!   again, until it is made.
//! - A call whose name ends in `_once` doesn't even try again. It makes one load and at most one
//!   exchange, and fails as `Lost` where these don't make it.
//!
//! A call that takes a runtime may go on for ever, and every other call returns. A refused call of
//! the lock, sections aside, leaves the lock as it was. Only the calls that make a lock, a record
//! or a cell can be refused for want of memory; that they are so only where an allocation was
//! refused, and leave no block of it then, is tested, not proved.
//!
//! # Sections
//!
//! `write_with` and `read_with` acquire a mode, run a closure and release; `in_write_mode` and
//! `in_read_mode` do so where the closure takes nothing. `read_optimistically` is
//! Java's idiom for a short read: an optimistic stamp, a closure, a validation; and where that
//! fails the closure again, in read mode. `write_if` reads so, and writes where a test holds.
//! Tested, not proved: that write sections of threads come one after the other, and that an
//! optimistic read which a writer came into runs again.
//!
//! # Guards
//!
//! `write_guard`, `read_guard` and their `try_` forms acquire a mode for a guard, which has the handle,
//! releases where it is dropped, and can be upgraded or downgraded. `release` gives the handle back.
#![tactic(auto)]

mod answers;
mod cell;
mod cell_handle;
mod entered;
mod guards;
mod handle;
mod handle_once;
mod in_words;
mod lock;
mod mismatch;
mod record;
mod record_calls;
mod record_handle;
mod sections;
mod spent;
mod stamp;
mod timed;
mod unlock_error;
mod update_error;
mod wide_handle;
mod wide_record;
mod write_error;
mod write_if;

pub use cell::{StampedCell, WordsOf};
pub use cell_handle::CellHandle;
pub use entered::Entered;
pub use guards::{LockReadGuard, LockWriteGuard};
pub use handle::LockHandle;
pub use in_words::{InWord, InWords};
pub use lock::StampedLock;
pub use mismatch::Mismatch;
pub use record::StampedRecord;
pub use record_handle::RecordHandle;
pub use spent::Spent;
pub use stamp::Stamp;
pub use stamp_core::{EitherLayout, KnownLayout, Layout, LayoutOne, LayoutTwo, Limits, StampKind};
pub use stamp_threads::{AnyContent, ContentRule, GetFault, LockError, Lost, PutFault};
pub use unlock_error::UnlockError;
pub use update_error::UpdateError;
pub use wide_handle::WideHandle;
pub use wide_record::StampedWideRecord;
pub use write_error::WriteError;
