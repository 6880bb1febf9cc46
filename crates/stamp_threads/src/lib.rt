//! A lock in one word that threads share, and a record of words, with no lock round them; and a lock
//! whose calls are made and recorded one at a time.
//!
//! A call waits for nobody unless its doc says so: only `RunningLock::call`, its `call_in`,
//! `Shared::call` and `Shared::record` may wait for ever. What contracts say holds whether or not
//! threads may enter the lock or the record. Tested, not proved: that memory is wanting only where
//! an allocation was refused, and that a call refused for it leaves no block of memory.
#![tactic(auto)]

mod book;
mod book_error;
mod faults;
pub mod laws;
mod lock_rule;
mod lock_steps;
mod lost;
mod pass;
mod pass_view;
mod patience;
mod record_get;
mod record_pass;
mod record_rule;
mod record_see;
mod record_steps;
mod record_view;
mod record_word;
mod running_lock;
mod running_record;
mod shared;
mod wide_record;

pub use book::Book;
pub use book_error::BookError;
pub use faults::{GetFault, PutFault};
pub use lost::Lost;
pub use pass::Pass;
pub use pass_view::{LogEntry, PassView};
pub use patience::Patience;
pub use record_pass::RecordPass;
pub use record_rule::{AnyContent, ContentRule};
pub use record_view::{RecordEvent, RecordPhase, RecordShape};
pub use running_lock::{LockError, RunningLock, anew};
pub use running_record::{RuledRecord, RunningRecord};
pub use shared::Shared;
pub use wide_record::WideRecord;
