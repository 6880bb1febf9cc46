//! The sequential lock on one packed word: its words and stamps, what each call does, and recorded
//! histories. Each call returns, and only `replay` may fail for want of memory. That it does so
//! only where an allocation was refused is tested, not proved.
#![tactic(auto)]

mod call;
mod call_table;
mod decision;
mod entry;
mod known_layout;
pub mod laws;
mod layout;
mod limits;
mod lock_call;
mod lock_decision;
mod records;
mod replayed;
mod reply;
mod respelling;
mod stamps;
mod word;
mod words;

pub use call::Call;
pub use decision::{Decision, decide, transition};
pub use entry::Entry;
pub use known_layout::{EitherLayout, KnownLayout, LayoutOne, LayoutTwo};
pub use layout::Layout;
pub use limits::{CoreError, Limits};
pub use lock_call::LockCall;
pub use lock_decision::{LockDecision, LockReply, decide_lock};
pub use records::{MOST_ENTRIES, MOST_THREADS, Record};
pub use replayed::{ReplayError, Replayed, replay};
pub use reply::Reply;
pub use respelling::respell;
pub use stamps::{
    StampKind, is_lock_stamp, is_lock_stamp_in, is_optimistic_stamp, is_optimistic_stamp_in,
    is_read_stamp, is_read_stamp_in, is_write_stamp, is_write_stamp_in, stamp_kind, stamp_kind_in,
};
pub use word::Word;
pub use words::{MOST_WORDS, Words};
