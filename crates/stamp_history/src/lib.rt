//! Replays, scripts and recorded histories as JSON, and what a replay answered as JSON. The parts
//! of which the reading and the writing of a history are made are public, for texts that have them
//! too. Each call returns, and those that are given an allocator or append to a text may fail for
//! want of memory. That they do so only where an allocation was refused is tested, not proved.
#![tactic(auto)]

mod answer_error;
mod field;
mod history_calls;
mod history_entries;
mod history_fields;
mod history_reading;
mod history_writing;
mod json_text;
mod json_values;
pub mod laws;
mod limit_fields;
mod lock_calls;
mod read_error;
mod replay_answer;
mod replay_fields;
mod replay_reading;
mod replay_writing;
mod run_writing;
mod script_calls;
mod script_fields;
mod script_reading;
mod text_kind;
mod words_value;

pub use answer_error::AnswerError;
pub use field::Field;
pub use history_calls::history_call_of;
pub use history_entries::reply_of;
pub use history_fields::{check_format, listed_entries, read_width};
pub use history_reading::read_history;
pub use history_writing::{push_after_entries, push_call, write_history};
pub use json_text::{push_comma, push_numbered, push_reply, push_text};
pub use json_values::{has_keys, has_members, json, whole_under};
pub use limit_fields::read_limits;
pub use read_error::ReadError;
pub use replay_answer::replay_text;
pub use replay_reading::read_replay;
pub use replay_writing::write_replay;
pub use run_writing::write_run;
pub use script_reading::read_script;
pub use stamp_check::{Bad, BadReply, Why, check, migrate};
pub use text_kind::TextKind;
