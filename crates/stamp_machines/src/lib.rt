//! Calls of the lock and of its record as machines that make one access a step, and scripts of
//! such calls under any order of steps. Each call returns, and only those that start or make a run
//! may fail for want of memory. That they do so only where an allocation was refused is tested, not
//! proved.
#![tactic(auto)]

mod access;
mod completions;
pub mod laws;
mod loaded_words;
mod lock_phase;
mod machine;
mod run_whole;
mod running;
mod script;
mod script_error;
mod shape;
mod stage;
mod state;
mod tally;

pub use access::Access;
pub use completions::Completions;
pub use machine::{Machine, Turn};
pub use run_whole::{run, run_reported};
pub use running::{MOST_STEPS, Run, RunError, Stepped};
pub use script::{Arg, MOST_CALLS, Script, ScriptCall};
pub use script_error::ScriptError;
pub use shape::Shape;
pub use stamp_core::{MOST_THREADS, MOST_WORDS};
