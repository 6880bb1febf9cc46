//! What a run of a lock or of a guarded record is: its events in the order of their tickets, and when it is explained;
//! and the laws of the sets of configurations that a judge of runs keeps.
#![tactic(auto)]

mod event;
pub mod run_laws;

pub use event::Event;
