//! Observed histories as JSON, what an observer can't have seen, and stuck ones made small.
//!
//! A small history is one of a few calls that is stuck as a long one: at the same call with the same reply, where the
//! same replies were possible, but for the versions of stamps. Where that call takes a stamp that a call before it was
//! answered, so it does there. It is judged as the long one was, or, where that is undecided, is the long one as it was
//! seen then. That it is small is tested, not proved.
//!
//! Want of memory may come in place of any other answer. Tested, not proved: that memory is wanting
//! only where an allocation was refused, and that a refusal leaves no block of memory.
#![tactic(auto)]

mod behind;
mod candidate;
mod cut;
mod fault;
mod gaps;
mod issued;
mod judging;
mod judging_again;
pub mod laws;
mod leaving;
mod observations;
mod observed_fields;
mod observed_reading;
mod observed_writing;
mod opening;
mod renumbering;
mod small;
mod spans;
mod versions;
mod window;

pub use behind::{SearchEnd, Sought, small_behind};
pub use judging::{ObservedFault, ObservedWhy, fault_of};
pub use observed_reading::read_observed;
pub use observed_writing::write_observed;
pub use opening::State;
pub use small::small_of;
