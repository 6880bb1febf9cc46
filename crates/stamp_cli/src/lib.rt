//! The engine of the program `stamped`: its command line, its input, and the line that answers it;
//! and the ends of that, which other programs have too.
//!
//! Contracts speak of bytes only for sources and sinks that state theirs, as those over readers and
//! writers in memory do; standard input and output don't. Of every source and sink they say how
//! many reads and writes a call makes, whether one failed, whether the input was read to its end,
//! and its length. Tested, not proved: that memory is wanting only where an allocation was refused,
//! and that a refusal leaves no block of memory.
#![tactic(auto)]

mod answer;
mod check_text;
mod faults;
mod file_sink;
mod input;
mod kept_results;
pub mod laws;
mod line;
mod options;
mod orders;
mod output;
mod serving;
mod shell;
mod sinks;
mod sources;
mod stamp_text;

pub use answer::within;
pub use faults::{ServeFault, fault_line, named_fault_line};
pub use input::{MOST_BYTES, read_input};
pub use line::{Line, Verdict, accepted, rejected};
pub use options::{Given, Options, given_in};
pub use orders::{CommandFault, Order, number_in, order_of};
pub use output::write_text;
pub use serving::{serve, serve_help};
pub use shell::{Answered, Ending, Lack, Program, ending_of, run, status_after};
pub use sinks::{Sink, WriteSink};
pub use sources::{ReadSource, Source};
