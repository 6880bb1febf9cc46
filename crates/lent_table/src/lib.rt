//! A word that threads share under a rule, and one value that a step on the word may lend: to many
//! readers, each with a part of the round's right, or to one writer, who has it all.
#![tactic(auto)]

mod lends;
mod plot;
mod shared;
mod sleep;
mod steps;
mod table;

pub use shared::{Ended, Left, Play, Seat, Shared, TableRule};
pub use table::Table;
