//! The lock's decision for programs in other languages: a static library of functions over plain
//! numbers, which test all that they are given. `include/stamped.h` declares them for C. They take
//! no memory and keep nothing, so an error leaves nothing behind.
#![tactic(auto)]

mod checks;
mod codes;
mod decided;
mod error;
mod exports;
pub mod laws;
mod structs;

pub use error::CError;
pub use exports::{
    stamped_check_limits, stamped_check_word, stamped_decide, stamped_kind_of, stamped_opening,
};
pub use structs::{CDecision, CKind, CLimits};
