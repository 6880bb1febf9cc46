//! The tests of `lent_table`: a number behind a word that counts who has it.
#![tactic(auto)]

mod count_lock;
#[cfg(test)]
mod count_lock_tests;

pub use count_lock::{Number, Seated, Shown, give_back, leave, try_leave, try_read, try_write};
