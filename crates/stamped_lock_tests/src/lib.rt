//! The tests of `stamped_lock`, in a crate of their own, since one with tests is proved twice.
#![tactic(auto)]

#[cfg(test)]
mod cell_tests;
#[cfg(test)]
mod cost_tests;
#[cfg(test)]
mod error_tests;
#[cfg(test)]
mod fixtures;
#[cfg(test)]
mod guard_tests;
#[cfg(test)]
mod limits_tests;
#[cfg(test)]
mod lock_tests;
#[cfg(test)]
mod record_tests;
#[cfg(test)]
mod section_tests;
#[cfg(test)]
mod stamp_tests;
#[cfg(test)]
mod thread_tests;
#[cfg(test)]
mod ticking;
#[cfg(test)]
mod timed_tests;
#[cfg(test)]
mod update_tests;
#[cfg(test)]
mod wide_tests;
