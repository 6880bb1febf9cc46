//! The tests of `stamped_value`, in a crate of their own, since one with tests is proved twice.
#![tactic(auto)]

#[cfg(test)]
mod drop_tests;
#[cfg(test)]
mod ends_tests;
#[cfg(test)]
mod fixtures;
#[cfg(test)]
mod guard_tests;
#[cfg(test)]
mod limits_tests;
#[cfg(test)]
mod meet_tests;
#[cfg(test)]
mod memory_tests;
#[cfg(test)]
mod optimistic_tests;
#[cfg(test)]
mod ruled_tests;
#[cfg(test)]
mod section_tests;
#[cfg(test)]
mod thread_tests;
#[cfg(test)]
mod ticking;
#[cfg(test)]
mod timed_tests;
#[cfg(test)]
mod write_if_tests;
