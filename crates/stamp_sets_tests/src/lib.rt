//! The tests of `stamp_sets`, in a crate of their own, since one with tests is proved twice.
#![tactic(auto)]

#[cfg(test)]
mod lanes_tests;
#[cfg(test)]
mod order_tests;
#[cfg(test)]
mod record_tests;
#[cfg(test)]
mod samples;
#[cfg(test)]
mod watch_tests;
