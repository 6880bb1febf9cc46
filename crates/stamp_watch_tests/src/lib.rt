//! The tests of `stamp_watch`, in a crate of their own, since one with tests is proved twice. What `stamped_watch` shows
//! of it is tested by `tests/watch`.
#![tactic(auto)]

#[cfg(test)]
mod candidates_tests;
#[cfg(test)]
mod fixtures;
#[cfg(test)]
mod history_tests;
#[cfg(test)]
mod judge_tests;
#[cfg(test)]
mod late_tests;
#[cfg(test)]
mod online_tests;
#[cfg(test)]
mod overtaking_tests;
#[cfg(test)]
mod record_tests;
#[cfg(test)]
mod reply_tests;
