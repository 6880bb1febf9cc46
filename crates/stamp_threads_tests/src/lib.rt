//! The tests of `stamp_threads`, in a crate of their own, since one with tests is proved twice.
#![tactic(auto)]

#[cfg(test)]
mod book_tests;
#[cfg(test)]
mod counted_put_tests;
#[cfg(test)]
mod enter_tests;
#[cfg(test)]
mod limits_tests;
#[cfg(test)]
mod lock_tests;
#[cfg(test)]
mod looks;
#[cfg(test)]
mod record_tests;
#[cfg(test)]
mod record_thread_tests;
#[cfg(test)]
mod record_update_tests;
#[cfg(test)]
mod return_tests;
#[cfg(test)]
mod shared_tests;
#[cfg(test)]
mod thread_tests;
#[cfg(test)]
mod wake_tests;
