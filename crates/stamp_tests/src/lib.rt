//! The tests of the libraries of calls, machines, histories and runs, and of the program's engine, in a crate of their
//! own, since one with tests is proved twice. What a program shows of them is tested by `tests/program`.
#![tactic(auto)]

#[cfg(test)]
mod brute_tests;
#[cfg(test)]
mod core_tests;
#[cfg(test)]
mod ends_tests;
#[cfg(test)]
mod explain_tests;
#[cfg(test)]
mod fixtures;
#[cfg(test)]
mod history_reading_tests;
#[cfg(test)]
mod history_tests;
#[cfg(test)]
mod line_rows;
#[cfg(test)]
mod machine_tests;
#[cfg(test)]
mod migration_tests;
#[cfg(test)]
mod plain_lock;
#[cfg(test)]
mod reading_tests;
#[cfg(test)]
mod replay_tests;
#[cfg(test)]
mod schedule_tests;
#[cfg(test)]
mod script_tests;
#[cfg(test)]
mod serve_tests;
#[cfg(test)]
mod text_tests;
#[cfg(test)]
mod writing_tests;
