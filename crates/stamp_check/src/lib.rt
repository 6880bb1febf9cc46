//! Recorded histories: whether the sequential lock explains one, and one of layout 1 spelled anew
//! in layout 2. Each call returns, and none fails for want of memory.
#![tactic(auto)]

pub mod check_laws;
mod checking;
mod going_on;
mod migration;
pub mod migration_laws;
mod walk;

pub use checking::{Bad, Why, check};
pub use migration::{BadReply, migrate};
pub use walk::first_content;
