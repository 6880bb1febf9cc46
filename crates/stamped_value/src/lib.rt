//! A value of any type behind a stamped lock: readers have `&T` together, a writer `&mut T` alone.
#![tactic(auto)]

mod asking;
mod first;
mod guarded;
mod guards;
mod handle;
mod kept;
pub mod laws;
mod lends;
mod meet;
mod optimistic;
mod rule;
mod ruled;
mod ruled_guard;
mod ruled_handle;
mod sections;
mod spent;
mod steps;
mod timed;
mod value;
mod view;
mod write_if;

pub use guards::{ReadGuard, WriteGuard};
pub use handle::ValueHandle;
pub use kept::ValueRule;
pub use ruled::RuledValue;
pub use ruled_guard::RuledReadGuard;
pub use ruled_handle::RuledHandle;
pub use spent::Spent;
pub use timed::NotInTime;
pub use value::StampedValue;
pub use view::{Held, ValueView};
