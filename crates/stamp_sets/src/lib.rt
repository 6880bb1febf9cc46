//! What a run of a lock, or of a guarded record, may have done so far, by sets of positions.
#![tactic(auto)]

mod covering;
mod effect;
mod ending;
mod half;
mod lanes;
mod layers;
mod lock_calls;
mod log;
mod merging;
mod object;
mod open_call;
mod order;
mod position;
mod positions;
mod progress;
mod small_call;
mod start;
mod trace;
mod trail;
mod watch;

pub use ending::Ending;
pub use lanes::{first_lane, has_lane, with_lane, without_lane};
pub use order::EffectAt;
pub use progress::Progress;
pub use small_call::{SmallCall, SmallReply};
pub use watch::Watch;
