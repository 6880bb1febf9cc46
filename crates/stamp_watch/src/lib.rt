//! Judging runs of a lock and its record, of any length: the events of a run, calls that begin, return or are
//! withdrawn, in the order of their tickets, and the positions of lock, record and lanes that are possible after them.
#![tactic(auto)]

mod ahead;
pub mod candidates;
mod course;
mod delay;
mod ended_call;
mod history;
mod issued;
mod judge;
mod lanes;
mod late;
mod late_verdict;
mod moments;
mod named_run;
mod names;
mod online;
mod ordering;
mod overtaking;
mod places;
mod possible;
mod replies;
mod so_far;
mod start;
mod stream_event;
mod trial;
mod verdict;
mod waiting;
pub mod watch_laws;

pub use ended_call::EndedCall;
pub use history::{ExplainError, explain, judge_history};
pub use judge::judge_run;
pub use late::LateJudge;
pub use late_verdict::LateVerdict;
pub use moments::{Moment, event_at, moments_of};
pub use names::Names;
pub use online::Judge;
pub use overtaking::Overtaking;
pub use replies::{PossibleError, possible_among, possible_at};
pub use stamp_runs::Event;
pub use stamp_sets::{Ending, Progress, SmallCall, SmallReply, Watch};
pub use stream_event::{SmallEvent, StreamEvent};
pub use verdict::{Verdict, Why};
