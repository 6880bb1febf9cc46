//! What a watch answers.

/// What a watch knows after an event.
#[derive(Clone, Copy, Debug, PartialEq, Eq)]
pub enum Progress {
    /// The run is explained so far.
    Going,
    /// No run that goes on as it was told is explained: one with no open call but such as never end is stuck at this
    /// event, if it was explained before.
    Dead,
    /// More positions than were allowed are possible just before the event. The watch is as before.
    TooMany,
    /// The event may not come next. The watch is as before.
    Refused,
}
