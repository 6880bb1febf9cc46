//! Which calls of a small history are tried next, whether they can be left out.

/// In a history of more calls not every two are tried.
const MOST_PAIRED: usize = 128;

/// By whom the calls of a hold are made.
#[derive(Clone, Copy)]
pub(crate) enum Holder {
    /// By the thread that acquired it.
    Thread,
    /// By any thread, until one releases it.
    Anyone,
}

/// Calls that may be left out.
#[derive(Clone, Copy)]
pub(crate) enum Gap {
    /// Those from one place to another.
    Part(usize, usize),
    /// The one at this place, and those behind it that are made with the stamp that it got.
    Hold(usize, Holder),
    /// The two at these places.
    Two(usize, usize),
}

/// Goes over the parts of a list: first the whole, then its halves, their halves and so on down to single places,
/// each time from the end on.
#[derive(Clone, Copy)]
struct Parts {
    size: usize,
    end: usize,
}

impl Parts {
    fn over(count: usize) -> Parts {
        Parts {
            size: count,
            end: count,
        }
    }

    fn next_gap(&mut self, count: usize) -> Option<Gap> {
        if self.end == 0 {
            if self.size <= 1 {
                return None;
            }
            self.size -= self.size / 2;
            self.end = count;
        }
        let end = self.end;
        self.end = end.saturating_sub(self.size);
        Some(Gap::Part(self.end, end))
    }
}

/// Goes over the places of a list from the end on, each for both holders.
#[derive(Clone, Copy)]
struct Holds {
    place: usize,
    next: Holder,
}

impl Holds {
    fn over(count: usize) -> Holds {
        Holds {
            place: count,
            next: Holder::Thread,
        }
    }

    fn next_gap(&mut self) -> Option<Gap> {
        match self.next {
            Holder::Anyone => {
                self.next = Holder::Thread;
                Some(Gap::Hold(self.place, Holder::Anyone))
            }
            Holder::Thread if self.place == 0 => None,
            Holder::Thread => {
                self.place -= 1;
                self.next = Holder::Anyone;
                Some(Gap::Hold(self.place, Holder::Thread))
            }
        }
    }
}

/// Goes over every two places of a list, from the end on.
#[derive(Clone, Copy)]
struct Pairs {
    first: usize,
    second: usize,
}

impl Pairs {
    fn over(count: usize) -> Pairs {
        Pairs {
            first: 0,
            second: count,
        }
    }

    fn next_gap(&mut self) -> Option<Gap> {
        if self.first == 0 {
            if self.second <= 1 {
                return None;
            }
            self.second -= 1;
            self.first = self.second;
        }
        self.first -= 1;
        Some(Gap::Two(self.first, self.second))
    }
}

#[derive(Clone, Copy)]
enum Stage {
    Parts(Parts),
    Holds(Holds),
    Pairs(Pairs),
}

impl Stage {
    fn next_gap(&mut self, count: usize) -> Option<Gap> {
        match self {
            Stage::Parts(parts) => parts.next_gap(count),
            Stage::Holds(holds) => holds.next_gap(),
            Stage::Pairs(pairs) => pairs.next_gap(),
        }
    }
}

/// Goes over the calls that may be left out: parts, holds and every two, again and again until none can be left out
/// any more.
#[derive(Clone, Copy)]
pub(crate) struct Sweep {
    stage: Stage,
    /// Whether calls were left out since it last began with parts.
    has_left_out: bool,
}

impl Sweep {
    pub(crate) fn over(count: usize) -> Sweep {
        Sweep {
            stage: Stage::Parts(Parts::over(count)),
            has_left_out: false,
        }
    }

    /// Is told that the last calls were left out.
    pub(crate) fn left_out(&mut self) {
        self.has_left_out = true;
    }

    /// The stage behind this one.
    fn stage_behind(&self, count: usize) -> Option<Stage> {
        match self.stage {
            Stage::Parts(_) => Some(Stage::Holds(Holds::over(count))),
            _ if self.has_left_out => Some(Stage::Parts(Parts::over(count))),
            Stage::Holds(_) if count <= MOST_PAIRED => Some(Stage::Pairs(Pairs::over(count))),
            _ => None,
        }
    }

    /// The calls to be tried next in a list of so many.
    pub(crate) fn next_gap(&mut self, count: usize) -> Option<Gap> {
        if let Some(gap) = self.stage.next_gap(count) {
            return Some(gap);
        }
        let stage = self.stage_behind(count)?;
        if let Stage::Parts(_) = stage {
            self.has_left_out = false;
        }
        self.stage = stage;
        self.stage.next_gap(count)
    }
}
