//! What a watch keeps: the lock's word and the record's content in each position, and the open calls that are not in
//! effect there.
ghost use Rattle.std.specs.Prelude.{◌≡◌, length};
ghost use Rattle.stamp_sets.specs.Positions.{content_of, waiting_at, waiting_in, waiting_of, word_of};

use crate::half::Half;
use crate::lanes::has_lane;
use crate::open_call::open_in;
use crate::position::Position;
use crate::small_call::SmallCall;
use crate::watch::Watch;
use stamp_core::Limits;

/// The call that is open in the lane, and not in effect in the position.
fn waiting_in(half: &Half, lane: u64, position: &Position) -> Option<SmallCall>
    ensures { result ≡ waiting_in half.now lane position.now }
{
    if lane >= 64 || has_lane(position.in_effect, lane) {
        return None;
    }
    let begun = open_in(half.table.as_slice(), lane)?;
    Some(begun.asks)
}

/// So it is in the position of this place.
fn waiting_at(half: &Half, place: usize, lane: u64) -> Option<SmallCall>
    ensures { result ≡ waiting_at half.now place lane }
{
    let position = half.positions.as_slice().get(place)?;
    waiting_in(half, lane, position)
}

impl Watch {
    /// The limits of the lock.
    pub fn limits(&self) -> Limits
        ensures { result ≡ self.now.limits }
    {
        self.limits
    }

    /// How many positions of the lock are kept.
    pub fn positions(&self) -> usize
        ensures { result ≡ length self.now.lock.positions.items }
    {
        self.lock.positions.len()
    }

    /// How many positions of the record are kept: one has one content.
    pub fn contents(&self) -> usize
        ensures { result ≡ length self.now.record.positions.items }
    {
        self.record.positions.len()
    }

    /// The number of the lock's word in the position of this place; none where there is no such place.
    pub fn word_at(&self, place: usize) -> Option<u64>
        ensures { result ≡ word_of self.now place }
    {
        let position = self.lock.positions.as_slice().get(place)?;
        Some(position.state)
    }

    /// The number of the record's content in the position of this place; none where there is no such place.
    pub fn content_at(&self, place: usize) -> Option<u64>
        ensures { result ≡ content_of self.now place }
    {
        let position = self.record.positions.as_slice().get(place)?;
        Some(position.state)
    }

    /// The call that is open in the lane and not in effect in the lock's position of the first place, or else in the
    /// record's of the second one, if there is one.
    pub fn waiting_at(&self, word: usize, content: usize, lane: u64) -> Option<SmallCall>
        ensures { result ≡ waiting_of self.now word content lane }
    {
        match waiting_at(&self.lock, word, lane) {
            Some(call) => Some(call),
            None => waiting_at(&self.record, content, lane),
        }
    }
}
