//! Sets of lanes as the bits of a number.
ghost use Rattle.std.specs.Prelude.{◌≡◌, ◌<◌, ◌↔◌, IsTrue, ℕ};
ghost use Rattle.std.specs.Int.{bit_at};
ghost use Rattle.stamp_sets.specs.Lanes.{SetsBit};

/// The lowest of some lanes.
#[inline(always)]
pub fn first_lane(lanes: u64) -> u64
    requires { 0 < lanes }
    ensures within { result < 64 }
    ensures among { bit_at lanes result ≡ 1 }
    ensures lowest { (lane : ℕ) → lane < result → bit_at lanes lane ≡ 0 }
{
    lanes.trailing_zeros() as u64
}

/// Whether the lane is among them.
#[inline(always)]
pub fn has_lane(lanes: u64, lane: u64) -> bool
    requires { lane < 64 }
    ensures { IsTrue result ↔ (bit_at lanes lane ≡ 1) }
{
    (lanes >> lane) & 1 == 1
}

/// These lanes and this one.
#[inline(always)]
pub fn with_lane(lanes: u64, lane: u64) -> u64
    requires { lane < 64 }
    ensures { SetsBit lanes result lane 1 }
{
    lanes | (1 << lane)
}

/// These lanes but this one.
#[inline(always)]
pub fn without_lane(lanes: u64, lane: u64) -> u64
    requires { lane < 64 }
    ensures { SetsBit lanes result lane 0 }
{
    lanes & !(1 << lane)
}
