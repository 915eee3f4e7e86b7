//! The buckets of three levels, and in which of them a pair stands.
ghost use Rattle.std.specs.Prelude.{◌≡◌, ◌<◌};
ghost use Rattle.timer_wheel.specs.Buckets.{bucket_of};
ghost use Rattle.timer_wheel.specs.declared.buckets.TheConstants.{BUCKETS};

/// The turns of a lap, and the buckets of a level.
pub const LAP: u64 = 128;

/// The turns of a long lap. So many of these as a level has buckets are longer than any delay.
pub const LONG_LAP: u64 = LAP * LAP;

/// The bucket of the pairs whose turn has come, behind those of the levels.
pub const READY: u32 = 3 * LAP as u32;

/// The number of buckets.
pub const BUCKETS: u32 = READY + 1;

/// The bucket of a pair with this due turn, at this turn: one of the first level where both turns
/// are of one lap, of the second where they are of one long lap, and else of the third.
#[tactic(auto, unfolding(crate::specs::Buckets::bucket_of))]
pub fn bucket_of(turn: u64, due: u64) -> u32
    ensures value { result ≡ bucket_of turn due }
    ensures within { result < BUCKETS }
{
    if due <= turn {
        READY
    } else if due / LAP == turn / LAP {
        (due % LAP) as u32
    } else if due / LONG_LAP == turn / LONG_LAP {
        (LAP + due / LAP % LAP) as u32
    } else {
        (2 * LAP + due / LONG_LAP % LAP) as u32
    }
}
