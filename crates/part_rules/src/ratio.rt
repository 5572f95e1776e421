// The master's magnitude, ratios, and whether a P is within the time.
// Its contracts cite the machine's `specs/Time.antt`.
ghost use Rattle.std.specs.Prelude.{◌≡◌, ◌*◌, ◌≤◌, leb};
ghost use Rattle.machine.specs.Time.{larger, last_magnitude, last_tick, ratio_of};

use crate::range::NO_PREFERENCE;
use machine::time::Point;

// The powers of ten up to the last magnitude. With powers that are worked out anew for each part, a call that tests
// soundness takes a tenth more time where ratios are above 1. It is no constant: a constant is copied to be read.
static POWERS: [u64; 16] = [
    1,
    10,
    100,
    1_000,
    10_000,
    100_000,
    1_000_000,
    10_000_000,
    100_000_000,
    1_000_000_000,
    10_000_000_000,
    100_000_000_000,
    1_000_000_000_000,
    10_000_000_000_000,
    100_000_000_000_000,
    1_000_000_000_000_000,
];

// The larger of a magnitude and a preference, where there is one.
#[tactic(auto, unfolding(machine::specs::Time::larger))]
pub fn larger_of(e: u8, preference: u8) -> u8
    ensures { result ≡ larger e preference }
{
    if preference == NO_PREFERENCE {
        e
    } else {
        e.max(preference)
    }
}

// The ratio of a part with this preference, by the master's magnitude.
pub fn ratio_of(magnitude: u8, preference: u8) -> u64
    requires { magnitude ≤ last_magnitude }
    ensures { result ≡ ratio_of magnitude preference }
{
    if preference == NO_PREFERENCE {
        1
    } else {
        POWERS[usize::from(magnitude.saturating_sub(preference))]
    }
}

// Whether p × ratio is at most the last tick, which a product that no word holds is not.
pub fn period_fits(p: u32, ratio: u64) -> bool
    ensures { result ≡ leb (p * ratio) last_tick }
{
    u64::from(p)
        .checked_mul(ratio)
        .is_some_and(|period| period <= Point::LAST.t.0)
}
