// Squares and pulses: multiples of a period, the half waves passed, the outputs of the two kinds. A
// period of 0 belongs to no square or pulse; it has no multiples, and all of time is its first half
// wave.
//
// Its contracts cite `machine`'s `specs/Kind.antt`.
ghost use Rattle.std.specs.Prelude.{◌≡◌, ◌≤◌, ◌*◌};
ghost use Rattle.machine.specs.Time.{last_tick};
ghost use Rattle.machine.specs.Kind.{at_multiple, half_waves, positive_multiple, pulse, square};

use machine::signal::Signal;
use machine::time::{Point, Ticks};

// The period P of a part, in master ticks.
pub fn period_of(p: u32, ratio: u64) -> Ticks
    requires { p * ratio ≤ last_tick }
    ensures { result.0 ≡ p * ratio }
{
    Ticks(u64::from(p) * ratio)
}

// Whether `t` is a positive multiple of the period.
#[tactic(auto, unfolding(machine::specs::Kind::positive_multiple))]
fn multiple_of(period: Ticks, t: Ticks) -> bool
    ensures { result ≡ positive_multiple period.0 t.0 }
{
    t.0 != 0 && t.0.is_multiple_of(period.0)
}

// Whether the point is (k × P, 0) with k ≥ 1.
#[tactic(auto, unfolding(machine::specs::Kind::at_multiple))]
pub fn at_multiple_of(period: Ticks, now: Point) -> bool
    ensures { result ≡ at_multiple period.0 now }
{
    now.n == 0 && multiple_of(period, now.t)
}

// How many half waves of a square lie before the point.
#[tactic(auto, unfolding(machine::specs::Kind::half_waves))]
fn half_waves_of(period: Ticks, now: Point) -> u64
    ensures { result ≡ half_waves period.0 now }
{
    if period.0 == 0 {
        return 0;
    }
    if at_multiple_of(period, now) {
        now.t.0 / period.0 - 1
    } else {
        now.t.0 / period.0
    }
}

// A square's output.
#[tactic(auto, unfolding(machine::specs::Kind::square))]
pub(crate) fn square_of(a: i64, b: i64, period: Ticks, now: Point) -> i64
    ensures { result ≡ square a b period.0 now }
{
    if half_waves_of(period, now) % 2 == 0 {
        a
    } else {
        b
    }
}

// A pulse's output.
#[tactic(auto, unfolding(machine::specs::Kind::pulse))]
pub(crate) fn pulse_of(a: i64, period: Ticks, now: Point) -> Signal
    ensures { result ≡ pulse a period.0 now }
{
    if now.n == 1 && multiple_of(period, now.t) {
        Signal::Value(a)
    } else {
        Signal::Absent
    }
}
