// Whether a step leads past the time, which the refusals 23 and 21 ask.
//
// Its contract cites `machine`'s `specs/Time.antt`.
ghost use Rattle.std.specs.Prelude.{◌≡◌, not};
ghost use Rattle.machine.specs.Time.{in_time, led_to};

use machine::time::{Point, Ticks};

// Whether a step of `h` from the point `now` leads to no point of the time, whatever they are.
#[tactic(auto, unfolding(machine::specs::Time::stepped))]
pub(crate) fn leads_past(now: Point, h: Ticks) -> bool
    ensures { result ≡ not (in_time (led_to now h.0)) }
{
    now.step(h).is_none()
}
