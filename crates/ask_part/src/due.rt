// Which parts are due.
//
// Its contract cites `machine`'s `specs/Kind.antt` and `specs/Accept.antt`.
ghost use Rattle.std.specs.Prelude.{◌≡◌, ◌≤◌};
ghost use Rattle.machine.specs.Time.{last_tick};
ghost use Rattle.machine.specs.Kind.{period};
ghost use Rattle.machine.specs.Accept.{due};

use machine::part::{Kind, Mark, Part};
use machine::signal::Signal;
use machine::time::Point;
use step_part::wave::{at_multiple_of, period_of};

// Whether the part is due at the point `now`, where its port 0 reads `x`.
#[tactic(auto, unfolding(machine::specs::Accept::due, machine::specs::Accept::due_as))]
pub fn due_of(p: Part, now: Point, x: Signal) -> bool
    requires { period p ≤ last_tick }
    ensures { result ≡ due p now x }
{
    match p.component.kind {
        Kind::Square | Kind::Pulse => at_multiple_of(period_of(p.component.p, p.ratio), now),
        Kind::Delay => x != Signal::Absent,
        Kind::Detector => p.state.mark != Mark::Clear,
        _ => false,
    }
}
