// Which parts object to a trial.
//
// Its contract cites `machine`'s `specs/Kind.antt` and `specs/Advance.antt`.
ghost use Rattle.std.specs.Prelude.{◌≡◌, ◌≤◌};
ghost use Rattle.machine.specs.Time.{last_tick};
ghost use Rattle.machine.specs.Kind.{period};
ghost use Rattle.machine.specs.Advance.{objects};

use machine::part::{Kind, Mark, Part};
use machine::time::Ticks;
use step_part::wave::period_of;

// Whether the part of a trial objects to the step of `h` that led there: a detector does, by the mark that it has set
// where the step led.
#[tactic(auto, unfolding(machine::specs::Advance::objects, machine::specs::Advance::objects_as))]
pub fn objects_of(p: Part, h: Ticks) -> bool
    requires { period p ≤ last_tick }
    ensures { result ≡ objects h.0 p }
{
    p.component.kind == Kind::Detector
        && p.state.mark != Mark::Clear
        && period_of(p.component.p, p.ratio) < h
}
