// The longest step of at most h that a part accepts.
//
// Its contracts cite `machine`'s `specs/Accept.antt`, and this crate's `specs/Askable.antt`.
ghost use Rattle.std.specs.Prelude.{◌≡◌, ◌+◌, ◌-◌, ◌*◌, ◌≤◌, ◌<◌, min};
ghost use Rattle.machine.specs.Time.{last_tick, tick};
ghost use Rattle.machine.specs.Model.{trimmed_part};
ghost use Rattle.machine.specs.Accept.{driving, last_adding, longest, longest_as, next_multiple};
ghost use Rattle.ask_part.specs.Askable.{AskFits};

use crate::drive_spans::{allowed, largest_below};
use crate::due::due_of;
use machine::part::{Kind, Part};
use machine::signal::Signal;
use machine::time::{Point, Ticks};
use step_part::change::gain_of;
use step_part::wave::period_of;

// The longest step of at most `h` from the tick `t` up to the next multiple of the period.
#[tactic(auto, unfolding(machine::specs::Accept::next_multiple))]
fn up_to_multiple(period: Ticks, t: Ticks, h: Ticks) -> Ticks
    requires { 0 < period.0 }
    ensures { result.0 ≡ min h.0 (next_multiple period.0 t.0 - t.0) }
{
    Ticks(h.0.min(period.0 - t.0 % period.0))
}

// The last step from the tick `t` that adds `v` local ticks, `v` being a span, or 0, as the table's plain number.
#[tactic(auto, unfolding(machine::specs::Accept::last_adding))]
fn last_adding(ratio: u64, t: Ticks, v: u64) -> Ticks
    requires ratio_nonzero { 0 < ratio }
    requires ratio_bound { (v + 1) * ratio ≤ last_tick }
    ensures { result.0 ≡ last_adding ratio t.0 v }
{
    Ticks((v + 1) * ratio - 1 - t.0 % ratio)
}

// A drive's longest step of at most `h` from the tick `t`.
pub fn longest_of_drive(p: Part, t: Ticks, h: Ticks) -> Ticks
    requires { AskFits t.0 h.0 p }
    ensures { result.0 ≡ longest_as driving (trimmed_part p) t.0 h.0 }
{
    let end = Ticks(t.0 + h.0);
    let d = gain_of(p, end.local(p.ratio));
    // The spans are lent from a copy, so that the rest of the part is not written to memory for it.
    let spans = p.component.spans;
    let spans = &spans[..p.component.span_count];
    if allowed(spans, d) {
        h
    } else {
        last_adding(p.ratio, t, largest_below(spans, d))
    }
}

// The longest step of at most `h` that the part accepts at the point `now`, where its port 0 reads `x`.
pub fn longest_of(p: Part, now: Point, x: Signal, h: Ticks) -> Ticks
    requires { AskFits (tick now) h.0 p }
    ensures { result.0 ≡ longest (trimmed_part p) now x h.0 }
{
    if due_of(p, now, x) {
        return Ticks(0);
    }
    match p.component.kind {
        Kind::Square | Kind::Pulse => up_to_multiple(period_of(p.component.p, p.ratio), now.t, h),
        Kind::Drive => longest_of_drive(p, now.t, h),
        _ => h,
    }
}
