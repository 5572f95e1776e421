// The outputs of the kinds at a point, and of a part by its kind.
//
// Its contracts cite `machine`'s `specs/Signal.antt` and `specs/Kind.antt`.
ghost use Rattle.std.specs.Prelude.{◌≡◌, true, cond, ltb};
ghost use Rattle.machine.specs.Signal.{first_present, is_signal, sampled};
ghost use Rattle.machine.specs.Kind.{direct0, direct1, mark_signal, output};
ghost use Rattle.step_part.specs.PartRanges.{PartFits};

use crate::arithmetic::{product_of, total_of};
use crate::wave::{period_of, pulse_of, square_of};
use machine::part::{Component, Kind, Mark, Part, State};
use machine::signal::Signal;
use machine::time::Point;

// `x` if it is present, else `y`. A signal is document 01's own enum, and no Option: the match is written out.
fn first_present_of(x: Signal, y: Signal) -> Signal
    ensures { result ≡ first_present x y }
{
    match x {
        Signal::Absent => y,
        Signal::Value(_) => x,
    }
}

// `x` if `y` is present, else absent.
fn sampled_of(x: Signal, y: Signal) -> Signal
    ensures { result ≡ sampled x y }
{
    match y {
        Signal::Absent => Signal::Absent,
        Signal::Value(_) => x,
    }
}

// A delay's output.
fn delayed(now: Point, before: Signal) -> Signal
    ensures { result ≡ cond (ltb 0 now.n) before Signal.Absent }
{
    if 0 < now.n { before } else { Signal::Absent }
}

// What a detector shows of its mark.
fn mark_signal_of(mark: Mark) -> Signal
    ensures { result ≡ mark_signal mark }
{
    match mark {
        Mark::Clear => Signal::Absent,
        Mark::Rising => Signal::Value(1),
        Mark::Falling => Signal::Value(-1),
    }
}

// The part's output at the point `now`: `x` and `y` are the readings of ports 0 and 1 there, and
// `before` that of port 0 at the point before. A reading that the output does not depend on, of a port that is not
// direct, may be anything.
#[tactic(auto, unfolding(machine::specs::Kind::output, machine::specs::Kind::output_as))]
pub fn output_of(p: Part, now: Point, x: Signal, y: Signal, before: Signal) -> Signal
    requires part_fits { PartFits p }
    requires x_value { direct0 p.component.kind ≡ true → is_signal x ≡ true }
    requires y_value { direct1 p.component.kind ≡ true → is_signal y ≡ true }
    ensures { result ≡ output p now x y before }
{
    let Component { kind, a, b, .. } = p.component;
    let State { held, mark, .. } = p.state;
    let period = period_of(p.component.p, p.ratio);
    match kind {
        Kind::Constant => Signal::Value(a),
        Kind::Gain => product_of(a, x),
        Kind::Adder => total_of(x, y),
        Kind::Square => Signal::Value(square_of(a, b, period, now)),
        Kind::Pulse => pulse_of(a, period, now),
        Kind::Delay => delayed(now, before),
        Kind::ResetIntegrator => first_present_of(y, Signal::Value(held)),
        Kind::Detector => mark_signal_of(mark),
        Kind::Hold => first_present_of(x, p.state.signal),
        Kind::Sampler => sampled_of(x, y),
        Kind::Integrator | Kind::Drive | Kind::Clapper => Signal::Value(held),
    }
}
