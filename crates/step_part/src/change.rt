// What a step changes of a part: its local count, speed and held number as the step is made, its
// stored output, and what it takes once the outputs are there.
//
// Its contracts cite `machine`'s `specs/Kind.antt` and `specs/Step.antt`.
ghost use Rattle.std.specs.Prelude.{◌≡◌, cond, true, ◌-◌, ◌≤◌};
ghost use Rattle.machine.specs.Signal.{integral, is_signal, is_value};
ghost use Rattle.machine.specs.Kind.{mark_between, side_after};
ghost use Rattle.machine.specs.Step.{gain_of, moved, settled, settled_as};
ghost use Rattle.step_part.specs.PartRanges.{PartFits, StepFits};

use crate::arithmetic::{integral_of, integrated_of};
use machine::part::{Kind, Mark, Part, Side, State};
use machine::signal::Signal;
use machine::time::{LocalTicks, Ticks};
use part_rules::kind::{has_mass, holds_number};

// The side on which a detector sees its input; zero and an absent one keep the side `kept`.
#[tactic(auto, unfolding(machine::specs::Kind::side_after))]
fn side_after(kept: Side, x: Signal) -> Side
    ensures { result ≡ side_after kept x }
{
    match x {
        Signal::Value(v) if v < 0 => Side::Negative,
        Signal::Value(v) if 0 < v => Side::Positive,
        _ => kept,
    }
}

// The mark that a detector sets, by its sides before and after.
fn mark_between(before: Side, after: Side) -> Mark
    ensures { result ≡ mark_between before after }
{
    match (before, after) {
        (Side::Negative, Side::Positive) => Mark::Rising,
        (Side::Positive, Side::Negative) => Mark::Falling,
        _ => Mark::Clear,
    }
}

// The local ticks d that a step adds, by the local count `end` that it leads to.
pub fn gain_of(p: Part, end: LocalTicks) -> LocalTicks
    requires { p.state.local.0 ≤ end.0 }
    ensures { result.0 ≡ end.0 - p.state.local.0 }
{
    LocalTicks(end.0 - p.state.local.0)
}

// A held number or a speed after `d` local ticks: moved by `x` where it moves.
fn number_after(moves: bool, v: i64, x: Signal, d: LocalTicks) -> i64
    requires v_value { is_value v ≡ true }
    requires x_value { is_signal x ≡ true }
    requires d_bound { d.0 ≤ 1_000_000_000 }
    ensures { result ≡ cond moves (integral v x d.0) v }
{
    if moves { integral_of(v, x, d) } else { v }
}

// What a held number integrates: the new speed of a part with mass, the reading `x` of port 0 of another.
fn rate_of(mass: bool, speed: i64, x: Signal) -> Signal
    ensures { result ≡ cond mass (Signal.Value speed) x }
{
    if mass { Signal::Value(speed) } else { x }
}

// The part moved by a step of `h` from the tick `t`: its local count, its speed and its held number.
pub fn moved_part(p: Part, t: Ticks, h: Ticks, x: Signal) -> Part
    requires part_fits { PartFits p }
    requires step_fits { StepFits t.0 h.0 p }
    requires gain_bound { gain_of t.0 h.0 p ≤ 1_000_000_000 }
    requires x_value { is_signal x ≡ true }
    ensures { result ≡ moved t.0 h.0 x p }
{
    let end = Ticks(t.0 + h.0);
    let d = gain_of(p, end.local(p.ratio));
    let kind = p.component.kind;
    let mass = has_mass(kind);
    let speed = number_after(mass, p.state.speed, x, d);
    let held = number_after(holds_number(kind), p.state.held, rate_of(mass, speed, x), d);
    let local = LocalTicks(p.state.local.0 + d.0);
    Part {
        state: State {
            local,
            held,
            speed,
            ..p.state
        },
        ..p
    }
}

// The state that a part of the kind takes once the outputs are there; `x` is the reading of port 0.
#[tactic(auto, unfolding(machine::specs::Step::settled_as, machine::specs::Kind::mark_after))]
fn settled_state(kind: Kind, x: Signal, s: State) -> State
    ensures { result ≡ settled_as kind x s }
{
    match kind {
        Kind::ResetIntegrator => State {
            held: integrated_of(s.output),
            ..s
        },
        Kind::Detector => {
            let side = side_after(s.side, x);
            State {
                side,
                mark: mark_between(s.side, side),
                ..s
            }
        }
        Kind::Hold => State {
            signal: s.output,
            ..s
        },
        _ => s,
    }
}

// The part once the outputs at the new point are there.
#[tactic(auto, unfolding(machine::specs::Step::settled))]
pub fn settled_part(p: Part, x: Signal) -> Part
    ensures { result ≡ settled x p }
{
    Part {
        state: settled_state(p.component.kind, x, p.state),
        ..p
    }
}
