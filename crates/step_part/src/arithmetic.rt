// The arithmetic of signals: clamping, a gain's product, an adder's sum, an integrator's move. The
// numbers handed in are values, or counts of at most 10^9 ticks, so that no sum or product can wrap.
//
// Its contracts cite `machine`'s `specs/Signal.antt`.
ghost use Rattle.std.specs.Prelude.{◌≡◌, true, ◌≤◌};
ghost use Rattle.machine.specs.Signal.{clamp, integral, integrated, is_signal, is_value, product, total};

use machine::signal::Signal;
use machine::time::LocalTicks;

// The nearer end of the range of values, for a number outside it.
pub(crate) fn clamped(v: i64) -> i64
    ensures { result ≡ clamp v }
{
    v.clamp(-1_000_000_000, 1_000_000_000)
}

// A gain's output.
#[tactic(auto, using(crate::proofs::Values::values), unfolding(machine::specs::Signal::product))]
pub(crate) fn product_of(a: i64, x: Signal) -> Signal
    requires a_value { is_value a ≡ true }
    requires x_value { is_signal x ≡ true }
    ensures { result ≡ product a x }
{
    match x {
        Signal::Absent => Signal::Absent,
        Signal::Value(v) => Signal::Value(clamped(a * v)),
    }
}

// An adder's output.
#[tactic(auto, using(crate::proofs::Values::values), unfolding(machine::specs::Signal::total))]
pub(crate) fn total_of(x: Signal, y: Signal) -> Signal
    requires x_value { is_signal x ≡ true }
    requires y_value { is_signal y ≡ true }
    ensures { result ≡ total x y }
{
    match (x, y) {
        (Signal::Absent, Signal::Absent) => Signal::Absent,
        (Signal::Value(v), Signal::Absent) | (Signal::Absent, Signal::Value(v)) => Signal::Value(
            clamped(v),
        ),
        (Signal::Value(v), Signal::Value(w)) => Signal::Value(clamped(v + w)),
    }
}

// What a held number becomes over `d` local ticks.
#[tactic(auto, using(crate::proofs::Values::values), unfolding(machine::specs::Signal::integral))]
pub(crate) fn integral_of(held: i64, x: Signal, d: LocalTicks) -> i64
    requires held_value { is_value held ≡ true }
    requires x_value { is_signal x ≡ true }
    requires d_bound { d.0 ≤ 1_000_000_000 }
    ensures { result ≡ integral held x d.0 }
{
    clamped(held + integrated_of(x) * (d.0 as i64))
}

// The number that a signal counts as where it is integrated.
pub(crate) fn integrated_of(x: Signal) -> i64
    ensures { result ≡ integrated x }
{
    match x {
        Signal::Absent => 0,
        Signal::Value(v) => v,
    }
}
