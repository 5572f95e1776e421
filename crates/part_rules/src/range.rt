// The ranges of values, signals, positive operands, magnitudes and preferences.
// Its contracts cite the machine's `specs/Signal.antt`, `specs/Kind.antt`, `specs/Time.antt` and `specs/Load.antt`.
ghost use Rattle.std.specs.Prelude.{◌≡◌};
ghost use Rattle.machine.specs.Kind.{is_positive};
ghost use Rattle.machine.specs.Load.{preference_known};
ghost use Rattle.machine.specs.Signal.{is_signal, is_value};
ghost use Rattle.machine.specs.Time.{magnitude_known};

use machine::signal::Signal;

// How far a value may lie from 0.
const LARGEST_VALUE: u64 = 1_000_000_000;

// The largest operand p, and the largest span.
pub(crate) const LARGEST_POSITIVE: u32 = 1_000_000_000;

// The last magnitude.
const LAST_MAGNITUDE: u8 = 15;

// The preference that means none. It is no Option: a component's preference is document 01's byte, FFh for none.
pub(crate) const NO_PREFERENCE: u8 = 255;

// Whether a number is a value.
#[tactic(auto, unfolding(machine::specs::Signal::is_value))]
pub fn is_value(v: i64) -> bool
    ensures { result ≡ is_value v }
{
    v.unsigned_abs() <= LARGEST_VALUE
}

// Whether a signal is absent, or its number a value.
#[tactic(auto, unfolding(machine::specs::Signal::is_signal))]
pub fn is_signal(x: Signal) -> bool
    ensures { result ≡ is_signal x }
{
    match x {
        Signal::Absent => true,
        Signal::Value(v) => is_value(v),
    }
}

// Whether a number is in the range of the operand p, and of a span.
#[tactic(auto, unfolding(machine::specs::Kind::is_positive))]
pub fn is_positive(p: u32) -> bool
    ensures { result ≡ is_positive p }
{
    (1..=LARGEST_POSITIVE).contains(&p)
}

// Whether a number is a magnitude.
#[tactic(auto, unfolding(machine::specs::Time::magnitude_known))]
pub fn magnitude_known(e: u8) -> bool
    ensures { result ≡ magnitude_known e }
{
    e <= LAST_MAGNITUDE
}

// Whether a number is a preference: a magnitude, or none.
#[tactic(auto, unfolding(machine::specs::Load::preference_known))]
pub fn preference_known(q: u8) -> bool
    ensures { result ≡ preference_known q }
{
    magnitude_known(q) || q == NO_PREFERENCE
}
