// The operands of a part: which a kind names, and whether they are those that a part of the kind may have; and
// whether its speed is. Its contracts cite the machine's `specs/Kind.antt` and `specs/Sound.antt`.
ghost use Rattle.std.specs.Prelude.{◌≡◌, cond, eqb};
ghost use Rattle.machine.specs.Kind.{is_positive, is_zero, names_a, names_b, names_p, operands_fit};
ghost use Rattle.machine.specs.Signal.{is_value};
ghost use Rattle.machine.specs.Sound.{speed_fits};

use crate::kind::has_mass;
use crate::range::{is_positive, is_value};
use machine::part::Kind;

// Whether a kind names the operand a.
fn names_a(k: Kind) -> bool
    ensures { result ≡ names_a k }
{
    matches!(
        k,
        Kind::Constant
            | Kind::Gain
            | Kind::Square
            | Kind::Pulse
            | Kind::Integrator
            | Kind::ResetIntegrator
            | Kind::Drive
            | Kind::Clapper
    )
}

// Whether a kind names the operand b.
fn names_b(k: Kind) -> bool
    ensures { result ≡ names_b k }
{
    matches!(k, Kind::Square | Kind::Clapper)
}

// Whether a kind names the operand p.
fn names_p(k: Kind) -> bool
    ensures { result ≡ names_p k }
{
    matches!(k, Kind::Square | Kind::Pulse | Kind::Detector)
}

// Whether a number is a value where the kind names it, and 0 where it does not: an operand a or b, or a speed.
fn operand_fits(named: bool, v: i64) -> bool
    ensures { result ≡ cond named (is_value v) (is_zero v) }
{
    if named { is_value(v) } else { v == 0 }
}

// Whether an operand p is in its range where it is named, and 0 where it is not.
// One function for both types would take the range's test as a closure, and be no shorter than the two.
fn parameter_fits(named: bool, p: u32) -> bool
    ensures { result ≡ cond named (is_positive p) (eqb p 0) }
{
    if named { is_positive(p) } else { p == 0 }
}

// Whether the operands are those that a part of this kind may have.
#[tactic(auto, unfolding(machine::specs::Kind::operands_fit))]
pub fn operands_fit(k: Kind, a: i64, b: i64, p: u32) -> bool
    ensures { result ≡ operands_fit k a b p }
{
    operand_fits(names_a(k), a) && operand_fits(names_b(k), b) && parameter_fits(names_p(k), p)
}

// Whether the speed is one that a part of this kind may have.
#[tactic(auto, unfolding(machine::specs::Sound::speed_fits))]
pub fn speed_fits(k: Kind, speed: i64) -> bool
    ensures { result ≡ speed_fits k speed }
{
    operand_fits(has_mass(k), speed)
}
