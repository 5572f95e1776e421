// The kind with a number, which kind is the drive, and which hold a number or a speed.
// Its contracts cite the machine's `specs/Kind.antt` and `specs/Load.antt`.
ghost use Rattle.std.specs.Prelude.{◌≡◌};
ghost use Rattle.machine.specs.Kind.{has_mass, integrates, kind_of};
ghost use Rattle.machine.specs.Load.{is_drive};

use machine::part::Kind;

// The kind with this number; of numbers that no kind has, the first kind.
#[tactic(auto, using(crate::specs::KindMeant::none_has))]
pub fn kind_numbered(number: u8) -> Kind
    ensures { result ≡ kind_of number }
{
    Kind::try_from(number).unwrap_or(Kind::Constant)
}

// Whether a kind is the drive, which spans may follow.
#[tactic(auto, unfolding(machine::specs::Load::is_drive))]
pub fn is_drive(k: Kind) -> bool
    ensures { result ≡ is_drive k }
{
    k == Kind::Drive
}

// Whether a kind holds a number, which a step integrates.
pub fn holds_number(k: Kind) -> bool
    ensures { result ≡ integrates k }
{
    matches!(
        k,
        Kind::Integrator | Kind::ResetIntegrator | Kind::Drive | Kind::Clapper
    )
}

// Whether a kind has mass, and so holds a speed, which moves its number.
pub fn has_mass(k: Kind) -> bool
    ensures { result ≡ has_mass k }
{
    k == Kind::Clapper
}
