// The ports of each kind, and which of them are direct. Its contracts cite the machine's `specs/Kind.antt`.
ghost use Rattle.std.specs.Prelude.{◌≡◌};
ghost use Rattle.machine.specs.Kind.{direct0, direct1, ports};

use machine::part::Kind;

// How many ports a kind has.
pub fn ports_of(k: Kind) -> u8
    ensures { result ≡ ports k }
{
    match k {
        Kind::Constant | Kind::Square | Kind::Pulse => 0,
        Kind::Gain
        | Kind::Delay
        | Kind::Integrator
        | Kind::Detector
        | Kind::Hold
        | Kind::Drive
        | Kind::Clapper => 1,
        Kind::Adder | Kind::ResetIntegrator | Kind::Sampler => 2,
    }
}

// Whether a kind's port 0 is direct.
pub fn direct0_of(k: Kind) -> bool
    ensures { result ≡ direct0 k }
{
    matches!(k, Kind::Gain | Kind::Adder | Kind::Hold | Kind::Sampler)
}

// Whether a kind's port 1 is direct.
// One function with the port as a number would be the same two lists, with a choice between them.
pub fn direct1_of(k: Kind) -> bool
    ensures { result ≡ direct1 k }
{
    matches!(k, Kind::Adder | Kind::ResetIntegrator | Kind::Sampler)
}
