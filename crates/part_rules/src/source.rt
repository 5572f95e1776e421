// What a port is wired to. Its contracts cite the machine's `specs/Sound.antt` and `specs/Load.antt`.
ghost use Rattle.std.specs.Prelude.{◌≡◌};
ghost use Rattle.machine.specs.Load.{wired};
ghost use Rattle.machine.specs.Sound.{source_fits};

use machine::part::Source;

// Whether loading could have wired this source to the port, of a part with so many ports, in a table of so many parts.
#[tactic(auto, unfolding(machine::specs::Sound::source_fits))]
pub(crate) fn source_fits(parts: usize, ports: u8, port: u8, s: Source) -> bool
    ensures { result ≡ source_fits parts ports port s }
{
    match s {
        Source::Unwired => true,
        Source::From(k) => port < ports && (k as usize) < parts,
    }
}

// Whether a wire was put to a port with this source.
pub fn is_wired(s: Source) -> bool
    ensures { result ≡ wired s }
{
    s != Source::Unwired
}
