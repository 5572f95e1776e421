// Components that loading accepts. Its contracts cite the machine's `specs/Sound.antt`.
ghost use Rattle.std.specs.Prelude.{◌≡◌, cond};
ghost use Rattle.machine.specs.Load.{is_drive};
ghost use Rattle.machine.specs.Model.{most_spans, trimmed_component};
ghost use Rattle.machine.specs.Sound.{component_fits, spans_fit};

use crate::kind::is_drive;
use crate::operand::operands_fit;
use crate::port::ports_of;
use crate::range::preference_known;
use crate::source::source_fits;
use crate::span::spans_rise;
use machine::part::{Component, Kind, SPANS};

// How many spans a kind may have: a drive as many as there are places, another kind none.
fn span_room(k: Kind) -> usize
    ensures { result ≡ cond (is_drive k) most_spans 0 }
{
    if is_drive(k) { SPANS } else { 0 }
}

// Whether there are as many spans as the component says, no more than its kind may have, and they rise.
#[tactic(auto, unfolding(machine::specs::Sound::spans_fit, machine::specs::Model::trimmed_component))]
fn spans_fit(c: Component) -> bool
    ensures { result ≡ spans_fit (trimmed_component c) }
{
    c.span_count <= span_room(c.kind) && spans_rise(&c.spans[..c.span_count])
}

// Whether loading accepts this component, without the places that no span is in, in a table of so many parts.
#[tactic(auto, unfolding(machine::specs::Sound::component_fits, machine::specs::Model::trimmed_component))]
pub fn component_fits(c: Component, parts: usize) -> bool
    ensures { result ≡ component_fits parts (trimmed_component c) }
{
    let ports = ports_of(c.kind);
    preference_known(c.preference)
        && operands_fit(c.kind, c.a, c.b, c.p)
        && spans_fit(c)
        && source_fits(parts, ports, 0, c.port0)
        && source_fits(parts, ports, 1, c.port1)
}
