// Every part settled in the words of the new state, once the outputs of the point are there.
//
// Its contracts cite `words_store`'s `specs/ModelIn.antt`, and this crate's `specs/Fillable.antt`,
// `specs/Settling.antt` and `specs/StepInto.antt`.
ghost use Rattle.std.specs.Prelude.{◌≡◌};
ghost use Rattle.machine.specs.Model.{trimmed};
ghost use Rattle.words_store.specs.ModelIn.{WordsThere, model_in};
ghost use Rattle.step_parts.specs.Fillable.{Wired};
ghost use Rattle.step_parts.specs.Settling.{settles};
ghost use Rattle.step_parts.specs.StepInto.{SettledInto};

use crate::heard::heard_at;
use machine::part::Kind;
use step_part::change::settled_part;
use words_store::lookup::{kind_at, part_at, parts_of};
use words_store::update::put_state;

// Whether settling changes a part of the kind.
fn settles(k: Kind) -> bool
    ensures { result ≡ settles k }
{
    matches!(k, Kind::ResetIntegrator | Kind::Detector | Kind::Hold)
}

// All parts settled, one after the other in place: settling changes no stored output. A part that settling does not
// change is passed over, by its kind alone.
pub fn settled_into(table: &[u64], new: &mut [u64])
    requires words_there { WordsThere table.now new.old }
    requires wired { Wired (trimmed (model_in table.now new.old)) }
    ensures { SettledInto table.now new.old new.new }
{
    for i in 0..parts_of(table) {
        if settles(kind_at(table, i)) {
            let p = part_at(table, new, i);
            let x = heard_at(new, p.component.port0);
            put_state(new, i, settled_part(p, x).state);
        }
    }
}
