// Whether some part of a model in words is due.
//
// Its contract cites `machine`'s `specs/Advance.antt` and `words_store`'s `specs/ModelIn.antt`.
ghost use Rattle.std.specs.Prelude.{◌≡◌, true};
ghost use Rattle.machine.specs.Model.{trimmed};
ghost use Rattle.machine.specs.Sound.{sound};
ghost use Rattle.machine.specs.Advance.{any_due};
ghost use Rattle.words_store.specs.ModelIn.{WordsThere, model_in};

use ask_part::due::due_of;
use step_parts::heard::heard_at;
use words_store::lookup::{part_at, parts_of, point_of};

// Whether some part is due.
pub fn any_due_in(table: &[u64], state: &[u64]) -> bool
    requires words_there { WordsThere table.now state.now }
    requires state_sound { sound (trimmed (model_in table.now state.now)) ≡ true }
    ensures { result ≡ any_due (trimmed (model_in table.now state.now)) }
{
    let now = point_of(state);
    for i in 0..parts_of(table) {
        let p = part_at(table, state, i);
        let x = heard_at(state, p.component.port0);
        if due_of(p, now, x) {
            return true;
        }
    }
    false
}
