// The outputs of a point, filled in part order in the words of the new state.
//
// Its contract cites `words_store`'s `specs/ModelIn.antt`, and this crate's `specs/Fillable.antt` and
// `specs/StepInto.antt`.
ghost use Rattle.machine.specs.Model.{trimmed};
ghost use Rattle.words_store.specs.ModelIn.{WordsThere, model_in};
ghost use Rattle.step_parts.specs.Fillable.{Fillable};
ghost use Rattle.step_parts.specs.StepInto.{FilledInto};

use crate::heard::heard_at;
use step_part::output::output_of;
use words_store::lookup::{ordered_part, part_at, parts_of, point_of};
use words_store::update::put_output;

// The outputs of `new` at its point, in the table's part order, worked out in its own words: there is no array of
// signals. `old` is at the point before, which delays read. Nothing is asked of the outputs that `new` holds: whatever
// they are, the definition's are there afterwards.
pub(crate) fn filled_into(table: &[u64], old: &[u64], new: &mut [u64])
    requires old_there { WordsThere table.now old.now }
    requires new_there { WordsThere table.now new.old }
    requires fillable { Fillable (trimmed (model_in table.now old.now)) (trimmed (model_in table.now new.old)) }
    ensures { FilledInto table.now old.now new.old new.new }
{
    let now = point_of(new);
    for i in 0..parts_of(table) {
        let k = ordered_part(table, i);
        let p = part_at(table, new, k);
        let x = heard_at(new, p.component.port0);
        let y = heard_at(new, p.component.port1);
        let before = heard_at(old, p.component.port0);
        put_output(new, k, output_of(p, now, x, y, before));
    }
}
