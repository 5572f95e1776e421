// Every part moved by a step, from the words of the old state into those of the new.
//
// Its contract cites this crate's `specs/StepInto.antt`.
ghost use Rattle.step_parts.specs.StepInto.{MovedInto, Steppable};

use crate::heard::heard_at;
use machine::time::Ticks;
use step_part::change::moved_part;
use words_store::lookup::{part_at, parts_of, point_of};
use words_store::update::{copy_state, put_numbers};

// All parts moved by a step of `h`. The words of the old state are copied, then three numbers of each part are written;
// they are read from `old` alone.
pub(crate) fn moved_into(table: &[u64], old: &[u64], h: Ticks, new: &mut [u64])
    requires { Steppable table.now old.now new.old h.0 }
    ensures { MovedInto table.now old.now h.0 new.old new.new }
{
    let count = parts_of(table);
    copy_state(old, count, new);
    let t = point_of(old).t;
    for i in 0..count {
        let p = part_at(table, old, i);
        let x = heard_at(old, p.component.port0);
        let state = moved_part(p, t, h, x).state;
        put_numbers(new, i, state.local, state.held, state.speed);
    }
}
