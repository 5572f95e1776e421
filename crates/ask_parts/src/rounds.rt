// A round of all parts of a model in words: the least of their longest steps.
//
// Its contract cites `machine`'s `specs/Advance.antt`, `ask_laws`'s `specs/Agreed.antt`, `words_store`'s
// `specs/ModelIn.antt` and this crate's `specs/Askable.antt`.
ghost use Rattle.std.specs.Prelude.{◌≡◌, ◌<◌};
ghost use Rattle.machine.specs.Model.{trimmed};
ghost use Rattle.machine.specs.Advance.{round};
ghost use Rattle.ask_laws.specs.Agreed.{Agreed};
ghost use Rattle.words_store.specs.ModelIn.{model_in};
ghost use Rattle.ask_parts.specs.Askable.{Askable};

use ask_part::longest::{longest_of, longest_of_drive};
use machine::part::Kind;
use machine::time::Ticks;
use step_parts::heard::heard_at;
use words_store::lookup::{kind_at, part_at, parts_of, point_of};

// A round at `h`, with `rounds` of the same advance before it: the least of the longest steps of at most `h` that the
// parts accept. The first round asks every part, and each after it the drives alone, since the other parts accept every
// step up to the longest that they accepted.
pub fn least_in(table: &[u64], state: &[u64], h: Ticks, rounds: u64) -> Ticks
    requires askable { Askable table.now state.now h.0 }
    requires agreed { 0 < rounds → Agreed (trimmed (model_in table.now state.now)) h.0 }
    ensures { result.0 ≡ round (trimmed (model_in table.now state.now)) h.0 }
{
    let now = point_of(state);
    let mut best = h;
    for i in 0..parts_of(table) {
        let accepted = match kind_at(table, i) {
            Kind::Drive => longest_of_drive(part_at(table, state, i), now.t, h),
            _ if rounds == 0 => {
                let p = part_at(table, state, i);
                longest_of(p, now, heard_at(state, p.component.port0), h)
            }
            _ => continue,
        };
        best = best.min(accepted);
    }
    best
}
