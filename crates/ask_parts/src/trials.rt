// Whether some part of a trial in words objects to the step that led there.
//
// Its contracts cite this crate's `specs/Trials.antt` and `words_store`'s `specs/ModelIn.antt`.
ghost use Rattle.std.specs.Prelude.{◌≡◌};
ghost use Rattle.machine.specs.Model.{trimmed};
ghost use Rattle.step_parts.specs.StepShown.{Settleable};
ghost use Rattle.words_store.specs.ModelIn.{WordsThere, model_in};
ghost use Rattle.ask_parts.specs.Trials.{any_objects_settled};

use ask_part::objection::objects_of;
use machine::part::Kind;
use machine::time::Ticks;
use step_part::change::settled_part;
use step_parts::heard::heard_at;
use words_store::lookup::{kind_at, part_at, parts_of};

// Whether some part of the trial, once it is settled, objects to the step of `h` that led there. Detectors alone can:
// each is settled by itself and asked.
pub fn any_objects_in(table: &[u64], h: Ticks, trial: &[u64]) -> bool
    requires words_there { WordsThere table.now trial.now }
    requires settleable { Settleable (trimmed (model_in table.now trial.now)) }
    ensures { result ≡ any_objects_settled h.0 (trimmed (model_in table.now trial.now)) }
{
    for i in 0..parts_of(table) {
        if kind_at(table, i) == Kind::Detector {
            let p = part_at(table, trial, i);
            let x = heard_at(trial, p.component.port0);
            if objects_of(settled_part(p, x), h) {
                return true;
            }
        }
    }
    false
}
