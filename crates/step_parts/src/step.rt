// The step made up to its settling, from the words of the old state into those of the new.
//
// Its contract cites `machine`'s `specs/Time.antt`, `words_store`'s `specs/ModelIn.antt` and this crate's
// `specs/StepInto.antt`.
ghost use Rattle.std.specs.Prelude.{◌≡◌, ◌<◌};
ghost use Rattle.machine.specs.Time.{last_microstep};
ghost use Rattle.words_store.specs.ModelIn.{model_in};
ghost use Rattle.step_parts.specs.StepInto.{Steppable, TrialInto};

use crate::filling::filled_into;
use crate::moving::moved_into;
use machine::time::Ticks;
use words_store::lookup::point_of;
use words_store::update::put_point;

// The model of `old` after a step of `h`, in `new`, before it is settled: a trial is settled only where it is taken up.
// The words after the model's are kept. The words of the old state are copied once; then what the step changes of each
// part is written over them. What is required rules out a step past the time.
pub fn trial_into(table: &[u64], old: &[u64], h: Ticks, new: &mut [u64])
    requires steppable { Steppable table.now old.now new.old h.0 }
    requires microstep_left { h.0 ≡ 0 → (model_in table.now old.now).point.n < last_microstep }
    ensures { TrialInto table.now old.now h.0 new.old new.new }
{
    let from = point_of(old);
    let to = from.step(h).unwrap();
    moved_into(table, old, h, new);
    put_point(new, to);
    filled_into(table, old, new);
}
