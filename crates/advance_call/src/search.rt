// The search for the step of one advance on lent words, of a sound model.
//
// Its contracts cite this crate's `specs/Into.antt` and `specs/Searching.antt`, which go by `machine`'s
// `specs/Advance.antt`, and `step_parts`'s `specs/StepInto.antt`.
ghost use Rattle.std.specs.Prelude.{◌≡◌, true};
ghost use Rattle.machine.specs.Sound.{sound};
ghost use Rattle.refusals.specs.Numbers.{refused_number};
ghost use Rattle.words_store.specs.ModelIn.{WordsThere};
ghost use Rattle.step_parts.specs.StepInto.{Steppable};
ghost use Rattle.advance_call.specs.Into.{SearchedInto, lent_model};
ghost use Rattle.advance_call.specs.Searching.{refusal};

use crate::past::leads_past;
use ask_parts::dues::any_due_in;
use ask_parts::rounds::least_in;
use ask_parts::trials::any_objects_in;
use machine::model::Outcome;
use machine::time::Ticks;
use refusals::Refusal;
use step_parts::settling::settled_into;
use step_parts::step::trial_into;
use words_store::lookup::point_of;
use words_store::update::kept_in;

// The refusal of a step of `h` that all parts accept, where it is not to be made on trial.
#[tactic(auto, unfolding(crate::specs::Searching::refusal), using(crate::specs::Into::last_lent))]
fn refusal_in(table: &[u64], state: &[u64], h: Ticks) -> Result<(), Refusal>
    requires words_there { WordsThere table.now state.now }
    requires model_sound { sound (lent_model table.now state.now) ≡ true }
    ensures { refused_number result ≡ refusal (lent_model table.now state.now) h.0 }
{
    if h.0 != 0 {
        return Ok(());
    }
    Refusal::NoStepAccepted.when(!any_due_in(table, state))?;
    Refusal::DueAtLastMicrostep.when(leads_past(point_of(state), Ticks(0)))
}

// How a call ends that nothing bars, its state left in `new`: rounds lower h under a ceiling until one changes nothing;
// the step is then refused, or made on trial in `new`, and an objection to the trial halves the ceiling. A trial is
// settled where it is taken up, and written over where it is dropped. Within the search, h and the ceiling are plain
// numbers; h counts ticks where parts are asked and a step is made. The loop of rounds within that of ceilings, and
// rounds as a counter, are the forms that document 01 names.
pub(crate) fn searched_into(table: &[u64], old: &[u64], w: u64, new: &mut [u64]) -> Outcome
    requires { Steppable table.now old.now new.old w }
    ensures { SearchedInto table.now old.now w new.old new.new result }
{
    let mut ceiling = w;
    let mut h = w;
    let mut rounds: u64 = 0;
    let mut revisions: u64 = 0;
    'ceilings: loop {
        loop {
            let least = least_in(table, old, Ticks(h), rounds).0;
            rounds += 1;
            if least == h {
                if let Err(refusal) = refusal_in(table, old, Ticks(h)) {
                    kept_in(table, old, new);
                    break 'ceilings Outcome {
                        number: refusal.number(),
                        step: 0,
                        rounds,
                        revisions,
                        ceiling,
                    };
                }
                trial_into(table, old, Ticks(h), new);
                if any_objects_in(table, Ticks(h), new) {
                    break;
                }
                settled_into(table, new);
                break 'ceilings Outcome {
                    number: 0,
                    step: h,
                    rounds,
                    revisions,
                    ceiling,
                };
            }
            h = least;
        }
        revisions += 1;
        h /= 2;
        ceiling = h;
    }
}
