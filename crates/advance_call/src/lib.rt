// One advance: what bars a call, the search for a step by rounds in which every part is asked, trials, and
// the answer. The calls are `advance_into` on lent words, `advance_sound_into` on those of a model that is known to be
// sound, and `advance` by value; what they are made of stays within the crate.
#![tactic(auto)]

ghost use Rattle.std.specs.Prelude.{◌≡◌, true};
ghost use Rattle.machine.specs.Sound.{sound};
ghost use Rattle.machine.specs.Advance.{barred_outcome};
ghost use Rattle.machine.specs.Calls.{Advanced};
ghost use Rattle.refusals.specs.Numbers.{refusal_number, refused_number};
ghost use Rattle.words_store.specs.Form.{spelled};
ghost use Rattle.advance_call.specs.Searching.{answer_of};
ghost use Rattle.advance_call.specs.Into.{AdvancedInto, AdvancedSound, lent_model, number_with};

use crate::barring::barred;
use crate::search::searched_into;
use machine::model::{Answer, Model, Outcome, PARTS};
use refusals::Refusal;
use sound_test::is_sound_in;
use words_store::lookup::{STATE_ROOM, TABLE_ROOM, parts_of, point_of, state_words};
use words_transfer::intake::put_fitting;
use words_transfer::recall::recalled;

mod barring;
mod past;
mod search;

// One advance of a model by at most `w`, whatever they are: the tests 24, 20 and 23 in that order, then the
// search. A call that is refused answers the model handed in; one that is barred, with the number and counts of 0.
//
// The contract is the machine's answer. It is the very promise that a chain of calls asks of each of its
// answers, so that demand 3 holds of every list of these calls after a load: `proofs/EveryList.antt`.
//
// The call is `advance_into` on words of its own: the model is put into them, and where a step is committed it takes
// the new state back. So the rounds and trials of a call copy no model; what it costs besides them is the model handed
// in and handed over, which is copied since it goes by value, and put into words and read from them once.
pub fn advance(m: Model, w: u64) -> Answer
    ensures { Advanced m w result }
{
    if m.count > PARTS {
        return answered(m, barred_outcome(Refusal::NotSound));
    }
    let mut table = [0u64; TABLE_ROOM];
    let mut old = [0u64; STATE_ROOM];
    let mut new = [0u64; STATE_ROOM];
    put_fitting(m, &mut table, &mut old);
    let ended = advance_into(&table, &old, w, &mut new);
    if ended.number != 0 {
        return answered(m, ended);
    }
    let next = recalled(m, &new);
    answered(next, ended)
}

// The answer of a call that ended so and leaves this model.
fn answered(model: Model, v: Outcome) -> Answer
    ensures { result ≡ answer_of model v.number v.step v.rounds v.revisions v.ceiling }
{
    Answer {
        model,
        number: v.number,
        step: v.step,
        rounds: v.rounds,
        revisions: v.revisions,
        ceiling: v.ceiling,
    }
}

// How a call ends that a refusal bars: counts of 0.
fn barred_outcome(refusal: Refusal) -> Outcome
    ensures { result ≡ barred_outcome (refusal_number refusal) }
{
    Outcome {
        number: refusal.number(),
        step: 0,
        rounds: 0,
        revisions: 0,
        ceiling: 0,
    }
}

// The tests 20, 23 and 25 of a call on words that spell a sound model, with `room` words lent for its new state.
#[tactic(auto, using(crate::specs::IntoLaws::spelled_there, crate::specs::IntoLaws::bars_lent))]
fn barred_into(table: &[u64], old: &[u64], w: u64, room: usize) -> Result<(), Refusal>
    requires model_spelled { spelled table.now old.now ≡ true }
    requires model_sound { sound (lent_model table.now old.now) ≡ true }
    ensures { refused_number result ≡ number_with table.now old.now w room }
{
    barred(true, point_of(old), w)?;
    Refusal::TooShort.when(room < state_words(parts_of(table)))
}

// One advance on lent words, of a state that the caller's proof knows to spell a sound model: the tests 20, 23 and 25
// in that order, then the search. The words of the table and of the old state are kept, as their types say; those of
// the new one are kept where the call is barred, and hold the answer's state where it is not. No model is copied.
pub fn advance_sound_into(table: &[u64], old: &[u64], w: u64, new: &mut [u64]) -> Outcome
    requires model_spelled { spelled table.now old.now ≡ true }
    requires model_sound { sound (lent_model table.now old.now) ≡ true }
    ensures { AdvancedSound table.now old.now w new.old new.new result }
{
    match barred_into(table, old, w, new.len()) {
        Ok(()) => searched_into(table, old, w, new),
        Err(refusal) => barred_outcome(refusal),
    }
}

// One advance on lent words, whatever they are: 24 where they spell no sound model, then as `advance_sound_into`.
pub fn advance_into(table: &[u64], old: &[u64], w: u64, new: &mut [u64]) -> Outcome
    ensures { AdvancedInto table.now old.now w new.old new.new result }
{
    if !is_sound_in(table, old) {
        return barred_outcome(Refusal::NotSound);
    }
    advance_sound_into(table, old, w, new)
}
