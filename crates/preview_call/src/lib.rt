// Previews: what an advance would answer, of a model that stays as it is. The calls are `preview_into` on lent words
// and `preview` by value; both are the advance itself, made where nothing is taken up. Their contracts cite `machine`'s
// `specs/Previews.antt` and this crate's `specs/PreviewedInto.antt`.
#![tactic(auto)]

ghost use Rattle.std.specs.Prelude.{◌≡◌, true};
ghost use Rattle.machine.specs.Previews.{Previewed};
ghost use Rattle.words_store.specs.Form.{spelled};
ghost use Rattle.preview_call.specs.PreviewedInto.{PreviewedInto, shows};

use advance_call::{advance, advance_into};
use machine::model::{Model, Outcome, Preview};
use refusals::Refusal;
use words_store::form::spelled;
use words_store::lookup::{parts_of, state_words};
use words_store::update::kept_in;

// What an advance of a model by at most `w` would answer, whatever they are, with the model handed in: the very struct.
pub fn preview(m: Model, w: u64) -> Preview
    ensures { Previewed m w result }
{
    let answer = advance(m, w);
    Preview { given: m, answer }
}

// Whether words spell a model, and a state of it fits into so many words, asked after a call that ended with a number:
// where that is not 24, the call has found that they spell one.
#[tactic(auto, unfolding(crate::specs::PreviewedInto::shows), using(advance_call::specs::IntoLaws::spelled_there))]
fn can_show(table: &[u64], old: &[u64], number: u64, room: usize) -> bool
    requires { (number ≡ 24 → ⊥) → spelled table.now old.now ≡ true }
    ensures { result ≡ shows table.now old.now room }
{
    if number == Refusal::NotSound.number() && !spelled(table, old) {
        return false;
    }
    state_words(parts_of(table)) <= room
}

// What an advance by at most `w` would answer, on lent words, whatever they are: the numbers of `advance_into`, and in
// `new` the state of the answer's model, which is the one handed in where the call is refused, for whatever reason.
// Where the words spell no model, or `new` is too short for a state, no word of it is written. The words of the table
// and of the old state are kept, as their types say.
pub fn preview_into(table: &[u64], old: &[u64], w: u64, new: &mut [u64]) -> Outcome
    ensures { PreviewedInto table.now old.now w new.old new.new result }
{
    let ended = advance_into(table, old, w, new);
    if ended.rounds == 0 && can_show(table, old, ended.number, new.len()) {
        kept_in(table, old, new);
    }
    ended
}
