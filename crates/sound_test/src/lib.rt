// The test of soundness, which advancing asks first. Its contract cites the machine's
// `specs/Sound.antt` and `words_store`'s `specs/ModelIn.antt` and `specs/Form.antt`.
#![tactic(auto)]

ghost use Rattle.std.specs.Prelude.{◌≡◌, ◌&&◌};
ghost use Rattle.machine.specs.Model.{trimmed};
ghost use Rattle.machine.specs.Sound.{sound};
ghost use Rattle.words_store.specs.ModelIn.{model_in};
ghost use Rattle.words_store.specs.Form.{spelled};

use crate::parts::parts_fit_in;
use crate::survey::surveyed_in;
use order_test::follows;
use part_rules::range::magnitude_known;
use words_store::form::spelled;
use words_store::lookup::{parts_of, point_of};

mod parts;
mod survey;

// Whether words spell a sound model, whatever is in them.
#[tactic(auto, using(words_store::specs::Spelling::spelled_few, words_store::specs::Spelling::spelled_room))]
pub fn is_sound_in(table: &[u64], state: &[u64]) -> bool
    ensures { result ≡ spelled table.now state.now &&
        sound (trimmed (model_in table.now state.now)) }
{
    if !spelled(table, state) {
        return false;
    }
    let count = parts_of(table);
    let now = point_of(state);
    if count < 1 || !now.is_in_time() {
        return false;
    }
    let survey = surveyed_in(table);
    magnitude_known(survey.magnitude)
        && parts_fit_in(table, state, survey.magnitude, now.t)
        && follows(survey.order, survey.direct, count)
}
