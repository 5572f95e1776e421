// A model by value with the point and the states of the words of a state.
//
// The contract cites `specs/Recalled.antt`.
ghost use Rattle.std.specs.Prelude.{◌≤◌, length};
ghost use Rattle.words_store.specs.ModelIn.{state_words};
ghost use Rattle.words_transfer.specs.Recalled.{Recalled};

use machine::model::Model;
use words_store::lookup::{point_of, state_at};

// The model at the point of a state's words, each of its parts in the state that is there.
pub fn recalled(m: Model, state: &[u64]) -> Model
    requires few_parts { m.count ≤ 32 }
    requires state_there { state_words m.count ≤ length state.now }
    ensures { Recalled m state.now result }
{
    let mut next = m;
    next.point = point_of(state);
    for i in 0..m.count {
        next.parts[i].state = state_at(state, i);
    }
    next
}
