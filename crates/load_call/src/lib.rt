// Loading a table from bytes, up to its End. The contract of `load` cites the machine's `specs/Load.antt`; this crate's
// `specs/LoadOwed.antt` says what follows for a caller.
#![tactic(auto)]

ghost use Rattle.std.specs.Prelude.{◌≡◌};
ghost use Rattle.machine.specs.Load.{load};
ghost use Rattle.machine.specs.Model.{trimmed_loaded};
ghost use Rattle.load_call.specs.Accepting.{loaded_of};

use crate::ending::{accept, judged};
use load_table::table::read_table;
use machine::model::Model;
use refusals::RefusedAt;

mod blank;
mod ending;
mod first;
mod ratios;

// A table that was loaded: its fresh model, and the position after its End. Free are the bytes of the model's unused
// places.
#[derive(Clone, Copy)]
pub struct Accepted {
    pub model: Model,
    pub position: usize,
}

// The table at the start of a stream, loaded, or the first refusal with its position. Free are the bytes of unused
// places alone, which `trimmed_loaded` cuts away.
pub fn load(bytes: &[u8]) -> Result<Accepted, RefusedAt>
    ensures { trimmed_loaded (loaded_of result) ≡ load bytes.now }
{
    let read = read_table(bytes)?;
    // No `map_err`: what a closure makes of the refusal is not told by a clause (`returns`).
    match judged(read) {
        Ok(ending) => Ok(accept(read, ending)),
        Err(refusal) => Err(refusal.at(read.position)),
    }
}
