// The start point of a model.
//
// Its contract cites `machine`'s `specs/Fresh.antt` and this crate's `specs/Start.antt`.
ghost use Rattle.std.specs.Prelude.{◌≡◌};
ghost use Rattle.machine.specs.Model.{trimmed};
ghost use Rattle.machine.specs.Table.{Table};
ghost use Rattle.machine.specs.Fresh.{fresh};
ghost use Rattle.step_parts.specs.Start.{Unfilled, unfilled};

use crate::filling::filled_into;
use crate::settling::settled_into;
use machine::model::{Model, PARTS};
use words_store::lookup::{STATE_ROOM, TABLE_ROOM};
use words_store::update::copy_state;
use words_transfer::intake::put_fitting;
use words_transfer::recall::recalled;

// The model with its start point filled, in words of its own. No delay reads the point before, so the state that is
// filled means it too.
pub fn started(m: Model) -> Model
    requires { Unfilled m }
    ensures { (t : Table) → trimmed m ≡ unfilled t → trimmed result ≡ fresh t }
{
    let mut table = [0u64; TABLE_ROOM];
    let mut old = [0u64; STATE_ROOM];
    let mut new = [0u64; STATE_ROOM];
    put_fitting(m, &mut table, &mut old);
    copy_state(&old, PARTS, &mut new);
    filled_into(&table, &old, &mut new);
    settled_into(&table, &mut new);
    recalled(m, &new)
}
