// End: the refusals that it alone decides, in document 01's order, and the model of an accepted table. Its contracts
// cite `specs/EndRefusals.antt` and `specs/Accepting.antt`, the machine's `specs/Load.antt`, and `specs/Concluded.antt`
// of `load_table`.
ghost use Rattle.std.specs.Prelude.{◌≡◌};
ghost use Rattle.machine.specs.Load.{accepted};
ghost use Rattle.machine.specs.Model.{trimmed, trimmed_loaded};
ghost use Rattle.refusals.specs.Numbers.{refused_number};
ghost use Rattle.step_parts.specs.Start.{unfilled};
ghost use Rattle.load_table.specs.Concluded.{Ended, table_read};
ghost use Rattle.load_call.specs.Accepting.{accepted_of};
ghost use Rattle.load_call.specs.EndRefusals.{Acceptable, Judged, end_number};

use crate::Accepted;
use crate::first::first_parts;
use crate::ratios::{master_magnitude, periods_fit};
use load_table::table::TableRead;
use machine::model::{Model, PARTS};
use machine::time::Point;
use order_place::place;
use refusals::Refusal;
use step_parts::start::started;

// The refusal at an End after `count` parts, by whether every P fits, and how many parts could be placed.
#[tactic(auto, unfolding(crate::specs::EndRefusals::end_number))]
fn end_refusal(count: usize, fit: bool, placed: usize) -> Result<(), Refusal>
    ensures { refused_number result ≡ end_number count fit placed }
{
    Refusal::NoParts.when(count == 0)?;
    Refusal::PeriodTooLong.when(!fit)?;
    Refusal::Loop.when(placed < count)
}

// What End finds where it does not refuse the table: the master's magnitude, and the part order.
#[derive(Clone, Copy)]
pub(crate) struct Ending {
    magnitude: u8,
    order: [u16; PARTS],
}

// What End comes to after the table that was read.
pub(crate) fn judged(read: TableRead) -> Result<Ending, Refusal>
    requires { Ended read }
    ensures { Judged read result }
{
    let parts = read.parts;
    let count = read.count;
    let magnitude = master_magnitude(parts, count, read.magnitude);
    let fit = periods_fit(parts, count, magnitude);
    let placed = place(parts, count);
    end_refusal(count, fit, placed.count)?;
    let order = placed.order;
    Ok(Ending { magnitude, order })
}

// The model of a table that was read before its start point is filled, by the master's magnitude and the part order.
// Free are the bytes of unused places.
fn unfilled_model(read: TableRead, ending: Ending) -> Model
    requires { Acceptable read ending }
    ensures { trimmed result ≡ unfilled (table_read read) }
{
    let parts = first_parts(read.parts, read.count, ending.magnitude);
    let order = ending.order;
    Model {
        magnitude: read.magnitude,
        count: read.count,
        order,
        point: Point::start(),
        parts,
    }
}

// A table that is accepted, with the fresh model and the position after its End. Free are the bytes of unused places.
pub(crate) fn accept(read: TableRead, ending: Ending) -> Accepted
    requires { Acceptable read ending }
    ensures { trimmed_loaded (accepted_of result) ≡ accepted read.position (table_read read) }
{
    Accepted {
        model: started(unfilled_model(read, ending)),
        position: read.position + 1,
    }
}
