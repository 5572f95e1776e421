// A part with all of it 0. Its contract cites `specs/Blank.antt`.
ghost use Rattle.std.specs.Prelude.{◌≡◌};
ghost use Rattle.load_call.specs.Blank.{blank_place};

use load_table::table::blank_component;
use machine::part::{Mark, Part, Side, State};
use machine::signal::Signal;
use machine::time::LocalTicks;

// A part with all of it 0.
#[tactic(auto, unfolding(crate::specs::Blank::blank_place))]
pub(crate) fn blank_part() -> Part
    ensures { result ≡ blank_place }
{
    Part {
        component: blank_component(),
        ratio: 0,
        state: State {
            local: LocalTicks(0),
            held: 0,
            speed: 0,
            signal: Signal::Absent,
            output: Signal::Absent,
            side: Side::Unset,
            mark: Mark::Clear,
        },
    }
}
