// The parts of a table before the start point is filled. Its contracts cite `specs/FirstPlaces.antt`, which goes by the
// machine's `specs/Fresh.antt`.
ghost use Rattle.std.specs.Prelude.{◌≡◌, cond, pos, ◌≤◌};
ghost use Rattle.machine.specs.Time.{last_magnitude};
ghost use Rattle.machine.specs.Model.{most_parts};
ghost use Rattle.load_call.specs.FirstPlaces.{first_by, first_places};

use crate::blank::blank_part;
use machine::model::PARTS;
use machine::part::{Component, Mark, Part, Side, State};
use machine::signal::Signal;
use machine::time::LocalTicks;
use part_rules::kind::{has_mass, holds_number};
use part_rules::ratio::ratio_of;

// A held number or a speed at the start: the operand where the kind holds it, else 0.
fn first_number(holds: bool, v: i64) -> i64
    ensures { result ≡ cond holds v (pos 0) }
{
    if holds { v } else { 0 }
}

// The first part of a component, by the master's magnitude.
#[tactic(auto, unfolding(crate::specs::FirstPlaces::first_by, machine::specs::Fresh::first_state))]
fn first_part(c: Component, magnitude: u8) -> Part
    requires { magnitude ≤ last_magnitude }
    ensures { result ≡ first_by magnitude c }
{
    Part {
        component: c,
        ratio: ratio_of(magnitude, c.preference),
        state: State {
            local: LocalTicks(0),
            held: first_number(holds_number(c.kind), c.a),
            speed: first_number(has_mass(c.kind), c.b),
            signal: Signal::Absent,
            output: Signal::Absent,
            side: Side::Unset,
            mark: Mark::Clear,
        },
    }
}

// The first parts of the first `count` components, by the master's magnitude. The places after them are blank.
pub(crate) fn first_parts(parts: [Component; PARTS], count: usize, magnitude: u8) -> [Part; PARTS]
    requires few { count ≤ most_parts }
    requires known { magnitude ≤ last_magnitude }
    ensures { result ≡ first_places magnitude count parts }
{
    let mut all = [blank_part(); PARTS];
    for i in 0..count {
        all[i] = first_part(parts[i], magnitude);
    }
    all
}
