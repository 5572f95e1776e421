// The master's magnitude of a table whose components are in an array, and whether every P is within the time.
// Its contracts cite the machine's `specs/Table.antt`, and `specs/FirstPlaces.antt`.
ghost use Rattle.std.specs.Prelude.{◌≡◌, ◌≤◌};
ghost use Rattle.machine.specs.Time.{last_magnitude};
ghost use Rattle.machine.specs.Table.{magnitude_of};
ghost use Rattle.machine.specs.Model.{most_parts};
ghost use Rattle.load_call.specs.FirstPlaces.{components_read, periods_within, table_in};

use machine::model::PARTS;
use machine::part::Component;
use part_rules::ratio::{larger_of, period_fits, ratio_of};

// The largest of the default magnitude and the preferences of the first `count` components.
pub(crate) fn master_magnitude(parts: [Component; PARTS], count: usize, default: u8) -> u8
    requires { count ≤ most_parts }
    ensures { result ≡ magnitude_of (table_in default count parts) }
{
    let mut magnitude = default;
    for i in 0..count {
        magnitude = larger_of(magnitude, parts[i].preference);
    }
    magnitude
}

// Whether no P of the first `count` components is above the last tick, by the master's magnitude.
pub(crate) fn periods_fit(parts: [Component; PARTS], count: usize, magnitude: u8) -> bool
    requires few { count ≤ most_parts }
    requires known { magnitude ≤ last_magnitude }
    ensures { result ≡ periods_within magnitude (components_read count parts) }
{
    for i in 0..count {
        let ratio = ratio_of(magnitude, parts[i].preference);
        if !period_fits(parts[i].p, ratio) {
            return false;
        }
    }
    true
}
