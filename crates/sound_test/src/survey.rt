// What the words of a table say of it as a whole, found in one loop over the parts: the master's magnitude, the direct
// sources, which the part order follows from, and the part order that is given. Its contract cites the machine's
// `specs/Table.antt` and `words_store`'s `specs/ModelIn.antt`.
ghost use Rattle.std.specs.Prelude.{◌≤◌, length};
ghost use Rattle.machine.specs.Model.{most_parts};
ghost use Rattle.words_store.specs.ModelIn.{part_count, table_words};
ghost use Rattle.sound_test.specs.LentSurveyed.{LentSurveyed};

use machine::model::PARTS;
use machine::part::Source;
use order_place::{Direct, direct_sources};
use part_rules::ratio::larger_of;
use words_store::lookup::{component_at, magnitude_of, ordered_part, parts_of};

// The master's magnitude, and of the parts in use the direct sources and the numbers in their order.
#[derive(Clone, Copy)]
pub struct Survey {
    pub magnitude: u8,
    pub direct: [Direct; PARTS],
    pub order: [u16; PARTS],
}

// The survey of a table: the largest of the default magnitude and the preferences of the parts, their direct sources,
// and the part order that is given.
#[tactic(auto, unfolding(words_store::specs::ModelIn::ordered_part))]
pub(crate) fn surveyed_in(table: &[u64]) -> Survey
    requires few_parts { part_count table.now ≤ most_parts }
    requires table_there { table_words (part_count table.now) ≤ length table.now }
    ensures { LentSurveyed table.now result }
{
    let none = Direct {
        port0: Source::Unwired,
        port1: Source::Unwired,
    };
    let count = parts_of(table);
    let mut magnitude = magnitude_of(table);
    let mut direct = [none; PARTS];
    let mut order = [0u16; PARTS];
    for i in 0..count {
        let c = component_at(table, i);
        magnitude = larger_of(magnitude, c.preference);
        direct[i] = direct_sources(c);
        order[i] = ordered_part(table, i) as u16;
    }
    Survey {
        magnitude,
        direct,
        order,
    }
}
