// The tests of the parts of a model in words, one by one. Its contracts cite `specs/Parts.antt`, which gathers what
// the machine's `specs/Sound.antt` asks of one part, and `words_store`'s `specs/ModelIn.antt`.
ghost use Rattle.std.specs.Prelude.{◌≡◌, ◌≤◌};
ghost use Rattle.machine.specs.Lists.{every};
ghost use Rattle.machine.specs.Model.{most_parts, trimmed, trimmed_part};
ghost use Rattle.machine.specs.Time.{last_magnitude};
ghost use Rattle.words_store.specs.ModelIn.{WordsThere, model_in, part_count};
ghost use Rattle.sound_test.specs.Parts.{part_fits, state_holds};

use machine::part::{Kind, Part, State};
use machine::time::Ticks;
use part_rules::component::component_fits;
use part_rules::operand::speed_fits;
use part_rules::range::{is_signal, is_value};
use part_rules::ratio::{period_fits, ratio_of};
use words_store::lookup::{part_at, parts_of};

// Whether a state may be that of a part of this kind with this ratio at tick t.
#[tactic(auto, unfolding(crate::specs::Parts::state_holds))]
fn state_fits(t: Ticks, ratio: u64, kind: Kind, state: State) -> bool
    ensures { result ≡ state_holds t.0 ratio kind state }
{
    state.local == t.local(ratio)
        && is_value(state.held)
        && speed_fits(kind, state.speed)
        && is_signal(state.signal)
        && is_signal(state.output)
}

// Whether a part may be one of so many parts at tick t, by the master's magnitude.
#[tactic(auto, using(crate::proofs::Trimmed::trimmed_fits))]
fn part_fits(p: Part, parts: usize, magnitude: u8, t: Ticks) -> bool
    requires { magnitude ≤ last_magnitude }
    ensures { result ≡ part_fits parts magnitude t.0 (trimmed_part p) }
{
    let c = p.component;
    let ratio = ratio_of(magnitude, c.preference);
    component_fits(c, parts)
        && p.ratio == ratio
        && period_fits(c.p, ratio)
        && state_fits(t, ratio, c.kind, p.state)
}

// Whether every part may be one of the model's at tick `t`, by the master's magnitude.
pub(crate) fn parts_fit_in(table: &[u64], state: &[u64], magnitude: u8, t: Ticks) -> bool
    requires words_there { WordsThere table.now state.now }
    requires few_parts { part_count table.now ≤ most_parts }
    requires magnitude_known { magnitude ≤ last_magnitude }
    ensures { result ≡ every (part_fits (part_count table.now) magnitude t.0)
        (trimmed (model_in table.now state.now)).parts }
{
    let count = parts_of(table);
    for i in 0..count {
        if !part_fits(part_at(table, state, i), count, magnitude, t) {
            return false;
        }
    }
    true
}
