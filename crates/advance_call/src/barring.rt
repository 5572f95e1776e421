// What bars a call before any round: the refusals 24, 20 and 23, by what they depend on.
//
// Its contracts cite this crate's `specs/Barring.antt`.
ghost use Rattle.std.specs.Prelude.{◌≡◌, ◌&&◌, leb};
ghost use Rattle.machine.specs.Time.{tick};
ghost use Rattle.machine.specs.Advance.{longest_wanted};
ghost use Rattle.refusals.specs.Numbers.{refused_number};
ghost use Rattle.advance_call.specs.Barring.{barred_by};

use crate::past::leads_past;
use machine::time::{Point, Ticks};
use refusals::Refusal;

// Whether a wanted step is in its range.
fn may_be_wanted(w: u64) -> bool
    ensures { result ≡ leb 1 w && leb w longest_wanted }
{
    1 <= w && w <= 1_000_000_000
}

// What bars a call with the wanted step `w`, of a model that is sound or not and is at the point `now`. A step of 0 is
// out of its range, wherever it leads.
#[tactic(auto, unfolding(crate::specs::Barring::barred_by), using(crate::specs::Barring::led_in_time))]
pub(crate) fn barred(sound: bool, now: Point, w: u64) -> Result<(), Refusal>
    ensures { refused_number result ≡ barred_by sound (tick now) w }
{
    Refusal::NotSound.when(!sound)?;
    Refusal::WantedOutOfRange.when(!may_be_wanted(w))?;
    Refusal::PastLastTick.when(leads_past(now, Ticks(w)))
}
