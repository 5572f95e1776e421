// What a port reads, of the part that it is wired to alone.
//
// Its contracts cite `specs/Reading.antt` and `specs/LentReading.antt`.
ghost use Rattle.std.specs.Prelude.{◌≡◌, ◌+◌, ◌≤◌, length};
ghost use Rattle.words_store.specs.ModelIn.{state_words};
ghost use Rattle.step_parts.specs.Reading.{heard, source_index};
ghost use Rattle.step_parts.specs.LentReading.{heard_in};

use machine::part::Source;
use machine::signal::Signal;
use words_store::lookup::output_at;

// The number of the part that a port is wired to; 0 for an unwired port.
#[tactic(auto, unfolding(crate::specs::Reading::source_index))]
fn source_index(s: Source) -> usize
    ensures { result ≡ source_index s }
{
    match s {
        Source::Unwired => 0,
        Source::From(k) => usize::from(k),
    }
}

// What a port reads, `out` being the stored output of the part that it is wired to.
#[tactic(auto, unfolding(crate::specs::Reading::heard))]
fn heard_of(s: Source, out: Signal) -> Signal
    ensures { result ≡ heard s out }
{
    match s {
        Source::Unwired => Signal::Absent,
        Source::From(_) => out,
    }
}

// What a port reads in the words of a state. For an unwired port the output of part 0 is read too, and dropped: one
// match that reads for a wired port alone puts a branch into each turn of the inner loops, which then take longer.
#[tactic(auto, unfolding(crate::specs::LentReading::heard_in))]
pub fn heard_at(state: &[u64], s: Source) -> Signal
    requires { state_words (source_index s + 1) ≤ length state.now }
    ensures { result ≡ heard_in state.now s }
{
    heard_of(s, output_at(state, source_index(s)))
}
