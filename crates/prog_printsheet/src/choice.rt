// The three parts that the first bytes of an input choose. The contracts cite `specs/SheetPrinted.antt`.
ghost use Rattle.std.specs.Prelude.{◌≡◌, ◌+◌, ◌≤◌, length};
ghost use Rattle.machine.specs.Load.{word_at};
ghost use Rattle.prog_printsheet.specs.SheetPrinted.{choice_in};

use play_score::format::{Choice, SECOND, THIRD};

// The number that four bytes of an input spell, the lowest first.
#[tactic(auto, unfolding(machine::specs::Load::word_at, machine::specs::Load::byte_at))]
fn chosen_number(input: &[u8], at: usize) -> usize
    requires { at + 4 ≤ length input.now }
    ensures { result ≡ word_at input.now at }
{
    u32::from_le_bytes([input[at], input[at + 1], input[at + 2], input[at + 3]]) as usize
}

// The parts that an input chooses.
#[tactic(auto, unfolding(crate::specs::SheetPrinted::choice_in))]
pub(crate) fn choice_of(input: &[u8]) -> Choice
    requires { 12 ≤ length input.now }
    ensures { result ≡ choice_in input.now }
{
    Choice {
        first: chosen_number(input, 0),
        second: chosen_number(input, SECOND),
        third: chosen_number(input, THIRD),
    }
}
