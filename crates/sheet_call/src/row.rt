// A whole sheet line, put at the front of a buffer that has room for it. The widths of the fields are those of the
// machine's `specs/Sheet.antt`.
ghost use Rattle.std.specs.Prelude.{◌≡◌, ◌&&◌, true, ◌≤◌, leb, length};
ghost use Rattle.machine.specs.Rehearse.{decimal};
ghost use Rattle.machine.specs.Sheet.{ShownStep, refused_row, revisions_width, rounds_width, shown_fits, shown_line};
ghost use Rattle.machine.specs.Sheet.{step_width};
ghost use Rattle.machine.specs.Time.{tick};
ghost use Rattle.write_bytes.specs.Put.{Put};

use crate::field::{put_blanks, put_number_field, put_output_field};
use machine::model::Outcome;
use machine::signal::Signal;
use machine::time::Point;
use write_bytes::put::put_byte;
use write_lines::length::digits_of;
use write_lines::line::put_refusal;

// The widths of the fields that show numbers.
const TICK_WIDTH: usize = 19;

const MICROSTEP_WIDTH: usize = 3;

const STEP_WIDTH: usize = 10;

const ROUNDS_WIDTH: usize = 4;

const REVISIONS_WIDTH: usize = 2;

// How many columns a line has.
const COLUMNS: usize = 78;

// Whether the counts of an answer are no wider than their fields.
pub(crate) fn counts_fit(outcome: Outcome) -> bool
    ensures { result ≡ leb (length (decimal outcome.step)) step_width &&
        leb (length (decimal outcome.rounds)) rounds_width &&
        leb (length (decimal outcome.revisions)) revisions_width }
{
    digits_of(outcome.step) <= STEP_WIDTH
        && digits_of(outcome.rounds) <= ROUNDS_WIDTH
        && digits_of(outcome.revisions) <= REVISIONS_WIDTH
}

// The line of a committed answer: the point at which it is now, its counts and three outputs.
pub(crate) fn put_step_row(
    out: &mut [u8],
    now: Point,
    outcome: Outcome,
    first: Signal,
    second: Signal,
    third: Signal,
) -> usize
    requires fits { shown_fits (ShownStep (tick now) now.n outcome.step outcome.rounds outcome.revisions
        first second third) ≡ true }
    requires has_room { 79 ≤ length out.old }
    ensures { Put 79 (shown_line (ShownStep (tick now) now.n outcome.step outcome.rounds outcome.revisions
        first second third)) 0 out.old out.new result }
{
    let at = put_number_field(out, 0, TICK_WIDTH, now.t.0);
    let at = put_number_field(out, at, MICROSTEP_WIDTH, now.n);
    let at = put_number_field(out, at, STEP_WIDTH, outcome.step);
    let at = put_number_field(out, at, ROUNDS_WIDTH, outcome.rounds);
    let at = put_number_field(out, at, REVISIONS_WIDTH, outcome.revisions);
    let at = put_output_field(out, at, first, b' ');
    let at = put_output_field(out, at, second, b' ');
    put_output_field(out, at, third, b'\n')
}

// The line of a refused answer: `refused N`, filled with blanks.
pub(crate) fn put_refusal_row(out: &mut [u8], number: u64) -> usize
    requires { 79 ≤ length out.old }
    ensures { Put 79 (refused_row number) 0 out.old out.new result }
{
    let at = put_refusal(out, number);
    let at = put_blanks(out, at, COLUMNS - at);
    put_byte(out, at, b'\n')
}
