// The fields of a sheet line, put into a buffer: a number or an output, right-aligned in its width, and the character
// after it. Each function puts its piece at a position and returns the position after it; the machine's
// `specs/Sheet.antt` says what is put, and `write_bytes`'s `specs/Put.antt` what is left in the buffer.
ghost use Rattle.std.specs.Prelude.{◌∷◌, [], ◌++◌, ◌+◌, ◌≤◌, length, replicate};
ghost use Rattle.machine.specs.Rehearse.{blank, decimal, signal_text, signed_decimal};
ghost use Rattle.machine.specs.Sheet.{output_width, right_aligned};
ghost use Rattle.write_bytes.specs.Put.{Put};

use machine::signal::Signal;
use write_bytes::put::put_byte;
use write_lines::length::{characters_of, digits_of};
use write_lines::text::{put_decimal, put_value};

// The width of an output's field.
const OUTPUT_WIDTH: usize = 11;

// Blanks.
#[tactic(auto, using(std::proofs::lemmas::Slice::overwrites))]
pub(crate) fn put_blanks(out: &mut [u8], at: usize, count: usize) -> usize
    requires { at + count ≤ length out.old }
    ensures { Put count (replicate count blank) at out.old out.new result }
{
    let end = at + count;
    out[at..end].fill(b' ');
    end
}

// A number in a field of a width, and a blank after it.
pub(crate) fn put_number_field(out: &mut [u8], at: usize, width: usize, n: u64) -> usize
    requires fits { length (decimal n) ≤ width }
    requires has_room { at + width + 1 ≤ length out.old }
    ensures { Put (width + 1) (right_aligned width (decimal n) ++ (blank ∷ [])) at out.old
        out.new result }
{
    let digits = digits_of(n);
    let next = put_blanks(out, at, width - digits);
    let next = put_decimal(out, next, n);
    put_byte(out, next, b' ')
}

// A value in an output's field.
fn put_value_field(out: &mut [u8], at: usize, v: i64) -> usize
    requires fits { length (signed_decimal v) ≤ output_width }
    requires has_room { at + output_width ≤ length out.old }
    ensures { Put output_width (right_aligned output_width (signed_decimal v)) at out.old
        out.new result }
{
    let characters = characters_of(v);
    let next = put_blanks(out, at, OUTPUT_WIDTH - characters);
    put_value(out, next, v)
}

// An output in its field: its value, or a single hyphen where it is absent.
fn put_signal_field(out: &mut [u8], at: usize, output: Signal) -> usize
    requires fits { length (signal_text output) ≤ output_width }
    requires has_room { at + output_width ≤ length out.old }
    ensures { Put output_width (right_aligned output_width (signal_text output)) at out.old
        out.new result }
{
    match output {
        Signal::Absent => {
            let next = put_blanks(out, at, OUTPUT_WIDTH - 1);
            put_byte(out, next, b'-')
        }
        Signal::Value(v) => put_value_field(out, at, v),
    }
}

// An output in its field, and a character after it.
pub(crate) fn put_output_field(out: &mut [u8], at: usize, output: Signal, behind: u8) -> usize
    requires fits { length (signal_text output) ≤ output_width }
    requires has_room { at + output_width + 1 ≤ length out.old }
    ensures { Put (output_width + 1) (right_aligned output_width (signal_text output) ++
        (behind ∷ [])) at out.old out.new result }
{
    let next = put_signal_field(out, at, output);
    put_byte(out, next, behind)
}
