// The lines of a rehearsal's refusals, each written into a buffer that the caller lends, and the numbers that begin the
// line of a committed advance. A line's length is worked out before the buffer is touched, and the line is put straight
// into it. The promises cite the machine's `Rehearse.antt` and `Writing.antt`, and `write_bytes`'s `specs/Put.antt`.
ghost use Rattle.std.specs.Prelude.{◌≡◌, ◌∷◌, [], ◌++◌, ◌+◌, ◌≤◌, ◌<◌, length};
ghost use Rattle.machine.specs.Rehearse.{blank, decimal, refused_at_line, refused_line, refused_text};
ghost use Rattle.write_bytes.specs.Put.{Put};
ghost use Rattle.machine.specs.Writing.{WrittenAs};
ghost use Rattle.refusals.specs.Unwritten.{written_of};
ghost use Rattle.write_lines.specs.LineNumbers.{answer_numbers};

use crate::length::digits_of;
use crate::text::put_decimal;
use machine::model::Outcome;
use machine::time::Point;
use refusals::Unwritten;
use write_bytes::put::{put_byte, put_text};

// `refused N`, which begins the line of every refusal.
pub fn put_refusal(line: &mut [u8], number: u64) -> usize
    requires { length (refused_text ++ decimal number) ≤ length line.old }
    ensures { Put 28 (refused_text ++ decimal number) 0 line.old line.new result }
{
    let at = put_text(line, 0, b"refused ");
    put_decimal(line, at, number)
}

// How many bytes that takes, with the eight of the word and its blank.
fn refusal_length(number: u64) -> usize
    ensures bytes { result ≡ length (refused_text ++ decimal number) }
    ensures few_bytes { result ≤ 28 }
{
    8 + digits_of(number)
}

// The line of a refused advance, into a buffer that has room for it.
fn put_refused_line(line: &mut [u8], number: u64) -> usize
    requires { length (refused_line number) ≤ length line.old }
    ensures { Put 29 (refused_line number) 0 line.old line.new result }
{
    let at = put_refusal(line, number);
    put_byte(line, at, b'\n')
}

// The line of a load or score refusal, into a buffer that has room for it.
fn put_refused_at_line(line: &mut [u8], number: u64, position: u64) -> usize
    requires { length (refused_at_line number position) ≤ length line.old }
    ensures { Put 53 (refused_at_line number position) 0 line.old line.new result }
{
    let at = put_refusal(line, number);
    let at = put_text(line, at, b" at ");
    let at = put_decimal(line, at, position);
    put_byte(line, at, b'\n')
}

// A number and a blank.
fn put_number(line: &mut [u8], at: usize, n: u64) -> usize
    requires { at + length (decimal n) < length line.old }
    ensures { Put 21 (decimal n ++ (blank ∷ [])) at line.old line.new result }
{
    let next = put_decimal(line, at, n);
    put_byte(line, next, b' ')
}

// The numbers that begin the line of a committed advance: the point at which it is now, and how it ended.
pub(crate) fn put_numbers(line: &mut [u8], now: Point, outcome: Outcome) -> usize
    requires { length (answer_numbers now outcome) ≤ length line.old }
    ensures { Put 104 (answer_numbers now outcome) 0 line.old line.new result }
{
    let at = put_number(line, 0, now.t.0);
    let at = put_number(line, at, now.n);
    let at = put_number(line, at, outcome.step);
    let at = put_number(line, at, outcome.rounds);
    put_decimal(line, at, outcome.revisions)
}

// How many bytes those take, with a blank after each but the last.
pub(crate) fn numbers_length(now: Point, outcome: Outcome) -> usize
    ensures { result ≡ length (answer_numbers now outcome) }
{
    let point = digits_of(now.t.0) + digits_of(now.n);
    let counts = digits_of(outcome.step) + digits_of(outcome.rounds) + digits_of(outcome.revisions);
    point + counts + 4
}

// The line of a refused advance.
pub(crate) fn write_refused(number: u64, buf: &mut [u8]) -> Result<usize, Unwritten>
    ensures written_as { WrittenAs 0 (refused_line number) buf.old buf.new (written_of result) }
    ensures length_bound { (written_of result).length ≤ 64 }
{
    let length = refusal_length(number) + 1;
    if buf.len() < length {
        return Err(Unwritten::Short(length));
    }
    Ok(put_refused_line(buf, number))
}

// The line of a load or score refusal, at a position of the whole stream.
pub fn write_refused_at(number: u64, position: usize, buf: &mut [u8]) -> Result<usize, Unwritten>
    ensures written_as { WrittenAs 0 (refused_at_line number position) buf.old buf.new (written_of result) }
    ensures length_bound { (written_of result).length ≤ 64 }
{
    let place = position as u64;
    let length = refusal_length(number) + 4 + digits_of(place) + 1;
    if buf.len() < length {
        return Err(Unwritten::Short(length));
    }
    Ok(put_refused_at_line(buf, number, place))
}
