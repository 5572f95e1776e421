// The pieces of a line: numbers in base ten and outputs. Each function puts one into a line at a position
// and returns the position after it; `write_bytes`'s `specs/Put.antt` says what it leaves there.
ghost use Rattle.std.specs.Prelude.{◌≡◌, ◌∷◌, ◌+◌, ◌%◌, ◌≤◌, length};
ghost use Rattle.machine.specs.Rehearse.{blank, decimal, signal_text, signed_decimal};
ghost use Rattle.write_bytes.specs.Put.{Put};

use machine::signal::Signal;
use write_bytes::put::put_byte;

// The last digit of a number.
fn last_digit(n: u64) -> u8
    ensures { result ≡ 48 + n % 10 }
{
    b'0' + (n % 10) as u8
}

// A number in base ten: the digits of its hundredth part, where it has one, then its last two.
pub fn put_decimal(line: &mut [u8], at: usize, n: u64) -> usize
    requires { at + length (decimal n) ≤ length line.old }
    ensures { Put 20 (decimal n) at line.old line.new result }
{
    if n < 10 {
        return put_byte(line, at, last_digit(n));
    }
    if n < 100 {
        let next = put_byte(line, at, last_digit(n / 10));
        return put_byte(line, next, last_digit(n));
    }
    let next = put_decimal(line, at, n / 100);
    let next = put_byte(line, next, last_digit(n / 10));
    put_byte(line, next, last_digit(n))
}

// A value in base ten, with a hyphen before it where it is negative.
pub fn put_value(line: &mut [u8], at: usize, v: i64) -> usize
    requires { at + length (signed_decimal v) ≤ length line.old }
    ensures { Put 21 (signed_decimal v) at line.old line.new result }
{
    let next = if v < 0 { put_byte(line, at, b'-') } else { at };
    put_decimal(line, next, v.unsigned_abs())
}

// A blank and an output: its value, or a hyphen where it is absent.
pub(crate) fn put_output(line: &mut [u8], at: usize, output: Signal) -> usize
    requires { at + length (blank ∷ signal_text output) ≤ length line.old }
    ensures { Put 22 (blank ∷ signal_text output) at line.old line.new result }
{
    let next = put_byte(line, at, b' ');
    match output {
        Signal::Absent => put_byte(line, next, b'-'),
        Signal::Value(v) => put_value(line, next, v),
    }
}
