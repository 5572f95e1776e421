// How many bytes the pieces of a line take, worked out before any of them is put.
ghost use Rattle.std.specs.Prelude.{◌≡◌, ◌∷◌, ◌≤◌, length};
ghost use Rattle.machine.specs.Rehearse.{blank, decimal, signal_text, signed_decimal};

use machine::signal::Signal;

// How many digits a number has. The loop divides, and counts no index.
pub fn digits_of(n: u64) -> usize
    ensures digits { result ≡ length (decimal n) }
    ensures few_digits { result ≤ 20 }
{
    let mut rest = n;
    let mut digits: usize = 1;
    while rest >= 10 {
        rest /= 10;
        digits += 1;
    }
    digits
}

// How many characters a value has: its digits, and a hyphen where it is negative.
pub fn characters_of(v: i64) -> usize
    ensures characters { result ≡ length (signed_decimal v) }
    ensures few_characters { result ≤ 21 }
{
    let digits = digits_of(v.unsigned_abs());
    if v < 0 { digits + 1 } else { digits }
}

// How many bytes an output takes, with the blank before it.
pub(crate) fn output_length(output: Signal) -> usize
    ensures { result ≡ length (blank ∷ signal_text output) }
{
    match output {
        Signal::Absent => 2,
        Signal::Value(v) => characters_of(v) + 1,
    }
}
