// The program `streams`, a test of the loader: loads each stream that its standard input spells, and prints the number,
// the position and what was loaded. A line that has digits spells a stream in hexadecimal; a hyphen alone is the empty
// stream, and `#` begins a comment.
#![tactic(auto)]

ghost use Rattle.std.specs.Prelude.{◌≤◌, length, IfSome};

use crate::print::print_loaded;
use load_call::load;

mod print;

// The most bytes of a stream.
const ROOM: usize = 1024;

// A hexadecimal digit's value. Letters are digits in upper case alone.
fn digit(c: u8) -> Option<u8>
    ensures { IfSome result (λ d. d ≤ 15) }
{
    match c {
        b'0'..=b'9' => Some(c - b'0'),
        b'A'..=b'F' => Some(c - b'A' + 10),
        _ => None,
    }
}

// Whether a text spells a stream.
fn spells_any(text: &[u8]) -> bool {
    text.iter().any(|&c| c == b'-' || digit(c).is_some())
}

// How many bytes a text spells, two digits each, which are put at the start of `bytes`. A last digit alone is passed
// over, and so is what there is no room for.
fn spell(text: &[u8], bytes: &mut [u8]) -> usize
    ensures { result ≤ length bytes.new }
{
    let mut digits = text.iter().filter_map(|&c| digit(c));
    for (at, byte) in bytes.iter_mut().enumerate() {
        let (Some(high), Some(low)) = (digits.next(), digits.next()) else {
            return at;
        };
        *byte = high * 16 + low;
    }
    bytes.len()
}

// The stream that a line spells, loaded and printed.
fn judge(line: &[u8]) {
    let text = line.split(|&c| c == b'#').next().unwrap_or(line);
    if spells_any(text) {
        let mut bytes = [0u8; ROOM];
        let n = spell(text, &mut bytes);
        print_loaded(load(&bytes[..n]));
    }
}

// All that the first 65,536 bytes of standard input spell, line by line.
fn main() {
    let mut input = io::large_buffer();
    let n = io::read_full(0, &mut input);
    for line in input[..n].split(|&c| c == b'\n') {
        judge(line);
    }
}
