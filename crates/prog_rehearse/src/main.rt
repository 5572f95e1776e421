// The program `rehearse`: loads the table that its standard input holds and plays the score after it. It prints a
// line for each score command, and stops at a bad byte. Where lines could not be written it says so on standard
// error, since a program has no exit status of its own to tell it by.
#![tactic(auto)]

ghost use Rattle.std.specs.Prelude.{◌≡◌, length};
ghost use Rattle.machine.specs.Rehearse.{most_read};

use play_score::format::Format;
use play_score::print::print_score;

// All lines of the bytes of standard input that count, and whether they were written. They are read into a buffer that
// has room for all bytes that count, and for no other.
fn rehearse(room: &mut [u8]) -> bool
    requires { length room.old ≡ most_read }
{
    let n = io::read_full(0, room);
    print_score(&room[..n], Format::Plain)
}

// The bytes of standard input that count, rehearsed.
fn main() {
    let mut room = io::large_buffer();
    if !rehearse(&mut room) {
        io::write_all(2, b"rehearse: not all lines could be written\n");
    }
}
