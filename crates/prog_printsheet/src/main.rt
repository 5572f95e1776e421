// The program `printsheet`: prints a rehearsal as a sheet. Its standard input holds the numbers of three parts and
// then a stream, whose table it loads and whose score it plays: a sheet line for each command, up to a bad byte.
// Where lines could not be written it says so on standard error, since a program has no exit status of its own to
// tell it by.
#![tactic(auto)]

ghost use Rattle.std.specs.Prelude.{◌≡◌, length};
ghost use Rattle.prog_printsheet.specs.SheetPrinted.{most_input};

use crate::choice::choice_of;
use play_score::format::{CHOICE, Format};
use play_score::print::{print_score, refuse};
use refusals::Refusal;

mod choice;

// How many bytes of standard input are read: those of the choice, and 65,536 of the stream.
const MOST: usize = CHOICE + 65536;

// How many bytes have room for the line of a refusal.
const LINE: usize = 64;

// What is said of an input that is too short to choose, and whether it was written.
fn print_short() -> bool {
    let mut line = [0u8; LINE];
    let said = refuse(true, Refusal::Cut.number(), 0, &mut line);
    io::write_all(2, &line[..said.used])
}

// All that is printed for an input, and whether it was written.
fn print_sheet(input: &[u8]) -> bool {
    if input.len() < CHOICE {
        return print_short();
    }
    print_score(&input[CHOICE..], Format::Sheet(choice_of(input)))
}

// All that is printed for the bytes of standard input that count, and whether it was written. They are read into a
// buffer that has room for all bytes that count, and for no other.
fn print_read(room: &mut [u8]) -> bool
    requires { length room.old ≡ most_input }
{
    let n = io::read_full(0, room);
    print_sheet(&room[..n])
}

// The bytes of standard input that count, printed as a sheet.
fn main() {
    let mut room = [0u8; MOST];
    if !print_read(&mut room) {
        io::write_all(2, b"printsheet: not all lines could be written\n");
    }
}
