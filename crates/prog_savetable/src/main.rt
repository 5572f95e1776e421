// The program `savetable`: loads the table that its standard input holds and writes its bytes, as `save` puts them, to
// standard output. Where the load is refused it writes nothing there, and the line of the refusal to standard error.
// Where bytes could not be written it says so there, since a program has no exit status of its own to tell it by.
#![tactic(auto)]

ghost use Rattle.std.specs.Prelude.{◌≤◌, ◌≡◌, length, take};
ghost use Rattle.machine.specs.Rehearse.{most_read};
ghost use Rattle.machine.specs.Save.{longest_table};
ghost use Rattle.prog_savetable.specs.Telling.{ToldOf};

use load_call::load;
use save_call::save;
use words_store::lookup::{STATE_ROOM, TABLE_ROOM};
use words_transfer::intake::put_fitting;
use write_lines::line::write_refused_at;

// How many bytes there is room for: those of the longest table, which the line of a refusal is shorter than.
const ROOM: usize = 1891;

// Puts what there is to tell of a stream in front of a buffer: the bytes of its table, or as an error the line of its
// refusal. It answers how many bytes tell it.
fn tell(stream: &[u8], out: &mut [u8]) -> Result<usize, usize>
    requires { longest_table ≤ length out.old }
    ensures { ToldOf stream.now out.new result }
{
    let accepted = match load(stream) {
        Ok(accepted) => accepted,
        Err(refused) => {
            let number = refused.refusal.number();
            let length = write_refused_at(number, refused.position, out).unwrap();
            return Err(length);
        }
    };
    let mut table = [0u64; TABLE_ROOM];
    let mut state = [0u64; STATE_ROOM];
    put_fitting(accepted.model, &mut table, &mut state);
    let length = save(&table, &state, out).unwrap();
    Ok(length)
}

// What there is to tell of the first `n` bytes of `room`. It is called with what was read into a buffer: one that has
// room for all bytes that count, and for no other.
fn tell_read(room: &[u8], n: usize, out: &mut [u8]) -> Result<usize, usize>
    requires room_size { length room.now ≡ most_read }
    requires n_within { n ≤ length room.now }
    requires has_room { longest_table ≤ length out.old }
    ensures { ToldOf (take n room.now) out.new result }
{
    tell(&room[..n], out)
}

// The table of the first 65,536 bytes of standard input, saved.
fn main() {
    let mut room = io::large_buffer();
    let n = io::read_full(0, &mut room);
    let mut text = [0u8; ROOM];
    match tell_read(&room, n, &mut text) {
        Err(length) => {
            io::write_all(2, &text[..length]);
        }
        Ok(length) => {
            if !io::write_all(1, &text[..length]) {
                io::write_all(2, b"savetable: not all bytes could be written\n");
            }
        }
    }
}
