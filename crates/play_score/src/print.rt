// A stream printed: its table is loaded, and its score played and written in batches. The line of a refusal, of the
// load or of the choice, is all that is said of a stream that has no score to play. The contracts cite
// `specs/Playing.antt`.
ghost use Rattle.std.specs.Prelude.{◌≤◌, length};
ghost use Rattle.machine.specs.Rehearse.{refused_at_line};
ghost use Rattle.advance_call.specs.Into.{lent_model};
ghost use Rattle.play_score.specs.Playing.{
  most_table_words,
  most_state_words,
  Playable,
  LineOpened,
  Opened,
  PrintedSoFar,
};

use crate::format::{Format, missing_of};
use crate::lines::Lines;
use crate::play::play_batch;
use load_call::load;
use refusals::Refusal;
use words_store::lookup::{STATE_ROOM, TABLE_ROOM};
use words_transfer::intake::put_fitting;
use write_lines::line::write_refused_at;

// What is said where printing ends at its beginning: whether it goes to standard error, and how many bytes of a buffer
// it takes.
#[derive(Clone, Copy, Debug, PartialEq, Eq)]
pub struct Said {
    pub errors: bool,
    pub used: usize,
}

// The line of a refusal, with which printing ends.
pub fn refuse(errors: bool, number: u64, position: usize, lines: &mut [u8]) -> Said
    requires { 64 ≤ length lines.old }
    ensures { LineOpened errors (refused_at_line number position) lines.new result }
{
    let used = write_refused_at(number, position, lines).unwrap();
    Said { errors, used }
}

// How the printing of a stream begins: the position of the first score command, or what is said where it ends. Where
// nothing is refused, the loaded model is put into the words of `table` and `state`, and all lines are still to come.
pub fn open_score(
    stream: &[u8],
    format: Format,
    table: &mut [u64],
    state: &mut [u64],
    lines: &mut [u8],
) -> Result<usize, Said>
    requires table_room { most_table_words ≤ length table.old }
    requires state_room { most_state_words ≤ length state.old }
    requires line_room { 64 ≤ length lines.old }
    ensures { let words = state.new in
        Opened stream.now format table.new words lines.new result }
{
    match load(stream) {
        Ok(accepted) => {
            let model = accepted.model;
            if let Some(missing) = missing_of(model.count, format) {
                return Err(refuse(true, Refusal::NotPrintable.number(), missing, lines));
            }
            put_fitting(model, table, state);
            Ok(accepted.position)
        }
        Err(refused) => {
            let number = refused.refusal.number();
            Err(refuse(false, number, refused.position, lines))
        }
    }
}

// All lines from a score's position on, of the first state, batch after batch, and whether they were written. A write
// that fails ends it.
fn print_batches(
    stream: &[u8],
    from: usize,
    table: &[u64],
    first: &mut [u64],
    second: &mut [u64],
    format: Format,
    lines: &mut Lines<'_>,
) -> bool
    requires playable { Playable table.now first.old format }
    requires printed_so_far { PrintedSoFar stream.now format from (lent_model table.now first.old) }
    requires first_room { most_state_words ≤ length first.old }
    requires second_room { most_state_words ≤ length second.old }
    requires line_room { 1024 ≤ length lines.old.bytes.now }
{
    let mut at = from;
    let mut exchanged = false;
    // It counts nothing: each turn writes a batch and takes up the next one where that ended.
    loop {
        let played = play_batch(stream, at, exchanged, table, first, second, format, lines);
        if !io::write_all(1, lines.text()) {
            return false;
        }
        let Some(next) = played.next else {
            return true;
        };
        at = next;
        exchanged = played.moved;
    }
}

// All that is printed of a stream in a format, and whether it was written. It owns the words that the model is in:
// those of the table, and of two states.
pub fn print_score(stream: &[u8], format: Format) -> bool {
    let mut lines = io::large_buffer();
    let mut table = [0u64; TABLE_ROOM];
    let mut first = [0u64; STATE_ROOM];
    let mut second = [0u64; STATE_ROOM];
    match open_score(stream, format, &mut table, &mut first, &mut lines) {
        Ok(at) => print_batches(
            stream,
            at,
            &table,
            &mut first,
            &mut second,
            format,
            &mut Lines::new(&mut lines),
        ),
        Err(said) => {
            let output = if said.errors { 2 } else { 1 };
            io::write_all(output, &lines[..said.used])
        }
    }
}
