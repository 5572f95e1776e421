// The line of a call on lent words, written into a buffer that the caller lends: the numbers of the call, and the
// point and the outputs of the state that it left. The line is put straight into the buffer, once it is known to have
// room for it. The promises cite `specs/LentLines.antt`, the machine's `Rehearse.antt` and `Writing.antt`,
// `write_bytes`'s `specs/Put.antt` and `words_store`'s `specs/ModelIn.antt`.
ghost use Rattle.std.specs.Prelude.{◌≡◌, ℕ, ◌+◌, ◌*◌, ◌≤◌, length};
ghost use Rattle.machine.specs.Rehearse.{answer_line, outputs_text};
ghost use Rattle.words_store.specs.ModelIn.{WordsThere, model_in, part_count};
ghost use Rattle.machine.specs.Writing.{WrittenAs};
ghost use Rattle.machine.specs.Model.{most_parts};
ghost use Rattle.write_bytes.specs.Put.{Put};
ghost use Rattle.refusals.specs.Unwritten.{written_of};
ghost use Rattle.write_lines.specs.LentLines.{LineInto, lent_answer};

use crate::length::output_length;
use crate::line::{numbers_length, put_numbers, write_refused};
use crate::text::put_output;
use machine::model::Outcome;
use refusals::{Refusal, Unwritten};
use words_store::form::spelled;
use words_store::lookup::{output_at, parts_of, point_of};
use write_bytes::put::put_byte;

// How many bytes the line of a committed advance has at most besides its outputs, five numbers of 20 digits with four
// blanks and a line feed, and how many each output, a blank, a hyphen and 19 digits: 777 for 32 parts.
const MOST_NUMBERS: usize = 105;

const MOST_OUTPUT: usize = 21;

// How many bytes the outputs of all parts take.
fn outputs_length(table: &[u64], state: &[u64]) -> usize
    requires words_there { WordsThere table.now state.now }
    requires few_parts { part_count table.now ≤ most_parts }
    ensures { result ≡ length (outputs_text (model_in table.now state.now).parts) }
{
    let mut length: usize = 0;
    for i in 0..parts_of(table) {
        length += output_length(output_at(state, i));
    }
    length
}

// The outputs of all parts, one after the other, into a line that has room for them.
fn put_outputs(line: &mut [u8], at: usize, table: &[u64], state: &[u64]) -> usize
    requires words_there { WordsThere table.now state.now }
    requires has_room { at + length (outputs_text (model_in table.now state.now).parts) ≤ length line.old }
    ensures { Put (21 * part_count table.now)
        (outputs_text (model_in table.now state.now).parts) at line.old
        line.new result }
{
    let mut next = at;
    for i in 0..parts_of(table) {
        next = put_output(line, next, output_at(state, i));
    }
    next
}

// The line of a call that ended so, the state `state` being that of its answer, for a caller whose proof knows that
// the words are there. No line shows the last ceiling. It is measured before it is put only where the buffer is
// shorter than the longest line of so many parts.
pub fn write_spelled(
    table: &[u64],
    state: &[u64],
    outcome: Outcome,
    buf: &mut [u8],
) -> Result<usize, Unwritten>
    requires words_there { WordsThere table.now state.now }
    requires few_parts { part_count table.now ≤ most_parts }
    ensures written_as { (ceiling : ℕ) →
        WrittenAs 0 (answer_line (lent_answer table.now state.now outcome.number outcome.step
        outcome.rounds outcome.revisions ceiling)) buf.old buf.new (written_of result) }
    ensures length_bound { (written_of result).length ≤ 1024 }
{
    if outcome.number != 0 {
        return write_refused(outcome.number, buf);
    }
    let now = point_of(state);
    if buf.len() < MOST_NUMBERS + MOST_OUTPUT * parts_of(table) {
        let length = numbers_length(now, outcome) + outputs_length(table, state) + 1;
        if buf.len() < length {
            return Err(Unwritten::Short(length));
        }
    }
    let at = put_numbers(buf, now, outcome);
    let at = put_outputs(buf, at, table, state);
    Ok(put_byte(buf, at, b'\n'))
}

// The line of a call that ended so, whatever the words are: 24 where they spell no model, then as `write_spelled`.
// Whether the model is sound does not count: any answer's numbers are written.
pub fn write_lent(
    table: &[u64],
    state: &[u64],
    outcome: Outcome,
    buf: &mut [u8],
) -> Result<usize, Unwritten>
    ensures line_into { LineInto table.now state.now outcome.number outcome.step outcome.rounds
        outcome.revisions buf.old buf.new (written_of result) }
    ensures length_bound { (written_of result).length ≤ 1024 }
{
    Refusal::NotSound.when(!spelled(table, state))?;
    write_spelled(table, state, outcome, buf)
}
