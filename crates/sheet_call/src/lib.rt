// Sheet lines: an answer printed as a line of 78 columns and a line feed into a buffer that the caller lends. The call
// is `sheet`, on lent words; its contract cites `specs/SheetInto.antt`, which is made of the machine's
// `specs/Sheet.antt` and `specs/Writing.antt`.
#![tactic(auto)]

ghost use Rattle.std.specs.Prelude.{◌≡◌, ◌&&◌, ◌≤◌, ltb, length};
ghost use Rattle.machine.specs.Sheet.{sheet_line};
ghost use Rattle.refusals.specs.Numbers.{refused_number};
ghost use Rattle.refusals.specs.Unwritten.{written_of};
ghost use Rattle.write_bytes.specs.Put.{Put};
ghost use Rattle.sheet_call.specs.SheetInto.{SheetInto, lent_sheet_refusal, outcome_answer};

use crate::row::{counts_fit, put_refusal_row, put_step_row};
use machine::model::Outcome;
use refusals::{Refusal, Unwritten};
use sound_test::is_sound_in;
use words_store::lookup::{output_at, parts_of, point_of};

mod field;
mod row;

// How many bytes a line has, its line feed among them.
const LINE: usize = 79;

// Whether a table of so many parts has all three. They go with one another as three numbers, as the exported call
// hands them over and `SheetInto` takes them.
fn parts_there(count: usize, first: usize, second: usize, third: usize) -> bool
    ensures { result ≡ ltb first count && ltb second count && ltb third count }
{
    first < count && second < count && third < count
}

// What refuses a line before its room is looked at: 24, then 26.
fn refusal_of(
    table: &[u64],
    state: &[u64],
    outcome: Outcome,
    first: usize,
    second: usize,
    third: usize,
) -> Result<(), Refusal>
    ensures { refused_number result ≡ lent_sheet_refusal table.now state.now outcome first second third }
{
    Refusal::NotSound.when(!is_sound_in(table, state))?;
    Refusal::NotPrintable.when(!parts_there(parts_of(table), first, second, third))?;
    let shown = outcome.number != 0 || counts_fit(outcome);
    Refusal::NotPrintable.when(!shown)
}

// A line that nothing refuses, into a buffer that has room for it.
fn put_line(
    table: &[u64],
    state: &[u64],
    outcome: Outcome,
    first: usize,
    second: usize,
    third: usize,
    out: &mut [u8],
) -> usize
    requires not_refused { lent_sheet_refusal table.now state.now outcome first second third ≡ 0 }
    requires has_room { 79 ≤ length out.old }
    ensures { Put 79 (sheet_line (outcome_answer table.now state.now outcome) first second
        third) 0 out.old out.new result }
{
    if outcome.number != 0 {
        return put_refusal_row(out, outcome.number);
    }
    let now = point_of(state);
    let x = output_at(state, first);
    let y = output_at(state, second);
    let z = output_at(state, third);
    put_step_row(out, now, outcome, x, y, z)
}

// The sheet line of an answer, written into `out`: the model is that of lent words, whatever they are, `outcome` how
// the call ended, whatever its numbers are, and three parts are chosen by number. 24 where the words spell no sound
// model; then 26 where a chosen part is not there, or the answer is committed and one of its numbers is wider than its
// field; then 25 where `out` has no room for the line, with its length. The words of the table and of the state are
// kept, as their types say.
pub fn sheet(
    table: &[u64],
    state: &[u64],
    outcome: Outcome,
    first: usize,
    second: usize,
    third: usize,
    out: &mut [u8],
) -> Result<usize, Unwritten>
    ensures { SheetInto table.now state.now outcome first second third out.old
        out.new (written_of result) }
{
    refusal_of(table, state, outcome, first, second, third)?;
    if out.len() < LINE {
        return Err(Unwritten::Short(LINE));
    }
    Ok(put_line(table, state, outcome, first, second, third, out))
}
