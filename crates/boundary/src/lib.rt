// The calls `load`, `advance`, `preview`, `save` and `sheet` for programs in Rust and C, through a static library. A
// model lies in words of 64 bits that the caller lends, as the crate `words_store` lays down in its
// `specs/ModelIn.antt`: those of a table, 18 for each part and 2 before them, and those of a state, 9 for each part and
// 2 before them. The calls work in the caller's own memory. Each returns its number whatever is lent; of the answer's
// words those that `out` has room for are written into it, from the first on, and the words of `out` after them are
// kept. The contracts cite `specs/Exported.antt`; they ask nothing of the caller but that each slice is one, and that
// what is lent for writing overlaps no other.
#![tactic(auto)]

ghost use Rattle.std.specs.Prelude.{◌≡◌, [], ◌∷◌, ◌≤◌, length, set};
ghost use Rattle.refusals.specs.Unwritten.{written_of};
ghost use Rattle.boundary.specs.PutFront.{put_front};
ghost use Rattle.boundary.specs.Exported.{AdvancedWords, LoadedWords, PreviewedWords, PrintedInto, PrintedWords};
ghost use Rattle.boundary.specs.Exported.{SavedWords, outcome_lent, outcome_words};

use advance_call::advance_into;
use load_call::load;
use machine::model::Outcome;
use preview_call::preview_into;
use refusals::{Refusal, Unwritten, number_in};
use save_call::save;
use sheet_call::sheet;
use words_transfer::intake::put_model;

// How many words spell how a call ended.
const OUTCOME: usize = 5;

// A word of `out` written, where `out` has that place. It is written by index: no clause says what a slice holds once a
// place that `get_mut` lent goes back, which `returns` asks for.
fn put_word(out: &mut [u64], at: usize, word: u64)
    ensures { out.new ≡ set out.old at word }
{
    if at < out.len() {
        out[at] = word;
    }
}

// A load's numbers, or those of a call that writes bytes.
fn put_found(out: &mut [u64], number: u64, position: u64)
    ensures { out.new ≡ put_front (number ∷ position ∷ []) out.old }
{
    put_word(out, 0, number);
    put_word(out, 1, position);
}

// An advance's numbers, or a preview's.
fn put_counts(out: &mut [u64], ended: Outcome)
    ensures { out.new ≡ put_front (outcome_words ended) out.old }
{
    put_word(out, 0, ended.number);
    put_word(out, 1, ended.step);
    put_word(out, 2, ended.rounds);
    put_word(out, 3, ended.revisions);
    put_word(out, 4, ended.ceiling);
}

// What a call that writes bytes returned, as its number and its length, which the exported calls answer by
// (`WrittenWords`).
fn told(written: Result<usize, Unwritten>) -> (u64, usize)
    ensures number { result.0 ≡ (written_of written).number }
    ensures length { result.1 ≡ (written_of written).length }
{
    match written {
        Ok(length) => (0, length),
        Err(unwritten) => (unwritten.number(), unwritten.needed()),
    }
}

// How a call ended, by the words that an advance or a preview writes.
fn outcome_in(outcome: &[u64]) -> Outcome
    requires { 5 ≤ length outcome.now }
    ensures { result ≡ outcome_lent outcome.now }
{
    Outcome {
        number: outcome[0],
        step: outcome[1],
        rounds: outcome[2],
        revisions: outcome[3],
        ceiling: outcome[4],
    }
}

// The table at the start of a stream, loaded into the words of a table and of a state. The words for `out` are two: the
// number, which is the answer too, and the position. The number is 25 where the table is accepted and its words or the
// state's are too few.
#[unsafe(no_mangle)]
pub extern "C" fn dozhumek_load(
    stream: &[u8],
    table: &mut [u64],
    state: &mut [u64],
    out: &mut [u64],
) -> u64
    ensures { LoadedWords stream.now
        table.old table.new
        state.old state.new
        out.old out.new result }
{
    match load(stream) {
        Ok(accepted) => {
            let number = number_in(put_model(accepted.model, table, state));
            put_found(out, number, accepted.position as u64);
            number
        }
        Err(refused) => {
            let number = refused.refusal.number();
            put_found(out, number, refused.position as u64);
            number
        }
    }
}

// One advance, by at most `wanted`, of the model that the words spell, whatever they are. The words of the new state
// are the caller's to take up where the number is 0. The words for `out` are five: the number, which is the answer too,
// the step, the rounds, the revisions and the last ceiling. The number is 25 where nothing else bars the call and the
// new state's words are too few.
#[unsafe(no_mangle)]
pub extern "C" fn dozhumek_advance(
    table: &[u64],
    old: &[u64],
    wanted: u64,
    new: &mut [u64],
    out: &mut [u64],
) -> u64
    ensures { AdvancedWords table.now old.now wanted
        new.old new.new
        out.old out.new result }
{
    let ended = advance_into(table, old, wanted, new);
    put_counts(out, ended);
    ended.number
}

// What an advance by at most `wanted` would answer, of the model that the words spell, whatever they are. The number
// and the words for `out` are those of the advance. Written into `new` is the state of the answer's model, which is the
// one handed in where the call is refused; no word of `new` where the words spell no model or it is too short. The
// words handed in stay the caller's model whatever comes of it. It and the advance are two exported names, whose bodies
// differ in the call alone.
#[unsafe(no_mangle)]
pub extern "C" fn dozhumek_preview(
    table: &[u64],
    old: &[u64],
    wanted: u64,
    new: &mut [u64],
    out: &mut [u64],
) -> u64
    ensures { PreviewedWords table.now old.now wanted
        new.old new.new
        out.old out.new result }
{
    let ended = preview_into(table, old, wanted, new);
    put_counts(out, ended);
    ended.number
}

// The bytes of the table of the model that the words spell, whatever they are, written into `buffer`, whose bytes after
// them are kept. The words for `out` are two: the number, which is the answer too, and the length. The number is 24
// where the words spell no sound model; it is 25 where the buffer is shorter than the bytes, and the length then the
// one that they need.
#[unsafe(no_mangle)]
pub extern "C" fn dozhumek_save(
    table: &[u64],
    state: &[u64],
    buffer: &mut [u8],
    out: &mut [u64],
) -> u64
    ensures { SavedWords table.now state.now
        buffer.old buffer.new
        out.old out.new result }
{
    let (answer, length) = told(save(table, state, buffer));
    put_found(out, answer, length as u64);
    answer
}

// The sheet line of an answer whose numbers are the first words of `outcome`, written into `buffer`: 24 where they are
// too few to spell an answer, as where the words of the table and of the state spell no sound model.
fn print_words(
    table: &[u64],
    state: &[u64],
    outcome: &[u64],
    first: usize,
    second: usize,
    third: usize,
    buffer: &mut [u8],
) -> Result<usize, Unwritten>
    ensures { PrintedInto table.now state.now outcome.now first second third
        buffer.old buffer.new (written_of result) }
{
    if outcome.len() < OUTCOME {
        return Err(Unwritten::Refused(Refusal::NotSound));
    }
    let ended = outcome_in(outcome);
    sheet(table, state, ended, first, second, third, buffer)
}

// The sheet line of an answer. The words of a table and of a state spell its model, those of `outcome` its five
// numbers, as an advance or a preview writes them into its `out`; all may be any words. The parts whose outputs it
// shows are given by number. The line's 79 bytes are written into `buffer`, whose bytes after them are kept. The words
// for `out` are two: the number, which is the answer too, and the length. The number is 24 where the words spell no
// sound model or the outcome's are fewer than five, 26 where a chosen part is not there or a number is wider than its
// field; it is 25 where the buffer is shorter than the line, and the length then 79.
#[unsafe(no_mangle)]
pub extern "C" fn dozhumek_sheet(
    table: &[u64],
    state: &[u64],
    outcome: &[u64],
    first: u64,
    second: u64,
    third: u64,
    buffer: &mut [u8],
    out: &mut [u64],
) -> u64
    ensures { PrintedWords table.now state.now outcome.now first second third
        buffer.old buffer.new
        out.old out.new result }
{
    let (number, length) = told(print_words(
        table,
        state,
        outcome,
        first as usize,
        second as usize,
        third as usize,
        buffer,
    ));
    put_found(out, number, length as u64);
    number
}
