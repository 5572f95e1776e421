// Whether words spell a model: all of them there, each code one that a case has, each number within its field. Of the
// span words of a part only those in use are tested.
//
// The contracts cite `specs/Form.antt`.
ghost use Rattle.std.specs.Prelude.{◌≡◌, ◌+◌, ◌≤◌, length};
ghost use Rattle.machine.specs.Model.{most_parts};
ghost use Rattle.words_store.specs.ModelIn.{state_words, table_words};
ghost use Rattle.words_store.specs.Form.{component_spelled, part_spelled, parts_spelled, spelled};
ghost use Rattle.words_store.specs.Form.{spans_used, words_within};

use crate::layout::{
    FIRST_SPAN, HEADER, KIND, LOCAL, PORT0, SPAN_COUNT, STATE_RECORD, TABLE_RECORD, field,
};
use crate::lookup::{parts_of, state_words, table_words};
use machine::model::PARTS;
use machine::part::{Kind, Mark, SPANS, Side};

// The largest word, and the largest numbers of 32, of 16 and of 8 bits.
const ANY: u64 = u64::MAX;

const ANY_32: u64 = u32::MAX as u64;

const ANY_16: u64 = u16::MAX as u64;

const ANY_8: u64 = u8::MAX as u64;

// The largest codes: of a kind, of a port, of a signal's presence, of a side and of a mark.
const LAST_KIND: u64 = Kind::Clapper as u64;

const LAST_PORT: u64 = ANY_16 + 1;

const LAST_PRESENCE: u64 = 1;

const LAST_SIDE: u64 = Side::Positive as u64;

const LAST_MARK: u64 = Mark::Falling as u64;

// The largest numbers in the words of a part: in those before its spans in the table, in its spans, in those after
// them, and in its state. The lists of `specs/Form.antt` say which field each word is. They are no constants: a
// constant is copied to be read.
static OPERAND_LIMITS: [u64; 6] = [LAST_KIND, ANY_8, ANY, ANY, ANY_32, ANY];

static SPAN_LIMITS: [u64; SPANS] = [ANY_32; SPANS];

static WIRE_LIMITS: [u64; 4] = [LAST_PORT, LAST_PORT, ANY, ANY_16];

static STATE_LIMITS: [u64; STATE_RECORD] = [
    ANY,
    ANY,
    ANY,
    LAST_PRESENCE,
    ANY,
    LAST_PRESENCE,
    ANY,
    LAST_SIDE,
    LAST_MARK,
];

// Whether the words from `k` on are within limits.
fn within(words: &[u64], k: usize, limits: &[u64]) -> bool
    requires { k + length limits.now ≤ length words.now }
    ensures { result ≡ words_within words.now k limits.now }
{
    for (j, most) in limits.iter().enumerate() {
        if words[k + j] > *most {
            return false;
        }
    }
    true
}

// How many span words are in use where a part counts so many spans.
fn spans_used(count: u64) -> usize
    ensures { result ≡ spans_used count }
{
    (count as usize).min(SPANS)
}

// Whether the record of part `i` in the table is within its limits. Its span words that are not in use are free.
#[tactic(auto, using(crate::specs::Spelling::spans_first), unfolding(crate::specs::Form::component_spelled))]
fn component_spelled(table: &[u64], i: usize) -> bool
    requires { table_words (i + 1) ≤ length table.now }
    ensures { result ≡ component_spelled table.now i }
{
    let k = TABLE_RECORD * i;
    let used = spans_used(field::<TABLE_RECORD, _>(table, i, SPAN_COUNT));
    within(table, k + KIND, &OPERAND_LIMITS)
        && within(table, k + FIRST_SPAN, &SPAN_LIMITS[..used])
        && within(table, k + PORT0, &WIRE_LIMITS)
}

// Whether both records of part `i` are.
#[tactic(auto, unfolding(crate::specs::Form::part_spelled))]
fn part_spelled(table: &[u64], state: &[u64], i: usize) -> bool
    requires table_there { table_words (i + 1) ≤ length table.now }
    requires state_there { state_words (i + 1) ≤ length state.now }
    ensures { result ≡ part_spelled table.now state.now i }
{
    component_spelled(table, i) && within(state, STATE_RECORD * i + LOCAL, &STATE_LIMITS)
}

// Whether those of the first `count` parts are.
#[tactic(auto, using(crate::specs::Spelling::parts_more, crate::specs::Spelling::parts_fail))]
fn parts_spelled(table: &[u64], state: &[u64], count: usize) -> bool
    requires few_parts { count ≤ most_parts }
    requires table_there { table_words count ≤ length table.now }
    requires state_there { state_words count ≤ length state.now }
    ensures { result ≡ parts_spelled table.now state.now count }
{
    for i in 0..count {
        if !part_spelled(table, state, i) {
            return false;
        }
    }
    true
}

// Whether the words spell a model, whatever they are.
#[tactic(auto, unfolding(crate::specs::Form::spelled))]
pub fn spelled(table: &[u64], state: &[u64]) -> bool
    ensures { result ≡ spelled table.now state.now }
{
    if table.len() < HEADER {
        return false;
    }
    let count = parts_of(table);
    table[0] <= ANY_8
        && count <= PARTS
        && table.len() >= table_words(count)
        && state.len() >= state_words(count)
        && parts_spelled(table, state, count)
}
