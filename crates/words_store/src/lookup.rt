// How many words a table and a state have, and a part, a point and a place of the part order, read from them. Each
// function that reads asks that the words of what it reads are there; what is in them is free.
//
// The contracts cite `specs/ModelIn.antt`, and `specs/Form.antt` for the largest word.
ghost use Rattle.std.specs.Prelude.{◌≡◌, ◌+◌, ◌*◌, ◌%◌, ◌≤◌, ◌<◌, length};
ghost use Rattle.words_codec.specs.Decoded.{decode_signal};
ghost use Rattle.words_store.specs.Layout.{in_state};
ghost use Rattle.words_store.specs.ModelIn.{slot, part_count, table_words, state_words, ordered_part};
ghost use Rattle.words_store.specs.ModelIn.{stored_component, stored_part, stored_point, stored_spans};
ghost use Rattle.words_store.specs.ModelIn.{stored_state};
ghost use Rattle.words_store.specs.Form.{any_word};

use crate::layout::{
    A, B, FIRST_SPAN, HEADER, HELD, KIND, LOCAL, MARK, ORDER, OUTPUT, P, PORT0, PORT1, PREFERENCE,
    RATIO, SIDE, SIGNAL, SPAN_COUNT, SPEED, STATE_RECORD, TABLE_RECORD, field,
};
use machine::model::PARTS;
use machine::part::{Component, Kind, Part, SPANS, Source, State};
use machine::signal::Signal;
use machine::time::{LocalTicks, Point, Ticks};
use words_codec::fields::decode_signal;

// How many words the table of the most parts has, and a state of it.
pub const TABLE_ROOM: usize = TABLE_RECORD * PARTS + HEADER;

pub const STATE_ROOM: usize = STATE_RECORD * PARTS + HEADER;

// How many words the table of that many parts has. A table's and a state's each keep the name that callers and clauses
// have for it: with a const parameter in its place the one line would be two.
pub fn table_words(parts: usize) -> usize
    requires { table_words parts ≤ any_word }
    ensures { result ≡ table_words parts }
{
    TABLE_RECORD * parts + HEADER
}

// And how many a state of it has.
pub fn state_words(parts: usize) -> usize
    requires { state_words parts ≤ any_word }
    ensures { result ≡ state_words parts }
{
    STATE_RECORD * parts + HEADER
}

// How many parts a table has.
pub fn parts_of(table: &[u64]) -> usize
    requires { 2 ≤ length table.now }
    ensures { result ≡ part_count table.now }
{
    table[1] as usize
}

// The default magnitude of a table.
pub fn magnitude_of(table: &[u64]) -> u8
    requires { 2 ≤ length table.now }
    ensures { result ≡ slot table.now 0 % 256 }
{
    (table[0] % 256) as u8
}

// The point at which a state is.
#[tactic(auto, unfolding(crate::specs::ModelIn::stored_point))]
pub fn point_of(state: &[u64]) -> Point
    requires { 2 ≤ length state.now }
    ensures { result ≡ stored_point state.now }
{
    Point {
        t: Ticks(state[0]),
        n: state[1],
    }
}

// The number at place `i` of the part order.
#[tactic(auto, unfolding(crate::specs::ModelIn::ordered_part))]
pub fn ordered_part(table: &[u64], i: usize) -> usize
    requires { table_words (i + 1) ≤ length table.now }
    ensures { result ≡ ordered_part table.now i }
{
    (field::<TABLE_RECORD, u64>(table, i, ORDER) % 65536) as usize
}

// The eight places for spans of part `i`.
fn spans_at(table: &[u64], i: usize) -> [u32; SPANS]
    requires { table_words (i + 1) ≤ length table.now }
    ensures { result ≡ stored_spans table.now i }
{
    let k = TABLE_RECORD * i + FIRST_SPAN;
    let mut spans = [0u32; SPANS];
    for (j, span) in spans.iter_mut().enumerate() {
        *span = (table[k + j] % 4294967296) as u32;
    }
    spans
}

// What the table fixes of part `i`.
#[tactic(auto, unfolding(crate::specs::ModelIn::stored_component))]
pub fn component_at(table: &[u64], i: usize) -> Component
    requires { table_words (i + 1) ≤ length table.now }
    ensures { result ≡ stored_component table.now i }
{
    Component {
        kind: field::<TABLE_RECORD, _>(table, i, KIND),
        preference: (field::<TABLE_RECORD, u64>(table, i, PREFERENCE) % 256) as u8,
        a: field::<TABLE_RECORD, _>(table, i, A),
        b: field::<TABLE_RECORD, _>(table, i, B),
        p: (field::<TABLE_RECORD, u64>(table, i, P) % 4294967296) as u32,
        span_count: span_count_at(table, i),
        spans: spans_at(table, i),
        port0: port0_at(table, i),
        port1: port1_at(table, i),
    }
}

// How many spans part `i` has, alone. This reader and the three after it are one line over `field` each, with the names
// that their callers know.
#[tactic(auto, unfolding(crate::specs::ModelIn::stored_component))]
pub fn span_count_at(table: &[u64], i: usize) -> usize
    requires { table_words (i + 1) ≤ length table.now }
    ensures { result ≡ (stored_component table.now i).span_count }
{
    field::<TABLE_RECORD, u64>(table, i, SPAN_COUNT) as usize
}

// What port 0 of part `i` is wired to, alone.
#[tactic(auto, unfolding(crate::specs::ModelIn::stored_component))]
pub fn port0_at(table: &[u64], i: usize) -> Source
    requires { table_words (i + 1) ≤ length table.now }
    ensures { result ≡ (stored_component table.now i).port0 }
{
    field::<TABLE_RECORD, _>(table, i, PORT0)
}

// What its port 1 is, alone.
#[tactic(auto, unfolding(crate::specs::ModelIn::stored_component))]
pub fn port1_at(table: &[u64], i: usize) -> Source
    requires { table_words (i + 1) ≤ length table.now }
    ensures { result ≡ (stored_component table.now i).port1 }
{
    field::<TABLE_RECORD, _>(table, i, PORT1)
}

// The kind of part `i`, alone.
#[tactic(auto, unfolding(crate::specs::ModelIn::stored_component))]
pub fn kind_at(table: &[u64], i: usize) -> Kind
    requires { table_words (i + 1) ≤ length table.now }
    ensures { result ≡ (stored_component table.now i).kind }
{
    field::<TABLE_RECORD, _>(table, i, KIND)
}

// The signal of part `i` whose code is field `f`. Its value is the field after it.
fn signal_at(state: &[u64], i: usize, f: usize) -> Signal
    requires { in_state i (f + 1) < length state.now }
    ensures { let words = state.now in
        result ≡ decode_signal (slot words (in_state i f)) (slot words (in_state i (f + 1))) }
{
    let code = field::<STATE_RECORD, u64>(state, i, f);
    decode_signal(code, field::<STATE_RECORD, u64>(state, i, f + 1))
}

// The state of part `i`.
#[tactic(auto, unfolding(crate::specs::ModelIn::stored_state))]
pub fn state_at(state: &[u64], i: usize) -> State
    requires { state_words (i + 1) ≤ length state.now }
    ensures { result ≡ stored_state state.now i }
{
    State {
        local: LocalTicks(field::<STATE_RECORD, _>(state, i, LOCAL)),
        held: field::<STATE_RECORD, _>(state, i, HELD),
        speed: field::<STATE_RECORD, _>(state, i, SPEED),
        signal: signal_at(state, i, SIGNAL),
        output: signal_at(state, i, OUTPUT),
        side: field::<STATE_RECORD, _>(state, i, SIDE),
        mark: field::<STATE_RECORD, _>(state, i, MARK),
    }
}

// The stored output of part `i`, alone.
#[tactic(auto, unfolding(crate::specs::ModelIn::stored_state))]
pub fn output_at(state: &[u64], i: usize) -> Signal
    requires { state_words (i + 1) ≤ length state.now }
    ensures { result ≡ (stored_state state.now i).output }
{
    signal_at(state, i, OUTPUT)
}

// The part `i`.
#[tactic(auto, unfolding(crate::specs::ModelIn::stored_part, crate::specs::ModelIn::stored_ratio))]
pub fn part_at(table: &[u64], state: &[u64], i: usize) -> Part
    requires table_there { table_words (i + 1) ≤ length table.now }
    requires state_there { state_words (i + 1) ≤ length state.now }
    ensures { result ≡ stored_part table.now state.now i }
{
    Part {
        component: component_at(table, i),
        ratio: field::<TABLE_RECORD, _>(table, i, RATIO),
        state: state_at(state, i),
    }
}
