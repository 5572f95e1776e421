// A model by value, put into the words of a table and of a state.
//
// The contracts cite `specs/TableRuns.antt`, `specs/ComponentPut.antt`, `specs/ModelPut.antt` and `specs/PutInto.antt`:
// what was written is read back, from words within their limits.
ghost use Rattle.std.specs.Prelude.{◌≡◌, cond, ◌+◌, ◌≤◌, ◌<◌, length};
ghost use Rattle.refusals.specs.Numbers.{refused_number};
ghost use Rattle.words_store.specs.ModelIn.{state_words, table_words};
ghost use Rattle.words_transfer.specs.TableRuns.{OperandsPut, SpansPut, WiresPut};
ghost use Rattle.words_transfer.specs.ComponentPut.{ComponentPut};
ghost use Rattle.words_transfer.specs.ModelPut.{HeaderPut, KeptBehind, ModelPut};
ghost use Rattle.words_transfer.specs.PutInto.{PutInto};

use machine::model::{Model, PARTS};
use machine::part::{Component, Part};
use refusals::Refusal;
use words_codec::fields::Field;
use words_store::layout::{
    A, B, FIRST_SPAN, KIND, ORDER, P, PORT0, PORT1, PREFERENCE, RATIO, SPAN_COUNT, TABLE_RECORD,
};
use words_store::lookup::{state_words, table_words};
use words_store::update::{put_point, put_state};

// The word of a place that no span is in.
const NO_SPAN: u64 = 0;

// The kind, the preference, the operands and the count of spans of part `i`.
fn put_operands(table: &mut [u64], i: usize, c: &Component)
    requires { table_words (i + 1) ≤ length table.old }
    ensures { OperandsPut i c.now.kind c.now.preference c.now.a c.now.b c.now.p c.now.span_count table.old table.new }
{
    let k = TABLE_RECORD * i;
    table[k + KIND] = c.kind.encode();
    table[k + PREFERENCE] = c.preference as u64;
    table[k + A] = c.a.encode();
    table[k + B] = c.b.encode();
    table[k + P] = c.p as u64;
    table[k + SPAN_COUNT] = c.span_count as u64;
}

// The word of a span's place: the span where one is there, else 0.
fn span_word(span: u32, used: bool) -> u64
    ensures value { result ≡ cond used span 0 }
    ensures fits { result < 4294967296 }
{
    if used { span as u64 } else { NO_SPAN }
}

// The eight places for spans of part `i`, of which those in use come first. The others are 0.
fn put_spans(table: &mut [u64], i: usize, c: &Component)
    requires { table_words (i + 1) ≤ length table.old }
    ensures { SpansPut i c.now.span_count c.now.spans table.old table.new }
{
    let k = TABLE_RECORD * i + FIRST_SPAN;
    for (j, span) in c.spans.iter().enumerate() {
        table[k + j] = span_word(*span, j < c.span_count);
    }
}

// The ports of part `i`, its ratio, and the number at place `i` of the part order.
fn put_wires(table: &mut [u64], i: usize, p: &Part, number: u16)
    requires { table_words (i + 1) ≤ length table.old }
    ensures { WiresPut i p.now.component.port0 p.now.component.port1 p.now.ratio number table.old table.new }
{
    let k = TABLE_RECORD * i;
    table[k + PORT0] = p.component.port0.encode();
    table[k + PORT1] = p.component.port1.encode();
    table[k + RATIO] = p.ratio.encode();
    table[k + ORDER] = number as u64;
}

// What the table fixes of part `i`, its ratio, and the number at place `i` of the part order.
fn put_component(table: &mut [u64], i: usize, p: &Part, number: u16)
    requires { table_words (i + 1) ≤ length table.old }
    ensures { ComponentPut i p.now.component p.now.ratio number table.old table.new }
{
    put_operands(table, i, &p.component);
    put_spans(table, i, &p.component);
    put_wires(table, i, p, number);
}

// The default magnitude and the count of parts.
fn put_header(table: &mut [u64], magnitude: u8, count: usize)
    requires { 2 ≤ length table.old }
    ensures { HeaderPut magnitude count table.old table.new }
{
    table[0] = magnitude as u64;
    table[1] = count as u64;
}

// The model, put into words that have room for it, as the caller's proof knows. The words after the model's are kept.
pub fn put_fitting(m: Model, table: &mut [u64], state: &mut [u64])
    requires few_parts { m.count ≤ 32 }
    requires table_there { table_words m.count ≤ length table.old }
    requires state_there { state_words m.count ≤ length state.old }
    ensures model_put { ModelPut m table.new state.new }
    ensures kept_behind { KeptBehind m.count table.old table.new state.old
        state.new }
{
    put_header(table, m.magnitude, m.count);
    put_point(state, m.point);
    for i in 0..m.count {
        let p = m.parts[i];
        put_component(table, i, &p, m.order[i]);
        put_state(state, i, p.state);
    }
}

// The model, put into words, whatever they are: 24 where the model counts more than 32 parts, else 25 where the table's
// or the state's words are too few; then no word is written.
#[tactic(auto, using(crate::proofs::Outcomes::put_outcomes))]
pub fn put_model(m: Model, table: &mut [u64], state: &mut [u64]) -> Result<(), Refusal>
    ensures { PutInto m table.old table.new state.old state.new (refused_number result) }
{
    let count = m.count;
    if count > PARTS {
        return Err(Refusal::NotSound);
    }
    if table.len() < table_words(count) || state.len() < state_words(count) {
        return Err(Refusal::TooShort);
    }
    put_fitting(m, table, state);
    Ok(())
}
