// The state of a part, its three numbers alone, its output alone, and the point, written into the words of a state.
//
// The contracts cite `specs/Updated.antt`, `specs/NumbersPut.antt` and `specs/Shown.antt`: what was written is read
// back, a word that is free is 0 (`specs/Clean.antt`), and every other word is kept.
ghost use Rattle.std.specs.Prelude.{◌≡◌, ◌+◌, ◌*◌, ◌≤◌, ◌<◌, length};
ghost use Rattle.words_codec.specs.Encoded.{encode_presence, encode_value};
ghost use Rattle.words_codec.specs.Sized.{FitsSignal};
ghost use Rattle.words_store.specs.Layout.{in_state};
ghost use Rattle.words_store.specs.WordsWritten.{PairPut};
ghost use Rattle.words_store.specs.ModelIn.{WordsThere, part_count, state_words};
ghost use Rattle.words_store.specs.Updated.{Copied, PointPut, StatePut};
ghost use Rattle.words_store.specs.NumbersPut.{NumbersPut};
ghost use Rattle.words_store.specs.Shown.{OutputPut};

use crate::layout::{HELD, LOCAL, MARK, OUTPUT, SIDE, SIGNAL, SPEED, put_field};
use crate::lookup::{parts_of, state_words};
use machine::part::State;
use machine::signal::Signal;
use machine::time::{LocalTicks, Point};
use words_codec::fields::Field;

// The value's word of a signal that is absent.
const NO_VALUE: u64 = 0;

// The two words of a signal: its code, 0 where it is absent, else 1, and its value.
fn encode_signal(s: Signal) -> (u64, u64)
    ensures code { result.0 ≡ encode_presence s }
    ensures value { result.1 ≡ encode_value s }
    ensures fits { FitsSignal s }
{
    match s {
        Signal::Absent => (0, NO_VALUE),
        Signal::Value(v) => (1, v.encode()),
    }
}

// The signal of part `i` whose code is field `f`, written anew. Its value is the field after it.
fn put_signal(state: &mut [u64], i: usize, f: usize, s: Signal)
    requires { in_state i (f + 1) < length state.old }
    ensures put { PairPut (in_state i f) (encode_presence s) (in_state i (f + 1)) (encode_value s)
        state.old state.new }
    ensures fits { FitsSignal s }
{
    let (code, value) = encode_signal(s);
    put_field(state, i, f, code);
    put_field(state, i, f + 1, value);
}

// The state of part `i`, written anew.
pub fn put_state(state: &mut [u64], i: usize, s: State)
    requires { state_words (i + 1) ≤ length state.old }
    ensures { StatePut i s state.old state.new }
{
    put_field(state, i, LOCAL, s.local.0);
    put_field(state, i, HELD, s.held);
    put_field(state, i, SPEED, s.speed);
    put_signal(state, i, SIGNAL, s.signal);
    put_signal(state, i, OUTPUT, s.output);
    put_field(state, i, SIDE, s.side);
    put_field(state, i, MARK, s.mark);
}

// The local count, the held number and the speed of part `i`, written anew.
pub fn put_numbers(state: &mut [u64], i: usize, local: LocalTicks, held: i64, speed: i64)
    requires { state_words (i + 1) ≤ length state.old }
    ensures { NumbersPut i local.0 held speed state.old state.new }
{
    put_field(state, i, LOCAL, local.0);
    put_field(state, i, HELD, held);
    put_field(state, i, SPEED, speed);
}

// The stored output of part `i`, written anew.
pub fn put_output(state: &mut [u64], i: usize, out: Signal)
    requires { state_words (i + 1) ≤ length state.old }
    ensures { OutputPut i out state.old state.new }
{
    put_signal(state, i, OUTPUT, out);
}

// The point, written anew.
pub fn put_point(state: &mut [u64], to: Point)
    requires { 2 ≤ length state.old }
    ensures { PointPut to state.old state.new }
{
    state[0] = to.t.0;
    state[1] = to.n;
}

// All words of a state of that many parts, copied into another's.
pub fn copy_state(old: &[u64], parts: usize, new: &mut [u64])
    requires old_there { state_words parts ≤ length old.now }
    requires new_there { state_words parts ≤ length new.old }
    ensures { Copied (state_words parts) old.now new.old new.new }
{
    for i in 0..state_words(parts) {
        new[i] = old[i];
    }
}

// The state of a table copied, as a call leaves it that is refused.
pub fn kept_in(table: &[u64], old: &[u64], new: &mut [u64])
    requires old_there { WordsThere table.now old.now }
    requires new_there { WordsThere table.now new.old }
    ensures { let words = state_words (part_count table.now) in
        Copied words old.now new.old new.new }
{
    copy_state(old, parts_of(table), new);
}
