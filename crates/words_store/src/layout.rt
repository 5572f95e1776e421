// Where each word of a table and of a state is, and a word of a part's record, read and written. Both have a header of
// two words, then a record for each part. A field is numbered from the header on.
//
// The contracts cite `specs/Layout.antt`, which has the same numbers.
ghost use Rattle.std.specs.Prelude.{◌≡◌, ◌+◌, ◌*◌, ◌<◌, length};
ghost use Rattle.words_store.specs.Layout.{in_state};
ghost use Rattle.words_store.specs.ModelIn.{slot};
ghost use Rattle.words_store.specs.WordsWritten.{FieldPut};

use words_codec::fields::Field;

// How many words come before the records, and how many words a record has in a table and in a state.
pub const HEADER: usize = 2;

pub const TABLE_RECORD: usize = 18;

pub const STATE_RECORD: usize = 9;

// The fields of a record in a table. `FIRST_SPAN` is the first of eight.
pub const KIND: usize = 2;

pub const PREFERENCE: usize = 3;

pub const A: usize = 4;

pub const B: usize = 5;

pub const P: usize = 6;

pub const SPAN_COUNT: usize = 7;

pub const FIRST_SPAN: usize = 8;

pub const PORT0: usize = 16;

pub const PORT1: usize = 17;

pub const RATIO: usize = 18;

pub const ORDER: usize = 19;

// The fields of a record in a state. A signal has a code, the field named here, and a value, the field after it.
pub const LOCAL: usize = 2;

pub const HELD: usize = 3;

pub const SPEED: usize = 4;

pub const SIGNAL: usize = 5;

pub const OUTPUT: usize = 7;

pub const SIDE: usize = 9;

pub const MARK: usize = 10;

// Field `f` of part `i`, in records of `RECORD` words.
pub fn field<const RECORD: usize, T: Field>(words: &[u64], i: usize, f: usize) -> T
    requires { RECORD * i + f < length words.now }
    ensures { result ≡ T.decoded (slot words.now (RECORD * i + f)) }
{
    T::decode(words[RECORD * i + f])
}

// Field `f` of part `i` in a state, written anew.
pub fn put_field<T: Field>(state: &mut [u64], i: usize, f: usize, v: T)
    requires { in_state i f < length state.old }
    ensures put { FieldPut (in_state i f) (T.encoded v) state.old state.new }
    ensures fits { T.Fits v }
{
    state[STATE_RECORD * i + f] = v.encode();
}
